use crate::journals::{Row, is_met};
use crate::stage::HEADER;
use dali_desk::{Damage, Status};
use std::test::Fail;

/// A device that begins with these bytes and goes on with 0, its size, and how a day over it ends.
type Image = (&'static [u8], usize, Status);

const IMAGES: [Image; 16] = [
    // bad_header
    (
        b"",
        64,
        Status::Damaged {
            place: 0,
            why: Damage::Header,
        },
    ),
    (
        HEADER,
        16,
        Status::Damaged {
            place: 0,
            why: Damage::Short,
        },
    ),
    (
        b"",
        0,
        Status::Damaged {
            place: 0,
            why: Damage::Short,
        },
    ),
    // damaged_record: the length, the edition, and the byte of the choice
    (
        b"DALI-JOURNAL\0\0\0\x01\
\x01\0\0\0\xc8\x01\0\x0d080000,PART,A\0\
\x01\0\0\0\x11\x01\0\x0d080000,PART,B\0\0",
        64,
        Status::Damaged {
            place: 16,
            why: Damage::Length,
        },
    ),
    (
        b"DALI-JOURNAL\0\0\0\x01\
\x01\0\0\0\x11\0\0\x0d080000,PART,A\0\
\x01\0\0\0\x11\x01\0\x0d080000,PART,B\0\0",
        64,
        Status::Damaged {
            place: 16,
            why: Damage::Entry,
        },
    ),
    (
        b"DALI-JOURNAL\0\0\0\x01\
\x01\0\0\0\x11\x01\0\x0d080000,PART,A\x01\
\x01\0\0\0\x11\x01\0\x0d080000,PART,B\0\0",
        64,
        Status::Damaged {
            place: 16,
            why: Damage::Entry,
        },
    ),
    // image_zero_record
    (
        b"DALI-JOURNAL\0\0\0\x01\x01\0\0\0\x2a",
        64,
        Status::Damaged {
            place: 16,
            why: Damage::Entry,
        },
    ),
    // image_length_past
    (
        b"DALI-JOURNAL\0\0\0\x01\x01\0\0\0\x2b",
        64,
        Status::Damaged {
            place: 16,
            why: Damage::Length,
        },
    ),
    // image_length_greatest
    (
        b"DALI-JOURNAL\0\0\0\x01\x01\xff\xff\xff\xff",
        64,
        Status::Damaged {
            place: 16,
            why: Damage::Length,
        },
    ),
    // image_choice_on_part
    (
        b"DALI-JOURNAL\0\0\0\x01\x01\0\0\0\x15\x01\0\x0d080000,PART,A\x01\0\0\0\0",
        64,
        Status::Damaged {
            place: 16,
            why: Damage::Illegal,
        },
    ),
    // image_cycle_without_choice
    (
        b"DALI-JOURNAL\0\0\0\x01\x01\0\0\0\x12\x01\0\x0e080000,CYCLE,0\0",
        64,
        Status::Damaged {
            place: 16,
            why: Damage::Illegal,
        },
    ),
    // image_empty_choice
    (
        b"DALI-JOURNAL\0\0\0\x01\x01\0\0\0\x16\x01\0\x0e080000,CYCLE,0\x01\0\0\0\0",
        64,
        Status::OtherDay { command: 1 },
    ),
    // image_place_outside
    (
        b"DALI-JOURNAL\0\0\0\x01\x01\0\0\0\x18\x01\0\x0e080000,CYCLE,0\x01\0\x01\0\0\0\0",
        64,
        Status::Damaged {
            place: 16,
            why: Damage::Illegal,
        },
    ),
    // image_later_edition
    (
        b"DALI-JOURNAL\0\0\0\x01\x01\0\0\0\x11\x02\0\x0d080000,PART,A\0",
        64,
        Status::Damaged {
            place: 16,
            why: Damage::Entry,
        },
    ),
    // The edition falls: in a journal of edition 2 a command of edition 1 stands behind one of edition 2.
    (
        b"DALI-JOURNAL\x01\0\0\x01\
\x01\0\0\0\x11\x02\0\x0d080000,PART,A\0\
\x01\0\0\0\x11\x01\0\x0d080000,PART,B\0\0",
        64,
        Status::Damaged {
            place: 38,
            why: Damage::Entry,
        },
    ),
    // image_open_at_end
    (
        b"DALI-JOURNAL\0\0\0\x01\x01",
        17,
        Status::Damaged {
            place: 16,
            why: Damage::Length,
        },
    ),
];

/// Nothing is printed or written over a journal that isn't whole.
#[test]
fn images(rt: HostRuntime) -> Result<(), Fail> {
    for (n, image) in IMAGES.iter().enumerate() {
        let (device, size, status) = *image;
        let row = Row {
            device,
            size,
            file: b"080000,PART,A\n",
            fault: None,
            status,
            replies: b"",
            left: device,
        };
        assert!(rt; is_met(rt.alloc(), &row)?, "row {n}");
    }
    Ok(())
}
