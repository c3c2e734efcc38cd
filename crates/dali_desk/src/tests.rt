ghost use Rattle.std.specs.Prelude.{◌≡◌, ◌≤◌, [], ◌∷◌, codes, decimal, IfOk};

use crate::{Damage, Job, Status, Usage, Why, exit_number, plan, run, status_line};
use dali_base::{OutOfMemory, Text, Words};
use dali_outside::{Fault, Faults, MemSite, MemSource};
use std::alloc::Global;
use std::test::Fail;

/// A text of these bytes.
fn text(alloc: Global, bytes: &[u8]) -> Result<Text, OutOfMemory>
    ensures { IfOk result (λ text. text ≡ bytes.now) }
{
    let mut text = Text::new(alloc);
    text.add(bytes)?;
    Ok(text)
}

fn words(alloc: Global, given: &[&[u8]]) -> Result<Words, OutOfMemory> {
    let mut words = Words::new(alloc);
    for word in given {
        words.push(text(alloc, word)?)?;
    }
    Ok(words)
}

/// No failures, or one: this call, with `went` bytes of its piece gone through.
fn faults(alloc: Global, fault: Option<Fault>) -> Result<Faults, OutOfMemory> {
    let mut faults = Faults::new(alloc);
    if let Some(fault) = fault {
        faults.push(fault)?;
    }
    Ok(faults)
}

const THREE_LINES: &[u8] = b"080000,PART,A\n080000,PART,B\n080001,ISSUE,A,MXN,100\n";

#[test]
fn other_words(rt: HostRuntime) -> Result<(), Fail> {
    let cases: [&[&[u8]]; 12] = [
        &[],
        &[b"day", b"\xff"],
        &[b"day"],
        &[b"day", b""],
        &[b"DAY", b"J"],
        &[b"day", b"J", b"J"],
        &[b"--help"],
        &[b"check", b"J"],
        &[b"init", b"J"],
        &[b"init", b"J", b"63"],
        &[b"init", b"J", b"064"],
        &[b"init", b"J", b"1099511627777"],
    ];
    for given in cases {
        let words = words(rt.alloc(), given)?;
        assert_eq!(rt; plan(&words), Err(Usage));
    }
    Ok(())
}

/// Without words nothing is read or printed.
#[test]
fn no_words(rt: HostRuntime) -> Result<(), Fail> {
    let alloc = rt.alloc();
    let words = Words::new(alloc);
    let mut source = MemSource::new(text(alloc, THREE_LINES)?, 20, Faults::new(alloc));
    let mut site = MemSite::new(alloc, 0, 64, 8, 0, Faults::new(alloc))?;
    assert_eq!(rt; run(alloc, &words, &mut source, &mut site), Status::Usage);
    assert!(rt; site.printed().is_empty());
    assert_eq!(rt; source.made(), 0);
    Ok(())
}

#[test]
fn status_lines(rt: HostRuntime) {
    let cases: [(Status, &[u8], u8); 8] = [
        (Status::Done, b"", 0),
        (Status::Invalid(Why::Form { line: 1 }), b"dali: invalid", 1),
        (
            Status::Usage,
            b"dali: usage: init JOURNAL SIZE, day JOURNAL, check, export JOURNAL, gen N, trial N, raise JOURNAL, gate JOURNAL, ship JOURNAL, follow JOURNAL",
            2,
        ),
        (Status::ReadFault, b"dali: read fault", 3),
        (Status::PrintFault, b"dali: print fault", 4),
        (Status::DiskFault, b"dali: disk fault", 5),
        (Status::LongFile, b"dali: long file", 9),
        (Status::OutOfMemory, b"dali: out of memory", 11),
    ];
    for (status, line, number) in cases {
        let mut into = [0; 160];
        let len = status_line(&status, &mut into);
        assert!(rt; len <= 160);
        assert_eq!(rt; &into[..len], line);
        assert_eq!(rt; exit_number(&status), number);
    }
}

#[test]
fn status_lines_with_numbers(rt: HostRuntime) {
    let (place, command, why) = (u64::MAX, u64::MAX, Damage::Illegal);
    let (need, left) = (u64::MAX, u64::MAX);
    let cases: [(Status, &[u8], u8); 6] = [
        (
            Status::Damaged { place, why },
            b"dali: damaged at 18446744073709551615: illegal",
            6,
        ),
        (
            Status::OtherDay { command: 2 },
            b"dali: other day at command 2",
            7,
        ),
        (
            Status::LongLine { command },
            b"dali: long line at command 18446744073709551615",
            8,
        ),
        (
            Status::JournalFull { need, left },
            b"dali: journal full: need 18446744073709551615, left 18446744073709551615",
            10,
        ),
        (
            Status::NoGate { place: 0 },
            b"dali: no gateway input at 0",
            12,
        ),
        (Status::BadFrame { place: 96 }, b"dali: bad frame at 96", 13),
    ];
    for (status, line, number) in cases {
        let mut into = [0; 160];
        let len = status_line(&status, &mut into);
        assert!(rt; len <= 160);
        assert_eq!(rt; &into[..len], line);
        assert_eq!(rt; exit_number(&status), number);
    }
}

/// The words `init J 64`. The last one is made of the number, so that its contract names it.
fn init_words(alloc: Global) -> Result<Words, OutOfMemory>
    ensures { IfOk result (λ words. words ≡ codes "init" ∷ codes "J" ∷ decimal 64 ∷ []) }
{
    let mut size = Text::new(alloc);
    size.add_number(64)?;
    let mut words = Words::new(alloc);
    words.push(text(alloc, b"init")?)?;
    words.push(text(alloc, b"J")?)?;
    words.push(size)?;
    Ok(words)
}

/// How `init J 64` ends over a disk of 64 bytes on which this call fails, and the bytes that stand there then.
fn init(alloc: Global, fault: Option<Fault>) -> Result<(Status, Text), OutOfMemory> {
    let words = init_words(alloc)?;
    let mut source = MemSource::new(Text::new(alloc), 1, Faults::new(alloc));
    let mut site = MemSite::new(alloc, 64, 0, 8, 64, faults(alloc, fault)?)?;
    let status = run(alloc, &words, &mut source, &mut site);
    Ok((status, text(alloc, site.bytes())?))
}

#[test]
fn an_empty_journal_is_made(rt: HostRuntime) -> Result<(), Fail> {
    let (status, bytes) = init(rt.alloc(), None)?;
    assert_eq!(rt; status, Status::Done);
    assert_eq!(rt; bytes.len(), 64);
    assert_eq!(rt;
        &bytes.bytes()[..17],
        b"DALI-JOURNAL\0\0\0\x01\0".as_slice()
    );
    for call in [1, 2] {
        let (status, _) = init(rt.alloc(), Some(Fault { call, went: 0 }))?;
        assert_eq!(rt; status, Status::DiskFault);
    }
    Ok(())
}

/// The job of `init` at the greatest size.
#[test]
fn the_greatest_size(rt: HostRuntime) -> Result<(), Fail> {
    let words = words(rt.alloc(), &[b"init", b"J", b"1099511627776"])?;
    let size = 1_099_511_627_776;
    assert_eq!(rt; plan(&words), Ok(Job::Init { size }));
    Ok(())
}

/// A block of a payment alone.
const BLOCK: &[u8] =
    b"BLOCK,1\nBUDGET,0\nLINE,A,MXN,7\nLINE,B,MXN,0\nITEM,P1,4,0:-4,1:4\nSET,0\nPART,4,0\nBOUND\nLAST\n";

/// The word `check`.
fn check_words(alloc: Global) -> Result<Words, OutOfMemory>
    ensures { IfOk result (λ words. words ≡ codes "check" ∷ []) }
{
    let mut words = Words::new(alloc);
    words.push(text(alloc, b"check")?)?;
    Ok(words)
}

/// How `check` ends that reads this input in pieces of 20 bytes, where this read and this print fail, and what it prints.
fn checked(
    alloc: Global,
    input: &[u8],
    read: Option<Fault>,
    print: Option<Fault>,
) -> Result<(Status, Text), OutOfMemory> {
    let words = check_words(alloc)?;
    let mut source = MemSource::new(text(alloc, input)?, 20, faults(alloc, read)?);
    let mut site = MemSite::new(alloc, 0, 64, 8, 0, faults(alloc, print)?)?;
    let status = run(alloc, &words, &mut source, &mut site);
    Ok((status, text(alloc, site.printed())?))
}

#[test]
fn blocks_are_checked(rt: HostRuntime) -> Result<(), Fail> {
    let form = Status::Invalid(Why::Form { line: 1 });
    let rows: [(&[u8], Status, &[u8]); 2] = [
        (BLOCK, Status::Done, b"VALID,OPTIMAL,4,1,4,0\n"),
        (&BLOCK[1..], form, b"INVALID,FORM,1\n"),
    ];
    for (input, wanted, line) in rows {
        let (status, printed) = checked(rt.alloc(), input, None, None)?;
        assert_eq!(rt; status, wanted);
        assert_eq!(rt; printed.bytes(), line);
    }
    Ok(())
}

#[test]
fn a_check_whose_read_or_print_fails(rt: HostRuntime) -> Result<(), Fail> {
    let read = Some(Fault { call: 2, went: 5 });
    let print = Some(Fault { call: 1, went: 5 });
    let rows: [(Option<Fault>, Option<Fault>, Status, &[u8]); 2] = [
        (read, None, Status::ReadFault, b""),
        (None, print, Status::PrintFault, b"VALID"),
    ];
    for (read, print, wanted, shown) in rows {
        let (status, printed) = checked(rt.alloc(), BLOCK, read, print)?;
        assert_eq!(rt; status, wanted);
        assert_eq!(rt; printed.bytes(), shown);
    }
    Ok(())
}

/// The words `gate J`.
fn gate_words(alloc: Global) -> Result<Words, OutOfMemory>
    ensures { IfOk result (λ words. words ≡ codes "gate" ∷ codes "J" ∷ []) }
{
    let mut words = Words::new(alloc);
    words.push(text(alloc, b"gate")?)?;
    words.push(text(alloc, b"J")?)?;
    Ok(words)
}

/// An empty journal of edition 1.
fn empty_journal(alloc: Global) -> Result<Text, OutOfMemory> {
    let mut image = text(alloc, b"DALI-JOURNAL\0\0\0\x01")?;
    for _ in 0..240 {
        image.push(0)?;
    }
    Ok(image)
}

/// How `gate J` over an empty journal ends that reads this input in pieces of 20 bytes, and what it prints.
fn gated(alloc: Global, input: &[u8]) -> Result<(Status, Text), OutOfMemory> {
    let words = gate_words(alloc)?;
    let mut source = MemSource::new(text(alloc, input)?, 20, Faults::new(alloc));
    let image = empty_journal(alloc)?;
    let mut site = MemSite::from_image(alloc, image, 64, 32, 512, Faults::new(alloc))?;
    let status = run(alloc, &words, &mut source, &mut site);
    Ok((status, text(alloc, site.printed())?))
}

/// The commands of two inboxes by turns, which may be used up; and inputs that are none.
#[test]
fn inboxes_are_merged(rt: HostRuntime) -> Result<(), Fail> {
    let rows: [(&[u8], Status, &[u8]); 4] = [
        (
            b"GATE,2\nINBOX,35\n080000,PART,A\n080001,ISSUE,A,MXN,5\n\nINBOX,14\n080000,PART,B\n\nTURNS,4\nABBA\n",
            Status::Done,
            b"1,OK\n2,OK\n3,OK\n",
        ),
        (
            b"GATE,2\nINBOX,35\n080000,PART,A\n080001,ISSUE,A,MXN,5\n\nINBOX,14\n080000,PART,B\n\nTURNS,3\nAAB\n",
            Status::Done,
            b"1,OK\n2,OK\n3,NO,BACK\n",
        ),
        (b"GATE,0", Status::NoGate { place: 5 }, b""),
        (b"", Status::NoGate { place: 0 }, b""),
    ];
    for (input, wanted, shown) in rows {
        let (status, printed) = gated(rt.alloc(), input)?;
        assert_eq!(rt; status, wanted);
        assert_eq!(rt; printed.bytes(), shown);
    }
    Ok(())
}
