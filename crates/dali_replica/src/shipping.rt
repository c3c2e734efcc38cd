ghost use Rattle.std.specs.Prelude.{◌≡◌, ◌+◌, ◌++◌, length, IfOk, OnOk};
ghost use Rattle.std.specs.Int.{w32, w64, to_be_bytes};
ghost use Rattle.dali_record.specs.IsRecord.{IsWithin};
ghost use Rattle.dali_record.specs.RecordText.{record_text};
ghost use Rattle.dali_replica.specs.Frame.{head_text, frame_text};

use dali_base::{OutOfMemory, Text};
use dali_entry::Entry;
use dali_record::encode;
use std::alloc::Global;

/// The frame of an entry, as `specs/Frame.antt` defines it: the number of its command, counted from 1, the length of its record
/// and the record. The entry is within the bounds of a record (`IsRecord`). The only error is want of memory.
pub fn ship_frame(alloc: Global, number: u64, entry: &Entry) -> Result<Text, OutOfMemory>
    requires { IsWithin entry.now }
    ensures { IfOk result (λ text. text ≡ frame_text number (record_text entry.now)) }
{
    let bytes = encode(alloc, entry)?;
    let mut frame = Text::new(alloc);
    put_head(&mut frame, number, bytes.len())?;
    frame.add(bytes.bytes())?;
    Ok(frame)
}

/// Adds the head of a frame with a record of `size` bytes.
fn put_head(frame: &mut Text, number: u64, size: usize) -> Result<(), OutOfMemory>
    ensures { OnOk result (frame.new ≡ frame.old ++ head_text number size) }
{
    put_number(frame, number)?;
    put_size(frame, size)
}

/// Adds a number in eight bytes.
fn put_number(frame: &mut Text, number: u64) -> Result<(), OutOfMemory>
    ensures { OnOk result (frame.new ≡ frame.old ++ to_be_bytes w64 number) }
{
    frame.add(&number.to_be_bytes())
}

/// Adds a length in four bytes.
fn put_size(frame: &mut Text, size: usize) -> Result<(), OutOfMemory>
    ensures { OnOk result (frame.new ≡ frame.old ++ to_be_bytes w32 size) }
{
    let [_, _, _, _, first, second, third, fourth] = size.to_be_bytes();
    frame.add(&[first, second, third, fourth])
}
