ghost use Rattle.std.specs.Prelude.{◌≡◌, ◌++◌, OnOk, OnErr};
ghost use Rattle.std.specs.Int.{w16, w64};
ghost use Rattle.dali_record.specs.TreeText.{two_bytes, eight_bytes};
ghost use Rattle.dali_record.specs.Reading.{Gives, number_at};

use crate::refusal::RecordNo;
use dali_base::{OutOfMemory, Text};

/// The number in the first two bytes, and the bytes behind it.
pub(crate) fn two_of(bytes: &[u8]) -> Result<(u32, &[u8]), RecordNo>
    ensures { Gives (λ x. (x.0, x.1.now)) result (number_at w16 bytes.now) }
{
    if bytes.len() < 2 {
        return Err(RecordNo::Form);
    }
    let (front, rest) = bytes.split_at(2);
    let number = u16::from_be_bytes([front[0], front[1]]);
    Ok((number as u32, rest))
}

/// The number in the first eight bytes, and the bytes behind it.
pub(crate) fn eight_of(bytes: &[u8]) -> Result<(u64, &[u8]), RecordNo>
    ensures { Gives (λ x. (x.0, x.1.now)) result (number_at w64 bytes.now) }
{
    if bytes.len() < 8 {
        return Err(RecordNo::Form);
    }
    let (front, rest) = bytes.split_at(8);
    let number = u64::from_be_bytes([
        front[0], front[1], front[2], front[3], front[4], front[5], front[6], front[7],
    ]);
    Ok((number, rest))
}

/// Adds the number's last two bytes.
pub(crate) fn put_two(out: &mut Text, number: u32) -> Result<(), OutOfMemory>
    ensures ok { OnOk result (out.new ≡ out.old ++ two_bytes number) }
{
    let [_, _, high, low] = number.to_be_bytes();
    out.extend(&[high, low])
}

/// Adds the number of items of a list, in its last two bytes.
pub(crate) fn put_count(out: &mut Text, count: usize) -> Result<(), OutOfMemory>
    ensures ok { OnOk result (out.new ≡ out.old ++ two_bytes count) }
{
    let [_, _, _, _, _, _, high, low] = count.to_be_bytes();
    out.extend(&[high, low])
}

/// Adds the number's eight bytes.
pub(crate) fn put_eight(out: &mut Text, number: u64) -> Result<(), OutOfMemory>
    ensures ok { OnOk result (out.new ≡ out.old ++ eight_bytes number) }
{
    out.extend(&number.to_be_bytes())
}
