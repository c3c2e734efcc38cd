ghost use Rattle.std.specs.Prelude.{◌≡◌, ℕ, ◌+◌, ◌<◌, ◌^◌, ◌==◌, ◌∷◌, ◌++◌, [], length, Err, IfOk, OnOk, IfSome, IfNone, IsTrue, MatchOption};
ghost use Rattle.dali_cert_text.specs.Form.{IsLine, is_line};
ghost use Rattle.dali_cert_text.specs.Rowed.{IsRow};
ghost use Rattle.dali_cert_text.specs.Stages.{Takes, Lacks};

use crate::block::BlockNo;
use crate::rows::read_row;
use crate::split::find;
use dali_cert_print::Row;
use std::alloc::Global;
use std::marker::Model;

/// The bytes of a block that weren't taken yet, and how many lines were.
#[derive(Drop)]
pub(crate) struct Unread<'a> {
    bytes: &'a [u8],
    taken: u64,
}

impl<'a> Model for Unread<'a> {
    ghost use Rattle.dali_cert_text.specs.Stages.{Unread};

    ghost Value = { Unread };

    ghost use Rattle.dali_cert_text.specs.UnreadLayout.{unread_of, IsCounted};

    ghost view = { unread_of };

    ghost invariant = { IsCounted };
}

impl<'a> Unread<'a> {
    /// All of the bytes.
    pub(crate) fn of(bytes: &'a [u8]) -> Unread<'a>
        ensures { result ≡ record { text = bytes.now; taken = 0 } }
    {
        Unread { bytes, taken: 0 }
    }

    /// Whether no byte is left.
    pub(crate) fn is_empty(&self) -> bool
        ensures { result ≡ (length self.now.text == 0) }
    {
        self.bytes.is_empty()
    }

    /// The refusal at the line that was taken last.
    pub(crate) fn form(&self) -> BlockNo
        ensures { result ≡ BlockNo.Form self.now.taken }
    {
        BlockNo::Form { line: self.taken }
    }

    /// The refusal at the line behind that.
    pub(crate) fn form_next(&self) -> BlockNo
        requires { 0 < length self.now.text }
        ensures { result ≡ BlockNo.Form (self.now.taken + 1) }
    {
        BlockNo::Form {
            line: self.taken + 1,
        }
    }

    /// Takes the next line, without its LF. `None` exactly where no LF is left, and then nothing is taken.
    fn next(&mut self) -> Option<&'a [u8]>
        ensures line { IfSome result (λ line. IsLine line.now × (self.old.text ≡ line.now ++ 10 ∷ self.new.text)) }
        ensures counted { IfSome result (λ line. self.new.taken ≡ self.old.taken + 1) }
        ensures none { IfNone result (IsLine self.old.text) }
    {
        let bytes = self.bytes;
        let at = find(bytes, b'\n')?;
        self.bytes = &bytes[at + 1..];
        self.taken += 1;
        Some(&bytes[..at])
    }
}

/// Takes the next line and reads its row, in a problem of so many items and lines.
pub(crate) fn next_row(
    alloc: Global,
    unread: &mut Unread<'_>,
    items: u32,
    lines: u32,
) -> Result<Row, BlockNo>
    ensures ok { IfOk result (λ row. Takes items lines row unread.old unread.new) }
    ensures row { IfOk result (λ row. IsRow items lines row) }
    ensures form { (k : ℕ) → result ≡ Err (BlockNo.Form k) → (k ≡ unread.old.taken + 1) × Lacks items lines unread.old }
    ensures shorter { OnOk result (length unread.new.text < length unread.old.text) }
{
    let number = unread.taken;
    let Some(line) = unread.next() else {
        return Err(BlockNo::Form { line: number + 1 });
    };
    let read = read_row(alloc, line, items, lines)?;
    match read {
        Some(row) => Ok(row),
        None => Err(unread.form()),
    }
}
