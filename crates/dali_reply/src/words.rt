ghost use Rattle.std.specs.Prelude.{◌≡◌};
ghost use Rattle.dali_line.specs.Grammar.{kind_text};
ghost use Rattle.dali_reply.specs.Reply.{code_text, mark_text};

use dali_base::Kind;
use dali_machine::{Code, CycleMark};

/// The word that a refusal prints.
pub(crate) fn code_word(code: Code) -> &'static [u8]
    ensures { result.now ≡ code_text code }
{
    match code {
        Code::Form => b"FORM",
        Code::Back => b"BACK",
        Code::Closed => b"CLOSED",
        Code::There => b"THERE",
        Code::Full => b"FULL",
        Code::Name => b"NAME",
        Code::Total => b"TOTAL",
        Code::Short => b"SHORT",
        Code::Cash => b"CASH",
        Code::SelfDeal => b"SELF",
        Code::Late => b"LATE",
        Code::Value => b"VALUE",
        Code::Gone => b"GONE",
        Code::Linked => b"LINKED",
    }
}

/// The word of a cycle's mark.
pub(crate) fn mark_word(mark: CycleMark) -> &'static [u8]
    ensures { result.now ≡ mark_text mark }
{
    match mark {
        CycleMark::Optimal => b"OPTIMAL",
        CycleMark::Unfinished => b"UNFINISHED",
    }
}

/// The word of a kind.
pub(crate) fn kind_bytes(kind: Kind) -> &'static [u8]
    ensures { result.now ≡ kind_text kind }
{
    match kind {
        Kind::Dvp => b"DVP",
        Kind::Fop => b"FOP",
        Kind::Pay => b"PAY",
    }
}
