//! The limits that several crates need, each once. They are defined in `specs/Limits.antt`, and `hold` says that each
//! constant is the limit of its name.
ghost use Rattle.std.specs.Prelude.{◌≡◌, pos};
ghost use Rattle.dali_base.specs.Limits.{newest_edition, most_name, most_quantity, most_price, most_total, most_balance, most_rank, most_budget, most_lines, most_items, most_effects, most_effect, most_worth, most_worths, most_bound, most_multiplier, most_depth, most_fixes};

use crate::NEWEST;

/// The most bytes of a name.
pub const MOST_NAME: usize = 12;

/// The greatest quantity, the most cash in centavos, and the greatest value of one instruction in centavos.
pub const MOST_QUANTITY: u64 = 1_000_000_000_000_000;

/// The greatest price, in centavos.
pub const MOST_PRICE: u64 = 1_000_000_000;

/// The greatest total of an asset, over all balances and earmarks.
pub const MOST_TOTAL: u64 = 1_000_000_000_000_000_000;

/// The greatest balance, which is a part of its asset's total.
pub const MOST_BALANCE: u64 = MOST_TOTAL;

/// The greatest rank.
pub const MOST_RANK: u64 = 16;

/// The greatest budget, in branchings.
pub const MOST_BUDGET: u64 = 4096;

/// The most lines of a problem.
pub const MOST_LINES: u32 = 4096;

/// The most items of a problem.
pub const MOST_ITEMS: u32 = 1024;

/// The most effects of an item.
pub const MOST_EFFECTS: usize = 32;

/// The greatest size of an effect, in units of its line's asset.
pub const MOST_EFFECT: i64 = 8_000_000_000_000_000;

/// The greatest value of an item, in centavos times rank.
pub const MOST_WORTH: u64 = 128_000_000_000_000_000;

/// The greatest sum of all items' values.
pub const MOST_WORTHS: u64 = 16_384_000_000_000_000_000;

/// The greatest bound of a part: no set is worth more than all items together.
pub const MOST_BOUND: u64 = MOST_WORTHS;

/// The greatest multiplier.
pub const MOST_MULTIPLIER: u64 = 1 << 44;

/// The most branches on a path of a certificate tree.
pub const MOST_DEPTH: u32 = 1024;

/// The most fixes of a node.
pub const MOST_FIXES: usize = 1024;

/// Does nothing. It stands for its clauses: each constant is the limit of its name, so one that is one less or one more
/// is refused here.
pub fn hold()
    ensures newest { NEWEST ≡ newest_edition }
    ensures name { MOST_NAME ≡ most_name }

    ensures quantity { MOST_QUANTITY ≡ most_quantity }
    ensures price { MOST_PRICE ≡ most_price }
    ensures total { MOST_TOTAL ≡ most_total }
    ensures balance { MOST_BALANCE ≡ most_balance }
    ensures rank { MOST_RANK ≡ most_rank }
    ensures budget { MOST_BUDGET ≡ most_budget }

    ensures lines { MOST_LINES ≡ most_lines }
    ensures items { MOST_ITEMS ≡ most_items }
    ensures effects { MOST_EFFECTS ≡ most_effects }
    ensures effect { MOST_EFFECT ≡ pos most_effect }
    ensures worth { MOST_WORTH ≡ most_worth }
    ensures worths { MOST_WORTHS ≡ most_worths }

    ensures bound { MOST_BOUND ≡ most_bound }
    ensures multiplier { MOST_MULTIPLIER ≡ most_multiplier }
    ensures depth { MOST_DEPTH ≡ most_depth }
    ensures fixes { MOST_FIXES ≡ most_fixes }
{}
