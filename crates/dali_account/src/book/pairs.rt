ghost use Rattle.std.specs.Prelude.{◌≡◌, ◌≢◌, ℕ, ◌&&◌, ◌==◌, not, false, [], List, Some, All, IfOk, OnOk, if◌then◌else◌};
ghost use Rattle.std.specs.BTreeMap.{get};
ghost use Rattle.std.specs.Cmp.Lexicographic.{slice_cmp};
ghost use Rattle.std.specs.Ordering.{nat_cmp};
ghost use Rattle.dali_base.specs.Readers.{same_bytes};
ghost use Rattle.dali_account.specs.Book.{has_account, balance_of};
ghost use Rattle.dali_account.specs.Pairs.{pairs_of};
ghost use Rattle.dali_account.specs.Units.{HasNoZero, some_units};

use crate::book::Book;
use crate::cash::cash_name;
use crate::pairs::{Pair, Pairs};
use dali_base::{Name, OutOfMemory, Seq};
use std::alloc::Global;
use std::collections::BTreeMap;

impl Book {
    /// The balances of the account other than 0, in byte order of asset. An unknown account has none.
    pub fn pairs(&self, alloc: Global, account: Name) -> Result<Pairs, OutOfMemory>
        ensures pairs { IfOk result (λ pairs. pairs ≡ pairs_of self.now.book account) }
        ensures some { IfOk result (λ pairs. All (λ (p : Pair). p.balance ≢ 0) pairs) }
        ensures unknown { has_account self.now.book.accounts account ≡ false → IfOk result (λ pairs. pairs ≡ []) }
    {
        let held = self.held(alloc, account)?;
        let mut pairs = Seq::new(alloc);
        for (asset, balance) in &held {
            pairs.push(Pair {
                asset: *asset,
                balance: *balance,
            })?;
        }
        Ok(pairs)
    }

    /// The balances of the account other than 0, under their assets.
    fn held(&self, alloc: Global, account: Name) -> Result<BTreeMap<Name, u64>, OutOfMemory>
        ensures held { IfOk result (λ held. (asset : List ℕ) → get (slice_cmp nat_cmp) held asset ≡ some_units (balance_of self.now.book account asset)) }
        ensures no_zero { HasNoZero self.now.book.balances }
        ensures unknown { has_account self.now.book.accounts account ≡ false → (asset : List ℕ) → balance_of self.now.book account asset ≡ 0 }
    {
        let mut held = BTreeMap::new(alloc);
        let cash = cash_name();
        put(&mut held, cash, self.balances.units(account, cash))?;
        for place in 0..self.assets.len() {
            let code = self.assets.code(place);
            put(&mut held, code, self.balances.units(account, code))?;
        }
        Ok(held)
    }
}

/// Puts the balance under the asset, unless it is 0.
fn put(held: &mut BTreeMap<Name, u64>, asset: Name, balance: u64) -> Result<(), OutOfMemory>
    ensures { OnOk result ((other : List ℕ) → get (slice_cmp nat_cmp) held.new other ≡ (if same_bytes asset other && not (balance == 0) then Some balance else get (slice_cmp nat_cmp) held.old other)) }
{
    if balance != 0 {
        held.insert(asset, balance)?;
    }
    Ok(())
}
