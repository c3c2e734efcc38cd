ghost use Rattle.std.specs.Prelude.{◌≡◌, ℕ, ◌+◌, ◌<◌, ◌≤◌, ◌^◌, List, pos, ◌+ℤ◌, ◌≤ℤ◌, All, IsTrue, length, if◌then◌else◌};
ghost use Rattle.std.specs.Int.{FitsUnsigned, w64};
ghost use Rattle.dali_base.specs.Limits.{most_total};
ghost use Rattle.dali_base.specs.Readers.{same_bytes};
ghost use Rattle.dali_account.specs.Units.{units_of};
ghost use Rattle.dali_account.specs.AssetList.{prices, total_at};
ghost use Rattle.dali_account.specs.Book.{has_asset, knows_pair, held, total_of};
ghost use Rattle.dali_account.specs.Net.{pair_of, after_move, with_move, with_net, asset_delta};

use crate::assets::Assets;
use crate::book::Book;
use crate::holdings::Holdings;
use crate::net::{Move, Net};

impl Book {
    /// Adds the net to the balances. The accounts and assets of its moves are known, afterwards no balance is negative
    /// and no total above 10^18, and there is room for as many new pairs as the net has moves. Takes no memory.
    pub fn post(&mut self, net: &Net)
        requires known { All (λ m. IsTrue (knows_pair self.old.book m.account m.asset)) net.now }
        requires covered { All (λ m. pos 0 ≤ℤ (pos (units_of self.old.book.balances (pair_of m)) +ℤ m.delta)) net.now }
        requires limit { (asset : List ℕ) → held self.old.book.accounts (with_net self.old.book.balances net.now) self.old.book.earmarks asset ≤ most_total }
        requires room { length net.now ≤ self.old.spare_lines }

        // what is booked
        ensures book { self.new.book ≡ record self.old.book { balances = with_net self.old.book.balances net.now } }
        ensures totals { (asset : List ℕ) → pos (total_of self.new.book asset) ≡ (pos (total_of self.old.book asset) +ℤ asset_delta net.now asset) }

        // what was taken in advance
        ensures room { self.old.spare_lines ≤ self.new.spare_lines + length net.now }
        ensures readied_account { self.new.readied_account ≡ self.old.readied_account }
        ensures readied_code { self.new.readied_code ≡ self.old.readied_code }
    {
        for item in net.moves() {
            add_move(&mut self.balances, &mut self.assets, item);
        }
    }
}

/// Adds a move to its balance and to the total of its asset.
fn add_move(balances: &mut Holdings, assets: &mut Assets, item: &Move)
    requires asset { IsTrue (has_asset (prices assets.old.listings) item.now.asset) }
    requires units { FitsUnsigned w64 (pos (units_of balances.old.units (pair_of item.now)) +ℤ item.now.delta) }
    requires total { FitsUnsigned w64 (pos (total_at assets.old item.now.asset) +ℤ item.now.delta) }
    requires spare { 0 < balances.old.spare }

    // what is booked
    ensures balances { balances.new.units ≡ with_move balances.old.units item.now }
    ensures room { balances.old.spare ≤ balances.new.spare + 1 }
    ensures totals { (other : List ℕ) → total_at assets.new other ≡ (if same_bytes other item.now.asset then after_move (total_at assets.old item.now.asset) item.now.delta else total_at assets.old other) }

    // what stays
    ensures prices { prices assets.new.listings ≡ prices assets.old.listings }
    ensures readied { assets.new.readied ≡ assets.old.readied }
{
    let units = changed(balances.units(item.account, item.asset), item.delta);
    balances.put(item.account, item.asset, units).unwrap();
    let total = changed(assets.total(item.asset), item.delta);
    assets.set_total(item.asset, total);
}

fn changed(units: u64, delta: i64) -> u64
    requires { FitsUnsigned w64 (pos units +ℤ delta) }
    ensures { result ≡ after_move units delta }
{
    units.checked_add_signed(delta).unwrap()
}
