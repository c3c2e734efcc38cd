ghost use Rattle.std.specs.Prelude.{◌≡◌, ◌≢◌, ℕ, ◌+◌, ◌<◌, ◌≤◌, List, ◌&&◌, is_ok, if◌then◌else◌, Err, IsTrue, IsOk, IsOkUnless, OnOk, OnErr};
ghost use Rattle.dali_base.specs.Limits.{most_total};
ghost use Rattle.dali_base.specs.Readers.{same_bytes};
ghost use Rattle.dali_account.specs.Book.{knows_pair, balance_of, earmark_of, total_of, with_pair, issued, drawn, after_earmark, after_release};
ghost use Rattle.dali_account.specs.Refusals.{Answers, issue_refusal, draw_refusal, release_refusal};

use crate::book::Book;
use crate::refusal::BookNo;
use dali_base::Name;
use dali_base::limits::MOST_TOTAL;

/// The numbers of a pair, and the total of its asset.
#[derive(Clone, Copy)]
struct Standing {
    balance: u64,
    earmark: u64,
    total: u64,
}

impl Book {
    /// Adds so many units of the asset, centavos for `MXN`, to a balance. Refused with Name where the account or the asset
    /// doesn't exist, and else with Total where the asset's total with the quantity is more than 10^18. At a refusal and
    /// at want of memory the book stays as it was. Where there is room for a new pair, memory isn't wanted.
    pub fn issue(&mut self, account: Name, asset: Name, quantity: u64) -> Result<(), BookNo>
        ensures refusal { Answers (issue_refusal self.old.book account asset quantity) result }
        ensures ok { OnOk result (self.new.book ≡ issued self.old.book account asset quantity) }
        ensures total { OnOk result (total_of self.new.book asset ≡ total_of self.old.book asset + quantity) }
        ensures others { (other : List ℕ) → other ≢ asset → total_of self.new.book other ≡ total_of self.old.book other }

        // want of memory, and what was taken in advance
        ensures spare { 0 < self.old.spare_lines → result ≢ Err BookNo.OutOfMemory }
        ensures room { self.old.spare_lines ≤ self.new.spare_lines + 1 }

        // at a refusal
        ensures err { OnErr result (self.new.book ≡ self.old.book) }

        // what stays
        ensures readied_account { self.new.readied_account ≡ self.old.readied_account }
        ensures readied_code { self.new.readied_code ≡ self.old.readied_code }
    {
        if !self.has_pair(account, asset) {
            return Err(BookNo::Name);
        }
        let standing = self.standing(account, asset);
        if quantity > MOST_TOTAL - standing.total {
            return Err(BookNo::Total);
        }
        let raised = Standing {
            balance: standing.balance + quantity,
            earmark: standing.earmark,
            total: standing.total + quantity,
        };
        self.raise_balance(account, asset, raised)
    }

    /// Takes so many units of the asset, centavos for `MXN`, from a balance, which stays 0 at least. Refused with Name
    /// where the account or the asset doesn't exist, and else with Short where the balance is less than the quantity. At
    /// a refusal the book stays as it was. Takes no memory.
    pub fn draw(&mut self, account: Name, asset: Name, quantity: u64) -> Result<(), BookNo>
        ensures refusal { Answers (draw_refusal self.old.book account asset quantity) result }
        ensures memory { result ≢ Err BookNo.OutOfMemory }
        ensures ok { OnOk result (self.new.book ≡ drawn self.old.book account asset quantity) }
        ensures total { OnOk result (total_of self.new.book asset + quantity ≡ total_of self.old.book asset) }
        ensures others { (other : List ℕ) → other ≢ asset → total_of self.new.book other ≡ total_of self.old.book other }

        // what was taken in advance
        ensures room { self.new.spare_lines ≡ self.old.spare_lines }

        // at a refusal
        ensures err { OnErr result (self.new.book ≡ self.old.book) }

        // what stays
        ensures readied_account { self.new.readied_account ≡ self.old.readied_account }
        ensures readied_code { self.new.readied_code ≡ self.old.readied_code }
    {
        if !self.has_pair(account, asset) {
            return Err(BookNo::Name);
        }
        let standing = self.standing(account, asset);
        if quantity > standing.balance {
            return Err(BookNo::Short);
        }
        let next = Standing {
            balance: standing.balance - quantity,
            earmark: standing.earmark,
            total: standing.total - quantity,
        };
        self.lower_both(account, asset, next);
        Ok(())
    }

    /// Moves units from a balance to the pair's earmark. Refused with Name where the account or the asset doesn't
    /// exist, and else with Short where the balance is less than the quantity. At a refusal the book stays as it was.
    pub fn earmark(&mut self, account: Name, asset: Name, quantity: u64) -> Result<(), BookNo>
        ensures refusal { Answers (draw_refusal self.old.book account asset quantity) result }
        ensures ok { OnOk result (self.new.book ≡ after_earmark self.old.book account asset quantity) }
        ensures totals { (other : List ℕ) → total_of self.new.book other ≡ total_of self.old.book other }

        // want of memory, and what was taken in advance
        ensures spare { 0 < self.old.spare_lines → result ≢ Err BookNo.OutOfMemory }
        ensures room { self.old.spare_lines ≤ self.new.spare_lines + 1 }

        // at a refusal
        ensures err { OnErr result (self.new.book ≡ self.old.book) }

        // what stays
        ensures readied_account { self.new.readied_account ≡ self.old.readied_account }
        ensures readied_code { self.new.readied_code ≡ self.old.readied_code }
    {
        if !self.has_pair(account, asset) {
            return Err(BookNo::Name);
        }
        let standing = self.standing(account, asset);
        if standing.balance < quantity {
            return Err(BookNo::Short);
        }
        let next = Standing {
            balance: standing.balance - quantity,
            earmark: standing.earmark + quantity,
            total: standing.total,
        };
        self.raise_earmark(account, asset, next)
    }

    /// Moves units from a pair's earmark back to its balance. Refused with Name where the account or the asset
    /// doesn't exist, and else with Short where the earmark is less than the quantity. At a refusal the book stays as
    /// it was.
    pub fn release(&mut self, account: Name, asset: Name, quantity: u64) -> Result<(), BookNo>
        ensures refusal { Answers (release_refusal self.old.book account asset quantity) result }
        ensures ok { OnOk result (self.new.book ≡ after_release self.old.book account asset quantity) }
        ensures totals { (other : List ℕ) → total_of self.new.book other ≡ total_of self.old.book other }

        // want of memory, and what was taken in advance
        ensures spare { 0 < self.old.spare_lines → result ≢ Err BookNo.OutOfMemory }
        ensures room { self.old.spare_lines ≤ self.new.spare_lines + 1 }

        // at a refusal
        ensures err { OnErr result (self.new.book ≡ self.old.book) }

        // what stays
        ensures readied_account { self.new.readied_account ≡ self.old.readied_account }
        ensures readied_code { self.new.readied_code ≡ self.old.readied_code }
    {
        if !self.has_pair(account, asset) {
            return Err(BookNo::Name);
        }
        let standing = self.standing(account, asset);
        if standing.earmark < quantity {
            return Err(BookNo::Short);
        }
        let next = Standing {
            balance: standing.balance + quantity,
            earmark: standing.earmark - quantity,
            total: standing.total,
        };
        self.raise_balance(account, asset, next)
    }

    fn has_pair(&self, account: Name, asset: Name) -> bool
        ensures { result ≡ knows_pair self.now.book account asset }
    {
        self.has_account(account) && self.has_asset(asset)
    }

    fn standing(&self, account: Name, asset: Name) -> Standing
        ensures balance { result.balance ≡ balance_of self.now.book account asset }
        ensures earmark { result.earmark ≡ earmark_of self.now.book account asset }
        ensures total { result.total ≡ total_of self.now.book asset }
        ensures limit { result.total ≤ most_total }
        ensures within { result.balance + result.earmark ≤ result.total }
    {
        Standing {
            balance: self.balances.units(account, asset),
            earmark: self.earmarks.units(account, asset),
            total: self.assets.total(asset),
        }
    }

    /// Puts the numbers at the pair, of which the earmark doesn't rise.
    fn raise_balance(&mut self, account: Name, asset: Name, next: Standing) -> Result<(), BookNo>
        requires pair { IsTrue (knows_pair self.old.book account asset) }
        requires earmark { next.earmark ≤ earmark_of self.old.book account asset }
        requires moved { next.balance + next.earmark + total_of self.old.book asset ≡ balance_of self.old.book account asset + earmark_of self.old.book account asset + next.total }
        requires limit { next.total ≤ most_total }

        // what is booked
        ensures memory { IsOkUnless result BookNo.OutOfMemory }
        ensures ok { OnOk result (self.new.book ≡ with_pair self.old.book account asset next.balance next.earmark) }
        ensures totals { (other : List ℕ) → total_of self.new.book other ≡ (if is_ok result && same_bytes other asset then next.total else total_of self.old.book other) }

        // want of memory, and what was taken in advance
        ensures spare { 0 < self.old.spare_lines → IsOk result }
        ensures room { self.old.spare_lines ≤ self.new.spare_lines + 1 }

        // what stays
        ensures err { OnErr result (self.new.book ≡ self.old.book) }
        ensures readied_account { self.new.readied_account ≡ self.old.readied_account }
        ensures readied_code { self.new.readied_code ≡ self.old.readied_code }
    {
        match self.balances.put(account, asset, next.balance) {
            Err(_) => Err(BookNo::OutOfMemory),
            Ok(()) => {
                self.earmarks.lower(account, asset, next.earmark);
                self.assets.set_total(asset, next.total);
                Ok(())
            }
        }
    }

    /// Puts the numbers at the pair, of which the balance doesn't rise.
    fn raise_earmark(&mut self, account: Name, asset: Name, next: Standing) -> Result<(), BookNo>
        requires pair { IsTrue (knows_pair self.old.book account asset) }
        requires balance { next.balance ≤ balance_of self.old.book account asset }
        requires moved { next.balance + next.earmark + total_of self.old.book asset ≡ balance_of self.old.book account asset + earmark_of self.old.book account asset + next.total }
        requires limit { next.total ≤ most_total }

        // what is booked
        ensures memory { IsOkUnless result BookNo.OutOfMemory }
        ensures ok { OnOk result (self.new.book ≡ with_pair self.old.book account asset next.balance next.earmark) }
        ensures totals { (other : List ℕ) → total_of self.new.book other ≡ (if is_ok result && same_bytes other asset then next.total else total_of self.old.book other) }

        // want of memory, and what was taken in advance
        ensures spare { 0 < self.old.spare_lines → IsOk result }
        ensures room { self.old.spare_lines ≤ self.new.spare_lines + 1 }

        // what stays
        ensures err { OnErr result (self.new.book ≡ self.old.book) }
        ensures readied_account { self.new.readied_account ≡ self.old.readied_account }
        ensures readied_code { self.new.readied_code ≡ self.old.readied_code }
    {
        match self.earmarks.put(account, asset, next.earmark) {
            Err(_) => Err(BookNo::OutOfMemory),
            Ok(()) => {
                self.balances.lower(account, asset, next.balance);
                self.assets.set_total(asset, next.total);
                Ok(())
            }
        }
    }

    /// Puts the numbers at the pair, of which neither rises.
    fn lower_both(&mut self, account: Name, asset: Name, next: Standing)
        requires pair { IsTrue (knows_pair self.old.book account asset) }
        requires balance { next.balance ≤ balance_of self.old.book account asset }
        requires earmark { next.earmark ≤ earmark_of self.old.book account asset }
        requires moved { next.balance + next.earmark + total_of self.old.book asset ≡ balance_of self.old.book account asset + earmark_of self.old.book account asset + next.total }
        requires limit { next.total ≤ most_total }

        // what is booked
        ensures book { self.new.book ≡ with_pair self.old.book account asset next.balance next.earmark }
        ensures totals { (other : List ℕ) → total_of self.new.book other ≡ (if same_bytes other asset then next.total else total_of self.old.book other) }

        // what stays
        ensures room { self.new.spare_lines ≡ self.old.spare_lines }
        ensures readied_account { self.new.readied_account ≡ self.old.readied_account }
        ensures readied_code { self.new.readied_code ≡ self.old.readied_code }
    {
        self.balances.lower(account, asset, next.balance);
        self.earmarks.lower(account, asset, next.earmark);
        self.assets.set_total(asset, next.total);
    }
}
