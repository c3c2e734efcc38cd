ghost use Rattle.std.specs.Prelude.{◌≡◌, ◌≢◌, ◌≤◌, ℕ, List, ◌++◌, [], ◌∷◌, Some, None, Err, length, OnOk, OnErr};
ghost use Rattle.std.specs.FinMap as map;
ghost use Rattle.dali_base.specs.Limits.{most_price, most_total};
ghost use Rattle.dali_account.specs.Limits.{most_accounts, most_codes};
ghost use Rattle.dali_account.specs.Book.{cash, has_account, has_asset, price_of, balance_of, earmark_of, total_of};
ghost use Rattle.dali_account.specs.Refusals.{Answers, account_refusal, asset_refusal};

mod pairs;
mod post;
mod units;

use crate::assets::Assets;
use crate::holdings::Holdings;
use crate::limits::{MOST_ACCOUNTS, MOST_CODES};
use crate::refusal::BookNo;
use dali_base::{Name, Names, OutOfMemory};
use std::alloc::Global;
use std::marker::Model;

/// A book: accounts, codes with their prices, and the balances and earmarks of pairs of an account and an asset.
/// Contracts see it as two lists and two finite maps (`specs/Book.antt`), and beside them for how many new pairs
/// there is room and which names are readied. Asset `MXN` is cash in centavos and exists from the start.
#[derive(Drop)]
pub struct Book {
    accounts: Names,
    assets: Assets,
    balances: Holdings,
    earmarks: Holdings,
}

impl Model for Book {
    ghost use Rattle.dali_account.specs.Book.{BookState, state_code};

    ghost Value = { BookState };

    ghost coded = { state_code };

    ghost use Rattle.dali_account.specs.BookKept.{state_of, IsKept};

    ghost view = { state_of };

    ghost invariant = { IsKept };
}

impl Book {
    /// A book without accounts, codes and units. Takes no memory.
    pub fn new(alloc: Global) -> Book
        ensures accounts { result.book.accounts ≡ [] }
        ensures codes { result.book.codes ≡ [] }
        ensures balances { result.book.balances ≡ map.empty }
        ensures earmarks { result.book.earmarks ≡ map.empty }
        ensures readied_account { result.readied_account ≡ None }
        ensures readied_code { result.readied_code ≡ None }
    {
        Book {
            accounts: Names::new(alloc),
            assets: Assets::new(alloc),
            balances: Holdings::new(alloc),
            earmarks: Holdings::new(alloc),
        }
    }

    /// Whether there is such an account.
    #[tactic(auto, using(crate::proofs::PlaceLemmas::known_place))]
    pub fn has_account(&self, account: Name) -> bool
        ensures { result ≡ has_account self.now.book.accounts account }
    {
        self.accounts.place(account).is_some()
    }

    /// The price of a code in centavos. `None` exactly for an unknown code and for `MXN`.
    pub fn price(&self, code: Name) -> Option<u64>
        ensures price { result ≡ price_of self.now.book.codes code }
        ensures cash { price_of self.now.book.codes cash ≡ None }
    {
        self.assets.price(code)
    }

    /// Whether there is such an asset: a code, or `MXN`.
    pub fn has_asset(&self, asset: Name) -> bool
        ensures { result ≡ has_asset self.now.book.codes asset }
    {
        self.assets.has(asset)
    }

    /// The balance of a pair in units of its asset, centavos for `MXN`: 0 where nothing is held, and at most 10^18. It
    /// doesn't count earmarked units.
    pub fn balance(&self, account: Name, asset: Name) -> u64
        ensures balance { result ≡ balance_of self.now.book account asset }
        ensures within { result ≤ total_of self.now.book asset }
        ensures limit { total_of self.now.book asset ≤ most_total }
    {
        self.balances.units(account, asset)
    }

    /// The earmark of a pair in units of its asset, centavos for `MXN`: 0 where nothing is earmarked, and at most 10^18.
    pub fn earmarked(&self, account: Name, asset: Name) -> u64
        ensures earmark { result ≡ earmark_of self.now.book account asset }
        ensures within { result ≤ total_of self.now.book asset }
        ensures limit { total_of self.now.book asset ≤ most_total }
    {
        self.earmarks.units(account, asset)
    }

    /// The total of an asset: its balances and earmarks over all accounts. At most 10^18.
    pub fn total(&self, asset: Name) -> u64
        ensures total { result ≡ total_of self.now.book asset }
        ensures limit { result ≤ most_total }
    {
        self.assets.total(asset)
    }

    /// The number of accounts, at most 1,000.
    pub fn accounts(&self) -> u32
        ensures count { result ≡ length self.now.book.accounts }
        ensures most { result ≤ most_accounts }
    {
        self.accounts.len()
    }

    /// The number of codes, without `MXN`, at most 1,000.
    pub fn assets(&self) -> u32
        ensures count { result ≡ length self.now.book.codes }
        ensures most { result ≤ most_codes }
        ensures cash { price_of self.now.book.codes cash ≡ None }
    {
        self.assets.len() as u32
    }

    /// Adds an account at the end. Refused with There where it exists, and else with Full where there are 1,000. At a
    /// refusal the book stays as it was. Where the account is the readied one, memory isn't wanted.
    #[tactic(auto, using(crate::proofs::PlaceLemmas::known_place))]
    pub fn add_account(&mut self, account: Name) -> Result<(), BookNo>
        ensures refusal { Answers (account_refusal self.old.book account) result }
        ensures ok { OnOk result (self.new.book ≡ record self.old.book { accounts = self.old.book.accounts ++ account ∷ [] }) }
        ensures totals { (asset : List ℕ) → total_of self.new.book asset ≡ total_of self.old.book asset }

        // what was taken in advance
        ensures readied { self.old.readied_account ≡ Some account → result ≢ Err BookNo.OutOfMemory }
        ensures readied_account { OnOk result (self.new.readied_account ≡ None) }
        ensures readied_code { self.new.readied_code ≡ self.old.readied_code }
        ensures spare { self.new.spare_lines ≡ self.old.spare_lines }

        // at a refusal
        ensures err { OnErr result (self.new ≡ self.old) }
    {
        if self.accounts.place(account).is_some() {
            return Err(BookNo::There);
        }
        if self.accounts.len() >= MOST_ACCOUNTS {
            return Err(BookNo::Full);
        }
        match self.accounts.add(account) {
            Err(_) => return Err(BookNo::OutOfMemory),
            Ok(_) => {}
        }
        Ok(())
    }

    /// Adds a code at the end, with its price in centavos, which is from 1 to 1,000,000,000. Refused with There where the
    /// code exists or is `MXN`, and else with Full where there are 1,000 codes. At a refusal the book stays as it was.
    /// Where the code is the readied one, memory isn't wanted.
    pub fn add_asset(&mut self, code: Name, price: u64) -> Result<(), BookNo>
        requires from_one { 1 ≤ price }
        requires to_limit { price ≤ most_price }

        // what is answered, and the book then
        ensures refusal { Answers (asset_refusal self.old.book code) result }
        ensures ok { OnOk result (self.new.book ≡ record self.old.book { codes = self.old.book.codes ++ (code, price) ∷ [] }) }
        ensures totals { (asset : List ℕ) → total_of self.new.book asset ≡ total_of self.old.book asset }

        // what was taken in advance
        ensures readied { self.old.readied_code ≡ Some code → result ≢ Err BookNo.OutOfMemory }
        ensures readied_code { OnOk result (self.new.readied_code ≡ None) }
        ensures readied_account { self.new.readied_account ≡ self.old.readied_account }
        ensures spare { self.new.spare_lines ≡ self.old.spare_lines }

        // at a refusal
        ensures err { OnErr result (self.new ≡ self.old) }
    {
        if self.assets.has(code) {
            return Err(BookNo::There);
        }
        if self.assets.len() >= MOST_CODES as usize {
            return Err(BookNo::Full);
        }
        match self.assets.add(code, price) {
            Ok(()) => Ok(()),
            Err(_) => Err(BookNo::OutOfMemory),
        }
    }

    /// Takes the room for this account in advance. It is readied then, until another account is readied or any is
    /// added. The book stays as it was, and at want of memory the readied account too.
    pub fn ready_account(&mut self, account: Name) -> Result<(), OutOfMemory>
        ensures book { self.new.book ≡ self.old.book }
        ensures readied { OnOk result (self.new.readied_account ≡ Some account) }
        ensures err { OnErr result (self.new.readied_account ≡ self.old.readied_account) }
        ensures spare { self.new.spare_lines ≡ self.old.spare_lines }
        ensures readied_code { self.new.readied_code ≡ self.old.readied_code }
    {
        self.accounts.ready(account)
    }

    /// Takes the room for this code in advance. It is readied then, until another code is readied or any is added.
    /// The book stays as it was, and at want of memory the readied code too.
    pub fn ready_asset(&mut self, code: Name) -> Result<(), OutOfMemory>
        ensures book { self.new.book ≡ self.old.book }
        ensures readied { OnOk result (self.new.readied_code ≡ Some code) }
        ensures err { OnErr result (self.new.readied_code ≡ self.old.readied_code) }
        ensures spare { self.new.spare_lines ≡ self.old.spare_lines }
        ensures readied_account { self.new.readied_account ≡ self.old.readied_account }
    {
        self.assets.ready(code)
    }

    /// Makes room for so many new pairs at least, of balances and of earmarks. The book stays as it was.
    pub fn reserve(&mut self, lines: u32) -> Result<(), OutOfMemory>
        ensures book { self.new.book ≡ self.old.book }
        ensures ok { OnOk result (lines ≤ self.new.spare_lines) }
        ensures room { self.old.spare_lines ≤ self.new.spare_lines }
        ensures readied_account { self.new.readied_account ≡ self.old.readied_account }
        ensures readied_code { self.new.readied_code ≡ self.old.readied_code }
    {
        self.balances.reserve(lines as usize)?;
        self.earmarks.reserve(lines as usize)
    }
}
