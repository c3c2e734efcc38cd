ghost use Rattle.std.specs.Prelude.{◌≡◌, ℕ, ◌<◌, ◌++◌, [], ◌∷◌, Some, None, List, length, false, true, IsTrue, IsOk, OnOk, OnErr, slice_get, if◌then◌else◌};
ghost use Rattle.std.specs.Map.{keys_of};
ghost use Rattle.std.specs.Option.{option_map};
ghost use Rattle.dali_base.specs.Readers.{same_bytes};
ghost use Rattle.dali_account.specs.AssetList.{listing_of, prices, total_at};
ghost use Rattle.dali_account.specs.Book.{cash, price_of, has_asset};

use crate::cash::is_cash;
use dali_base::{Name, OutOfMemory};
use indexmap::IndexMap;
use std::alloc::Global;
use std::marker::Model;

/// What is kept of a code: its price in centavos and the units of it that all accounts hold.
#[derive(Clone, Copy, Debug)]
pub struct Listing {
    pub price: u64,
    pub total: u64,
}

/// The codes in order of entry with their prices, and a running total of each of them and of cash (`MXN`).
#[derive(Drop)]
pub struct Assets {
    listings: IndexMap<Name, Listing>,
    cash_total: u64,
    readied: Option<Name>,
}

impl Model for Assets {
    ghost use Rattle.dali_account.specs.AssetList.{AssetList};

    ghost Value = { AssetList };

    ghost use Rattle.dali_account.specs.AssetRoom.{list_of, HasRoom};

    ghost view = { list_of };

    ghost invariant = { HasRoom };
}

impl Assets {
    /// No codes. Takes no memory.
    pub fn new(alloc: Global) -> Assets
        ensures listings { result.listings ≡ [] }
        ensures cash { result.cash_total ≡ 0 }
        ensures readied { result.readied ≡ None }
    {
        Assets {
            listings: IndexMap::new(alloc),
            cash_total: 0,
            readied: None,
        }
    }

    /// The number of codes.
    pub fn len(&self) -> usize
        ensures { result ≡ length self.now.listings }
    {
        self.listings.len()
    }

    /// The code at this place.
    pub fn code(&self, place: usize) -> Name
        requires { place < length self.now.listings }
        ensures { slice_get (keys_of self.now.listings) place ≡ Some result }
    {
        let (code, _) = self.listings.get_index(place).unwrap();
        *code
    }

    /// The price of a code. `None` exactly where there is no such code.
    pub fn price(&self, code: Name) -> Option<u64>
        ensures { result ≡ price_of (prices self.now.listings) code }
    {
        match self.listings.get(&code) {
            Some(listing) => Some(listing.price),
            None => None,
        }
    }

    /// Whether there is such an asset: a code, or cash.
    pub fn has(&self, asset: Name) -> bool
        ensures { result ≡ has_asset (prices self.now.listings) asset }
    {
        is_cash(asset) || self.price(asset).is_some()
    }

    /// The units of the asset that all accounts hold.
    pub fn total(&self, asset: Name) -> u64
        ensures { result ≡ total_at self.now asset }
    {
        if is_cash(asset) {
            return self.cash_total;
        }
        match self.listings.get(&asset) {
            Some(listing) => listing.total,
            None => 0,
        }
    }

    /// Sets the total of an asset.
    pub fn set_total(&mut self, asset: Name, total: u64)
        requires { IsTrue (has_asset (prices self.old.listings) asset) }
        ensures totals { (other : List ℕ) → total_at self.new other ≡ (if same_bytes other asset then total else total_at self.old other) }
        ensures prices { prices self.new.listings ≡ prices self.old.listings }
        ensures readied { self.new.readied ≡ self.old.readied }
    {
        if is_cash(asset) {
            self.cash_total = total;
            return;
        }
        let listing = match self.listings.get_mut(&asset) {
            Some(listing) => listing,
            None => return,
        };
        listing.total = total;
    }

    /// Takes the room for this one code in advance.
    pub fn ready(&mut self, code: Name) -> Result<(), OutOfMemory>
        ensures listings { self.new.listings ≡ self.old.listings }
        ensures cash { self.new.cash_total ≡ self.old.cash_total }
        ensures readied { OnOk result (self.new.readied ≡ Some code) }
        ensures err { OnErr result (self.new.readied ≡ self.old.readied) }
    {
        self.listings.reserve(1)?;
        self.readied = Some(code);
        Ok(())
    }

    /// Adds a new code with the total 0.
    pub fn add(&mut self, code: Name, price: u64) -> Result<(), OutOfMemory>
        requires { has_asset (prices self.old.listings) code ≡ false }
        ensures prices { OnOk result (prices self.new.listings ≡ prices self.old.listings ++ (code, price) ∷ []) }
        ensures totals { OnOk result ((asset : List ℕ) → total_at self.new asset ≡ total_at self.old asset) }
        ensures readied { OnOk result (self.new.readied ≡ None) }
        ensures ready { self.old.readied ≡ Some code → IsOk result }
        ensures err { OnErr result (self.new ≡ self.old) }
    {
        match self.listings.insert(code, Listing { price, total: 0 }) {
            Ok(_) => {
                self.readied = None;
                Ok(())
            }
            Err(_) => Err(OutOfMemory),
        }
    }
}
