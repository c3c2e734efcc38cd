ghost use Rattle.std.specs.Prelude.{◌≡◌, ℕ, ◌+◌, ◌<◌, ◌≤◌, ◌++◌, List, [], ◌∷◌, Some, length, take, slice_get, OnOk};

use dali_base::{Name, OutOfMemory};
use indexmap::IndexMap;
use std::alloc::Global;

/// Where the postings of each account stand: beside each posting the place of the one before it of the same account, and
/// for each account the place of its last one. So an account's postings are found from the last to the first, past no
/// other's.
#[derive(Drop)]
pub struct Places {
    befores: Vec<Option<usize>>,
    lasts: IndexMap<Name, usize>,
}

impl Places {
    ghost use Rattle.dali_ledger.specs.Places.{PlacesOf, last_place, room_of};

    /// Of no postings. Takes no memory.
    pub fn new(alloc: Global) -> Places
        ensures { PlacesOf result [] }
    {
        Places {
            befores: Vec::new(alloc),
            lasts: IndexMap::new(alloc),
        }
    }

    /// Makes room for so many more postings at least.
    pub fn reserve(&mut self, more: usize) -> Result<(), OutOfMemory>
        ensures of { (accounts : List (List ℕ)) → PlacesOf self.old accounts → PlacesOf self.new accounts }
        ensures ok { OnOk result (more ≤ room_of self.new) }
        ensures room { room_of self.old ≤ room_of self.new }
    {
        self.befores.reserve(more)?;
        self.lasts.reserve(more)?;
        Ok(())
    }

    /// One more posting, of this account, for which there is room. Takes no memory.
    pub fn add(&mut self, account: Name)
        requires { 0 < room_of self.old }
        ensures of { (accounts : List (List ℕ)) → PlacesOf self.old accounts → PlacesOf self.new (accounts ++ account ∷ []) }
        ensures room { room_of self.old ≤ room_of self.new + 1 }
    {
        let place = self.befores.len();
        let before = self.lasts.insert(account, place).unwrap();
        self.befores.push_reserved(before);
    }

    /// The place of the account's last posting. `None` where it has none.
    pub fn last(&self, account: Name) -> Option<usize>
        ensures { (accounts : List (List ℕ)) → PlacesOf self.now accounts → result ≡ last_place accounts account }
    {
        self.lasts.get(&account).copied()
    }

    /// The place of the posting before this one of the same account. `None` where it is the account's first.
    pub fn before(&self, place: usize) -> Option<usize>
        requires { place < length self.now.befores.items }
        ensures { (accounts : List (List ℕ)) (account : List ℕ) → PlacesOf self.now accounts → slice_get accounts place ≡ Some account → result ≡ last_place (take place accounts) account }
    {
        self.befores[place]
    }
}
