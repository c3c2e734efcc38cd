ghost use Rattle.std.specs.Prelude.{◌≡◌, ◌<◌, ◌≤◌, not, length, filter};
ghost use Rattle.std.specs.List.{All};
ghost use Rattle.dali_queue.specs.Queue.{removed};
ghost use Rattle.indexmap.specs.IndexMap.{spare};
ghost use Rattle.dali_queue.specs.EntryList.{marked};

use super::{Entries, Entry};
use dali_base::Name;
use indexmap::IndexMap;

impl Entries {
    /// Takes the instructions at these places out, all at once.
    pub fn remove(&mut self, places: &[u32])
        requires { All (λ p. p < length self.old.waiting) places.now }
        ensures waiting { self.new.waiting ≡ removed self.old.waiting places.now }
        ensures room { self.old.spare ≤ self.new.spare }
    {
        mark_all(&mut self.entries, places);
        drop_leaving(&mut self.entries);
    }
}

/// Marks the entries at these places, so that all can leave in one pass.
fn mark_all(entries: &mut IndexMap<Name, Entry>, places: &[u32])
    requires { All (λ p. p < length entries.old.entries) places.now }
    ensures entries { entries.new.entries ≡ marked places.now 0 entries.old.entries }
    ensures room { spare entries.new ≡ spare entries.old }
{
    for place in places {
        entries[*place as usize].leaving = true;
    }
}

/// Takes the marked entries out.
fn drop_leaving(entries: &mut IndexMap<Name, Entry>)
    ensures entries { entries.new.entries ≡ filter (λ e. not e.1.leaving) entries.old.entries }
    ensures room { spare entries.old ≤ spare entries.new }
{
    entries.retain(
        |_id: &Name, entry: &mut Entry| -> bool
            ensures { (result ≡ not entry.old.leaving) × (entry.new ≡ entry.old) }
        { !entry.leaving },
    );
}
