ghost use Rattle.std.specs.Prelude.{◌≡◌, ◌<◌, ◌≤◌, ◌++◌, ℕ, List, [], ◌∷◌, None, not, map, length, unwrap_or, IfOk, OnOk};
ghost use Rattle.std.specs.List.{filter};
ghost use Rattle.dali_base.specs.NameList.{knows, place_of, with_name};
ghost use Rattle.dali_queue.specs.Limits.{most_queued};
ghost use Rattle.dali_queue.specs.Groups.{in_group, is_eligible};
ghost use Rattle.dali_queue.specs.CycleProblem.{may_settle, groups_at, places_from};
ghost use Rattle.dali_queue.specs.Eligible.{queue_with, waiting_of, with_place};

use crate::cutoffs::Cutoffs;
use crate::entries::Entry;
use dali_base::{Moment, Name, Names, OutOfMemory, Places};
use std::alloc::Global;

/// The groups that are eligible, in queue order of their first instructions.
#[derive(Drop)]
pub struct Eligible {
    pub groups: Names,
    /// The queue places of all instructions of these groups, rising.
    pub at: Places,
    /// For each of them the number of its group.
    pub item: Places,
    /// For each group the queue places of its instructions, rising.
    pub members: Vec<Places>,
}

impl Eligible {
    /// No groups. Takes no memory.
    fn new(alloc: Global) -> Eligible
        ensures groups { result.groups.names ≡ [] }
        ensures readied { result.groups.readied ≡ None }
        ensures at { result.at ≡ [] }
        ensures item { result.item ≡ [] }
        ensures members { result.members.items ≡ [] }
    {
        Eligible {
            groups: Names::new(alloc),
            at: Places::new(alloc),
            item: Places::new(alloc),
            members: Vec::new(alloc),
        }
    }

    /// Adds the instruction at this place to its group.
    fn add(&mut self, alloc: Global, place: u32, group: Name) -> Result<(), OutOfMemory>
        requires few { length self.old.groups.names < 4294967295 }
        requires members { length self.old.members.items ≡ length self.old.groups.names }
        ensures groups { OnOk result (self.new.groups ≡ with_name self.old.groups group) }
        ensures at { OnOk result (self.new.at ≡ self.old.at ++ place ∷ []) }
        ensures item { OnOk result (self.new.item ≡ self.old.item ++ unwrap_or (place_of self.new.groups.names group) 0 ∷ []) }
        ensures members { OnOk result (self.new.members.items ≡ with_place self.old.members.items (unwrap_or (place_of self.new.groups.names group) 0) place) }
    {
        let number = self.groups.add(group)?;
        self.at.push(place)?;
        self.item.push(number)?;
        put_place(alloc, &mut self.members, number as usize, place)
    }
}

/// Adds a place to the list of this number, which it begins where there is none yet.
fn put_place(
    alloc: Global,
    members: &mut Vec<Places>,
    number: usize,
    place: u32,
) -> Result<(), OutOfMemory>
    requires { number ≤ length members.old.items }
    ensures { OnOk result (members.new.items ≡ with_place members.old.items number place) }
{
    if number == members.len() {
        members.push(Places::new(alloc))?;
    }
    members[number].push(place)
}

/// The groups with an instruction past the cut-off of its kind.
fn late_groups(
    alloc: Global,
    entries: &[Entry],
    cutoffs: &Cutoffs,
    moment: Moment,
) -> Result<Names, OutOfMemory>
    requires { length entries.now ≤ most_queued }
    ensures { IfOk result (λ late. (group : List ℕ) → knows late.names group ≡ not (is_eligible (queue_with entries.now cutoffs.now) moment group)) }
{
    let mut late = Names::new(alloc);
    for entry in entries {
        if moment > cutoffs.of(entry.item.kind) {
            late.add(entry.group)?;
        }
    }
    Ok(late)
}

/// The groups that are eligible at a moment, with the places of their instructions.
pub fn eligible_groups(
    alloc: Global,
    entries: &[Entry],
    cutoffs: &Cutoffs,
    moment: Moment,
) -> Result<Eligible, OutOfMemory>
    requires { length entries.now ≤ most_queued }
    ensures at { IfOk result (λ eligible. eligible.at ≡ places_from (may_settle (queue_with entries.now cutoffs.now) moment) 0 (waiting_of entries.now)) }
    ensures item { IfOk result (λ eligible. eligible.item
        ≡ map (λ w. unwrap_or (place_of (groups_at (queue_with entries.now cutoffs.now) moment) w.group) 0) (filter (may_settle (queue_with entries.now cutoffs.now) moment) (waiting_of entries.now))) }
    ensures members { IfOk result (λ eligible. eligible.members.items
        ≡ map (λ group. places_from (in_group group) 0 (waiting_of entries.now)) (groups_at (queue_with entries.now cutoffs.now) moment)) }
{
    let late = late_groups(alloc, entries, cutoffs, moment)?;
    let mut eligible = Eligible::new(alloc);
    for (place, entry) in entries.iter().enumerate() {
        if late.place(entry.group).is_none() {
            eligible.add(alloc, place as u32, entry.group)?;
        }
    }
    Ok(eligible)
}
