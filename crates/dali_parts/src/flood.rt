ghost use Rattle.std.specs.Prelude.{◌≡◌, ◌≢◌, ℕ, ◌+◌, ◌<◌, ◌≤◌, pos, [], ◌∷◌, ◌++◌, true, false, Some, None, is_some, length, replicate, IfOk, OnOk, slice_set};
ghost use Rattle.std.specs.List.{All};
ghost use Rattle.dali_problem.specs.Clearing.{effect, item_at};
ghost use Rattle.dali_problem.specs.Touches.{touches};
ghost use Rattle.dali_reduce.specs.Reduced.{AreColumns};
ghost use Rattle.dali_parts.specs.Flood.{class_at, was_seen, IsFlooding, Grows, Enters, Spreads, Sees, open_count};

use dali_base::OutOfMemory;
use dali_problem::{Columns, Problem, Touch};
use std::alloc::Global;

/// What a flood over lines knows: the number of the class of each place that has one, which lines were seen, and the
/// places whose lines are still to be looked at.
#[derive(Drop)]
pub(crate) struct Flood {
    pub classes: Vec<Option<u32>>,
    pub seen: Vec<bool>,
    pub pending: Vec<u32>,
}

impl Flood {
    /// No place has a class, and no line was seen.
    pub fn new(alloc: Global, problem: &Problem) -> Result<Flood, OutOfMemory>
        ensures classes { IfOk result (λ flood. flood.classes.items ≡ replicate (length problem.now.items) None) }
        ensures seen { IfOk result (λ flood. flood.seen.items ≡ replicate (length problem.now.lines) false) }
        ensures pending { IfOk result (λ flood. flood.pending.items ≡ []) }
    {
        Ok(Flood {
            classes: vec![in alloc; None; problem.items() as usize]?,
            seen: vec![in alloc; false; problem.lines() as usize]?,
            pending: Vec::new(alloc),
        })
    }

    /// Gives this class to a place that has none, and to each place that is linked to it.
    pub fn run(
        &mut self,
        problem: &Problem,
        columns: &Columns,
        start: u32,
        class: u32,
    ) -> Result<(), OutOfMemory>
        requires columns { AreColumns problem.now columns.now }
        requires flooding { IsFlooding problem.now 0 self.old.classes.items self.old.seen.items [] }
        requires idle { self.old.pending.items ≡ [] }
        requires start { start < length problem.now.items }
        requires free { class_at self.old.classes.items start ≡ None }
        requires fresh { (j : ℕ) → class_at self.old.classes.items j ≢ Some class }

        // what is reached then
        ensures flooding { OnOk result (IsFlooding problem.now 0 self.new.classes.items self.new.seen.items []) }
        ensures idle { OnOk result (self.new.pending.items ≡ []) }
        ensures grows { OnOk result (Grows class self.old.classes.items self.new.classes.items) }
        ensures start { OnOk result (class_at self.new.classes.items start ≡ Some class) }
    {
        self.enter(start, class)?;
        while let Some(place) = self.pending.pop() {
            self.visit(problem, columns, place, class)?;
        }
        Ok(())
    }

    /// Gives a place that has none the class, and lets it wait.
    fn enter(&mut self, place: u32, class: u32) -> Result<(), OutOfMemory>
        requires { place < length self.old.classes.items }
        ensures entered { OnOk result (Enters class place self.old.classes.items self.new.classes.items self.old.pending.items self.new.pending.items) }
        ensures seen { self.new.seen.items ≡ self.old.seen.items }
    {
        if self.classes[place as usize].is_some() {
            return Ok(());
        }
        self.pending.push(place)?;
        self.classes[place as usize] = Some(class);
        Ok(())
    }

    /// Looks at the lines of a place.
    fn visit(
        &mut self,
        problem: &Problem,
        columns: &Columns,
        place: u32,
        class: u32,
    ) -> Result<(), OutOfMemory>
        requires columns { AreColumns problem.now columns.now }
        requires place { place < length problem.now.items }
        requires flooding { IsFlooding problem.now class self.old.classes.items self.old.seen.items (place ∷ self.old.pending.items) }
        ensures flooding { OnOk result (IsFlooding problem.now class self.new.classes.items self.new.seen.items self.new.pending.items) }
        ensures grows { OnOk result (Grows class self.old.classes.items self.new.classes.items) }
        ensures counted { OnOk result (open_count self.new.classes.items + length self.new.pending.items ≡ open_count self.old.classes.items + length self.old.pending.items) }
    {
        let _items = problem.items();
        for effect in problem.effects(place) {
            self.see(effect.line, columns.touching(effect.line), class)?;
        }
        Ok(())
    }

    /// Looks at a line with these touches, where it wasn't seen.
    fn see(&mut self, line: u32, touches: &[Touch], class: u32) -> Result<(), OutOfMemory>
        requires line { line < length self.old.seen.items }
        requires touches { All (λ touch. touch.place < length self.old.classes.items) touches.now }
        ensures sees { OnOk result (Sees class self.old.classes.items self.new.classes.items self.old.seen.items self.new.seen.items
            self.old.pending.items self.new.pending.items line touches.now) }
        ensures seen { OnOk result (self.new.seen.items ≡ slice_set self.old.seen.items line true) }
        ensures grows { OnOk result (Grows class self.old.classes.items self.new.classes.items) }
        ensures counted { OnOk result (open_count self.new.classes.items + length self.new.pending.items ≡ open_count self.old.classes.items + length self.old.pending.items) }
    {
        if self.seen[line as usize] {
            return Ok(());
        }
        self.spread(touches, class)?;
        self.seen[line as usize] = true;
        Ok(())
    }

    /// Gives each of these places that has none the class.
    fn spread(&mut self, touches: &[Touch], class: u32) -> Result<(), OutOfMemory>
        requires { All (λ touch. touch.place < length self.old.classes.items) touches.now }
        ensures seen { self.new.seen.items ≡ self.old.seen.items }
        ensures spreads { OnOk result (Spreads class self.old.classes.items self.new.classes.items self.old.seen.items self.old.pending.items self.new.pending.items touches.now) }
        ensures each { OnOk result (All (λ touch. is_some (class_at self.new.classes.items touch.place) ≡ true) touches.now) }
        ensures grows { OnOk result (Grows class self.old.classes.items self.new.classes.items) }
        ensures counted { OnOk result (open_count self.new.classes.items + length self.new.pending.items ≡ open_count self.old.classes.items + length self.old.pending.items) }
    {
        for touch in touches {
            self.enter(touch.place, class)?;
        }
        Ok(())
    }
}
