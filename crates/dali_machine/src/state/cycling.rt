ghost use Rattle.std.specs.Prelude.{◌≡◌, ◌==◌, ◌<◌, ◌≤◌, ◌^◌, Some, IfOk, IfSome, length};
ghost use Rattle.std.specs.List.{list_any};
ghost use Rattle.std.specs.Option.{option_map};
ghost use Rattle.dali_base.specs.Limits.{most_budget};
ghost use Rattle.dali_check.specs.Parts.{bound_of, branchings_of};
ghost use Rattle.dali_problem.specs.Feasible.{ArePlaces};
ghost use Rattle.dali_queue.specs.CycleProblem.{chosen_of};
ghost use Rattle.dali_machine.specs.Cycles.{IsChoiceFor, accepted_cycle, ids_at, input_at, mark_of, problem_at, report_on, with_set};
ghost use Rattle.dali_machine.specs.Ready.{CanCommit, IsMadeReady, IsSet};
ghost use Rattle.dali_machine.specs.Step.{judged};
ghost use Rattle.dali_machine.specs.declared.judged.Judged.{Judged as Judgement};
ghost use Rattle.dali_line.specs.declared.command.Verb.{Verb as Wish};

use super::State;
use crate::judged::Judged;
use crate::names::see_names;
use crate::outcome::Outcome;
use crate::ready::Ready;
use crate::report::{CycleMark, CycleReport};
use dali_account::Net;
use dali_base::{Moment, OutOfMemory, Places, Seq};
use dali_line::{Line, Verb};
use dali_problem::Problem;
use dali_queue::CycleInput;
use dali_tree::{Choice, Part, branchings};
use dali_waiting::Ids;
use std::alloc::Global;

impl State {
    /// The problem and the budget of the cycle that this line asks for in this edition. `None` exactly where the line
    /// isn't an accepted CYCLE. The budget is at most 4,096. Want of memory is the only error.
    pub fn cycle_input(
        &self,
        alloc: Global,
        edition: u8,
        line: &Line,
    ) -> Result<Option<(CycleInput, u64)>, OutOfMemory>
        ensures found { IfOk result (λ found. found ≡ option_map (λ c. (input_at self.now.machine c.0, c.1)) (accepted_cycle (judged edition self.now.machine line.now))) }
        ensures budget { IfOk result (λ found. IfSome found (λ c. c.1 ≤ most_budget)) }
    {
        match accepted_cycle(&self.judge(edition, line.bytes())) {
            Some(cycle) => {
                let input = self.queue.problem(alloc, &self.book, cycle.0)?;
                Ok(Some((input, cycle.1)))
            }
            None => Ok(None),
        }
    }

    /// Takes all memory that a cycle needs, and makes its report. The choice fits, and is allowed for the problem of this
    /// moment and the budget.
    pub(super) fn make_cycle_ready(
        &mut self,
        moment: Moment,
        budget: u64,
        choice: Choice,
    ) -> Result<Ready, OutOfMemory>
        requires few { self.old.machine.commands < 2 ^ 63 }
        requires budget { budget ≤ most_budget }
        requires choice { IsChoiceFor (problem_at self.old.machine moment) budget choice }
        ensures machine { self.new.machine ≡ self.old.machine }
        ensures made { IfOk result (IsMadeReady self.old.machine (Judgement.Yes moment (Wish.Cycle budget)) (Some (record { budget = budget; choice = choice }))) }
        ensures room { IfOk result (CanCommit self.new) }
    {
        let input = self.queue.problem(self.alloc, &self.book, moment)?;
        // The limits of a problem and of the queue bound the report's numbers, and its names have a block.
        let _items = input.problem.items();
        see_names(&input.problem);
        let _waiting = self.queue.len();
        let places = chosen_places(self.alloc, choice.places.as_slice(), &input)?;
        let net = self.queue.net(self.alloc, &places)?;
        let judged = Judged::Yes {
            moment,
            verb: Verb::Cycle { budget },
        };
        self.make_room(&judged, &net)?;
        let ids = self.ids_at(&places)?;
        let report = report_on(input.problem, ids, budget, choice);
        let outcome = Outcome::Cycle { report };
        Ok(Ready::new(judged, outcome, self.commands + 1, net, places))
    }

    /// The ids of the instructions at these queue places.
    fn ids_at(&self, places: &Places) -> Result<Ids, OutOfMemory>
        ensures { IfOk result (λ ids. ids ≡ ids_at self.now.machine places.now) }
    {
        let mut ids = Seq::new(self.alloc);
        for place in places.as_slice() {
            if let Some(item) = self.queue.at(*place) {
                ids.push(item.id)?;
            }
        }
        Ok(ids)
    }

    /// Books the net of a set of instructions at once, and takes them out of the queue.
    pub(super) fn book_set(&mut self, places: &Places, net: &Net)
        requires { IsSet self.old places.now net.now }
        ensures { self.new.machine ≡ with_set self.old.machine net.now places.now }
    {
        self.queue.remove_all(places);
        self.book.post(net);
        self.ledger.post(self.commands, net);
    }
}

/// The moment and the budget of an accepted CYCLE.
pub(super) fn accepted_cycle(judged: &Judged) -> Option<(Moment, u64)>
    ensures { result ≡ accepted_cycle judged.now }
{
    match judged {
        Judged::Yes {
            moment,
            verb: Verb::Cycle { budget },
        } => Some((*moment, *budget)),
        _ => None,
    }
}

/// Of the queue places of all instructions in items, those whose item is in the set.
fn chosen_places(alloc: Global, set: &[u32], input: &CycleInput) -> Result<Places, OutOfMemory>
    requires { length input.now.item ≡ length input.now.at }
    ensures { IfOk result (λ places. places ≡ chosen_of set.now input.now.at input.now.item) }
{
    let mut places = Seq::new(alloc);
    let items = input.item.as_slice();
    for (k, place) in input.at.as_slice().iter().enumerate() {
        if is_in(set, items[k]) {
            places.push(*place)?;
        }
    }
    Ok(places)
}

fn is_in(set: &[u32], item: u32) -> bool
    ensures { result ≡ list_any (λ k. k == item) set.now }
{
    set.iter().any(|k| *k == item)
}

/// What a cycle answers.
fn report_on(problem: Problem, ids: Ids, budget: u64, choice: Choice) -> CycleReport
    requires places { ArePlaces problem choice.places }
    requires ids { length ids < 2 ^ 32 }
    requires bound { bound_of choice.parts < 2 ^ 64 }
    requires branches { branchings_of choice.parts ≤ most_budget }
    ensures { result ≡ report_on problem ids budget choice }
{
    let value = problem.value_of(&choice.places);
    let bound = bound_of(choice.parts.as_slice());
    let branchings = branchings_of(choice.parts.as_slice());
    CycleReport {
        mark: mark_of(value, bound),
        value,
        count: ids.len() as u32,
        bound,
        branchings,
        ids,
        problem,
        budget,
        choice,
    }
}

fn mark_of(value: u64, bound: u64) -> CycleMark
    ensures { result ≡ mark_of value bound }
{
    if value == bound {
        CycleMark::Optimal
    } else {
        CycleMark::Unfinished
    }
}

/// The sum of the bounds.
fn bound_of(parts: &[Part]) -> u64
    requires { bound_of parts.now < 2 ^ 64 }
    ensures { result ≡ bound_of parts.now }
{
    parts.iter().map(|part| part.bound).sum()
}

/// The branches of all trees.
fn branchings_of(parts: &[Part]) -> u64
    requires { branchings_of parts.now ≤ most_budget }
    ensures { result ≡ branchings_of parts.now }
{
    let mut all = 0;
    for part in parts {
        all += branchings(&part.tree);
    }
    all
}
