ghost use Rattle.std.specs.Prelude.{◌≡◌, ◌≤◌, map, sum_by, IfOk};
ghost use Rattle.std.specs.List.{All};
ghost use Rattle.dali_queue.specs.Instruction.{IsInstruction, weight};
ghost use Rattle.dali_queue.specs.NetOf.{items_at};
ghost use Rattle.dali_queue.specs.CycleProblem.{first_id, input_of};
ghost use Rattle.dali_queue.specs.Eligible.{ArePlaces};
ghost use Rattle.dali_queue.specs.Drafts.{draft_of};

use super::Queue;
use crate::cycle::CycleInput;
use crate::draft::{Draft, draft_problem};
use crate::eligible::{Eligible, eligible_groups};
use crate::instruction::Instruction;
use dali_account::Book;
use dali_base::{Moment, Name, OutOfMemory, Places};
use std::alloc::Global;

impl Queue {
    /// The problem of a cycle at this moment over the balances of the book (`specs/CycleProblem.antt`), with the queue
    /// place of each instruction in its items, and for each the number of its item. Want of memory is the only error.
    pub fn problem(
        &self,
        alloc: Global,
        book: &Book,
        moment: Moment,
    ) -> Result<CycleInput, OutOfMemory>
        ensures { IfOk result (λ input. input ≡ input_of book.now.book self.now.queue moment) }
    {
        let Eligible {
            groups: _,
            at,
            item,
            members,
        } = eligible_groups(alloc, self.entries.list(), &self.cutoffs, moment)?;
        let drafts = self.drafts(alloc, members.as_slice())?;
        let problem = draft_problem(alloc, book, drafts.as_slice())?;
        Ok(CycleInput { problem, at, item })
    }

    /// What the instructions at each of these lists of places bring to a problem.
    fn drafts(&self, alloc: Global, members: &[Places]) -> Result<Vec<Draft>, OutOfMemory>
        requires { All (ArePlaces self.now.queue.waiting) members.now }
        ensures { IfOk result (λ drafts. drafts.items ≡ map (λ places. draft_of (items_at self.now.queue.waiting places)) members.now) }
    {
        let mut drafts = Vec::new(alloc);
        for places in members {
            drafts.push(self.draft(alloc, places)?)?;
        }
        Ok(drafts)
    }

    /// What the instructions at these places bring to a problem.
    fn draft(&self, alloc: Global, places: &Places) -> Result<Draft, OutOfMemory>
        requires { ArePlaces self.now.queue.waiting places.now }
        ensures { IfOk result (λ draft. draft ≡ draft_of (items_at self.now.queue.waiting places.now)) }
    {
        let net = self.net(alloc, places)?;
        Ok(Draft {
            id: self.first_id(places),
            value: self.value(places),
            net,
        })
    }

    /// The id of the first of the instructions at these places.
    fn first_id(&self, places: &Places) -> Name
        requires { ArePlaces self.now.queue.waiting places.now }
        ensures { result ≡ first_id (items_at self.now.queue.waiting places.now) }
    {
        let first = places.as_slice()[0];
        let item = self.at(first).unwrap();
        item.id
    }

    /// What the instructions at these places are worth, in centavos times rank.
    fn value(&self, places: &Places) -> u64
        requires { ArePlaces self.now.queue.waiting places.now }
        ensures { result ≡ sum_by weight (items_at self.now.queue.waiting places.now) }
    {
        let listed = places.as_slice();
        let mut value = 0;
        for place in listed {
            if let Some(item) = self.at(*place) {
                value += weight(item);
            }
        }
        value
    }
}

/// What a cycle counts an instruction for.
fn weight(item: &Instruction) -> u64
    requires { IsInstruction item.now }
    ensures value { result ≡ weight item.now }
    ensures most { result ≤ 16000000000000000 }
{
    item.value * u64::from(item.rank)
}
