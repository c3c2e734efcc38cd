ghost use Rattle.std.specs.Prelude.{◌≡◌, ◌≤◌, ◌<◌, ◌++◌, [], true, length, take, drop, map, All, is_ok, IfOk, OnOk, OnErr, IfSome, IfNone, slice_index_or};
ghost use Rattle.dali_outside.specs.Outside.{Rose, Takes};
ghost use Rattle.dali_gateway.specs.Limits.{most_inboxes, most_turns};
ghost use Rattle.dali_gateway.specs.Gateway.{feed_of, whole_of, queue, unopened, pending};
ghost use Rattle.dali_gateway.specs.Merge.{merged};

use crate::inbox::{Inbox, copy_front};
use dali_base::Text;
use dali_outside::{Failed, Source};
use std::marker::Model;

/// What the merge writes behind each command.
const ENDING: [u8; 2] = *b"\r\n";

/// Several inboxes and a list of turns, as the one source of their merge (`specs/Merge.antt`). Contracts see it as a
/// `Gateway` (`specs/Gateway.antt`): the bytes of each inbox, the turns, and the bytes of the merge that weren't taken yet.
#[derive(Debug, Drop)]
pub struct Gate {
    inboxes: Vec<Inbox>,
    // The inbox of each turn.
    turns: Text,
    // The turns that were taken.
    next: usize,
    // The inbox whose command is open, and how many bytes behind that command weren't given yet. 0: none is open.
    giver: usize,
    ending: usize,
}

impl Model for Gate {
    ghost use Rattle.dali_gateway.specs.Gateway.{Gateway};
    ghost use Rattle.dali_gateway.specs.GateLayout.{gateway_of, IsMerging};

    ghost Value = { Gateway };

    ghost view = { gateway_of };

    ghost invariant = { IsMerging };
}

impl Gate {
    /// The gate of these inboxes, of which nothing was taken, and these turns.
    pub(crate) fn new(inboxes: Vec<Inbox>, turns: Text) -> Gate
        requires some { 1 ≤ length inboxes.items }
        requires few { length inboxes.items ≤ most_inboxes }
        requires count { length turns ≤ most_turns }
        requires known { All (λ turn. turn < length inboxes.items) turns }
        ensures { result ≡ record { inboxes = map whole_of inboxes.items; turns = turns; left = merged (map queue inboxes.items) turns } }
    {
        Gate {
            inboxes,
            turns,
            next: 0,
            giver: 0,
            ending: 0,
        }
    }

    /// The number of inboxes.
    pub fn inboxes(&self) -> u32
        ensures { result ≡ length self.now.inboxes }
    {
        self.inboxes.len() as u32
    }

    /// The number of turns.
    pub fn turns(&self) -> u32
        ensures { result ≡ length self.now.turns }
    {
        self.turns.len() as u32
    }

    /// Moves some first bytes of those left into the front of `into`, which has room, and answers how many. 0 is the end.
    fn give(&mut self, into: &mut [u8]) -> usize
        requires { 0 < length into.old }
        ensures inboxes { self.new.inboxes ≡ self.old.inboxes }
        ensures turns { self.new.turns ≡ self.old.turns }
        ensures room { length into.new ≡ length into.old }
        ensures within { result ≤ length into.old }
        ensures moved { self.old.left ≡ take result into.new ++ self.new.left }
        ensures end { result ≡ 0 → self.old.left ≡ [] }
    {
        if self.ending > 0 {
            return give_open(&mut self.inboxes[self.giver], &mut self.ending, into);
        }
        let (used, giver) = open_next(&mut self.inboxes, &self.turns.as_slice()[self.next..]);
        self.next += used;
        match giver {
            Some(giver) => {
                self.giver = giver;
                self.ending = ENDING.len();
                give_open(&mut self.inboxes[giver], &mut self.ending, into)
            }
            None => 0,
        }
    }
}

impl Source for Gate {
    ghost tells = { true };

    ghost feed = { feed_of };

    fn take(&mut self, into: &mut [u8]) -> Result<usize, Failed>
        ensures within { IfOk result (λ n. n ≤ length into.old) }

        // what is given
        ensures taken { IfOk result (λ n. Takes into.new n (feed_of self.old) (feed_of self.new)) }
        ensures kept { OnErr result (self.new.left ≡ self.old.left) }

        // the count of the faults, and when one comes
        ensures faults { (feed_of self.old).faults ≤ (feed_of self.new).faults }
        ensures quiet { OnOk result ((feed_of self.new).faults ≡ (feed_of self.old).faults) }
        ensures failed { OnErr result (Rose (feed_of self.old).faults (feed_of self.new).faults) }
        ensures works { is_ok result ≡ true }

        // what stays
        ensures inboxes { self.new.inboxes ≡ self.old.inboxes }
        ensures turns { self.new.turns ≡ self.old.turns }
    {
        let mut filled = 0;
        'pieces: while filled < into.len() {
            let n = self.give(&mut into[filled..]);
            if n == 0 {
                break;
            }
            filled += n;
        }
        Ok(filled)
    }
}

/// Lets one turn after the other open the next command of its inbox, until one does. Answers how many turns were taken, and
/// whose command is open, if any is.
fn open_next(inboxes: &mut Vec<Inbox>, turns: &[u8]) -> (usize, Option<usize>)
    requires { All (λ turn. turn < length inboxes.old.items) turns.now }
    ensures within { result.0 ≤ length turns.now }
    ensures whole { map whole_of inboxes.new.items ≡ map whole_of inboxes.old.items }
    ensures some { IfSome result.1 (λ giver. (giver < length inboxes.new.items)
        × (merged (map queue inboxes.old.items) turns.now ≡ pending (slice_index_or inboxes.new.items giver (unopened [])).open_ 2
        ++ merged (map queue inboxes.new.items) (drop result.0 turns.now))) }
    ensures none { IfNone result.1 (merged (map queue inboxes.old.items) turns.now ≡ []) }
    ensures used { IfNone result.1 (result.0 ≡ length turns.now) }
{
    for (at, turn) in turns.iter().enumerate() {
        let giver = *turn as usize;
        if inboxes[giver].open() {
            return (at + 1, Some(giver));
        }
    }
    (turns.len(), None)
}

/// Moves some first bytes of an open command, or of what stands behind it, into the front of `into`, and answers how many.
fn give_open(inbox: &mut Inbox, ending: &mut usize, into: &mut [u8]) -> usize
    requires open_ { 0 < ending.old }
    requires ending { ending.old ≤ 2 }
    requires room { 0 < length into.old }

    // what stays
    ensures whole { inbox.new.whole ≡ inbox.old.whole }
    ensures left { inbox.new.left ≡ inbox.old.left }

    // what is given
    ensures ending { ending.new ≤ 2 }
    ensures some { 0 < result }
    ensures within { result ≤ length into.old }
    ensures room { length into.new ≡ length into.old }
    ensures moved { pending inbox.old.open_ ending.old ≡ take result into.new ++ pending inbox.new.open_ ending.new }
{
    let n = inbox.give(into);
    if n > 0 {
        return n;
    }
    let n = copy_front(&ENDING[ENDING.len() - *ending..], into);
    *ending -= n;
    n
}
