ghost use Rattle.std.specs.Prelude.{◌≡◌};
ghost use Rattle.dali_machine.specs.Machine.{opening};
ghost use Rattle.dali_machine.specs.Kept.{IsMachine};

mod accepting;
mod booking;
mod committing;
mod cycling;
mod entering;
mod judging;
mod preparing;
mod refusing;

use dali_account::Book;
use dali_base::{Moment, read_moment};
use dali_ledger::Ledger;
use dali_queue::Queue;
use std::alloc::Global;
use std::marker::Model;

/// The state of a day: its book, its queue, its ledger, the greatest moment so far, whether it is closed, and how many
/// commands were taken. Contracts see it as `specs/Machine.antt` says, and beside it what room was taken in advance.
pub struct State {
    book: Book,
    queue: Queue,
    ledger: Ledger,
    greatest: Moment,
    closed: bool,
    commands: u64,
    alloc: Global,
}

impl Model for State {
    ghost use Rattle.dali_machine.specs.Machine.{StateRecord};
    ghost use Rattle.dali_account.specs.Book.{book_code};
    ghost use Rattle.std.specs.Coded.{codes};

    ghost Value = { StateRecord };

    ghost coded = { Prim.hlevel (codes, book_code) };

    ghost use Rattle.dali_machine.specs.StateKept.{record_of, IsKept};

    ghost view = { record_of };

    ghost invariant = { IsKept };
}

// Written out, so that a function that owns a state isn't proved through all of its parts.
impl Drop for State {
    fn drop(self) {
        let State {
            book: _,
            queue: _,
            ledger: _,
            greatest: _,
            closed: _,
            commands: _,
            alloc: _,
        } = self;
    }
}

impl State {
    /// The state before the first command. Takes no memory.
    pub fn new(alloc: Global) -> State
        ensures { result.machine ≡ opening }
    {
        State {
            book: Book::new(alloc),
            queue: Queue::new(alloc),
            ledger: Ledger::new(alloc),
            greatest: first_moment(),
            closed: false,
            commands: 0,
            alloc,
        }
    }

    /// The book.
    pub fn book(&self) -> &Book
        ensures book { result.now.book ≡ self.now.machine.book }
        ensures machine { IsMachine self.now.machine }
    {
        &self.book
    }

    /// The queue.
    pub fn queue(&self) -> &Queue
        ensures queue { result.now.queue ≡ self.now.machine.queue }
        ensures machine { IsMachine self.now.machine }
    {
        &self.queue
    }

    /// The ledger, whose sums are the balances of the book.
    pub fn ledger(&self) -> &Ledger
        ensures ledger { result.now.postings ≡ self.now.machine.postings }
        ensures machine { IsMachine self.now.machine }
    {
        &self.ledger
    }

    /// The number of commands taken, the refused ones too.
    pub fn commands(&self) -> u64
        ensures { result ≡ self.now.machine.commands }
    {
        self.commands
    }

    /// Whether a CLOSE was accepted.
    pub fn is_closed(&self) -> bool
        ensures { result ≡ self.now.machine.closed }
    {
        self.closed
    }
}

fn first_moment() -> Moment
    ensures { result ≡ 0 }
{
    read_moment(b"000000".as_slice()).unwrap()
}
