//! What a day comes to whose lines are those of the five records, but for one byte: each account is opened by a PART, one is
//! issued cash, and one payment waits.

use crate::reader::{Kept, Read};
use dali_base::{Moment, Name, read_name};
use dali_line::{Verb, read_line};

/// A payment that waits.
#[derive(Clone, Copy)]
struct Payment {
    from: Name,
    cash: u64,
}

/// A day so far.
#[derive(Drop)]
pub(crate) struct Day {
    greatest: Option<Moment>,
    first: Option<Name>,
    second: Option<Name>,
    issued: Option<(Name, u64)>,
    payment: Option<Payment>,
}

impl Day {
    pub(crate) fn new() -> Day {
        Day {
            greatest: None,
            first: None,
            second: None,
            issued: None,
            payment: None,
        }
    }

    /// Takes an entry, and says whether it is legal there.
    pub(crate) fn takes(&mut self, read: &Read<'_>) -> bool {
        let has_choice = match read.kept {
            Kept::Nothing => false,
            Kept::Choice(_) => true,
        };
        let Some(command) = read_line(read.edition, read.line) else {
            return !has_choice;
        };
        if let Some(greatest) = self.greatest {
            if command.moment < greatest {
                return !has_choice;
            }
        }
        self.greatest = Some(command.moment);
        if let Verb::Cycle { .. } = command.verb {
            return self.settles(read);
        }
        self.take(&command.verb);
        !has_choice
    }

    fn take(&mut self, verb: &Verb) {
        match *verb {
            Verb::Part { account } => self.open(account),
            Verb::Issue {
                account,
                asset,
                quantity,
            } => {
                if self.has_account(account) && Some(asset) == read_name(b"MXN") {
                    self.issued = Some((account, quantity));
                }
            }
            Verb::Pay { from, to, cash, .. } => {
                if self.has_account(from) && self.has_account(to) && from != to {
                    self.payment = Some(Payment { from, cash });
                }
            }
            _ => {}
        }
    }

    fn has_account(&self, account: Name) -> bool {
        self.first == Some(account) || self.second == Some(account)
    }

    fn open(&mut self, account: Name) {
        if self.has_account(account) {
            return;
        }
        if self.first.is_none() {
            self.first = Some(account);
        } else {
            self.second = Some(account);
        }
    }

    /// Whether a cycle's choice is allowed: where a payment waits whose giver can bear it, the choice of that payment, as one
    /// part with its value as the bound and a tree that is a bound end. No other choice stands one byte away.
    fn settles(&self, read: &Read<'_>) -> bool {
        let Some(payment) = self.payment else {
            return false;
        };
        let Some(issued) = self.issued else {
            return false;
        };
        if issued.0 != payment.from || issued.1 < payment.cash {
            return false;
        }
        match read.kept {
            Kept::Nothing => false,
            Kept::Choice(choice) => is_whole_choice(choice, payment.cash),
        }
    }
}

/// Whether these are the bytes of the choice of the first place, as one part with this bound.
fn is_whole_choice(choice: &[u8], bound: u64) -> bool {
    let [a, b, c, d, e, f, g, h] = bound.to_be_bytes();
    choice
        == [
            0, 1, 0, 0, 0, 1, 0, 1, 0, 0, a, b, c, d, e, f, g, h, 0, 0, 4, 0, 0,
        ]
        .as_slice()
}
