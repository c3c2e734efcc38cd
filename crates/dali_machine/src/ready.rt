ghost use Rattle.std.specs.Prelude.{◌≡◌};
ghost use Rattle.dali_machine.specs.Outcomes.{IsReported};
ghost use Rattle.dali_machine.specs.Refused.{IsAnswered};

use crate::judged::Judged;
use crate::outcome::Outcome;
use dali_account::Net;
use dali_base::Places;
use std::marker::Model;

/// A command that was judged and for which all room is taken, so that it can be committed without memory.
#[derive(Drop)]
pub struct Ready {
    judged: Judged,
    outcome: Outcome,
    number: u64,
    net: Net,
    /// The queue places of the instructions that a cycle takes out.
    places: Places,
}

impl Model for Ready {
    ghost use Rattle.dali_machine.specs.Ready.{ReadyRecord};
    ghost use Rattle.dali_machine.specs.Outcomes.{IsReported};
    ghost use Rattle.dali_machine.specs.Refused.{IsAnswered};

    ghost Value = { ReadyRecord };

    ghost use Rattle.dali_tree.specs.contracts.tree.End as end_block;
    ghost use Rattle.std.specs.Coded.{codes};

    ghost coded = { Prim.hlevel (codes, end_block.the_row.coded) };

    ghost view = { λ a. record { judged = a.judged; outcome = a.outcome; number = a.number; net = a.net; places = a.places } };

    ghost invariant = { λ a. IsAnswered a.judged a.outcome × IsReported a.outcome };
}

impl Ready {
    pub(crate) fn new(
        judged: Judged,
        outcome: Outcome,
        number: u64,
        net: Net,
        places: Places,
    ) -> Ready
        requires answered { IsAnswered judged outcome }
        requires reported { IsReported outcome }
        ensures { result ≡ record { judged = judged; outcome = outcome; number = number; net = net; places = places } }
    {
        Ready {
            judged,
            outcome,
            number,
            net,
            places,
        }
    }

    /// What was judged, what is answered, the number, the net and the places.
    pub(crate) fn into_parts(self) -> (Judged, Outcome, u64, Net, Places)
        ensures parts { result ≡ (self.judged, self.outcome, self.number, self.net, self.places) }
        ensures answered { IsAnswered self.judged self.outcome }
        ensures reported { IsReported self.outcome }
    {
        (
            self.judged,
            self.outcome,
            self.number,
            self.net,
            self.places,
        )
    }

    /// What is answered to the command. A cycle's report is true (`specs/Cycles.antt`).
    pub fn outcome(&self) -> &Outcome
        ensures outcome { result.now ≡ self.now.outcome }
        ensures reported { IsReported self.now.outcome }
    {
        &self.outcome
    }

    /// The number of the command, counted from 1.
    pub fn number(&self) -> u64
        ensures { result ≡ self.now.number }
    {
        self.number
    }
}
