ghost use Rattle.std.specs.Prelude.{◌≡◌};
ghost use Rattle.dali_base.specs.declared.kind.Kind.{Kind};
ghost use Rattle.dali_queue.specs.Cutoffs.{LAST, cutoff_of, with_cutoff};

use dali_base::{Kind, Moment, read_moment};

/// The last moment at which an instruction of each kind may be entered and settled.
#[derive(Clone, Copy, Debug)]
pub struct Cutoffs {
    pub dvp: Moment,
    pub fop: Moment,
    pub pay: Moment,
}

impl Cutoffs {
    /// The last moment of the day for each kind.
    pub fn new() -> Cutoffs
        ensures { (kind : Kind) → cutoff_of result kind ≡ LAST }
    {
        let last = last_moment();
        Cutoffs {
            dvp: last,
            fop: last,
            pay: last,
        }
    }

    /// The cut-off of a kind.
    pub fn of(&self, kind: Kind) -> Moment
        ensures { result ≡ cutoff_of self.now kind }
    {
        match kind {
            Kind::Dvp => self.dvp,
            Kind::Fop => self.fop,
            Kind::Pay => self.pay,
        }
    }

    /// Sets the cut-off of a kind.
    pub fn set(&mut self, kind: Kind, moment: Moment)
        ensures { self.new ≡ with_cutoff self.old kind moment }
    {
        match kind {
            Kind::Dvp => self.dvp = moment,
            Kind::Fop => self.fop = moment,
            Kind::Pay => self.pay = moment,
        }
    }
}

fn last_moment() -> Moment
    ensures { result ≡ LAST }
{
    read_moment(b"235959".as_slice()).unwrap()
}
