ghost use Rattle.std.specs.Prelude.{◌≡◌, ◌+◌, ◌≤◌};
ghost use Rattle.dali_upkeep.specs.RaiseRun.{RaiseRun};
ghost use Rattle.dali_upkeep.specs.Raising.{RaisesFound, unraised};

use dali_base::NEWEST;
use dali_journal::{Damage, DiskFault, Journal};
use dali_outside::Site;
use dali_recover::{RecoverNo, recover};
use std::alloc::Global;

/// How a raise ended.
#[derive(Clone, Copy, Debug, PartialEq, Eq)]
pub enum RaiseEnd {
    /// The journal has the next edition, or the newest one, which it had already.
    Done,
    /// The disk failed. Either edition may stand.
    DiskFault,
    /// The bytes spell no legal history: what is first wrong, and at which place, counted from 0. Nothing was written.
    Damaged { place: u64, why: Damage },
    /// Memory was wanted and wasn't there. Nothing was written.
    OutOfMemory,
}

/// Recovers the history that the device spells, and raises its journal by one edition in place. Of the newest edition it
/// leaves the journal as it is. Nothing is printed.
///
/// What it answers, when, and what every stop leaves is defined in `specs/RaiseRun.antt`.
pub fn raise_journal<T: Site>(alloc: Global, site: &mut T) -> RaiseEnd
    ensures { RaiseRun T.tells (T.sight site.old) (T.sight site.new) result }
{
    // Called for its clause alone, here and below: a site that tells has a byte and a mark for each place.
    let _size = site.size();
    match recover(alloc, site) {
        Ok(mut found) => raise_found(&mut found.journal, site),
        Err(refusal) => {
            let _size = site.size();
            unraised(refusal)
        }
    }
}

/// Raises a journal that was read to its end, unless its edition is the newest.
fn raise_found<T: Site>(journal: &mut Journal, site: &mut T) -> RaiseEnd
    requires { journal.old.tail + journal.old.left ≡ (T.sight site.old).size }
    ensures { RaisesFound T.tells journal.old.edition (T.sight site.old) (T.sight site.new) result }
{
    if journal.edition() >= NEWEST {
        let _size = site.size();
        return RaiseEnd::Done;
    }
    let raised = journal.raise_edition(site);
    let _size = site.size();
    match raised {
        Ok(()) => RaiseEnd::Done,
        Err(DiskFault) => RaiseEnd::DiskFault,
    }
}

/// How a raise ends that found no history.
fn unraised(refusal: RecoverNo) -> RaiseEnd
    ensures { result ≡ unraised refusal }
{
    match refusal {
        RecoverNo::DiskFault => RaiseEnd::DiskFault,
        RecoverNo::Damaged { place, why } => RaiseEnd::Damaged { place, why },
        RecoverNo::OutOfMemory => RaiseEnd::OutOfMemory,
    }
}
