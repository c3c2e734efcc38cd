ghost use Rattle.std.specs.Prelude.{◌≡◌};
ghost use Rattle.dali_upkeep.specs.ExportRun.{ExportRun};
ghost use Rattle.dali_upkeep.specs.Printing.{PrintsTable, unexported};

use dali_journal::Damage;
use dali_machine::State;
use dali_outside::{Failed, Site};
use dali_recover::{RecoverNo, recover};
use dali_statement::ledger_csv;
use std::alloc::Global;

/// How an export ended.
#[derive(Clone, Copy, Debug, PartialEq, Eq)]
pub enum ExportEnd {
    /// The whole table was printed.
    Done,
    /// The site failed to print. A front of the table is printed.
    PrintFault,
    /// The disk failed. Nothing is printed.
    DiskFault,
    /// The bytes spell no legal history: what is first wrong, and at which place, counted from 0. Nothing is printed.
    Damaged { place: u64, why: Damage },
    /// Memory was wanted and wasn't there. Nothing is printed.
    OutOfMemory,
}

/// Recovers the history that the device spells, and prints the table of all its postings: a header row and one row for
/// each posting in order of number. Nothing is written; opening the journal syncs.
///
/// What it answers, when, and what it has printed at every stop is defined in `specs/ExportRun.antt`.
pub fn export_journal<T: Site>(alloc: Global, site: &mut T) -> ExportEnd
    ensures { ExportRun T.tells (T.sight site.old) (T.sight site.new) result }
{
    match recover(alloc, site) {
        Ok(found) => print_table(alloc, &found.state, site),
        Err(refusal) => {
            // Called for its clause alone: a site that tells has a byte and a mark for each place.
            let _size = site.size();
            unexported(refusal)
        }
    }
}

/// Prints the table of the state's postings, in one put.
fn print_table<T: Site>(alloc: Global, state: &State, site: &mut T) -> ExportEnd
    ensures { PrintsTable T.tells state.now.machine.postings (T.sight site.old) (T.sight site.new) result }
{
    // Called for its clause alone, as above.
    let _size = site.size();
    let Ok(table) = ledger_csv(alloc, state.ledger()) else {
        return ExportEnd::OutOfMemory;
    };
    match site.put(table.bytes()) {
        Ok(()) => ExportEnd::Done,
        Err(Failed) => ExportEnd::PrintFault,
    }
}

/// How an export ends that found no history.
fn unexported(refusal: RecoverNo) -> ExportEnd
    ensures { result ≡ unexported refusal }
{
    match refusal {
        RecoverNo::DiskFault => ExportEnd::DiskFault,
        RecoverNo::Damaged { place, why } => ExportEnd::Damaged { place, why },
        RecoverNo::OutOfMemory => ExportEnd::OutOfMemory,
    }
}
