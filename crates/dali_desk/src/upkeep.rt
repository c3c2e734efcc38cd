ghost use Rattle.std.specs.Prelude.{◌≡◌};
ghost use Rattle.dali_gen.specs.Day.{IsDayNumber};
ghost use Rattle.dali_desk.specs.Upkeep.{ExportOver, GenOver, RaiseOver, TrialOver, status_of_export, status_of_put, status_of_raise};

use crate::status::Status;
use dali_gen::generate;
use dali_outside::Site;
use dali_put::{PutNo, put};
use dali_trial::trial;
use dali_upkeep::{ExportEnd, RaiseEnd, export_journal, raise_journal};
use std::alloc::Global;

/// Prints the table of all postings of the journal.
pub(crate) fn run_export<T: Site>(alloc: Global, site: &mut T) -> Status
    ensures { ExportOver T.tells (T.sight site.old) (T.sight site.new) result }
{
    status_of_export(export_journal(alloc, site))
}

/// Raises the journal by one edition.
pub(crate) fn run_raise<T: Site>(alloc: Global, site: &mut T) -> Status
    ensures { RaiseOver T.tells (T.sight site.old) (T.sight site.new) result }
{
    status_of_raise(raise_journal(alloc, site))
}

/// Prints the generated day file of a number.
pub(crate) fn run_gen<T: Site>(alloc: Global, n: u32, site: &mut T) -> Status
    requires { IsDayNumber n }
    ensures { GenOver n T.tells (T.sight site.old) (T.sight site.new) result }
{
    let Ok(text) = generate(alloc, n) else {
        return Status::OutOfMemory;
    };
    status_of_put(put(&text, site))
}

/// Prints the summary of a trial of the generated day of a number.
pub(crate) fn run_trial<T: Site>(alloc: Global, n: u32, site: &mut T) -> Status
    requires { IsDayNumber n }
    ensures { TrialOver n T.tells (T.sight site.old) (T.sight site.new) result }
{
    let Ok(text) = trial(alloc, n) else {
        return Status::OutOfMemory;
    };
    status_of_put(put(&text, site))
}

/// The status of how an export ended.
fn status_of_export(end: ExportEnd) -> Status
    ensures { result ≡ status_of_export end }
{
    match end {
        ExportEnd::Done => Status::Done,
        ExportEnd::PrintFault => Status::PrintFault,
        ExportEnd::DiskFault => Status::DiskFault,
        ExportEnd::Damaged { place, why } => Status::Damaged { place, why },
        ExportEnd::OutOfMemory => Status::OutOfMemory,
    }
}

/// The status of how a raise ended.
fn status_of_raise(end: RaiseEnd) -> Status
    ensures { result ≡ status_of_raise end }
{
    match end {
        RaiseEnd::Done => Status::Done,
        RaiseEnd::DiskFault => Status::DiskFault,
        RaiseEnd::Damaged { place, why } => Status::Damaged { place, why },
        RaiseEnd::OutOfMemory => Status::OutOfMemory,
    }
}

/// The status of how a print ended.
fn status_of_put(end: Result<(), PutNo>) -> Status
    ensures { result ≡ status_of_put end }
{
    match end {
        Ok(()) => Status::Done,
        Err(PutNo::PrintFault) => Status::PrintFault,
        Err(PutNo::OutOfMemory) => Status::OutOfMemory,
    }
}
