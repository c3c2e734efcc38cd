ghost use Rattle.std.specs.Prelude.{◌≡◌};
ghost use Rattle.dali_desk.specs.DayOver.{DayOver, status_of_day};

use crate::status::Status;
use dali_day::{DayEnd, take_day};
use dali_outside::{Site, Source};
use std::alloc::Global;

/// Takes the commands of the day file over the journal.
pub(crate) fn run_day<S: Source, T: Site>(alloc: Global, source: &mut S, site: &mut T) -> Status
    ensures { DayOver S.tells T.tells (S.feed source.old) (S.feed source.new) (T.sight site.old) (T.sight site.new) result }
{
    status_of_day(take_day(alloc, source, site))
}

/// The status of how a day ended.
fn status_of_day(end: DayEnd) -> Status
    ensures { result ≡ status_of_day end }
{
    match end {
        DayEnd::Done => Status::Done,
        DayEnd::ReadFault => Status::ReadFault,
        DayEnd::PrintFault => Status::PrintFault,
        DayEnd::DiskFault => Status::DiskFault,
        DayEnd::Damaged { place, why } => Status::Damaged { place, why },
        DayEnd::OtherDay { command } => Status::OtherDay { command },
        DayEnd::LongLine { command } => Status::LongLine { command },
        DayEnd::LongFile => Status::LongFile,
        DayEnd::JournalFull { need, left } => Status::JournalFull { need, left },
        DayEnd::OutOfMemory => Status::OutOfMemory,
    }
}
