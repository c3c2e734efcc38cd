ghost use Rattle.std.specs.Prelude.{◌≡◌};
ghost use Rattle.dali_desk.specs.Replica.{FollowOver, ShipOver, status_of_follow, status_of_ship};

use crate::status::Status;
use dali_follow::{FollowEnd, follow_stream};
use dali_outside::{Site, Source};
use dali_ship::{ShipEnd, ship_journal};
use std::alloc::Global;

/// Prints the frames of the journal's commands.
pub(crate) fn run_ship<T: Site>(alloc: Global, site: &mut T) -> Status
    ensures { ShipOver T.tells (T.sight site.old) (T.sight site.new) result }
{
    status_of_ship(ship_journal(alloc, site))
}

/// Takes the frames of the stream into the journal.
pub(crate) fn run_follow<S: Source, T: Site>(alloc: Global, source: &mut S, site: &mut T) -> Status
    ensures { FollowOver S.tells T.tells (S.feed source.old) (S.feed source.new) (T.sight site.old) (T.sight site.new) result }
{
    status_of_follow(follow_stream(alloc, source, site))
}

/// The status of how a ship ended.
fn status_of_ship(end: ShipEnd) -> Status
    ensures { result ≡ status_of_ship end }
{
    match end {
        ShipEnd::Done => Status::Done,
        ShipEnd::PrintFault => Status::PrintFault,
        ShipEnd::DiskFault => Status::DiskFault,
        ShipEnd::Damaged { place, why } => Status::Damaged { place, why },
        ShipEnd::OutOfMemory => Status::OutOfMemory,
    }
}

/// The status of how a run of a follower ended.
fn status_of_follow(end: FollowEnd) -> Status
    ensures { result ≡ status_of_follow end }
{
    match end {
        FollowEnd::Done => Status::Done,
        FollowEnd::ReadFault => Status::ReadFault,
        FollowEnd::PrintFault => Status::PrintFault,
        FollowEnd::DiskFault => Status::DiskFault,
        FollowEnd::Damaged { place, why } => Status::Damaged { place, why },
        FollowEnd::OtherDay { command } => Status::OtherDay { command },
        FollowEnd::BadFrame { place } => Status::BadFrame { place },
        FollowEnd::LongFile => Status::LongFile,
        FollowEnd::JournalFull { need, left } => Status::JournalFull { need, left },
        FollowEnd::OutOfMemory => Status::OutOfMemory,
    }
}
