ghost use Rattle.std.specs.Prelude.{◌≡◌, ◌≤◌, ◌+◌, ℕ, List, IsTrue};
ghost use Rattle.dali_entry.specs.EntryRecord.{EntryRecord};
ghost use Rattle.dali_outside.specs.Outside.{Feed, Sight, TellsAll};
ghost use Rattle.dali_recover.specs.Recovers.{IsFound, RestsWith};
ghost use Rattle.dali_follow.specs.FollowRun.{FollowRun, Follows};
ghost use Rattle.dali_follow.specs.Promises.{FollowPromises};

use crate::end::{FollowEnd, end_of_recovery};
use crate::held::print_held;
use crate::taking::take_frames;
use dali_outside::{Site, Source};
use dali_recover::{Found, recover};
use dali_replica::Frames;
use std::alloc::Global;

/// Opens the journal and recovers its history; takes the frames of the stream, each judged against the history so far, and
/// appends the records of those that come next, one behind the other; and prints how many commands are held. What was taken,
/// printed and left at each answer, and the cause of each, is `specs/FollowRun.antt`; what is promised of every stop, and where
/// the stream was shipped from a primary, is `specs/Promises.antt`.
///
/// `DiskFault` and `Damaged` of the opening come first; then for each frame `ReadFault`, `LongFile` or `BadFrame` of its bytes,
/// `OtherDay` and `BadFrame` of its judgement, and `JournalFull`. All memory of a frame is taken before its append.
pub fn follow_stream<S: Source, T: Site>(alloc: Global, source: &mut S, site: &mut T) -> FollowEnd
    ensures run { FollowRun S.tells T.tells (S.feed source.old) (S.feed source.new) (T.sight site.old) (T.sight site.new) result }
    ensures promises { IsTrue S.tells → IsTrue T.tells → FollowPromises (S.feed source.old) (S.feed source.new) (T.sight site.old) (T.sight site.new) result }
{
    // Called for its clause alone, here and below: a site that tells has a byte and a mark for each place.
    let _size = site.size();
    let end = open_stream(alloc, source, site);
    let _size = site.size();
    end
}

/// Recovers the history, and takes the stream behind it.
fn open_stream<S: Source, T: Site>(alloc: Global, source: &mut S, site: &mut T) -> FollowEnd
    ensures { (IsTrue T.tells → TellsAll (T.sight site.old)) → (IsTrue T.tells → TellsAll (T.sight site.new)) →
        FollowRun S.tells T.tells (S.feed source.old) (S.feed source.new) (T.sight site.old) (T.sight site.new) result }
{
    match recover(alloc, site) {
        Ok(mut found) => follow_found(alloc, &mut found, source, site),
        Err(no) => end_of_recovery(no),
    }
}

/// Takes the stream behind what was found, and prints how many commands are held.
fn follow_found<S: Source, T: Site>(
    alloc: Global,
    found: &mut Found,
    source: &mut S,
    site: &mut T,
) -> FollowEnd
    requires found { IsFound (T.sight site.old).size found.old }
    ensures { (IsTrue T.tells → RestsWith found.old (T.sight site.old)) →
        Follows S.tells T.tells (S.feed source.old) (S.feed source.new) (T.sight site.old) (T.sight site.new) found.old.journal.edition found.old.entries result }
{
    // Called for its clause alone: a site that tells has a byte and a mark for each place.
    let _size = site.size();
    let mut frames = Frames::new(alloc);
    match take_frames(alloc, found, &mut frames, source, site) {
        Ok(()) => print_held(alloc, found.entries.len() as u64, site),
        Err(end) => end,
    }
}
