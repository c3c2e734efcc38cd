ghost use Rattle.std.specs.Prelude.{◌≡◌, ◌<◌, ◌≤◌, ℕ, List, [], false, IsTrue, IfOk, OnOk, IfErr, length};
ghost use Rattle.dali_entry.specs.EntryRecord.{EntryRecord};
ghost use Rattle.dali_outside.specs.Outside.{Feed, Sight};
ghost use Rattle.dali_recover.specs.Recovers.{IsFound};
ghost use Rattle.dali_replica.specs.Limits.{most_record, most_stream};
ghost use Rattle.dali_follow.specs.FollowRun.{Follows};
ghost use Rattle.dali_follow.specs.SoFar.{FollowsTo, FollowsAll, TakesFrame, TakesNot};

use crate::adding::add;
use crate::end::{FollowEnd, end_of_stream};
use dali_outside::{Site, Source};
use dali_recover::Found;
use dali_replica::{Frames, Judged, Shipped, judge};
use std::alloc::Global;

/// Takes the frames of the stream to its end. An error is how the run ends.
pub(crate) fn take_frames<S: Source, T: Site>(
    alloc: Global,
    found: &mut Found,
    frames: &mut Frames,
    source: &mut S,
    site: &mut T,
) -> Result<(), FollowEnd>
    requires found { IsFound (T.sight site.old).size found.old }
    requires more { frames.old.over ≡ false }
    requires place { frames.old.place ≤ most_stream }
    ensures all { (feed : Feed) (mid : Sight) (edition : ℕ) (history : List EntryRecord) →
        FollowsTo S.tells T.tells feed mid edition history frames.old found.old (S.feed source.old) (T.sight site.old) →
        OnOk result (FollowsAll S.tells T.tells feed (S.feed source.new) mid edition history found.new (T.sight site.new)) }
    ensures ended { (feed : Feed) (mid : Sight) (edition : ℕ) (history : List EntryRecord) →
        FollowsTo S.tells T.tells feed mid edition history frames.old found.old (S.feed source.old) (T.sight site.old) →
        IfErr result (Follows S.tells T.tells feed (S.feed source.new) mid (T.sight site.new) edition history) }
{
    while take_next(alloc, found, frames, source, site)? {}
    Ok(())
}

/// Takes the next frame: whether there was one. An error is how the run ends.
fn take_next<S: Source, T: Site>(
    alloc: Global,
    found: &mut Found,
    frames: &mut Frames,
    source: &mut S,
    site: &mut T,
) -> Result<bool, FollowEnd>
    requires found { IsFound (T.sight site.old).size found.old }
    requires more { frames.old.over ≡ false }

    // what the next one begins with
    ensures found { IfOk result (λ more. IsTrue more → IsFound (T.sight site.new).size found.new) }
    ensures more { IfOk result (λ more. IsTrue more → frames.new.over ≡ false) }
    ensures further { IfOk result (λ more. IsTrue more → frames.old.place < frames.new.place) }
    ensures limit { IfOk result (λ more. IsTrue more → frames.new.place ≤ most_stream) }

    // how the run goes on, or ends
    ensures taken { (feed : Feed) (mid : Sight) (edition : ℕ) (history : List EntryRecord) →
        FollowsTo S.tells T.tells feed mid edition history frames.old found.old (S.feed source.old) (T.sight site.old) →
        IfOk result (λ more. IsTrue more → FollowsTo S.tells T.tells feed mid edition history frames.new found.new (S.feed source.new) (T.sight site.new)) }
    ensures all { (feed : Feed) (mid : Sight) (edition : ℕ) (history : List EntryRecord) →
        FollowsTo S.tells T.tells feed mid edition history frames.old found.old (S.feed source.old) (T.sight site.old) →
        IfOk result (λ more. more ≡ false → FollowsAll S.tells T.tells feed (S.feed source.new) mid edition history found.new (T.sight site.new)) }
    ensures ended { (feed : Feed) (mid : Sight) (edition : ℕ) (history : List EntryRecord) →
        FollowsTo S.tells T.tells feed mid edition history frames.old found.old (S.feed source.old) (T.sight site.old) →
        IfErr result (Follows S.tells T.tells feed (S.feed source.new) mid (T.sight site.new) edition history) }
{
    match frames.next(source) {
        Ok(Some(frame)) => match take_frame(alloc, &frame, found, site) {
            Ok(()) => Ok(true),
            Err(end) => Err(end),
        },
        Ok(None) => Ok(false),
        Err(no) => Err(end_of_stream(no)),
    }
}

/// Judges a frame against the history so far, and adds its entry where it comes next. An error is how the run ends.
fn take_frame<T: Site>(
    alloc: Global,
    frame: &Shipped,
    found: &mut Found,
    site: &mut T,
) -> Result<(), FollowEnd>
    requires found { IsFound (T.sight site.old).size found.old }
    requires short { length frame.now.bytes ≤ most_record }
    ensures found { OnOk result (IsFound (T.sight site.new).size found.new) }
    ensures taken { OnOk result (TakesFrame T.tells frame.now found.old found.new (T.sight site.old) (T.sight site.new)) }
    ensures ended { IfErr result (TakesNot T.tells frame.now found.old (T.sight site.old) (T.sight site.new)) }
{
    let edition = found.journal.edition();
    match judge(alloc, &found.entries, &found.state, edition, frame)? {
        Judged::Next { entry } => add(alloc, entry, frame.bytes.bytes(), found, site),
        Judged::Kept | Judged::Ahead => Ok(()),
        Judged::Other => Err(FollowEnd::OtherDay {
            command: frame.number,
        }),
        Judged::Bad => Err(FollowEnd::BadFrame { place: frame.place }),
    }
}
