ghost use Rattle.std.specs.Prelude.{IsTrue};
ghost use Rattle.dali_outside.specs.Outside.{Sight, TellsAll};
ghost use Rattle.dali_day.specs.DayRun.{DayRun};
ghost use Rattle.dali_day.specs.Promises.{DayPromises};
ghost use Rattle.dali_day.specs.SoFar.{EndsSo, HasRecovered, HasRecoveredSome};

use crate::end::{DayEnd, end_of_recovery};
use crate::replay::replay;
use crate::taking::take_new;
use dali_line::Lines;
use dali_outside::{Site, Source};
use dali_recover::{Found, recover};
use dali_register::Register;
use std::alloc::Global;

/// Opens the journal and recovers its history; takes the found entries' commands from the file again, and prints the
/// kept reply to each; then takes the commands behind them, up to 64 behind one gate write, and an accepted CYCLE by
/// itself. What was taken, printed and left at each answer, and the cause of each, is `specs/DayRun.antt`; what is
/// promised of every stop and every ending is `specs/Promises.antt`.
///
/// `DiskFault` and `Damaged` of the opening come first; then for each command `ReadFault`, `LongLine` or `LongFile`,
/// `OtherDay`, and `JournalFull`. What is held back is on the device and printed before each answer but `DiskFault` and
/// `PrintFault`.
pub fn take_day<S: Source, T: Site>(alloc: Global, source: &mut S, site: &mut T) -> DayEnd
    ensures day { DayRun S.tells T.tells (S.feed source.old) (S.feed source.new) (T.sight site.old) (T.sight site.new) result }
    ensures promises { IsTrue S.tells → IsTrue T.tells → DayPromises (S.feed source.old) (S.feed source.new) (T.sight site.old) (T.sight site.new) result }
{
    // Called for its clause alone, here and below: a site that tells has a byte and a mark for each place.
    let _size = site.size();
    let end = open_day(alloc, source, site);
    let _size = site.size();
    end
}

/// Recovers the history, and takes the day behind it.
fn open_day<S: Source, T: Site>(alloc: Global, source: &mut S, site: &mut T) -> DayEnd
    ensures { (IsTrue T.tells → TellsAll (T.sight site.old)) → (IsTrue T.tells → TellsAll (T.sight site.new)) →
        DayRun S.tells T.tells (S.feed source.old) (S.feed source.new) (T.sight site.old) (T.sight site.new) result }
{
    match recover(alloc, site) {
        Ok(found) => take_found(alloc, found, source, site),
        Err(no) => end_of_recovery(no),
    }
}

/// Goes over what was found again, and takes the commands behind it.
fn take_found<S: Source, T: Site>(
    alloc: Global,
    found: Found,
    source: &mut S,
    site: &mut T,
) -> DayEnd
    requires { HasRecoveredSome T.tells found (T.sight site.old) }
    ensures { (before : Sight) → HasRecovered T.tells before found (T.sight site.old) →
        EndsSo S.tells T.tells (S.feed source.old) (S.feed source.new) before (T.sight site.new) result }
{
    let Found {
        state: _,
        entries,
        journal,
    } = found;
    let Ok(mut lines) = Lines::new(alloc) else {
        return DayEnd::OutOfMemory;
    };
    let state = match replay(alloc, entries.as_slice(), &mut lines, source, site) {
        Ok(state) => state,
        Err(end) => return end,
    };
    let Ok(mut register) = Register::new(alloc, state, journal) else {
        return DayEnd::OutOfMemory;
    };
    take_new(&mut register, &mut lines, source, site)
}
