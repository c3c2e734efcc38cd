ghost use Rattle.std.specs.Prelude.{◌≡◌, ◌+◌, ◌<◌, ◌≤◌, ℕ, Bool, List, OnOk, IfErr};
ghost use Rattle.dali_entry.specs.EntryRecord.{EntryRecord};
ghost use Rattle.dali_line.specs.Lines.{MOST_OF_FILE};
ghost use Rattle.dali_outside.specs.Outside.{Feed, Sight};
ghost use Rattle.dali_register.specs.Standing.{IsAtSite};
ghost use Rattle.dali_day.specs.SoFar.{HasFound, GoesOnTo, GoesOnSome, Finishes, EndsSo};

use crate::end::{DayEnd, end_of_input, end_of_register};
use dali_line::Lines;
use dali_outside::{Site, Source};
use dali_register::Register;

/// Takes the commands behind the found ones, up to the end of the day.
pub(crate) fn take_new<S: Source, T: Site>(
    register: &mut Register,
    lines: &mut Lines,
    source: &mut S,
    site: &mut T,
) -> DayEnd
    requires counted { register.old.state.machine.commands ≡ lines.old.given }
    requires few { lines.old.given ≤ MOST_OF_FILE }
    requires far { GoesOnSome S.tells T.tells lines.old register.old (S.feed source.old) (T.sight site.old) }
    ensures { (feed : Feed) (sight : Sight) (found : List EntryRecord) → HasFound T.tells sight register.old.journal.edition found →
        GoesOnTo S.tells T.tells feed sight found lines.old register.old (S.feed source.old) (T.sight site.old) →
        EndsSo S.tells T.tells feed (S.feed source.new) sight (T.sight site.new) result }
{
    loop {
        if let Err(end) = take_next(register, lines, source, site) {
            return end;
        }
    }
}

/// Takes the next command. An error is how the day ends, at the end of input too.
fn take_next<S: Source, T: Site>(
    register: &mut Register,
    lines: &mut Lines,
    source: &mut S,
    site: &mut T,
) -> Result<(), DayEnd>
    requires counted { register.old.state.machine.commands ≡ lines.old.given }
    requires few { lines.old.given ≤ MOST_OF_FILE }
    requires far { GoesOnSome S.tells T.tells lines.old register.old (S.feed source.old) (T.sight site.old) }

    // how the run goes on, or ends
    ensures taken { (feed : Feed) (sight : Sight) (found : List EntryRecord) → HasFound T.tells sight register.old.journal.edition found →
        GoesOnTo S.tells T.tells feed sight found lines.old register.old (S.feed source.old) (T.sight site.old) →
        OnOk result (GoesOnTo S.tells T.tells feed sight found lines.new register.new (S.feed source.new) (T.sight site.new)) }
    ensures ended { (feed : Feed) (sight : Sight) (found : List EntryRecord) → HasFound T.tells sight register.old.journal.edition found →
        GoesOnTo S.tells T.tells feed sight found lines.old register.old (S.feed source.old) (T.sight site.old) →
        IfErr result (EndsSo S.tells T.tells feed (S.feed source.new) sight (T.sight site.new)) }

    // what is counted
    ensures counted { OnOk result (register.new.state.machine.commands ≡ lines.new.given) }
    ensures given { OnOk result (lines.new.given ≡ lines.old.given + 1) }
    ensures bounded { lines.new.given ≤ MOST_OF_FILE }

    // what stays
    ensures edition { register.new.journal.edition ≡ register.old.journal.edition }
{
    match lines.next(source) {
        Ok(Some(line)) => match register.take(line, site) {
            Ok(()) => Ok(()),
            Err(no) => Err(end_of_register(no)),
        },
        Ok(None) => Err(end_with(DayEnd::Done, register, site)),
        Err(end) => Err(end_with(end_of_input(end), register, site)),
    }
}

/// How the day ends once what is held back was brought to the device and the console.
fn end_with<T: Site>(end: DayEnd, register: &mut Register, site: &mut T) -> DayEnd
    requires { IsAtSite register.old (T.sight site.old) }
    ensures ended { (source_tells : Bool) (old new : Feed) (before : Sight) (found added held : List EntryRecord) →
        Finishes source_tells T.tells old new before found added held register.old (T.sight site.old) end → EndsSo source_tells T.tells old new before (T.sight site.new) result }
    ensures edition { register.new.journal.edition ≡ register.old.journal.edition }
{
    match register.flush(site) {
        Ok(()) => end,
        Err(no) => end_of_register(no),
    }
}
