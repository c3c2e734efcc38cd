ghost use Rattle.std.specs.Prelude.{◌≡◌, ◌↔◌, ◌≤◌, ◌++◌, ◌∷◌, [], ℕ, IsTrue, List, OnOk, IfOk, IfErr};
ghost use Rattle.dali_entry.specs.EntryRecord.{EntryRecord};
ghost use Rattle.dali_line.specs.Line.{is_line};
ghost use Rattle.dali_line.specs.Lines.{MOST_OF_FILE};
ghost use Rattle.dali_machine.specs.History.{HasItsChoice};
ghost use Rattle.dali_machine.specs.Machine.{opening};
ghost use Rattle.dali_machine.specs.Step.{judged};
ghost use Rattle.dali_outside.specs.Outside.{Feed, Sight};
ghost use Rattle.dali_day.specs.SoFar.{HasFound, ReplaysTo, ReplaysSome, EndsSo};

use crate::end::{DayEnd, end_of_input, end_of_register};
use dali_entry::Entry;
use dali_line::{Line, Lines};
use dali_machine::State;
use dali_outside::{Site, Source};
use dali_register::repeat;
use std::alloc::Global;

/// Takes the commands of the found entries from the file again, and prints the kept reply to each. The state is that
/// behind them. An error is how the day ends.
pub(crate) fn replay<S: Source, T: Site>(
    alloc: Global,
    entries: &[Entry],
    lines: &mut Lines,
    source: &mut S,
    site: &mut T,
) -> Result<State, DayEnd>
    requires first { lines.old.given ≡ 0 }
    requires far { ReplaysSome S.tells T.tells entries.now [] lines.old opening (S.feed source.old) (T.sight site.old) }
    ensures repeated { (feed : Feed) (sight : Sight) (tail edition : ℕ) → HasFound T.tells sight edition entries.now →
        ReplaysTo S.tells T.tells feed sight entries.now [] tail edition lines.old opening (S.feed source.old) (T.sight site.old) →
        IfOk result (λ state. ReplaysTo S.tells T.tells feed sight entries.now entries.now tail edition lines.new state.machine (S.feed source.new) (T.sight site.new)) }
    ensures ended { (feed : Feed) (sight : Sight) (tail edition : ℕ) → HasFound T.tells sight edition entries.now →
        ReplaysTo S.tells T.tells feed sight entries.now [] tail edition lines.old opening (S.feed source.old) (T.sight site.old) →
        IfErr result (EndsSo S.tells T.tells feed (S.feed source.new) sight (T.sight site.new)) }
    ensures counted { IfOk result (λ state. state.machine.commands ≡ lines.new.given) }
    ensures bounded { lines.new.given ≤ MOST_OF_FILE }
{
    let mut state = State::new(alloc);
    for entry in entries {
        repeat_next(alloc, entry, &mut state, lines, source, site)?;
    }
    Ok(state)
}

/// Takes the next command of the file, which must be the kept entry's, and prints its reply again.
fn repeat_next<S: Source, T: Site>(
    alloc: Global,
    entry: &Entry,
    state: &mut State,
    lines: &mut Lines,
    source: &mut S,
    site: &mut T,
) -> Result<(), DayEnd>
    requires counted { state.old.machine.commands ≡ lines.old.given }
    requires few { lines.old.given ≤ MOST_OF_FILE }
    requires choice { HasItsChoice state.old.machine (judged entry.now.edition state.old.machine entry.now.line) entry.now.choice }
    ensures repeated { (feed : Feed) (sight : Sight) (found done todo : List EntryRecord) (tail edition : ℕ) → found ≡ done ++ entry.now ∷ todo → HasFound T.tells sight edition found →
        ReplaysTo S.tells T.tells feed sight found done tail edition lines.old state.old.machine (S.feed source.old) (T.sight site.old) →
        OnOk result (ReplaysTo S.tells T.tells feed sight found (done ++ entry.now ∷ []) tail edition lines.new state.new.machine (S.feed source.new) (T.sight site.new)) }
    ensures ended { (feed : Feed) (sight : Sight) (found done todo : List EntryRecord) (tail edition : ℕ) → found ≡ done ++ entry.now ∷ todo → HasFound T.tells sight edition found →
        ReplaysTo S.tells T.tells feed sight found done tail edition lines.old state.old.machine (S.feed source.old) (T.sight site.old) →
        IfErr result (EndsSo S.tells T.tells feed (S.feed source.new) sight (T.sight site.new)) }
    ensures counted { OnOk result (state.new.machine.commands ≡ lines.new.given) }
    ensures bounded { lines.new.given ≤ MOST_OF_FILE }
{
    let command = state.commands() + 1;
    match lines.next(source) {
        Ok(Some(line)) => {
            if !is_of(&line, entry) {
                return Err(DayEnd::OtherDay { command });
            }
            match repeat(alloc, state, entry, site) {
                Ok(()) => Ok(()),
                Err(no) => Err(end_of_register(no)),
            }
        }
        Ok(None) => Err(DayEnd::OtherDay { command }),
        Err(end) => Err(end_of_input(end)),
    }
}

/// Whether the line is the kept entry's. Its second clause says again what every line is.
fn is_of(line: &Line, entry: &Entry) -> bool
    ensures same { IsTrue result ↔ (line.now ≡ entry.now.line) }
    ensures line { IsTrue (is_line line.now) }
{
    line.bytes() == entry.line.bytes()
}
