ghost use Rattle.std.specs.Prelude.{IfOk};
ghost use Rattle.dali_gen.specs.Day.{IsDayNumber};
ghost use Rattle.dali_trial.specs.Tried.{TrialRun};

use crate::course::Course;
use dali_base::{OutOfMemory, Text};
use dali_gen_lines::DayLines;
use std::alloc::Global;

/// Takes the commands of the generated day of a number from 1 to 64 one after the other, in edition 1 and without a
/// journal, each cycle searched with what its budget allows, and answers the summary, whose rows are defined in
/// `dali_summary` (`specs/Summary.antt`). The error is want of memory.
pub fn trial(alloc: Global, n: u32) -> Result<Text, OutOfMemory>
    requires { IsDayNumber n }
    ensures { IfOk result (TrialRun n) }
{
    let mut lines = DayLines::of(alloc, n)?;
    let mut course = Course::new(alloc);
    while let Some(line) = lines.next(alloc)? {
        course.take(&line)?;
    }
    course.text(n)
}
