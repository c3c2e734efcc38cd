ghost use Rattle.std.specs.Prelude.{◌≡◌};
ghost use Rattle.dali_desk.specs.CheckRun.{CheckRun};
ghost use Rattle.dali_desk.specs.Judging.{Judges, status_of_verdict};

use crate::input::{read_input, status_of_unread};
use crate::status::Status;
use dali_outside::{Failed, Site, Source};
use dali_verdict::{Verdict, judge, verdict_line};
use std::alloc::Global;

/// The most bytes of the input.
const MOST_CHECKED: usize = 1 << 30;

/// Reads the whole input, and says in one line whether it is a block of an allowed choice.
pub(crate) fn check_input<S: Source, T: Site>(alloc: Global, source: &mut S, site: &mut T) -> Status
    ensures { CheckRun S.tells T.tells (S.feed source.old) (S.feed source.new) (T.sight site.old) (T.sight site.new) result }
{
    match read_input(alloc, source, MOST_CHECKED) {
        Ok(input) => say(alloc, input.bytes(), site),
        Err(no) => status_of_unread(no),
    }
}

/// Judges the bytes, and says the verdict in one put.
fn say<T: Site>(alloc: Global, bytes: &[u8], site: &mut T) -> Status
    ensures { Judges T.tells bytes.now (T.sight site.old) (T.sight site.new) result }
{
    let Ok(verdict) = judge(alloc, bytes) else {
        return Status::OutOfMemory;
    };
    let Ok(line) = verdict_line(alloc, &verdict) else {
        return Status::OutOfMemory;
    };
    match site.put(line.bytes()) {
        Ok(()) => status_of_verdict(verdict),
        Err(Failed) => Status::PrintFault,
    }
}

/// How a check ends that said this verdict.
fn status_of_verdict(verdict: Verdict) -> Status
    ensures { result ≡ status_of_verdict verdict }
{
    match verdict {
        Verdict::Valid(_) => Status::Done,
        Verdict::Invalid(why) => Status::Invalid(why),
    }
}
