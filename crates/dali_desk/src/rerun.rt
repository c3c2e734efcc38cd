ghost use Rattle.std.specs.Prelude.{◌≡◌, ℕ, IsTrue};
ghost use Rattle.dali_day.specs.CrashPrefix.{EachSpellsFirst};
ghost use Rattle.dali_desk.specs.Twice.{RunsTwice};
ghost use Rattle.dali_desk.specs.Words.{IsJob};

use crate::desk::run;
use crate::job::Job;
use crate::status::Status;
use dali_base::Words;
use dali_outside::{Site, Source};
use std::alloc::Global;

/// Makes two runs of the words over one site, the first with `first` as its input and the second with `second`, and answers
/// both statuses. No memory is kept between them. What two runs of one day file come to, where every image at the start
/// spells a legal history of the file's first commands, is `specs/Twice.antt`.
pub fn again<S: Source, R: Source, T: Site>(
    alloc: Global,
    words: &Words,
    first: &mut S,
    second: &mut R,
    site: &mut T,
) -> (Status, Status)
    requires size { (size : ℕ) → IsJob words.now (Job.Init size) → (T.sight site.old).size ≡ size }
    ensures twice { IsJob words.now Job.Day → IsTrue S.tells → IsTrue R.tells → IsTrue T.tells → (R.feed second.old).left ≡ (S.feed first.old).left →
        EachSpellsFirst (S.feed first.old).left (T.sight site.old) →
        RunsTwice (S.feed first.old) (S.feed first.new) (R.feed second.old) (R.feed second.new) (T.sight site.old) (T.sight site.new) result.0 result.1 }
{
    let one = run(alloc, words, first, site);
    let two = run(alloc, words, second, site);
    (one, two)
}
