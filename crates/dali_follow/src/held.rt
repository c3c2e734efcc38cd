ghost use Rattle.std.specs.Prelude.{◌≡◌, IsTrue, IfOk};
ghost use Rattle.dali_outside.specs.Outside.{TellsAll};
ghost use Rattle.dali_follow.specs.Held.{held_text};
ghost use Rattle.dali_follow.specs.SoFar.{PrintsLine};

use crate::end::FollowEnd;
use dali_base::{OutOfMemory, Text};
use dali_outside::Site;
use dali_put::{PutNo, put};
use std::alloc::Global;

/// Prints how many commands are held, in one put: how the run ends.
pub(crate) fn print_held<T: Site>(alloc: Global, count: u64, site: &mut T) -> FollowEnd
    ensures printed { PrintsLine T.tells count (T.sight site.old) (T.sight site.new) result }
    ensures told { IsTrue T.tells → TellsAll (T.sight site.old) }
{
    // Called for its clause alone: a site that tells has a byte and a mark for each place.
    let _size = site.size();
    match held_text(alloc, count) {
        Ok(text) => match put(&text, site) {
            Ok(()) => FollowEnd::Done,
            Err(PutNo::PrintFault) => FollowEnd::PrintFault,
            Err(PutNo::OutOfMemory) => FollowEnd::OutOfMemory,
        },
        Err(OutOfMemory) => FollowEnd::OutOfMemory,
    }
}

/// The line of that number, with its LF.
fn held_text(alloc: Global, count: u64) -> Result<Text, OutOfMemory>
    ensures { IfOk result (λ text. text ≡ held_text count) }
{
    let mut text = Text::new(alloc);
    text.add(b"HELD,")?;
    text.add_number(count)?;
    text.push(b'\n')?;
    Ok(text)
}
