ghost use Rattle.std.specs.Prelude.{◌≡◌, ◌≢◌, Err};
ghost use Rattle.dali_put.specs.PutRun.{PutRun};

use crate::refusal::PutNo;
use dali_base::Text;
use dali_outside::{Failed, Site};

/// Prints the text in one put. `PrintFault` comes only where the site's count of print faults rose, or stands at u64's last
/// value; some first bytes of the text are then printed. Takes no memory.
pub fn put<T: Site>(text: &Text, site: &mut T) -> Result<(), PutNo>
    ensures run { PutRun T.tells text.now (T.sight site.old) (T.sight site.new) result }
    ensures printing { result ≢ Err PutNo.OutOfMemory }
{
    match site.put(text.bytes()) {
        Ok(()) => Ok(()),
        Err(Failed) => Err(PutNo::PrintFault),
    }
}
