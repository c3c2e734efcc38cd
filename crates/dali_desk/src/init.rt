ghost use Rattle.std.specs.Prelude.{◌≡◌, ◌≤◌};
ghost use Rattle.dali_journal.specs.Limits.{least_size};
ghost use Rattle.dali_desk.specs.InitRun.{InitRun};

use crate::status::Status;
use dali_journal::{DiskFault, format};
use dali_outside::Site;

/// Makes an empty journal of the site. Takes no memory.
pub(crate) fn make_journal<T: Site>(site: &mut T) -> Status
    requires { least_size ≤ (T.sight site.old).size }
    ensures { InitRun T.tells (T.sight site.old) (T.sight site.new) result }
{
    let made = format(site);
    // Called for its clause alone: a site that tells has a byte and a mark for each place.
    let _size = site.size();
    match made {
        Ok(()) => Status::Done,
        Err(DiskFault) => Status::DiskFault,
    }
}
