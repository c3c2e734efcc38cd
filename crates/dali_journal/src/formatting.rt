ghost use Rattle.std.specs.Prelude.{◌≡◌, ◌+◌, ◌≤◌, [], OnOk, OnErr, IsTrue};
ghost use Rattle.dali_outside.specs.Outside.{Rose, Goes, overlay};
ghost use Rattle.dali_outside.specs.Stops.{LeavesOnly};
ghost use Rattle.dali_journal.specs.Limits.{least_size};
ghost use Rattle.dali_journal.specs.Holds.{empty_start};
ghost use Rattle.dali_journal.specs.Appends.{IsFirm, AtRest, EachHolds, Torn, StaysOutside};

use crate::firm::write_firm;
use crate::refusal::DiskFault;
use dali_outside::Site;

/// The header of a journal of edition 1, and a closed gate.
const EMPTY: [u8; 17] = *b"DALI-JOURNAL\0\0\0\x01\0";

/// Makes an empty journal of edition 1 of a device of at least 64 bytes. Takes no memory.
///
/// After Ok the device holds no payload and nothing is loose, so that every image that a stop may then leave holds none.
/// `DiskFault` comes only where the count of disk faults rose. Where nothing was loose, a stop within the call leaves any
/// bytes in the first 17 places and the old ones behind them. At every answer the bytes behind those stay.
pub fn format<T: Site>(site: &mut T) -> Result<(), DiskFault>
    requires { least_size ≤ (T.sight site.old).size }

    // the journal that was made
    ensures empty { IsTrue T.tells → OnOk result (AtRest 16 1 [] (T.sight site.new)) }
    ensures images { IsTrue T.tells → OnOk result (EachHolds 1 [] (T.sight site.new)) }
    ensures bytes { IsTrue T.tells → OnOk result ((T.sight site.new).bytes ≡ overlay (T.sight site.old).bytes 0 empty_start) }

    // the disk, at every stop
    ensures torn { IsTrue T.tells → IsFirm (T.sight site.old) → LeavesOnly (Torn (T.sight site.old) 0 17) (T.sight site.old) (T.sight site.new) }
    ensures outside { IsTrue T.tells → StaysOutside 0 17 (T.sight site.old) (T.sight site.new) }

    // what stays, and the counts
    ensures silent { IsTrue T.tells → (T.sight site.new).printed ≡ (T.sight site.old).printed }
    ensures goes { Goes (T.sight site.old) (T.sight site.new) }
    ensures syncs { (T.sight site.new).syncs ≤ (T.sight site.old).syncs + 1 }
    ensures failed { OnErr result (Rose (T.sight site.old).disk_faults (T.sight site.new).disk_faults) }
{
    write_firm(site, 0, &EMPTY)?;
    Ok(())
}
