ghost use Rattle.std.specs.Prelude.{◌≡◌, ◌+◌, ◌≤◌, ◌<◌, length, is_ok, OnOk, OnErr, IsTrue};
ghost use Rattle.dali_outside.specs.Outside.{Rose, Goes, TellsAll, overlay};
ghost use Rattle.dali_outside.specs.Stops.{LeavesOnly};
ghost use Rattle.dali_journal.specs.Appends.{IsFirm, Torn, StaysOutside};

use dali_outside::{Failed, Site};

/// Writes the piece from place `at` on, and syncs, so that nothing is loose.
///
/// Where nothing was loose, a stop leaves any bytes in the range and the old ones elsewhere. Outside of the range the bytes
/// stay, also where a call failed.
pub(crate) fn write_firm<T: Site>(site: &mut T, at: u64, piece: &[u8]) -> Result<(), Failed>
    requires { at + length piece.now ≤ (T.sight site.old).size }

    // the disk, at every stop and then
    ensures torn { IsTrue T.tells → IsFirm (T.sight site.old) → LeavesOnly (Torn (T.sight site.old) at (length piece.now)) (T.sight site.old) (T.sight site.new) }
    ensures firm { IsTrue T.tells → OnOk result (IsFirm (T.sight site.new)) }
    ensures bytes { IsTrue T.tells → OnOk result ((T.sight site.new).bytes ≡ overlay (T.sight site.old).bytes at piece.now) }
    ensures outside { IsTrue T.tells → StaysOutside at (length piece.now) (T.sight site.old) (T.sight site.new) }

    // the text, and what the disk tells
    ensures silent { IsTrue T.tells → (T.sight site.new).printed ≡ (T.sight site.old).printed }
    ensures told { IsTrue T.tells → OnOk result (TellsAll (T.sight site.new)) }
    ensures ended { IsTrue T.tells → OnOk result (length (T.sight site.old).past < length (T.sight site.new).past) }

    // the counts
    ensures goes { Goes (T.sight site.old) (T.sight site.new) }
    ensures syncs { (T.sight site.new).syncs ≤ (T.sight site.old).syncs + 1 }
    ensures failed { OnErr result (Rose (T.sight site.old).disk_faults (T.sight site.new).disk_faults) }
{
    let _size = site.size();
    site.write(at, piece)?;
    let _size = site.size();
    site.sync()?;
    Ok(())
}
