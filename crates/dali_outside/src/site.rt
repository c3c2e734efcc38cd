ghost use Rattle.std.specs.Prelude.{◌≡◌, ◌+◌, ◌≤◌, Bool, length, slice_range, is_ok, OnOk, OnErr, IsTrue};
ghost use Rattle.dali_outside.specs.Outside.{Sight, Rose, Writes, Syncs, Prints, SameDisk, SameText, Goes, TellsAll};

use crate::fault::Failed;

/// The disk and the console of one machine, so that one stop leaves one image and one printed text. What a stop at a
/// moment may leave follows from what it is.
pub trait Site {
    /// Whether it tells what is on its disk and its console.
    ghost tells: { Bool };

    /// What it is: its size in bytes, its counts of faults and its number of syncs; and where it tells them, what reads
    /// give, a mark for each loose byte, the text printed so far, and the moments that are over.
    ghost sight: { Self → Sight };

    /// The number of bytes of its disk, which never changes.
    fn size(&self) -> u64
        ensures size { result ≡ (sight self.now).size }
        ensures told { IsTrue tells → TellsAll (sight self.now) };

    /// Fills `into` with the bytes from place `at` on.
    ///
    /// `Failed` comes only where the count of disk faults rose, or stands at u64's last value. Nothing on the disk and
    /// the console changes.
    fn read(&mut self, at: u64, into: &mut [u8]) -> Result<(), Failed>
        requires { at + length into.old ≤ (sight self.old).size }
        ensures given { IsTrue tells → OnOk result (into.new ≡ slice_range (sight self.old).bytes at (at + length into.old)) }
        ensures disk { IsTrue tells → SameDisk (sight self.old) (sight self.new) }
        ensures text { IsTrue tells → SameText (sight self.old) (sight self.new) }
        ensures goes { Goes (sight self.old) (sight self.new) }
        ensures syncs { (sight self.new).syncs ≤ (sight self.old).syncs }
        ensures failed { OnErr result (Rose (sight self.old).disk_faults (sight self.new).disk_faults) };

    /// Writes the piece from place `at` on. Its range is loose until a sync that works: a stop may leave any bytes
    /// there.
    ///
    /// `Failed` comes only where the count of disk faults rose, or stands at u64's last value. Any bytes may then stand
    /// in the range.
    fn write(&mut self, at: u64, piece: &[u8]) -> Result<(), Failed>
        requires { at + length piece.now ≤ (sight self.old).size }
        ensures disk { IsTrue tells → Writes (is_ok result) at piece.now (sight self.old) (sight self.new) }
        ensures text { IsTrue tells → SameText (sight self.old) (sight self.new) }
        ensures goes { Goes (sight self.old) (sight self.new) }
        ensures syncs { (sight self.new).syncs ≤ (sight self.old).syncs }
        ensures failed { OnErr result (Rose (sight self.old).disk_faults (sight self.new).disk_faults) };

    /// Makes all that was written firm, so that nothing is loose.
    ///
    /// `Failed` comes only where the count of disk faults rose, or stands at u64's last value. Nothing changes then.
    fn sync(&mut self) -> Result<(), Failed>
        ensures firm { IsTrue tells → OnOk result (Syncs (sight self.old) (sight self.new)) }
        ensures disk { IsTrue tells → OnErr result (SameDisk (sight self.old) (sight self.new)) }
        ensures text { IsTrue tells → OnErr result (SameText (sight self.old) (sight self.new)) }
        ensures goes { Goes (sight self.old) (sight self.new) }
        ensures syncs { (sight self.new).syncs ≤ (sight self.old).syncs + 1 }
        ensures failed { OnErr result (Rose (sight self.old).disk_faults (sight self.new).disk_faults) };

    /// Prints the whole piece.
    ///
    /// `Failed` comes only where the count of print faults rose, or stands at u64's last value. A prefix of the piece
    /// is then printed.
    fn put(&mut self, piece: &[u8]) -> Result<(), Failed>
        ensures text { IsTrue tells → Prints (is_ok result) piece.now (sight self.old) (sight self.new) }
        ensures disk { IsTrue tells → SameDisk (sight self.old) (sight self.new) }
        ensures goes { Goes (sight self.old) (sight self.new) }
        ensures syncs { (sight self.new).syncs ≤ (sight self.old).syncs }
        ensures failed { OnErr result (Rose (sight self.old).print_faults (sight self.new).print_faults) };
}
