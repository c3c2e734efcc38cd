ghost use Rattle.std.specs.Prelude.{◌≡◌, ◌+◌, ◌≤◌, ℕ, List, true, [], length, slice_range, replicate, is_ok, IfSome, OnOk, OnErr, IsTrue};
ghost use Rattle.dali_outside.specs.Outside.{Sight, Rose, Writes, Prints, SameDisk, SameText, Goes, TellsAll};
ghost use Rattle.dali_recover.specs.Pieces.{StandFrom};

use dali_outside::{Failed, Site};

/// Bytes that were read from a place of a site's disk on, as a site that says of the disk what that one says. A read of
/// some of them is made in memory; every other call fails.
#[derive(Drop)]
pub(crate) struct Piece<'a, T: Site> {
    site: &'a T,
    from: u64,
    bytes: &'a [u8],
    disk_faults: u64,
    print_faults: u64,
    ghost stand: { IsTrue T.tells → StandFrom from bytes.now (T.sight site.now).bytes },
}

impl<'a, T: Site> Piece<'a, T> {
    /// These bytes, which stand on the site's disk from a place on. No call has failed.
    pub(crate) fn new(site: &'a T, from: u64, bytes: &'a [u8]) -> Piece<'a, T>
        requires { IsTrue T.tells → StandFrom from bytes.now (T.sight site.now).bytes }
        ensures { T.sight result.site.now ≡ T.sight site.now }
    {
        Piece {
            site,
            from,
            bytes,
            disk_faults: 0,
            print_faults: 0,
        }
    }

    /// The `len` bytes from place `at` on, where all of them are here.
    fn part(&self, at: u64, len: usize) -> Option<&[u8]>
        ensures stand { IsTrue T.tells → IfSome result (λ part. part.now ≡ slice_range (T.sight self.now.site.now).bytes at (at + len)) }
        ensures long { IfSome result (λ part. length part.now ≡ len) }
    {
        if at < self.from {
            return None;
        }
        let first = (at - self.from) as usize;
        if self.bytes.len() < first || self.bytes.len() - first < len {
            return None;
        }
        Some(&self.bytes[first..first + len])
    }
}

impl<T: Site> Site for Piece<'_, T> {
    ghost tells = { T.tells };

    ghost sight = { λ s. record {
      size = (T.sight s.site.now).size;
      bytes = (T.sight s.site.now).bytes;
      loose = replicate (T.sight s.site.now).size true;
      printed = [];
      past = [];
      disk_faults = s.disk_faults;
      print_faults = s.print_faults;
      syncs = 0;
    } };

    fn size(&self) -> u64 {
        self.site.size()
    }

    fn read(&mut self, at: u64, into: &mut [u8]) -> Result<(), Failed> {
        if let Some(part) = self.part(at, into.len()) {
            into.copy_from_slice(part);
            return Ok(());
        }
        self.disk_faults = self.disk_faults.saturating_add(1);
        Err(Failed)
    }

    fn write(&mut self, _at: u64, _piece: &[u8]) -> Result<(), Failed> {
        // Called for its clause alone: a site that tells has a byte for each place.
        let _size = self.site.size();
        self.disk_faults = self.disk_faults.saturating_add(1);
        Err(Failed)
    }

    fn sync(&mut self) -> Result<(), Failed> {
        self.disk_faults = self.disk_faults.saturating_add(1);
        Err(Failed)
    }

    fn put(&mut self, _piece: &[u8]) -> Result<(), Failed> {
        self.print_faults = self.print_faults.saturating_add(1);
        Err(Failed)
    }
}
