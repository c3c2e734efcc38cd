ghost use Rattle.std.specs.Prelude.{◌≡◌, ◌+◌, ◌≤◌, true, length, slice_range, is_ok, OnOk, OnErr};

use crate::stage::{HEADER, THREE_LINES, day_of, device, site_of};
use dali_base::OutOfMemory;
use dali_desk::Status;
use dali_outside::{Failed, MemSite, Site};
use std::alloc::Global;
use std::test::Fail;

/// A site in memory whose syncs are counted.
#[derive(Drop)]
struct Counted {
    site: MemSite,
    syncs: u64,
}

impl Site for Counted {
    ghost tells = { true };

    ghost sight = { λ counted. counted.site.sight };

    fn size(&self) -> u64 {
        self.site.size()
    }

    fn read(&mut self, at: u64, into: &mut [u8]) -> Result<(), Failed> {
        self.site.read(at, into)
    }

    fn write(&mut self, at: u64, piece: &[u8]) -> Result<(), Failed> {
        self.site.write(at, piece)
    }

    fn sync(&mut self) -> Result<(), Failed> {
        self.syncs = self.syncs.saturating_add(1);
        self.site.sync()
    }

    fn put(&mut self, piece: &[u8]) -> Result<(), Failed> {
        self.site.put(piece)
    }
}

/// How the day of three lines ends, and the syncs that it makes.
fn three_lines(alloc: Global) -> Result<(Status, u64), OutOfMemory> {
    let site = site_of(alloc, device(alloc, HEADER, 4096)?, None)?;
    let mut counted = Counted { site, syncs: 0 };
    let status = day_of(alloc, THREE_LINES, &mut counted)?;
    Ok((status, counted.syncs))
}

/// One sync opens the journal, and two make a group firm.
#[test]
fn few_syncs_of_three_lines(rt: HostRuntime) -> Result<(), Fail> {
    let (status, syncs) = three_lines(rt.alloc())?;
    assert_eq!(rt; status, Status::Done);
    assert!(rt; syncs <= 3);
    Ok(())
}
