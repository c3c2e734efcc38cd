use crate::chain::{DELIVERY_CHAIN, DayOver, REPLIES, ended, fresh, fused, goes_on, whole};
use crate::stage::{day, day_of, site_of, source_of, text};
use dali_base::{OutOfMemory, Text};
use dali_desk::Status;
use dali_outside::Fault;
use std::alloc::Global;
use std::test::Fail;

/// The day over an image, of which this call fails.
fn faulty(alloc: Global, image: Text, call: u64) -> Result<DayOver, OutOfMemory> {
    let fault = Fault { call, went: 3 };
    let mut site = site_of(alloc, image, Some(fault))?;
    let status = day_of(alloc, DELIVERY_CHAIN, &mut site)?;
    ended(alloc, status, &site, 0)
}

/// At each call a stop leaves a journal over which the day is run again and done; what was printed before is a front of what
/// is printed then. Three calls open the journal, and each of three groups takes five.
#[test]
fn every_fuse(rt: HostRuntime) -> Result<(), Fail> {
    let alloc = rt.alloc();
    assert_eq!(rt; whole(alloc, fresh(alloc)?)?.calls, 18);
    for calls in 0..19 {
        for fill in [0, 1, 0xff] {
            let first = fused(alloc, fresh(alloc)?, calls, fill)?;
            assert_eq!(rt; first.status == Status::Done, calls == 18);
            assert!(rt; REPLIES.starts_with(first.printed.bytes()));
            assert!(rt; goes_on(alloc, first.image)?);
        }
    }
    Ok(())
}

/// The status of a day whose call of the site fails: the last call of each group prints.
fn status_of_fault(call: u64) -> Status {
    match call {
        8 | 13 | 18 => Status::PrintFault,
        _ => Status::DiskFault,
    }
}

/// Each read, write, sync and put that fails is answered by its cause, and the next run is done.
#[test]
fn every_fault(rt: HostRuntime) -> Result<(), Fail> {
    let alloc = rt.alloc();
    for call in 1..19 {
        let first = faulty(alloc, fresh(alloc)?, call)?;
        assert_eq!(rt; first.status, status_of_fault(call));
        assert!(rt; REPLIES.starts_with(first.printed.bytes()));
        assert!(rt; goes_on(alloc, first.image)?);
    }
    Ok(())
}

/// The same of the run over the day's own journal: a sync and two reads open it and read its eleven records, and each of eleven
/// replies is put by itself.
#[test]
fn every_fault_of_a_rerun(rt: HostRuntime) -> Result<(), Fail> {
    let alloc = rt.alloc();
    let journal = whole(alloc, fresh(alloc)?)?.image;
    let calls = whole(alloc, text(alloc, journal.bytes())?)?.calls;
    for call in 1..calls.saturating_add(1) {
        let again = faulty(alloc, text(alloc, journal.bytes())?, call)?;
        let prints = calls < call.saturating_add(11);
        assert_eq!(rt; again.status == Status::PrintFault, prints);
        assert_eq!(rt; again.status == Status::DiskFault, !prints);
        assert!(rt; REPLIES.starts_with(again.printed.bytes()));
        assert_eq!(rt; again.image.bytes(), journal.bytes());
    }
    Ok(())
}

/// The day over an empty journal in takes of 30 bytes, of which this one fails.
fn take_failed(alloc: Global, call: u64) -> Result<DayOver, OutOfMemory> {
    let mut site = site_of(alloc, fresh(alloc)?, None)?;
    let fault = Fault { call, went: 0 };
    let mut source = source_of(alloc, DELIVERY_CHAIN, 30, Some(fault))?;
    let status = day(alloc, &mut source, &mut site)?;
    ended(alloc, status, &site, 0)
}

/// Each take that fails is a read fault, and the next run is done. The file has 201 bytes, and the eighth take finds its end.
#[test]
fn every_fault_of_the_input(rt: HostRuntime) -> Result<(), Fail> {
    let alloc = rt.alloc();
    for call in 1..9 {
        let first = take_failed(alloc, call)?;
        assert_eq!(rt; first.status, Status::ReadFault);
        assert!(rt; REPLIES.starts_with(first.printed.bytes()));
        assert!(rt; goes_on(alloc, first.image)?);
    }
    Ok(())
}
