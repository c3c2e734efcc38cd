use crate::{PutNo, put};
use dali_base::{OutOfMemory, Text};
use dali_outside::{Fault, Faults, MemSite};
use std::alloc::Global;
use std::test::Fail;

fn text(alloc: Global, bytes: &[u8]) -> Result<Text, OutOfMemory> {
    let mut text = Text::new(alloc);
    text.add(bytes)?;
    Ok(text)
}

#[test]
fn a_text_in_one_put(rt: HostRuntime) -> Result<(), Fail> {
    let none = Faults::new(rt.alloc());
    let mut site = MemSite::new(rt.alloc(), 64, 100, 1, 0, none)?;
    let printed = text(rt.alloc(), b"1,OK\n2,OK\n")?;
    assert_eq!(rt; put(&printed, &mut site), Ok(()));
    assert_eq!(rt; site.printed(), b"1,OK\n2,OK\n".as_slice());
    Ok(())
}

#[test]
fn a_put_that_fails(rt: HostRuntime) -> Result<(), Fail> {
    let mut first = Faults::new(rt.alloc());
    first.push(Fault { call: 1, went: 3 })?;
    let mut site = MemSite::new(rt.alloc(), 64, 100, 1, 0, first)?;
    let printed = text(rt.alloc(), b"1,OK\n")?;
    assert_eq!(rt; put(&printed, &mut site), Err(PutNo::PrintFault));
    assert_eq!(rt; site.printed(), b"1,O".as_slice());
    Ok(())
}
