use crate::{Name, Names, Places, Text, read_name};
use std::test::Fail;

fn name(bytes: &[u8]) -> Result<Name, Fail> {
    Ok(read_name(bytes).ok_or("a name")?)
}

#[test]
fn names_keep_their_places(rt: HostRuntime) -> Result<(), Fail> {
    let mut names = Names::new(rt.alloc());
    names.ready(name(b"B")?)?;
    assert_eq!(rt; names.len(), 0);
    assert_eq!(rt; names.add(name(b"B")?)?, 0);
    assert_eq!(rt; names.add(name(b"A")?)?, 1);
    assert_eq!(rt; names.add(name(b"B")?)?, 0);
    assert_eq!(rt; names.place(name(b"A")?), Some(1));
    assert_eq!(rt; names.place(name(b"C")?), None);
    assert_eq!(rt; names.name(0), Some(name(b"B")?));
    Ok(())
}

#[test]
fn numbers_are_added(rt: HostRuntime) -> Result<(), Fail> {
    let mut text = Text::new(rt.alloc());
    text.add(b"a")?;
    text.add_number(u64::MAX)?;
    text.push(b' ')?;
    text.add_signed(0)?;
    text.add_signed(-1)?;
    text.add_signed(i64::MIN)?;
    let added = b"a18446744073709551615 0-1-9223372036854775808";
    assert_eq!(rt; text.bytes(), added.as_slice());
    Ok(())
}

#[test]
fn lists_are_copied(rt: HostRuntime) -> Result<(), Fail> {
    let mut places = Places::new(rt.alloc());
    places.push(3)?;
    places.extend(&[1, 2])?;
    let copied = places.copy(rt.alloc())?;
    assert_eq!(rt; copied.as_slice(), [3, 1, 2].as_slice());
    assert!(rt; copied == places);
    Ok(())
}
