use crate::State;
use dali_line::Line;
use std::test::Fail;

#[test]
fn a_prepared_line_changes_nothing(rt: HostRuntime) -> Result<(), Fail> {
    let alloc = rt.alloc();
    let mut state = State::new(alloc);
    let line = Line::copy(alloc, b"080000,PART,A".as_slice())?;
    assert!(rt; state.cycle_input(alloc, 1, &line)?.is_none());
    let ready = state.prepare(1, &line, None)?;
    assert_eq!(rt; (ready.number(), state.commands()), (1, 0));
    assert_eq!(rt; state.book().accounts(), 0);
    Ok(())
}
