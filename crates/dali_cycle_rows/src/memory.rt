use crate::day::choose;
use dali_base::{OutOfMemory, Text};
use dali_line::Line;
use dali_machine::State;
use dali_reply::reply;
use std::alloc::Global;
use std::process::Abort;

/// A chain of two deliveries, of which neither can be settled alone.
const BEFORE: [&[u8]; 8] = [
    b"080000,PART,R",
    b"080000,PART,S",
    b"080000,PART,T",
    b"080000,INST,X,10",
    b"080000,ISSUE,R,X,50",
    b"080000,ISSUE,T,MXN,510",
    b"090000,DVP,D1,R,S,X,50,500",
    b"090000,DVP,D2,S,T,X,50,510",
];

/// A command that is chosen for, prepared, answered and committed.
fn take(
    rt: &impl Abort,
    alloc: Global,
    state: &mut State,
    line: &Line,
) -> Result<Text, OutOfMemory> {
    assert!(rt; state.commands() < 1_000_000);
    let choice = choose(alloc, state, 1, line)?;
    let ready = state.prepare(1, line, choice)?;
    let text = reply(alloc, ready.number(), ready.outcome())?;
    let _outcome = state.commit(ready);
    Ok(text)
}

/// The state before the cycle.
fn before(rt: &impl Abort, alloc: Global) -> Result<State, OutOfMemory> {
    let mut state = State::new(alloc);
    for line in BEFORE {
        let line = Line::copy(alloc, line)?;
        take(rt, alloc, &mut state, &line)?;
    }
    Ok(state)
}

/// What of a state is counted: commands, queued instructions and postings.
fn counts(state: &State) -> (u64, u32, u64) {
    (state.commands(), state.queue().len(), state.ledger().len())
}

/// Where an allocation of the cycle fails, the state is as it was, and the same cycle can be taken then. What is wanted
/// before it says nothing.
#[test]
fn a_cycle_that_wants_memory(rt: HostRuntime) {
    let alloc = rt.alloc();
    let Ok(mut state) = before(&rt, alloc) else {
        return;
    };
    let Ok(line) = Line::copy(alloc, b"100000,CYCLE,0".as_slice()) else {
        return;
    };
    assert_eq!(rt; counts(&state), (8, 2, 2));
    if take(&rt, alloc, &mut state, &line).is_err() {
        assert_eq!(rt; counts(&state), (8, 2, 2));
        assert!(rt; take(&rt, alloc, &mut state, &line).is_ok());
    }
    // Two issues and the five moves of the cycle.
    assert_eq!(rt; counts(&state), (9, 0, 7));
}
