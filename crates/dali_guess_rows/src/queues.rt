ghost use Rattle.std.specs.Prelude.{◌<◌, length};
ghost use Rattle.std.specs.List.{All};

use dali_base::{Places, Text};
use dali_line::{Line, Lines};
use dali_machine::State;
use dali_outside::{Faults, MemSource};
use dali_problem::Problem;
use std::alloc::Global;
use std::process::Abort;

/// The commands of a day on which three accounts without cash owe each other 100 in a ring.
pub(crate) fn ring(rt: &impl Abort, alloc: Global) -> Text {
    let mut text = Text::new(alloc);
    text.add(
        b"080000,PART,A\n080000,PART,B\n080000,PART,C\n080001,PAY,P1,A,B,100\n080001,PAY,P2,B,C,100\n080001,PAY,P3,C,A,100\n",
    ).expect(rt, "memory");
    text
}

/// The commands of a day on which one account has so much cash and owes another 4 so many times.
pub(crate) fn payments(rt: &impl Abort, alloc: Global, cash: u64, count: u64) -> Text {
    let mut text = Text::new(alloc);
    text.add(b"080000,PART,A\n080000,PART,B\n080000,ISSUE,A,MXN,")
        .expect(rt, "memory");
    text.add_number(cash).expect(rt, "memory");
    text.add(b"\n").expect(rt, "memory");
    for n in 0..count {
        text.add(b"080001,PAY,P").expect(rt, "memory");
        text.add_number(n).expect(rt, "memory");
        text.add(b",A,B,4\n").expect(rt, "memory");
    }
    text
}

/// The problem of a cycle behind these commands.
pub(crate) fn problem_behind(rt: &impl Abort, alloc: Global, text: Text) -> Problem {
    let state = state_behind(rt, alloc, text);
    let cycle = Line::copy(alloc, b"090000,CYCLE,0".as_slice()).expect(rt, "memory");
    let input = state.cycle_input(alloc, 1, &cycle).expect(rt, "memory");
    input.expect(rt, "a cycle").0.problem
}

/// The state behind these commands, of which none is a cycle.
fn state_behind(rt: &impl Abort, alloc: Global, text: Text) -> State {
    let mut state = State::new(alloc);
    let mut source = MemSource::new(text, 4096, Faults::new(alloc));
    let mut lines = Lines::new(alloc).expect(rt, "memory");
    for _ in 0..u64::MAX {
        match lines.next(&mut source).expect(rt, "a line") {
            Some(line) => take(rt, alloc, &mut state, &line),
            None => break,
        }
    }
    state
}

/// Takes a command that is no cycle.
fn take(rt: &impl Abort, alloc: Global, state: &mut State, line: &Line) {
    assert!(rt; state.commands() < 1_000_000);
    assert!(rt;
        state
            .cycle_input(alloc, 1, line)
            .expect(rt, "memory")
            .is_none()
    );
    let ready = state.prepare(1, line, None).expect(rt, "memory");
    let _outcome = state.commit(ready);
}

/// All places of a problem.
pub(crate) fn all_places(rt: &impl Abort, alloc: Global, problem: &Problem) -> Places
    ensures { All (λ j. j < length problem.now.items) result }
{
    let mut places = Places::new(alloc);
    for place in 0..problem.items() {
        places.push(place).expect(rt, "memory");
    }
    places
}
