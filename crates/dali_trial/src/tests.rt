use crate::trial;
use std::test::Fail;

/// The rows of the trial of 20 as they begin: it has 409 commands, and its four cycles stand at these places.
const ROWS: [&[u8]; 9] = [
    b"TRIAL,20",
    b"COMMANDS,409",
    b"REFUSED,0",
    b"CYCLE,165,",
    b"CYCLE,246,",
    b"CYCLE,327,",
    b"CYCLE,408,",
    b"WAITING,",
    b"POSTINGS,",
];

#[test]
fn a_trial_of_twenty(rt: HostRuntime) -> Result<(), Fail> {
    let text = trial(rt.alloc(), 20)?;
    assert!(rt;
        text.bytes()
            .starts_with(b"TRIAL,20\nCOMMANDS,409\nREFUSED,0\n".as_slice())
    );
    assert_eq!(rt;
        text.bytes().iter().filter(|byte| **byte == b'\n').count(),
        ROWS.len()
    );
    for (row, front) in text.bytes().split(|byte| *byte == b'\n').zip(ROWS) {
        assert!(rt; row.starts_with(front));
    }
    Ok(())
}
