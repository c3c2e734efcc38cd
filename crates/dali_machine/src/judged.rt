use crate::outcome::Code;
use dali_base::Moment;
use dali_line::Verb;

/// What a state makes of a line.
#[derive(Clone, Copy)]
pub(crate) enum Judged {
    /// It is no command.
    Form,
    /// It is a command of an earlier moment.
    Back,
    /// It is refused.
    No { moment: Moment, code: Code },
    /// It is accepted.
    Yes { moment: Moment, verb: Verb },
}
