ghost use Rattle.std.specs.Prelude.{◌≡◌, map, IfSome, IfNone};
ghost use Rattle.dali_line.specs.Grammar.{Spells, first_edition as first_edition_of};
ghost use Rattle.dali_line.specs.Reading.{spelled_verb, spelled_command, in_edition as verb_in_edition, command_of};
ghost use Rattle.dali_line.specs.declared.command.Command.{Command};

use crate::command::{Command, Verb};
use crate::pieces::Pieces;
use crate::verbs::{read_alone, read_five, read_four, read_one, read_six, read_three, read_two};
use dali_base::{NEWEST, read_moment};

/// The command that the line spells in the grammar of this edition. `None` exactly where it spells none; an edition
/// of 0 or above `NEWEST` has no command. The grammar is defined in `specs/Grammar.antt`.
pub fn read_line(edition: u8, line: &[u8]) -> Option<Command>
    ensures exact { result ≡ command_of edition line.now }
    ensures some { IfSome result (λ c. Spells edition line.now c) }
    ensures none { IfNone result ((c : Command) → Spells edition line.now c → ⊥) }
    ensures only { (c : Command) → Spells edition line.now c → result ≡ Some c }
{
    match Pieces::of(line) {
        Some(pieces) => read_pieces(edition, pieces.as_slice()),
        None => None,
    }
}

fn read_pieces(edition: u8, pieces: &[&[u8]]) -> Option<Command>
    ensures { result ≡ spelled_command edition (map (λ piece. piece.now) pieces.now) }
{
    let (moment, verb) = pieces.split_first()?;
    let moment = read_moment(moment)?;
    let verb = within(edition, read_verb(verb)?)?;
    Some(Command { moment, verb })
}

/// The verb, where the edition has it.
fn within(edition: u8, verb: Verb) -> Option<Verb>
    ensures { result ≡ verb_in_edition edition verb }
{
    if first_edition(&verb) <= edition && edition <= NEWEST {
        Some(verb)
    } else {
        None
    }
}

fn first_edition(verb: &Verb) -> u8
    ensures { result ≡ first_edition_of verb.now }
{
    match verb {
        Verb::Earmark { .. } | Verb::Release { .. } => 2,
        Verb::Link { .. } => 3,
        Verb::Rank { .. } => 4,
        _ => 1,
    }
}

#[tactic(auto, using(crate::proofs::PieceCounts::no_other_length), unfolding(crate::specs::Reading::spelled_verb))]
fn read_verb(pieces: &[&[u8]]) -> Option<Verb>
    ensures { result ≡ spelled_verb (map (λ piece. piece.now) pieces.now) }
{
    match pieces {
        [word] => read_alone(word),
        [word, a] => read_one(word, a),
        [word, a, b] => read_two(word, a, b),
        [word, a, b, c] => read_three(word, a, b, c),
        [word, a, b, c, d] => read_four(word, a, b, c, d),
        [word, a, b, c, d, e] => read_five(word, a, b, c, d, e),
        [word, a, b, c, d, e, f] => read_six(word, a, b, c, d, e, f),
        _ => None,
    }
}
