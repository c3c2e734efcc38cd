ghost use Rattle.std.specs.Prelude.{◌≡◌, ◌<◌, ◌≤◌, [], ◌∷◌, ◌++◌, length, map, IfSome, IfNone};
ghost use Rattle.dali_line.specs.Reading.{pieces as pieces_of_line};

use crate::split::split_once;
use std::marker::Model;

/// The most pieces of a command line: the moment, the word and six fields.
pub(crate) const MOST: usize = 8;

/// The pieces of a line between its commas. Contracts see the list of their bytes.
#[derive(Drop)]
pub(crate) struct Pieces<'a> {
    pieces: [&'a [u8]; 8],
    count: usize,
}

impl<'a> Model for Pieces<'a> {
    ghost use Rattle.std.specs.Prelude.{List, ℕ, ◌≤◌, map, take};

    ghost Value = { List (List ℕ) };

    ghost view = { λ a. map (λ piece. piece.now) (take a.count a.pieces) };

    ghost invariant = { λ a. a.count ≤ 8 };
}

impl<'a> Pieces<'a> {
    /// The pieces of the line. `None` exactly where there are more than eight.
    pub(crate) fn of(line: &'a [u8]) -> Option<Pieces<'a>>
        ensures some { IfSome result (λ p. p ≡ pieces_of_line line.now) }
        ensures none { IfNone result (MOST < length (pieces_of_line line.now)) }
    {
        let mut found = Pieces {
            pieces: [&[]; 8],
            count: 0,
        };
        let mut rest = line;
        for _ in 0..MOST {
            match split_once(rest, b',') {
                Some((piece, behind)) => {
                    found.push(piece);
                    rest = behind;
                }
                None => {
                    found.push(rest);
                    return Some(found);
                }
            }
        }
        None
    }

    fn push(&mut self, piece: &'a [u8])
        requires { length self.old < MOST }
        ensures { self.new ≡ self.old ++ piece.now ∷ [] }
    {
        self.pieces[self.count] = piece;
        self.count += 1;
    }

    pub(crate) fn as_slice(&self) -> &[&'a [u8]]
        ensures { map (λ piece. piece.now) result.now ≡ self.now }
    {
        &self.pieces[..self.count]
    }
}
