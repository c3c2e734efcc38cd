ghost use Rattle.std.specs.Prelude.{◌≡◌, ◌^◌, ◌<◌, ◌≤◌, length, slice_index, slice_set};
ghost use Rattle.std.specs.List.{All};
ghost use Rattle.dali_base.specs.Limits.{most_multiplier};

use crate::point::Point;
use std::marker::Model;

/// A point as it is, or with the multiplier of one line changed.
#[derive(Drop)]
pub(crate) struct Probe<'a> {
    point: &'a Point,
    // The line that is changed; past the last one where none is.
    line: usize,
    to: u64,
}

impl<'a> Model for Probe<'a> {
    ghost use Rattle.std.specs.Prelude.{List, ℕ, ◌≤◌, ◌^◌, slice_set};
    ghost use Rattle.dali_base.specs.Limits.{most_multiplier};

    ghost Value = { List ℕ };

    ghost view = { λ s. slice_set s.point.now s.line s.to };

    ghost invariant = { λ s. s.to ≤ most_multiplier };
}

impl<'a> Probe<'a> {
    /// The point as it is.
    pub(crate) fn of(point: &'a Point) -> Probe<'a>
        ensures same { result ≡ point.now }
        ensures bounded { All (λ m. m ≤ most_multiplier) point.now }
    {
        Probe {
            point,
            line: point.len(),
            to: 0,
        }
    }

    /// The point with this multiplier on this line.
    pub(crate) fn with(point: &'a Point, line: u32, to: u64) -> Probe<'a>
        requires { to ≤ most_multiplier }
        ensures { result ≡ slice_set point.now line to }
    {
        Probe {
            point,
            line: line as usize,
            to,
        }
    }

    /// The multiplier of a line.
    pub(crate) fn get(&self, line: u32) -> u64
        requires { line < length self.now }
        ensures value { result ≡ slice_index self.now line }
        ensures bounded { result ≤ most_multiplier }
    {
        if line as usize == self.line {
            self.to
        } else {
            self.point.get(line)
        }
    }
}
