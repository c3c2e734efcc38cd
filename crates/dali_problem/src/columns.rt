ghost use Rattle.std.specs.Prelude.{◌≡◌, ℕ, ◌<◌, List, [], length, replicate, IfOk};

use crate::enter::enter_items;
use crate::problem::Problem;
use dali_base::{OutOfMemory, Seq};
use std::alloc::Global;
use std::marker::Model;

/// That an item changes a line.
#[derive(Clone, Copy, Debug, PartialEq, Eq)]
pub struct Touch {
    /// The item's place, counted from 0.
    pub place: u32,
    /// What the item changes the line by, in units of the line's asset. Not 0, and at most 8 * 10^15 in size.
    pub amount: i64,
}

/// For each line of a problem the items that change it.
#[derive(Debug, Drop)]
pub struct Columns {
    lines: Vec<Seq<Touch>>,
}

impl Model for Columns {
    ghost use Rattle.std.specs.Prelude.{List};
    ghost use Rattle.dali_problem.specs.declared.columns.Touch.{Touch};

    ghost Value = { List (List Touch) };

    ghost view = { λ c. c.lines.items };
}

impl Columns {
    ghost use Rattle.dali_problem.specs.Touches.{touches, column_at};

    /// The columns of this problem, as `specs/Touches.antt` defines them. Answers only want of memory but Ok.
    pub fn new(alloc: Global, problem: &Problem) -> Result<Columns, OutOfMemory>
        ensures lines { IfOk result (λ columns. length columns ≡ length problem.now.lines) }
        ensures touches { IfOk result (λ columns. (l : ℕ) → l < length columns → column_at columns l ≡ touches problem.now l) }
    {
        let mut lines = empty_columns(alloc, problem.lines())?;
        enter_items(lines.as_mut_slice(), problem)?;
        Ok(Columns { lines })
    }

    /// The items that change the line, places rising: at most 1,024.
    pub fn touching(&self, line: u32) -> &[Touch]
        requires { line < length self.now }
        ensures { result.now ≡ column_at self.now line }
    {
        self.lines[line as usize].as_slice()
    }
}

fn empty_columns(alloc: Global, lines: u32) -> Result<Vec<Seq<Touch>>, OutOfMemory>
    ensures { IfOk result (λ columns. columns.items ≡ replicate lines []) }
{
    let mut columns = Vec::with_capacity(alloc, lines as usize)?;
    for line in 0..lines {
        let _ = line;
        columns.push(Seq::new(alloc))?;
    }
    Ok(columns)
}
