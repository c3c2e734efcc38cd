ghost use Rattle.std.specs.Prelude.{◌≡◌};
ghost use Rattle.dali_cert_text.specs.declared.block.BlockNo.TheVariants.{OutOfMemory as Memory};

use dali_base::OutOfMemory;
use dali_problem::Problem;
use dali_tree::Choice;
use thiserror::Error;

/// What a certificate block says: a problem, a budget and a choice.
#[derive(Drop)]
pub struct Block {
    /// The problem, with its lines and items in the block's order.
    pub problem: Problem,
    /// The budget, 0 to 4,096 branchings.
    pub budget: u64,
    /// The choice, which fits the problem.
    pub choice: Choice,
}

/// Why no block was read.
#[derive(Clone, Copy, Debug, PartialEq, Eq, Error)]
pub enum BlockNo {
    /// The bytes are no block. The line, counted from 1, is the first such that no block begins with the lines up to it;
    /// `specs/Form.antt` defines it.
    #[error("no block at line {line}")]
    Form { line: u64 },
    /// Memory was wanted and wasn't there.
    #[error("out of memory")]
    OutOfMemory,
}

impl From<OutOfMemory> for BlockNo {
    ghost from_gives = { λ _ e. e ≡ Memory };

    fn from(_: OutOfMemory) -> BlockNo {
        BlockNo::OutOfMemory
    }
}
