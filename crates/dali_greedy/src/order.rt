ghost use Rattle.std.specs.Prelude.{IfOk};
ghost use Rattle.dali_greedy.specs.Order.{IsOrderOf};

use dali_base::OutOfMemory;
use dali_problem::Problem;
use std::alloc::Global;

/// A place, ranked by what it is worth less than the greatest number of its type.
#[derive(Clone, Copy, Debug, PartialEq, Eq, PartialOrd, Ord)]
pub(crate) struct Ranked {
    behind: u64,
    pub(crate) place: u32,
}

/// All places of a problem, the one of greatest value first, or want of memory.
pub(crate) fn by_value(alloc: Global, problem: &Problem) -> Result<Vec<Ranked>, OutOfMemory>
    ensures { IfOk result (λ order. IsOrderOf problem.now order.items) }
{
    let mut order = Vec::new(alloc);
    for place in 0..problem.items() {
        order.push(Ranked {
            behind: u64::MAX - problem.value(place),
            place,
        })?;
    }
    order.sort_unstable();
    Ok(order)
}
