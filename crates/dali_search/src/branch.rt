ghost use Rattle.std.specs.Prelude.{◌≡◌, ℕ, ◌<◌, ◌≤◌, true, length, IfOk, OnOk};
ghost use Rattle.dali_tree.specs.Fits.{lam_fits};
ghost use Rattle.dali_check.specs.Lean.{is_open};
ghost use Rattle.dali_search.specs.Best.{IsBest};
ghost use Rattle.dali_search.specs.Sides.{IsDesk, IsSplitAt};

use crate::best::Best;
use crate::desk::Desk;
use crate::lead::lead;
use crate::leaf::side;
use crate::nearest::nearest;
use crate::split::Split;
use dali_base::OutOfMemory;
use dali_problem::Problem;
use dali_tree::Lam;
use std::alloc::Global;

/// Branches node `at`, whose partial choice is on the desk and is put back, by its multipliers or by guessed ones.
pub(crate) fn branch(
    alloc: Global,
    problem: &Problem,
    at: u32,
    lam: &Lam,
    desk: &mut Desk,
    best: &mut Best,
) -> Result<Split, OutOfMemory>
    requires desk { IsDesk problem.now desk.old }
    requires lam { lam_fits (length problem.now.lines) lam.now ≡ true }
    requires some { is_open problem.now desk.old.partial.marks ≡ true }
    requires best { IsBest problem.now best.old }

    // the desk, and the best set
    ensures desk { OnOk result (IsDesk problem.now desk.new) }
    ensures marks { OnOk result (desk.new.partial.marks ≡ desk.old.partial.marks) }
    ensures best { IsBest problem.now best.new }
    ensures not_worse { best.old.value ≤ best.new.value }

    // the branch that is made
    ensures split { IfOk result (λ split. IsSplitAt problem.now best.new.value at desk.old.partial.marks lam.now split) }
{
    let lead = lead(
        alloc,
        problem,
        &desk.partial,
        lam,
        best.value,
        &mut desk.point,
    )?;
    let place = nearest(problem, &desk.partial, &lead, &mut desk.kept);
    let inside = side(alloc, problem, at, place, true, lam, desk, best)?;
    let outside = side(alloc, problem, at, place, false, lam, desk, best)?;
    Ok(Split {
        place,
        lam: lead,
        inside,
        outside,
    })
}
