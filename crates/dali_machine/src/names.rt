ghost use Rattle.std.specs.Prelude.{IsTrue};
ghost use Rattle.std.specs.List.{All};
ghost use Rattle.dali_base.specs.Spelling.{is_name};
ghost use Rattle.dali_machine.specs.Named.{HasNames};

use dali_problem::Problem;

/// Called for its clause alone: what a problem calls by name has a name.
pub(crate) fn see_names(problem: &Problem)
    ensures { HasNames problem.now }
{
    see_lines(problem);
    see_ids(problem);
}

fn see_lines(problem: &Problem)
    ensures { All (λ line. IsTrue (is_name line.account) × IsTrue (is_name line.asset)) problem.now.lines }
{
    for at in 0..problem.lines() {
        let line = problem.line(at);
        let _account = line.account.bytes();
        let _asset = line.asset.bytes();
    }
}

fn see_ids(problem: &Problem)
    ensures { All (λ item. IsTrue (is_name item.id)) problem.now.items }
{
    for at in 0..problem.items() {
        let id = problem.id(at);
        let _bytes = id.bytes();
    }
}
