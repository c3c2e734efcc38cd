ghost use Rattle.std.specs.Prelude.{◌≡◌, ◌↔◌, ℕ, IsTrue};
ghost use Rattle.dali_outside.specs.Outside.{TellsAll};
ghost use Rattle.dali_desk.specs.Words.{IsJob};
ghost use Rattle.dali_desk.specs.CheckRun.{CheckRun};
ghost use Rattle.dali_desk.specs.DayOver.{DayOver};
ghost use Rattle.dali_desk.specs.GateOver.{GateOver};
ghost use Rattle.dali_desk.specs.InitRun.{InitRun};
ghost use Rattle.dali_desk.specs.Replica.{FollowOver, ShipOver};
ghost use Rattle.dali_desk.specs.Upkeep.{ExportOver, GenOver, RaiseOver, TrialOver};

use crate::check::check_input;
use crate::day::run_day;
use crate::gate::run_gate;
use crate::init::make_journal;
use crate::job::{Job, plan};
use crate::replica::{run_follow, run_ship};
use crate::status::Status;
use crate::upkeep::{run_export, run_gen, run_raise, run_trial};
use dali_base::Words;
use dali_outside::{Site, Source};
use std::alloc::Global;

/// Does what the words ask for, with `day` as its input and `site` as its disk and console, and answers how it ended.
///
/// The table of words is defined in `specs/Words.antt`, what a run of `init` does in `specs/InitRun.antt`, what one of
/// `check` does in `specs/CheckRun.antt`, what one of `day` does over its journal in `specs/DayOver.antt`, what one of
/// `gate` does in `specs/GateOver.antt`, what `export`, `raise`, `gen` and `trial` do in `specs/Upkeep.antt`, and what `ship`
/// and `follow` do in `specs/Replica.antt`. With words that are none of the table nothing is read, written or printed. Where
/// the words are `init JOURNAL SIZE`, the site's size is SIZE.
pub fn run<S: Source, T: Site>(alloc: Global, words: &Words, day: &mut S, site: &mut T) -> Status
    requires size { (size : ℕ) → IsJob words.now (Job.Init size) → (T.sight site.old).size ≡ size }

    // words that are none of the table, and what holds of all words
    ensures usage { (result ≡ Status.Usage) ↔ ((job : _) → IsJob words.now job → ⊥) }
    ensures untouched { result ≡ Status.Usage → (S.feed day.new ≡ S.feed day.old) × (T.sight site.new ≡ T.sight site.old) }
    ensures whole { IsTrue T.tells → TellsAll (T.sight site.new) }

    // a journal is made, and raised
    ensures init { (size : ℕ) → IsJob words.now (Job.Init size) → (S.feed day.new ≡ S.feed day.old) × InitRun T.tells (T.sight site.old) (T.sight site.new) result }
    ensures raises { IsJob words.now Job.Raise → (S.feed day.new ≡ S.feed day.old) × RaiseOver T.tells (T.sight site.old) (T.sight site.new) result }

    // commands are taken over a journal: of a day file, of inboxes, of a stream of frames
    ensures day { IsJob words.now Job.Day → DayOver S.tells T.tells (S.feed day.old) (S.feed day.new) (T.sight site.old) (T.sight site.new) result }
    ensures gate { IsJob words.now Job.Gate → GateOver S.tells T.tells (S.feed day.old) (S.feed day.new) (T.sight site.old) (T.sight site.new) result }
    ensures follows { IsJob words.now Job.Follow → FollowOver S.tells T.tells (S.feed day.old) (S.feed day.new) (T.sight site.old) (T.sight site.new) result }

    // what a journal has is printed
    ensures exports { IsJob words.now Job.Export → (S.feed day.new ≡ S.feed day.old) × ExportOver T.tells (T.sight site.old) (T.sight site.new) result }
    ensures ships { IsJob words.now Job.Ship → (S.feed day.new ≡ S.feed day.old) × ShipOver T.tells (T.sight site.old) (T.sight site.new) result }

    // without a journal: a block is judged, and a day generated and tried
    ensures check { IsJob words.now Job.Check → CheckRun S.tells T.tells (S.feed day.old) (S.feed day.new) (T.sight site.old) (T.sight site.new) result }
    ensures generates { (n : ℕ) → IsJob words.now (Job.Gen n) → (S.feed day.new ≡ S.feed day.old) × GenOver n T.tells (T.sight site.old) (T.sight site.new) result }
    ensures tries { (n : ℕ) → IsJob words.now (Job.Trial n) → (S.feed day.new ≡ S.feed day.old) × TrialOver n T.tells (T.sight site.old) (T.sight site.new) result }
{
    match plan(words) {
        Ok(Job::Init { .. }) => make_journal(site),
        Ok(Job::Day) => run_day(alloc, day, site),
        Ok(Job::Check) => whole(check_input(alloc, day, site), site),
        Ok(Job::Export) => whole(run_export(alloc, site), site),
        Ok(Job::Gen { n }) => whole(run_gen(alloc, n, site), site),
        Ok(Job::Raise) => run_raise(alloc, site),
        Ok(Job::Trial { n }) => whole(run_trial(alloc, n, site), site),
        Ok(Job::Gate) => whole(run_gate(alloc, day, site), site),
        Ok(Job::Ship) => run_ship(alloc, site),
        Ok(Job::Follow) => run_follow(alloc, day, site),
        Err(_) => whole(Status::Usage, site),
    }
}

/// The same status. Called for its clause alone: a site that tells has a byte and a mark for each place of its disk at the end.
fn whole<T: Site>(status: Status, site: &T) -> Status
    ensures same { result ≡ status }
    ensures whole { IsTrue T.tells → TellsAll (T.sight site.now) }
{
    let _size = site.size();
    status
}
