ghost use Rattle.std.specs.Prelude.{◌≡◌, ◌≤◌, ◌||◌, ◌++◌, ◌∷◌, [], List, map, length, IfOk, OnOk};
ghost use Rattle.std.specs.List.{list_any};
ghost use Rattle.std.specs.List.Sorted.{IsStrictlySortedBy};
ghost use Rattle.indexmap.specs.IndexSet.{contains};
ghost use Rattle.dali_base.specs.Limits.{most_lines};
ghost use Rattle.dali_account.specs.Net.{pair_of};
ghost use Rattle.dali_account.specs.Units.{PairKey, pair_cmp};
ghost use Rattle.dali_problem.specs.Clearing.{Item};
ghost use Rattle.dali_queue.specs.CycleProblem.{line_of, effect_on, line_row};
ghost use Rattle.dali_queue.specs.Drafts.{same_pair, drafted_pairs, item_of_draft, drafted, AreItems};

use dali_account::{Book, Move, Net};
use dali_base::{Name, OutOfMemory, Seq};
use dali_problem::{Effect, LineRow, Problem};
use indexmap::IndexSet;
use std::alloc::Global;

/// What a group brings to a problem, before its lines have their numbers.
#[derive(Debug, Drop)]
pub struct Draft {
    /// The id of its first instruction.
    pub id: Name,
    /// What it is worth, in centavos times rank.
    pub value: u64,
    pub net: Net,
}

/// The problem of these groups over the balances of the book.
pub fn draft_problem(alloc: Global, book: &Book, drafts: &[Draft]) -> Result<Problem, OutOfMemory>
    requires lines { length (drafted_pairs drafts.now) ≤ most_lines }
    requires items { AreItems (length (drafted_pairs drafts.now)) (map (item_of_draft (drafted_pairs drafts.now)) drafts.now) }
    ensures { IfOk result (λ problem. problem ≡ drafted book.now.book drafts.now) }
{
    let pairs = changed_pairs(alloc, drafts)?;
    let mut problem = Problem::new(alloc);
    add_lines(&mut problem, book, pairs.as_slice())?;
    add_items(alloc, &mut problem, &pairs, drafts)?;
    Ok(problem)
}

/// The pairs that some of these change, in byte order of account, then of asset.
fn changed_pairs(alloc: Global, drafts: &[Draft]) -> Result<IndexSet<(Name, Name)>, OutOfMemory>
    ensures { IfOk result (λ pairs. pairs.keys ≡ drafted_pairs drafts.now) }
{
    let mut pairs = IndexSet::new(alloc);
    for draft in drafts {
        add_pairs(&mut pairs, draft.net.moves())?;
    }
    pairs.sort()?;
    Ok(pairs)
}

/// Adds the pairs of these moves.
fn add_pairs(pairs: &mut IndexSet<(Name, Name)>, moves: &[Move]) -> Result<(), OutOfMemory>
    ensures { OnOk result ((q : PairKey) → contains same_pair pairs.new q ≡ (contains same_pair pairs.old q || list_any (same_pair q) (map pair_of moves.now))) }
{
    for item in moves {
        pairs.insert((item.account, item.asset))?;
    }
    Ok(())
}

/// Adds a line for each of these pairs, with its balance.
fn add_lines(problem: &mut Problem, book: &Book, pairs: &[(Name, Name)]) -> Result<(), OutOfMemory>
    requires empty { problem.old ≡ record { lines = []; items = [] } }
    requires few { length pairs.now ≤ most_lines }
    requires rising { IsStrictlySortedBy pair_cmp pairs.now }
    ensures { OnOk result (problem.new ≡ record { lines = map (line_row book.now.book) pairs.now; items = [] }) }
{
    for pair in pairs {
        problem.add_line(LineRow {
            account: pair.0,
            asset: pair.1,
            balance: book.balance(pair.0, pair.1),
        })?;
    }
    Ok(())
}

/// Adds an item for each of these groups.
fn add_items(
    alloc: Global,
    problem: &mut Problem,
    pairs: &IndexSet<(Name, Name)>,
    drafts: &[Draft],
) -> Result<(), OutOfMemory>
    requires empty { problem.old.items ≡ [] }
    requires lines { length problem.old.lines ≡ length pairs.now.keys }
    requires few { length pairs.now.keys ≤ most_lines }
    requires items { AreItems (length pairs.now.keys) (map (item_of_draft pairs.now.keys) drafts.now) }
    ensures { OnOk result (problem.new ≡ record problem.old { items = map (item_of_draft pairs.now.keys) drafts.now }) }
{
    for draft in drafts {
        let effects = effects_on(alloc, pairs, draft.net.moves())?;
        problem.add_item(draft.id, draft.value, effects.as_slice())?;
    }
    Ok(())
}

/// The moves as effects on the lines of these pairs.
fn effects_on(
    alloc: Global,
    pairs: &IndexSet<(Name, Name)>,
    moves: &[Move],
) -> Result<Seq<Effect>, OutOfMemory>
    requires { length pairs.now.keys ≤ most_lines }
    ensures { IfOk result (λ effects. effects ≡ map (effect_on pairs.now.keys) moves.now) }
{
    let mut effects = Seq::new(alloc);
    for item in moves {
        push_effect(&mut effects, pairs, item)?;
    }
    Ok(effects)
}

/// Adds a move at the end, as an effect on its line.
fn push_effect(
    effects: &mut Seq<Effect>,
    pairs: &IndexSet<(Name, Name)>,
    item: &Move,
) -> Result<(), OutOfMemory>
    requires { length pairs.now.keys ≤ most_lines }
    ensures { OnOk result (effects.new ≡ effects.old ++ effect_on pairs.now.keys item.now ∷ []) }
{
    effects.push(Effect {
        line: line_of(pairs, item),
        amount: item.delta,
    })
}

/// The number of the line that a move changes.
fn line_of(pairs: &IndexSet<(Name, Name)>, item: &Move) -> u32
    requires { length pairs.now.keys ≤ most_lines }
    ensures { result ≡ line_of pairs.now.keys (pair_of item.now) }
{
    match pairs.get_index_of(&(item.account, item.asset)) {
        Some(line) => line as u32,
        None => 0,
    }
}
