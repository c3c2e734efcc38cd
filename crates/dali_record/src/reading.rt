ghost use Rattle.std.specs.Prelude.{◌≡◌, IfOk};
ghost use Rattle.std.specs.Int.{w16};
ghost use Rattle.dali_base.specs.Limits.{most_lines};
ghost use Rattle.dali_record.specs.Multipliers.{Rises, multiplier};
ghost use Rattle.dali_record.specs.Reading.{Gives, items_at, list_at, place_at, fix_at, multiplier_at, lam_at};

use crate::multipliers::made_of;
use crate::numbers::{eight_of, two_of};
use crate::refusal::RecordNo;
use dali_base::{Places, Seq};
use dali_tree::{Fix, Fixes, Lam};
use std::alloc::Global;

/// The list of places at the front, and the bytes behind it.
#[tactic(auto, unfolding(crate::specs::Reading::list_at))]
pub(crate) fn places_of(alloc: Global, bytes: &[u8]) -> Result<(Places, &[u8]), RecordNo>
    ensures { Gives (λ x. (x.0, x.1.now)) result (list_at place_at bytes.now) }
{
    let (count, rest) = two_of(bytes)?;
    many_places(alloc, count, rest)
}

fn many_places(alloc: Global, count: u32, bytes: &[u8]) -> Result<(Places, &[u8]), RecordNo>
    ensures { Gives (λ x. (x.0, x.1.now)) result (items_at place_at count bytes.now) }
{
    let mut places = Seq::new(alloc);
    let mut rest = bytes;
    for _ in 0..count {
        let (place, after) = place_of(rest)?;
        places.push(place)?;
        rest = after;
    }
    Ok((places, rest))
}

#[tactic(auto, unfolding(crate::specs::Reading::place_at))]
fn place_of(bytes: &[u8]) -> Result<(u32, &[u8]), RecordNo>
    ensures { Gives (λ x. (x.0, x.1.now)) result (place_at bytes.now) }
{
    two_of(bytes)
}

/// The list of fixes at the front, and the bytes behind it.
#[tactic(auto, unfolding(crate::specs::Reading::list_at))]
pub(crate) fn fixes_of(alloc: Global, bytes: &[u8]) -> Result<(Fixes, &[u8]), RecordNo>
    ensures { Gives (λ x. (x.0, x.1.now)) result (list_at fix_at bytes.now) }
{
    let (count, rest) = two_of(bytes)?;
    many_fixes(alloc, count, rest)
}

fn many_fixes(alloc: Global, count: u32, bytes: &[u8]) -> Result<(Fixes, &[u8]), RecordNo>
    ensures { Gives (λ x. (x.0, x.1.now)) result (items_at fix_at count bytes.now) }
{
    let mut fixes = Seq::new(alloc);
    let mut rest = bytes;
    for _ in 0..count {
        let (fix, after) = fix_of(rest)?;
        fixes.push(fix)?;
        rest = after;
    }
    Ok((fixes, rest))
}

#[tactic(auto, unfolding(crate::specs::Reading::fix_at))]
fn fix_of(bytes: &[u8]) -> Result<(Fix, &[u8]), RecordNo>
    ensures { Gives (λ x. (x.0, x.1.now)) result (fix_at bytes.now) }
{
    match bytes {
        [1, rest @ ..] => {
            let (place, rest) = two_of(rest)?;
            let (line, rest) = two_of(rest)?;
            Ok((Fix::Barred { place, line }, rest))
        }
        [2, rest @ ..] => {
            let (place, rest) = two_of(rest)?;
            let (line, rest) = two_of(rest)?;
            Ok((Fix::Needed { place, line }, rest))
        }
        [3, rest @ ..] => {
            let (place, rest) = two_of(rest)?;
            Ok((Fix::Safe { place }, rest))
        }
        _ => Err(RecordNo::Form),
    }
}

/// The multipliers of a node below these of the branch above, and the bytes behind them. They stand there as changes.
#[tactic(auto, unfolding(crate::specs::Reading::lam_at))]
pub(crate) fn lam_of<'a>(
    alloc: Global,
    above: &[(u32, u64)],
    bytes: &'a [u8],
) -> Result<(Lam, &'a [u8]), RecordNo>
    requires { Rises 0 most_lines above.now }
    ensures lam { Gives (λ x. (x.0, x.1.now)) result (lam_at (multiplier above.now) bytes.now) }
    ensures rises { IfOk result (λ x. Rises 0 most_lines x.0) }
{
    let (changes, rest) = changes_of(alloc, bytes)?;
    let lam = made_of(alloc, above, changes.as_slice())?;
    Ok((lam, rest))
}

#[tactic(auto, unfolding(crate::specs::Reading::list_at))]
fn changes_of(alloc: Global, bytes: &[u8]) -> Result<(Lam, &[u8]), RecordNo>
    ensures { Gives (λ x. (x.0, x.1.now)) result (list_at multiplier_at bytes.now) }
{
    let (count, rest) = two_of(bytes)?;
    many_changes(alloc, count, rest)
}

fn many_changes(alloc: Global, count: u32, bytes: &[u8]) -> Result<(Lam, &[u8]), RecordNo>
    ensures { Gives (λ x. (x.0, x.1.now)) result (items_at multiplier_at count bytes.now) }
{
    let mut changes = Seq::new(alloc);
    let mut rest = bytes;
    for _ in 0..count {
        let (change, after) = change_of(rest)?;
        changes.push(change)?;
        rest = after;
    }
    Ok((changes, rest))
}

#[tactic(auto, unfolding(crate::specs::Reading::multiplier_at))]
fn change_of(bytes: &[u8]) -> Result<((u32, u64), &[u8]), RecordNo>
    ensures { Gives (λ x. (x.0, x.1.now)) result (multiplier_at bytes.now) }
{
    let (line, rest) = two_of(bytes)?;
    let (multiplier, rest) = eight_of(rest)?;
    Ok(((line, multiplier), rest))
}
