ghost use Rattle.std.specs.Prelude.{◌≡◌, ◌≢◌, ◌≤◌, Err, ℕ, List, ◌++◌, length, IfOk, IfErr, IfSome, IfNone};
ghost use Rattle.dali_line.specs.Lines.{Reach};
ghost use Rattle.dali_outside.specs.Outside.{Rose};
ghost use Rattle.dali_replica.specs.Intake.{Midway, EndsShort, StopsShort, reach_of};

use crate::intake::Intake;
use crate::refusal::FrameNo;
use dali_base::Text;
use dali_outside::Source;
use std::alloc::Global;

/// The next `size` bytes, read in pieces as they come, so that memory is taken for bytes that are there alone. `None` where
/// the end of input stands before the last of them.
pub(crate) fn read_record<S: Source>(
    alloc: Global,
    size: usize,
    intake: &mut Intake,
    source: &mut S,
) -> Result<Option<Text>, FrameNo>
    ensures some { (old : Reach) (used : List ℕ) → Midway S.tells old used (reach_of intake.old (S.feed source.old)) → IfOk result (λ o. IfSome o (λ bytes. Midway S.tells old (used ++ bytes) (reach_of intake.new (S.feed source.new)))) }
    ensures size { IfOk result (λ o. IfSome o (λ bytes. length bytes ≡ size)) }
    ensures none { (old : Reach) (used : List ℕ) → Midway S.tells old used (reach_of intake.old (S.feed source.old)) → IfOk result (λ o. IfNone o (EndsShort S.tells old used size (reach_of intake.new (S.feed source.new)))) }
    ensures stops { (old : Reach) (used : List ℕ) → Midway S.tells old used (reach_of intake.old (S.feed source.old)) → IfErr result (StopsShort S.tells old used size (reach_of intake.new (S.feed source.new))) }
    ensures faults { (S.feed source.old).faults ≤ (S.feed source.new).faults }
    ensures quiet { result ≢ Err FrameNo.ReadFault → (S.feed source.new).faults ≡ (S.feed source.old).faults }
    ensures failed { result ≡ Err FrameNo.ReadFault → Rose (S.feed source.old).faults (S.feed source.new).faults }
{
    let mut bytes = Text::new(alloc);
    while bytes.len() < size {
        if !intake.wait(source)? {
            return Ok(None);
        }
        let missing = size - bytes.len();
        intake.move_to(&mut bytes, missing)?;
    }
    Ok(Some(bytes))
}
