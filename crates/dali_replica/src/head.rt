ghost use Rattle.std.specs.Prelude.{◌≡◌, ◌≢◌, ◌+◌, ◌<◌, ◌≤◌, Err, ℕ, List, [], ◌++◌, length, IfOk, IfErr, IfSome, IfNone};
ghost use Rattle.std.specs.Int.{w32, w64, from_be_bytes};
ghost use Rattle.dali_outside.specs.Outside.{Rose};
ghost use Rattle.dali_replica.specs.Frame.{head_text};
ghost use Rattle.dali_replica.specs.Intake.{Midway, EndsShort, BreaksShort, reach_of};

use crate::intake::Intake;
use crate::refusal::FrameNo;
use dali_outside::Source;

/// The bytes of a frame's head.
pub(crate) const HEAD: usize = 12;

/// What a frame's head says: the number of its command, and the length of its record in bytes.
#[derive(Clone, Copy)]
pub(crate) struct Head {
    pub(crate) number: u64,
    pub(crate) size: u32,
}

/// The head of the next frame. `None` where the end of input stands before the last of its bytes.
pub(crate) fn read_head<S: Source>(
    intake: &mut Intake,
    source: &mut S,
) -> Result<Option<Head>, FrameNo>
    ensures some { IfOk result (λ o. IfSome o (λ head. Midway S.tells (reach_of intake.old (S.feed source.old)) (head_text head.number head.size) (reach_of intake.new (S.feed source.new)))) }
    ensures none { IfOk result (λ o. IfNone o (EndsShort S.tells (reach_of intake.old (S.feed source.old)) [] 12 (reach_of intake.new (S.feed source.new)))) }
    ensures breaks { IfErr result (BreaksShort S.tells (reach_of intake.old (S.feed source.old)) [] 12 (reach_of intake.new (S.feed source.new))) }
    ensures faults { (S.feed source.old).faults ≤ (S.feed source.new).faults }
    ensures quiet { result ≢ Err FrameNo.ReadFault → (S.feed source.new).faults ≡ (S.feed source.old).faults }
    ensures failed { result ≡ Err FrameNo.ReadFault → Rose (S.feed source.old).faults (S.feed source.new).faults }
{
    let _taken = intake.taken();
    let mut head = [0; HEAD];
    for at in 0..HEAD {
        match intake.next_byte(source)? {
            Some(byte) => head[at] = byte,
            None => return Ok(None),
        }
    }
    Ok(Some(head_of(&head)))
}

/// What the bytes of a head say.
fn head_of(head: &[u8; HEAD]) -> Head
    ensures { head_text result.number result.size ≡ head.now }
{
    let (number, size) = head.split_at(8);
    Head {
        number: number_of(number),
        size: size_of(size),
    }
}

/// The number in eight bytes.
fn number_of(bytes: &[u8]) -> u64
    requires { length bytes.now ≡ 8 }
    ensures { result ≡ from_be_bytes w64 bytes.now }
{
    u64::from_be_bytes([
        bytes[0], bytes[1], bytes[2], bytes[3], bytes[4], bytes[5], bytes[6], bytes[7],
    ])
}

/// The number in four bytes.
fn size_of(bytes: &[u8]) -> u32
    requires { length bytes.now ≡ 4 }
    ensures { result ≡ from_be_bytes w32 bytes.now }
{
    u32::from_be_bytes([bytes[0], bytes[1], bytes[2], bytes[3]])
}
