// Check bytes (CRC_B) and soundness of frames.
ghost use Rattle.std.specs.Prelude.{◌≡◌, ◌<◌, is_ok, if◌then◌else◌};
ghost use Rattle.typeb.specs.CheckBytes.{register, check_bytes, sealed, sound};
ghost use Rattle.typeb.specs.CheckBytes.{EndsAtResidue, SealedIsSound, SealedInto};

use crate::table::fold_byte;
use std::alloc::AllocError;

const START: u16 = 0xFFFF;

// The register after all of the bytes.
fn run_register(bytes: &[u8]) -> u16
    ensures { result ≡ register bytes.now }
{
    let mut reg = START;
    for byte in bytes {
        reg = fold_byte(reg, *byte);
    }
    reg
}

// The two check bytes of a body, in the order in which they are sent.
#[tactic(auto, unfolding(crate::specs::CheckBytes::check_bytes))]
pub fn check_bytes(body: &[u8]) -> [u8; 2]
    ensures { result ≡ check_bytes body.now }
{
    let check = START - run_register(body);
    check.to_le_bytes()
}

// A frame is sound when it has three bytes or more and its last two are the check bytes of the rest.
// Of such a frame the register, run over all of its bytes, ends at 0xF0B8, and of no other of three bytes or more: clause
// `residue`.
#[tactic(auto, unfolding(crate::specs::CheckBytes::sound))]
pub fn is_sound(frame: &[u8]) -> bool
    ensures result { result ≡ sound frame.now }
    ensures residue { EndsAtResidue frame.now result }
{
    match frame {
        [body @ .., low, high] if !body.is_empty() => [*low, *high] == check_bytes(body),
        _ => false,
    }
}

// Appends its check bytes to a body. Where there is no memory for them the body stays as it was.
// A body of one byte or more becomes a sound frame: clause `sound_after`.
#[tactic(auto, using(crate::proofs::Residue::sealed_sound))]
pub fn seal(frame: &mut Vec<u8>) -> Result<(), AllocError>
    ensures result { frame.new.items ≡ (if is_ok result then sealed frame.old.items else frame.old.items) }
    ensures sound_after { SealedIsSound frame.old.items }
{
    let check = check_bytes(frame.as_slice());
    frame.extend_from_slice(&check)
}

// Writes a body and its check bytes to the front of a buffer and answers the frame's length; none where it has no room.
pub fn seal_into(body: &[u8], buffer: &mut [u8]) -> Option<usize>
    ensures { SealedInto body.now buffer.old buffer.new result }
{
    let (front, rest) = buffer.split_at_mut_checked(body.len())?;
    let check = rest.first_chunk_mut::<2>()?;
    front.copy_from_slice(body);
    *check = check_bytes(body);
    Some(body.len() + 2)
}
