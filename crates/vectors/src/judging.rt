// How the check bytes of a worked example are judged.
ghost use Rattle.std.specs.Prelude.{◌≡◌, IfOk, Some};
ghost use Rattle.std.specs.Fmt.{WritesOnOk};
ghost use Rattle.vectors.specs.Judges.{flipped, verdict_of, other_words, verdict_words};
ghost use Rattle.vectors.specs.Worked.{WorkedVerdicts};

use hex_pairs::Hex;
use std::alloc::{AllocError, Global};
use std::fmt;
use typeb::crc::{check_bytes, is_sound, seal};

#[derive(Clone, Copy, PartialEq, Eq, Debug)]
pub enum Verdict {
    Agrees,
    // The check bytes are others, these.
    Differs([u8; 2]),
    // The sealed body is not sound.
    Unsound,
    // The sealed body is sound with a flipped bit too.
    Blind,
}

impl fmt::Display for Verdict {
    ghost output = { λ v. Some (verdict_words v) };

    fn fmt<W: fmt::Write>(&self, f: &mut fmt::Formatter<W>) -> fmt::Result {
        match *self {
            Verdict::Agrees => f.write_str("ok"),
            Verdict::Differs(got) => put_other(f, got),
            Verdict::Unsound => f.write_str("wrong: sealed, it is not sound"),
            Verdict::Blind => f.write_str("wrong: a flipped bit goes unseen"),
        }
    }
}

// The check bytes that were found in place of those given.
fn put_other<W: fmt::Write>(f: &mut fmt::Formatter<W>, got: [u8; 2]) -> fmt::Result
    ensures { WritesOnOk W.write_str_gives f.old result (other_words got) f.new }
{
    let got = Hex(&got);
    write!(f, "wrong: got {got}")
}

// Flips the lowest bit of the first byte.
pub fn flip_bit(frame: &mut Vec<u8>)
    ensures { frame.new.items ≡ flipped frame.old.items }
{
    if let Some(first) = frame.first_mut() {
        *first ^= 1;
    }
}

// Judges the check bytes that are given for a body. Verdicts worked out by hand hold: clause `worked`.
#[tactic(auto, using(crate::proofs::Worked::worked_verdicts))]
pub fn judge(heap: Global, body: &[u8], check: [u8; 2]) -> Result<Verdict, AllocError>
    ensures result { IfOk result (λ v. v ≡ verdict_of body.now check) }
    ensures worked { WorkedVerdicts }
{
    let got = check_bytes(body);
    if got != check {
        return Ok(Verdict::Differs(got));
    }
    let mut frame = Vec::from_slice(heap, body)?;
    seal(&mut frame)?;
    if !is_sound(frame.as_slice()) {
        return Ok(Verdict::Unsound);
    }
    flip_bit(&mut frame);
    if is_sound(frame.as_slice()) {
        return Ok(Verdict::Blind);
    }
    Ok(Verdict::Agrees)
}
