// Making the frame of a command.
ghost use Rattle.std.specs.Prelude.{◌≡◌};
ghost use Rattle.refusals.specs.Numbers.{numbered};
ghost use Rattle.reader.specs.Commands.{asked_of, made_for, buffer_for};
ghost use Rattle.reader.specs.Laws.{ReadsBack, IdleIsZero, NamesAll, MakesOnly};

use crate::commands::Command;
use refusals::Refusal;

// Makes the frame of a command, check bytes included, at the front of a lent buffer, and answers its length.
// Asked in this order: a buffer of 16 bytes or more; every value in range. A refusal leaves the buffer as it was.
#[tactic(auto, using(crate::proofs::Makes::reads_back, crate::proofs::Ranges::idle_is_zero, crate::proofs::Ranges::names_all, crate::proofs::MakesOnly::makes_only))]
pub fn make(command: Command<'_>, buffer: &mut [u8]) -> Result<usize, Refusal>
    ensures result { numbered result ≡ made_for (asked_of command.entry) buffer.old }
    ensures buffer { buffer.new ≡ buffer_for (asked_of command.entry) buffer.old }
    ensures reads_back { ReadsBack }
    ensures idle { IdleIsZero }
    ensures names { NamesAll }
    ensures only { MakesOnly }
{
    if buffer.len() < 16 {
        return Err(Refusal::BufferTooShort);
    }
    if !command.in_range() {
        return Err(Refusal::ValueOutOfRange);
    }
    let bytes = command.data_bytes();
    // 16 bytes have room for every frame
    Ok(command.frame(&bytes).put_into(buffer).unwrap())
}
