// The one call that takes all six of a tray, with the law over every run.
#![tactic(auto)]

ghost use Rattle.std.specs.Prelude.{◌≡◌, ℕ, List};
ghost use Rattle.handling.specs.Laws.{Law};
ghost use Rattle.handling.specs.OwnCalls.{OwnCalls};
ghost use Rattle.tray_core.specs.Step.{Stepped, asks_of, step};
ghost use Rattle.tray_core.specs.Steps.{Steps};
ghost use Rattle.tray_core.specs.Trays.{Model};
ghost use Rattle.tray_core.specs.Views.{model_of};

use kinds::kind::Kind;
use refusals::Refusal;
use tray_core::calls::{Answer, Call};
use tray_core::tray::Tray;
use typeb::frames::Serial;

// Takes any of the six calls, with a buffer and a list of its own. A refused call leaves tray, buffer and list as they were.
// What refuses a call, what is heard, what it makes of every tag and what a stock is, in the subject's words: clause `steps`.
// Each is the tray's own call of that name: clause `own`.
// No sequence of calls shows what a closed tag hides, undoes a lock or loses a count: clause `runs`.
#[tactic(auto, using(tray_core::proofs::Stepping::steps, crate::proofs::Own::own_calls))]
pub fn handle<F: Kind, B: Kind>(
    tray: &mut Tray<F, B>,
    call: Call<&[u8]>,
    buffer: &mut [u8],
    list: &mut [Serial],
) -> Result<Answer, Refusal>
    ensures result { Stepped (step F.Kind.acts B.Kind.acts (asks_of call.entry) (model_of F.Kind.means B.Kind.means tray.old) buffer.old list.old) result (model_of F.Kind.means B.Kind.means tray.new) buffer.new list.new }
    ensures own { OwnCalls call.entry (λ asks. Stepped
        (step F.Kind.acts B.Kind.acts asks
        (model_of F.Kind.means B.Kind.means tray.old) buffer.old list.old)
        result (model_of F.Kind.means B.Kind.means tray.new) buffer.new list.new) }
    ensures steps { (t : Model F.Kind.Shown F.Kind.Hidden B.Kind.Shown B.Kind.Hidden) (b : List ℕ) (l : List (List ℕ)) → Steps F.Kind.acts B.Kind.acts t b l }
    ensures runs { Law F.Kind.acts B.Kind.acts }
{
    match call {
        Call::On => tray.on(),
        Call::Off => tray.off(),
        Call::Place(n) => tray.place(n),
        Call::Lift(n) => tray.lift(n),
        Call::Frame(bytes) => tray.frame(bytes, buffer),
        Call::Stock => tray.stock(list),
    }
}
