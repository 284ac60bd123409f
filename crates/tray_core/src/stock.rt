// Taking stock of the tags before the reader, from nothing but frames on the air and what comes back.
ghost use Rattle.std.specs.Prelude.{◌≡◌, ℕ, ◌+◌, ◌*◌, ◌<◌, ◌≤◌, true, false, List, length, drop};
ghost use Rattle.typeb.specs.Messages.{bytes_of};
ghost use Rattle.tray_core.specs.Scripts.{Script, done, played, SameEnd};
ghost use Rattle.tray_core.specs.Stock.{Fair, Tally, slot, slots, round_frames, next_round, stocktaking};
ghost use Rattle.tray_core.specs.Step.{Stepped, step, Stock};
ghost use Rattle.tray_core.specs.Trays.{Model};
ghost use Rattle.tray_core.specs.Views.{GoesOn, NotedIn, begun, model_of, rows_of, sounds_in, tally_of};

use crate::calls::Answer;
use crate::progress::Progress;
use crate::sounds::Sounds;
use crate::speaking::{answering_serial, halt_frame, slot_frame};
use crate::tray::{Rows, Tray};
use kinds::kind::Kind;
use refusals::Refusal;
use typeb::frames::Serial;
use typeb::message::Message;

// A serial number joins the first `listed` places of the list if it is new there. Answers how many are filled then.
fn note(serial: Serial, listed: usize, list: &mut [Serial]) -> usize
    requires { listed < length list.old }
    ensures { NotedIn serial listed list.old list.new result }
{
    if list[..listed].contains(&serial) {
        return listed;
    }
    list[listed] = serial;
    listed + 1
}

impl<F: Kind, B: Kind> Rows<F, B> {
    // One slot: its frame, and HLTB where one tag answered. How high the counts are is a matter of how far the stock has come,
    // so the calls bound them and no type does.
    fn take_slot(&mut self, frame: Message, progress: Progress, list: &mut [Serial]) -> Progress
        requires { (progress.listed < length list.old) × (progress.frames ≤ 1000) × (progress.clashes ≤ 1000) }
        ensures goes { GoesOn 1 progress list.old result list.new }
        ensures plays { (next : Tally → Script Tally) → SameEnd F.Kind.acts B.Kind.acts (slot (bytes_of frame) next (tally_of progress list.old)) (rows_of F.Kind.means B.Kind.means self.old) (next (tally_of result list.new)) (rows_of F.Kind.means B.Kind.means self.new) }
    {
        let mut p = progress;
        p.frames += 1;
        match self.air(frame.as_slice()) {
            Sounds::Silence => p,
            Sounds::Clash(_) => {
                p.clashes += 1;
                p.silent = false;
                p
            }
            Sounds::Reply(reply) => {
                p.silent = false;
                let Some(serial) = answering_serial(reply) else {
                    return p;
                };
                let _ = self.air(halt_frame(serial).as_slice());
                p.frames += 1;
                p.listed = note(serial, p.listed, list);
                p
            }
        }
    }

    // A round of sixteen slots.
    fn take_round(&mut self, wake_up: bool, progress: Progress, list: &mut [Serial]) -> Progress
        requires { (progress.listed + 16 ≤ length list.old) × (progress.frames ≤ 900) × (progress.rounds ≤ 900) }
        ensures goes { GoesOn 16 (begun progress) list.old result list.new }
        ensures plays { (next : Tally → Script Tally) → SameEnd F.Kind.acts B.Kind.acts (slots (round_frames wake_up) next (next_round (tally_of progress list.old))) (rows_of F.Kind.means B.Kind.means self.old) (next (tally_of result list.new)) (rows_of F.Kind.means B.Kind.means self.new) }
    {
        let mut p = Progress {
            rounds: progress.rounds + 1,
            clashes: 0,
            silent: true,
            ..progress
        };
        // A slot's frame says its number, so the round counts them.
        for i in 0..16u8 {
            p = self.take_slot(slot_frame(wake_up, i), p, list);
        }
        p
    }

    // Up to eight rounds; a round of sixteen silent slots is the last.
    fn take_rounds(&mut self, list: &mut [Serial]) -> Progress
        requires { 128 ≤ length list.old }
        ensures within { result.listed ≤ 128 }
        ensures rest { drop result.listed list.new ≡ drop result.listed list.old }
        ensures plays { SameEnd F.Kind.acts B.Kind.acts stocktaking (rows_of F.Kind.means B.Kind.means self.old) (done (tally_of result list.new)) (rows_of F.Kind.means B.Kind.means self.new) }
    {
        let mut p = Progress {
            frames: 0,
            rounds: 0,
            clashes: 0,
            silent: true,
            listed: 0,
        };
        // by number, since there is nothing else to go over; the first round wakes halted tags
        for n in 0..8u8 {
            p = self.take_round(n == 0, p, list);
            if p.silent {
                return p;
            }
        }
        p
    }
}

impl<F: Kind, B: Kind> Tray<F, B> {
    // Lists the serial numbers of the tags that answer, each once, in the first places of the list.
    // Answers frames sent, rounds, clashed slots of the last round, and how many places are filled.
    #[tactic(auto, using(crate::proofs::Asked::fitting, crate::proofs::Tallies::fair_stock))]
    pub fn stock(&mut self, list: &mut [Serial]) -> Result<Answer, Refusal>
        ensures result { (b : List ℕ) → Stepped (step F.Kind.acts B.Kind.acts Stock (model_of F.Kind.means B.Kind.means self.old) b list.old) result (model_of F.Kind.means B.Kind.means self.new) b list.new }
        ensures fair { (t : Model F.Kind.Shown F.Kind.Hidden B.Kind.Shown B.Kind.Hidden) → Fair (played F.Kind.acts B.Kind.acts stocktaking t) }
    {
        let rows = self.fitting()?;
        if list.len() < 128 {
            return Err(Refusal::ListTooShort);
        }
        let Progress {
            frames,
            rounds,
            clashes,
            listed,
            ..
        } = rows.take_rounds(list);
        Ok(Answer::Stock {
            frames,
            rounds,
            clashes,
            listed,
        })
    }
}
