// Frame: a frame on the air, and the reply in a lent buffer.
ghost use Rattle.std.specs.Prelude.{◌≡◌, ℕ, List};
ghost use Rattle.tray_core.specs.Sounds.{Meeting};
ghost use Rattle.tray_core.specs.Step.{Stepped, step, Frame};
ghost use Rattle.tray_core.specs.Views.{model_of};

use crate::calls::Answer;
use crate::sounds::Sounds;
use crate::tray::Tray;
use kinds::kind::Kind;
use refusals::Refusal;

impl<F: Kind, B: Kind> Tray<F, B> {
    // Every tag with power hears the frame. One reply goes to the front of the buffer; other bytes stay.
    // Replies meet in any grouping and order, and are heard by their number: clause `meeting`.
    #[tactic(auto, using(crate::proofs::Asked::fitting, crate::proofs::Meets::meeting))]
    pub fn frame(&mut self, bytes: &[u8], buffer: &mut [u8]) -> Result<Answer, Refusal>
        ensures result { (l : List (List ℕ)) → Stepped (step F.Kind.acts B.Kind.acts (Frame bytes.now) (model_of F.Kind.means B.Kind.means self.old) buffer.old l) result (model_of F.Kind.means B.Kind.means self.new) buffer.new l }
        ensures meeting { Meeting }
    {
        let rows = self.fitting()?;
        if buffer.len() < 16 {
            return Err(Refusal::BufferTooShort);
        }
        match rows.air(bytes) {
            Sounds::Silence => Ok(Answer::Silent),
            Sounds::Reply(message) => {
                let reply = message.as_slice();
                buffer[..reply.len()].copy_from_slice(reply);
                Ok(Answer::Reply(reply.len()))
            }
            Sounds::Clash(n) => Ok(Answer::Clash(n)),
        }
    }
}
