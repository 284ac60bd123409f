// A tag of a link and a body: what tags have in common that differ only in what they hold and in how they obey data commands.
ghost use Rattle.std.specs.Prelude.{◌≡◌, ℕ, ◌%◌, false, List};
ghost use Rattle.typeb.specs.Receives.{on_air};
ghost use Rattle.typeb.specs.Hears.{frame_of};
ghost use Rattle.typeb.specs.declared.frames.Op.{Op};
ghost use Rattle.kinds.specs.Kinds.{Duties, Meaning, Told};
ghost use Rattle.kinds.specs.Reacts.{Reaction, Reacted, hears_by};
ghost use Rattle.tags.specs.Common.{Shown, Contents, acts_by, is_off_tag, reacts_by};
ghost use Rattle.tags.specs.Holding.{tag_of};
ghost use Rattle.tags.specs.Pages.{serial_in, application_in};

use crate::link::{Link, Next};
use crate::pages::PageBytes;
use kinds::hearing::Response;
use kinds::kind::{Hearing, Kind};
use typeb::frames::{Frame, Op, Serial};
use typeb::received::Received;

// No reply, and no check accepted.
const SILENT: Hearing = Hearing {
    len: 0,
    accepted: false,
};

#[derive(Clone, Copy)]
pub struct Linked<B> {
    pub(crate) link: Link,
    pub(crate) body: B,
}

// What a tag holds beside its link, and how it obeys data commands.
pub trait Body: Copy {
    ghost Hidden: { Type 0 };

    ghost holds: { Self → Contents Hidden };

    ghost obeys: { Op → ℕ → List ℕ → Meaning Shown Hidden → Reaction (Meaning Shown Hidden) };

    fn serial(&self) -> Serial
        ensures { result ≡ serial_in (holds self.now).pages };

    fn application(&self) -> [u8; 4]
        ensures { result ≡ application_in (holds self.now).pages };

    // Power is lost.
    fn close(&mut self)
        ensures { holds self.new ≡ record { pages = (holds self.old).pages; hidden = (holds self.old).hidden; opened = false } };

    // A tag with such a body obeys a data command with its card number.
    fn obey(tag: &mut Linked<Self>, op: Op, address: u8, bytes: PageBytes) -> Response
        ensures { Reacted (obeys op (address % 32) bytes (tag_of holds tag.old)) (tag_of holds tag.new) result.said result.accepted };

    ghost duties: { Duties is_off_tag (acts_by obeys) };
}

impl<B: Body> Linked<B> {
    // Reacts to what is heard: by the link, or by obeying a data command.
    fn react(&mut self, told: Frame<'_>) -> Response
        ensures { Reacted (reacts_by B.obeys (frame_of told.entry) (tag_of B.holds self.old)) (tag_of B.holds self.new) result.said result.accepted }
    {
        let serial = self.body.serial();
        let application = self.body.application();
        match self.link.hear(told, serial, application) {
            Next::Silence => Response::of(None),
            Next::Say(said) => Response::of(Some(said)),
            Next::Obey { op, address, bytes } => B::obey(self, op, address, *bytes),
        }
    }

    // Hears a frame. `hear` hands it only those in which there is something to hear. It stays out of the loop over the tags, so
    // that for any other frame the loop has nothing to do, and copies no tag.
    #[inline(never)]
    fn answer(&mut self, frame: &Received<'_>, reply: &mut [u8; 16]) -> Hearing
        ensures { Told (hears_by (reacts_by B.obeys) (on_air frame.now) (tag_of B.holds self.old)) (tag_of B.holds self.new) reply.old reply.new result.len result.accepted }
    {
        match frame.told() {
            Some(told) => self.react(told).reply_to(told, reply),
            None => SILENT,
        }
    }
}

impl<B: Body> Kind for Linked<B> {
    ghost Shown = { Shown };

    ghost Hidden = { B.Hidden };

    ghost means = { tag_of B.holds };

    ghost acts = { acts_by B.obeys };

    ghost off = { is_off_tag };

    ghost duties = { B.duties };

    fn gain_power(&mut self) {
        self.link.gain_power();
    }

    fn lose_power(&mut self) {
        self.link.lose_power();
        self.body.close();
    }

    fn hear(&mut self, frame: &Received<'_>, reply: &mut [u8; 16]) -> Hearing {
        match frame.told() {
            Some(_) => self.answer(frame, reply),
            None => SILENT,
        }
    }
}
