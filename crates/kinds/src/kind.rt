// The interface of a kind of tag.
ghost use Rattle.std.specs.Prelude.{◌≡◌, ℕ, Bool};
ghost use Rattle.typeb.specs.Receives.{on_air};
ghost use Rattle.kinds.specs.Kinds.{Meaning, Behaviour, Duties, Told};

use typeb::received::Received;

// What hearing a frame answers: the length of the reply in the lent buffer, and whether a check was accepted. Two answers
// of every kind, not a value with a flag: a reply of any length may come with either. The bytes lie in the buffer that the
// caller lends, since there is no heap here.
#[derive(Clone, Copy)]
pub struct Hearing {
    pub len: usize,
    pub accepted: bool,
}

// A kind says what its tags mean and how they act on meanings; generic code is proved from its duties alone.
pub trait Kind: Copy {
    ghost Shown: { Type 0 };

    ghost Hidden: { Type 0 };

    ghost means: { Self → Meaning Shown Hidden };

    ghost acts: { Behaviour Shown Hidden };

    ghost off: { Shown → Bool };

    fn gain_power(&mut self)
        ensures { means self.new ≡ acts.gains (means self.old) };

    fn lose_power(&mut self)
        ensures { means self.new ≡ acts.loses (means self.old) };

    // Hears a frame, in place. It was read once for every tag; what is heard is a matter of its raw bytes alone, so a kind may
    // read them otherwise. The reply, of 0 to 16 bytes, goes to the front of the lent buffer.
    fn hear(&mut self, frame: &Received<'_>, reply: &mut [u8; 16]) -> Hearing
        ensures { Told (acts.hears (on_air frame.now) (means self.old)) (means self.new) reply.old reply.new result.len result.accepted };

    ghost duties: { Duties off acts };
}
