// The calls of a tray, and their answers.
ghost use Rattle.std.specs.Prelude.{◌≡◌};
ghost use Rattle.typeb.specs.Messages.{bytes_of};
ghost use Rattle.tray_core.specs.Step.{asks_by, asks_of};

use typeb::message::Message;

// A call, by how it holds a frame's bytes: lent as a slice, or in a message of its own.
#[derive(Clone, Copy)]
pub enum Call<B> {
    // the field on and off
    On,
    Off,
    // a tag put on the tray and lifted off it; front tags are numbered from 0, back tags from 32
    Place(usize),
    Lift(usize),
    // a frame on the air
    Frame(B),
    // which tags are there
    Stock,
}

// A call that holds its frame lends it.
impl<'a> From<&'a Call<Message>> for Call<&'a [u8]> {
    ghost from_gives = { λ held lent. asks_of lent ≡ asks_by bytes_of held.now };

    fn from(held: &'a Call<Message>) -> Call<&'a [u8]> {
        match held {
            Call::On => Call::On,
            Call::Off => Call::Off,
            Call::Place(n) => Call::Place(*n),
            Call::Lift(n) => Call::Lift(*n),
            Call::Frame(message) => Call::Frame(message.as_slice()),
            Call::Stock => Call::Stock,
        }
    }
}

#[derive(Clone, Copy, PartialEq, Eq, Debug)]
pub enum Answer {
    Done,
    // no tag answered
    Silent,
    // one tag answered: the length of its reply in the buffer: the caller lends it, as the list, since there is no heap here
    Reply(usize),
    // so many tags answered at once
    Clash(usize),
    // frames sent, rounds, clashed slots of the last round, serial numbers in the list
    Stock {
        frames: usize,
        rounds: usize,
        clashes: usize,
        listed: usize,
    },
}
