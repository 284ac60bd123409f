// The part of a tag that every kind has: its state, card number and draw number.
ghost use Rattle.std.specs.Prelude.{◌≡◌, None};
ghost use Rattle.typeb.specs.Hears.{frame_of, slot_count};
ghost use Rattle.tags.specs.Links.{new_link, gains_link, loses_link, drawn, link_hears, requested, deselected, obeyed};
ghost use Rattle.tags.specs.LinkLaws.{Draws};
ghost use Rattle.tags.specs.Orders.{said_next, order_next};
ghost use Rattle.kinds.specs.Says.{says_of, saying_of};

use kinds::said::Said;
use typeb::frames::{Frame, Op, Serial, Slots};

#[derive(Clone, Copy, PartialEq, Eq, Debug)]
pub enum State {
    Off,
    Idle,
    // waits for the marker of the slot that it drew
    Requested { slot: u8 },
    Declared,
    Halted,
    Active,
}

#[derive(Clone, Copy, PartialEq, Eq, Debug)]
pub struct Link {
    pub state: State,
    // the card number, CID, that ATTRIB gave; beside the state, since it outlasts active
    pub cid: u8,
    // the number from which the next slot is drawn
    pub draw: u16,
}

// What comes of a frame for a tag with such a link.
#[derive(Clone, Copy)]
pub enum Next<'a> {
    // no reply
    Silence,
    Say(Said),
    // a data command with this card number: the tag obeys it
    Obey {
        op: Op,
        address: u8,
        bytes: &'a [u8; 8],
    },
}

// A slot of those announced, and the next draw number, from a draw number.
#[tactic(auto, using(crate::proofs::LinkLawful::draws_of))]
pub fn draw_slot(draw: u16, slots: Slots) -> (u8, u16)
    ensures result { result ≡ drawn draw (slot_count slots) }
    ensures draws { Draws (slot_count slots) draw result.0 result.1 }
{
    let wide = u32::from(draw);
    let slot = 1 + wide / 4096 % u32::from(slots.count());
    let next = (wide * 25173 + 13849) % 65536;
    (slot as u8, next as u16)
}

impl Link {
    // The link of a tag just made.
    pub fn new(draw: u16) -> Link
        ensures { result ≡ new_link draw }
    {
        Link {
            state: State::Off,
            cid: 0,
            draw,
        }
    }

    pub fn gain_power(&mut self)
        ensures { self.new ≡ gains_link self.old }
    {
        if let State::Off = self.state {
            self.state = State::Idle;
        }
    }

    pub fn lose_power(&mut self)
        ensures { self.new ≡ loses_link self.old }
    {
        self.state = State::Off;
    }

    // Halts, whatever the state was.
    pub fn deselect(&mut self)
        ensures { self.new ≡ deselected self.old }
    {
        self.state = State::Halted;
    }

    // A request to this family: a slot is drawn where there are several, and the first is answered at once.
    fn request(&mut self, answer: Said, slots: Slots) -> Next<'static>
        ensures after { self.new ≡ (requested (says_of answer) (slot_count slots) self.old).after }
        ensures says { saying_of (said_next result) ≡ (requested (says_of answer) (slot_count slots) self.old).says }
        ensures order { order_next result ≡ None }
    {
        if slots.count() > 1 {
            let (slot, next) = draw_slot(self.draw, slots);
            self.draw = next;
            if slot > 1 {
                self.state = State::Requested { slot };
                return Next::Silence;
            }
        }
        self.state = State::Declared;
        Next::Say(answer)
    }

    // Hears a frame, for a tag with this serial number and application data: what its state and the frame together decide.
    // A pair that is not named gets no reply and changes nothing.
    #[inline(always)]
    pub fn hear<'a>(&mut self, told: Frame<'a>, own: Serial, application: [u8; 4]) -> Next<'a>
        ensures after { self.new ≡ (link_hears own application (frame_of told.entry) self.old).after }
        ensures says { saying_of (said_next result) ≡ (link_hears own application (frame_of told.entry) self.old).says }
        ensures order { order_next result ≡ obeyed (frame_of told.entry) self.old }
    {
        let answer = Said::Answer {
            serial: own,
            application,
        };
        match (self.state, told) {
            (
                State::Idle | State::Requested { .. } | State::Declared,
                Frame::Request {
                    family: 0 | 1,
                    slots,
                    ..
                },
            )
            | (
                State::Halted,
                Frame::Request {
                    family: 0 | 1,
                    wake_up: true,
                    slots,
                },
            ) => self.request(answer, slots),
            (State::Idle | State::Requested { .. } | State::Declared, Frame::Request { .. }) => {
                self.state = State::Idle;
                Next::Silence
            }
            (State::Requested { slot: drawn }, Frame::SlotMarker { slot }) if drawn == slot => {
                self.state = State::Declared;
                Next::Say(answer)
            }
            (State::Declared, Frame::Attrib { serial, params, .. }) if serial == own => {
                // by its number: with an array pattern inside the variant the function gets no generated proof
                self.cid = params[3] % 16;
                self.state = State::Active;
                Next::Say(Said::Card(self.cid))
            }
            (State::Declared, Frame::Halt { serial }) if serial == own => {
                self.state = State::Halted;
                Next::Say(Said::Acknowledged)
            }
            (
                State::Active,
                Frame::Command {
                    op,
                    cid,
                    address,
                    bytes,
                },
            ) if cid == self.cid => Next::Obey { op, address, bytes },
            _ => Next::Silence,
        }
    }
}
