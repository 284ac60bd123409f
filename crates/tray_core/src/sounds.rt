// What a reader hears after a frame.
use typeb::message::Message;

#[derive(Clone, Copy)]
pub enum Sounds {
    Silence,
    // one tag answered
    Reply(Message),
    // so many tags answered at once
    Clash(usize),
}
