// A frame with its reading, so that it is read once however many tags hear it.
ghost use Rattle.std.specs.Prelude.{◌≡◌};
ghost use Rattle.typeb.specs.Hears.{heard, reading_of};

use crate::frames::Frame;
use crate::reading::read_frame;

#[derive(Clone, Copy)]
pub struct Received<'a> {
    bytes: &'a [u8],
    told: Option<Frame<'a>>,
    ghost read: { ∥ reading_of told ≡ heard bytes.now ∥₁ },
}

impl<'a> Received<'a> {
    ghost use Rattle.typeb.specs.Receives.{on_air};

    // Reads a frame.
    pub fn new(bytes: &'a [u8]) -> Received<'a>
        ensures { on_air result ≡ bytes.now }
    {
        let told = read_frame(bytes);
        Received { bytes, told }
    }

    // The frame as it came.
    pub fn bytes(&self) -> &'a [u8]
        ensures { result.now ≡ on_air self.now }
    {
        self.bytes
    }

    // What a tag hears in it.
    pub fn told(&self) -> Option<Frame<'a>>
        ensures { reading_of result ≡ heard (on_air self.now) }
    {
        self.told
    }
}
