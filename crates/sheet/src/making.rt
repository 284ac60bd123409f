// Kinds of tag that are made of an image and a draw number.
ghost use Rattle.std.specs.Prelude.{◌≡◌, ℕ, List, Result, replicate};
ghost use Rattle.refusals.specs.Numbers.{outcome};
ghost use Rattle.tags.specs.Gauge.{GaugeMeaning, gauge_means};
ghost use Rattle.tags.specs.Making.{new_pump, pump_made, new_gauge, gauge_made};
ghost use Rattle.tags.specs.Pump.{PumpMeaning, pump_means};

use refusals::Refusal;
use tags::gauge::GaugeTag;
use tags::pump::PumpTag;

// A kind of tag whose image has N bytes. It stands here, since drafts alone ask it.
pub(crate) trait Make<const N: usize>: Copy {
    ghost Meaning: { Type 0 };

    ghost means: { Self → Meaning };

    // a tag just made of an image and a draw number
    ghost new: { List ℕ → ℕ → Meaning };

    // what forbids it
    ghost made: { List ℕ → ℕ → Result Meaning ℕ };

    // A tag of zero pages.
    fn blank(draw: u16) -> Self
        ensures { means result ≡ new (replicate N 0) draw };

    fn from_image(image: &[u8], draw: u16) -> Result<Self, Refusal>
        ensures { outcome means result ≡ made image.now draw };
}

impl Make<256> for PumpTag {
    ghost Meaning = { PumpMeaning };

    ghost means = { pump_means };

    ghost new = { new_pump };

    ghost made = { pump_made };

    fn blank(draw: u16) -> PumpTag {
        PumpTag::blank(draw)
    }

    fn from_image(image: &[u8], draw: u16) -> Result<PumpTag, Refusal> {
        PumpTag::from_image(image, draw)
    }
}

impl Make<16> for GaugeTag {
    ghost Meaning = { GaugeMeaning };

    ghost means = { gauge_means };

    ghost new = { new_gauge };

    ghost made = { gauge_made };

    fn blank(draw: u16) -> GaugeTag {
        GaugeTag::blank(draw)
    }

    fn from_image(image: &[u8], draw: u16) -> Result<GaugeTag, Refusal> {
        GaugeTag::from_image(image, draw)
    }
}
