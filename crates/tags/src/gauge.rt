// The gauge tag: the states of the pump tag, two pages that anyone may read, and nothing hidden.
ghost use Rattle.std.specs.Prelude.{◌≡◌, ◌%◌, false, replicate, Some};
ghost use Rattle.tags.specs.Gauge.{GaugeSized, gauge_holds, gauge_means, gauge_reads, gauge_obeys};
ghost use Rattle.refusals.specs.Numbers.{outcome};
ghost use Rattle.tags.specs.Making.{new_gauge, gauge_made};
ghost use Rattle.kinds.specs.Reacts.{Reacted};
ghost use Rattle.kinds.specs.Says.{page_said};
ghost use Rattle.tags.specs.Guarded.{gauge_duties};
ghost use Rattle.tags.specs.GaugeConduct.{GaugeConduct};
ghost use Rattle.tags.specs.Judging.{AnswersJudged};

use crate::link::Link;
use crate::linked::{Body, Linked};
use crate::pages::{PageBytes, page_front};
use kinds::hearing::Response;
use kinds::said::{Nack, Said};
use refusals::Refusal;
use typeb::frames::{Op, Serial};

// What a gauge holds beside its link.
#[derive(Clone, Copy)]
pub struct GaugePages {
    // two pages of eight bytes
    memory: [u8; 16],
}

pub type GaugeTag = Linked<GaugePages>;

impl Linked<GaugePages> {
    // A tag just made, both of its pages zero. How a gauge conducts itself stands in clause `conduct`; that the reader's half
    // judges whatever it answers to exactly what it said, in clause `judged`.
    #[tactic(auto, using(crate::proofs::GaugeConducts::conduct, crate::proofs::Judged::gauge_judged))]
    pub fn blank(draw: u16) -> GaugeTag
        ensures result { gauge_means result ≡ new_gauge (replicate 16 0) draw }
        ensures conduct { GaugeConduct }
        ensures judged { AnswersJudged gauge_obeys GaugeSized }
    {
        GaugeTag::made([0u8; 16], draw)
    }

    fn made(memory: [u8; 16], draw: u16) -> GaugeTag
        ensures { gauge_means result ≡ new_gauge memory draw }
    {
        Linked {
            link: Link::new(draw),
            body: GaugePages { memory },
        }
    }

    // A tag just made, with these pages.
    pub fn from_image(image: &[u8], draw: u16) -> Result<GaugeTag, Refusal>
        ensures { outcome gauge_means result ≡ gauge_made image.now draw }
    {
        let memory = image.as_array::<16>().ok_or(Refusal::ImageLength)?;
        if memory[4..8] != [0u8; 4] {
            return Err(Refusal::ImageLockBits);
        }
        Ok(GaugeTag::made(*memory, draw))
    }

    fn read(&self, address: u8) -> Result<PageBytes, Nack>
        ensures { Reacted (gauge_reads (address % 32) (gauge_means self.now)) (gauge_means self.now) (Some (page_said result)) false }
    {
        let page = address % 32;
        if page >= 2 {
            return Err(Nack::Invalid);
        }
        Ok(page_front(&self.body.memory, page as usize))
    }
}

impl Body for GaugePages {
    ghost Hidden = { Unit {0} };

    ghost holds = { gauge_holds };

    ghost obeys = { gauge_obeys };

    ghost duties = { gauge_duties };

    fn serial(&self) -> Serial {
        page_front(&self.memory, 0)
    }

    fn application(&self) -> [u8; 4] {
        page_front(&self.memory, 1)
    }

    // A gauge is never open.
    fn close(&mut self) {}

    // Of the data commands READ and DESELECT alone are heard.
    fn obey(tag: &mut GaugeTag, op: Op, address: u8, _bytes: PageBytes) -> Response {
        match op {
            Op::Read => Response::of(Some(Said::from(tag.read(address)))),
            Op::Deselect => {
                tag.link.deselect();
                Response::of(Some(Said::Acknowledged))
            }
            Op::Write | Op::Lock | Op::CheckPassword | Op::Count => Response::of(None),
        }
    }
}
