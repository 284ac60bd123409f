// The tags that a sheet names, before its first call.
ghost use Rattle.std.specs.Prelude.{◌≡◌, [], map, IfOk, OnOk};
ghost use Rattle.sheet.specs.Drafts.{tag_of};
ghost use Rattle.sheet.specs.Sheets.{Naming, Went, named, paged, tray_in};
ghost use Rattle.sheet.specs.Views.{named_stage, tray_of, PagedBy};

use crate::drafts::{Draft, GaugeDraft, PumpDraft, set_in_row};
use crate::faults::LineFault;
use crate::words::TagKind;
use std::alloc::{AllocError, Global};
use tags::gauge::GaugeTag;
use tags::pump::PumpTag;
use tray_core::tray::Tray;

// The tags that were named so far.
#[derive(Drop)]
pub(crate) struct Named {
    front: Vec<PumpDraft>,
    back: Vec<GaugeDraft>,
}

impl Named {
    // No tags.
    pub(crate) fn new(heap: Global) -> Named
        ensures { named_stage result ≡ Naming [] [] }
    {
        Named {
            front: Vec::new(heap),
            back: Vec::new(heap),
        }
    }

    // A tag of zero pages, next in its row.
    pub(crate) fn add(&mut self, kind: TagKind, draw: u16) -> Result<(), AllocError>
        ensures { OnOk result
            (named kind draw (named_stage self.old) ≡ Went [] (named_stage self.new)) }
    {
        match kind {
            TagKind::Pump => self.front.push(PumpDraft::blank(draw))?,
            TagKind::Gauge => self.back.push(GaugeDraft::blank(draw))?,
        }
        Ok(())
    }

    // A page of a tag is set: front tags are numbered from 0, back tags from 32.
    pub(crate) fn set_page(
        &mut self,
        tag: usize,
        page: usize,
        bytes: [u8; 8],
    ) -> Result<(), LineFault>
        ensures { PagedBy result self.new (paged tag page bytes (named_stage self.old)) }
    {
        if tag < 32 {
            set_in_row(self.front.as_mut_slice(), tag, page, bytes)
        } else {
            set_in_row(self.back.as_mut_slice(), tag - 32, page, bytes)
        }
    }

    // The tray with the tags that were named.
    pub(crate) fn load(&self, heap: Global) -> Result<Tray<PumpTag, GaugeTag>, AllocError>
        ensures { IfOk result (λ tray. tray_of tray ≡ tray_in (named_stage self.now)) }
    {
        let front = tags_of(heap, self.front.as_slice())?;
        let back = tags_of(heap, self.back.as_slice())?;
        Ok(Tray::load(front, back))
    }
}

// The tags of drafts.
fn tags_of<T: Copy, const N: usize>(
    heap: Global,
    drafts: &[Draft<T, N>],
) -> Result<Vec<T>, AllocError>
    ensures { IfOk result (λ tags. tags.items ≡ map tag_of drafts.now) }
{
    drafts.iter().map(Draft::made).collect(heap)
}
