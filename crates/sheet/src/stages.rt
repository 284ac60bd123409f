// Where a run stands, and what lines do.
ghost use Rattle.std.specs.Prelude.{◌≡◌, IfOk};
ghost use Rattle.sheet.specs.Lines.{order_asks};
ghost use Rattle.sheet.specs.Sheets.{Calling, named, paged, called, line_does, tray_in};
ghost use Rattle.sheet.specs.Views.{stage_of, tray_of, CameBy, NamedBy, QuietBy};

use crate::faults::LineFault;
use crate::lines::{Line, Order, read_line};
use crate::naming::Named;
use crate::printing::Answered;
use crate::stops::LineStop;
use crate::words::TagKind;
use handling::handle;
use std::alloc::{AllocError, Global};
use tags::gauge::GaugeTag;
use tags::pump::PumpTag;
use tray_core::calls::Call;
use tray_core::tray::Tray;

#[derive(Drop)]
pub(crate) enum Stage {
    // before the first call
    Naming(Named),
    Calling(Tray<PumpTag, GaugeTag>),
}

impl Stage {
    // The tags that are named, before the first call.
    fn into_named(self) -> Result<Named, LineFault>
        ensures { NamedBy result (stage_of self) }
    {
        match self {
            Stage::Naming(named) => Ok(named),
            Stage::Calling(_) => Err(LineFault::TagAfterCall),
        }
    }

    // The tray, loaded at the first call.
    fn into_tray(self, heap: Global) -> Result<Tray<PumpTag, GaugeTag>, AllocError>
        ensures { IfOk result (λ tray. tray_of tray ≡ tray_in (stage_of self)) }
    {
        match self {
            Stage::Naming(named) => named.load(heap),
            Stage::Calling(tray) => Ok(tray),
        }
    }

    fn name_tag(self, kind: TagKind, draw: u16) -> Result<Stage, LineStop>
        ensures { QuietBy result (named kind draw (stage_of self)) }
    {
        let mut named = self.into_named()?;
        named.add(kind, draw)?;
        Ok(Stage::Naming(named))
    }

    fn set_page(self, tag: usize, page: usize, bytes: [u8; 8]) -> Result<Stage, LineStop>
        ensures { QuietBy result (paged tag page bytes (stage_of self)) }
    {
        let mut named = self.into_named()?;
        named.set_page(tag, page, bytes)?;
        Ok(Stage::Naming(named))
    }

    fn make_call(
        self,
        heap: Global,
        number: usize,
        order: Order,
        text: &mut String,
    ) -> Result<Stage, LineStop>
        ensures { CameBy result text.old text.new
            (called number (order_asks order) (stage_of self)) }
    {
        let tray = self.into_tray(heap)?;
        call_tray(tray, number, order, text)
    }

    // Does the line with a number: what it prints goes behind the text.
    pub(crate) fn do_line(
        self,
        heap: Global,
        number: usize,
        line: &[u8],
        text: &mut String,
    ) -> Result<Stage, LineStop>
        ensures { CameBy result text.old text.new (line_does number line.now (stage_of self)) }
    {
        match read_line(line)? {
            Line::Tag(kind, draw) => self.name_tag(kind, draw),
            Line::Page(tag, page, bytes) => self.set_page(tag, page, bytes),
            Line::Calls(order) => self.make_call(heap, number, order, text),
        }
    }
}

// A call of the tray, and the lines that it prints behind the text.
fn call_tray(
    mut tray: Tray<PumpTag, GaugeTag>,
    number: usize,
    order: Order,
    text: &mut String,
) -> Result<Stage, LineStop>
    ensures { CameBy result text.old text.new
        (called number (order_asks order) (Calling (tray_of tray))) }
{
    let mut buffer = [0u8; 16];
    let mut list = [[0u8; 4]; 128];
    let answer = handle(&mut tray, Call::from(&order), &mut buffer, &mut list)?;
    let answered = Answered {
        number,
        answer,
        buffer: &buffer,
        list: &list,
    };
    write!(text, "{number},{answered}\n")?;
    Ok(Stage::Calling(tray))
}
