// What stops a run.
ghost use Rattle.std.specs.Prelude.{◌≡◌};
ghost use Rattle.sheet.specs.declared.faults.LineFault.TheVariants.{Refused};
ghost use Rattle.sheet.specs.declared.stops.LineStop.TheVariants as line;
ghost use Rattle.sheet.specs.declared.stops.SheetStop.TheVariants as sheet;
ghost use Rattle.sheet.specs.Views.{refused_by, stop_at};

use crate::faults::LineFault;
use refusals::Refusal;
use std::alloc::AllocError;

// What stops a line: a fault of the line, or want of memory.
#[derive(Drop)]
pub(crate) enum LineStop {
    Fault(LineFault),
    Memory(AllocError),
}

// Written out, as those of LineFault: a derived `From` has no `from_gives`, which the clauses of
// callers read.
impl From<LineFault> for LineStop {
    ghost from_gives = { λ e r. r ≡ line.Fault e };

    fn from(fault: LineFault) -> LineStop {
        LineStop::Fault(fault)
    }
}

impl From<Refusal> for LineStop {
    ghost from_gives = { λ e r. r ≡ line.Fault (Refused e) };

    fn from(why: Refusal) -> LineStop {
        LineStop::Fault(LineFault::Refused(why))
    }
}

impl From<AllocError> for LineStop {
    ghost from_gives = { λ e r. r ≡ line.Memory e };

    fn from(e: AllocError) -> LineStop {
        LineStop::Memory(e)
    }
}

impl LineStop {
    // The same of a sheet whose line it is, by the line's number.
    pub(crate) fn at(self, number: usize) -> SheetStop
        ensures { result ≡ stop_at number self }
    {
        match self {
            LineStop::Fault(fault) => SheetStop::Fault(SheetFault::Line(number, fault)),
            LineStop::Memory(e) => SheetStop::Memory(e),
        }
    }
}

// Why a sheet is refused.
#[derive(Clone, Copy, PartialEq, Eq, Debug)]
pub enum SheetFault {
    // more than 65,536 bytes
    TooLong,
    // a line, by its number from 1
    Line(usize, LineFault),
}

impl SheetFault {
    // The line that the run stopped at, from 1; 0 for the sheet as a whole, as it is printed, so it
    // is no Option.
    pub fn line(self) -> usize
        ensures { result ≡ (refused_by self).line }
    {
        match self {
            SheetFault::TooLong => 0,
            SheetFault::Line(number, _) => number,
        }
    }

    // The refusal's number.
    pub fn number(self) -> u8
        ensures { result ≡ (refused_by self).why }
    {
        match self {
            SheetFault::TooLong => Refusal::SheetTooLong.number(),
            SheetFault::Line(_, fault) => fault.refusal().number(),
        }
    }
}

// What stops the run of a sheet: a fault of the sheet, or want of memory.
#[derive(Drop)]
pub(crate) enum SheetStop {
    Fault(SheetFault),
    Memory(AllocError),
}

impl From<SheetFault> for SheetStop {
    ghost from_gives = { λ e r. r ≡ sheet.Fault e };

    fn from(fault: SheetFault) -> SheetStop {
        SheetStop::Fault(fault)
    }
}
