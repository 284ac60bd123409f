// A sheet is run.
ghost use Rattle.std.specs.Prelude.{◌≡◌, [], IfOk, MatchOption, string_bytes};
ghost use Rattle.sheet.specs.Cuts.{IsEnded, IsUnended};
ghost use Rattle.parts.specs.Parts.{parted};
ghost use Rattle.sheet.specs.SheetLines.{LinesDo, SheetLines};
ghost use Rattle.sheet.specs.Sheets.{Naming, before, refused_at, lines_run, run_of};
ghost use Rattle.sheet.specs.Sheets.{printed_of, refusal_of};
ghost use Rattle.sheet.specs.Played.{SheetPlays};
ghost use Rattle.sheet.specs.Printed.{Printed};
ghost use Rattle.sheet.specs.TagLines.{TagLines};
ghost use Rattle.sheet.specs.Views.{refused_by, refused_in, run_by, RanBy};
ghost use Rattle.sheet.specs.Worked.{WorkedSheets};

use crate::faults::LineFault;
use crate::naming::Named;
use crate::stages::Stage;
use crate::stops::{SheetFault, SheetStop};
use std::alloc::{AllocError, Global};

// The longest sheet, and the longest line before its LF.
const SHEET_MOST: usize = 65536;

const LINE_MOST: usize = 79;

// A run: all that is printed, and why the sheet was refused, if it was.
#[derive(Drop)]
pub struct Ran {
    pub text: String,
    pub fault: Option<SheetFault>,
}

// What stands before the LF that ends a line; none where no LF is among its first 80 bytes.
fn ended(line: &[u8]) -> Option<&[u8]>
    ensures { MatchOption result (IsUnended line.now) (λ front. IsEnded line.now front.now) }
{
    match line {
        [front @ .., b'\n'] if front.len() <= LINE_MOST => Some(front),
        _ => None,
    }
}

// Runs the lines of a sheet: what they print goes behind the text, also where a line stops the run.
fn run_lines(heap: Global, sheet: &[u8], text: &mut String) -> Result<(), SheetStop>
    ensures { RanBy result text.new
        (before (string_bytes text.old) (lines_run 1 (Naming [] []) (parted 10 sheet.now))) }
{
    let mut stage = Stage::Naming(Named::new(heap));
    for (i, line) in sheet.split_inclusive(|c| *c == b'\n').enumerate() {
        let number = i + 1;
        let line = ended(line).ok_or(SheetFault::Line(number, LineFault::Unended))?;
        stage = stage
            .do_line(heap, number, line, text)
            .map_err(|stop| stop.at(number))?;
    }
    Ok(())
}

// The same of a whole sheet, which may be too long.
fn run_whole(heap: Global, sheet: &[u8], text: &mut String) -> Result<(), SheetStop>
    ensures { RanBy result text.new (before (string_bytes text.old) (run_of sheet.now)) }
{
    if sheet.len() > SHEET_MOST {
        return Err(SheetStop::from(SheetFault::TooLong));
    }
    run_lines(heap, sheet, text)
}

// A run that is refused: the refusal's line ends its text.
fn refuse(mut text: String, fault: SheetFault) -> Result<Ran, AllocError>
    ensures { IfOk result
        (λ ran. run_by ran ≡ before (string_bytes text) (refused_at (refused_by fault))) }
{
    let number = fault.line();
    let why = fault.number();
    write!(text, "{number},refused,{why}\n")?;
    Ok(Ran {
        text,
        fault: Some(fault),
    })
}

// Runs a sheet: the text that it prints, the line of a refusal included, and why it was refused, if
// it was. Want of memory is the only error. The text is that of the sheet's calls, put one after
// another, up to the first refusal, to a loaded tray as the law over every run means it: clause
// `calls`. Which lines a sheet runs, in which order, and where its run ends: clause `lines`; what
// each does: clause `each_line`; what tag and page lines change: clause `tags`; what is printed of an
// answer and of a refusal: clause `printing`. Sheets worked out by hand print what was worked out:
// clause `worked`.
#[tactic(auto, using(crate::proofs::Playing::sheet_plays, crate::proofs::SheetLines::sheet_lines, crate::proofs::SheetLines::lines_do, crate::proofs::TagLines::tag_lines, crate::proofs::Printed::printed, crate::proofs::Worked::worked_sheets))]
pub fn run_sheet(heap: Global, sheet: &[u8]) -> Result<Ran, AllocError>
    ensures printed { IfOk result (λ ran. string_bytes ran.text ≡ printed_of sheet.now) }
    ensures refused { IfOk result (λ ran. refused_in ran.fault ≡ refusal_of sheet.now) }
    ensures calls { SheetPlays sheet.now }
    ensures lines { SheetLines }
    ensures each_line { LinesDo }
    ensures tags { TagLines }
    ensures printing { Printed }
    ensures worked { WorkedSheets }
{
    let mut text = String::new(heap);
    match run_whole(heap, sheet, &mut text) {
        Ok(()) => Ok(Ran { text, fault: None }),
        Err(SheetStop::Fault(fault)) => refuse(text, fault),
        Err(SheetStop::Memory(e)) => Err(e),
    }
}
