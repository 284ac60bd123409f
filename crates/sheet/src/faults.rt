// What can be wrong with a line.
ghost use Rattle.std.specs.Prelude.{◌≡◌};
ghost use Rattle.refusals.specs.Numbers.{number};
ghost use Rattle.sheet.specs.Faults.{fault_number};
ghost use Rattle.sheet.specs.declared.faults.LineFault.TheVariants.{Field, Refused};

use fields::FieldFault;
use refusals::Refusal;

// A line that is not written or placed as lines are, or that is refused.
#[derive(Clone, Copy, PartialEq, Eq, Debug)]
pub enum LineFault {
    // no LF among the first 80 bytes
    Unended,
    UnknownWord,
    FieldCount,
    Field(FieldFault),
    // a tag or page line after the first call
    TagAfterCall,
    // a page line whose tag or page is not there
    NoSuchPage,
    // a tag that cannot be made so, or a call that the tray refuses
    Refused(Refusal),
}

// This and the others like it are written out: a derived `From` has no `from_gives`, which the
// clauses of callers read.
impl From<FieldFault> for LineFault {
    ghost from_gives = { λ e r. r ≡ Field e };

    fn from(fault: FieldFault) -> LineFault {
        LineFault::Field(fault)
    }
}

impl From<Refusal> for LineFault {
    ghost from_gives = { λ e r. r ≡ Refused e };

    fn from(why: Refusal) -> LineFault {
        LineFault::Refused(why)
    }
}

impl LineFault {
    // The refusal that a fault stands for.
    pub fn refusal(self) -> Refusal
        ensures { number result ≡ fault_number self }
    {
        match self {
            LineFault::Unended => Refusal::LineTooLong,
            LineFault::UnknownWord => Refusal::UnknownWord,
            LineFault::FieldCount => Refusal::FieldCount,
            LineFault::Field(_) => Refusal::FieldForm,
            LineFault::TagAfterCall => Refusal::TagAfterCall,
            LineFault::NoSuchPage => Refusal::NoSuchPage,
            LineFault::Refused(why) => why,
        }
    }
}
