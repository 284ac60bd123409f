// The decoding of a text of lines.
ghost use Rattle.std.specs.Prelude.{◌≡◌, ◌++◌, IfOk, string_bytes, OnOk};
ghost use Rattle.decode.specs.Lines.{line_bytes};
ghost use Rattle.decode.specs.Report.{reported, faulted, reports_of, faults_of};
ghost use Rattle.decode.specs.Worked.{WorkedTexts};

use crate::faults::Fault;
use crate::lines::read_line;
use crate::report::report_line;
use std::alloc::{AllocError, Global};

// What a text gives: the reports of its lines, and the messages for lines that are no hex.
#[derive(Drop)]
pub struct Decoded {
    pub reports: String,
    pub faults: String,
}

impl Decoded {
    // Takes in one more line.
    fn add_line(
        &mut self,
        heap: Global,
        number: usize,
        line: &[u8],
        sealing: bool,
    ) -> Result<(), AllocError>
        ensures reports { OnOk result (string_bytes self.new.reports ≡ string_bytes self.old.reports ++ reported sealing (line_bytes line.now)) }
        ensures faults { OnOk result (string_bytes self.new.faults ≡ string_bytes self.old.faults ++ faulted number line.now (line_bytes line.now)) }
    {
        let Some(bytes) = read_line(heap, line)? else {
            let fault = Fault { number, line };
            let text = format!(in heap; "{fault}\n")?;
            return self.faults.push_str(text.as_str());
        };
        let text = report_line(heap, bytes, sealing)?;
        self.reports.push_str(text.as_str())
    }
}

// Decodes a text line by line. With `sealing` the bytes of each line are sealed first: a flag of the command line, which each
// definition takes too, so a closure for the step would be no plainer. Texts worked out by hand give what was worked out: clause
// `worked`.
#[tactic(auto, using(crate::proofs::Worked::worked_texts))]
pub fn decode_text(heap: Global, text: &[u8], sealing: bool) -> Result<Decoded, AllocError>
    ensures reports { IfOk result (λ d. string_bytes d.reports ≡ reports_of sealing text.now) }
    ensures faults { IfOk result (λ d. string_bytes d.faults ≡ faults_of text.now) }
    ensures worked { WorkedTexts }
{
    let mut decoded = Decoded {
        reports: String::new(heap),
        faults: String::new(heap),
    };
    for (i, line) in text.split(|c| *c == b'\n').enumerate() {
        decoded.add_line(heap, i + 1, line, sealing)?;
    }
    Ok(decoded)
}

#[cfg(test)]
mod tests {
    use super::*;
    use std::test::Fail;

    #[test]
    fn lines_that_are_no_hex(rt: HostRuntime) -> Result<(), Fail> {
        let decoded = decode_text(rt.alloc(), b"05 00 0\n\n0 5\n05g0\n050000\n", false)?;
        let faults = "line 1: not hex byte pairs, such as 05 00 00: 05 00 0\n\
            line 3: not hex byte pairs, such as 05 00 00: 0 5\n\
            line 4: not hex byte pairs, such as 05 00 00: 05g0\n";
        assert_eq!(rt; decoded.reports.as_str(), "050000 unsound: not heard\n");
        assert_eq!(rt; decoded.faults.as_str(), faults);
        Ok(())
    }

    #[test]
    fn bytes_that_are_no_text(rt: HostRuntime) -> Result<(), Fail> {
        let decoded = decode_text(rt.alloc(), b"\n\x00\xff~\x7f", false)?;
        let message = "line 2: not hex byte pairs, such as 05 00 00: \\x00\\xff~\\x7f\n";
        assert_eq!(rt; decoded.faults.as_str(), message);
        Ok(())
    }

    #[test]
    fn sealed_lines(rt: HostRuntime) -> Result<(), Fail> {
        let decoded = decode_text(rt.alloc(), b" 05\t00 00\r\n\n0A123456", true)?;
        let reports = "05000071ff sound: REQB, family 00, 1 slot\n0a1234562cf6 sound: not heard\n";
        assert_eq!(rt; decoded.reports.as_str(), reports);
        Ok(())
    }
}
