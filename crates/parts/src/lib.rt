// Texts that are cut at a mark.
#![tactic(auto)]

ghost use Rattle.std.specs.Prelude.{◌≡◌, ℕ, ◌∷◌, take};
ghost use Rattle.parts.specs.Parts.{parted, given, Cut, Parting};

// The fields of a line, as far as they are told apart: the first, and the first four of those behind it.
// Joined by commas all fields are the line, and there is one more than commas: clause `cut`.
// Nothing but a comma parts them; so it is with any mark: clause `parting`.
#[tactic(auto, using(crate::proofs::Parting::parting))]
pub fn split_fields(line: &[u8]) -> (&[u8], [Option<&[u8]>; 4])
    ensures result { result.0.now ∷ given result.1 ≡ take 5 (parted 44 line.now) }
    ensures cut { Cut 44 line.now }
    ensures parting { (mark : ℕ) → Parting mark }
{
    let mut fields = line.split(|c| *c == b',');
    let first = fields.next().unwrap_or(&[]);
    (
        first,
        [fields.next(), fields.next(), fields.next(), fields.next()],
    )
}
