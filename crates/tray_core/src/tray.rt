// The tray: two rows and the field.
ghost use Rattle.std.specs.Prelude.{◌≡◌, ℕ, false, if◌then◌else◌, List, map, Ok, MatchResult};
ghost use Rattle.std.specs.Borrow.{sem};
ghost use Rattle.refusals.specs.declared.Refusal.{Refusal};
ghost use Rattle.kinds.specs.Kinds.{Meaning};
ghost use Rattle.tray_core.specs.Hiding.{Hiding};
ghost use Rattle.tray_core.specs.Lending.{LendsRows};
ghost use Rattle.tray_core.specs.Loading.{Loads};
ghost use Rattle.tray_core.specs.Step.{Stepped, step, On, Off, Place, Lift};
ghost use Rattle.tray_core.specs.Steps.{Steps};
ghost use Rattle.tray_core.specs.Trays.{Model, loaded_with, rows_fit, turned_on, turned_off, after_frame, sounds_of};
ghost use Rattle.tray_core.specs.Views.{model_of, rows_of, sounds_in};

use crate::calls::Answer;
use crate::row::{Row, TooLong};
use crate::sounds::Sounds;
use kinds::kind::Kind;
use refusals::Refusal;
use typeb::received::Received;

// A front row, a back row and the field.
#[derive(Drop)]
pub(crate) struct Rows<F, B> {
    front: Row<F>,
    back: Row<B>,
    field: bool,
}

// A tray knows from its loading whether its rows fit. It has no impl Model: that could not name what the tags of a kind mean.
#[derive(Drop)]
pub struct Tray<F, B> {
    rows: Result<Rows<F, B>, TooLong<F, B>>,
}

impl<F: Kind, B: Kind> Rows<F, B> {
    // Puts a frame on the air: it is read once, and every tag with power hears it. Answers what a reader hears.
    pub(crate) fn air(&mut self, frame: &[u8]) -> Sounds
        ensures after { rows_of F.Kind.means B.Kind.means self.new ≡ after_frame F.Kind.acts B.Kind.acts frame.now (rows_of F.Kind.means B.Kind.means self.old) }
        ensures sounds { sounds_in result ≡ sounds_of F.Kind.acts B.Kind.acts frame.now (rows_of F.Kind.means B.Kind.means self.old) }
    {
        if !self.field {
            return Sounds::Silence;
        }
        let received = Received::new(frame);
        let front = self.front.hear(&received, Sounds::Silence);
        self.back.hear(&received, front)
    }

    // The field on or off: the tags on the tray gain power, or lose it. A repeated call changes nothing.
    fn switch(&mut self, on: bool)
        ensures { rows_of F.Kind.means B.Kind.means self.new ≡ (if on then turned_on F.Kind.acts B.Kind.acts (rows_of F.Kind.means B.Kind.means self.old) else turned_off F.Kind.acts B.Kind.acts (rows_of F.Kind.means B.Kind.means self.old)) }
    {
        if self.field == on {
            return;
        }
        self.front.power(on);
        self.back.power(on);
        self.field = on;
    }

    // A tag put on the tray or lifted off it.
    #[tactic(auto, using(crate::proofs::Asked::fitting))]
    fn move_tag(&mut self, n: usize, here: bool) -> Result<Answer, Refusal>
        ensures { (b : List ℕ) (l : List (List ℕ)) → Stepped (step F.Kind.acts B.Kind.acts (if here then Place n else Lift n) (rows_of F.Kind.means B.Kind.means self.old) b l) result (rows_of F.Kind.means B.Kind.means self.new) b l }
    {
        if n < self.front.len() {
            self.front.move_tag(n, here, self.field);
        } else if n >= 32 && n - 32 < self.back.len() {
            self.back.move_tag(n - 32, here, self.field);
        } else {
            return Err(Refusal::NoSuchTag);
        }
        Ok(Answer::Done)
    }
}

impl<F: Kind, B: Kind> Tray<F, B> {
    // A tray of tags just made: all of them on the tray, each in the place of its number, the field off, clause `loads`.
    // Of every tray of these kinds, in any state: what refuses a call, what is heard, what it makes of every tag and what a stock is,
    // clause `steps`; no sequence of calls shows what a closed tag hides, clause `hiding`.
    #[tactic(auto, using(crate::proofs::Stepping::steps, crate::proofs::Loaded::loads))]
    pub fn load(front: Vec<F>, back: Vec<B>) -> Tray<F, B>
        ensures result { model_of F.Kind.means B.Kind.means result ≡ loaded_with (map F.Kind.means front.items) (map B.Kind.means back.items) }
        ensures loads { (fs : List (Meaning F.Kind.Shown F.Kind.Hidden)) (bs : List (Meaning B.Kind.Shown B.Kind.Hidden)) → Loads fs bs }
        ensures steps { (t : Model F.Kind.Shown F.Kind.Hidden B.Kind.Shown B.Kind.Hidden) (b : List ℕ) (l : List (List ℕ)) → Steps F.Kind.acts B.Kind.acts t b l }
        ensures hiding { Hiding F.Kind.acts B.Kind.acts }
    {
        if front.len() > 32 || back.len() > 32 {
            return Tray {
                rows: Err(TooLong { front, back }),
            };
        }
        Tray {
            rows: Ok(Rows {
                front: Row::new(front),
                back: Row::new(back),
                field: false,
            }),
        }
    }

    // The rows, where they fit. The match stays: `as_mut` lends the error too, and no clause says what is left after it.
    pub(crate) fn fitting(&mut self) -> Result<&mut Rows<F, B>, Refusal>
        ensures* lends { sem 𝓛 (LendsRows F.row B.row self.entry result) }
        ensures rows { MatchResult result (λ rows. self.old.rows ≡ Ok rows.now) (λ why. (why ≡ Refusal.RowTooLong) × (rows_fit (model_of F.Kind.means B.Kind.means self.old) ≡ false)) }
    {
        match &mut self.rows {
            Ok(rows) => Ok(rows),
            Err(_) => Err(Refusal::RowTooLong),
        }
    }

    // The field on: the tags on the tray gain power.
    #[tactic(auto, using(crate::proofs::Asked::fitting))]
    pub fn on(&mut self) -> Result<Answer, Refusal>
        ensures { (b : List ℕ) (l : List (List ℕ)) → Stepped (step F.Kind.acts B.Kind.acts On (model_of F.Kind.means B.Kind.means self.old) b l) result (model_of F.Kind.means B.Kind.means self.new) b l }
    {
        self.fitting()?.switch(true);
        Ok(Answer::Done)
    }

    // The field off: the tags on the tray lose power.
    #[tactic(auto, using(crate::proofs::Asked::fitting))]
    pub fn off(&mut self) -> Result<Answer, Refusal>
        ensures { (b : List ℕ) (l : List (List ℕ)) → Stepped (step F.Kind.acts B.Kind.acts Off (model_of F.Kind.means B.Kind.means self.old) b l) result (model_of F.Kind.means B.Kind.means self.new) b l }
    {
        self.fitting()?.switch(false);
        Ok(Answer::Done)
    }

    // A tag put on the tray.
    pub fn place(&mut self, n: usize) -> Result<Answer, Refusal>
        ensures { (b : List ℕ) (l : List (List ℕ)) → Stepped (step F.Kind.acts B.Kind.acts (Place n) (model_of F.Kind.means B.Kind.means self.old) b l) result (model_of F.Kind.means B.Kind.means self.new) b l }
    {
        self.fitting()?.move_tag(n, true)
    }

    // A tag lifted off the tray.
    pub fn lift(&mut self, n: usize) -> Result<Answer, Refusal>
        ensures { (b : List ℕ) (l : List (List ℕ)) → Stepped (step F.Kind.acts B.Kind.acts (Lift n) (model_of F.Kind.means B.Kind.means self.old) b l) result (model_of F.Kind.means B.Kind.means self.new) b l }
    {
        self.fitting()?.move_tag(n, false)
    }
}
