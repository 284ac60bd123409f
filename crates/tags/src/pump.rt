// The pump tag, AT88RF020.
ghost use Rattle.std.specs.Prelude.{◌≡◌, ℕ, ◌%◌, false, List, replicate, Some, IfOk, is_ok};
ghost use Rattle.tags.specs.Conduct.{Conduct};
ghost use Rattle.refusals.specs.Numbers.{outcome};
ghost use Rattle.tags.specs.Making.{JustMade, new_pump, pump_made};
ghost use Rattle.tags.specs.Pages.{unlocked, counter_in};
ghost use Rattle.tags.specs.Judging.{AnswersJudged};
ghost use Rattle.tags.specs.Pump.{PumpSized, pump_holds, pump_means, page_of, with_page, pump_obeys};
ghost use Rattle.tags.specs.Pump.{pump_reads, pump_writes, pump_locks, pump_checks, pump_counts};
ghost use Rattle.kinds.specs.Reacts.{Reacted};
ghost use Rattle.kinds.specs.declared.said.Nack.TheVariants.{Locked, NotOpen};
ghost use Rattle.kinds.specs.Says.{granted, page_said, done_said};
ghost use Rattle.tags.specs.Guarded.{pump_duties};

use crate::link::Link;
use crate::linked::{Body, Linked};
use crate::pages::{PageBytes, page_front, set_page};
use crate::rights::{Reading, Writing, rights_of};
use kinds::hearing::Response;
use kinds::said::{Nack, Said};
use refusals::Refusal;
use typeb::frames::{Op, Serial};

// The page of serial number and lock bits, that of signature and counter, and the password.
const LOCK_PAGE: u8 = 0;

const COUNT_PAGE: u8 = 2;

const PASSWORD_PAGE: u8 = 3;

// The counter stops here.
const LAST_COUNT: u16 = 0x8000;

// What a pump tag holds beside its link.
#[derive(Clone, Copy)]
pub struct PumpPages {
    opened: bool,
    // 32 pages of eight bytes
    memory: [u8; 256],
}

pub type PumpTag = Linked<PumpPages>;

impl Linked<PumpPages> {
    // A tag just made, all of its pages zero.
    // How a pump tag conducts itself, whatever it holds, stands in clause `conduct`; that the reader's half judges whatever it
    // answers to exactly what it said, in clause `judged`.
    #[tactic(auto, using(crate::proofs::Conducts::conduct, crate::proofs::Judged::pump_judged))]
    pub fn blank(draw: u16) -> PumpTag
        ensures result { pump_means result ≡ new_pump (replicate 256 0) draw }
        ensures conduct { Conduct }
        ensures judged { AnswersJudged pump_obeys PumpSized }
        ensures made { JustMade (pump_means result) }
    {
        PumpTag::made([0u8; 256], draw)
    }

    fn made(memory: [u8; 256], draw: u16) -> PumpTag
        ensures { pump_means result ≡ new_pump memory draw }
    {
        Linked {
            link: Link::new(draw),
            body: PumpPages {
                opened: false,
                memory,
            },
        }
    }

    // A tag just made, with these pages.
    pub fn from_image(image: &[u8], draw: u16) -> Result<PumpTag, Refusal>
        ensures result { outcome pump_means result ≡ pump_made image.now draw }
        ensures made { IfOk result (λ tag. JustMade (pump_means tag)) }
    {
        let memory = image.as_array::<256>().ok_or(Refusal::ImageLength)?;
        let tag = PumpTag::made(*memory, draw);
        if !tag.is_unlocked(LOCK_PAGE) {
            return Err(Refusal::ImageLockBits);
        }
        if tag.counter() > LAST_COUNT {
            return Err(Refusal::ImageCounter);
        }
        Ok(tag)
    }

    // A page, by an address of which the low five bits count.
    #[tactic(auto, using(crate::proofs::Shown::page_shown))]
    fn page(&self, address: u8) -> PageBytes
        ensures { result ≡ page_of (address % 32) (pump_means self.now) }
    {
        page_front(&self.body.memory, (address % 32) as usize)
    }

    #[tactic(auto, using(crate::proofs::Shown::put_shown, crate::proofs::Shown::put_hidden))]
    fn set_page(&mut self, address: u8, page: PageBytes)
        ensures { pump_means self.new ≡ with_page (address % 32) page (pump_means self.old) }
    {
        // the memory has each of these pages
        let _ = set_page(&mut self.body.memory, (address % 32) as usize, page);
    }

    // The page's lock bit is clear.
    fn is_unlocked(&self, address: u8) -> bool
        ensures { result ≡ unlocked (address % 32) (page_of 0 (pump_means self.now)) }
    {
        let locks = self.page(LOCK_PAGE);
        let i = address % 32;
        (locks[(4 + i / 8) as usize] >> (i % 8)) % 2 == 0
    }

    fn counter(&self) -> u16
        ensures { result ≡ counter_in (page_of 2 (pump_means self.now)) }
    {
        let [.., low, high] = self.page(COUNT_PAGE);
        u16::from_le_bytes([low, high])
    }
}

// The data commands. Each asks its questions in order; a refusal leaves the tag as it was.
impl Linked<PumpPages> {
    fn ask_open(&self) -> Result<(), Nack>
        ensures { result ≡ granted (pump_means self.now).opened NotOpen }
    {
        if self.body.opened {
            Ok(())
        } else {
            Err(Nack::NotOpen)
        }
    }

    fn ask_unlocked(&self, address: u8) -> Result<(), Nack>
        ensures { result ≡ granted (unlocked (address % 32) (page_of 0 (pump_means self.now))) Locked }
    {
        if self.is_unlocked(address) {
            Ok(())
        } else {
            Err(Nack::Locked)
        }
    }

    fn read(&self, address: u8) -> Result<PageBytes, Nack>
        ensures { Reacted (pump_reads (address % 32) (pump_means self.now)) (pump_means self.now) (Some (page_said result)) false }
    {
        match rights_of(address).read {
            Reading::Never => Err(Nack::Invalid),
            Reading::WhenOpen if !self.body.opened => Err(Nack::NotOpen),
            Reading::WhenOpen | Reading::Always => Ok(self.page(address)),
        }
    }

    fn write(&mut self, address: u8, bytes: PageBytes) -> Result<(), Nack>
        ensures { Reacted (pump_writes (address % 32) bytes (pump_means self.old)) (pump_means self.new) (Some (done_said result)) false }
    {
        self.ask_open()?;
        if rights_of(address).write != Writing::WhenOpen {
            return Err(Nack::Invalid);
        }
        self.ask_unlocked(address)?;
        self.set_page(address, bytes);
        Ok(())
    }

    fn lock(&mut self, bytes: PageBytes) -> Result<(), Nack>
        ensures { Reacted (pump_locks bytes (pump_means self.old)) (pump_means self.new) (Some (done_said result)) false }
    {
        self.ask_open()?;
        let [s0, s1, s2, s3, l0, l1, l2, l3] = self.page(LOCK_PAGE);
        let [.., b0, b1, b2, b3] = bytes;
        // bit 0 would name the page of the lock bits itself
        let first = l0 | (b0 / 2 * 2);
        self.set_page(
            LOCK_PAGE,
            [s0, s1, s2, s3, first, l1 | b1, l2 | b2, l3 | b3],
        );
        Ok(())
    }

    // The password of all ones opens nothing; a check that fails closes the tag.
    fn check_password(&mut self, bytes: PageBytes) -> Result<(), Nack>
        ensures { Reacted (pump_checks bytes (pump_means self.old)) (pump_means self.new) (Some (done_said result)) (is_ok result) }
    {
        self.body.opened = bytes != [0xFF; 8] && bytes == self.page(PASSWORD_PAGE);
        self.ask_open()
    }

    fn count(&mut self, bytes: PageBytes) -> Result<(), Nack>
        ensures { Reacted (pump_counts bytes (pump_means self.old)) (pump_means self.new) (Some (done_said result)) false }
    {
        self.ask_open()?;
        self.ask_unlocked(COUNT_PAGE)?;
        let counter = self.counter();
        if counter >= LAST_COUNT {
            return Err(Nack::Invalid);
        }
        let [s0, s1, s2, s3, s4, s5, _, _] = bytes;
        let [low, high] = (counter + 1).to_le_bytes();
        self.set_page(COUNT_PAGE, [s0, s1, s2, s3, s4, s5, low, high]);
        Ok(())
    }
}

impl Body for PumpPages {
    ghost Hidden = { List ℕ };

    ghost holds = { pump_holds };

    ghost obeys = { pump_obeys };

    ghost duties = { pump_duties };

    fn serial(&self) -> Serial {
        page_front(&self.memory, 0)
    }

    fn application(&self) -> [u8; 4] {
        page_front(&self.memory, 1)
    }

    fn close(&mut self) {
        self.opened = false;
    }

    fn obey(tag: &mut PumpTag, op: Op, address: u8, bytes: PageBytes) -> Response {
        let said = match op {
            Op::Read => Said::from(tag.read(address)),
            Op::Write => Said::from(tag.write(address, bytes)),
            Op::Lock => Said::from(tag.lock(bytes)),
            Op::CheckPassword => {
                let checked = tag.check_password(bytes);
                return Response {
                    said: Some(Said::from(checked)),
                    accepted: checked.is_ok(),
                };
            }
            Op::Deselect => {
                tag.link.deselect();
                Said::Acknowledged
            }
            Op::Count => Said::from(tag.count(bytes)),
        };
        Response::of(Some(said))
    }
}
