// The tags of the story.
ghost use Rattle.std.specs.Prelude.{◌≡◌, ◌++◌, replicate};
ghost use Rattle.refusals.specs.Numbers.{outcome};
ghost use Rattle.tags.specs.Gauge.{gauge_means};
ghost use Rattle.tags.specs.Making.{pump_made, gauge_made};
ghost use Rattle.tags.specs.Pump.{pump_means};
ghost use Rattle.scenario.specs.Images.{pump_image, gauge_image};

use refusals::Refusal;
use tags::gauge::GaugeTag;
use tags::pages::{PageBytes, set_page};
use tags::pump::PumpTag;
use typeb::frames::Serial;

pub const PASSWORD: PageBytes = [0xC0, 0xFF, 0xEE, 0x01, 0x02, 0x03, 0x04, 0x05];

// A page of four bytes, and zero for the rest.
fn page_of(bytes: [u8; 4]) -> PageBytes
    ensures { result ≡ bytes ++ replicate 4 0 }
{
    let mut page = [0; 8];
    page[0..4].copy_from_slice(&bytes);
    page
}

// A pump tag's pages: serial number, application data, the password on page 3 and user data on page 4.
fn pump_image(serial: Serial) -> [u8; 256]
    ensures { result ≡ pump_image serial }
{
    let mut image = [0u8; 256];
    // the image has each of these pages
    let _ = set_page(&mut image, 0, page_of(serial));
    let _ = set_page(&mut image, 1, page_of(*b"PUMP"));
    let _ = set_page(&mut image, 3, PASSWORD);
    let _ = set_page(&mut image, 4, *b"dose 5ml");
    image
}

// A gauge's pages: serial number and application data.
fn gauge_image(serial: Serial) -> [u8; 16]
    ensures { result ≡ gauge_image serial }
{
    let mut image = [0u8; 16];
    let _ = set_page(&mut image, 0, page_of(serial));
    let _ = set_page(&mut image, 1, page_of(*b"GAUG"));
    image
}

// Each kind has its own image, and makes its tags itself: a trait over both would be longer than the two functions.
pub fn pump_tag(serial: Serial, draw: u16) -> Result<PumpTag, Refusal>
    ensures { outcome pump_means result ≡ pump_made (pump_image serial) draw }
{
    PumpTag::from_image(&pump_image(serial), draw)
}

pub fn gauge_tag(serial: Serial, draw: u16) -> Result<GaugeTag, Refusal>
    ensures { outcome gauge_means result ≡ gauge_made (gauge_image serial) draw }
{
    GaugeTag::from_image(&gauge_image(serial), draw)
}
