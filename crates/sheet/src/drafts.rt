// Tags as a sheet names them, and their pages set.
ghost use Rattle.std.specs.Prelude.{◌≡◌, ◌/◌, map, cond, Err, nat_lt};
ghost use Rattle.sheet.specs.Drafts.{draft_of, drafted, left_by, repaged, row_paged, tag_of};
ghost use Rattle.sheet.specs.Drafts.{zeroed};

use crate::faults::LineFault;
use crate::making::Make;
use tags::gauge::GaugeTag;
use tags::pages::set_page;
use tags::pump::PumpTag;

// The image of a tag so far, its draw, and the tag made of both.
#[derive(Clone, Copy)]
pub struct Draft<T, const N: usize> {
    pub(crate) image: [u8; N],
    pub(crate) draw: u16,
    pub(crate) tag: T,
}

pub type PumpDraft = Draft<PumpTag, 256>;

pub type GaugeDraft = Draft<GaugeTag, 16>;

impl<T: Copy, const N: usize> Draft<T, N> {
    // The tag made of image and draw.
    pub(crate) fn made(&self) -> T
        ensures { result ≡ tag_of self.now }
    {
        self.tag
    }
}

impl<T: Make<N>, const N: usize> Draft<T, N> {
    // A tag of zero pages.
    pub(crate) fn blank(draw: u16) -> Draft<T, N>
        ensures { draft_of T.means result ≡ zeroed N T.new draw }
    {
        Draft {
            image: [0u8; N],
            draw,
            tag: T::blank(draw),
        }
    }

    // The tag made anew, with a page set.
    fn with_page(&self, page: usize, bytes: [u8; 8]) -> Result<Draft<T, N>, LineFault>
        ensures { drafted T.means result ≡ cond (nat_lt page (N / 8))
            (repaged T.made page bytes (draft_of T.means self.now)) (Err 18) }
    {
        let draw = self.draw;
        let mut image = self.image;
        set_page(&mut image, page, bytes).ok_or(LineFault::NoSuchPage)?;
        let tag = T::from_image(&image, draw)?;
        Ok(Draft { image, draw, tag })
    }
}

// A page of a tag in a row is set.
pub(crate) fn set_in_row<T: Make<N>, const N: usize>(
    row: &mut [Draft<T, N>],
    n: usize,
    page: usize,
    bytes: [u8; 8],
) -> Result<(), LineFault>
    ensures { left_by result (map (draft_of T.means) row.new)
        ≡ row_paged T.made (N / 8) n page bytes (map (draft_of T.means) row.old) }
{
    // by its number twice: the search did not find the row after a write through `get_mut`
    let draft = row
        .get(n)
        .ok_or(LineFault::NoSuchPage)?
        .with_page(page, bytes)?;
    row[n] = draft;
    Ok(())
}
