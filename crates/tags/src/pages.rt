// Pages of eight bytes, read and written whole.
ghost use Rattle.std.specs.Prelude.{◌≡◌, ◌+◌, ◌*◌, ◌≤◌, length, take, drop};
ghost use Rattle.tags.specs.Pages.{PageSet};

pub type PageBytes = [u8; 8];

// The first bytes of a page: all eight, or four, which of page 0 are the serial number, of page 1 the application data.
pub(crate) fn page_front<const N: usize>(memory: &[u8], n: usize) -> [u8; N]
    requires { 8 * n + N ≤ length memory.now }
    ensures { result ≡ take N (drop (8 * n) memory.now) }
{
    *memory[8 * n..].first_chunk::<N>().unwrap()
}

// Sets a page; none where the memory ends before it.
pub fn set_page(memory: &mut [u8], n: usize, page: PageBytes) -> Option<()>
    ensures { PageSet n page memory.old memory.new result }
{
    if n >= memory.len() / 8 {
        return None;
    }
    // copied in: the library says nothing of the memory after `as_chunks_mut`, and the search did not find it after `first_chunk_mut`
    memory[8 * n..8 * n + 8].copy_from_slice(&page);
    Some(())
}
