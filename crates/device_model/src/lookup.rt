//! The search for the page of a frame.

ghost use Rattle.std.specs.Prelude.{◌≡◌, ◌<◌, ◌==◌, true, length, slice_index};
ghost use Rattle.std.specs.List.{list_any};
ghost use Rattle.busdma_machine.specs.Machine.PageList.{page_frames};

use busdma_machine::Page;

/// Returns the place of the page of a frame. The page at `near` is tried first, because the next bytes of a
/// load are mostly there.
pub(crate) fn page_of(pages: &[Page], frame: u64, near: usize) -> usize
    requires { list_any (λ f. frame == f) (page_frames pages.now) ≡ true }
    ensures inside { result < length pages.now }
    ensures frame { slice_index (page_frames pages.now) result ≡ frame }
{
    if near < pages.len() && pages[near].frame() == frame {
        return near;
    }
    let mut place = 0;
    while pages[place].frame() != frame {
        place += 1;
    }
    place
}
