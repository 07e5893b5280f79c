// The calls on plain numbers: the start of the pacing record, and a page.
ghost use Rattle.std.specs.Prelude.{◌≡◌};
ghost use Rattle.pace.specs.Pace.{started};
ghost use Rattle.host.specs.Plain.{found_of, page_at};

use found::Found;
use frame::{FRAME_LEN, PAGE_LEN, PAGES};
use pace::Pace;

// Who is at a cell: found 1, the index of the first and the number there, or found 0, index 0 and number 0.
#[repr(C)]
#[derive(Clone, Copy)]
pub struct HostFound {
    pub found: u8,
    pub index: usize,
    pub number: usize,
}

// A part of the caller's own frame.
#[repr(C)]
#[derive(Clone, Copy)]
pub struct HostPage {
    pub start: usize,
    pub length: usize,
}

// The answer to 'who is there' in numbers.
impl From<Option<Found>> for HostFound {
    ghost from_gives = { λ f h. h ≡ found_of f };

    fn from(found: Option<Found>) -> HostFound {
        match found {
            Some(Found { index, number }) => HostFound {
                found: 1,
                index,
                number,
            },
            None => HostFound {
                found: 0,
                index: 0,
                number: 0,
            },
        }
    }
}

// The pacing record of a first reading.
#[unsafe(no_mangle)]
pub extern "C" fn sumbadger_start(time: u32) -> Pace
    ensures { result ≡ started time }
{
    pace::start(time)
}

// Where page p stands in a frame of `size` bytes; start and length 0 for a number above 7 or a wrong length.
#[unsafe(no_mangle)]
#[tactic(auto, unfolding(crate::specs::Plain::page_at))]
pub extern "C" fn sumbadger_page(size: usize, p: usize) -> HostPage
    ensures { result ≡ page_at size p }
{
    if (size == FRAME_LEN) & (p < PAGES) {
        return HostPage {
            start: p * PAGE_LEN,
            length: PAGE_LEN,
        };
    }
    HostPage {
        start: 0,
        length: 0,
    }
}
