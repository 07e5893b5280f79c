// The frame: eight pages of 128 bytes.
#![tactic(auto)]

ghost use Rattle.std.specs.Prelude.{◌≡◌};
ghost use Rattle.frame.specs.Frame.{page_of};

pub const PAGES: usize = 8;

pub const PAGE_LEN: usize = 128;

pub const FRAME_LEN: usize = 1024;

// Page p of the caller's own frame; the empty part for a number above 7 or a wrong length.
#[tactic(auto, unfolding(crate::specs::Frame::page_of))]
pub fn page(frame: &[u8], p: usize) -> &[u8]
    ensures { result.now ≡ page_of frame.now p }
{
    if frame.len() != FRAME_LEN || PAGES <= p {
        return &frame[..0];
    }
    let start = p * PAGE_LEN;
    &frame[start..start + PAGE_LEN]
}
