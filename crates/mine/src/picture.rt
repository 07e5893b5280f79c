// The picture of a state.
ghost use Rattle.std.specs.Prelude.{◌≡◌};
ghost use Rattle.mine.specs.Picture.{picture_of};

use frame::FRAME_LEN;
use mine_check::check;
use mine_state::Mine;
use refusal::{Checked, Refusal};

// Draws the state into a lent frame; a refused call leaves every byte of it.
#[tactic(auto, unfolding(crate::specs::Picture::picture_of))]
pub fn render(m: Mine, frame: &mut [u8]) -> Checked
    ensures { (result, frame.new) ≡ picture_of m frame.old }
{
    check(m)?;
    if frame.len() != FRAME_LEN {
        return Err(Refusal::Frame);
    }
    mine_render::render(m, frame);
    Ok(())
}
