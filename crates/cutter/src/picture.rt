// The picture of a state.
ghost use Rattle.std.specs.Prelude.{◌≡◌};
ghost use Rattle.cutter.specs.Picture.{picture_of};

use cutter_check::check;
use cutter_render::cutter_render;
use cutter_state::Cutter;
use frame::FRAME_LEN;
use refusal::{Checked, Refusal};

// Draws the state into a lent frame; a refused call leaves every byte of it.
#[tactic(auto, unfolding(crate::specs::Picture::picture_of))]
pub fn render(c: Cutter, frame: &mut [u8]) -> Checked
    ensures { (result, frame.new) ≡ picture_of c frame.old }
{
    check(c)?;
    if frame.len() != FRAME_LEN {
        return Err(Refusal::Frame);
    }
    cutter_render(c, frame);
    Ok(())
}
