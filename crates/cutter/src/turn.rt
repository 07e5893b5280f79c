// One turn of the game's loop. The pacing record is lent to a pass, which updates it.
ghost use Rattle.std.specs.Prelude.{◌≡◌};
ghost use Rattle.cutter_pass.specs.Pass.{pass_at};
ghost use Rattle.cutter.specs.Turn.{pass_of};

use cutter_pass::{CutterPassed, CutterTurn};
use cutter_state::Cutter;
use cutter_turn::pass_at;
use pace::Pace;

// A pass with the record lent.
pub fn pass(c: Cutter, keys: &[u8], draws: &[u8], time: u32, pace: &mut Pace) -> CutterPassed
    ensures { (result, pace.new) ≡ pass_of c keys.now draws.now time pace.old }
{
    let t = pass_at(c, keys, draws, time, pace.first, pace.second);
    pace.first = t.first;
    pace.second = t.second;
    t.passed
}

// The same with the marks as numbers: makes the record, lends it, and takes it apart.
pub fn pass_marks(
    c: Cutter,
    keys: &[u8],
    draws: &[u8],
    time: u32,
    first: u32,
    second: u32,
) -> CutterTurn
    ensures { result ≡ pass_at c keys.now draws.now time first second }
{
    let mut pace = Pace { first, second };
    let passed = pass(c, keys, draws, time, &mut pace);
    CutterTurn {
        first: pace.first,
        second: pace.second,
        passed,
    }
}
