// One turn of the game's loop. The pacing record is lent to a pass, which updates it.
ghost use Rattle.std.specs.Prelude.{◌≡◌};
ghost use Rattle.mine_pass.specs.Pass.{pass_at};
ghost use Rattle.mine.specs.Turn.{pass_of};

use mine_pass::{MinePassed, MineTurn};
use mine_state::Mine;
use mine_turn::pass_at;
use pace::Pace;

// A pass with the record lent.
pub fn pass(m: Mine, keys: &[u8], time: u32, pace: &mut Pace) -> MinePassed
    ensures { (result, pace.new) ≡ pass_of m keys.now time pace.old }
{
    let t = pass_at(m, keys, time, pace.first, pace.second);
    pace.first = t.first;
    pace.second = t.second;
    t.passed
}

// The same with the marks as numbers: makes the record, lends it, and takes it apart.
pub fn pass_marks(m: Mine, keys: &[u8], time: u32, first: u32, second: u32) -> MineTurn
    ensures { result ≡ pass_at m keys.now time first second }
{
    let mut pace = Pace { first, second };
    let passed = pass(m, keys, time, &mut pace);
    MineTurn {
        first: pace.first,
        second: pace.second,
        passed,
    }
}
