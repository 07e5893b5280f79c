// Block Mine's calls for C. Each is refused for a byte that is no flag, with the state as it came; else it gives what the public call gives.
ghost use Rattle.std.specs.Prelude.{◌≡◌, take, Err};
ghost use Rattle.refusal.specs.Refusal.{refused_or, numbered_of};
ghost use Rattle.mine_rules.specs.Load.{loaded};
ghost use Rattle.mine_pass.specs.Pass.{pass_at};
ghost use Rattle.mine.specs.Calls.{move_call, gravity_call, tick_call};
ghost use Rattle.mine.specs.Picture.{picture_of};
ghost use Rattle.mine.specs.Question.{who_at};
ghost use Rattle.host_state.specs.Mine.{flags_of, game_of, host_of};
ghost use Rattle.host.specs.Plain.{found_of, picture_out};
ghost use Rattle.host.specs.Mine.{answer_out, turn_out, refused, refused_pass, hosted, hosted_pass};

use crate::plain_calls::HostFound;
use answer::Answer;
use host_state::{HostMine, mine_flags, mine_game, mine_host};
use mine::MineAnswer;
use mine_pass::MineTurn;
use mine_state::{Enemy, MAX_ENEMIES};
use pace::Pace;
use refusal::{Checked, Numbered, Refusal};

#[repr(C)]
#[derive(Clone, Copy)]
pub struct HostMineAnswer {
    pub refusal: Numbered,
    pub game: HostMine,
}

#[repr(C)]
#[derive(Clone, Copy)]
pub struct HostMinePassed {
    pub refusal: Numbered,
    pub answer: u8,
    pub marks: Pace,
    pub game: HostMine,
}

// The list of a question: the first `count` of these, all of them where it is more.
#[repr(C)]
#[derive(Clone, Copy)]
pub struct HostEnemies {
    pub enemies: [Enemy; MAX_ENEMIES],
    pub count: usize,
}

impl HostMineAnswer {
    // A refused call gives the state that it got.
    fn refused(h: HostMine, no: Refusal) -> HostMineAnswer
        ensures { result ≡ refused h (Err no) }
    {
        HostMineAnswer {
            refusal: Numbered::from(Err(no)),
            game: h,
        }
    }
}

impl From<MineAnswer> for HostMineAnswer {
    ghost from_gives = { λ a h. h ≡ answer_out a };

    fn from(a: MineAnswer) -> HostMineAnswer {
        HostMineAnswer {
            refusal: Numbered::from(a.refusal),
            game: mine_host(a.game),
        }
    }
}

impl HostMinePassed {
    // A refused pass goes on, with the state and the marks that it got.
    fn refused(h: HostMine, marks: Pace, no: Refusal) -> HostMinePassed
        ensures { result ≡ refused_pass h marks (Err no) }
    {
        HostMinePassed {
            refusal: Numbered::from(Err(no)),
            answer: answer::number(Answer::GoingOn),
            marks,
            game: h,
        }
    }
}

impl From<MineTurn> for HostMinePassed {
    ghost from_gives = { λ t h. h ≡ turn_out t };

    fn from(t: MineTurn) -> HostMinePassed {
        let MineTurn {
            first,
            second,
            passed,
        } = t;
        HostMinePassed {
            refusal: Numbered::from(passed.refusal),
            answer: answer::number(passed.answer),
            marks: Pace { first, second },
            game: mine_host(passed.game),
        }
    }
}

// The loaded mine.
#[unsafe(no_mangle)]
pub extern "C" fn sumbadger_mine_load() -> HostMine
    ensures { result ≡ host_of loaded }
{
    mine_host(mine::load())
}

// A move: 0 up, 1 right, 2 down, 3 left.
#[unsafe(no_mangle)]
#[tactic(auto, unfolding(crate::specs::Mine::hosted))]
pub extern "C" fn sumbadger_mine_step_player(h: HostMine, dir: u8) -> HostMineAnswer
    ensures { result ≡ hosted h (move_call (game_of h) dir) }
{
    if let Err(no) = mine_flags(h) {
        return HostMineAnswer::refused(h, no);
    }
    HostMineAnswer::from(mine::step_player(mine_game(h), dir))
}

// One gravity tick.
#[unsafe(no_mangle)]
#[tactic(auto, unfolding(crate::specs::Mine::hosted))]
pub extern "C" fn sumbadger_mine_gravity(h: HostMine) -> HostMineAnswer
    ensures { result ≡ hosted h (gravity_call (game_of h)) }
{
    if let Err(no) = mine_flags(h) {
        return HostMineAnswer::refused(h, no);
    }
    HostMineAnswer::from(mine::gravity(mine_game(h)))
}

// One creature tick.
#[unsafe(no_mangle)]
#[tactic(auto, unfolding(crate::specs::Mine::hosted))]
pub extern "C" fn sumbadger_mine_move_enemies(h: HostMine) -> HostMineAnswer
    ensures { result ≡ hosted h (tick_call (game_of h)) }
{
    if let Err(no) = mine_flags(h) {
        return HostMineAnswer::refused(h, no);
    }
    HostMineAnswer::from(mine::move_enemies(mine_game(h)))
}

// A pass: takes the marks, and gives them.
#[unsafe(no_mangle)]
#[tactic(auto, unfolding(crate::specs::Mine::hosted_pass))]
pub extern "C" fn sumbadger_mine_pass(
    h: HostMine,
    keys: &[u8],
    time: u32,
    marks: Pace,
) -> HostMinePassed
    ensures { result ≡ hosted_pass h marks (pass_at (game_of h) keys.now time marks.first marks.second) }
{
    if let Err(no) = mine_flags(h) {
        return HostMinePassed::refused(h, marks, no);
    }
    HostMinePassed::from(mine::pass_marks(mine_game(h), keys, time, marks.first, marks.second))
}

fn drawn(h: HostMine, frame: &mut [u8]) -> Checked
    ensures { (result, frame.new) ≡ refused_or (flags_of h) (λ n. (n, frame.old)) (picture_of (game_of h) frame.old) }
{
    mine_flags(h)?;
    mine::render(mine_game(h), frame)
}

// The picture; a refused call leaves every byte of the frame.
#[unsafe(no_mangle)]
pub extern "C" fn sumbadger_mine_render(h: HostMine, frame: &mut [u8]) -> Numbered
    ensures { (result, frame.new) ≡ picture_out (refused_or (flags_of h) (λ n. (n, frame.old)) (picture_of (game_of h) frame.old)) }
{
    Numbered::from(drawn(h, frame))
}

// Who is at (x, y).
#[unsafe(no_mangle)]
pub extern "C" fn sumbadger_mine_who(list: HostEnemies, x: usize, y: usize) -> HostFound
    ensures { result ≡ found_of (who_at (take list.count list.enemies) x y) }
{
    HostFound::from(mine::who_of(list.enemies, list.count, x, y))
}
