// Block Cutter's calls for C. Each is refused for a byte that is no flag, with the state as it came; else it gives what the public call gives.
ghost use Rattle.std.specs.Prelude.{◌≡◌, take, Err};
ghost use Rattle.refusal.specs.Refusal.{refused_or};
ghost use Rattle.cutter_pass.specs.Pass.{pass_at};
ghost use Rattle.cutter.specs.Calls.{round_call, level_call, direction_call, step_call, sweeps_call, enemies_call, respawn_call, report_call, unreported};
ghost use Rattle.cutter.specs.Picture.{picture_of};
ghost use Rattle.cutter.specs.Question.{who_at};
ghost use Rattle.host_state.specs.Cutter.{flags_of, game_of};
ghost use Rattle.host.specs.Plain.{found_of, picture_out};
ghost use Rattle.host.specs.Cutter.{answer_out, turn_out, ground_out, refused, refused_pass, hosted, hosted_pass};

use crate::plain_calls::HostFound;
use answer::Answer;
use cutter::{CutterAnswer, Ground};
use cutter_ground::{MAX_ENEMIES, Mover};
use cutter_pass::CutterTurn;
use host_state::{HostCutter, cutter_flags, cutter_game, cutter_host};
use pace::Pace;
use refusal::{Checked, Numbered, Refusal};

#[repr(C)]
#[derive(Clone, Copy)]
pub struct HostCutterAnswer {
    pub refusal: Numbered,
    pub searched: u16,
    pub walked: u16,
    pub game: HostCutter,
}

#[repr(C)]
#[derive(Clone, Copy)]
pub struct HostCutterPassed {
    pub refusal: Numbered,
    pub answer: u8,
    pub searched: u16,
    pub walked: u16,
    pub marks: Pace,
    pub game: HostCutter,
}

#[repr(C)]
#[derive(Clone, Copy)]
pub struct HostGround {
    pub refusal: Numbered,
    pub black: u16,
    pub claimed: u16,
    pub line: u16,
    pub share: u16,
}

// The list of a question: the first `count` of these, all of them where it is more.
#[repr(C)]
#[derive(Clone, Copy)]
pub struct HostMovers {
    pub enemies: [Mover; MAX_ENEMIES],
    pub count: usize,
}

impl HostCutterAnswer {
    // A refused call gives the state that it got.
    fn refused(h: HostCutter, no: Refusal) -> HostCutterAnswer
        ensures { result ≡ refused h (Err no) }
    {
        HostCutterAnswer {
            refusal: Numbered::from(Err(no)),
            searched: 0,
            walked: 0,
            game: h,
        }
    }
}

impl From<CutterAnswer> for HostCutterAnswer {
    ghost from_gives = { λ a h. h ≡ answer_out a };

    fn from(a: CutterAnswer) -> HostCutterAnswer {
        HostCutterAnswer {
            refusal: Numbered::from(a.refusal),
            searched: a.searched,
            walked: a.walked,
            game: cutter_host(a.game),
        }
    }
}

impl HostCutterPassed {
    // A refused pass goes on, with the state and the marks that it got.
    fn refused(h: HostCutter, marks: Pace, no: Refusal) -> HostCutterPassed
        ensures { result ≡ refused_pass h marks (Err no) }
    {
        HostCutterPassed {
            refusal: Numbered::from(Err(no)),
            answer: answer::number(Answer::GoingOn),
            searched: 0,
            walked: 0,
            marks,
            game: h,
        }
    }
}

impl From<CutterTurn> for HostCutterPassed {
    ghost from_gives = { λ t h. h ≡ turn_out t };

    fn from(t: CutterTurn) -> HostCutterPassed {
        let CutterTurn {
            first,
            second,
            passed,
        } = t;
        HostCutterPassed {
            refusal: Numbered::from(passed.refusal),
            answer: answer::number(passed.answer),
            searched: passed.searched,
            walked: passed.walked,
            marks: Pace { first, second },
            game: cutter_host(passed.game),
        }
    }
}

impl From<Ground> for HostGround {
    ghost from_gives = { λ g h. h ≡ ground_out g };

    fn from(g: Ground) -> HostGround {
        HostGround {
            refusal: Numbered::from(g.refusal),
            black: g.black,
            claimed: g.claimed,
            line: g.line,
            share: g.share,
        }
    }
}

// A new round: level 1, 3 lives, 4 draws.
#[unsafe(no_mangle)]
pub extern "C" fn sumbadger_cutter_new_round(draws: &[u8]) -> HostCutterAnswer
    ensures { result ≡ answer_out (round_call draws.now) }
{
    HostCutterAnswer::from(cutter::new_round(draws))
}

// A fresh level for the state's own level.
#[unsafe(no_mangle)]
#[tactic(auto, unfolding(crate::specs::Cutter::hosted))]
pub extern "C" fn sumbadger_cutter_new_level(h: HostCutter, draws: &[u8]) -> HostCutterAnswer
    ensures { result ≡ hosted h (level_call (game_of h) draws.now) }
{
    if let Err(no) = cutter_flags(h) {
        return HostCutterAnswer::refused(h, no);
    }
    HostCutterAnswer::from(cutter::new_level(cutter_game(h), draws))
}

// The direction: 0 up, 1 right, 2 down, 3 left.
#[unsafe(no_mangle)]
#[tactic(auto, unfolding(crate::specs::Cutter::hosted))]
pub extern "C" fn sumbadger_cutter_direction(h: HostCutter, dir: u8) -> HostCutterAnswer
    ensures { result ≡ hosted h (direction_call (game_of h) dir) }
{
    if let Err(no) = cutter_flags(h) {
        return HostCutterAnswer::refused(h, no);
    }
    HostCutterAnswer::from(cutter::direction(cutter_game(h), dir))
}

// One step in the direction.
#[unsafe(no_mangle)]
#[tactic(auto, unfolding(crate::specs::Cutter::hosted))]
pub extern "C" fn sumbadger_cutter_step_player(h: HostCutter) -> HostCutterAnswer
    ensures { result ≡ hosted h (step_call (game_of h)) }
{
    if let Err(no) = cutter_flags(h) {
        return HostCutterAnswer::refused(h, no);
    }
    HostCutterAnswer::from(cutter::step_player(cutter_game(h)))
}

// One step in the direction; a cut is closed by sweeps.
#[unsafe(no_mangle)]
#[tactic(auto, unfolding(crate::specs::Cutter::hosted))]
pub extern "C" fn sumbadger_cutter_step_by_sweeps(h: HostCutter) -> HostCutterAnswer
    ensures { result ≡ hosted h (sweeps_call (game_of h)) }
{
    if let Err(no) = cutter_flags(h) {
        return HostCutterAnswer::refused(h, no);
    }
    HostCutterAnswer::from(cutter::step_by_sweeps(cutter_game(h)))
}

// One creature tick.
#[unsafe(no_mangle)]
#[tactic(auto, unfolding(crate::specs::Cutter::hosted))]
pub extern "C" fn sumbadger_cutter_step_enemies(h: HostCutter) -> HostCutterAnswer
    ensures { result ≡ hosted h (enemies_call (game_of h)) }
{
    if let Err(no) = cutter_flags(h) {
        return HostCutterAnswer::refused(h, no);
    }
    HostCutterAnswer::from(cutter::step_enemies(cutter_game(h)))
}

// The line is black again, and the player back at the start.
#[unsafe(no_mangle)]
#[tactic(auto, unfolding(crate::specs::Cutter::hosted))]
pub extern "C" fn sumbadger_cutter_respawn(h: HostCutter) -> HostCutterAnswer
    ensures { result ≡ hosted h (respawn_call (game_of h)) }
{
    if let Err(no) = cutter_flags(h) {
        return HostCutterAnswer::refused(h, no);
    }
    HostCutterAnswer::from(cutter::respawn(cutter_game(h)))
}

// A pass: takes the marks, and gives them.
#[unsafe(no_mangle)]
#[tactic(auto, unfolding(crate::specs::Cutter::hosted_pass))]
pub extern "C" fn sumbadger_cutter_pass(
    h: HostCutter,
    keys: &[u8],
    draws: &[u8],
    time: u32,
    marks: Pace,
) -> HostCutterPassed
    ensures { result ≡ hosted_pass h marks (pass_at (game_of h) keys.now draws.now time marks.first marks.second) }
{
    if let Err(no) = cutter_flags(h) {
        return HostCutterPassed::refused(h, marks, no);
    }
    HostCutterPassed::from(cutter::pass_marks(
        cutter_game(h),
        keys,
        draws,
        time,
        marks.first,
        marks.second,
    ))
}

fn drawn(h: HostCutter, frame: &mut [u8]) -> Checked
    ensures { (result, frame.new) ≡ refused_or (flags_of h) (λ n. (n, frame.old)) (picture_of (game_of h) frame.old) }
{
    cutter_flags(h)?;
    cutter::render(cutter_game(h), frame)
}

// The picture; a refused call leaves every byte of the frame.
#[unsafe(no_mangle)]
pub extern "C" fn sumbadger_cutter_render(h: HostCutter, frame: &mut [u8]) -> Numbered
    ensures { (result, frame.new) ≡ picture_out (refused_or (flags_of h) (λ n. (n, frame.old)) (picture_of (game_of h) frame.old)) }
{
    Numbered::from(drawn(h, frame))
}

fn reported(h: HostCutter) -> Ground
    ensures { result ≡ refused_or (flags_of h) unreported (report_call (game_of h)) }
{
    if let Err(no) = cutter_flags(h) {
        return Ground {
            refusal: Err(no),
            black: 0,
            claimed: 0,
            line: 0,
            share: 0,
        };
    }
    cutter::ground_report(cutter_game(h))
}

// The ground report; zeros where refused.
#[unsafe(no_mangle)]
pub extern "C" fn sumbadger_cutter_ground_report(h: HostCutter) -> HostGround
    ensures { result ≡ ground_out (refused_or (flags_of h) unreported (report_call (game_of h))) }
{
    HostGround::from(reported(h))
}

// Who is at (x, y).
#[unsafe(no_mangle)]
pub extern "C" fn sumbadger_cutter_who(list: HostMovers, x: usize, y: usize) -> HostFound
    ensures { result ≡ found_of (who_at (take list.count list.enemies) x y) }
{
    HostFound::from(cutter::who_of(list.enemies, list.count, x, y))
}
