// The calls on a state: each checks it once, and refuses it or plays.
ghost use Rattle.std.specs.Prelude.{◌≡◌, ◌≤◌, Err};
ghost use Rattle.cutter.specs.Calls.{zeros, refused, answered, made, round_call, level_call, direction_call, step_call, sweeps_call, enemies_call, respawn_call, report_call};
ghost use Rattle.cutter_ground.specs.Cells.{RING};
ghost use Rattle.cutter_state.specs.State.{share_of};

use controls::LEFT;
use cutter_check::check;
use cutter_ground::{
    CB_FILLED, CB_TRAIL, CN, INNER, MAX_ENEMIES, Mover, RING, black_count, count_of,
};
use cutter_level::{creatures_of, draws_ok};
use cutter_rules::Made;
use cutter_state::{Cutter, MAX_LIVES};
use refusal::{Checked, Refusal};

// The state afterwards, and how many cells were taken by the search of a closing and by the walk to the border.
#[derive(Clone, Copy)]
pub struct CutterAnswer {
    pub refusal: Checked,
    pub game: Cutter,
    pub searched: u16,
    pub walked: u16,
}

// How much of the ground is black, claimed and line, and the percentage of it that is no longer black.
#[derive(Clone, Copy)]
pub struct Ground {
    pub refusal: Checked,
    pub black: u16,
    pub claimed: u16,
    pub line: u16,
    pub share: u16,
}

impl CutterAnswer {
    // A refused call gives the state that it got.
    fn refused(c: Cutter, no: Refusal) -> CutterAnswer
        ensures { result ≡ refused c (Err no) }
    {
        CutterAnswer {
            refusal: Err(no),
            game: c,
            searched: 0,
            walked: 0,
        }
    }

    fn made(m: Made) -> CutterAnswer
        ensures { result ≡ made m }
    {
        CutterAnswer {
            refusal: Ok(()),
            game: m.game,
            searched: m.searched,
            walked: m.walked,
        }
    }

    fn answered(game: Cutter) -> CutterAnswer
        ensures { result ≡ answered game }
    {
        CutterAnswer {
            refusal: Ok(()),
            game,
            searched: 0,
            walked: 0,
        }
    }
}

// A round starts at this level.
const FIRST_LEVEL: u32 = 1;

fn no_state() -> Cutter
    ensures { result ≡ zeros }
{
    let nobody = Mover {
        x: 0,
        y: 0,
        vx: 0,
        vy: 0,
    };
    Cutter {
        grid: [0; CN],
        px: 0,
        py: 0,
        dx: 0,
        dy: 0,
        trailing: false,
        enemies: [nobody; MAX_ENEMIES],
        count: 0,
        level: 0,
        lives: 0,
        dead: false,
        won_level: false,
    }
}

// A new round: level 1, 3 lives, 4 draws.
#[tactic(auto, unfolding(crate::specs::Calls::round_call))]
pub fn new_round(draws: &[u8]) -> CutterAnswer
    ensures { result ≡ round_call draws.now }
{
    let mut c = no_state();
    if draws_ok(draws, creatures_of(FIRST_LEVEL)) {
        c.level = FIRST_LEVEL;
        c.lives = MAX_LIVES;
        return CutterAnswer::answered(cutter_level::new_level(c, draws));
    }
    CutterAnswer::refused(c, Refusal::Draws)
}

// A fresh level for the state's own level.
#[tactic(auto, unfolding(crate::specs::Calls::level_call))]
pub fn new_level(c: Cutter, draws: &[u8]) -> CutterAnswer
    ensures { result ≡ level_call c draws.now }
{
    if let Err(no) = check(c) {
        return CutterAnswer::refused(c, no);
    }
    if draws_ok(draws, creatures_of(c.level)) {
        return CutterAnswer::answered(cutter_level::new_level(c, draws));
    }
    CutterAnswer::refused(c, Refusal::Draws)
}

// The direction: 0 up, 1 right, 2 down, 3 left.
#[tactic(auto, unfolding(crate::specs::Calls::direction_call))]
pub fn direction(c: Cutter, dir: u8) -> CutterAnswer
    ensures { result ≡ direction_call c dir }
{
    if let Err(no) = check(c) {
        return CutterAnswer::refused(c, no);
    }
    if LEFT < dir {
        return CutterAnswer::refused(c, Refusal::Command);
    }
    CutterAnswer::answered(cutter_moves::direction(c, dir))
}

// One step in the direction.
#[tactic(auto, unfolding(crate::specs::Calls::step_call))]
pub fn step_player(c: Cutter) -> CutterAnswer
    ensures { result ≡ step_call c }
{
    if let Err(no) = check(c) {
        return CutterAnswer::refused(c, no);
    }
    CutterAnswer::made(cutter_moves::step_player(c))
}

// One step in the direction; a cut is closed by sweeps.
#[tactic(auto, unfolding(crate::specs::Calls::sweeps_call))]
pub fn step_by_sweeps(c: Cutter) -> CutterAnswer
    ensures { result ≡ sweeps_call c }
{
    if let Err(no) = check(c) {
        return CutterAnswer::refused(c, no);
    }
    CutterAnswer::made(cutter_moves::step_by_sweeps(c))
}

// One creature tick.
#[tactic(auto, unfolding(crate::specs::Calls::enemies_call))]
pub fn step_enemies(c: Cutter) -> CutterAnswer
    ensures { result ≡ enemies_call c }
{
    if let Err(no) = check(c) {
        return CutterAnswer::refused(c, no);
    }
    CutterAnswer::answered(cutter_moves::step_enemies(c))
}

// The line is black again, and the player back at the start.
#[tactic(auto, unfolding(crate::specs::Calls::respawn_call))]
pub fn respawn(c: Cutter) -> CutterAnswer
    ensures { result ≡ respawn_call c }
{
    if let Err(no) = check(c) {
        return CutterAnswer::refused(c, no);
    }
    CutterAnswer::made(cutter_moves::respawn(c))
}

fn share_of(claimed: u16) -> u16
    requires { RING ≤ claimed }
    ensures { result ≡ share_of claimed }
{
    ((claimed as usize - RING) * 100 / INNER) as u16
}

// The ground report.
#[tactic(auto, unfolding(crate::specs::Calls::report_call))]
pub fn ground_report(c: Cutter) -> Ground
    ensures { result ≡ report_call c }
{
    if let Err(no) = check(c) {
        return Ground {
            refusal: Err(no),
            black: 0,
            claimed: 0,
            line: 0,
            share: 0,
        };
    }
    let claimed = count_of(&c.grid, CB_FILLED);
    Ground {
        refusal: Ok(()),
        black: black_count(&c.grid),
        claimed,
        line: count_of(&c.grid, CB_TRAIL),
        share: share_of(claimed),
    }
}
