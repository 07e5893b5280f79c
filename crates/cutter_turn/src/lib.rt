// One turn of Block Cutter's loop: what is left of it when keys, clock, draws and record are numbers.
#![tactic(auto)]

ghost use Rattle.std.specs.Prelude.{cond, ◌≡◌, ◌≤◌};
ghost use Rattle.controls.specs.Keys.{turned};
ghost use Rattle.cutter_rules.specs.Step.{directed};
ghost use Rattle.cutter_state.specs.WellFormed.{WellFormed};
ghost use Rattle.cutter_rules.specs.Tick.{enemies_stepped};
ghost use Rattle.cutter_turn.specs.CodeKeys.{Plays};
ghost use Rattle.cutter_pass.specs.Pass.{played, scored, level_due, level_refusal, pass_refusal, hurt, next_level, costing, after_death, after_keys, pass_at};
ghost use Rattle.cutter_pass.specs.CodePass.{NextLevel, step_if};

use answer::Answer;
use controls::{KEY_QUIT, dir_of};
use cutter_check::check;
use cutter_ground::black_count;
use cutter_level::{creatures_of, draws_ok, new_level};
use cutter_moves::{direction, respawn, step_enemies, step_player};
use cutter_pass::{CLEAR_BELOW, CUT_ENEMY_CYCLES, CUT_MOVE_CYCLES, CutterPassed, CutterTurn};
use cutter_rules::Made;
use cutter_state::{Cutter, MAX_LEVEL};
use pace::both_ticks;
use refusal::{Checked, Refusal};

#[tactic(auto, unfolding(cutter_pass::specs::Pass::level_due))]
fn level_due(c: Cutter) -> bool
    ensures { result ≡ level_due c }
{
    !c.dead && c.won_level
}

// The draws of the level that is due.
#[tactic(auto, unfolding(cutter_pass::specs::Pass::level_refusal))]
fn level_refusal(c: Cutter, draws: &[u8]) -> Checked
    requires { c.level ≤ MAX_LEVEL }
    ensures { result ≡ level_refusal c draws.now }
{
    if c.level == MAX_LEVEL {
        return Err(Refusal::LastLevel);
    }
    if draws_ok(draws, creatures_of(c.level + 1)) {
        return Ok(());
    }
    Err(Refusal::Draws)
}

// The state is checked once; draws are there only where a level starts.
#[tactic(auto, unfolding(cutter_pass::specs::Pass::pass_refusal))]
fn refusal_of(c: Cutter, draws: &[u8]) -> Checked
    ensures { result ≡ pass_refusal c draws.now }
{
    check(c)?;
    if level_due(c) {
        return level_refusal(c, draws);
    }
    if draws.is_empty() {
        return Ok(());
    }
    Err(Refusal::Draws)
}

#[tactic(auto, unfolding(cutter_pass::specs::Pass::hurt))]
fn lose_life(c: Cutter) -> Cutter
    ensures { result ≡ hurt c }
{
    let mut out = c;
    out.dead = false;
    out.lives = c.lives.saturating_sub(1);
    out
}

#[tactic(auto, unfolding(cutter_pass::specs::Pass::next_level))]
fn level_up(c: Cutter, draws: &[u8]) -> Cutter
    requires { NextLevel c draws.now }
    ensures { result ≡ next_level c draws.now }
{
    let mut out = c;
    out.won_level = false;
    out.level = c.level + 1;
    new_level(out, draws)
}

fn press(c: Cutter, dir: Option<u8>) -> Cutter
    ensures { result ≡ turned directed c dir }
{
    match dir {
        Some(dir) => direction(c, dir),
        None => c,
    }
}

// The direction of the last key that gives one, and whether a key after it quit.
#[derive(Clone, Copy)]
pub struct Pressed {
    pub dir: Option<u8>,
    pub quit: bool,
}

// All keys up to one that quits. Each direction replaces the one before, so the last is what is left of them.
fn play(keys: &[u8]) -> Pressed
    ensures { Plays keys.now result }
{
    let mut dir = None;
    for key in keys {
        if *key == KEY_QUIT {
            return Pressed { dir, quit: true };
        }
        dir = dir_of(*key).or(dir);
    }
    Pressed { dir, quit: false }
}

fn score(c: Cutter) -> Cutter
    ensures { result ≡ scored c }
{
    let black = black_count(&c.grid) as usize;
    let mut out = c;
    if black < CLEAR_BELOW {
        out.won_level = true;
        return out;
    }
    out
}

fn step_if(due: bool, c: Cutter) -> Made
    requires { WellFormed c }
    ensures { result ≡ step_if due c }
{
    if due {
        let made = step_player(c);
        return Made {
            game: score(made.game),
            searched: made.searched,
            walked: made.walked,
        };
    }
    Made {
        game: c,
        searched: 0,
        walked: 0,
    }
}

fn enemies_if(due: bool, c: Cutter) -> Cutter
    requires { WellFormed c }
    ensures { result ≡ cond due (enemies_stepped c) c }
{
    if due {
        return step_enemies(c);
    }
    c
}

fn turn(
    first: u32,
    second: u32,
    refusal: Checked,
    answer: Answer,
    game: Cutter,
    searched: u16,
    walked: u16,
) -> CutterTurn
    ensures { result ≡ costing first second refusal answer game searched walked }
{
    CutterTurn {
        first,
        second,
        passed: CutterPassed {
            refusal,
            answer,
            game,
            searched,
            walked,
        },
    }
}

fn after_death(c: Cutter, first: u32, second: u32) -> CutterTurn
    ensures { result ≡ after_death first second c }
{
    let out = lose_life(c);
    if out.lives == 0 {
        return turn(first, second, Ok(()), Answer::Over, out, 0, 0);
    }
    let back = respawn(out);
    turn(
        first,
        second,
        Ok(()),
        Answer::GoingOn,
        back.game,
        0,
        back.walked,
    )
}

fn after_keys(c: Cutter, keys: &[u8], time: u32, first: u32, second: u32) -> CutterTurn
    requires { WellFormed c }
    ensures { result ≡ after_keys first second time (played c keys.now) }
{
    let pressed = play(keys);
    let played = press(c, pressed.dir);
    if pressed.quit {
        return turn(first, second, Ok(()), Answer::Quit, played, 0, 0);
    }
    let due = both_ticks(time, first, second, CUT_MOVE_CYCLES, CUT_ENEMY_CYCLES);
    let made = step_if(due.one, played);
    let game = enemies_if(due.two, made.game);
    turn(
        due.first,
        due.second,
        Ok(()),
        Answer::GoingOn,
        game,
        made.searched,
        made.walked,
    )
}

pub fn pass_at(
    c: Cutter,
    keys: &[u8],
    draws: &[u8],
    time: u32,
    first: u32,
    second: u32,
) -> CutterTurn
    ensures { result ≡ pass_at c keys.now draws.now time first second }
{
    if let Err(no) = refusal_of(c, draws) {
        return turn(first, second, Err(no), Answer::GoingOn, c, 0, 0);
    }
    if c.dead {
        return after_death(c, first, second);
    }
    if c.won_level {
        let next = level_up(c, draws);
        return turn(first, second, Ok(()), Answer::GoingOn, next, 0, 0);
    }
    after_keys(c, keys, time, first, second)
}
