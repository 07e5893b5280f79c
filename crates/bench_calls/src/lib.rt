// The passes and the ground report that bench/ measures with the check, and the questions, under plain names, and the calls of a tick,
// a step and a move beside them: so the library is compiled as one for a host is, where calls and passes share the rules.
#![tactic(auto)]

ghost use Rattle.std.specs.Prelude.{◌≡◌, take};
ghost use Rattle.mine.specs.Question as MineQuestion;
ghost use Rattle.cutter.specs.Question.{who_at};
ghost use Rattle.bench_calls.specs.There.{there_of};
ghost use Rattle.bench_calls.specs.Numbers.{mine_in_numbers, cutter_in_numbers, ground_in_numbers};
ghost use Rattle.mine_pass.specs.Pass as MinePass;
ghost use Rattle.mine.specs.Calls.{move_call, gravity_call, tick_call};
ghost use Rattle.cutter_pass.specs.Pass.{pass_at};
ghost use Rattle.cutter.specs.Calls.{step_call, sweeps_call, enemies_call, report_call};

use cutter::{CutterAnswer, Ground};
use cutter_ground::Mover;
use cutter_state::Cutter;
use found::Found;
use mine::MineAnswer;
use mine_state::{Enemy, Mine};
use refusal::Numbered;

// What the calls answer, with the refusal in numbers.
#[repr(C)]
#[derive(Clone, Copy)]
pub struct MineNumbers {
    pub refusal: Numbered,
    pub game: Mine,
}

#[repr(C)]
#[derive(Clone, Copy)]
pub struct CutterNumbers {
    pub refusal: Numbered,
    pub game: Cutter,
    pub searched: u16,
    pub walked: u16,
}

#[repr(C)]
#[derive(Clone, Copy)]
pub struct GroundNumbers {
    pub refusal: Numbered,
    pub black: u16,
    pub claimed: u16,
    pub line: u16,
    pub share: u16,
}

impl From<MineAnswer> for MineNumbers {
    ghost from_gives = { λ a n. n ≡ mine_in_numbers a };

    fn from(a: MineAnswer) -> MineNumbers {
        MineNumbers {
            refusal: Numbered::from(a.refusal),
            game: a.game,
        }
    }
}

impl From<CutterAnswer> for CutterNumbers {
    ghost from_gives = { λ a n. n ≡ cutter_in_numbers a };

    fn from(a: CutterAnswer) -> CutterNumbers {
        CutterNumbers {
            refusal: Numbered::from(a.refusal),
            game: a.game,
            searched: a.searched,
            walked: a.walked,
        }
    }
}

impl From<Ground> for GroundNumbers {
    ghost from_gives = { λ g n. n ≡ ground_in_numbers g };

    fn from(g: Ground) -> GroundNumbers {
        GroundNumbers {
            refusal: Numbered::from(g.refusal),
            black: g.black,
            claimed: g.claimed,
            line: g.line,
            share: g.share,
        }
    }
}

#[unsafe(no_mangle)]
pub extern "C" fn call_mine_pass(m: Mine, keys: &[u8], time: u32, first: u32, second: u32) -> Mine
    ensures { result ≡ (MinePass.pass_at m keys.now time first second).passed.game }
{
    mine_turn::pass_at(m, keys, time, first, second).passed.game
}

#[unsafe(no_mangle)]
pub extern "C" fn call_cutter_pass(
    c: Cutter,
    keys: &[u8],
    draws: &[u8],
    time: u32,
    first: u32,
    second: u32,
) -> Cutter
    ensures { result ≡ (pass_at c keys.now draws.now time first second).passed.game }
{
    cutter_turn::pass_at(c, keys, draws, time, first, second)
        .passed
        .game
}

#[unsafe(no_mangle)]
pub extern "C" fn call_cutter_ground(c: Cutter) -> GroundNumbers
    ensures { result ≡ ground_in_numbers (report_call c) }
{
    GroundNumbers::from(cutter::ground_report(c))
}

#[unsafe(no_mangle)]
pub extern "C" fn call_mine_step(m: Mine, dir: u8) -> MineNumbers
    ensures { result ≡ mine_in_numbers (move_call m dir) }
{
    MineNumbers::from(mine::step_player(m, dir))
}

#[unsafe(no_mangle)]
pub extern "C" fn call_mine_gravity(m: Mine) -> MineNumbers
    ensures { result ≡ mine_in_numbers (gravity_call m) }
{
    MineNumbers::from(mine::gravity(m))
}

#[unsafe(no_mangle)]
pub extern "C" fn call_mine_tick(m: Mine) -> MineNumbers
    ensures { result ≡ mine_in_numbers (tick_call m) }
{
    MineNumbers::from(mine::move_enemies(m))
}

#[unsafe(no_mangle)]
pub extern "C" fn call_cutter_step(c: Cutter) -> CutterNumbers
    ensures { result ≡ cutter_in_numbers (step_call c) }
{
    CutterNumbers::from(cutter::step_player(c))
}

#[unsafe(no_mangle)]
pub extern "C" fn call_cutter_step_by_sweeps(c: Cutter) -> CutterNumbers
    ensures { result ≡ cutter_in_numbers (sweeps_call c) }
{
    CutterNumbers::from(cutter::step_by_sweeps(c))
}

#[unsafe(no_mangle)]
pub extern "C" fn call_cutter_tick(c: Cutter) -> CutterNumbers
    ensures { result ≡ cutter_in_numbers (enemies_call c) }
{
    CutterNumbers::from(cutter::step_enemies(c))
}

// The lists of a question: the first `count` of these.
#[repr(C)]
#[derive(Clone, Copy)]
pub struct Enemies {
    pub enemies: [Enemy; mine_state::MAX_ENEMIES],
    pub count: usize,
}

#[repr(C)]
#[derive(Clone, Copy)]
pub struct Movers {
    pub enemies: [Mover; cutter_ground::MAX_ENEMIES],
    pub count: usize,
}

// Who is there: the index of the first and the number, both 0 for nobody.
#[repr(C)]
#[derive(Clone, Copy)]
pub struct There {
    pub index: usize,
    pub number: usize,
}

impl From<Option<Found>> for There {
    ghost from_gives = { λ f t. t ≡ there_of f };

    fn from(found: Option<Found>) -> There {
        match found {
            Some(Found { index, number }) => There { index, number },
            None => There {
                index: 0,
                number: 0,
            },
        }
    }
}

#[unsafe(no_mangle)]
pub extern "C" fn call_mine_who(list: Enemies, x: usize, y: usize) -> There
    ensures { result ≡ there_of (MineQuestion.who_at (take list.count list.enemies) x y) }
{
    There::from(mine::who_of(list.enemies, list.count, x, y))
}

#[unsafe(no_mangle)]
pub extern "C" fn call_cutter_who(list: Movers, x: usize, y: usize) -> There
    ensures { result ≡ there_of (who_at (take list.count list.enemies) x y) }
{
    There::from(cutter::who_of(list.enemies, list.count, x, y))
}
