// One turn of Block Mine's loop: what is left of it when keys, clock and record are numbers.
#![tactic(auto)]

ghost use Rattle.std.specs.Prelude.{cond, ◌≡◌};
ghost use Rattle.mine_state.specs.WellFormed.{WellFormed};
ghost use Rattle.mine_rules.specs.Tick.{enemies_moved};
ghost use Rattle.mine_rules.specs.Gravity.{gravity_of};
ghost use Rattle.mine_moves.specs.CodeSteps.{Walkers, Ticked};
ghost use Rattle.mine_fall.specs.CodePlaces.{Falling, Dropped};
ghost use Rattle.mine_pass.specs.Pass.{played, after_keys, pass_at};
ghost use Rattle.mine_turn.specs.CodeParts.{Ready, Keyed, Plays};

use answer::Answer;
use controls::{KEY_QUIT, dir_of};
use mine_apart::{enemies_of, parts_of};
use mine_check::check;
use mine_fall::{Fallen, gravity_on};
use mine_moves::{Player, step_on, tick_on};
use mine_pass::{ENEMY_CYCLES, GRAVITY_CYCLES, MinePassed, MineTurn};
use mine_state::{AREA, MAX_ENEMIES, Mine};
use pace::both_ticks;
use refusal::Checked;

// The player's part after the keys, where the rest is lent, and whether one of them quit.
#[derive(Clone, Copy)]
pub struct Pressed {
    pub player: Player,
    pub quit: bool,
}

fn press(grid: &mut [u8; AREA], spots: &[u16; MAX_ENEMIES], p: Player, key: u8) -> Player
    requires { Ready grid.old spots.now p }
    ensures { Keyed grid.old spots.now p key grid.new result }
{
    match dir_of(key) {
        Some(dir) => step_on(grid, spots, p, dir),
        None => p,
    }
}

fn play(grid: &mut [u8; AREA], spots: &[u16; MAX_ENEMIES], p: Player, keys: &[u8]) -> Pressed
    requires { Ready grid.old spots.now p }
    ensures { Plays grid.old spots.now p keys.now grid.new result }
{
    let mut player = p;
    for key in keys {
        if *key == KEY_QUIT {
            return Pressed { player, quit: true };
        }
        player = press(grid, spots, player, *key);
    }
    Pressed {
        player,
        quit: false,
    }
}

fn gravity_if(
    due: bool,
    grid: &mut [u8; AREA],
    falling: &mut [bool; AREA],
    spots: &mut [u16; MAX_ENEMIES],
    dirs: &mut [u8; MAX_ENEMIES],
    s: Fallen,
    px: usize,
    py: usize,
) -> Fallen
    requires { Falling grid.old falling.old spots.old dirs.old s px py }
    ensures { Dropped (λ m. cond due (gravity_of m) m) px py grid.old falling.old spots.old
        dirs.old s grid.new falling.new spots.new dirs.new result }
{
    if due {
        return gravity_on(grid, falling, spots, dirs, s, px, py);
    }
    s
}

fn enemies_if(
    due: bool,
    grid: &[u8; AREA],
    spots: &mut [u16; MAX_ENEMIES],
    dirs: &mut [u8; MAX_ENEMIES],
    count: usize,
    px: usize,
    py: usize,
) -> bool
    requires { Walkers grid.now spots.old dirs.old count }
    ensures { Ticked (λ m. cond due (enemies_moved m) m) grid.now count px py spots.old dirs.old result spots.new dirs.new }
{
    if due {
        return tick_on(grid, spots, dirs, count, px, py);
    }
    false
}

fn turn(first: u32, second: u32, refusal: Checked, answer: Answer, game: Mine) -> MineTurn
    ensures { result ≡ record { first = first; second = second; passed = record { refusal = refusal; answer = answer; game = game } } }
{
    MineTurn {
        first,
        second,
        passed: MinePassed {
            refusal,
            answer,
            game,
        },
    }
}

// The keys, and then what is due. One variable holds the state to the end; where nothing is due, its creatures are as they were.
fn go_on(m: Mine, keys: &[u8], time: u32, first: u32, second: u32) -> MineTurn
    requires { WellFormed m }
    ensures { result ≡ after_keys first second time (played m keys.now) }
{
    let mut game = m;
    let old = game.enemies;
    let parts = parts_of(old, game.count);
    let mut spots = parts.spots;
    let mut dirs = parts.dirs;
    let p = Player {
        px: game.px,
        py: game.py,
        coins: game.coins,
        needed: game.needed,
        dead: game.dead,
        won: game.won,
    };
    let pressed = play(&mut game.grid, &spots, p, keys);
    let q = pressed.player;
    game.px = q.px;
    game.py = q.py;
    game.coins = q.coins;
    game.needed = q.needed;
    game.dead = q.dead;
    game.won = q.won;
    if pressed.quit {
        return turn(first, second, Ok(()), Answer::Quit, game);
    }
    let due = both_ticks(time, first, second, GRAVITY_CYCLES, ENEMY_CYCLES);
    if !(due.one | due.two) {
        return turn(first, second, Ok(()), Answer::GoingOn, game);
    }
    let mut falling = game.falling;
    let s = Fallen {
        count: game.count,
        coins: q.coins,
        dead: q.dead,
    };
    let f = gravity_if(
        due.one,
        &mut game.grid,
        &mut falling,
        &mut spots,
        &mut dirs,
        s,
        q.px,
        q.py,
    );
    let caught = enemies_if(
        due.two, &game.grid, &mut spots, &mut dirs, f.count, q.px, q.py,
    );
    let enemies = enemies_of(&spots, &dirs, f.count);
    game.falling = falling;
    game.enemies = enemies;
    game.count = f.count;
    game.coins = f.coins;
    game.dead = caught | f.dead;
    turn(due.first, due.second, Ok(()), Answer::GoingOn, game)
}

// The state is checked once; a round that has ended is left as it is.
pub fn pass_at(m: Mine, keys: &[u8], time: u32, first: u32, second: u32) -> MineTurn
    ensures { result ≡ pass_at m keys.now time first second }
{
    if let Err(no) = check(m) {
        return turn(first, second, Err(no), Answer::GoingOn, m);
    }
    if m.won {
        return turn(first, second, Ok(()), Answer::Won, m);
    }
    if m.dead {
        return turn(first, second, Ok(()), Answer::Dead, m);
    }
    go_on(m, keys, time, first, second)
}
