// The one level, and how a text is read as a mine.
ghost use Rattle.std.specs.Prelude.{◌≡◌, length, get_or};
ghost use Rattle.laws.specs.Lists.{table};
ghost use Rattle.mine_state.specs.State.{AREA};
ghost use Rattle.mine_rules.specs.Load.{tile_of, mine_of, loaded};

use controls::RIGHT;
use mine_state::{
    AREA, BOULDER, COIN, DIRT, EMPTY, EXIT, Enemy, MAX_ENEMIES, Mine, W, WALL, coin_count,
};

// `#` wall, `.` dirt, ` ` tunnel, `O` boulder, `$` bitcoin, `E` creature, `X` exit, `P` the miner's start.
const LEVEL: [u8; AREA] = *b"\
########################\
#P..$....O......$...E..#\
#..OO..$..###..$..OO.$.#\
#.$..###.....$...###..$#\
#..$..O.$.###.$.O..$...#\
#.###...$..O.O..$..###.#\
#..$..OO.#.#..OO..$..$.#\
#$..$..$..$.$..$..$...O#\
#.###.###.###.###.###..#\
#..O...$...O...$..O..E.#\
#.$.$.$.$.$.$.$.$.$.$.$#\
#..#..#..#..#..#..#..#.#\
#..................$.X.#\
########################";

// The tile of a character.
fn tile_of(c: u8) -> u8
    ensures { result ≡ tile_of c }
{
    match c {
        b'#' => WALL,
        b'.' => DIRT,
        b' ' => EMPTY,
        b'O' => BOULDER,
        b'$' => COIN,
        b'X' => EXIT,
        b'P' => EMPTY,
        b'E' => EMPTY,
        _ => WALL,
    }
}

// The tiles of a text: a pass of its own, so that no character is a branch.
fn tiles_of(text: &[u8; AREA]) -> [u8; AREA]
    requires { length text.now ≡ AREA }
    ensures { result ≡ table AREA (λ i. tile_of (get_or text.now i 0)) }
{
    let mut grid = [WALL; AREA];
    for (at, c) in text.iter().enumerate() {
        grid[at] = tile_of(*c);
    }
    grid
}

// The mine that a text draws, row by row.
fn mine_of(text: &[u8; AREA]) -> Mine
    requires { length text.now ≡ AREA }
    ensures { result ≡ mine_of text.now }
{
    let grid = tiles_of(text);
    let mut px: usize = 1;
    let mut py: usize = 1;
    let mut enemies: [Enemy; MAX_ENEMIES] = [Enemy { x: 0, y: 0, dir: 0 }; MAX_ENEMIES];
    let mut count: usize = 0;
    for (at, c) in text.iter().enumerate() {
        match *c {
            b'P' => {
                px = at % W;
                py = at / W;
            }
            b'E' => if count < MAX_ENEMIES {
                enemies[count] = Enemy {
                    x: at % W,
                    y: at / W,
                    dir: RIGHT,
                };
                count += 1;
            },
            _ => {}
        }
    }
    // Not every coin need survive the boulders, so ask for three quarters of them.
    let needed = (coin_count(&grid) as u32 * 3 / 4).max(1);
    Mine {
        grid,
        falling: [false; AREA],
        px,
        py,
        enemies,
        count,
        coins: 0,
        needed,
        dead: false,
        won: false,
    }
}

pub fn load() -> Mine
    ensures { result ≡ loaded }
{
    let text = LEVEL;
    mine_of(&text)
}
