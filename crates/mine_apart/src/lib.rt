// Block Mine's creatures taken apart into places and directions, which are lent where creatures are not, and who stands where by them.
#![tactic(auto)]

ghost use Rattle.std.specs.Prelude.{cond, ◌≡◌, length, position};
ghost use Rattle.laws.specs.Lists.{any};
ghost use Rattle.mine_state.specs.State.{AREA, MAX_ENEMIES};
ghost use Rattle.mine_apart.specs.CodeApart.{Takes, parted, joined, Apart, is_spot, first_spot, free_spot, Asks, Lent};

use found::Found;
use mine_state::{AREA, EMPTY, Enemy, H, MAX_ENEMIES, W};

// The place of nobody: of a slot past the count.
pub const NOWHERE: u16 = 336;

// The creatures' places and directions.
#[derive(Clone, Copy)]
pub struct Parts {
    pub spots: [u16; MAX_ENEMIES],
    pub dirs: [u8; MAX_ENEMIES],
}

// The place of a creature that is there, and nobody's for a slot past the count.
fn spot_or(there: bool, at: usize) -> usize
    ensures { result ≡ cond there at AREA }
{
    if there {
        return at;
    }
    AREA
}

// All slots in one loop without a branch: so they are stored together, and can be loaded together at once.
pub fn parts_of(enemies: [Enemy; MAX_ENEMIES], count: usize) -> Parts
    requires { Takes enemies count }
    ensures { result ≡ parted enemies count }
{
    let mut spots = [NOWHERE; MAX_ENEMIES];
    let mut dirs = [0; MAX_ENEMIES];
    for (i, e) in enemies.iter().enumerate() {
        spots[i] = spot_or(i < count, e.y * W + e.x) as u16;
        dirs[i] = e.dir;
    }
    Parts { spots, dirs }
}

// The creatures put together again.
pub fn enemies_of(
    spots: &[u16; MAX_ENEMIES],
    dirs: &[u8; MAX_ENEMIES],
    count: usize,
) -> [Enemy; MAX_ENEMIES]
    requires { Apart count spots.now dirs.now }
    ensures { result ≡ joined count spots.now dirs.now }
{
    let mut out = [Enemy { x: 0, y: 0, dir: 0 }; MAX_ENEMIES];
    for i in 0..count {
        let at = spots[i] as usize;
        out[i] = Enemy {
            x: at % W,
            y: at / W,
            dir: dirs[i],
        };
    }
    out
}

// Somebody stands at a place: one look at all slots, without a branch.
fn somebody(spots: &[u16; MAX_ENEMIES], at: u16) -> bool
    requires { length spots.now ≡ MAX_ENEMIES }
    ensures { result ≡ any (is_spot at) spots.now }
{
    let mut some = false;
    for s in spots {
        some |= *s == at;
    }
    some
}

// The first slot of a place.
fn slot_of(spots: &[u16; MAX_ENEMIES], at: u16) -> Option<usize>
    ensures { result ≡ position (is_spot at) spots.now }
{
    spots.iter().position(|s| *s == at)
}

// The first creature at a place and how many are there, or nobody.
pub fn enemy_at(spots: &[u16; MAX_ENEMIES], at: usize) -> Option<Found>
    requires { Asks spots.now at }
    ensures { result ≡ first_spot at spots.now }
{
    let place = at as u16;
    if !somebody(spots, place) {
        return None;
    }
    let index = slot_of(spots, place)?;
    let number = spots.iter().filter(|s| **s == place).count();
    Some(Found { index, number })
}

// A cell an object may fall, roll or be pushed into: empty terrain with nobody standing on it.
#[tactic(auto, unfolding(crate::specs::CodeApart::free_spot, mine_state::specs::State::empty_at))]
pub fn free(
    grid: &[u8; AREA],
    spots: &[u16; MAX_ENEMIES],
    player: usize,
    x: usize,
    y: usize,
) -> bool
    requires { Lent grid.now spots.now }
    ensures { result ≡ free_spot grid.now spots.now player x y }
{
    if W <= x || H <= y {
        return false;
    }
    let at = y * W + x;
    grid[at] == EMPTY && player != at && !somebody(spots, at as u16)
}
