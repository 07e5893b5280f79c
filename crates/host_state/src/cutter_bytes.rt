// Block Cutter's state as C holds it: each flag is a byte.
ghost use Rattle.std.specs.Prelude.{◌≡◌};
ghost use Rattle.host_state.specs.Cutter.{flags_of, game_of, host_of};

use crate::flags::{flag_of, is_flag};
use cutter_ground::{CN, MAX_ENEMIES, Mover};
use cutter_state::Cutter;
use refusal::{Checked, Refusal};

#[repr(C)]
#[derive(Clone, Copy)]
pub struct HostCutter {
    pub grid: [u8; CN],
    pub px: usize,
    pub py: usize,
    pub dx: i8,
    pub dy: i8,
    pub trailing: u8,
    pub enemies: [Mover; MAX_ENEMIES],
    pub count: usize,
    pub level: u32,
    pub lives: u32,
    pub dead: u8,
    pub won_level: u8,
}

// What a byte gets that is no flag: Cells for trailing, Numbers for dead or won behind what the state gets.
pub fn cutter_flags(h: HostCutter) -> Checked
    ensures { result ≡ flags_of h }
{
    if !is_flag(h.trailing) {
        return Err(Refusal::Cells);
    }
    if is_flag(h.dead) & is_flag(h.won_level) {
        return Ok(());
    }
    cutter_check::check(cutter_game(h)).and(Err(Refusal::Numbers))
}

// The game's state of the host's.
pub fn cutter_game(h: HostCutter) -> Cutter
    ensures { result ≡ game_of h }
{
    let grid = h.grid;
    let enemies = h.enemies;
    Cutter {
        grid,
        px: h.px,
        py: h.py,
        dx: h.dx,
        dy: h.dy,
        trailing: flag_of(h.trailing),
        enemies,
        count: h.count,
        level: h.level,
        lives: h.lives,
        dead: flag_of(h.dead),
        won_level: flag_of(h.won_level),
    }
}

// The host's state of the game's.
pub fn cutter_host(c: Cutter) -> HostCutter
    ensures { result ≡ host_of c }
{
    let grid = c.grid;
    let enemies = c.enemies;
    HostCutter {
        grid,
        px: c.px,
        py: c.py,
        dx: c.dx,
        dy: c.dy,
        trailing: u8::from(c.trailing),
        enemies,
        count: c.count,
        level: c.level,
        lives: c.lives,
        dead: u8::from(c.dead),
        won_level: u8::from(c.won_level),
    }
}
