// What is told of a closing: its sweeps, then the regions they leave.
ghost use Rattle.std.specs.Prelude.{◌≡◌, length, get_or, take};
ghost use Rattle.laws.specs.Lists.{tally};
ghost use Rattle.cutter_ground.specs.Cells.{CN};
ghost use Rattle.cutter_sweeps.specs.Sweeps.{Settled};
ghost use Rattle.cutter_sweeps.specs.CodeTable.{Numbers};
ghost use Rattle.trainer.specs.Regions.{on_number};

use cutter_capture::MAX_COMP;
use cutter_ground::{CB_BLACK, CN, CW, MAX_ENEMIES, Mover};
use cutter_state::Cutter;

fn say(rt: &(impl Print + Eprint), text: &[u8]) {
    streams::write(rt, text);
}

fn say_number(rt: &(impl Print + Eprint), n: u64) {
    streams::write_number(rt, n);
}

fn tell_sweep(rt: &(impl Print + Eprint), k: u64, changed: u16, left: u16) {
    say(rt, b"sweep ");
    say_number(rt, k);
    say(rt, b": ");
    say_number(rt, changed as u64);
    say(rt, b" changed, ");
    say_number(rt, left as u64);
    say(rt, b" numbers\n");
}

// Sweeps until a sweep changes nothing, and tells of each.
fn tell_sweeps(rt: &(impl Print + Eprint), grid: &[u8; CN], nums: &mut [u16; CN])
    requires { Numbers grid.now nums.old }
    ensures { Settled grid.now nums.new }
{
    cutter_sweeps::own_numbers(grid, nums);
    let mut k: u64 = 0;
    loop {
        let changed = cutter_sweeps::sweep_once(grid, nums);
        k += 1;
        tell_sweep(rt, k, changed, cutter_sweeps::numbers_left(grid, nums));
        if changed == 0 {
            return;
        }
    }
}

// How many cells have a number. Counted in 16 bits, as cutter_ground's `count_of`.
fn cells_of(nums: &[u16; CN], number: u16) -> u16
    requires { length nums.now ≡ CN }
    ensures { result ≡ tally number nums.now }
{
    let mut n: u16 = 0;
    for own in nums {
        if *own == number {
            n += 1;
        }
    }
    n
}

// The number of a cell, CN off the grid.
fn number_at(nums: &[u16; CN], at: usize) -> u16
    requires { length nums.now ≡ CN }
    ensures { result ≡ get_or nums.now at CN }
{
    if at < CN { nums[at] } else { CN as u16 }
}

// How many creatures stand on cells with a number.
fn creatures_on(nums: &[u16; CN], enemies: [Mover; MAX_ENEMIES], count: usize, number: u16) -> u16
    requires { length nums.now ≡ CN }
    ensures { result ≡ on_number nums.now number (take count enemies) }
{
    enemies[..count.min(MAX_ENEMIES)]
        .iter()
        .filter(|e| number_at(nums, cutter_ground::cell_of(**e)) == number)
        .count() as u16
}

// What became of a region, from how many came before it and its earliest cell afterwards.
fn tell_end(rt: &(impl Print + Eprint), before: usize, cell: u8) {
    if MAX_COMP <= before {
        return say(rt, b", not counted\n");
    }
    if cell == CB_BLACK {
        return say(rt, b", kept\n");
    }
    say(rt, b", taken\n");
}

// The region whose earliest cell is at.
fn tell_region(rt: &(impl Print + Eprint), at: usize, cells: u16, creatures: u16) {
    say(rt, b"region ");
    say_number(rt, (at % CW) as u64);
    say(rt, b" ");
    say_number(rt, (at / CW) as u64);
    say(rt, b": ");
    say_number(rt, cells as u64);
    say(rt, b" cells, ");
    say_number(rt, creatures as u64);
    say(rt, b" creatures");
}

// A region begins at each cell that has its own number.
fn tell_regions(
    rt: &(impl Print + Eprint),
    nums: &[u16; CN],
    enemies: [Mover; MAX_ENEMIES],
    count: usize,
    after: &[u8; CN],
)
    requires { (length nums.now ≡ CN) × (length after.now ≡ CN) }
{
    let mut told: usize = 0;
    for (at, number) in nums.iter().enumerate() {
        if usize::from(*number) == at {
            let cells = cells_of(nums, *number);
            let creatures = creatures_on(nums, enemies, count, *number);
            tell_region(rt, at, cells, creatures);
            tell_end(rt, told, after[at]);
            told += 1;
        }
    }
}

// The step that closes c's line makes game.
pub fn tell_closing(rt: &(impl Print + Eprint), c: Cutter, game: Cutter) {
    let mut grid = c.grid;
    cutter_capture::claim_line(&mut grid);
    let mut nums = [0u16; CN];
    tell_sweeps(rt, &grid, &mut nums);
    tell_regions(rt, &nums, c.enemies, c.count, &game.grid);
}
