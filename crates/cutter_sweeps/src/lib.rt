// The regions of black cells by plain sweeps. The table of numbers is the caller's and is lent.
#![tactic(auto)]

ghost use Rattle.std.specs.Prelude.{◌≡◌};
ghost use Rattle.cutter_sweeps.specs.Sweeps.{own_of, owns, lower, low, Settled};
ghost use Rattle.cutter_sweeps.specs.Trainer.{numbers_left};
ghost use Rattle.cutter_sweeps.specs.CodeTable.{Numbers, Lowest, Swept, Reached};

use cutter_ground::{CB_BLACK, CN, down_of, left_of, right_of, up_of};

fn own(cell: u8, number: u16) -> u16
    ensures { result ≡ own_of cell number }
{
    if cell == CB_BLACK { number } else { CN as u16 }
}

// Each black cell gets its own number, any other cell CN.
pub fn own_numbers(grid: &[u8; CN], nums: &mut [u16; CN])
    requires { Numbers grid.now nums.old }
    ensures { nums.new ≡ owns grid.now }
{
    for (i, number) in nums.iter_mut().enumerate() {
        *number = own(grid[i], i as u16);
    }
}

// v, or the number of the black cell d where that is less.
fn lower_by(grid: &[u8; CN], nums: &[u16; CN], d: usize, v: u16) -> u16
    requires { Numbers grid.now nums.now }
    ensures { result ≡ lower grid.now nums.now d v }
{
    if d < CN && grid[d] == CB_BLACK {
        let n = nums[d];
        if n < v {
            return n;
        }
    }
    v
}

// The least among a cell's own number and those of its black neighbours.
fn lowest(grid: &[u8; CN], nums: &[u16; CN], at: usize) -> u16
    requires { Lowest grid.now nums.now at }
    ensures { result ≡ low grid.now nums.now at }
{
    let v = lower_by(grid, nums, down_of(at), nums[at]);
    let v = lower_by(grid, nums, up_of(at), v);
    let v = lower_by(grid, nums, right_of(at), v);
    lower_by(grid, nums, left_of(at), v)
}

// One sweep over all cells, in place; how many cells changed.
pub fn sweep_once(grid: &[u8; CN], nums: &mut [u16; CN]) -> u16
    requires { Numbers grid.now nums.old }
    ensures { Swept grid.now nums.old nums.new result }
{
    let mut changed: u16 = 0;
    for at in 0..CN {
        if grid[at] == CB_BLACK {
            let v = lowest(grid, nums, at);
            if v < nums[at] {
                nums[at] = v;
                changed += 1;
            }
        }
    }
    changed
}

// Sweeps until a sweep changes nothing.
#[tactic(auto, using(crate::proofs::Sweeping::reached_start, crate::proofs::Sweeping::reached_more, crate::proofs::Sweeping::reached_numbers, crate::proofs::Sweeping::reached_end))]
pub fn settle(grid: &[u8; CN], nums: &mut [u16; CN])
    requires { Numbers grid.now nums.old }
    ensures { Settled grid.now nums.new }
{
    own_numbers(grid, nums);
    while 0 < sweep_once(grid, nums) {}
}

// How many different numbers stand on black cells.
pub fn numbers_left(grid: &[u8; CN], nums: &[u16; CN]) -> u16
    requires { Reached grid.now nums.now }
    ensures { result ≡ numbers_left grid.now nums.now }
{
    let mut met = [false; CN];
    let mut n: u16 = 0;
    for i in (0..CN).rev() {
        if grid[i] == CB_BLACK {
            let v = nums[i] as usize;
            if !met[v] {
                met[v] = true;
                n += 1;
            }
        }
    }
    n
}
