// One region of black cells, found by a queue search or by its number. The tables are the caller's and are lent.
#![tactic(auto)]

ghost use Rattle.cutter_ground.specs.Cells.{CN};
ghost use Rattle.cutter_regions.specs.CodeSeeking.{Ready, Sought};
ghost use Rattle.cutter_regions.specs.CodeGathering.{Bare, Gathered, Findable};

use cutter_ground::{CB_BLACK, CN, SEEN};

// Marks the region of the black cell start, of which no cell has a mark, and puts its cells on the queue from from on; the queue's new end.
fn search(
    grid: &[u8; CN],
    seen: &mut [u8; CN],
    queue: &mut [u16; CN],
    from: usize,
    start: usize,
) -> usize
    requires { Ready grid.now seen.old queue.old from start }
    ensures { Sought grid.now seen.old queue.old from start seen.new queue.new result }
{
    seen[start] = SEEN;
    queue[from] = start as u16;
    let mut head: usize = from;
    let mut tail: usize = from + 1;
    while head < tail {
        let at = queue[head] as usize;
        head += 1;
        tail = cutter_ground::around(grid, seen, queue, tail, at, CB_BLACK);
    }
    tail
}

// Marks the cells with the number start, none of which has a mark, and puts them on the queue from from on; the queue's new end.
fn gather(
    nums: &[u16],
    seen: &mut [u8; CN],
    queue: &mut [u16; CN],
    from: usize,
    start: usize,
) -> usize
    requires { Bare nums.now seen.old queue.old from start }
    ensures { Gathered nums.now seen.old queue.old from start seen.new queue.new result CN }
{
    let number = start as u16;
    let mut tail = from;
    for (c, of) in nums.iter().enumerate() {
        if *of == number {
            seen[c] = SEEN;
            queue[tail] = c as u16;
            tail += 1;
        }
    }
    tail
}

// The region of start, by its number where the cells have numbers, else by a search.
pub fn find(
    grid: &[u8; CN],
    nums: &[u16],
    seen: &mut [u8; CN],
    queue: &mut [u16; CN],
    from: usize,
    start: usize,
) -> usize
    requires { Findable grid.now nums.now seen.old queue.old from start }
    ensures { Sought grid.now seen.old queue.old from start seen.new queue.new result }
{
    if nums.len() == CN {
        return gather(nums, seen, queue, from, start);
    }
    search(grid, seen, queue, from, start)
}
