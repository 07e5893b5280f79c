// Closing a cut: the line becomes claimed, then every counted region but one is captured.
#![tactic(auto)]

ghost use Rattle.std.specs.Prelude.{◌≡◌, ◌-◌, ◌≤◌, length, take};
ghost use mathlib.Core.List.{map, zip_with};
ghost use Rattle.cutter_ground.specs.Cells.{CN};
ghost use Rattle.cutter_ground.specs.CodeVisit.{SEEN};
ghost use Rattle.cutter_joined.proofs.Labels.{labels};
ghost use Rattle.cutter_closing.specs.Closing.{claim_line};
ghost use Rattle.cutter_capture.specs.CodeSteps.{recoded, KEPT, Placed, having, leader, Ordered, keep_of, shut, Retained, Divided, Closes, ClosedBy, CutClosed};
ghost use Rattle.cutter_capture.specs.CodeChoosing.{Numbered, Choosable, Chosen, Markable, Marked};

use cutter_ground::{BLANK, CB_BLACK, CB_FILLED, CB_TRAIL, CN, MAX_ENEMIES, Mover, SEEN};

// Most regions one cut counts; extra ones stay black.
pub const MAX_COMP: usize = 48;

// What marks a cell of the region to keep.
const KEPT: u8 = 2;

// A part of the queue.
#[derive(Clone, Copy)]
struct Part {
    from: usize,
    to: usize,
}

// The best region so far: its part of the queue, and its creatures.
#[derive(Clone, Copy)]
struct Lead {
    part: Part,
    crowd: u16,
}

// The region to keep, as a part of the queue, and how many cells were taken from the queue.
#[derive(Clone, Copy)]
struct Choice {
    part: Part,
    taken: usize,
}

// The creatures that remain, with zeros behind them.
#[derive(Clone, Copy)]
struct Herd {
    enemies: [Mover; MAX_ENEMIES],
    count: usize,
}

// The same, and how many cells the search took.
#[derive(Clone, Copy)]
pub struct Closed {
    pub enemies: [Mover; MAX_ENEMIES],
    pub count: usize,
    pub searched: u16,
}

// Each cell of the line becomes `to`.
pub fn recode_line(grid: &mut [u8; CN], to: u8)
    requires { length grid.old ≡ CN }
    ensures { grid.new ≡ map (recoded to) grid.old }
{
    for cell in grid.iter_mut() {
        *cell = if *cell == CB_TRAIL { to } else { *cell };
    }
}

// The line becomes claimed.
pub fn claim_line(grid: &mut [u8; CN])
    requires { length grid.old ≡ CN }
    ensures { grid.new ≡ claim_line grid.old }
{
    recode_line(grid, CB_FILLED);
}

// How many creatures stand on marked cells.
fn standing(seen: &[u8; CN], enemies: &[Mover]) -> u16
    requires { (length seen.now ≡ CN) × Placed enemies.now }
    ensures { result ≡ having seen.now enemies.now SEEN }
{
    enemies
        .iter()
        .filter(|e| seen[cutter_ground::cell_of(**e)] == SEEN)
        .count() as u16
}

impl Part {
    fn len(self) -> usize
        requires { self.from ≤ self.to }
        ensures { result ≡ self.to - self.from }
    {
        self.to - self.from
    }

    // The mark of the cells whose creatures remain: where there is no region, it is none.
    fn mark(self) -> u8
        ensures { result ≡ keep_of self.from self.to }
    {
        if self.from < self.to { KEPT } else { 0 }
    }
}

impl Lead {
    // The better of this and one region more: the other where it has more creatures, or as many and more cells.
    fn or(self, part: Part, crowd: u16) -> Lead
        requires { Ordered self part }
        ensures { result ≡ leader self part crowd }
    {
        if (self.crowd, self.part.len()) < (crowd, part.len()) {
            Lead { part, crowd }
        } else {
            self
        }
    }
}

// Finds the regions in the order of their earliest cells, at most limit of them, and chooses the one to keep: most creatures, then most cells,
// then the earliest.
fn choose(
    grid: &[u8; CN],
    nums: &[u16],
    seen: &mut [u8; CN],
    queue: &mut [u16; CN],
    enemies: &[Mover],
    limit: u16,
) -> Choice
    requires { Choosable grid.now nums.now seen.old queue.old enemies.now limit }
    ensures { Chosen limit grid.now enemies.now seen.new queue.new result.part.from result.part.to result.taken }
{
    let mut lead = Lead {
        part: Part { from: 0, to: 0 },
        crowd: 0,
    };
    let mut done: u16 = 0;
    let mut tail: usize = 0;
    let mut stood: u16 = 0;
    for start in 0..CN {
        if grid[start] == CB_BLACK && seen[start] == 0 {
            if done == limit {
                break;
            }
            let end = cutter_regions::find(grid, nums, seen, queue, tail, start);
            let stand = standing(seen, enemies);
            lead = lead.or(
                Part {
                    from: tail,
                    to: end,
                },
                stand - stood,
            );
            tail = end;
            stood = stand;
            done += 1;
        }
    }
    Choice {
        part: lead.part,
        taken: tail,
    }
}

// Marks the cells of the region to keep.
fn mark(seen: &mut [u8; CN], queue: &[u16; CN], part: Part)
    requires { Markable seen.old queue.now part.from part.to }
    ensures { Marked seen.old queue.now part.from part.to seen.new }
{
    for at in &queue[part.from..part.to] {
        seen[*at as usize] = KEPT;
    }
}

fn captured(cell: u8, mark: u8) -> u8
    ensures { result ≡ shut cell mark }
{
    if mark == SEEN { CB_FILLED } else { cell }
}

// Claims every cell of a region that is not kept.
fn claim_rest(grid: &mut [u8; CN], seen: &[u8; CN])
    requires { (length grid.old ≡ CN) × (length seen.now ≡ CN) }
    ensures { grid.new ≡ zip_with shut grid.old seen.now }
{
    for (at, mark) in seen.iter().enumerate() {
        grid[at] = captured(grid[at], *mark);
    }
}

// The creatures whose cell has the mark keep, in order; zeros behind them.
fn retain(seen: &[u8; CN], enemies: &[Mover], keep: u8) -> Herd
    requires { (length seen.now ≡ CN) × Placed enemies.now }
    ensures { Retained seen.now keep enemies.now result }
{
    let mut kept = [BLANK; MAX_ENEMIES];
    let mut count: usize = 0;
    for e in enemies {
        if seen[cutter_ground::cell_of(*e)] == keep {
            kept[count] = *e;
            count += 1;
        }
    }
    Herd {
        enemies: kept,
        count,
    }
}

// Closes the regions of a ground without a line, found by their numbers where nums has any.
fn close_regions(grid: &mut [u8; CN], nums: &[u16], enemies: &[Mover], limit: u16) -> Closed
    requires { Divided grid.old enemies.now limit × Numbered grid.old nums.now }
    ensures { ClosedBy (labels grid.old).0 limit grid.old enemies.now grid.new result }
{
    let mut seen = [0u8; CN];
    let mut queue = [0u16; CN];
    let best = choose(grid, nums, &mut seen, &mut queue, enemies, limit);
    mark(&mut seen, &queue, best.part);
    claim_rest(grid, &seen);
    let Herd { enemies, count } = retain(&seen, enemies, best.part.mark());
    Closed {
        enemies,
        count,
        searched: best.taken as u16,
    }
}

// Closes a finished trail on the lent ground; the creatures that remain, and the cost.
pub fn close_cut(
    grid: &mut [u8; CN],
    enemies: [Mover; MAX_ENEMIES],
    count: usize,
    limit: u16,
) -> Closed
    requires { Closes grid.old enemies count limit }
    ensures { CutClosed limit grid.old (take count enemies) grid.new result }
{
    claim_line(grid);
    close_regions(grid, &[], &enemies[..count], limit)
}

// The same by sweeps. A call of its own, so that only a closing by sweeps reserves the numbers.
#[inline(never)]
pub fn close_by_sweeps(
    grid: &mut [u8; CN],
    enemies: [Mover; MAX_ENEMIES],
    count: usize,
    limit: u16,
) -> Closed
    requires { Closes grid.old enemies count limit }
    ensures { CutClosed limit grid.old (take count enemies) grid.new result }
{
    claim_line(grid);
    let mut nums = [0u16; CN];
    cutter_sweeps::settle(grid, &mut nums);
    close_regions(grid, &nums, &enemies[..count], limit)
}
