// The look-around method over a sheet: scan the cells by place, write a cell that has no giver, and go down from it while all givers have
// counts; one loop a function. `more` tells what comes to each cell from elsewhere; beyond its end nothing does.
#![tactic(auto)]

mod onward;

ghost use Rattle.std.specs.Prelude.{Some, ◌≡◌, ◌+◌, ◌*◌, ◌<◌, ◌≤◌, length, replicate};
ghost use Rattle.sheet.specs.Grid.{OnGrid, cells_in, place_in};
ghost use Rattle.sheet.specs.Sheet.{count_at};
ghost use Rattle.around.specs.Around.{LooksAround};
ghost use Rattle.scan.specs.Grid.{RightIn, FitsIn, CountingIn, MovedIn, ToCountIn, WalkedIn, OnwardIn, found_in, left_in, gone};

use crate::onward::Onward;
use around::{giver_number, look_around};
use sheet::grid::Grid;
use sheet::step::Spot;

// What the land cell at place p adds: 1 and what comes to it from elsewhere.
fn own(more: &[u32], p: usize) -> u64
    ensures value { result ≡ 1 + count_at more.now p }
    ensures most { result ≤ 4294967296 }
{
    match more.get(p) {
        Some(comes) => 1 + u64::from(*comes),
        None => 1,
    }
}

// Writes the count of a cell whose givers all have theirs and come to `sum`, and answers where its water goes.
fn settle(grid: &Grid<'_>, more: &[u32], counts: &mut [u32], at: Spot, sum: u64) -> Onward
    requires on_grid { OnGrid grid.now at }
    requires counts_len { length counts.old ≡ cells_in grid.now }
    requires right_so_far { RightIn grid.now more.now counts.old }
    requires to_count { ToCountIn grid.now counts.old (place_in grid.now at) }
    requires looks_around { LooksAround grid.now.sheet.rows grid.now.sheet.cols grid.now.codes.now counts.old (place_in grid.now at) (Some sum) }
    ensures moved { MovedIn grid.now more.now counts.old counts.new (place_in grid.now at) (gone grid.now result) }
    ensures onward { OnwardIn grid.now result }
    ensures less { left_in grid.now counts.new (gone grid.now result) < left_in grid.now counts.old (place_in grid.now at) }
{
    let p = grid.sheet.place(at);
    counts[p] = (sum + own(more, p)) as u32;
    match grid.next(at) {
        Some(next) => Onward::To(next),
        None => Onward::Out,
    }
}

// Water has come to a land cell: its count is written where all its givers have theirs.
fn arrive(grid: &Grid<'_>, more: &[u32], counts: &mut [u32], at: Spot) -> Onward
    requires on_grid { OnGrid grid.now at }
    requires counts_len { length counts.old ≡ cells_in grid.now }
    requires right_so_far { RightIn grid.now more.now counts.old }
    requires to_count { ToCountIn grid.now counts.old (place_in grid.now at) }
    ensures moved { MovedIn grid.now more.now counts.old counts.new (place_in grid.now at) (gone grid.now result) }
    ensures onward { OnwardIn grid.now result }
    ensures less { left_in grid.now counts.new (gone grid.now result) < left_in grid.now counts.old (place_in grid.now at) }
{
    match look_around(grid, counts, at) {
        Some(sum) => settle(grid, more, counts, at, sum),
        None => Onward::Waits,
    }
}

// Goes down while all givers have counts. Answers how many outlets the way ends at, 1 or 0.
fn walk(grid: &Grid<'_>, more: &[u32], counts: &mut [u32], from: Onward) -> usize
    requires onward { OnwardIn grid.now from }
    requires counts_len { length counts.old ≡ cells_in grid.now }
    requires right_so_far { RightIn grid.now more.now counts.old }
    requires to_count { ToCountIn grid.now counts.old (gone grid.now from) }
    ensures { WalkedIn grid.now more.now counts.old counts.new (gone grid.now from) result }
{
    let mut onward = from;
    while let Onward::To(at) = onward {
        onward = arrive(grid, more, counts, at);
    }
    match onward {
        Onward::Out => 1,
        _ => 0,
    }
}

// The scan comes to a cell: where that is land without givers it gets its count, and the walk goes down from it. Answers how many outlets
// were counted.
fn scan_place(grid: &Grid<'_>, more: &[u32], counts: &mut [u32], at: Spot) -> usize
    requires on_grid { OnGrid grid.now at }
    requires counts_len { length counts.old ≡ cells_in grid.now }
    requires counting { CountingIn grid.now more.now counts.old (place_in grid.now at) }
    ensures counting_after { CountingIn grid.now more.now counts.new (place_in grid.now at + 1) }
    ensures counts_after { found_in grid.now counts.new ≡ found_in grid.now counts.old + result }
{
    let p = grid.sheet.place(at);
    if counts[p] != 0 {
        return 0;
    }
    if !grid.is_land(p) {
        return 0;
    }
    if giver_number(grid, at) != 0 {
        return 0;
    }
    let next = settle(grid, more, counts, at, 0);
    walk(grid, more, counts, next)
}

// Scans a row. Answers how many outlets were counted.
fn scan_row(grid: &Grid<'_>, more: &[u32], counts: &mut [u32], row: usize) -> usize
    requires on_grid { row < grid.now.sheet.rows }
    requires counts_len { length counts.old ≡ cells_in grid.now }
    requires counting { CountingIn grid.now more.now counts.old (row * grid.now.sheet.cols) }
    ensures counting_after { CountingIn grid.now more.now counts.new (row * grid.now.sheet.cols + grid.now.sheet.cols) }
    ensures counts_after { found_in grid.now counts.new ≡ found_in grid.now counts.old + result }
{
    let mut outlets: usize = 0;
    for col in 0..grid.sheet.cols {
        outlets += scan_place(grid, more, counts, Spot { row, col });
    }
    outlets
}

// Scans the cells by place, from cleared counts. Answers how many outlets were counted.
pub fn scan(grid: &Grid<'_>, more: &[u32], counts: &mut [u32]) -> usize
    requires counts_clear { counts.old ≡ replicate (cells_in grid.now) 0 }
    requires weights_fit { FitsIn grid.now more.now }
    ensures counting { CountingIn grid.now more.now counts.new (cells_in grid.now) }
    ensures counts_after { found_in grid.now counts.new ≡ result }
{
    let mut outlets: usize = 0;
    for row in 0..grid.sheet.rows {
        outlets += scan_row(grid, more, counts, row);
    }
    outlets
}
