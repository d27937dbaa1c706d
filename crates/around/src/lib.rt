// The look-around at a cell: whether all its givers have counts, what these come to, and how many givers there are.
#![tactic(auto)]

pub mod weight;

ghost use Rattle.std.specs.Prelude.{true, ◌≡◌, ◌<◌, ◌≤◌, length};
ghost use Rattle.flow.specs.Net.{sum, given};
ghost use Rattle.sheet.specs.Compass.{is_arrow, step_of};
ghost use Rattle.sheet.specs.Grid.{OnGrid, cells_in, place_in, land_in, dest_in};
ghost use Rattle.sheet.specs.Sheet.{count_at, step_from};
ghost use Rattle.around.specs.Around.{Covers, Inner, LooksAround, adds, terms};
ghost use Rattle.around.specs.Weight.{one, no_count};

use crate::weight::{Counts, NO_COUNT, One, Weight};
use sheet::grid::Grid;
use sheet::step::Spot;

// What place q adds where it has the code. Its weight is asked for only there.
fn seen<W: Weight>(grid: &Grid<'_>, weight: &W, q: usize, code: u8) -> u64
    requires on_grid { q < cells_in grid.now }
    requires covered { W.covers weight.now q }
    ensures value { result ≡ adds grid.now.codes.now (W.weight weight.now) q code }
    ensures most { result ≤ no_count }
{
    if grid.codes[q] == code {
        weight.of(q)
    } else {
        0
    }
}

// The same of the neighbour one step of `back` from a cell, where there is one.
fn seen_from<W: Weight>(grid: &Grid<'_>, weight: &W, at: Spot, back: u8, code: u8) -> u64
    requires on_grid { OnGrid grid.now at }
    requires covered { Covers grid.now (W.covers weight.now) }
    requires both_arrows { (is_arrow back ≡ true) × (is_arrow code ≡ true) }
    ensures value { result ≡ adds grid.now.codes.now (W.weight weight.now) (step_from grid.now.sheet.rows grid.now.sheet.cols (step_of back) (place_in grid.now at)) code }
    ensures most { result ≤ no_count }
{
    match grid.sheet.beside(at, back) {
        Some(from) => seen(grid, weight, grid.sheet.place(from), code),
        None => 0,
    }
}

// The sum over the eight neighbours of a place that is not on the edge: eight reads and no test of where they lie.
fn inner<W: Weight>(grid: &Grid<'_>, weight: &W, p: usize) -> u64
    requires inner { Inner grid.now.sheet.rows grid.now.sheet.cols p }
    requires covered { Covers grid.now (W.covers weight.now) }
    ensures { result ≡ sum 8 (terms grid.now (W.weight weight.now) p) }
{
    let cols = grid.sheet.cols;
    let east = seen(grid, weight, p - 1, 1);
    let south_east = seen(grid, weight, p - cols - 1, 2);
    let south = seen(grid, weight, p - cols, 4);
    let south_west = seen(grid, weight, p - cols + 1, 8);
    let west = seen(grid, weight, p + 1, 16);
    let north_west = seen(grid, weight, p + cols + 1, 32);
    let north = seen(grid, weight, p + cols, 64);
    let north_east = seen(grid, weight, p + cols - 1, 128);
    east + south_east + south + south_west + west + north_west + north + north_east
}

// The sum over the eight neighbours of any cell, each sought by the opposite step of the code that it would have.
#[tactic(auto, unfolding(sheet::specs::Compass::is_arrow, sheet::specs::Compass::line_of))]
fn edge<W: Weight>(grid: &Grid<'_>, weight: &W, at: Spot) -> u64
    requires on_grid { OnGrid grid.now at }
    requires covered { Covers grid.now (W.covers weight.now) }
    ensures { result ≡ sum 8 (terms grid.now (W.weight weight.now) (place_in grid.now at)) }
{
    let east = seen_from(grid, weight, at, 16, 1);
    let south_east = seen_from(grid, weight, at, 32, 2);
    let south = seen_from(grid, weight, at, 64, 4);
    let south_west = seen_from(grid, weight, at, 128, 8);
    let west = seen_from(grid, weight, at, 1, 16);
    let north_west = seen_from(grid, weight, at, 2, 32);
    let north = seen_from(grid, weight, at, 4, 64);
    let north_east = seen_from(grid, weight, at, 8, 128);
    east + south_east + south + south_west + west + north_west + north + north_east
}

// The sum over the eight neighbours of a cell whose arrows step onto it.
fn neighbours<W: Weight>(grid: &Grid<'_>, weight: &W, at: Spot) -> u64
    requires on_grid { OnGrid grid.now at }
    requires covered { Covers grid.now (W.covers weight.now) }
    ensures { result ≡ sum 8 (terms grid.now (W.weight weight.now) (place_in grid.now at)) }
{
    let Spot { row, col } = at;
    if 1 <= row && row + 1 < grid.sheet.rows && 1 <= col && col + 1 < grid.sheet.cols {
        inner(grid, weight, grid.sheet.place(at))
    } else {
        edge(grid, weight, at)
    }
}

// How many givers a land cell has. It reads no counts.
pub fn giver_number(grid: &Grid<'_>, at: Spot) -> u64
    requires on_grid { OnGrid grid.now at }
    requires on_land { land_in grid.now (place_in grid.now at) ≡ true }
    ensures { result ≡ given (cells_in grid.now) (dest_in grid.now) one (place_in grid.now at) }
{
    neighbours(grid, &One, at)
}

// The look-around at a land cell: the sum of its givers' counts, or None where some giver has no count yet.
pub fn look_around(grid: &Grid<'_>, counts: &[u32], at: Spot) -> Option<u64>
    requires on_grid { OnGrid grid.now at }
    requires counts_len { length counts.now ≡ cells_in grid.now }
    requires on_land { land_in grid.now (place_in grid.now at) ≡ true }
    ensures { LooksAround grid.now.sheet.rows grid.now.sheet.cols grid.now.codes.now counts.now (place_in grid.now at) result }
{
    let all = neighbours(grid, &Counts(counts), at);
    if all < NO_COUNT { Some(all) } else { None }
}

// The sum of the counts of the givers of a land cell, whatever they hold.
pub fn givers_sum_at(grid: &Grid<'_>, counts: &[u32], at: Spot) -> u64
    requires on_grid { OnGrid grid.now at }
    requires counts_len { length counts.now ≡ cells_in grid.now }
    requires on_land { land_in grid.now (place_in grid.now at) ≡ true }
    ensures { result ≡ given (cells_in grid.now) (dest_in grid.now) (count_at counts.now) (place_in grid.now at) }
{
    neighbours(grid, &Counts(counts), at) % NO_COUNT
}

// The same of the land cell p.
pub fn givers_sum(grid: &Grid<'_>, counts: &[u32], p: usize) -> u64
    requires on_grid { p < cells_in grid.now }
    requires counts_len { length counts.now ≡ cells_in grid.now }
    requires on_land { land_in grid.now p ≡ true }
    ensures { result ≡ given (cells_in grid.now) (dest_in grid.now) (count_at counts.now) p }
{
    givers_sum_at(grid, counts, grid.sheet.spot(p))
}
