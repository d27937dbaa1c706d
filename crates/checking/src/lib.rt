// Checking the counts of a whole sheet: each cell is held to the count equation. No cell on a loop can satisfy it, so nothing else is tried.
#![tactic(auto)]

ghost use Rattle.std.specs.Prelude.{◌≡◌, ◌+◌, ◌*◌, ◌<◌, length};
ghost use Rattle.promise.specs.First.{Finds};
ghost use Rattle.sheet.specs.Grid.{OnGrid, cells_in, place_in};
ghost use Rattle.checking.specs.Check.{CheckPromise, CheckCells, check_reply};
ghost use Rattle.checking.specs.Leaf.{CountOkIn, RightBelow, right_in};

use around::givers_sum_at;
use sheet::grid::Grid;
use sheet::shape::Sheet;
use sheet::step::Spot;
use sheet::totals::first_bad_code;

// Why counts are not taken as those of a grid.
#[derive(Clone, Copy, PartialEq, Eq, Debug)]
pub enum CheckError {
    Shape,
    Length,
    Code(usize),
    Count(usize),
}

// Whether the counts are those of the grid, or what is wrong.
pub fn check(rows: usize, cols: usize, grid: &[u8], counts: &[u32]) -> Result<(), CheckError>
    ensures { CheckPromise rows cols grid.now counts.now (check_reply result) }
{
    let sheet = Sheet::new(rows, cols).ok_or(CheckError::Shape)?;
    let grid = Grid::new(sheet, grid).ok_or(CheckError::Length)?;
    if counts.len() != sheet.cells() {
        return Err(CheckError::Length);
    }
    check_cells(&grid, counts)
}

// The same where shape and lengths fit.
fn check_cells(grid: &Grid<'_>, counts: &[u32]) -> Result<(), CheckError>
    requires { length counts.now ≡ cells_in grid.now }
    ensures { CheckCells grid.now.sheet.rows grid.now.sheet.cols grid.now.codes.now counts.now (check_reply result) }
{
    if let Some(place) = first_bad_code(grid.codes) {
        return Err(CheckError::Code(place));
    }
    match first_wrong(grid, counts) {
        Some(place) => Err(CheckError::Count(place)),
        None => Ok(()),
    }
}

// The first place that breaks the count equation, row by row, so that nothing is divided.
fn first_wrong(grid: &Grid<'_>, counts: &[u32]) -> Option<usize>
    requires { length counts.now ≡ cells_in grid.now }
    ensures { Finds (cells_in grid.now) (CountOkIn grid.now counts.now) result }
{
    for row in 0..grid.sheet.rows {
        if let Some(place) = wrong_in_row(grid, counts, row) {
            return Some(place);
        }
    }
    None
}

// The first place up to the end of a row that breaks the equation, where none does in the rows before.
fn wrong_in_row(grid: &Grid<'_>, counts: &[u32], row: usize) -> Option<usize>
    requires row_in { row < grid.now.sheet.rows }
    requires counts_len { length counts.now ≡ cells_in grid.now }
    requires right_below { RightBelow grid.now counts.now (row * grid.now.sheet.cols) }
    ensures { Finds (row * grid.now.sheet.cols + grid.now.sheet.cols) (CountOkIn grid.now counts.now) result }
{
    for col in 0..grid.sheet.cols {
        let at = Spot { row, col };
        if !is_right(grid, counts, at) {
            return Some(grid.sheet.place(at));
        }
    }
    None
}

// Whether a cell satisfies the count equation. The sum is taken in 64 bits, wide enough for eight counts, whatever they are. (The arm that calls
// nothing comes first: the loop over a row then passes cells that are not land in less code.)
fn is_right(grid: &Grid<'_>, counts: &[u32], at: Spot) -> bool
    requires on_grid { OnGrid grid.now at }
    requires counts_len { length counts.now ≡ cells_in grid.now }
    ensures { result ≡ right_in grid.now counts.now (place_in grid.now at) }
{
    let p = grid.sheet.place(at);
    if !grid.is_land(p) {
        counts[p] == 0
    } else {
        u64::from(counts[p]) == givers_sum_at(grid, counts, at) + 1
    }
}
