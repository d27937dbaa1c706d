// Counting a whole sheet by the look-around method: scan the cells by place, write a cell that has no giver, and go down from it while all
// givers have counts. What then holds 0 on land lies on a loop.
#![tactic(auto)]

ghost use Rattle.std.specs.Prelude.{[], ◌≡◌, length};
ghost use Rattle.sheet.specs.Grid.{cells_in};
ghost use Rattle.count.specs.Count.{CountPromise, CountCells, Answered, count_reply, ends};
ghost use Rattle.scan.specs.Grid.{CountingIn, found_in};

use loops::{first_left, loop_length};
use scan::scan;
use sheet::grid::Grid;
use sheet::shape::Sheet;
use sheet::totals::{clear, first_bad_code, greatest, land_number};

// What counting returns: the number of land cells, the number of outlets, and the greatest count.
#[derive(Clone, Copy, PartialEq, Eq, Debug)]
pub struct Totals {
    pub land: usize,
    pub outlets: usize,
    pub greatest: u32,
}

// Why a sheet is not counted.
#[derive(Clone, Copy, PartialEq, Eq, Debug)]
pub enum CountError {
    Shape,
    Length,
    Code(usize),
    Loop { place: usize, length: usize },
}

// Writes the count of each cell of the grid, or refuses.
pub fn count(
    rows: usize,
    cols: usize,
    grid: &[u8],
    counts: &mut [u32],
) -> Result<Totals, CountError>
    ensures { CountPromise rows cols grid.now counts.old (ends (count_reply result) counts.new) }
{
    let sheet = Sheet::new(rows, cols).ok_or(CountError::Shape)?;
    let grid = Grid::new(sheet, grid).ok_or(CountError::Length)?;
    if counts.len() != sheet.cells() {
        return Err(CountError::Length);
    }
    count_cells(&grid, counts)
}

// The same where shape and lengths fit.
fn count_cells(grid: &Grid<'_>, counts: &mut [u32]) -> Result<Totals, CountError>
    requires { length counts.old ≡ cells_in grid.now }
    ensures { CountCells grid.now.sheet.rows grid.now.sheet.cols grid.now.codes.now counts.old (ends (count_reply result) counts.new) }
{
    if let Some(place) = first_bad_code(grid.codes) {
        return Err(CountError::Code(place));
    }
    clear(counts);
    let outlets = scan(grid, &[], counts);
    answer(grid, counts, outlets)
}

// What is said once the scan is over: the first land cell that is left without a count lies on a loop, and where none is left all is counted.
fn answer(grid: &Grid<'_>, counts: &mut [u32], outlets: usize) -> Result<Totals, CountError>
    requires counting { CountingIn grid.now [] counts.old (cells_in grid.now) }
    requires outlets_found { found_in grid.now counts.old ≡ outlets }
    ensures { Answered grid.now.sheet.rows grid.now.sheet.cols grid.now.codes.now (ends (count_reply result) counts.new) }
{
    if let Some(place) = first_left(grid.codes, counts) {
        let length = loop_length(grid, place);
        clear(counts);
        return Err(CountError::Loop { place, length });
    }
    Ok(Totals {
        land: land_number(grid.codes),
        outlets,
        greatest: greatest(counts),
    })
}
