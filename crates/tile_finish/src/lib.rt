// Finishing a tile: its counts, with what comes in at its border cells from other tiles. What comes in is laid out by place, and the
// look-around method of counting adds it to each cell's own 1.
#![tactic(auto)]

mod incoming;

ghost use Rattle.std.specs.Prelude.{◌≡◌, length};
ghost use Rattle.sheet.specs.Grid.{cells_in};
ghost use Rattle.tile_finish.specs.Finish.{FinishPromise, FinishCells, Answered, finish_reply, ends};
ghost use Rattle.tile_finish.specs.Method.{AllMayComeIn};

use crate::incoming::Incoming;
use loops::{first_left, loop_length};
use scan::scan;
use sheet::grid::Grid;
use sheet::shape::Tile;
use sheet::totals::{clear, first_bad_code};
use tile::border::border_cells;

// Why a tile is not finished: a shape or lengths, the place of a bad code, a loop by its first place and its length, or the number of a
// border cell at which more comes in than can be taken.
#[derive(Clone, Copy, PartialEq, Eq, Debug)]
pub enum FinishError {
    Shape,
    Length,
    Code(usize),
    Loop { place: usize, length: usize },
    Incoming(usize),
}

// Writes the finished count of each cell of the tile, or refuses.
pub fn finish(
    rows: usize,
    cols: usize,
    grid: &[u8],
    incoming: &[u32],
    counts: &mut [u32],
    work: &mut [u32],
) -> Result<(), FinishError>
    ensures { FinishPromise rows cols grid.now incoming.now counts.old work.old (ends (finish_reply result) counts.new work.new) }
{
    let tile = Tile::new(rows, cols).ok_or(FinishError::Shape)?;
    let sheet = tile.sheet();
    let grid = Grid::new(sheet, grid).ok_or(FinishError::Length)?;
    let n = sheet.cells();
    if incoming.len() != border_cells(tile) || counts.len() != n || work.len() != n {
        return Err(FinishError::Length);
    }
    finish_cells(
        &Incoming {
            grid,
            numbers: incoming,
        },
        counts,
        work,
    )
}

// The same where shape and lengths fit.
fn finish_cells(
    incoming: &Incoming<'_, '_>,
    counts: &mut [u32],
    work: &mut [u32],
) -> Result<(), FinishError>
    requires counts_long { length counts.old ≡ cells_in incoming.now.grid }
    requires work_long { length work.old ≡ cells_in incoming.now.grid }
    ensures { FinishCells incoming.now.grid.sheet.rows incoming.now.grid.sheet.cols incoming.now.grid.codes.now incoming.now.numbers.now counts.old work.old (ends (finish_reply result) counts.new work.new) }
{
    if let Some(p) = first_bad_code(incoming.grid.codes) {
        return Err(FinishError::Code(p));
    }
    if let Some(b) = incoming.first_bad() {
        return Err(FinishError::Incoming(b));
    }
    finish_taken(incoming, counts, work)
}

// Counts the tile with what comes in. The first land cell that the scan leaves without a count lies on a loop, and where none is left all is
// counted.
fn finish_taken(
    incoming: &Incoming<'_, '_>,
    counts: &mut [u32],
    work: &mut [u32],
) -> Result<(), FinishError>
    requires counts_long { length counts.old ≡ cells_in incoming.now.grid }
    requires work_long { length work.old ≡ cells_in incoming.now.grid }
    requires taken { AllMayComeIn incoming.now.grid.sheet.rows incoming.now.grid.sheet.cols incoming.now.grid.codes.now incoming.now.numbers.now }
    ensures { Answered incoming.now.grid.sheet.rows incoming.now.grid.sheet.cols incoming.now.grid.codes.now incoming.now.numbers.now (ends (finish_reply result) counts.new work.new) }
{
    clear(work);
    incoming.spread(work);
    clear(counts);
    scan(&incoming.grid, work, counts);
    let left = first_left(incoming.grid.codes, counts);
    clear(work);
    let Some(place) = left else {
        return Ok(());
    };
    let length = loop_length(&incoming.grid, place);
    clear(counts);
    Err(FinishError::Loop { place, length })
}
