// Tiles, for C and Rust: how long the lent buffers are, writing a border record, finishing.
ghost use Rattle.tile.specs.Border.{border_cells};
ghost use Rattle.tile_bytes.specs.Bytes.{record_length};
ghost use Rattle.drainage.specs.Calls.{FinishCall, RecordCall};
ghost use Rattle.drainage.specs.Lengths.{InTile, cells};

use crate::reply::Flat;
use sheet::shape::Tile;
use tile::border::border_cells;

// The number of cells of a tile, and 0 where the shape is none.
fn tile_cells(rows: usize, cols: usize) -> usize
    ensures { InTile rows cols (cells rows cols) result }
{
    match Tile::new(rows, cols) {
        Some(tile) => tile.sheet().cells(),
        None => 0,
    }
}

#[unsafe(no_mangle)]
pub extern "C" fn drainage_border_cells(rows: usize, cols: usize) -> usize
    ensures { InTile rows cols (border_cells rows cols) result }
{
    match Tile::new(rows, cols) {
        Some(tile) => border_cells(tile),
        None => 0,
    }
}

#[unsafe(no_mangle)]
pub extern "C" fn drainage_record_length(rows: usize, cols: usize) -> usize
    ensures { InTile rows cols (record_length rows cols) result }
{
    match Tile::new(rows, cols) {
        Some(tile) => 17 + 7 * border_cells(tile),
        None => 0,
    }
}

#[unsafe(no_mangle)]
pub extern "C" fn drainage_record_work1(rows: usize, cols: usize) -> usize
    ensures { InTile rows cols (cells rows cols) result }
{
    tile_cells(rows, cols)
}

#[unsafe(no_mangle)]
pub extern "C" fn drainage_record_work2(rows: usize, cols: usize) -> usize
    ensures { InTile rows cols (cells rows cols) result }
{
    tile_cells(rows, cols)
}

#[unsafe(no_mangle)]
pub extern "C" fn drainage_record(
    rows: usize,
    cols: usize,
    tile_row: usize,
    tile_col: usize,
    grid: &[u8],
    bytes: &mut [u8],
    work1: &mut [u32],
    work2: &mut [u32],
) -> Flat
    ensures { RecordCall rows cols tile_row tile_col grid.now bytes.old work1.old work2.old result bytes.new work1.new work2.new }
{
    Flat::from(tile_record::write_record(rows, cols, tile_row, tile_col, grid, bytes, work1, work2))
}

#[unsafe(no_mangle)]
pub extern "C" fn drainage_finish_work1(rows: usize, cols: usize) -> usize
    ensures { InTile rows cols (cells rows cols) result }
{
    tile_cells(rows, cols)
}

#[unsafe(no_mangle)]
pub extern "C" fn drainage_finish(
    rows: usize,
    cols: usize,
    grid: &[u8],
    incoming: &[u32],
    counts: &mut [u32],
    work1: &mut [u32],
) -> Flat
    ensures { FinishCall rows cols grid.now incoming.now counts.old work1.old result counts.new work1.new }
{
    Flat::from(tile_finish::finish(rows, cols, grid, incoming, counts, work1))
}
