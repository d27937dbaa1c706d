// Writing the border record of a tile: the tile is counted by itself, and of each border cell its count and its way are written.
#![tactic(auto)]

ghost use Rattle.std.specs.Prelude.{◌≡◌, length};
ghost use Rattle.sheet.specs.Grid.{cells_in};
ghost use Rattle.sheet.specs.Shape.{TileShape};
ghost use Rattle.tile_bytes.specs.Bytes.{record_bytes, record_length};
ghost use Rattle.tile_record.specs.Record.{RecordPromise, RecordCells, RecordLengths, record_reply, ends};

use loops::{first_left, loop_length};
use scan::scan;
use sheet::grid::Grid;
use sheet::shape::Tile;
use sheet::totals::{clear, first_bad_code};
use tile::border::border_cells;
use tile::shape::as_tile;
use tile_bytes::position::Position;
use tile_bytes::{write_counts, write_sides};
use tile_ways::free::FreeGrid;
use tile_ways::write_ways;
use writer::Writer;

// Why no record is written: a shape, a position or lengths, the place of a bad code, or a loop by its first place and its
// length.
#[derive(Clone, Copy, PartialEq, Eq, Debug)]
pub enum RecordError {
    Shape,
    Layout,
    Length,
    Code(usize),
    Loop { place: usize, length: usize },
}

// Writes the tile's border record, or refuses.
pub fn write_record(
    rows: usize,
    cols: usize,
    tile_row: usize,
    tile_col: usize,
    grid: &[u8],
    bytes: &mut [u8],
    work1: &mut [u32],
    work2: &mut [u32],
) -> Result<(), RecordError>
    ensures { RecordPromise rows cols tile_row tile_col grid.now bytes.old work1.old work2.old (ends (record_reply result) bytes.new work1.new work2.new) }
{
    let tile = Tile::new(rows, cols).ok_or(RecordError::Shape)?;
    let position = Position::new(tile_row, tile_col).ok_or(RecordError::Layout)?;
    let sheet = tile.sheet();
    let grid = Grid::new(sheet, grid).ok_or(RecordError::Length)?;
    let n = sheet.cells();
    if bytes.len() != 17 + 7 * border_cells(tile) || work1.len() != n || work2.len() != n {
        return Err(RecordError::Length);
    }
    record_cells(&grid, position, bytes, work1, work2)
}

// The same where shape, position and lengths fit. The first land cell that the scan leaves without a count lies on a loop, and where none is
// left the record is written.
fn record_cells(
    grid: &Grid<'_>,
    position: Position,
    bytes: &mut [u8],
    work1: &mut [u32],
    work2: &mut [u32],
) -> Result<(), RecordError>
    requires small { TileShape grid.now.sheet.rows grid.now.sheet.cols }
    requires lengths { RecordLengths grid.now.sheet.rows grid.now.sheet.cols grid.now.codes.now bytes.old work1.old work2.old }
    ensures { RecordCells grid.now.sheet.rows grid.now.sheet.cols position.row position.col grid.now.codes.now bytes.old work1.old work2.old (ends (record_reply result) bytes.new work1.new work2.new) }
{
    if let Some(p) = first_bad_code(grid.codes) {
        return Err(RecordError::Code(p));
    }
    clear(work1);
    scan(grid, &[], work1);
    let outcome = match first_left(grid.codes, work1) {
        Some(place) => Err(RecordError::Loop {
            place,
            length: loop_length(grid, place),
        }),
        None => {
            write_fields(&FreeGrid { grid: *grid }, position, work1, bytes, work2);
            Ok(())
        }
    };
    work1.fill(0);
    work2.fill(0);
    outcome
}

// Writes the three fields of a tile without loops.
fn write_fields(
    free: &FreeGrid<'_>,
    position: Position,
    counts: &[u32],
    bytes: &mut [u8],
    known: &mut [u32],
)
    requires counts_long { length counts.now ≡ cells_in free.now.grid }
    requires bytes_long { length bytes.old ≡ record_length free.now.grid.sheet.rows free.now.grid.sheet.cols }
    requires known_long { length known.old ≡ cells_in free.now.grid }
    ensures { bytes.new ≡ record_bytes free.now.grid.sheet.rows free.now.grid.sheet.cols position.row position.col free.now.grid.codes.now counts.now }
{
    clear(known);
    let tile = as_tile(&free.grid);
    let mut to = Writer::new(bytes);
    write_sides(&mut to, tile, position);
    write_counts(&mut to, tile, counts);
    write_ways(&mut to, free, known);
}
