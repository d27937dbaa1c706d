// The border cells of a tile, by closed forms: how many there are, the number of the one in a row and column, and where a number stands.
ghost use Rattle.std.specs.Prelude.{true, ◌≡◌, ◌+◌, ◌*◌, ◌<◌};
ghost use Rattle.sheet.specs.Leaves.{Cell, SpotIs};
ghost use Rattle.tile.specs.Border.{edge_at, border_cells, border_number, border_place};

use sheet::shape::Tile;
use sheet::step::Spot;

// How many border cells a tile has: with one column or one row all, otherwise each corner once.
pub fn border_cells(tile: Tile) -> usize
    ensures { result ≡ border_cells tile.rows tile.cols }
{
    let Tile { rows, cols } = tile;
    if cols == 1 {
        return rows;
    }
    if rows == 1 {
        return cols;
    }
    2 * rows + 2 * cols - 4
}

// The number of the border cell of a row and column. Before row r stand the first row and two cells of each row between.
pub fn border_number(tile: Tile, at: Spot) -> usize
    requires cell { Cell tile.rows tile.cols at.row at.col }
    requires on_edge { edge_at tile.rows tile.cols at.row at.col ≡ true }
    ensures { result ≡ border_number tile.rows tile.cols (at.row * tile.cols + at.col) }
{
    let Tile { rows, cols } = tile;
    let Spot { row: r, col: c } = at;
    if cols == 1 {
        return r;
    }
    if r == 0 {
        return c;
    }
    let before = cols + 2 * (r - 1);
    if r + 1 < rows {
        if c == 0 {
            return before;
        }
        return before + 1;
    }
    before + c
}

// The row and column of border cell b.
pub fn border_spot(tile: Tile, b: usize) -> Spot
    requires { b < border_cells tile.rows tile.cols }
    ensures { SpotIs tile.rows tile.cols result (border_place tile.rows tile.cols b) }
{
    let Tile { rows, cols } = tile;
    if cols == 1 {
        return Spot { row: b, col: 0 };
    }
    if b < cols {
        return Spot { row: 0, col: b };
    }
    let past = b - cols;
    let between = 2 * (rows - 2);
    if between <= past {
        return Spot {
            row: rows - 1,
            col: past - between,
        };
    }
    if past % 2 == 0 {
        return Spot {
            row: past / 2 + 1,
            col: 0,
        };
    }
    Spot {
        row: past / 2 + 1,
        col: cols - 1,
    }
}

// The place of border cell b.
pub fn border_place(tile: Tile, b: usize) -> usize
    requires { b < border_cells tile.rows tile.cols }
    ensures value { result ≡ border_place tile.rows tile.cols b }
    ensures inside { result < tile.rows * tile.cols }
{
    tile.sheet().place(border_spot(tile, b))
}
