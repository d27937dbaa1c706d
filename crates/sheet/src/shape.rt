// The shapes that are taken, of a sheet and of a tile; and where a step from a row and a column of a sheet leads.
ghost use Rattle.std.specs.Prelude.{true, ◌≡◌, ◌*◌, ◌<◌};
ghost use Rattle.sheet.specs.Shape.{Within, within};

use crate::step::{Spot, after};

// The most rows, and the most columns, of a sheet.
const SHEET_MOST: usize = 4096;

// The same of a tile.
const TILE_MOST: usize = 256;

// 1 to `MOST` rows and 1 to `MOST` columns.
#[derive(Clone, Copy)]
pub struct Shape<const MOST: usize> {
    pub rows: usize,
    pub cols: usize,
    pub ghost bounds: { Within MOST rows cols },
}

pub type Sheet = Shape<SHEET_MOST>;

pub type Tile = Shape<TILE_MOST>;

// 1 to `most`.
pub fn is_within(n: usize, most: usize) -> bool
    ensures { result ≡ within n most }
{
    1 <= n && n <= most
}

impl<const MOST: usize> Shape<MOST> {
    ghost use Rattle.sheet.specs.Leaves.{Makes};

    // The shape, where it lies within the bounds.
    pub fn new(rows: usize, cols: usize) -> Option<Self>
        ensures { Makes MOST rows cols result }
    {
        if is_within(rows, MOST) && is_within(cols, MOST) {
            Some(Shape { rows, cols })
        } else {
            None
        }
    }
}

impl Tile {
    ghost use Rattle.sheet.specs.Shape.{TileShape};

    pub const MOST_ROWS: usize = TILE_MOST;

    pub const MOST_COLS: usize = TILE_MOST;

    // A tile as a sheet of its own. (The bounds that the type tells are those that `new` tests.)
    pub fn sheet(self) -> Sheet
        ensures tile { TileShape result.rows result.cols }
        ensures rows { result.rows ≡ self.rows }
        ensures cols { result.cols ≡ self.cols }
    {
        prove!(Self::MOST_ROWS == TILE_MOST && Self::MOST_COLS == TILE_MOST);
        Shape {
            rows: self.rows,
            cols: self.cols,
        }
    }
}

impl Sheet {
    ghost use Rattle.sheet.specs.Compass.{is_arrow, step_of};
    ghost use Rattle.sheet.specs.Leaves.{OnSheet, SpotOf, spot_place};
    ghost use Rattle.sheet.specs.Sheet.{step_from};

    pub const MOST_ROWS: usize = SHEET_MOST;

    pub const MOST_COLS: usize = SHEET_MOST;

    // The number of its cells. (The bounds that the type tells are those that `new` tests.)
    pub fn cells(self) -> usize
        ensures { result ≡ self.rows * self.cols }
    {
        prove!(Self::MOST_ROWS == SHEET_MOST && Self::MOST_COLS == SHEET_MOST);
        self.rows * self.cols
    }

    // The place of a row and a column.
    pub fn place(self, at: Spot) -> usize
        requires { OnSheet self at }
        ensures { result ≡ spot_place self at }
    {
        at.row * self.cols + at.col
    }

    // The row and the column of a place.
    pub fn spot(self, p: usize) -> Spot
        requires { p < self.rows * self.cols }
        ensures on_sheet { OnSheet self result }
        ensures place_is { spot_place self result ≡ p }
    {
        Spot {
            row: p / self.cols,
            col: p % self.cols,
        }
    }

    // The row and the column one step of an arrow on, where that is on the sheet.
    pub fn beside(self, at: Spot, code: u8) -> Option<Spot>
        requires on_sheet { OnSheet self at }
        requires code_is_arrow { is_arrow code ≡ true }
        ensures { SpotOf self.rows self.cols result (step_from self.rows self.cols (step_of code) (spot_place self at)) }
    {
        let past = after(at, code);
        if is_within(past.row, self.rows) && is_within(past.col, self.cols) {
            Some(Spot {
                row: past.row - 1,
                col: past.col - 1,
            })
        } else {
            None
        }
    }
}
