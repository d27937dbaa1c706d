// The shape of a sheet that is a tile.
ghost use Rattle.std.specs.Prelude.{◌≡◌};
ghost use Rattle.sheet.specs.Shape.{TileShape};

use sheet::grid::Grid;
use sheet::shape::{Shape, Tile};

// The shape of a grid that is no greater than a tile.
pub fn as_tile(grid: &Grid<'_>) -> Tile
    requires { TileShape grid.now.sheet.rows grid.now.sheet.cols }
    ensures rows { result.rows ≡ grid.now.sheet.rows }
    ensures cols { result.cols ≡ grid.now.sheet.cols }
{
    Shape {
        rows: grid.sheet.rows,
        cols: grid.sheet.cols,
    }
}
