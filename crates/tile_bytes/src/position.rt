// Where a tile stands in a mosaic.
ghost use Rattle.std.specs.Prelude.{◌≤◌};

// The tile's row and column in a mosaic, which has at most 64 tiles in a row or a column.
#[derive(Clone, Copy)]
pub struct Position {
    pub row: usize,
    pub col: usize,
    pub ghost most: { (row ≤ 63) × (col ≤ 63) },
}

impl Position {
    ghost use Rattle.tile_bytes.specs.Position.{Stands};

    // The position, where a mosaic has it.
    pub fn new(row: usize, col: usize) -> Option<Self>
        ensures { Stands row col result }
    {
        if row <= 63 && col <= 63 {
            Some(Position { row, col })
        } else {
            None
        }
    }
}
