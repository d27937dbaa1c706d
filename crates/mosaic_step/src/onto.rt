// The border cell of the mosaic that an exit steps onto.
use crate::line::{number_after, piece_after};
use crate::tiles::MosaicTile;
use sheet::step::{Spot, after};
use tile::border::{border_number, border_spot};

impl MosaicTile<'_> {
    ghost use Rattle.sheet.specs.Grid.{LeadsTo};
    ghost use Rattle.mosaic_step.specs.Mosaic.{all_in};
    ghost use Rattle.mosaic_step.specs.Tiles.{IsExit, sought_by};

    // The border cell that exit b steps onto, by its number in the mosaic, where it does not step off the mosaic. A step may leave the tile by its
    // row, by its column, or by both; row and column are sought alike. Nothing is divided.
    pub fn onto(&self, b: usize) -> Option<usize>
        requires { IsExit self.now b }
        ensures { LeadsTo (all_in self.now.tiles.mosaic) (sought_by self.now b) result }
    {
        let mosaic = self.tiles.mosaic;
        let tile = self.border.tile;
        let past = after(border_spot(tile, b), self.border.code(b));
        let row = piece_after(mosaic.tile_rows, self.spot.row, tile.rows, past.row)?;
        let col = piece_after(mosaic.tile_cols, self.spot.col, tile.cols, past.col)?;
        let next = self.tiles.tile_at(Spot { row, col });
        let there = next.border.tile;
        let landing = Spot {
            row: number_after(self.spot.row, past.row, row, there.rows),
            col: number_after(self.spot.col, past.col, col, there.cols),
        };
        Some(next.first + border_number(there, landing))
    }
}
