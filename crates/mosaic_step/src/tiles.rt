// The tiles of a mosaic, each found by the table of its records.
ghost use Rattle.std.specs.Prelude.{◌≡◌, ◌*◌, ◌<◌};
ghost use Rattle.mosaic.specs.Layout.{borders_before};
ghost use Rattle.mosaic_read.specs.Records.{start_of, heights, widths};
ghost use Rattle.mosaic_read.specs.BorderRecord.{IsAt};
ghost use Rattle.mosaic_step.specs.Stands.{TileIs};
ghost use Rattle.mosaic_step.specs.Mosaic.{TableOf};

use crate::records::Mosaic;
use mosaic_read::record::BorderRecord;
use sheet::step::Spot;

// A mosaic with its table.
#[derive(Clone, Copy)]
pub struct Tiles<'a> {
    pub mosaic: Mosaic<'a>,
    pub table: &'a [u32],
    pub ghost filled: { TableOf mosaic table.now },
}

// A tile of a mosaic: its number, its spot (its tile row and tile column), its record, and the number in the mosaic of its first border cell.
#[derive(Clone, Copy)]
pub struct MosaicTile<'a> {
    pub tiles: Tiles<'a>,
    pub number: usize,
    pub spot: Spot,
    pub border: BorderRecord<'a>,
    pub first: usize,
    pub ghost stands: { TileIs tiles.mosaic.tile_rows tiles.mosaic.tile_cols number spot.row spot.col },
    pub ghost told: { IsAt tiles.mosaic.records.now (start_of tiles.mosaic.records.now number) border },
    pub ghost before: { first ≡ borders_before tiles.mosaic.tile_cols (heights tiles.mosaic.records.now tiles.mosaic.tile_cols) (widths tiles.mosaic.records.now) number },
}

impl<'a> Tiles<'a> {
    // The number of its tiles.
    pub fn count(&self) -> usize
        ensures { result ≡ self.now.mosaic.tile_rows * self.now.mosaic.tile_cols }
    {
        self.mosaic.tile_rows * self.mosaic.tile_cols
    }

    // The number in the mosaic of the first border cell of a tile.
    pub fn first(&self, number: usize) -> usize
        requires { number < self.now.mosaic.tile_rows * self.now.mosaic.tile_cols }
        ensures { result ≡ borders_before self.now.mosaic.tile_cols (heights self.now.mosaic.records.now self.now.mosaic.tile_cols) (widths self.now.mosaic.records.now) number }
    {
        self.table[2 * number + 1] as usize
    }

    // The tile in a tile row and a tile column. Nothing is divided.
    pub fn tile_at(&self, spot: Spot) -> MosaicTile<'a>
        requires { (spot.row < self.now.mosaic.tile_rows) × (spot.col < self.now.mosaic.tile_cols) }
        ensures tiles_are { result.tiles ≡ self.now }
        ensures spot_is { result.spot ≡ spot }
    {
        let number = spot.row * self.mosaic.tile_cols + spot.col;
        MosaicTile {
            tiles: *self,
            number,
            spot,
            border: BorderRecord::at(self.mosaic.records, self.table[2 * number] as usize),
            first: self.first(number),
        }
    }

    // The tile of a number.
    pub fn tile(&self, number: usize) -> MosaicTile<'a>
        requires { number < self.now.mosaic.tile_rows * self.now.mosaic.tile_cols }
        ensures tiles_are { result.tiles ≡ self.now }
        ensures number_is { result.number ≡ number }
    {
        self.tile_at(Spot {
            row: number / self.mosaic.tile_cols,
            col: number % self.mosaic.tile_cols,
        })
    }
}
