// A border record whose sides are a tile's: the tile, and what the other fields hold of each border cell.
ghost use Rattle.std.specs.Prelude.{◌≡◌, ◌+◌, ◌*◌, ◌<◌, ◌≤◌, length};
ghost use Rattle.mosaic_read.specs.Records.{rows_at, cols_at, counts_start};
ghost use Rattle.sheet.specs.Shape.{TileShape};
ghost use Rattle.tile.specs.Border.{border_cells};

use crate::bytes::{four_at, two_at};
use sheet::shape::Tile;
use tile::border::border_cells;

// The bytes it stands in, the byte it begins at, its tile, and how many border cells the tile has.
#[derive(Clone, Copy)]
pub struct BorderRecord<'a> {
    pub bytes: &'a [u8],
    pub start: usize,
    pub tile: Tile,
    pub borders: usize,
    pub ghost inside: { counts_start start ≤ length bytes.now },
    pub ghost rows: { tile.rows ≡ rows_at bytes.now start },
    pub ghost cols: { tile.cols ≡ cols_at bytes.now start },
    pub ghost size: { borders ≡ border_cells tile.rows tile.cols },
}

impl<'a> BorderRecord<'a> {
    ghost use Rattle.mosaic_read.specs.BorderRecord.{IsAt, ReadsSides, Inside, record_count, record_way, record_code, record_end};

    // The record that begins at byte `start`, where its field 1 is well formed.
    pub fn read(bytes: &'a [u8], start: usize) -> Option<Self>
        requires { start ≤ length bytes.now }
        ensures { ReadsSides bytes.now start result }
    {
        if bytes.len() - start < 11 {
            return None;
        }
        if bytes[start] != 1 {
            return None;
        }
        if two_at(bytes, start + 1) != 8 {
            return None;
        }
        let tile = Tile::new(two_at(bytes, start + 3), two_at(bytes, start + 5))?;
        Some(BorderRecord {
            bytes,
            start,
            tile,
            borders: border_cells(tile),
        })
    }

    // The record that begins at byte `start`, where its sides are known to be allowed.
    pub fn at(bytes: &'a [u8], start: usize) -> Self
        requires inside { counts_start start ≤ length bytes.now }
        requires shape { TileShape (rows_at bytes.now start) (cols_at bytes.now start) }
        ensures { IsAt bytes.now start result }
    {
        let tile = Tile {
            rows: two_at(bytes, start + 3),
            cols: two_at(bytes, start + 5),
        };
        BorderRecord {
            bytes,
            start,
            tile,
            borders: border_cells(tile),
        }
    }

    // The byte after it.
    pub fn end(&self) -> usize
        requires { Inside self.now }
        ensures { result ≡ record_end self.now }
    {
        self.start + 17 + 7 * self.borders
    }

    // The count of border cell b.
    pub fn count(&self, b: usize) -> u32
        requires { self.now.start + 18 + 4 * b ≤ length self.now.bytes.now }
        ensures { result ≡ record_count self.now b }
    {
        four_at(self.bytes, self.start + 14 + 4 * b)
    }

    // The border number of its way.
    pub fn way(&self, b: usize) -> u16
        requires { Inside self.now × (b < self.now.borders) }
        ensures { result ≡ record_way self.now b }
    {
        two_at(self.bytes, self.start + 17 + 4 * self.borders + 3 * b) as u16
    }

    // The code of its way.
    pub fn code(&self, b: usize) -> u8
        requires { Inside self.now × (b < self.now.borders) }
        ensures { result ≡ record_code self.now b }
    {
        self.bytes[self.start + 17 + 4 * self.borders + 3 * b + 2]
    }
}
