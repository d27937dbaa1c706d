// What is told of each border cell of a mosaic, and a list of it. One way of filling serves all such lists.
ghost use Rattle.std.specs.Prelude.{◌≡◌, ◌+◌, ◌<◌, ℕ, length};
ghost use Rattle.mosaic_step.specs.Mosaic.{all_in};
ghost use Rattle.mosaic_step.specs.declared.records.Mosaic.{Mosaic};
ghost use Rattle.mosaic_net.specs.Net.{AllFilled};

use mosaic_step::tiles::{MosaicTile, Tiles};

// A number for each border cell of a mosaic. It is told of some mosaics only, which it fits.
pub trait Told {
    ghost fits: { Self → Mosaic → Type 0 };

    ghost tells: { Self → Mosaic → ℕ → ℕ };

    // That of border cell b of a tile.
    fn tell(&self, tile: &MosaicTile, b: usize) -> u32
        requires fits { fits self.now tile.now.tiles.mosaic }
        requires border { b < tile.now.border.borders }
        ensures { result ≡ tells self.now tile.now.tiles.mosaic (tile.now.first + b) };
}

// Writes what is told of all border cells.
pub fn fill<T: Told>(tiles: &Tiles, told: &T, list: &mut [u32])
    requires fits { T.fits told.now tiles.now.mosaic }
    requires long { length list.old ≡ all_in tiles.now.mosaic }
    ensures { AllFilled tiles.now.mosaic (T.tells told.now tiles.now.mosaic) list.new }
{
    for t in 0..tiles.count() {
        let tile = tiles.tile(t);
        for b in 0..tile.border.borders {
            list[tile.first + b] = told.tell(&tile, b);
        }
    }
}
