// Where the border cells of a mosaic lead.
ghost use Rattle.std.specs.Prelude.{◌≡◌};
ghost use Rattle.mosaic_step.specs.Mosaic.{all_in};
ghost use Rattle.mosaic_net.specs.Net.{leads_in};

use crate::write::Told;
use mosaic_step::tiles::MosaicTile;
use tile::way::BorderWay;

// The exit that a border cell leads to, by its number in the mosaic, whose border cells are `none` in number; that where the water ends inside,
// and one more where the cell is absent.
#[derive(Clone, Copy)]
pub struct Leads {
    pub none: usize,
}

impl Told for Leads {
    ghost fits = { λ s m. s.none ≡ all_in m };

    ghost tells = { λ _ m. leads_in m };

    fn tell(&self, tile: &MosaicTile, b: usize) -> u32 {
        match tile.border.told(b) {
            BorderWay::Absent => (self.none + 1) as u32,
            BorderWay::Inside => self.none as u32,
            BorderWay::Over { number, .. } => (tile.first + usize::from(number)) as u32,
        }
    }
}
