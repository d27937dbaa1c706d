// Tiles without loops, with their codes.
ghost use Rattle.std.specs.Prelude.{true, ◌≡◌};
ghost use Rattle.sheet.specs.Grid.{OnGrid, land_in, place_in};
ghost use Rattle.tile_ways.specs.Ways.{FreeTile};

use sheet::grid::Grid;
use sheet::step::Spot;
use tile::border::border_number;
use tile::shape::as_tile;
use tile::way::BorderWay;

// The codes of a tile whose arrows form no loop.
#[derive(Clone, Copy)]
pub struct FreeGrid<'a> {
    pub grid: Grid<'a>,
    pub ghost free: { FreeTile grid.sheet.rows grid.sheet.cols grid.codes.now },
}

impl<'a> FreeGrid<'a> {
    ghost use Rattle.tile.specs.Told.{told};
    ghost use Rattle.tile_ways.specs.Ways.{end_way_in};

    // The way of a path whose last cell this is: over the edge there, or it ends inside.
    pub fn way_from(&self, at: Spot) -> BorderWay
        requires on_grid { OnGrid self.now.grid at }
        requires on_land { land_in self.now.grid (place_in self.now.grid at) ≡ true }
        ensures { told result ≡ end_way_in self.now.grid (place_in self.now.grid at) }
    {
        let sheet = self.grid.sheet;
        let code = self.grid.codes[sheet.place(at)];
        match sheet.beside(at, code) {
            Some(_) => BorderWay::Inside,
            None => BorderWay::Over {
                number: border_number(as_tile(&self.grid), at) as u16,
                code,
            },
        }
    }
}
