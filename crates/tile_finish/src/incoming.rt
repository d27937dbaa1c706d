// What comes in at the border cells of a tile from other tiles.
ghost use Rattle.std.specs.Prelude.{◌≡◌, length, replicate};
ghost use Rattle.promise.specs.First.{Finds};
ghost use Rattle.sheet.specs.Grid.{cells_in};
ghost use Rattle.sheet.specs.Shape.{TileShape};
ghost use Rattle.tile.specs.Border.{border_cells};
ghost use Rattle.tile_finish.specs.Method.{may_come_in};

use sheet::compass::is_arrow;
use sheet::grid::Grid;
use tile::border::border_place;
use tile::shape::as_tile;

// The most that comes in at one cell: the cells of the greatest mosaic.
const MOST: u32 = 4194304;

// Whether what comes in at a border cell with this code can be taken.
#[tactic(auto, unfolding(crate::specs::Method::may_come_in))]
fn may_come_in(code: u8, n: u32) -> bool
    ensures { result ≡ may_come_in code n }
{
    n <= MOST && (is_arrow(code) || n == 0)
}

// A tile with its codes, and a number for each of its border cells, which comes in there.
#[derive(Clone, Copy)]
pub struct Incoming<'g, 'n> {
    pub grid: Grid<'g>,
    pub numbers: &'n [u32],
    pub ghost small: { TileShape grid.sheet.rows grid.sheet.cols },
    pub ghost numbers_long: { length numbers.now ≡ border_cells grid.sheet.rows grid.sheet.cols },
}

impl<'g, 'n> Incoming<'g, 'n> {
    ghost use Rattle.tile_finish.specs.Finish.{IncomingOk};
    ghost use Rattle.tile_finish.specs.Method.{Spread};

    // The first border cell at which more comes in than can be taken.
    pub fn first_bad(&self) -> Option<usize>
        ensures { Finds (border_cells self.now.grid.sheet.rows self.now.grid.sheet.cols) (IncomingOk self.now.grid.sheet.rows self.now.grid.sheet.cols self.now.grid.codes.now self.now.numbers.now) result }
    {
        let tile = as_tile(&self.grid);
        for (b, n) in self.numbers.iter().enumerate() {
            if !may_come_in(self.grid.codes[border_place(tile, b)], *n) {
                return Some(b);
            }
        }
        None
    }

    // Lays out by place what comes in, in a cleared buffer.
    pub fn spread(&self, work: &mut [u32])
        requires { work.old ≡ replicate (cells_in self.now.grid) 0 }
        ensures { Spread self.now.grid.sheet.rows self.now.grid.sheet.cols self.now.numbers.now work.new (border_cells self.now.grid.sheet.rows self.now.grid.sheet.cols) }
    {
        let tile = as_tile(&self.grid);
        for (b, n) in self.numbers.iter().enumerate() {
            work[border_place(tile, b)] = *n;
        }
    }
}
