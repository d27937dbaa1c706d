// Walks to the last cells of paths, in a tile without loops.
ghost use Rattle.std.specs.Prelude.{◌≡◌, ◌<◌};
ghost use Rattle.tile_ways.specs.Ways.{Known};

use crate::free::FreeGrid;
use sheet::compass::is_arrow;
use sheet::step::Spot;
use tile::way::BorderWay;

// A tile, and the last cells that are known: `known` holds one more than the place of the last cell of a cell's path, or 0 where that is not
// known yet, so that no cell's last cell is sought again once it is known.
#[derive(Drop)]
pub struct Walk<'a> {
    pub free: &'a FreeGrid<'a>,
    pub known: &'a mut [u32],
    pub ghost right: { Known free.now.grid.sheet.rows free.now.grid.sheet.cols free.now.grid.codes.now known.now },
}

impl<'a> Walk<'a> {
    ghost use Rattle.std.specs.Prelude.{MatchOption};
    ghost use Rattle.sheet.specs.Grid.{OnGrid, cells_in, place_in};
    ghost use Rattle.sheet.specs.Sheet.{count_at};
    ghost use Rattle.tile.specs.Told.{told};
    ghost use Rattle.tile_ways.specs.Ways.{last_in, way_in};

    // The place of the last cell of the path from place p, where it is known.
    fn known_last(&self, p: usize) -> Option<usize>
        requires { p < cells_in self.now.free.now.grid }
        ensures { MatchOption result (count_at self.now.known.now p ≡ 0) (λ e. e ≡ last_in self.now.free.now.grid p) }
    {
        let last = self.known[p].checked_sub(1)?;
        Some(last as usize)
    }

    // The place of the last cell of the path from a cell: down to a cell that knows it, or to the end.
    fn seek_last(&self, from: Spot) -> usize
        requires { OnGrid self.now.free.now.grid from }
        ensures { result ≡ last_in self.now.free.now.grid (place_in self.now.free.now.grid from) }
    {
        let mut at = from;
        loop {
            let p = self.free.grid.sheet.place(at);
            if let Some(last) = self.known_last(p) {
                return last;
            }
            let Some(next) = self.free.grid.next(at) else {
                return p;
            };
            at = next;
        }
    }

    // Stores it at each cell of the path that does not know it yet.
    fn mark_path(&mut self, from: Spot, last: usize)
        requires on_grid { OnGrid self.old.free.now.grid from }
        requires last_is { last ≡ last_in self.old.free.now.grid (place_in self.old.free.now.grid from) }
        ensures { self.new.free ≡ self.old.free }
    {
        let mut at = from;
        loop {
            let p = self.free.grid.sheet.place(at);
            if self.known[p] != 0 {
                return;
            }
            self.known[p] = (last + 1) as u32;
            let Some(next) = self.free.grid.next(at) else {
                return;
            };
            at = next;
        }
    }

    // The place of the last cell of the path from a cell.
    fn last_of(&mut self, from: Spot) -> usize
        requires { OnGrid self.old.free.now.grid from }
        ensures value { result ≡ last_in self.old.free.now.grid (place_in self.old.free.now.grid from) }
        ensures stays { self.new.free ≡ self.old.free }
    {
        let last = self.seek_last(from);
        self.mark_path(from, last);
        last
    }

    // The way of a cell.
    pub fn way_of(&mut self, at: Spot) -> BorderWay
        requires { OnGrid self.old.free.now.grid at }
        ensures way { told result ≡ way_in self.old.free.now.grid (place_in self.old.free.now.grid at) }
        ensures stays { self.new.free ≡ self.old.free }
    {
        let free = self.free;
        let sheet = free.grid.sheet;
        if !is_arrow(free.grid.codes[sheet.place(at)]) {
            return BorderWay::Absent;
        }
        let end = sheet.spot(self.last_of(at));
        free.way_from(end)
    }
}
