// A sheet with its codes, and where water goes on it.
ghost use Rattle.std.specs.Prelude.{◌≡◌, ◌*◌, length};

use crate::compass::is_arrow;
use crate::shape::Sheet;
use crate::step::Spot;

// The codes of a sheet, one a place, row by row from the north-west.
#[derive(Clone, Copy)]
pub struct Grid<'a> {
    pub sheet: Sheet,
    pub codes: &'a [u8],
    pub ghost long: { length codes.now ≡ sheet.rows * sheet.cols },
}

impl<'a> Grid<'a> {
    ghost use Rattle.std.specs.Prelude.{◌<◌};
    ghost use Rattle.sheet.specs.Grid.{MakesGrid, OnGrid, LeadsTo, land_in, dest_in, place_in, cells_in};
    ghost use Rattle.sheet.specs.Leaves.{SpotOf};

    // The grid, where there are as many codes as the sheet has cells.
    pub fn new(sheet: Sheet, codes: &'a [u8]) -> Option<Self>
        ensures { MakesGrid sheet codes.now result }
    {
        if codes.len() == sheet.cells() {
            Some(Grid { sheet, codes })
        } else {
            None
        }
    }

    // Whether place p is land.
    pub fn is_land(&self, p: usize) -> bool
        requires { p < cells_in self.now }
        ensures { result ≡ land_in self.now p }
    {
        is_arrow(self.codes[p])
    }

    // The row and the column of the land cell that an arrow steps onto, where it steps onto one. Nothing is divided.
    pub fn next(&self, at: Spot) -> Option<Spot>
        requires { OnGrid self.now at }
        ensures { SpotOf self.now.sheet.rows self.now.sheet.cols result (dest_in self.now (place_in self.now at)) }
    {
        let code = self.codes[self.sheet.place(at)];
        if !is_arrow(code) {
            return None;
        }
        let next = self.sheet.beside(at, code)?;
        if is_arrow(self.codes[self.sheet.place(next)]) {
            Some(next)
        } else {
            None
        }
    }

    // The place of the land cell that the arrow of place p steps onto, where it steps onto one.
    pub fn dest(&self, p: usize) -> Option<usize>
        requires { p < cells_in self.now }
        ensures { LeadsTo (cells_in self.now) (dest_in self.now p) result }
    {
        let next = self.next(self.sheet.spot(p))?;
        Some(self.sheet.place(next))
    }
}
