// The two moves of mending, and the look ahead before them.
#![tactic(auto)]

ghost use Rattle.std.specs.Prelude.{◌≡◌, ◌*◌, ◌<◌, ◌≤◌, length, set};
ghost use Rattle.sheet.specs.Grid.{cells_in};
ghost use Rattle.sheet.specs.Sheet.{SheetCounts, SheetNoLoop, CountsOf};
ghost use Rattle.mend_moves.specs.Moves.{Follows, FreeWithout, Free, OwingIn, Lands, landing, CountsIn};

use around::givers_sum;
use round::LoopFound;
use sheet::compass::is_arrow;
use sheet::grid::Grid;
use sheet::shape::Sheet;

// What marks the place of a cell that is taken out.
const ABSENT: u8 = 255;

// Follows the water of `start` once, until it comes round or goes to no land cell. Without that cell the sheet has no loop.
fn follow(grid: &Grid<'_>, start: usize) -> Option<LoopFound>
    requires start_bound { start < cells_in grid.now }
    requires no_other_loop { FreeWithout grid.now start }
    ensures { Follows grid.now.sheet.rows grid.now.sheet.cols grid.now.codes.now result }
{
    let mut first = start;
    let mut further = 0;
    let mut next = grid.dest(start);
    while let Some(p) = next {
        if p == start {
            let length = further + 1;
            return Some(LoopFound { first, length });
        }
        first = first.min(p);
        further += 1;
        next = grid.dest(p);
    }
    None
}

// Where the water of `place` would go with the new code. The grid is left as it was.
pub fn look_ahead(sheet: Sheet, codes: &mut [u8], place: usize, new: u8) -> Option<LoopFound>
    requires codes_len { length codes.old ≡ sheet.rows * sheet.cols }
    requires place_bound { place < sheet.rows * sheet.cols }
    requires no_loop { SheetNoLoop sheet.rows sheet.cols codes.old }
    ensures follows { Follows sheet.rows sheet.cols (set codes.old place new) result }
    ensures codes_unchanged { codes.new ≡ codes.old }
{
    let old = codes[place];
    codes[place] = new;
    let round = follow(&Grid { sheet, codes }, place);
    codes[place] = old;
    round
}

// Adds `more` and takes off `less` at the cell `start`, where there is one, and at each cell downstream of it.
fn carry(grid: &Grid<'_>, counts: &mut [u32], start: Option<usize>, more: u32, less: u32)
    requires counts_len { length counts.old ≡ cells_in grid.now }
    requires lands { Lands (cells_in grid.now) start }
    requires no_loop { Free grid.now }
    requires owing { OwingIn grid.now counts.old (landing (cells_in grid.now) start) more less }
    requires less_bound { less ≤ cells_in grid.now }
    ensures { CountsIn grid.now counts.new }
{
    let mut next = start;
    while let Some(p) = next {
        counts[p] = counts[p] + more - less;
        next = grid.dest(p);
    }
}

// Takes a cell out: marks it absent, and takes its count off each cell down its way.
pub fn take_out(sheet: Sheet, codes: &mut [u8], counts: &mut [u32], place: usize)
    requires codes_len { length codes.old ≡ sheet.rows * sheet.cols }
    requires counts_len { length counts.old ≡ sheet.rows * sheet.cols }
    requires place_bound { place < sheet.rows * sheet.cols }
    requires sheet_counts { SheetCounts sheet.rows sheet.cols codes.old counts.old }
    ensures codes_after { codes.new ≡ set codes.old place 255 }
    ensures counts_of { CountsOf sheet.rows sheet.cols (set codes.old place 255) counts.new }
{
    let next = Grid { sheet, codes }.dest(place);
    let held = counts[place];
    codes[place] = ABSENT;
    counts[place] = 0;
    carry(&Grid { sheet, codes }, counts, next, 0, held);
}

// Puts a cell in: stores its code, and where that is an arrow adds 1 and the counts of its givers at it and at each cell down its way.
pub fn put_in(sheet: Sheet, codes: &mut [u8], counts: &mut [u32], place: usize, code: u8)
    requires codes_len { length codes.old ≡ sheet.rows * sheet.cols }
    requires counts_len { length counts.old ≡ sheet.rows * sheet.cols }
    requires place_bound { place < sheet.rows * sheet.cols }
    requires sheet_counts { SheetCounts sheet.rows sheet.cols (set codes.old place 255) counts.old }
    requires no_loop { SheetNoLoop sheet.rows sheet.cols (set codes.old place code) }
    ensures codes_after { codes.new ≡ set codes.old place code }
    ensures counts_of { CountsOf sheet.rows sheet.cols (set codes.old place code) counts.new }
{
    codes[place] = code;
    if !is_arrow(code) {
        return;
    }
    let grid = Grid { sheet, codes };
    let own = givers_sum(&grid, counts, place) + 1;
    carry(&grid, counts, Some(place), own as u32, 0);
}
