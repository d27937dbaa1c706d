// What the scan leaves without a count: the first such land cell, which is the smallest place on any loop, and the length of its loop.
#![tactic(auto)]

ghost use Rattle.std.specs.Prelude.{◌≡◌, ◌<◌, length};
ghost use Rattle.flow.specs.Net.{number, loop_length};
ghost use Rattle.loops.specs.Left.{NotLeft, left_at};
ghost use Rattle.promise.specs.First.{Finds};
ghost use Rattle.sheet.specs.Grid.{cells_in, dest_in};
ghost use Rattle.sheet.specs.Sheet.{SheetOnLoop};

use round::{Net, others_on_loop};
use sheet::compass::is_arrow;
use sheet::grid::Grid;

// Whether place p is a land cell that is left without a count. (Both are read, so that there is no branch.)
fn is_left(grid: &[u8], counts: &[u32], p: usize) -> bool
    requires { (p < length grid.now) × (p < length counts.now) }
    ensures { result ≡ left_at grid.now counts.now p }
{
    is_arrow(grid[p]) & (counts[p] == 0)
}

// The number of land cells that are left without a count. (No early end, so that many cells are tested at once.)
fn left_number(grid: &[u8], counts: &[u32]) -> usize
    requires { length grid.now ≡ length counts.now }
    ensures { result ≡ number (length grid.now) (left_at grid.now counts.now) }
{
    let mut n: usize = 0;
    for p in 0..grid.len() {
        if is_left(grid, counts, p) {
            n += 1;
        }
    }
    n
}

// The first land cell that is left without a count: sought only where there is one.
pub fn first_left(grid: &[u8], counts: &[u32]) -> Option<usize>
    requires { length grid.now ≡ length counts.now }
    ensures { Finds (length grid.now) (NotLeft grid.now counts.now) result }
{
    if left_number(grid, counts) == 0 {
        return None;
    }
    (0..grid.len()).find(|p| is_left(grid, counts, *p))
}

// A grid as a net that code can follow.
#[derive(Drop)]
struct Waters<'a>(&'a Grid<'a>);

impl Net for Waters<'_> {
    ghost use Rattle.std.proofs.Common.{arith};
    ghost use Rattle.std.proofs.Math.Nat.{mul-le-mul};
    ghost use Rattle.sheet.proofs.Dest.{dest_beyond};
    ghost use Rattle.sheet.specs.Grid.{cells_in, dest_in};

    ghost cells = { λ net. cells_in net.0.now };

    ghost to = { λ net. dest_in net.0.now };

    fn next(&self, p: usize) -> Option<usize> {
        self.0.dest(p)
    }

    ghost few = { λ net. omega (arith, mul-le-mul net.0.now.sheet.bounds.rows_most net.0.now.sheet.bounds.cols_most) };

    ghost out = { λ net. dest_beyond net.0.now.sheet.rows net.0.now.sheet.cols net.0.now.codes.now net.0.now.long };
}

// The length of the loop that `start` lies on, by walking round it.
pub fn loop_length(grid: &Grid<'_>, start: usize) -> usize
    requires { SheetOnLoop grid.now.sheet.rows grid.now.sheet.cols grid.now.codes.now start }
    ensures { result ≡ loop_length (cells_in grid.now) (dest_in grid.now) start }
{
    others_on_loop(&Waters(grid), start) + 1
}
