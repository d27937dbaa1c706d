// What is gathered over a whole sheet: the first bad code, the number of land cells, the greatest count; and a buffer cleared.
ghost use Rattle.std.specs.Prelude.{◌≡◌, length, replicate};
ghost use Rattle.flow.specs.Net.{number};
ghost use Rattle.promise.specs.First.{Finds};
ghost use Rattle.sheet.specs.Leaves.{bad_at};
ghost use Rattle.sheet.specs.Sheet.{CodeOk, land_at, count_at};
ghost use Rattle.sheet.specs.Totals.{greatest_below};

use crate::compass::{is_arrow, is_code};

// The number of bad codes. (No early end, so that many cells are tested at once.)
fn bad_number(grid: &[u8]) -> usize
    ensures { result ≡ number (length grid.now) (bad_at grid.now) }
{
    let mut n: usize = 0;
    for code in grid {
        if !is_code(*code) {
            n += 1;
        }
    }
    n
}

// The first place with a bad code: sought only where there is one.
pub fn first_bad_code(grid: &[u8]) -> Option<usize>
    ensures { Finds (length grid.now) (CodeOk grid.now) result }
{
    if bad_number(grid) == 0 {
        return None;
    }
    grid.iter().position(|code| !is_code(*code))
}

// Clears a buffer.
pub fn clear(buffer: &mut [u32])
    ensures { buffer.new ≡ replicate (length buffer.old) 0 }
{
    buffer.fill(0);
}

// The number of land cells.
pub fn land_number(grid: &[u8]) -> usize
    ensures { result ≡ number (length grid.now) (land_at grid.now) }
{
    let mut n: usize = 0;
    for code in grid {
        if is_arrow(*code) {
            n += 1;
        }
    }
    n
}

// The greatest count, and 0 where there is none.
pub fn greatest(counts: &[u32]) -> u32
    ensures { result ≡ greatest_below (length counts.now) (count_at counts.now) }
{
    counts.iter().fold(0, |most, count| most.max(*count))
}
