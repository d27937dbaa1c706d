// One step of an arrow, from a row and a column.
ghost use Rattle.std.specs.Prelude.{true, ◌≡◌, ◌+◌, ◌<◌, T};
ghost use Rattle.sheet.specs.Compass.{is_arrow, step_of};
ghost use Rattle.sheet.specs.Leaves.{small, lift};

use crate::compass::{Meaning, meaning_of};

// A row and a column.
#[derive(Clone, Copy)]
pub struct Spot {
    pub row: usize,
    pub col: usize,
}

// One more than x moved by d: the one sum of signed numbers.
fn moved(x: usize, d: i32) -> usize
    requires { (x < 4096) × T (small d) }
    ensures { result ≡ x + lift d }
{
    (x as i32 + 1 + d) as usize
}

// One more than the row, and one more than the column, that are one step of an arrow on: no number is below 0.
pub fn after(at: Spot, code: u8) -> Spot
    requires small { (at.row < 4096) × (at.col < 4096) }
    requires code_is_arrow { is_arrow code ≡ true }
    ensures row { result.row ≡ at.row + lift (step_of code).1 }
    ensures col { result.col ≡ at.col + lift (step_of code).2 }
{
    match meaning_of(code) {
        Meaning::Arrow(step) => Spot {
            row: moved(at.row, step.1),
            col: moved(at.col, step.2),
        },
        Meaning::Absent => unreachable!(),
        Meaning::Bad => unreachable!(),
    }
}

// One more than the row that is one step of an arrow from row x, whatever its column.
pub fn row_after(x: usize, code: u8) -> usize
    requires { (x < 4096) × (is_arrow code ≡ true) }
    ensures { result ≡ x + lift (step_of code).1 }
{
    after(Spot { row: x, col: 0 }, code).row
}

// One more than the column that is one step of an arrow from column x, whatever its row.
pub fn col_after(x: usize, code: u8) -> usize
    requires { (x < 4096) × (is_arrow code ≡ true) }
    ensures { result ≡ x + lift (step_of code).2 }
{
    after(Spot { row: 0, col: x }, code).col
}
