// What C and Rust call: one thin function for each operation, with the operation's promise. include/drainage.h declares the same for C.
#![tactic(auto)]

pub mod mosaics;
pub mod reply;
pub mod tiles;

ghost use Rattle.std.specs.Prelude.{◌≡◌};
ghost use Rattle.drainage.specs.Calls.{CountCall, CheckCall, MendCall};
ghost use Rattle.drainage.specs.Version.{version};

use crate::reply::Flat;

#[unsafe(no_mangle)]
pub extern "C" fn drainage_version() -> u32
    ensures { result ≡ version }
{
    1
}

#[unsafe(no_mangle)]
pub extern "C" fn drainage_count(rows: usize, cols: usize, grid: &[u8], counts: &mut [u32]) -> Flat
    ensures { CountCall rows cols grid.now counts.old result counts.new }
{
    Flat::from(count::count(rows, cols, grid, counts))
}

#[unsafe(no_mangle)]
pub extern "C" fn drainage_check(rows: usize, cols: usize, grid: &[u8], counts: &[u32]) -> Flat
    ensures { CheckCall rows cols grid.now counts.now result }
{
    Flat::from(checking::check(rows, cols, grid, counts))
}

#[unsafe(no_mangle)]
pub extern "C" fn drainage_mend(
    rows: usize,
    cols: usize,
    grid: &mut [u8],
    counts: &mut [u32],
    place: usize,
    code: u8,
) -> Flat
    ensures { MendCall rows cols grid.old counts.old place code result grid.new counts.new }
{
    Flat::from(mend::mend(rows, cols, grid, counts, place, code))
}
