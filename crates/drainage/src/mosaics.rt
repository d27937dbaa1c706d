// Mosaics, for C and Rust: how long the lent buffers are, and joining border records.
ghost use Rattle.std.specs.Prelude.{◌≡◌};
ghost use Rattle.mosaic_join.specs.Joining.{works};
ghost use Rattle.drainage.specs.Calls.{JoinCall};

use crate::reply::Flat;

// Joining has four work buffers of one number for each border cell of the mosaic.
#[unsafe(no_mangle)]
pub extern "C" fn drainage_join_work1(border_cells: usize) -> usize
    ensures { result ≡ border_cells }
{
    border_cells
}

#[unsafe(no_mangle)]
pub extern "C" fn drainage_join_work2(border_cells: usize) -> usize
    ensures { result ≡ border_cells }
{
    border_cells
}

#[unsafe(no_mangle)]
pub extern "C" fn drainage_join_work3(border_cells: usize) -> usize
    ensures { result ≡ border_cells }
{
    border_cells
}

#[unsafe(no_mangle)]
pub extern "C" fn drainage_join_work4(border_cells: usize) -> usize
    ensures { result ≡ border_cells }
{
    border_cells
}

// And a fifth of two for each of 64 tiles.
#[unsafe(no_mangle)]
pub extern "C" fn drainage_join_work5(_border_cells: usize) -> usize
    ensures { result ≡ 128 }
{
    128
}

#[unsafe(no_mangle)]
pub extern "C" fn drainage_join(
    tile_rows: usize,
    tile_cols: usize,
    records: &[u8],
    incoming: &mut [u32],
    work1: &mut [u32],
    work2: &mut [u32],
    work3: &mut [u32],
    work4: &mut [u32],
    work5: &mut [u32],
) -> Flat
    ensures { JoinCall tile_rows tile_cols records.now incoming.old (works work1.old work2.old work3.old work4.old work5.old) result incoming.new (works work1.new work2.new work3.new work4.new work5.new) }
{
    Flat::from(mosaic_join::join(
        tile_rows, tile_cols, records, incoming, work1, work2, work3, work4, work5,
    ))
}
