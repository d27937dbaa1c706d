// A table of where each record begins and of each tile's first border number, so that neither is counted again.
ghost use Rattle.std.specs.Prelude.{◌≡◌, ◌+◌, ◌*◌, ◌<◌, ◌≤◌, length};
ghost use Rattle.mosaic_read.specs.Records.{rows_at, cols_at};
ghost use Rattle.mosaic_step.specs.Mosaic.{TableOf};
ghost use Rattle.mosaic_step.specs.Table.{start_in};

use crate::records::Mosaic;
use mosaic_read::bytes::two_at;
use mosaic_read::record::BorderRecord;

// Fills the table: from tile to tile the records' bytes and border cells are summed.
pub fn fill_table(mosaic: &Mosaic, table: &mut [u32])
    requires { length table.old ≡ 128 }
    ensures { TableOf mosaic.now table.new }
{
    let mut start = 0;
    let mut first = 0;
    for t in 0..mosaic.tile_rows * mosaic.tile_cols {
        table[2 * t] = start as u32;
        table[2 * t + 1] = first as u32;
        let record = BorderRecord::at(mosaic.records, start);
        start = record.end();
        first += record.borders;
    }
}

// The rows of tile t, by any table and any bytes.
pub fn tile_height(records: &[u8], table: &[u32], t: usize) -> usize
    requires t_in_bounds { 2 * t < length table.now }
    requires record_in_bounds { start_in table.now t + 7 ≤ length records.now }
    ensures value { result ≡ rows_at records.now (start_in table.now t) }
    ensures upper_bound { result < 65536 }
{
    two_at(records, table[2 * t] as usize + 3)
}

// The columns of tile t, by any table and any bytes.
pub fn tile_width(records: &[u8], table: &[u32], t: usize) -> usize
    requires t_in_bounds { 2 * t < length table.now }
    requires record_in_bounds { start_in table.now t + 7 ≤ length records.now }
    ensures value { result ≡ cols_at records.now (start_in table.now t) }
    ensures upper_bound { result < 65536 }
{
    two_at(records, table[2 * t] as usize + 5)
}
