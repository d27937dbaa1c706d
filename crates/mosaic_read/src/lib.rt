// Reading the border records of a mosaic: whether they are well formed, or the first fault.
#![tactic(auto)]

pub mod bytes;
mod parts;
mod reading;
pub mod record;
mod way;

ghost use Rattle.mosaic_read.specs.Read.{MosaicShape, ReadPromise, read_reply};

use crate::reading::Reading;

// A field is malformed (8), or a record does not fit the mosaic (9), at a byte.
#[derive(Clone, Copy, PartialEq, Eq, Debug)]
pub enum ReadError {
    Record(usize),
    Layout(usize),
}

// Reads the records of a mosaic, tile row by tile row, and sums rows and columns on the way: how many border cells they have, where all is well formed.
// Nothing is stored.
pub fn read_records(tile_rows: usize, tile_cols: usize, records: &[u8]) -> Result<usize, ReadError>
    requires { MosaicShape tile_rows tile_cols }
    ensures { ReadPromise tile_rows tile_cols records.now (read_reply result) }
{
    let tiles = tile_rows * tile_cols;
    let mut reading = Reading::new(records, tile_cols);
    for _ in 0..tiles {
        let record = reading.read()?;
        reading = reading.past(&record);
    }
    let end = reading.start;
    if end < records.len() {
        return Err(ReadError::Record(end));
    }
    Ok((end - 17 * tiles) / 7)
}
