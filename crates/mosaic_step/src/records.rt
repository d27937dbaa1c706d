// A mosaic as its records tell it.
ghost use Rattle.mosaic_step.specs.Table.{WellFormed};

// The well-formed records of an allowed mosaic, and nothing else.
#[derive(Clone, Copy)]
pub struct Mosaic<'a> {
    pub tile_rows: usize,
    pub tile_cols: usize,
    pub records: &'a [u8],
    pub ghost well_formed: { WellFormed tile_rows tile_cols records.now },
}
