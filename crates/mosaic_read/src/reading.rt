// How far reading the records of a mosaic has come, and the step past a record.
ghost use Rattle.std.specs.Prelude.{◌≡◌, ◌≤◌};
ghost use Rattle.mosaic_read.specs.Method.{Reached, Says};

use crate::ReadError;
use crate::bytes::{start_of, two_at};
use crate::record::BorderRecord;
use sheet::shape::Sheet;

// All records before record t are read. It begins at byte `start`; above its tile row stand so many rows, and left of its tile column so many columns.
#[derive(Clone, Copy)]
pub struct Reading<'a> {
    pub records: &'a [u8],
    pub tile_cols: usize,
    pub t: usize,
    pub start: usize,
    pub above: usize,
    pub left: usize,
    pub ghost reached: { Reached records.now tile_cols t start above left },
}

impl<'a> Reading<'a> {
    ghost use Rattle.mosaic_read.specs.Records.{PlacedOk, RecordOk};
    ghost use Rattle.mosaic_read.specs.BorderRecord.{IsAt};
    ghost use Rattle.mosaic_read.specs.Reading.{ReadsRecord, NextRecord};

    // Before the first record.
    pub fn new(records: &'a [u8], tile_cols: usize) -> Self
        requires { 1 ≤ tile_cols }
        ensures records_are { result.records.now ≡ records.now }
        ensures tile_cols_are { result.tile_cols ≡ tile_cols }
        ensures t_is { result.t ≡ 0 }
    {
        Reading {
            records,
            tile_cols,
            t: 0,
            start: 0,
            above: 0,
            left: 0,
        }
    }

    // Whether record t fits the mosaic.
    fn placed_ok(&self, border: &BorderRecord) -> bool
        requires { IsAt self.now.records.now self.now.start border.now }
        ensures { Says (PlacedOk self.now.records.now self.now.tile_cols self.now.t) result }
    {
        let bytes = self.records;
        let i = self.t / self.tile_cols;
        let j = self.t % self.tile_cols;
        if two_at(bytes, self.start + 7) != i {
            return false;
        }
        if two_at(bytes, self.start + 9) != j {
            return false;
        }
        let beginning = start_of(bytes, i * self.tile_cols);
        if border.tile.rows != two_at(bytes, beginning + 3) {
            return false;
        }
        let top = start_of(bytes, j);
        if border.tile.cols != two_at(bytes, top + 5) {
            return false;
        }
        if Sheet::MOST_ROWS < self.above + border.tile.rows {
            return false;
        }
        self.left + border.tile.cols <= Sheet::MOST_COLS
    }

    // Reads record t, part by part.
    pub fn read(&self) -> Result<BorderRecord<'a>, ReadError>
        ensures { ReadsRecord self.now result }
    {
        let Some(record) = BorderRecord::read(self.records, self.start) else {
            return Err(ReadError::Record(self.start));
        };
        if !self.placed_ok(&record) {
            return Err(ReadError::Layout(self.start));
        }
        if !record.counts_ok() {
            return Err(ReadError::Record(self.start + 11));
        }
        if !record.ways_ok() {
            return Err(ReadError::Record(self.start + 14 + 4 * record.borders));
        }
        Ok(record)
    }

    // Past record t.
    pub fn past(&self, border: &BorderRecord) -> Self
        requires is_at { IsAt self.now.records.now self.now.start border.now }
        requires well_formed { RecordOk self.now.records.now self.now.tile_cols self.now.t }
        ensures { NextRecord self.now result }
    {
        let (above, left) = if self.t % self.tile_cols + 1 == self.tile_cols {
            (self.above + border.tile.rows, 0)
        } else {
            (self.above, self.left + border.tile.cols)
        };
        Reading {
            records: self.records,
            tile_cols: self.tile_cols,
            t: self.t + 1,
            start: border.end(),
            above,
            left,
        }
    }
}
