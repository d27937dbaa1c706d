// The way of a border cell, read from its record.
ghost use Rattle.std.specs.Prelude.{◌<◌};

use crate::record::BorderRecord;
use tile::way::{ABSENT, BorderWay, ENDS_INSIDE, NO_WAY};

impl BorderRecord<'_> {
    ghost use Rattle.mosaic_read.specs.BorderRecord.{Inside};
    ghost use Rattle.mosaic_read.specs.BorderWay.{Tells};

    // The way of border cell b. What is neither mark names a border cell, be it one of the tile or not.
    pub fn told(&self, b: usize) -> BorderWay
        requires { Inside self.now × (b < self.now.borders) }
        ensures { Tells self.now b result }
    {
        match (self.way(b), self.code(b)) {
            (NO_WAY, ABSENT) => BorderWay::Absent,
            (NO_WAY, ENDS_INSIDE) => BorderWay::Inside,
            (number, code) => BorderWay::Over { number, code },
        }
    }
}
