// The parts of a border record after field 1, each held to paper 01. A field that is cut short fails its part.
ghost use Rattle.std.specs.Prelude.{◌<◌, ◌≤◌, length};
ghost use Rattle.mosaic_read.specs.Records.{ways_start};
ghost use Rattle.mosaic_read.specs.Method.{Says};

use crate::bytes::two_at;
use crate::record::BorderRecord;
use sheet::compass::is_arrow;
use tile::border::border_spot;
use tile::way::BorderWay;

impl BorderRecord<'_> {
    ghost use Rattle.mosaic_read.specs.BorderRecord.{Inside, RecordCountsOk, RecordWayOk, RecordWaysOk};

    // Whether field 2 is well formed.
    pub fn counts_ok(&self) -> bool
        ensures { Says (RecordCountsOk self.now) result }
    {
        let bytes = self.bytes;
        if bytes.len() - self.start < 14 + 4 * self.borders {
            return false;
        }
        let start = self.start + 11;
        if bytes[start] != 2 {
            return false;
        }
        if two_at(bytes, start + 1) != 4 * self.borders {
            return false;
        }
        let cells = self.tile.rows * self.tile.cols;
        (0..self.borders).all(|b| self.count(b) as usize <= cells)
    }

    // Whether the way of border cell b is well formed.
    fn way_ok(&self, b: usize) -> bool
        requires inside { Inside self.now }
        requires b_lt_borders { b < self.now.borders }
        ensures { Says (RecordWayOk self.now b) result }
    {
        let count = self.count(b);
        match self.told(b) {
            BorderWay::Absent => count == 0,
            BorderWay::Inside => count != 0,
            BorderWay::Over { number, code } => {
                if count == 0 {
                    return false;
                }
                let to = usize::from(number);
                if self.borders <= to {
                    return false;
                }
                if self.way(to) != number {
                    return false;
                }
                if self.code(to) != code {
                    return false;
                }
                if !is_arrow(code) {
                    return false;
                }
                let spot = border_spot(self.tile, to);
                self.tile.sheet().beside(spot, code).is_none()
            }
        }
    }

    // Whether field 3 is well formed.
    pub fn ways_ok(&self) -> bool
        requires { ways_start self.now.start self.now.borders ≤ length self.now.bytes.now }
        ensures { Says (RecordWaysOk self.now) result }
    {
        let bytes = self.bytes;
        if bytes.len() - self.start < 17 + 7 * self.borders {
            return false;
        }
        let start = self.start + 14 + 4 * self.borders;
        if bytes[start] != 3 {
            return false;
        }
        if two_at(bytes, start + 1) != 3 * self.borders {
            return false;
        }
        (0..self.borders).all(|b| self.way_ok(b))
    }
}
