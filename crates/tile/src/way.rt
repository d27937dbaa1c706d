// The way of a border cell, and the numbers by which a border record tells that it has none over the edge.
ghost use Rattle.std.specs.Prelude.{◌≡◌};
ghost use Rattle.tile.specs.Told.{told};

// The border number of such a way.
pub const NO_WAY: u16 = 65535;

// The code with it, where the cell is absent.
pub const ABSENT: u8 = 255;

// The code with it, where the water ends inside the tile.
pub const ENDS_INSIDE: u8 = 0;

// Where the water of a border cell leaves the tile: the cell is absent, its water ends inside, or it leaves over the edge at a border cell with
// this number and this code.
#[derive(Clone, Copy)]
pub enum BorderWay {
    Absent,
    Inside,
    Over { number: u16, code: u8 },
}

impl BorderWay {
    // The number and the code that a record holds.
    pub fn fields(self) -> (u16, u8)
        ensures number { result.0 ≡ (told self).number }
        ensures code { result.1 ≡ (told self).code }
    {
        match self {
            BorderWay::Absent => (NO_WAY, ABSENT),
            BorderWay::Inside => (NO_WAY, ENDS_INSIDE),
            BorderWay::Over { number, code } => (number, code),
        }
    }
}
