// The compass table, and what a code means.
ghost use Rattle.std.specs.Prelude.{◌≡◌};
ghost use Rattle.sheet.specs.Compass.{meaning_of, is_arrow, is_code};

// A code, and its step in rows and columns.
#[derive(Clone, Copy)]
pub struct Step(pub u8, pub i32, pub i32);

// What a code means.
#[derive(Clone, Copy)]
pub enum Meaning {
    Arrow(Step),
    Absent,
    Bad,
}

// East first, clockwise.
const STEPS: [Step; 8] = [
    Step(1, 0, 1), // east
    Step(2, 1, 1), // south-east
    Step(4, 1, 0), // south
    Step(8, 1, -1), // south-west
    Step(16, 0, -1), // west
    Step(32, -1, -1), // north-west
    Step(64, -1, 0), // north
    Step(128, -1, 1), // north-east
];

// What a code means, with its step where it is an arrow. The match comes first so that each use of the table has a number written out.
pub fn meaning_of(code: u8) -> Meaning
    ensures { result ≡ meaning_of code }
{
    match code {
        1 => Meaning::Arrow(STEPS[0]),
        2 => Meaning::Arrow(STEPS[1]),
        4 => Meaning::Arrow(STEPS[2]),
        8 => Meaning::Arrow(STEPS[3]),
        16 => Meaning::Arrow(STEPS[4]),
        32 => Meaning::Arrow(STEPS[5]),
        64 => Meaning::Arrow(STEPS[6]),
        128 => Meaning::Arrow(STEPS[7]),
        0 => Meaning::Absent,
        255 => Meaning::Absent,
        _ => Meaning::Bad,
    }
}

// Whether a code is an arrow, so that its cell is land.
pub fn is_arrow(code: u8) -> bool
    ensures { result ≡ is_arrow code }
{
    matches!(meaning_of(code), Meaning::Arrow(_))
}

// Whether a code is an arrow or marks an absent cell.
#[tactic(auto, unfolding(crate::specs::Compass::is_code, crate::specs::Compass::is_absent))]
pub fn is_code(code: u8) -> bool
    ensures { result ≡ is_code code }
{
    is_arrow(code) || code == 0 || code == 255
}
