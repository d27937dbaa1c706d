// Reading the text of the count program: a line of rows and columns, then one line of codes per row.
#![tactic(auto)]

ghost use Rattle.std.specs.Prelude.{◌≡◌, ◌*◌, ◌≤◌, length};
ghost use Rattle.text.specs.Text.{Digit};
ghost use Rattle.text.specs.Read.{Reads, end_of, kept, ReadsBody, ReadsFirst, Parses};

use sheet::shape::Shape;

// The most rows, and the most columns, of a sheet given as text.
pub const MOST: usize = 64;

// What has been read, and where the text goes on after the byte that follows it.
#[derive(Drop)]
pub struct Read<T> {
    pub value: T,
    pub next: usize,
}

// The first byte at which the text stops being a proper one, or its length where it ends too early.
#[derive(Clone, Copy, PartialEq, Eq, Debug)]
pub struct Malformed {
    pub at: usize,
}

// Reads the number that stands at `at`, and the byte `end` after it.
fn read_number(text: &[u8], at: usize, end: u8) -> Result<Read<usize>, Malformed>
    requires { (at ≤ length text.now) × (Digit end → ⊥) }
    ensures { Reads text.now at end result }
{
    let rest = &text[at..];
    let mut value = 0;
    for (i, b) in rest.iter().enumerate() {
        if 0 < i && *b == end {
            return Ok(Read {
                value,
                next: at + i + 1,
            });
        }
        // A digit more may stand behind 1 to 999: no needless zero leads, and no fifth digit follows.
        if !b.is_ascii_digit() || 0 < i && !(1..=999).contains(&value) {
            return Err(Malformed { at: at + i });
        }
        value = value * 10 + usize::from(*b - b'0');
    }
    Err(Malformed { at: text.len() })
}

// The byte after a number that has so many numbers to its right in its line.
#[tactic(auto, unfolding(crate::specs::Read::end_of))]
pub fn end_of(right: usize) -> u8
    ensures { result ≡ end_of right }
{
    if right == 0 { b'\n' } else { b' ' }
}

// A code as the grid keeps it: one above 255 as another bad code.
#[tactic(auto, unfolding(crate::specs::Read::kept))]
fn keep(code: usize) -> u8
    ensures { result ≡ kept code }
{
    u8::try_from(code).unwrap_or(3)
}

// Reads the lines of codes, a line for each row, into the grid.
fn read_body(bytes: &[u8], shape: Shape<MOST>, grid: &mut [u8]) -> Result<(), Malformed>
    requires { shape.rows * shape.cols ≤ length grid.old }
    ensures { ReadsBody shape.rows shape.cols bytes.now grid.old grid.new result }
{
    let mut at = 0;
    for row in 0..shape.rows {
        for col in 0..shape.cols {
            let number = read_number(bytes, at, end_of(shape.cols - 1 - col))?;
            grid[row * shape.cols + col] = keep(number.value);
            at = number.next;
        }
    }
    if at < bytes.len() {
        return Err(Malformed { at });
    }
    Ok(())
}

// Reads the first line: rows and columns.
fn read_first(text: &[u8]) -> Result<Read<(usize, usize)>, Malformed>
    ensures { ReadsFirst text.now result }
{
    let rows = read_number(text, 0, b' ')?;
    let cols = read_number(text, rows.next, b'\n')?;
    Ok(Read {
        value: (rows.value, cols.value),
        next: cols.next,
    })
}

// Why a text has no codes: where it stops being a proper one, or that its sides lie outside the bounds.
#[derive(Clone, Copy, PartialEq, Eq, Debug)]
pub enum TextError {
    Malformed(usize),
    Shape,
}

impl From<Malformed> for TextError {
    ghost use Rattle.text.specs.declared.TextError.{TextError};

    ghost from_gives = { λ stop e. e ≡ TextError.Malformed stop.at };

    fn from(stop: Malformed) -> Self {
        TextError::Malformed(stop.at)
    }
}

// Reads a text: its shape, and its codes into the grid.
pub fn parse(text: &[u8], grid: &mut [u8]) -> Result<Shape<MOST>, TextError>
    requires { 4096 ≤ length grid.old }
    ensures { Parses text.now grid.old grid.new result }
{
    let first = read_first(text)?;
    let (rows, cols) = first.value;
    let shape = Shape::new(rows, cols).ok_or(TextError::Shape)?;
    if let Err(stop) = read_body(&text[first.next..], shape, grid) {
        return Err(TextError::Malformed(first.next + stop.at));
    }
    Ok(shape)
}
