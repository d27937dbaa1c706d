// Writing the answer of the count program: lines of words and numbers, and a grid of counts.
#![tactic(auto)]

ghost use Rattle.std.specs.Prelude.{◌≡◌, [], ◌∷◌, ◌++◌, ◌+◌, ◌*◌, ◌≤◌, length};
ghost use Rattle.text.specs.Text.{decimal, lines};
ghost use Rattle.writer.specs.Parts.{Room, Writes};
ghost use Rattle.show.specs.Parts.{items};
ghost use Rattle.show.specs.Show.{refusal, done};

use sheet::shape::Shape;
use text::{MOST, end_of};
use writer::Writer;

// Writes a number.
#[tactic(auto, using(text::proofs::Decimal::step_long, text::proofs::Decimal::decimal_some, writer::proofs::Wrote::writes_long))]
pub fn write_number(to: &mut Writer<'_>, n: usize)
    requires { Room (length (decimal n)) to.old }
    ensures { Writes (decimal n) to.old to.new }
{
    if n < 10 {
        return to.byte(b'0' + n as u8);
    }
    write_number(to, n / 10);
    to.byte(b'0' + (n % 10) as u8);
}

// Writes a grid of numbers, a line for each row.
pub fn write_grid(to: &mut Writer<'_>, rows: usize, cols: usize, numbers: &[u32])
    requires some_cols { 1 ≤ cols }
    requires grid { length numbers.now ≡ rows * cols }
    requires room { Room (length (lines rows cols numbers.now)) to.old }
    ensures { Writes (lines rows cols numbers.now) to.old to.new }
{
    for row in 0..rows {
        for col in 0..cols {
            write_number(to, numbers[row * cols + col] as usize);
            to.byte(end_of(cols - 1 - col));
        }
    }
}

// A word, and the number behind it.
#[derive(Clone, Copy)]
struct Item<'a>(&'a [u8], usize);

// Writes a line of words and numbers.
fn write_line(to: &mut Writer<'_>, list: &[Item<'_>])
    requires { Room (length (items list.now) + 1) to.old }
    ensures { Writes (items list.now ++ 10 ∷ []) to.old to.new }
{
    for Item(word, n) in list {
        to.bytes(word);
        write_number(to, *n);
    }
    to.byte(b'\n');
}

// Writes a refusal: its number, and a place and a loop's length where there are any.
pub fn write_refusal(to: &mut Writer<'_>, n: usize, values: &[usize])
    requires { Room 100 to.old }
    ensures { Writes (refusal n values.now) to.old to.new }
{
    match values {
        [] => write_line(to, &[Item(b"refused ", n)]),
        [place] => write_line(to, &[Item(b"refused ", n), Item(b" at ", *place)]),
        [place, len, ..] => write_line(
            to,
            &[
                Item(b"refused ", n),
                Item(b" at ", *place),
                Item(b" length ", *len),
            ],
        ),
    }
}

// Writes a whole answer: the shape, the counts by row, and the totals.
pub fn write_done(
    to: &mut Writer<'_>,
    shape: Shape<MOST>,
    counts: &[u32],
    land: usize,
    outlets: usize,
    greatest: u32,
)
    requires grid { length counts.now ≡ shape.rows * shape.cols }
    requires room { Room (200 + length (lines shape.rows shape.cols counts.now)) to.old }
    ensures { Writes (done shape.rows shape.cols counts.now land outlets greatest) to.old to.new }
{
    write_line(
        to,
        &[Item(b"rows ", shape.rows), Item(b" cols ", shape.cols)],
    );
    write_grid(to, shape.rows, shape.cols, counts);
    write_line(
        to,
        &[
            Item(b"land ", land),
            Item(b" outlets ", outlets),
            Item(b" greatest ", greatest as usize),
        ],
    );
}
