// The whole work of the count program: the text in, the bytes to write out.
#![tactic(auto)]

ghost use Rattle.std.specs.Prelude.{◌≤◌, length};
ghost use Rattle.answer.specs.Answer.{Answers, Buffers};
ghost use Rattle.answer.specs.Parts.{Lent, Tells, TellsText};
ghost use Rattle.writer.specs.Parts.{Room};

use count::{CountError, count};
use sheet::shape::Shape;
use sheet::totals::clear;
use show::{write_done, write_refusal};
use text::{MOST, TextError, parse};
use writer::Writer;

// Counts a grid and writes how that ends.
fn tell(shape: Shape<MOST>, grid: &[u8], counts: &mut [u32], to: &mut Writer<'_>)
    requires { Lent shape grid.now counts.old to.old }
    ensures { Tells shape.rows shape.cols grid.now to.old to.new }
{
    match count(shape.rows, shape.cols, grid, counts) {
        Ok(t) => write_done(to, shape, counts, t.land, t.outlets, t.greatest),
        Err(CountError::Shape | CountError::Length) => unreachable!(),
        Err(CountError::Code(place)) => write_refusal(to, 3, &[place]),
        Err(CountError::Loop { place, length }) => write_refusal(to, 4, &[place, length]),
    }
}

// Reads the text, counts its codes, and writes the answer.
fn write_answer(text: &[u8], grid: &mut [u8], counts: &mut [u32], to: &mut Writer<'_>)
    requires lengths { (4096 ≤ length grid.old) × (4096 ≤ length counts.old) }
    requires room { Room 20680 to.old }
    ensures { TellsText text.now to.old to.new }
{
    match parse(text, grid) {
        Ok(shape) => {
            let n = shape.rows * shape.cols;
            tell(shape, &grid[..n], &mut counts[..n], to)
        }
        Err(TextError::Malformed(at)) => write_refusal(to, 11, &[at]),
        Err(TextError::Shape) => write_refusal(to, 1, &[]),
    }
}

// The answer to a text: its bytes stand at the start of `out`, and their number is answered. Grid and counts are work buffers.
pub fn answer(text: &[u8], grid: &mut [u8], counts: &mut [u32], out: &mut [u8]) -> usize
    requires { Buffers grid.old counts.old out.old }
    ensures { Answers text.now grid.old counts.old out.old grid.new counts.new out.new result }
{
    let mut to = Writer::new(out);
    write_answer(text, grid, counts, &mut to);
    grid.fill(0);
    clear(counts);
    to.at
}
