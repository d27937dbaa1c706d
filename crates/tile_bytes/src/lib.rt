// The bytes of a border record: numbers and fields, written one behind the other.
#![tactic(auto)]

pub mod position;

ghost use Rattle.std.specs.Prelude.{◌∷◌, ◌≡◌, ◌+◌, ◌*◌, ◌<◌, length};
ghost use Rattle.tile.specs.Border.{border_cells};
ghost use Rattle.tile_bytes.specs.Bytes.{two, field, each, sides, border_count};
ghost use Rattle.writer.specs.Parts.{Room, Writes};

use crate::position::Position;
use sheet::shape::Tile;
use tile::border::{border_cells, border_place};
use writer::Writer;

// Puts a number in two bytes, the higher first.
pub fn put_two(to: &mut Writer<'_>, n: usize)
    requires { Room 2 to.old }
    ensures { Writes (two n) to.old to.new }
{
    to.bytes(&((n % 65536) as u16).to_be_bytes());
}

// Puts a field's tag and its length.
pub fn put_head(to: &mut Writer<'_>, tag: u8, contents: usize)
    requires { Room 3 to.old }
    ensures { Writes (tag ∷ two contents) to.old to.new }
{
    to.byte(tag);
    put_two(to, contents);
}

// Writes field 1: the tile's sides and its position.
pub fn write_sides(to: &mut Writer<'_>, tile: Tile, position: Position)
    requires { Room 11 to.old }
    ensures { Writes (field 1 (sides tile.rows tile.cols position.row position.col)) to.old to.new }
{
    put_head(to, 1, 8);
    put_two(to, tile.rows);
    put_two(to, tile.cols);
    put_two(to, position.row);
    put_two(to, position.col);
}

// Puts the count of border cell b, the highest byte first.
fn put_count(to: &mut Writer<'_>, tile: Tile, counts: &[u32], b: usize)
    requires border { b < border_cells tile.rows tile.cols }
    requires counts_long { length counts.now ≡ tile.rows * tile.cols }
    requires room { Room 4 to.old }
    ensures { Writes (border_count tile.rows tile.cols counts.now b) to.old to.new }
{
    to.bytes(&counts[border_place(tile, b)].to_be_bytes());
}

// Puts the counts of the border cells.
fn put_counts(to: &mut Writer<'_>, tile: Tile, counts: &[u32])
    requires counts_long { length counts.now ≡ tile.rows * tile.cols }
    requires room { Room (4 * border_cells tile.rows tile.cols) to.old }
    ensures { Writes (each (border_cells tile.rows tile.cols) (λ b. border_count tile.rows tile.cols counts.now b)) to.old to.new }
{
    for b in 0..border_cells(tile) {
        put_count(to, tile, counts, b);
    }
}

// Writes field 2: the count of each border cell.
pub fn write_counts(to: &mut Writer<'_>, tile: Tile, counts: &[u32])
    requires counts_long { length counts.now ≡ tile.rows * tile.cols }
    requires room { Room (3 + 4 * border_cells tile.rows tile.cols) to.old }
    ensures { Writes (field 2 (each (border_cells tile.rows tile.cols) (λ b. border_count tile.rows tile.cols counts.now b))) to.old to.new }
{
    put_head(to, 2, 4 * border_cells(tile));
    put_counts(to, tile, counts);
}
