// The ways of a tile's border cells: where the water of each leaves the tile, if it does, found and written.
#![tactic(auto)]

pub mod free;
mod walk;

ghost use Rattle.std.specs.Prelude.{◌≡◌, ◌+◌, ◌*◌, ◌<◌};
ghost use Rattle.tile_bytes.specs.Bytes.{field, each, way_bytes};
ghost use Rattle.tile_ways.specs.Ways.{Known, border_way_in, borders_in};
ghost use Rattle.writer.specs.Parts.{Room, Writes};

use crate::free::FreeGrid;
use crate::walk::Walk;
use tile::border::{border_cells, border_spot};
use tile::shape::as_tile;
use tile_bytes::{put_head, put_two};
use writer::Writer;

// Puts the way of border cell b.
fn put_way(to: &mut Writer<'_>, walk: &mut Walk<'_>, b: usize)
    requires border { b < borders_in walk.old.free.now.grid }
    requires room { Room 3 to.old }
    ensures puts { Writes (way_bytes (border_way_in walk.old.free.now.grid b)) to.old to.new }
    ensures stays { walk.new.free ≡ walk.old.free }
{
    let spot = border_spot(as_tile(&walk.free.grid), b);
    let (number, code) = walk.way_of(spot).fields();
    put_two(to, usize::from(number));
    to.byte(code);
}

// Puts the ways of the border cells.
fn put_ways(to: &mut Writer<'_>, walk: &mut Walk<'_>)
    requires { Room (3 * borders_in walk.old.free.now.grid) to.old }
    ensures { Writes (each (borders_in walk.old.free.now.grid) (λ b. way_bytes (border_way_in walk.old.free.now.grid b))) to.old to.new }
{
    for b in 0..border_cells(as_tile(&walk.free.grid)) {
        put_way(to, walk, b);
    }
}

// Writes field 3: the way of each border cell.
pub fn write_ways(to: &mut Writer<'_>, free: &FreeGrid<'_>, known: &mut [u32])
    requires known { Known free.now.grid.sheet.rows free.now.grid.sheet.cols free.now.grid.codes.now known.old }
    requires room { Room (3 + 3 * borders_in free.now.grid) to.old }
    ensures { Writes (field 3 (each (borders_in free.now.grid) (λ b. way_bytes (border_way_in free.now.grid b)))) to.old to.new }
{
    put_head(to, 3, 3 * border_cells(as_tile(&free.grid)));
    put_ways(to, &mut Walk { free, known });
}
