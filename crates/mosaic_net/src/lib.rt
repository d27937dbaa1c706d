// The net of the exits of a mosaic, written into lists by the records: where each border cell leads, what it pours onto as an exit, what it then feeds, and its
// own count.
#![tactic(auto)]

mod leads;
mod pours;
mod write;

ghost use Rattle.std.specs.Prelude.{◌≡◌, length, replicate};
ghost use Rattle.mosaic_step.specs.Mosaic.{all_in};
ghost use Rattle.mosaic_net.specs.Net.{NetOf};

use crate::leads::Leads;
use crate::pours::{Own, Pours, fill_feeds};
use crate::write::fill;
use mosaic_step::records::Mosaic;
use mosaic_step::table::fill_table;
use mosaic_step::tiles::Tiles;

// Writes down the net of the exits. Where border cells lead is written first, for the others to be found by, and cleared at last.
pub fn write_net(
    mosaic: &Mosaic,
    leads: &mut [u32],
    pours: &mut [u32],
    feeds: &mut [u32],
    own: &mut [u32],
    table: &mut [u32],
)
    requires leads_len { length leads.old ≡ all_in mosaic.now }
    requires pours_len { length pours.old ≡ all_in mosaic.now }
    requires feeds_len { length feeds.old ≡ all_in mosaic.now }
    requires own_len { length own.old ≡ all_in mosaic.now }
    requires table_len { length table.old ≡ 128 }
    ensures net_written { NetOf mosaic.now pours.new feeds.new own.new table.new }
    ensures leads_after { leads.new ≡ replicate (all_in mosaic.now) 0 }
{
    fill_table(mosaic, table);
    let tiles = Tiles {
        mosaic: *mosaic,
        table,
    };
    fill(&tiles, &Leads { none: leads.len() }, leads);
    fill(&tiles, &Pours { leads }, pours);
    fill(&tiles, &Own, own);
    fill_feeds(leads, pours, feeds);
    leads.fill(0);
}
