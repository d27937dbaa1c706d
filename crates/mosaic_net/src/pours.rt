// What the exits of a mosaic pour onto, and their own counts; then what each exit feeds.
ghost use Rattle.std.specs.Prelude.{◌≡◌, ◌+◌, ◌<◌, length};
ghost use Rattle.sheet.specs.Grid.{LeadsTo};
ghost use Rattle.mosaic_step.specs.Mosaic.{all_in};
ghost use Rattle.mosaic_net.specs.Method.{Filled, feed_at};
ghost use Rattle.mosaic_net.specs.Net.{AllFilled, leads_in, pours_in, own_in};

use crate::write::Told;
use mosaic_step::tiles::MosaicTile;

// The border cell that border cell b of a tile pours onto: land that it steps onto as an exit. Where border cells lead tells what is land.
fn pour(tile: &MosaicTile, leads: &[u32], b: usize) -> Option<usize>
    requires leads { AllFilled tile.now.tiles.mosaic (leads_in tile.now.tiles.mosaic) leads.now }
    requires border { b < tile.now.border.borders }
    ensures { LeadsTo (all_in tile.now.tiles.mosaic) (pours_in tile.now.tiles.mosaic (tile.now.first + b)) result }
{
    if usize::from(tile.border.way(b)) != b {
        return None;
    }
    let h = tile.onto(b)?;
    let none = leads.len();
    if none < leads[h] as usize {
        return None;
    }
    Some(h)
}

// What a border cell pours onto, or the number of all border cells, by where they lead.
#[derive(Clone, Copy)]
pub struct Pours<'a> {
    pub leads: &'a [u32],
}

impl Told for Pours<'_> {
    ghost fits = { λ s m. AllFilled m (leads_in m) s.leads.now };

    ghost tells = { λ _ m. pours_in m };

    fn tell(&self, tile: &MosaicTile, b: usize) -> u32 {
        match pour(tile, self.leads, b) {
            Some(h) => h as u32,
            None => self.leads.len() as u32,
        }
    }
}

// The own count of an exit, and 0 of a border cell that is none.
#[derive(Clone, Copy)]
pub struct Own;

impl Told for Own {
    ghost fits = { λ _ _. Unit {0} };

    ghost tells = { λ _ m. own_in m };

    fn tell(&self, tile: &MosaicTile, b: usize) -> u32 {
        if usize::from(tile.border.way(b)) != b {
            return 0;
        }
        tile.border.count(b)
    }
}

// What border cell g feeds: where the cell leads that it pours onto.
fn feed(leads: &[u32], pours: &[u32], g: usize) -> u32
    requires leads_len { (length leads.now ≡ length pours.now) × (length pours.now < 4294967296) }
    requires g_in_bounds { g < length pours.now }
    ensures { result ≡ feed_at leads.now pours.now g }
{
    let all = pours.len();
    let h = pours[g] as usize;
    if all <= h {
        return all as u32;
    }
    leads[h]
}

// Writes what each border cell feeds.
pub fn fill_feeds(leads: &[u32], pours: &[u32], feeds: &mut [u32])
    requires leads_len { (length leads.now ≡ length pours.now) × (length pours.now < 4294967296) }
    requires feeds_len { length feeds.old ≡ length pours.now }
    ensures { Filled (length pours.now) (feed_at leads.now pours.now) feeds.new (length pours.now) }
{
    for (g, exit) in feeds.iter_mut().enumerate() {
        *exit = feed(leads, pours, g);
    }
}
