// What the written net of the exits says: exits that feed each other round, or what comes in at each border cell.
ghost use Rattle.std.specs.Prelude.{◌≡◌, ◌<◌, length, replicate};
ghost use Rattle.mosaic_step.specs.Mosaic.{all_in};
ghost use Rattle.mosaic_net.specs.Net.{NetOf};
ghost use Rattle.mosaic_join.specs.Joining.{ends, join_reply};
ghost use Rattle.mosaic_join.specs.Mosaic.{ExitsJoined, work_cleared, tile_in};

use crate::JoinError;
use listed_net::arrows::gather;
use listed_net::count_net;
use mosaic_step::records::Mosaic;
use mosaic_step::tiles::Tiles;
use round::LoopFound;

// The tile that holds border cell g: the last whose first border number is not above it.
fn tile_holding(tiles: &Tiles, g: usize) -> usize
    requires { g < all_in tiles.now.mosaic }
    ensures { result ≡ tile_in tiles.now.mosaic g }
{
    let count = tiles.count();
    for t in 1..count {
        if g < tiles.first(t) {
            return t - 1;
        }
    }
    count - 1
}

// Counts on the net of the exits, and says what is found: exits that feed each other round, or none. Then what comes in is gathered.
pub fn settle(
    mosaic: &Mosaic,
    incoming: &mut [u32],
    pours: &[u32],
    feeds: &[u32],
    totals: &mut [u32],
    waiting: &mut [u32],
    table: &[u32],
) -> Result<(), JoinError>
    requires net_written { NetOf mosaic.now pours.now feeds.now totals.old table.now }
    requires incoming_clear { incoming.old ≡ replicate (all_in mosaic.now) 0 }
    requires waiting_len { length waiting.old ≡ all_in mosaic.now }
    ensures exits_joined { ExitsJoined mosaic.now (ends (join_reply result) incoming.new (work_cleared mosaic.now)) }
    ensures totals_len { length totals.new ≡ all_in mosaic.now }
    ensures waiting_stays { length waiting.new ≡ all_in mosaic.now }
{
    if let Err(LoopFound { first, length }) = count_net(feeds, totals, waiting) {
        let tiles = Tiles {
            mosaic: *mosaic,
            table,
        };
        let tile = tile_holding(&tiles, first);
        return Err(JoinError::Loop {
            tile,
            border: first - tiles.first(tile),
            exits: length,
        });
    }
    gather(pours, incoming, |q| totals[q]);
    Ok(())
}
