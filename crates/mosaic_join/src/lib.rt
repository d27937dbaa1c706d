// Joining the border records of a mosaic: what comes in at each border cell, from the totals of the exits that step onto it. The exits are
// a net, each fed by the exits that step onto border cells with that way, and its counts are their totals.
#![tactic(auto)]

mod settle;

ghost use Rattle.std.specs.Prelude.{◌≡◌, []};
ghost use Rattle.promise.specs.Links.{Unless};
ghost use Rattle.promise.specs.Reply.Reply.{reply};
ghost use Rattle.mosaic_read.specs.Method.{Says};
ghost use Rattle.mosaic_read.specs.Read.{MosaicShape, fault_reply};
ghost use Rattle.mosaic_step.specs.Mosaic.{all_in};
ghost use Rattle.mosaic_join.specs.Joining.{works, ends, refusal_reply, join_reply, JoinPromise};
ghost use Rattle.mosaic_join.specs.Mosaic.{LengthsFit, ExitsJoined};

use crate::settle::settle;
use mosaic_net::write_net;
use mosaic_read::{ReadError, read_records};
use mosaic_step::records::Mosaic;
use sheet::shape::is_within;

// The paper's refusals of joining.
#[derive(Clone, Copy, PartialEq, Eq, Debug)]
pub enum JoinError {
    Layout(usize),
    Record(usize),
    Length,
    Loop {
        tile: usize,
        border: usize,
        exits: usize,
    },
}

impl From<ReadError> for JoinError {
    ghost from_gives = { λ e refusal. refusal_reply refusal ≡ fault_reply e };

    fn from(e: ReadError) -> JoinError {
        match e {
            ReadError::Record(byte) => JoinError::Record(byte),
            ReadError::Layout(byte) => JoinError::Layout(byte),
        }
    }
}

// Whether there are 1 to 64 tiles.
fn is_mosaic(tile_rows: usize, tile_cols: usize) -> bool
    ensures { Says (MosaicShape tile_rows tile_cols) result }
{
    match tile_rows.checked_mul(tile_cols) {
        Some(tiles) => is_within(tiles, 64),
        None => false,
    }
}

// Writes what comes in at each border cell of the mosaic, or refuses.
pub fn join(
    tile_rows: usize,
    tile_cols: usize,
    records: &[u8],
    incoming: &mut [u32],
    work1: &mut [u32],
    work2: &mut [u32],
    work3: &mut [u32],
    work4: &mut [u32],
    work5: &mut [u32],
) -> Result<(), JoinError>
    ensures { JoinPromise tile_rows tile_cols records.now incoming.old (works work1.old work2.old work3.old work4.old work5.old) (ends (join_reply result) incoming.new (works work1.new work2.new work3.new work4.new work5.new)) }
{
    if !is_mosaic(tile_rows, tile_cols) {
        return Err(JoinError::Layout(0));
    }
    let borders = read_records(tile_rows, tile_cols, records)?;
    let mosaic = Mosaic {
        tile_rows,
        tile_cols,
        records,
    };
    join_records(
        &mosaic, borders, incoming, work1, work2, work3, work4, work5,
    )
}

// The same where the records are well formed and tell of `n` border cells. The work buffers are cleared at last, whatever is found.
fn join_records(
    mosaic: &Mosaic,
    n: usize,
    incoming: &mut [u32],
    work1: &mut [u32],
    work2: &mut [u32],
    work3: &mut [u32],
    work4: &mut [u32],
    work5: &mut [u32],
) -> Result<(), JoinError>
    requires { n ≡ all_in mosaic.now }
    ensures { Unless (LengthsFit mosaic.now incoming.old (works work1.old work2.old work3.old work4.old work5.old)) (ends (reply 2 []) incoming.old (works work1.old work2.old work3.old work4.old work5.old)) (ExitsJoined mosaic.now) (ends (join_reply result) incoming.new (works work1.new work2.new work3.new work4.new work5.new)) }
{
    if incoming.len() != n
        || work1.len() != n
        || work2.len() != n
        || work3.len() != n
        || work4.len() != n
        || work5.len() != 128
    {
        return Err(JoinError::Length);
    }
    write_net(mosaic, incoming, work1, work2, work3, work5);
    let found = settle(mosaic, incoming, work1, work2, work3, work4, work5);
    work1.fill(0);
    work2.fill(0);
    work3.fill(0);
    work4.fill(0);
    work5.fill(0);
    found
}
