// Handing on, one loop a function.
ghost use Rattle.std.specs.Prelude.{◌≡◌, ◌<◌, ◌≤◌, Some, None, length};
ghost use Rattle.flow.specs.Net.{loop_length, OnLoop};
ghost use Rattle.promise.specs.First.{Finds};
ghost use Rattle.listed_net.specs.Net.{to_at};
ghost use Rattle.listed_net.specs.Method.{Half, Ready, Moved, Scanned, IsDone, left};

use crate::arrows::{Arrows, arrow};
use round::others_on_loop;

// Marks a cell that has handed on, in place of the number of the givers that it waits for.
const HANDED_ON: u32 = u32::MAX;

// Cell p, which waits for no giver, hands on what it holds. Answers the cell that it goes to where that now waits for none.
fn hand_on(to: &[u32], totals: &mut [u32], waiting: &mut [u32], p: usize) -> Option<usize>
    requires half { Half to.now totals.old waiting.old }
    requires ready { Ready to.now waiting.old (Some p) }
    ensures moved { Moved to.now totals.old waiting.old totals.new waiting.new (Some p) result }
    ensures fewer_left { left to.now waiting.new < left to.now waiting.old }
{
    waiting[p] = HANDED_ON;
    let t = arrow(to, p)?;
    totals[t] += totals[p];
    waiting[t] -= 1;
    (waiting[t] == 0).then_some(t)
}

// From cell `start`, which waits for no giver, down while the next cell waits for none.
fn walk(to: &[u32], totals: &mut [u32], waiting: &mut [u32], start: usize)
    requires half { Half to.now totals.old waiting.old }
    requires ready { Ready to.now waiting.old (Some start) }
    ensures { Moved to.now totals.old waiting.old totals.new waiting.new (Some start) None }
{
    let mut next = Some(start);
    while let Some(p) = next {
        next = hand_on(to, totals, waiting, p);
    }
}

// Goes down from each cell that waits for no giver when the scan comes to it: then each cell that has not handed on waits for a giver.
pub fn scan(to: &[u32], totals: &mut [u32], waiting: &mut [u32])
    requires { Half to.now totals.old waiting.old }
    ensures { Scanned to.now totals.old waiting.old totals.new waiting.new (length to.now) }
{
    for k in 0..to.len() {
        if waiting[k] == 0 {
            walk(to, totals, waiting, k);
        }
    }
}

// The first cell that has not handed on.
pub fn first_open(waiting: &[u32]) -> Option<usize>
    ensures { Finds (length waiting.now) (IsDone waiting.now) result }
{
    waiting.iter().position(|w| *w != HANDED_ON)
}

// The length of the loop that `start` lies on.
pub fn loop_length(to: &[u32], start: usize) -> usize
    requires to_len_bound { length to.now ≤ 1000000 }
    requires on_loop { OnLoop (length to.now) (to_at to.now) start }
    ensures { result ≡ loop_length (length to.now) (to_at to.now) start }
{
    others_on_loop(&Arrows { to }, start) + 1
}
