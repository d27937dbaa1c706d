// Counts on a net that is given as a list: the water of cell p goes to cell to[p], and to no cell where to[p] is not below the length. Each
// cell waits for its givers; one that waits for none hands on what it holds. What then waits lies on a loop.
#![tactic(auto)]

pub mod arrows;
pub mod method;

ghost use Rattle.listed_net.specs.Net.{NetLent, NetPromise};

use crate::arrows::gather;
use crate::method::{first_open, loop_length, scan};
use round::LoopFound;

// Counts on the net `to`: the totals hold the weights at first, and the counts when done. After a loop the totals and the work buffer may
// hold anything.
pub fn count_net(to: &[u32], totals: &mut [u32], waiting: &mut [u32]) -> Result<(), LoopFound>
    requires { NetLent to.now totals.old waiting.old }
    ensures { NetPromise to.now totals.old totals.new waiting.new result }
{
    // Each arrow is one giver that its end waits for.
    waiting.fill(0);
    gather(to, waiting, |_| 1);
    scan(to, totals, waiting);
    match first_open(waiting) {
        Some(first) => {
            let length = loop_length(to, first);
            Err(LoopFound { first, length })
        }
        None => Ok(()),
    }
}
