// A net that code can follow, the walk round one of its loops, and what is told of a loop that is found.
#![tactic(auto)]

ghost use Rattle.std.specs.Prelude.{ℕ, ◌≡◌, ◌+◌, ◌^◌, ◌<◌, ◌≤◌, SomeIff};
ghost use Rattle.flow.specs.Net.{OnLoop, loop_length};

// A loop that is found: the smallest cell on it, and how many cells it has.
#[derive(Clone, Copy, PartialEq, Eq, Debug)]
pub struct LoopFound {
    pub first: usize,
    pub length: usize,
}

// A net whose arrows can be followed.
pub trait Net {
    // How many cells it has.
    ghost cells: { Self → ℕ };

    // Where the water of each cell goes: to no cell where that is not below the number of cells.
    ghost to: { Self → ℕ → ℕ };

    // The cell that the water of p goes to, if it goes to one.
    fn next(&self, p: usize) -> Option<usize>
        requires { p < cells self.now }
        ensures { SomeIff result (to self.now p < cells self.now) (to self.now p) };

    // 64 bits hold the number of cells.
    ghost few: { (net : Self) → cells net < 2 ^ 64 };

    // What is no cell leads to none.
    ghost out: { (net : Self) (p : ℕ) → cells net ≤ p → cells net ≤ to net p };
}

// How many other cells lie on the loop that `start` lies on, by walking round it.
pub fn others_on_loop<N: Net>(net: &N, start: usize) -> usize
    requires { OnLoop (N.cells net.now) (N.to net.now) start }
    ensures one_more { loop_length (N.cells net.now) (N.to net.now) start ≡ result + 1 }
    ensures inside { result < N.cells net.now }
{
    let mut here = start;
    let mut others = 0;
    while let Some(next) = net.next(here)
        && next != start
    {
        here = next;
        others += 1;
    }
    others
}
