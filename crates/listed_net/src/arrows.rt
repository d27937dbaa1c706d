// The arrows of a net that is given as a list: followed one by one, and all of them at once.
ghost use Rattle.std.specs.Prelude.{ℕ, ◌≡◌, ◌<◌, ◌≤◌, SomeIff, length, replicate};
ghost use Rattle.listed_net.specs.Net.{to_at};
ghost use Rattle.listed_net.specs.Method.{Tells, Fit, Gathered};

use round::Net;

// The arrows as a net that code can follow.
#[derive(Drop)]
pub(crate) struct Arrows<'a> {
    pub to: &'a [u32],
    ghost cells_most: { length to.now ≤ 1000000 },
}

impl Net for Arrows<'_> {
    ghost use Rattle.std.specs.Prelude.{length};
    ghost use Rattle.std.proofs.Common.{arith};
    ghost use Rattle.flow.proofs.Lists.{list_out};
    ghost use Rattle.listed_net.specs.Net.{to_at};

    ghost cells = { λ net. length net.to.now };

    ghost to = { λ net. to_at net.to.now };

    fn next(&self, p: usize) -> Option<usize> {
        arrow(self.to, p)
    }

    ghost few = { λ net. omega (arith, net.cells_most) };

    ghost out = { λ net. unfold to_at in list_out net.to.now };
}

// The cell that the water of p goes to, if it goes to one.
pub fn arrow(to: &[u32], p: usize) -> Option<usize>
    requires { p < length to.now }
    ensures { SomeIff result (to_at to.now p < length to.now) (to_at to.now p) }
{
    let t = to[p] as usize;
    (t < to.len()).then_some(t)
}

// Gathers at each cell, from a cleared buffer, what the cells hold whose water goes there.
pub fn gather<F: Fn(usize) -> u32>(to: &[u32], sums: &mut [u32], held_by: F)
    requires may_ask { (q : ℕ) → q < length to.now → F.pre held_by q }

    // What `held_by` tells is one number for each cell, and what comes to a cell fits 32 bits.
    requires fit { (held : ℕ → ℕ) × Tells (length to.now) (F.post held_by) held × Fit to.now held }
    requires sums_clear { sums.old ≡ replicate (length to.now) 0 }
    ensures { (held : ℕ → ℕ) → Tells (length to.now) (F.post held_by) held → Gathered to.now held sums.new (length to.now) }
{
    for q in 0..to.len() {
        if let Some(t) = arrow(to, q) {
            sums[t] += held_by(q);
        }
    }
}
