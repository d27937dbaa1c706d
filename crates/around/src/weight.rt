// What a neighbour adds to a look-around: 1, or its count. One look-around serves both.
ghost use Rattle.std.specs.Prelude.{◌≡◌, ◌<◌, ◌≤◌, ℕ, length};
ghost use Rattle.around.specs.Weight.{one, no_count, weigh, weighed};

// More than any sum of eight counts: it stands for a count that is not there yet, so that one sum tells both things.
pub const NO_COUNT: u64 = 1099511627776;

// What places add. It is told of some places only, which are covered.
pub trait Weight {
    ghost weight: { Self → ℕ → ℕ };

    ghost covers: { Self → ℕ → Type 0 };

    // What place q adds.
    fn of(&self, q: usize) -> u64
        requires { covers self.now q }
        ensures value { result ≡ weight self.now q }
        ensures most { result ≤ no_count };
}

// Each place adds 1.
#[derive(Clone, Copy)]
pub struct One;

impl Weight for One {
    ghost weight = { λ _ q. one q };

    ghost covers = { λ _ _. Unit {0} };

    fn of(&self, _q: usize) -> u64 {
        1
    }
}

// A count, or NO_COUNT where there is none yet.
fn weigh(count: u32) -> u64
    ensures value { result ≡ weigh count }
    ensures most { result ≤ no_count }
{
    if count == 0 {
        NO_COUNT
    } else {
        u64::from(count)
    }
}

// Each place adds its count.
#[derive(Clone, Copy)]
pub struct Counts<'a>(pub &'a [u32]);

impl Weight for Counts<'_> {
    ghost weight = { λ s q. weighed s.0.now q };

    ghost covers = { λ s q. q < length s.0.now };

    fn of(&self, q: usize) -> u64 {
        weigh(self.0[q])
    }
}
