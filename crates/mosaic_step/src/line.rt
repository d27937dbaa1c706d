// A move by one along a line in pieces: along the rows of the tile rows, and along the columns of the tile columns.
ghost use Rattle.std.specs.Prelude.{◌≡◌, ◌<◌, ◌≤◌};
ghost use Rattle.mosaic_step.specs.Line.{piece_after, number_after};
ghost use Rattle.sheet.specs.Grid.{LeadsTo};

// The piece moved to from piece i, which is `long` numbers long, where x is one more than the number moved to, counted from the start of
// piece i; where there is such a piece.
pub fn piece_after(pieces: usize, i: usize, long: usize, x: usize) -> Option<usize>
    requires { i < pieces }
    ensures { LeadsTo pieces (piece_after pieces i long x) result }
{
    if x == 0 {
        return i.checked_sub(1);
    }
    if x <= long {
        return Some(i);
    }
    if i + 1 < pieces { Some(i + 1) } else { None }
}

// The number in piece j, which is `there` numbers long: the last of a piece before, the first of a piece after.
pub fn number_after(i: usize, x: usize, j: usize, there: usize) -> usize
    requires { (1 ≤ there) × (i ≡ j → 1 ≤ x) }
    ensures { result ≡ number_after i x j there }
{
    if j < i {
        return there - 1;
    }
    if i < j {
        return 0;
    }
    x - 1
}
