ghost use Rattle.std.specs.Prelude.{ℕ, ◌<◌};
ghost use Rattle.shape.specs.First.{MatchFirst};

// Each of the rows below `n` fits, or the lowest that does not is the error.
pub(crate) fn all_fit<F: Fn(usize) -> bool>(n: usize, fits: F) -> Result<(), usize>
    requires { (i : ℕ) → i < n → F.pre fits i }
    ensures { MatchFirst (F.post fits) n result }
{
    // a row is asked for below `n` alone, so the closure says what it asks
    let is_unfit = |i: &usize|
        requires { F.pre fits i.now }
    { !fits(*i) };
    (0..n).find(is_unfit).map_or(Ok(()), Err)
}
