ghost use Rattle.std.specs.Prelude.{◌≡◌};
ghost use Rattle.shape.specs.Numbers.{numbers_fit, one_to_four};

// The first `used` numbers are there and below the bound, and the others are zero.
#[tactic(auto, using(crate::proofs::FitRest::fit_missing))]
pub(crate) fn numbers_fit(numbers: &[u16], used: usize, bound: usize) -> bool
    ensures { result ≡ numbers_fit bound used numbers.now }
{
    used <= numbers.len()
        && numbers.iter().enumerate().all(|(k, x)| if k < used {
            (*x as usize) < bound
        } else {
            *x == 0
        })
}

pub(crate) fn is_one_to_four(count: u16) -> bool
    ensures { result ≡ one_to_four count }
{
    (1..=4).contains(&count)
}
