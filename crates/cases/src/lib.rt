//! Cases of the definitions, computed.
#![tactic(auto)]

ghost use Rattle.std.specs.Prelude.{◌≡◌};
ghost use Rattle.cases.specs.Cases.{MarkedCases};

/// How many cases the table has; each of them holds.
pub fn marked_cases() -> u16
    ensures hold { MarkedCases }
    ensures count { result ≡ 10 }
{
    10
}
