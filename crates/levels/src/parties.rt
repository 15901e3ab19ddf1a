ghost use Rattle.std.specs.Prelude.{◌≤◌};

/// A scheme of `count` parties, 1 to 8: each level is a set of readers and a set of writers.
#[derive(Clone, Copy)]
pub struct Parties {
    pub(crate) count: u16,
    ghost some: { 1 ≤ count },
    ghost few: { count ≤ 8 },
}

/// Why a scheme cannot be made. A fault's value is the number by which it is reported.
#[derive(Clone, Copy, Debug, PartialEq, Eq)]
pub enum SchemeFault {
    /// the number of parties is not 1 to 8
    PartyCount = 20,
}
