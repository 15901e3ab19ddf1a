ghost use Rattle.std.specs.Prelude.{◌≡◌};
ghost use Rattle.typing.specs.Usage.{misuse_number};

/// Why a key or channel can be used neither as declared nor as open, with the number by which it is
/// reported.
#[derive(Clone, Copy, Debug, PartialEq, Eq)]
pub enum Misuse {
    /// its kind is another, and its level is not public
    Kind = 30,
    /// a part does not fit, and the parts or the key are not public
    Part = 31,
    /// it was declared with another count
    Count = 32,
    /// a public key verifies a message that is not public
    Message = 33,
}

impl Misuse {
    /// The number by which the misuse is reported.
    pub fn number(self) -> u16
        ensures { result ≡ misuse_number self }
    {
        self as u16
    }
}
