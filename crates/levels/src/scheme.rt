ghost use Rattle.std.specs.Prelude.{◌≡◌, ℕ, ◌<◌, Bool, true, false, ◌&&◌};

/// A level scheme: a set of levels, an order on them, their meets and one open level.
///
/// The ghost members say what the scheme means, the laws what is true of it, and the four questions
/// answer by that meaning. Everything above this trait is proved from these alone.
pub trait Scheme {
    /// the set of levels
    ghost levels: { Self → ℕ → Bool };

    /// the order: the first is below the second
    ghost order: { Self → ℕ → ℕ → Bool };

    /// the greatest level below both
    ghost infimum: { Self → ℕ → ℕ → ℕ };

    /// the level of what everybody may read and write
    ghost opened: { Self → ℕ };

    /// Whether a number is a level.
    fn is_level(&self, a: u16) -> bool
        ensures { result ≡ levels self.now a };

    /// Whether `a` is below `b`.
    fn below(&self, a: u16, b: u16) -> bool
        ensures { result ≡ order self.now a b };

    /// The meet of `a` and `b`.
    fn meet(&self, a: u16, b: u16) -> u16
        ensures { result ≡ infimum self.now a b };

    /// The open level.
    fn open(&self) -> u16
        ensures { result ≡ opened self.now };

    // level numbers have sixteen bits
    ghost bounded: { (s : Self) (a : ℕ) → levels s a ≡ true → a < 65536 };

    ghost open_is_level: { (s : Self) → levels s (opened s) ≡ true };

    // for a number that is no level, below says no
    ghost below_levels: { (s : Self) (a b : ℕ) → order s a b ≡ true → (levels s a ≡ true) × (levels s b ≡ true) };

    ghost reflexive: { (s : Self) (a : ℕ) → levels s a ≡ true → order s a a ≡ true };

    ghost antisymmetric: { (s : Self) (a b : ℕ) → order s a b ≡ true → order s b a ≡ true → a ≡ b };

    ghost transitive: { (s : Self) (a b c : ℕ) → order s a b ≡ true → order s b c ≡ true → order s a c ≡ true };

    ghost meet_below: { (s : Self) (a b : ℕ) → levels s a ≡ true → levels s b ≡ true → (order s (infimum s a b) a ≡ true) × (order s (infimum s a b) b ≡ true) };

    ghost meet_greatest: { (s : Self) (a b c : ℕ) → order s c a ≡ true → order s c b ≡ true → order s c (infimum s a b) ≡ true };

    // for a number that is no level, meet says the open level
    ghost meet_outside: { (s : Self) (a b : ℕ) → (levels s a && levels s b) ≡ false → infimum s a b ≡ opened s };
}
