/// The form of a term. Its number is its place in this list, from 0.
#[derive(Clone, Copy, Debug, PartialEq, Eq, Default)]
pub enum TermKind {
    /// a name or variable in scope
    #[default]
    Slot,
    /// the encryption key of a decryption key
    Ek,
    /// the verification key of a signing key
    Vk,
    /// an encryption under a shared key
    Senc,
    /// an encryption under an encryption key
    Aenc,
    /// a signature by a signing key
    Sign,
}

/// A term. Parts and key are earlier rows of the same run, numbered from the run's first row.
/// Fields without a use are zero.
#[derive(Clone, Copy, Debug, PartialEq, Eq, Default)]
pub struct TermRow {
    pub kind: TermKind,
    pub slot: u16,
    // Kept: the layout is given by a rule of the project: a count, and numbers with zeros above it.
    pub count: u16,
    pub parts: [u16; 4],
    pub key: u16,
}
