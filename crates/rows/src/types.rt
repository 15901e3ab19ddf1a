/// The kind of a type. Its number is its place in this list, from 0.
#[derive(Clone, Copy, Debug, PartialEq, Eq, Default)]
pub enum TypeKind {
    /// data of a level
    #[default]
    Level,
    /// a channel
    Chan,
    /// a shared key
    Sym,
    /// a decryption key
    Dec,
    /// an encryption key
    Enc,
    /// a signing key
    Sig,
    /// a verification key
    Ver,
}

/// A type: its kind and level, and for a channel or a key how many payload parts it has, and the
/// rows of their types. Payload entries at and above the count are zero.
#[derive(Clone, Copy, Debug, PartialEq, Eq, Default)]
pub struct TypeRow {
    pub kind: TypeKind,
    pub level: u16,
    // Kept: the layout is given by a rule of the project: a count, and numbers with zeros above it.
    pub count: u16,
    pub payload: [u16; 4],
}
