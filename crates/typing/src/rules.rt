use rows::TypeRow;

/// The typing rules under a scheme, over the types of a listing.
#[derive_where(Clone, Copy)]
pub struct Rules<'a, S> {
    /// how levels are ordered
    pub scheme: &'a S,
    /// the types that payloads, slots and new names are rows of
    pub types: &'a [TypeRow],
}
