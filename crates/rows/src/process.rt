/// The kind of a process row. Its number is its place in this list, from 0.
#[derive(Clone, Copy, Debug, PartialEq, Eq, Default)]
pub enum ProcessKind {
    #[default]
    Stop,
    Out,
    In,
    New,
    Both,
    Again,
    If,
    Sopen,
    Aopen,
    Verify,
}

/// A process row. The first child of a row is the next row; both and if have a second one, at the
/// first one's end.
#[derive(Clone, Copy, Debug, PartialEq, Eq, Default)]
pub struct ProcessRow {
    pub kind: ProcessKind,
    /// how many names and variables are in scope
    pub slots: u16,
    /// the row after the last one that belongs to this process
    pub end: u16,
    /// at new, the row of the name's type
    pub ty: u16,
    /// how many parts are sent, received or opened
    // Kept: the layout is given by a rule of the project: a count, and numbers with zeros above it.
    pub count: u16,
    /// where the run of its term rows begins
    pub first: u16,
    /// how many term rows the run has
    pub terms: u16,
    /// term rows of the run, in the order of the text: at out the channel and then the parts, at in
    /// the channel, at if the two sides, at an opening the message and then the key
    pub operands: [u16; 5],
}
