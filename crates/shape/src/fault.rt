ghost use Rattle.std.specs.Prelude.{◌≡◌};
ghost use Rattle.shape.specs.Fault.{shape_number, shape_row};

/// Why tables are out of shape, with the row at fault.
#[derive(Clone, Copy, Debug, PartialEq, Eq)]
pub enum ShapeFault {
    /// no type or process row, or a table over its limit
    Size,
    /// a row of the types
    Types(usize),
    /// a row of the processes
    Processes(usize),
    /// a row of the terms
    Terms(usize),
    /// the process row that is a seventh aopen on a way down
    Depth(usize),
}

impl ShapeFault {
    /// The number by which the fault is reported.
    pub fn number(self) -> u16
        ensures { result ≡ shape_number self }
    {
        // Kept: a match, since `as` takes no enum whose cases carry values.
        match self {
            ShapeFault::Size => 20,
            ShapeFault::Types(_) => 21,
            ShapeFault::Processes(_) => 22,
            ShapeFault::Terms(_) => 23,
            ShapeFault::Depth(_) => 24,
        }
    }

    /// The row at fault, in the table that the number speaks of.
    pub fn row(self) -> usize
        ensures { result ≡ shape_row self }
    {
        match self {
            ShapeFault::Size => 0,
            ShapeFault::Types(row)
            | ShapeFault::Processes(row)
            | ShapeFault::Terms(row)
            | ShapeFault::Depth(row) => row,
        }
    }
}
