/// A cell of a register.
#[derive(Clone, Copy, PartialEq, Eq)]
pub struct Cell {
    /// The register, by its index in the setup.
    pub register: u8,
    /// The process whose cell it is, as written; `None` of a shared register.
    pub index: Option<u8>,
}

/// The effect of an access on its cell.
#[derive(Clone, Copy, PartialEq, Eq)]
pub enum CellMove {
    /// A write of this value begins.
    Write(u32),
    /// A write ends.
    End,
    /// A read begins.
    Read,
    /// A read ends, and gave this value.
    Value(u32),
    /// A write of this value begins and ends.
    Set(u32),
    /// A read begins and ends, and gave this value.
    Get(u32),
    /// The cell held `gives` and now holds `new`.
    Swap { new: u32, gives: u32 },
    /// The cell held `gives` and now holds their sum, modulo 2 to the power of its width.
    Add { addend: u32, gives: u32 },
    /// The cell held `gives`, and now holds `new` if that was `expected`.
    Cas { expected: u32, new: u32, gives: u32 },
}

/// An access of a process to a cell.
#[derive(Clone, Copy, PartialEq, Eq)]
pub struct CellAccess {
    pub cell: Cell,
    pub how: CellMove,
}
