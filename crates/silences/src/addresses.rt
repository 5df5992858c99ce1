// An address, and a field of a book.

// An address: the cell, ring number and start that a silence is for, or that a caller seeks. "Records ascend strictly by
// cell, then ring number, then start": the derived order compares the three numbers in this order, and the derived
// equality compares all three. "Zero is an ordinary cell, ring number and start."
#[derive(Clone, Copy, PartialEq, Eq, PartialOrd, Ord)]
pub struct Address {
    pub cell: u32,
    pub ring_number: u16,
    pub start: u32,
}

// A whole field of a book: its address, its ceiling and the byte offset just past it, where reading or seeking goes on.
#[derive(Clone, Copy)]
pub struct Field {
    pub address: Address,
    pub ceiling: u16,
    pub next: usize,
}
