// "Byte 255 is from now on a boundary mark" (document 02, ticket 2).
ghost use Rattle.findings.specs.Marks.{SaysIsMark, SaysHoldsMark};

// The byte that is no edge but a boundary mark.
pub const MARK: u8 = 255;

// Whether an edge is a boundary mark.
pub fn is_mark(edge: u8) -> bool
    ensures { SaysIsMark edge result }
{
    edge == MARK
}

// Whether one of these edges is a boundary mark.
pub fn holds_mark(edges: &[u8]) -> bool
    ensures { SaysHoldsMark edges.now result }
{
    edges.iter().any(|edge| is_mark(*edge))
}
