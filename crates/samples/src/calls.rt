// The calls that the rows go through, each with the name that begins its lines.
use std::fmt;

// The three searches, of a line and of a closed line.
#[derive(Clone, Copy)]
pub enum Search {
    Scan,
    Survey,
    Report,
}

#[derive(Clone, Copy)]
pub enum Call {
    Pack,
    Read,
    Unpack,
    Seek,
    OfLine(Search),
    Answer,
    OfClosedLine(Search),
    ScanTwoWay,
    ReversedCode,
    Reversed,
    ImportVertices,
    ScanVertices,
}

impl fmt::Display for Search {
    fn fmt<W: fmt::Write>(&self, f: &mut fmt::Formatter<W>) -> fmt::Result {
        f.write_str(match self {
            Search::Scan => "scan",
            Search::Survey => "survey",
            Search::Report => "report",
        })
    }
}

impl fmt::Display for Call {
    fn fmt<W: fmt::Write>(&self, f: &mut fmt::Formatter<W>) -> fmt::Result {
        match self {
            Call::Pack => f.write_str("pack"),
            Call::Read => f.write_str("read"),
            Call::Unpack => f.write_str("unpack"),
            Call::Seek => f.write_str("seek"),
            Call::OfLine(search) => write!(f, "{search}"),
            Call::Answer => f.write_str("answer"),
            Call::OfClosedLine(search) => write!(f, "{search}_closed"),
            Call::ScanTwoWay => f.write_str("scan_two_way"),
            Call::ReversedCode => f.write_str("reversed_code"),
            Call::Reversed => f.write_str("reversed"),
            Call::ImportVertices => f.write_str("import_vertices"),
            Call::ScanVertices => f.write_str("scan_vertices"),
        }
    }
}
