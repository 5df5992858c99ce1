// Runs the calls at each limit that documents 01 and 02 name, and prints a line for each row. The rows are read from
// standard input (crates/samples/stdin), a section for each kind of row. What is printed is compared with
// crates/samples/stdout.
#![tactic(auto)]

ghost use Rattle.std.specs.Prelude.{◌≤◌, IfOk, length};

mod answer_rows;
mod area;
mod book_rows;
mod books;
mod calls;
mod closed_rows;
mod edges;
mod pack_rows;
mod paper;
mod printing;
mod report_rows;
mod search_rows;
mod seek_rows;
mod table;
mod two_way_rows;
mod vertex_rows;

use area::TEXT_BYTES;
use calls::Call;
use calls::Search::{Report, Scan, Survey};
use std::io;
use std::io::Read;
use table::Row;

// Runs one row through a call.
fn run_row(rt: &impl Print, call: Call, row: Row<'_>) -> io::Result<()> {
    match call {
        Call::Pack => pack_rows::pack_row(rt, row),
        Call::Read => book_rows::book_row(rt, row, |book, _| book::read(book)),
        Call::Unpack => book_rows::book_row(rt, row, |book, lent| book::unpack(book, lent)),
        Call::Seek => seek_rows::seek_row(rt, row),
        Call::OfLine(search) => search_rows::search_row(rt, search, row),
        Call::Answer => answer_rows::answer_row(rt, row),
        Call::OfClosedLine(search) => closed_rows::closed_row(rt, search, row),
        Call::ScanTwoWay => two_way_rows::two_way_row(rt, row),
        Call::ReversedCode => two_way_rows::reversed_code_row(rt, row),
        Call::Reversed => two_way_rows::reversed_row(rt, row),
        Call::ImportVertices => vertex_rows::import_row(rt, row),
        Call::ScanVertices => vertex_rows::scan_row(rt, row),
    }
}

// Begins a row's line: the call, the row's name, and a colon. (Not inlined, so that the buffers of printing are not on the
// stack while the row runs.)
#[inline(never)]
fn begin_row(rt: &impl Print, call: Call, row: Row<'_>) -> io::Result<()> {
    print!(rt; "{call} ")?;
    rt.write_all(row.field(0))?;
    print!(rt; ":")
}

// Runs every row of a section through one call. The section's first line is a heading, and what stands behind its last
// newline is no row.
fn run(rt: &impl Print, call: Call, text: &[u8], number: usize) -> io::Result<()> {
    let mut lines = table::section(text, number).split(|byte| *byte == b'\n');
    lines.next_back();
    for line in lines.skip(1) {
        let row = Row(line);
        begin_row(rt, call, row)?;
        run_row(rt, call, row)?;
    }
    Ok(())
}

// Reads until `text` is full or the input ends, and returns the number of bytes read. (A loop, because `io::copy` tries an
// interrupted read again, takes 7 KiB more of the stack, and asks for at most 8 KiB at once, so that a longer packet of a
// socket is cut.)
fn read_text(reader: &mut impl Read, text: &mut [u8]) -> io::Result<usize>
    ensures { IfOk result (λ n. n ≤ length text.new) }
{
    let mut got: usize = 0;
    while got < text.len() {
        let more = reader.read(&mut text[got..])?;
        if more == 0 {
            return Ok(got);
        }
        got += more;
    }
    Ok(got)
}

// Reads the table of rows and runs each of its fourteen sections through its calls.
fn main(rt: HostRuntime) -> io::Result<()> {
    let mut input: [u8; TEXT_BYTES] = area::filled(0);
    let n = read_text(&mut rt.stdin(), &mut input)?;
    let text = &input[..n];
    run(&rt, Call::Pack, text, 1)?;
    run(&rt, Call::Read, text, 2)?;
    run(&rt, Call::Unpack, text, 2)?;
    run(&rt, Call::Unpack, text, 3)?;
    run(&rt, Call::Seek, text, 4)?;
    // The same rows go through each search: a row without a book is a report with an empty book.
    run(&rt, Call::OfLine(Scan), text, 5)?;
    run(&rt, Call::OfLine(Survey), text, 5)?;
    run(&rt, Call::OfLine(Report), text, 5)?;
    run(&rt, Call::OfLine(Report), text, 6)?;
    run(&rt, Call::Answer, text, 7)?;
    run(&rt, Call::OfClosedLine(Scan), text, 8)?;
    run(&rt, Call::OfClosedLine(Survey), text, 8)?;
    run(&rt, Call::OfClosedLine(Report), text, 8)?;
    run(&rt, Call::OfClosedLine(Report), text, 9)?;
    run(&rt, Call::ScanTwoWay, text, 10)?;
    run(&rt, Call::ReversedCode, text, 11)?;
    run(&rt, Call::Reversed, text, 12)?;
    run(&rt, Call::ImportVertices, text, 13)?;
    run(&rt, Call::ScanVertices, text, 14)
}
