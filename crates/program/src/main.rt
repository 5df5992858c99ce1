// The report program of document 01: reads standard input, has `reply::answer` make the text, and writes it to standard output.
// (crates/request reads the request that the input holds, crates/reply writes the text. The built program is target/native/report.)
// The exit status is 0 whenever the program ends by itself, so test the output: accept it only if its last line is a whole
// `found F hidden H looks L`, ended by LF (docs/SPEC.md, section 8).
#![tactic(auto)]

ghost use Rattle.std.specs.Prelude.{◌≤◌, length};

use reply::{MOST_INPUT, MOST_TEXT};
use std::io::Read;

// One byte more than the longest input. If all of these bytes come, the input is too long.
const MOST_READ: usize = MOST_INPUT + 1;

// Reads standard input to its end, or until `input` is full, and returns the number of bytes read. If a read fails, the rest of the
// input is unknown: this returns 0, and the empty input is refused by 11 at place 0. (A loop, because std reads to an end into a
// Vec alone, which needs a heap, and `read_exact` does not say how many bytes came.)
fn read_input(reader: &mut impl Read, input: &mut [u8]) -> usize
    ensures { result ≤ length input.new }
{
    let mut got: usize = 0;
    while got < input.len() {
        let Ok(more) = reader.read(&mut input[got..]) else {
            return 0;
        };
        if more == 0 {
            return got;
        }
        got += more;
    }
    got
}

// Reads the input, makes the text and writes it.
fn main(rt: HostRuntime) {
    let mut input = [0u8; MOST_READ];
    let got = read_input(&mut rt.stdin(), &mut input);
    let mut text = [0u8; MOST_TEXT];
    let long = reply::answer(&input[..got], &mut text);
    if rt.write_all(&text[..long]).is_err() {
        // The exit status stays 0, so standard error is the only place to report a failed write. If that fails too, nothing is left to do.
        let _ = eprintln!(rt; "outlines: the report was not written whole");
    }
}
