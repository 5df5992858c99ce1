// Printing the line of a row after the call and the row's name: numbers with their labels, then what the call wrote.
ghost use Rattle.std.specs.Prelude.{◌<◌};

use crate::area::{Place, Room};
use findings::WORDS_EACH;
use silences::RECORD_WORDS;
use std::io;

// How the bytes or words that a call wrote are shown: bytes in hex, codes in decimal, the words of a finding or of a
// silence with commas between them.
#[derive(Clone, Copy)]
pub enum PrintedAs {
    Bytes,
    Codes,
    Findings,
    Silences,
}

// The most bytes or words that are shown one by one. Of more only a checksum is shown.
const MOST_SHOWN: usize = 26;

// The modulus of the checksum.
const CHECKSUM_MODULUS: u64 = 1000003;

// Prints a number after its label.
pub fn print_number(rt: &impl Print, label: &str, value: usize) -> io::Result<()> {
    print!(rt; " {label} {value}")
}

// Prints one word: the first of `each` after a space, the others after a comma.
fn print_word(rt: &impl Print, each: usize, at: usize, word: u32) -> io::Result<()> {
    let mark = if at.is_multiple_of(each) { ' ' } else { ',' };
    print!(rt; "{mark}{word}")
}

// Prints one byte, which the word has four times over, or one word.
fn print_value(rt: &impl Print, shown: PrintedAs, at: usize, word: u32) -> io::Result<()> {
    match shown {
        PrintedAs::Bytes => print!(rt; " {:02x}", word % 256),
        PrintedAs::Codes => print_word(rt, 1, at, word),
        PrintedAs::Findings => print_word(rt, WORDS_EACH, at, word),
        PrintedAs::Silences => print_word(rt, RECORD_WORDS, at, word),
    }
}

// The checksum with one word more.
fn sum_with(sum: u32, word: u32) -> u32
    ensures { result < 1000003 }
{
    ((u64::from(sum) * 31 + u64::from(word)) % CHECKSUM_MODULUS) as u32
}

// The checksum of words: for each word, 31 times the sum so far plus the word, mod 1,000,003.
fn checksum<T: Place>(places: &[T]) -> u32 {
    places
        .iter()
        .fold(0, |sum: u32, place| sum_with(sum, place.word()))
}

// Prints bytes or words, or their checksum if they are many.
pub fn print_places<T: Place>(rt: &impl Print, shown: PrintedAs, places: &[T]) -> io::Result<()> {
    if MOST_SHOWN < places.len() {
        return print_number(rt, "checksum", checksum(places) as usize);
    }
    for (at, place) in places.iter().enumerate() {
        print_value(rt, shown, at, place.word())?;
    }
    Ok(())
}

// Prints what a call wrote into its room, and whether all places after it are kept.
pub fn print_room<T: Place>(
    rt: &impl Print,
    label: &str,
    shown: PrintedAs,
    room: &Room<'_, T>,
) -> io::Result<()> {
    let written = room.written();
    print_number(rt, label, written.len())?;
    print_places(rt, shown, written)?;
    if room.is_kept() {
        print!(rt; " behind kept")
    } else {
        print!(rt; " behind touched")
    }
}

// Ends the line of a row whose call had one room.
pub fn end_row<T: Place>(rt: &impl Print, shown: PrintedAs, room: &Room<'_, T>) -> io::Result<()> {
    print_room(rt, "written", shown, room)?;
    println!(rt)
}
