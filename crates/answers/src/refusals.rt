// Document 01's table of refusals and rows 12, 14, 15 and 16 of document 02: a name for each row, its number and its place.
// A variant holds a place if the table gives one that is not always 0.
ghost use Rattle.std.specs.Prelude.{◌≡◌};
ghost use Rattle.answers.specs.Refusals.{number_of, number_of_row, IsNumber, IsPlace};

// No row has this number yet.
const GAP: usize = 13;

// A refusal: one row of the table, with its place if the row has one.
#[derive(Clone, Copy)]
pub enum Refusal {
    // 1: m = 0 or m > 256
    Ring,
    // 2: k ≥ m
    Allowance,
    // 3: n > 65,536
    Line,
    // 4: n ≥ m and fewer than 4·(n − m + 1) words are lent for findings (document 02, ticket 1), 4·n on a closed line
    // (ticket 3), 8·(n − m + 1) for both passes of the two-way scan (ticket 6)
    FindingsRoom,
    // 5: book longer than 15,000 bytes (document 02, ticket 4)
    BookLength,
    // 6: a field isn't 13 bytes beginning 21 00 0A hex, nor 15 bytes beginning 22 00 0C (document 02, ticket 4), or is
    // cut off; its byte offset
    Field(usize),
    // 7: a record isn't above the one before it; byte offset (reading) or record number from 0 (packing)
    NotAbove(usize),
    // 8: words to pack aren't a multiple of 4, or exceed 4,000 (document 02, ticket 4)
    WordCount,
    // 9: a number of a record to pack, its ring number or its ceiling (document 02, ticket 4), is above 65,535; record
    // number
    NumberInRecord(usize),
    // 10: packing, unpacking or importing vertices (document 02, ticket 7) lacks room for its whole output, or on a closed
    // line n ≥ m and the join area is below 2·m − 2 bytes (ticket 3)
    OutputRoom,
    // 11: the program's input isn't as laid down; the offset where the first such field begins or should begin, or 0 if
    // the input is too long
    Input(usize),
    // 12: a ring holding 255, a boundary mark (document 02, ticket 2)
    RingMark,
    // 14: a ring code above 247 (document 02, ticket 6); the first such ring place
    RingCode(usize),
    // 15: an odd count of numbers, or fewer than 3 or more than 4,096 vertices (document 02, ticket 7)
    VertexCount,
    // 16: two equal neighbours among the vertices (document 02, ticket 7); the first of the earliest pair, from 0
    EqualNeighbours(usize),
}

impl Refusal {
    // The row of a refusal, counted from 1 in the order of the enum. Up to row 12 it is the refusal's number.
    fn row(self) -> usize
        ensures { number_of self ≡ number_of_row result }
    {
        match self {
            Refusal::Ring => 1,
            Refusal::Allowance => 2,
            Refusal::Line => 3,
            Refusal::FindingsRoom => 4,
            Refusal::BookLength => 5,
            Refusal::Field(_) => 6,
            Refusal::NotAbove(_) => 7,
            Refusal::WordCount => 8,
            Refusal::NumberInRecord(_) => 9,
            Refusal::OutputRoom => 10,
            Refusal::Input(_) => 11,
            Refusal::RingMark => 12,
            Refusal::RingCode(_) => 13,
            Refusal::VertexCount => 14,
            Refusal::EqualNeighbours(_) => 15,
        }
    }

    // The number of a refusal: the table's column "No.". The compiler makes one addition of `row`; of a match whose numbers
    // leave one out it makes a table of jumps, which tools/stack does not follow.
    pub fn number(self) -> usize
        ensures { IsNumber self result }
    {
        let row = self.row();
        if row < GAP { row } else { row + 1 }
    }

    // The place of a refusal: the table's column "Place".
    pub fn place(self) -> usize
        ensures { IsPlace self result }
    {
        match self {
            Refusal::Field(place) => place,
            Refusal::NotAbove(place) => place,
            Refusal::NumberInRecord(place) => place,
            Refusal::Input(place) => place,
            Refusal::RingCode(place) => place,
            Refusal::EqualNeighbours(place) => place,
            Refusal::Ring => 0,
            Refusal::Allowance => 0,
            Refusal::Line => 0,
            Refusal::FindingsRoom => 0,
            Refusal::BookLength => 0,
            Refusal::WordCount => 0,
            Refusal::OutputRoom => 0,
            Refusal::RingMark => 0,
            Refusal::VertexCount => 0,
        }
    }
}
