// The code of an edge walked the other way.
ghost use Rattle.reversal.specs.Reversing.{IsReversedCode};

// "The drawing office keeps this as a table of 256 codes". A line is a length class, octants 0 to 7; the last line has
// the codes 248 to 255, which aren't edges. The attribute below keeps the formatter from
// putting each code on its own line.
#[rattlefmt::skip]
const REVERSED: [u8; 256] = [
    4, 5, 6, 7, 0, 1, 2, 3,
    12, 13, 14, 15, 8, 9, 10, 11,
    20, 21, 22, 23, 16, 17, 18, 19,
    28, 29, 30, 31, 24, 25, 26, 27,
    36, 37, 38, 39, 32, 33, 34, 35,
    44, 45, 46, 47, 40, 41, 42, 43,
    52, 53, 54, 55, 48, 49, 50, 51,
    60, 61, 62, 63, 56, 57, 58, 59,
    68, 69, 70, 71, 64, 65, 66, 67,
    76, 77, 78, 79, 72, 73, 74, 75,
    84, 85, 86, 87, 80, 81, 82, 83,
    92, 93, 94, 95, 88, 89, 90, 91,
    100, 101, 102, 103, 96, 97, 98, 99,
    108, 109, 110, 111, 104, 105, 106, 107,
    116, 117, 118, 119, 112, 113, 114, 115,
    124, 125, 126, 127, 120, 121, 122, 123,
    132, 133, 134, 135, 128, 129, 130, 131,
    140, 141, 142, 143, 136, 137, 138, 139,
    148, 149, 150, 151, 144, 145, 146, 147,
    156, 157, 158, 159, 152, 153, 154, 155,
    164, 165, 166, 167, 160, 161, 162, 163,
    172, 173, 174, 175, 168, 169, 170, 171,
    180, 181, 182, 183, 176, 177, 178, 179,
    188, 189, 190, 191, 184, 185, 186, 187,
    196, 197, 198, 199, 192, 193, 194, 195,
    204, 205, 206, 207, 200, 201, 202, 203,
    212, 213, 214, 215, 208, 209, 210, 211,
    220, 221, 222, 223, 216, 217, 218, 219,
    228, 229, 230, 231, 224, 225, 226, 227,
    236, 237, 238, 239, 232, 233, 234, 235,
    244, 245, 246, 247, 240, 241, 242, 243,
    248, 249, 250, 251, 252, 253, 254, 255,
];

// "each octant turns by 4 modulo 8, length class kept; codes 248 to 255 map to themselves." Every byte is a place of
// the table, so nothing is tested.
pub fn reversed_code(code: u8) -> u8
    ensures { IsReversedCode code result }
{
    REVERSED[code as usize]
}
