// Pack and unpack, for C.
ghost use Rattle.exports.specs.Exported.{IsPackExported, IsUnpackExported};

use crate::answering::{Answer, count_answer};
use book::unpack;
use packing::pack;

// `packing::pack` for C.
#[unsafe(no_mangle)]
pub extern "C" fn outlines_pack(words: &[u32], bytes: &mut [u8]) -> Answer
    ensures { IsPackExported words.now bytes.old result bytes.new }
{
    count_answer(pack(words, bytes))
}

// `book::unpack` for C.
#[unsafe(no_mangle)]
pub extern "C" fn outlines_unpack(book: &[u8], words: &mut [u32]) -> Answer
    ensures { IsUnpackExported book.now words.old result words.new }
{
    count_answer(unpack(book, words))
}
