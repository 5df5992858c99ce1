// Findings go into the lent words as four 32-bit words each: "start, rotation, distance, ties" (document 02, ticket 1).
ghost use Rattle.std.specs.Prelude.{◌≡◌};
ghost use Rattle.findings.specs.Putting.{finding_of, word_of, four_words, IsFindingPut};

use crate::admitting::WORDS_EACH;
use crate::searching::Finding;

// A number as a 32-bit word, if it is one.
fn word(number: usize) -> Option<u32>
    ensures { result ≡ word_of number }
{
    u32::try_from(number).ok()
}

// A finding's words, if each of its four numbers is a 32-bit word.
fn four_words(finding: Finding) -> Option<[u32; WORDS_EACH]>
    ensures { result ≡ four_words (finding_of finding) }
{
    let start = word(finding.start.0)?;
    let rotation = word(finding.rotation.0)?;
    let distance = word(finding.distance)?;
    let ties = word(finding.ties)?;
    Some([start, rotation, distance, ties])
}

// Puts a finding's words behind those of `before` findings. If they cannot be put, nothing is written. The room is
// divided, because a product with `before` could overflow.
pub fn put_finding(words: &mut [u32], before: usize, finding: Finding)
    ensures { IsFindingPut words.old before (finding_of finding) words.new }
{
    if before < words.len() / WORDS_EACH {
        if let Some(four) = four_words(finding) {
            let at = WORDS_EACH * before;
            words[at..at + WORDS_EACH].copy_from_slice(&four);
        }
    }
}
