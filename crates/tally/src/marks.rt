// The survey must know which windows hold a boundary mark, and may read no line edge for it beyond its looks. So each
// edge is asked as it is counted, and the place just past the last mark is carried along with the tally.
ghost use Rattle.tally.specs.Marks.{IsPastMark};

use findings::is_mark;

// The place just past the last mark, after one edge more: `next`, the place just past that edge, if it is a mark; else
// `past`, as before.
pub fn past_mark(edge: u8, past: usize, next: usize) -> usize
    ensures { IsPastMark edge past next result }
{
    if is_mark(edge) { next } else { past }
}
