// Rules 1 to 3: one window is read from its last edge towards its first. In place of the stretch the code holds a
// vector of one bit for each rotation: bit r is set exactly when the stretch is the beginning of rotation r (source
// document 003).
ghost use Rattle.std.specs.Prelude.{◌≡◌, ◌+◌, ◌<◌, ◌≤◌, length};
ghost use Rattle.meaning.specs.Meanings.{is_mark};
ghost use Rattle.meaning.specs.Rules.{stops_at};
ghost use Rattle.tally.specs.Counts.{most_counts};
ghost use Rattle.sweep.specs.Reads.{read_with, read_by};

use findings::is_mark;
use occurrences::EdgeVectors;
use vectors::{first_bits, grown, no_bit};

// How far a window was read: the looks, one for each edge read; and if reading stopped, at break k + 1 or at a mark, the
// number of edges left unread there. If it did not, all edges were read, and the window is a candidate.
#[derive(Clone, Copy)]
pub struct WindowRead {
    pub looks: usize,
    pub stopped_at: Option<usize>,
}

// Whether reading stops at an edge that does not fit; `breaks` counts the breaks before it. It stops at a mark. Any other
// such edge is a break, and reading stops there if it is break k + 1.
fn stops_at(edge: u8, k: usize, breaks: usize) -> bool
    ensures { result ≡ stops_at k (breaks + 1) (is_mark edge) }
{
    k <= breaks || is_mark(edge)
}

// Rules 1 to 3, where vectors have `words` words. Whether reading stops is asked only where the grown vector has no bit: the
// number of breaks changes nowhere else, and a mark fits nothing, because a ring holds none.
fn read_words(window: &[u8], vectors: &EdgeVectors, k: usize, words: usize) -> WindowRead
    ensures { result ≡ read_with vectors.now window.now k words }
{
    let m = window.len();
    let full = first_bits(m);
    let mut held = full;
    let mut breaks: usize = 0;
    let mut looks: usize = 0;
    for (left, edge) in window.iter().enumerate().rev() {
        looks += 1; // one look
        let next = grown(held, vectors.vector_of(*edge, words), m, words);
        if no_bit(next, words) {
            if stops_at(*edge, k, breaks) {
                return WindowRead {
                    looks,
                    stopped_at: Some(left),
                };
            }
            breaks += 1;
            held = full;
        } else {
            held = next;
        }
    }
    WindowRead {
        looks,
        stopped_at: None,
    }
}

// Reads the window with as few words as m bits need. Each call passes the number of words as a literal, so that the
// compiler can make code of its own for each number.
pub fn read_window(window: &[u8], vectors: &EdgeVectors, k: usize) -> WindowRead
    requires { (0 < length window.now) × (length window.now ≤ most_counts) }
    ensures { result ≡ read_by vectors.now window.now k }
{
    match window.len() {
        0..=64 => read_words(window, vectors, k, 1),
        65..=128 => read_words(window, vectors, k, 2),
        129..=192 => read_words(window, vectors, k, 3),
        _ => read_words(window, vectors, k, 4),
    }
}
