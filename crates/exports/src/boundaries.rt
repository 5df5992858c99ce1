// The import of a boundary from its vertices, for C.
ghost use Rattle.exports.specs.Exported.{IsImportExported};

use crate::answering::{Answer, count_answer};
use vertices::import_vertices;

// `vertices::import_vertices` for C.
#[unsafe(no_mangle)]
pub extern "C" fn outlines_import_vertices(numbers: &[i32], edges: &mut [u8]) -> Answer
    ensures { IsImportExported numbers.now edges.old result edges.new }
{
    count_answer(import_vertices(numbers, edges))
}
