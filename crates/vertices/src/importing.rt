// Importing a boundary. Everything is tested before the first byte is written, so that a refusal writes nothing.
ghost use Rattle.vertices.specs.Importing.{IsImported};

use crate::boundary::{NUMBERS_EACH, first_equal_pair, put_edges};
use answers::Refusal;

// "fewer than 3 .. vertices".
const FEWEST_VERTICES: usize = 3;

// "more than 4,096 vertices".
const MOST_VERTICES: usize = 4096;

// Writes the edge bytes of the boundary with these vertices, north before east, and returns how many there are; or refuses
// with 15, 16 or 10, in this order.
pub fn import_vertices(numbers: &[i32], edges: &mut [u8]) -> Result<usize, Refusal>
    ensures { IsImported numbers.now edges.old result edges.new }
{
    if numbers.len() % NUMBERS_EACH == 1 {
        return Err(Refusal::VertexCount);
    }
    let count = numbers.len() / NUMBERS_EACH;
    if count < FEWEST_VERTICES || MOST_VERTICES < count {
        return Err(Refusal::VertexCount);
    }
    if let Some(place) = first_equal_pair(numbers) {
        return Err(Refusal::EqualNeighbours(place));
    }
    if edges.len() < count {
        return Err(Refusal::OutputRoom);
    }
    put_edges(numbers, edges);
    Ok(count)
}
