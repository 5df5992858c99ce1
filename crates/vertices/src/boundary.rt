// A boundary: its vertices one after the other, the last joined to the first. Vertex i has its number north at place 2·i,
// and its number east right behind it.
ghost use Rattle.std.specs.Prelude.{◌≡◌, ◌≢◌, ◌<◌, ◌-ℤ◌, MatchOption};
ghost use Rattle.lists.specs.Areas.{written};
ghost use Rattle.vertices.specs.Boundary.{vertex_count, vertex_at, edge_between, boundary_edges, IsFirstEqualPair, NoEqualPair};
ghost use Rattle.vertices.specs.Putting.{CanPutEdges};

use crate::steps::Steps;

// "pairs of signed 32-bit whole numbers": two numbers a vertex.
pub const NUMBERS_EACH: usize = 2;

// A vertex: "signed 32-bit whole numbers, north before east".
#[derive(Clone, Copy, PartialEq, Eq)]
pub struct Vertex {
    pub north: i32,
    pub east: i32,
}

impl Vertex {
    // The steps from this vertex to another.
    fn steps_to(self, to: Vertex) -> Steps
        ensures north { result.north ≡ to.north -ℤ self.north }
        ensures east { result.east ≡ to.east -ℤ self.east }
    {
        Steps {
            north: i64::from(to.north) - i64::from(self.north),
            east: i64::from(to.east) - i64::from(self.east),
        }
    }

    // The code of the edge from this vertex to another.
    fn edge_to(self, to: Vertex) -> u8
        requires { self ≢ to }
        ensures { result ≡ edge_between self to }
    {
        self.steps_to(to).code()
    }
}

// Vertex i.
fn vertex_at(numbers: &[i32], i: usize) -> Vertex
    requires { i < vertex_count numbers.now }
    ensures { result ≡ vertex_at numbers.now i }
{
    Vertex {
        north: numbers[NUMBERS_EACH * i],
        east: numbers[NUMBERS_EACH * i + 1],
    }
}

// The first of the earliest pair of equal neighbours; after the last vertex comes the first.
pub fn first_equal_pair(numbers: &[i32]) -> Option<usize>
    ensures { MatchOption result (NoEqualPair numbers.now) (IsFirstEqualPair numbers.now) }
{
    let count = numbers.len() / NUMBERS_EACH;
    for i in 0..count {
        if vertex_at(numbers, i) == vertex_at(numbers, (i + 1) % count) {
            return Some(i);
        }
    }
    None
}

// Writes the boundary's edges, one byte per vertex, from the area's first byte on.
pub fn put_edges(numbers: &[i32], edges: &mut [u8])
    requires { CanPutEdges numbers.now edges.old }
    ensures { edges.new ≡ written (boundary_edges numbers.now) edges.old }
{
    let count = numbers.len() / NUMBERS_EACH;
    for i in 0..count {
        let from = vertex_at(numbers, i);
        let to = vertex_at(numbers, (i + 1) % count);
        edges[i] = from.edge_to(to);
    }
}
