// Ring places and line places, each counted from zero, "never added or compared directly": two types, and two functions,
// `to_ring` and `to_line`, that turn one into the other.
//
// The compiler rejects a ring place or a bare number where a line place is stored, passed or returned, and the other way
// round. The rest is for a reader to check, because `.0` gives a place's number and any number can be wrapped. In the
// search a ring place is made in three ways: by `to_ring`, as rotation 0 (`count_run`), and from the index of a count
// (`lowest_rotation`); never from a line place's number. A place's number is used as an index, as a word of a finding, as
// the start in a silence's address, and in sums, differences and comparisons with lengths, limits and places of the same
// kind.
ghost use Rattle.std.specs.Prelude.{◌≡◌, ◌+◌};
ghost use Rattle.answers.specs.Places.{around, IsRingPlace, IsLinePlace};

// A place of the ring, counted from 0.
#[derive(Clone, Copy)]
pub struct RingPlace(pub usize);

// A place of the line, counted from 0.
#[derive(Clone, Copy)]
pub struct LinePlace(pub usize);

// (a + b) mod m, and 0 if m is 0. Both numbers are reduced mod m first, and added only where the sum stays below m, so
// nothing overflows. (A sum in 128 bits would need a division that the compiler takes from its library.)
fn sum_around(a: usize, b: usize, m: usize) -> usize
    ensures { result ≡ around m (a + b) }
{
    if m == 0 {
        return 0;
    }
    let x = a % m;
    let y = b % m;
    if x < m - y { x + y } else { x - (m - y) }
}

// The ring place under a line place, for the window at `start` under `rotation`.
pub fn to_ring(place: LinePlace, start: LinePlace, rotation: RingPlace, m: usize) -> RingPlace
    ensures { IsRingPlace place start rotation m result }
{
    let along = place.0.saturating_sub(start.0);
    RingPlace(sum_around(rotation.0, along, m))
}

// The line place over a ring place, for the window at `start` under `rotation`.
pub fn to_line(place: RingPlace, start: LinePlace, rotation: RingPlace, m: usize) -> LinePlace
    ensures { IsLinePlace place start rotation m result }
{
    if m == 0 {
        return start;
    }
    let along = sum_around(place.0, m - rotation.0 % m, m);
    LinePlace(start.0.saturating_add(along))
}
