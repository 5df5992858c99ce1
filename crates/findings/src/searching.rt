// A finding, and the counts of a search.
use answers::{LinePlace, RingPlace};

// A finding "carries start, rotation, distance", and ties: how many rotations reach that distance. The distance is a
// usize, as the allowance k is, because the two are compared. Distance and ties are written as words beside the two
// places, by `word` of putting.rt, without a cast.
#[derive(Clone, Copy)]
pub struct Finding {
    pub start: LinePlace,
    pub rotation: RingPlace,
    pub distance: usize,
    pub ties: usize,
}

// Found and looks of an accepted call: "Survey and scan return found and looks".
#[derive(Clone, Copy)]
pub struct SearchCounts {
    pub found: usize,
    pub looks: usize,
}
