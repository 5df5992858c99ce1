// The code of an edge, from its steps north and east.
ghost use Rattle.std.specs.Prelude.{◌≡◌, ◌<◌};
ghost use Rattle.vertices.specs.Steps.{IsStep, class_of_size, step_octant, step_code};
ghost use Rattle.vertices.specs.Sizes.{octant_by_sizes};

// "An edge code is 8·length class + octant" (ticket 6).
const OCTANTS: u8 = 8;

// "with 31 taken as 30": the last length class.
const LAST_CLASS: u32 = 30;

// "dn and de the steps north and east". The difference of two 32-bit numbers needs 33 bits, so they are in 64.
#[derive(Clone, Copy)]
pub struct Steps {
    pub north: i64,
    pub east: i64,
}

// The octant by signs and sizes: `south` and `west` are the signs, n and e the sizes of the steps north and east. A ray
// belongs to the octant that it begins.
#[tactic(auto, unfolding(crate::specs::Sizes::octant_by_sizes))]
fn octant_by_sizes(south: bool, n: u64, west: bool, e: u64) -> u8
    ensures { result ≡ octant_by_sizes south n west e }
{
    match (south, west) {
        (false, false) if n == 0 => 2,
        (false, false) if e < n => 0,
        (false, false) => 1,
        (true, false) if e == 0 => 4,
        (true, false) if n < e => 2,
        (true, false) => 3,
        (true, true) if e < n => 4,
        (true, true) => 5,
        (false, true) if n < e => 6,
        (false, true) => 7,
    }
}

// "the bit length .. less one, with 31 taken as 30": the length class of an edge whose larger step has this size.
fn class_of_size(larger: u64) -> u8
    requires { 0 < larger }
    ensures { result ≡ class_of_size larger }
{
    larger.ilog2().min(LAST_CLASS) as u8
}

impl Steps {
    // "0 where dn > 0 and 0 ≤ de < dn, and so on clockwise".
    fn octant(self) -> u8
        requires { IsStep self.north self.east }
        ensures { result ≡ step_octant self.north self.east }
    {
        octant_by_sizes(
            self.north < 0,
            self.north.unsigned_abs(),
            self.east < 0,
            self.east.unsigned_abs(),
        )
    }

    // The code of the edge with these steps; its class is that of "the larger of |dn| and |de|".
    pub fn code(self) -> u8
        requires { IsStep self.north self.east }
        ensures { result ≡ step_code self.north self.east }
    {
        let larger = self.north.unsigned_abs().max(self.east.unsigned_abs());
        OCTANTS * class_of_size(larger) + self.octant()
    }
}
