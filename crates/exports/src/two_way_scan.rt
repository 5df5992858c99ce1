// The two-way scan, for C. Its struct has found and looks of each pass.
ghost use Rattle.std.specs.Prelude.{◌≡◌, ◌<◌, ◌^◌};
ghost use Rattle.two_way.specs.TwoWay.{paper_of as two_way_scan_paper_of};
ghost use Rattle.exports.specs.Exported.{two_way_paper_of, IsTwoWayExported};

use crate::answering::refused_answer;
use answers::Refusal;
use two_way::{TwoWayCounts, scan_two_way};

// What `outlines_scan_two_way` returns: six numbers, in C's layout. `refusal` is 0 where the call is accepted. The forward
// pass is the quick scan for the ring, the backward pass that for the reversed ring.
#[repr(C)]
#[derive(Clone, Copy)]
pub struct TwoWayAnswer {
    pub refusal: u32,
    pub place: u32,
    pub forward_found: u64,
    pub forward_looks: u64,
    pub backward_found: u64,
    pub backward_looks: u64,
}

// The answer of the two-way scan. (It goes through no `report_answer`, because the C interface gives it a struct of its
// own; `refused_answer` gives a refusal's number and place. Casts as in `report_answer`.)
fn two_way_answer(scanned: Result<TwoWayCounts, Refusal>) -> TwoWayAnswer
    requires { (two_way_scan_paper_of scanned).place < 2 ^ 32 }
    ensures { two_way_paper_of result ≡ two_way_scan_paper_of scanned }
{
    match scanned {
        Ok(TwoWayCounts { forward, backward }) => TwoWayAnswer {
            refusal: 0,
            place: 0,
            forward_found: forward.found as u64,
            forward_looks: forward.looks as u64,
            backward_found: backward.found as u64,
            backward_looks: backward.looks as u64,
        },
        Err(refusal) => {
            let refused = refused_answer(refusal);
            TwoWayAnswer {
                refusal: refused.refusal,
                place: refused.place,
                forward_found: 0,
                forward_looks: 0,
                backward_found: 0,
                backward_looks: 0,
            }
        }
    }
}

// `two_way::scan_two_way` for C.
#[unsafe(no_mangle)]
pub extern "C" fn outlines_scan_two_way(
    ring: &[u8],
    line: &[u8],
    k: usize,
    words: &mut [u32],
) -> TwoWayAnswer
    ensures { IsTwoWayExported ring.now line.now k words.old result words.new }
{
    two_way_answer(scan_two_way(ring, line, k, words))
}
