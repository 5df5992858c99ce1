// The two passes: "lists forward findings, then backward ones".
ghost use Rattle.two_way.specs.TwoWay.{IsScannedTwoWay};
ghost use Rattle.two_way.specs.Passes.{CanScanBackward, IsScannedBackward};

use crate::admitting::admit_two_way;
use answers::Refusal;
use findings::{SearchCounts, WORDS_EACH};
use outlines::scan;
use reversal::{MOST_REVERSED, reverse};

// Found and looks of each pass of an accepted call.
#[derive(Clone, Copy)]
pub struct TwoWayCounts {
    pub forward: SearchCounts,
    pub backward: SearchCounts,
}

// Scans the line for the reversed ring. It lends the words behind the forward findings, so that the backward ones follow
// without a gap. The scan does not refuse: these words are enough, and the reversed ring holds no mark.
fn scan_backward(
    ring: &[u8],
    line: &[u8],
    k: usize,
    words: &mut [u32],
    forward: SearchCounts,
) -> Result<TwoWayCounts, Refusal>
    requires { CanScanBackward ring.now line.now k words.old forward }
    ensures { IsScannedBackward ring.now line.now k words.old forward result words.new }
{
    let mut reversed = [0u8; MOST_REVERSED];
    reverse(ring, &mut reversed);
    let behind = WORDS_EACH * forward.found;
    let backward = scan(&reversed[..ring.len()], line, k, &mut words[behind..])?;
    Ok(TwoWayCounts { forward, backward })
}

// The quick scan of an open line, forward and backward. Each of the two scans admits its own ring once more; neither
// refuses.
pub fn scan_two_way(
    ring: &[u8],
    line: &[u8],
    k: usize,
    words: &mut [u32],
) -> Result<TwoWayCounts, Refusal>
    ensures { IsScannedTwoWay ring.now line.now k words.old result words.new }
{
    admit_two_way(ring, k, line.len(), words.len())?;
    let forward = scan(ring, line, k, words)?;
    scan_backward(ring, line, k, words, forward)
}
