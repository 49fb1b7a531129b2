// The check of one cell in one key.
ghost use Rattle.std.specs.Prelude.{◌≡◌, ◌^◌, ◌<◌, ◌≤◌, length};
ghost use Rattle.images.specs.Loops.{key_ok};

use crate::positions::interval_start;

// In one key: does the cell's box end no earlier than the cell, and is the cell like its upper neighbour where one's box reaches over the other?
pub(crate) fn key_fits(
    ends: &[u32],
    own: u32,
    top: u64,
    j: usize,
    span: u64,
    next_span: u64,
    alike: bool,
) -> bool
    requires j_in_bounds { j ≤ length ends.now }
    requires span_nonzero { 0 < span }
    requires span_bound { span ≤ 2 ^ 32 }
    requires next_span_nonzero { 0 < next_span }
    ensures { result ≡ key_ok ends.now own top j span next_span alike }
{
    let low = u64::from(interval_start(ends, own, j));
    let reach = low - low % span + span;
    if j < ends.len() {
        let high = u64::from(ends[j]);
        high <= reach && (alike || (reach <= high && high % next_span == 0))
    } else {
        top <= reach
    }
}
