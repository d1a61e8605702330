// Finish for a caller that has no table of segments to lend: the table is its own.
#![tactic(auto)]

use buffer::CodeBuffer;
use finish::Finished;
use relax::Segment;

const UNUSED: Segment = Segment {
    old_start: 0,
    old_end: 0,
    new_start: 0,
    new_end: 0,
};

// Finishes a recording; one with a jump that has more than 8,192 events, those of its pool among them, is refused by 16.
pub fn finish_with_table(
    recording: CodeBuffer,
    code: &[u8],
    labels: &mut [u8],
    events: &[u8],
    uses: &[u8],
    refs: &[u8],
    constants: &[u8],
    asked: &[u8],
    relocs: &mut [u8],
    output: &mut [u8],
) -> Finished {
    let mut segments = [UNUSED; 8192];
    finish::finish(
        recording,
        code,
        labels,
        events,
        uses,
        refs,
        constants,
        asked,
        relocs,
        &mut segments,
        output,
    )
}
