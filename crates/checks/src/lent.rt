// What a call that is lent a whole recording, finish or a sheet, looks at first: counts and limits.
ghost use Rattle.std.specs.Prelude.{◌≡◌};
ghost use Rattle.refusals.specs.Answers.{answer_of};
ghost use Rattle.buffer.specs.Refusals.{standing};
ghost use Rattle.buffer.specs.declared.CodeBuffer.{CodeBuffer};
ghost use Rattle.checks.specs.Lent.{recorded_in, counts_fit, within_limits};

use buffer::CodeBuffer;
use refusals::Refusal;

// The tables of a recording, as a call that is lent a whole one sees them.
#[derive(Clone, Copy)]
pub struct Lent<'a> {
    pub code: &'a [u8],
    pub labels: &'a [u8],
    pub events: &'a [u8],
    pub uses: &'a [u8],
    pub refs: &'a [u8],
    pub constants: &'a [u8],
    pub asked: &'a [u8],
    pub relocs: &'a [u8],
}

impl<'a> Lent<'a> {
    // Whether no count passes what is lent.
    #[tactic(auto, unfolding(crate::specs::Lent::counts_fit))]
    fn counts_fit(&self, b: CodeBuffer) -> bool
        ensures { result ≡ counts_fit (recorded_in b self.now) }
    {
        b.code as usize <= self.code.len()
            && b.labels as usize <= self.labels.len() / buffer::LABEL_SIZE
            && b.events as usize <= self.events.len() / relax::EVENT_SIZE
            && b.uses as usize <= self.uses.len() / buffer::USE_SIZE
            && b.refs as usize <= self.refs.len() / buffer::REF_SIZE
            && b.constants as usize <= self.constants.len() / buffer::CONSTANT_SIZE
            && b.asked as usize <= self.asked.len() / buffer::ASKED_SIZE
            && b.relocs as usize <= self.relocs.len() / buffer::RELOC_SIZE
    }

    // Whether no more is lent than the limits allow, with so many rows of segments and bytes of output.
    #[tactic(auto, unfolding(crate::specs::Lent::within_limits))]
    fn within_limits(&self, segments: usize, output: usize) -> bool
        ensures { (b : CodeBuffer) → result ≡ within_limits (recorded_in b self.now) segments output }
    {
        self.code.len() <= buffer::MOST_CODE
            && self.labels.len() / buffer::LABEL_SIZE <= buffer::MOST_ENTRIES
            && self.events.len() / relax::EVENT_SIZE <= buffer::MOST_ENTRIES
            && self.uses.len() / buffer::USE_SIZE <= buffer::MOST_ENTRIES
            && self.refs.len() / buffer::REF_SIZE <= buffer::MOST_ENTRIES
            && self.constants.len() / buffer::CONSTANT_SIZE <= buffer::MOST_ENTRIES
            && self.asked.len() / buffer::ASKED_SIZE <= buffer::MOST_ENTRIES
            && self.relocs.len() / buffer::RELOC_SIZE <= buffer::MOST_ENTRIES
            && segments <= buffer::MOST_ENTRIES
            && output <= buffer::MOST_CODE
    }

    // What every call that is lent a whole recording looks at first: 1, the recorded refusal, 3 or 4.
    pub fn why_not_standing(
        &self,
        b: CodeBuffer,
        segments: usize,
        output: usize,
    ) -> Result<(), Refusal>
        ensures { answer_of result ≡ standing b (counts_fit (recorded_in b self.now)) (within_limits (recorded_in b self.now) segments output) }
    {
        b.standing(self.counts_fit(b), self.within_limits(segments, output))
    }
}
