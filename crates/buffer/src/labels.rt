// Labels: made and bound. An entry of the table is the label's offset, or `NONE`.
ghost use Rattle.std.specs.Prelude.{◌≡◌};
ghost use Rattle.refusals.specs.Answers.{answer_of};
ghost use Rattle.buffer.specs.State.{recorded, made_of};
ghost use Rattle.buffer.specs.Refusals.{why_label, why_bind};
ghost use Rattle.buffer.specs.Calls.{get_label, bind_label};

use crate::open::namers_within;
use crate::{
    CodeBuffer, LABEL_SIZE, MOST_ENTRIES, Made, NONE, REF_SIZE, RELOC_SIZE, Recorded, USE_SIZE,
};
use refusals::Refusal;

impl CodeBuffer {
    #[tactic(auto, using(refusals::proofs::Chains::chains, seqs::proofs::Picking::picks), unfolding(crate::specs::Refusals::why_label))]
    fn why_no_label(self, room: usize) -> Result<(), Refusal>
        ensures { answer_of result ≡ why_label self room }
    {
        let n = self.labels as usize;
        self.standing(n <= room, room <= MOST_ENTRIES)?;
        if room <= n {
            return Err(Refusal::TableFull);
        }
        Ok(())
    }

    // A new label, not bound yet.
    pub fn get_label(mut self, labels: &mut [u8]) -> Made
        ensures { (made_of result, labels.new) ≡ get_label self labels.old }
    {
        if let Err(why) = self.why_no_label(labels.len() / LABEL_SIZE) {
            return self.make_none(why);
        }
        let n = self.labels;
        words::put_word(labels, n as usize, NONE);
        self.labels = n + 1;
        Made {
            buffer: self,
            answer: Ok(n),
        }
    }

    // The numbers are entries lent of each table.
    #[tactic(auto, using(refusals::proofs::Chains::chains, seqs::proofs::Picking::picks), unfolding(crate::specs::Refusals::why_bind))]
    fn why_not_bind(
        self,
        labels: &[u8],
        events: usize,
        uses: usize,
        refs: usize,
        relocs: usize,
        label: u32,
    ) -> Result<(), Refusal>
        ensures { answer_of result ≡ why_bind self labels.now events uses refs relocs label }
    {
        let room = labels.len() / LABEL_SIZE;
        // `&`: a test with a call in it is one value in the proof so, and not two ways that meet.
        self.standing(
            (self.labels as usize <= room) & self.namers_fit(events, uses, refs, relocs),
            (room <= MOST_ENTRIES) & namers_within(events, uses, refs, relocs),
        )?;
        if self.labels <= label {
            return Err(Refusal::UnknownNumber);
        }
        if words::word_at(labels, label as usize) != NONE {
            return Err(Refusal::AlreadyBound);
        }
        Ok(())
    }

    // Binds a label to the current offset. The tables whose entries name labels are read, for the number of those that are open.
    pub fn try_bind_label(
        mut self,
        labels: &mut [u8],
        events: &[u8],
        uses: &[u8],
        refs: &[u8],
        relocs: &[u8],
        label: u32,
    ) -> Recorded
        ensures { (recorded result, labels.new) ≡ bind_label self labels.old events.now uses.now refs.now relocs.now label }
    {
        let answer = self.why_not_bind(
            labels,
            events.len() / relax::EVENT_SIZE,
            uses.len() / USE_SIZE,
            refs.len() / REF_SIZE,
            relocs.len() / RELOC_SIZE,
            label,
        );
        if answer.is_ok() {
            self.unresolved = self.open_once_bound(events, uses, refs, relocs, label);
            words::put_word(labels, label as usize, self.code);
        }
        Recorded {
            buffer: self,
            answer,
        }
    }
}
