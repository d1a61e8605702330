// Bytes and padding: what appends to the code.
ghost use Rattle.std.specs.Prelude.{◌≡◌, ◌+◌, ◌*◌, ◌<◌, ◌≤◌, length, true, IfOk};
ghost use Rattle.refusals.specs.Answers.{answer_of};
ghost use Rattle.buffer.specs.State.{keeps_events, recorded};
ghost use Rattle.buffer.specs.Refusals.{why_bytes, is_alignment, why_align};
ghost use Rattle.buffer.specs.Calls.{put_bytes, padding, aligned_events, align_to};
ghost use Rattle.buffer.specs.Tables.{most_entries, most_code, default_most};
ghost use Rattle.buffer.specs.steps.Aligned.{spent_of, aligned_tables, aligned_counts};
ghost use Rattle.relax.specs.Events.{event_size};

use crate::{
    CodeBuffer, DEFAULT_MOST, MOST_ALIGNMENT, MOST_CODE, MOST_ENTRIES, Recorded, keeps_events,
};
use refusals::Refusal;

// A power of two, at most 4,096.
#[tactic(auto, unfolding(crate::specs::Refusals::is_alignment))]
pub fn is_alignment(n: u32) -> bool
    ensures { result ≡ is_alignment n }
{
    n != 0 && MOST_ALIGNMENT % n == 0
}

// AArch64 is padded with zeros.
pub fn pad(arch: u32, part: &mut [u8])
    ensures { part.new ≡ padding arch (length part.old) }
{
    if arch == fields::AARCH64 {
        part.fill(0);
        return;
    }
    encoder::push_nops(part);
}

impl CodeBuffer {
    #[tactic(auto, using(refusals::proofs::Chains::chains, seqs::proofs::Picking::picks), unfolding(crate::specs::Refusals::why_bytes))]
    fn why_no_bytes(self, lent: usize, n: usize) -> Result<(), Refusal>
        ensures { answer_of result ≡ why_bytes self lent n }
    {
        let at = self.code as usize;
        self.standing(at <= lent, lent <= MOST_CODE)?;
        if lent - at < n {
            return Err(Refusal::CodeFull);
        }
        Ok(())
    }

    // Appends bytes.
    pub fn put_bytes(mut self, code: &mut [u8], bytes: &[u8]) -> Recorded
        ensures { (recorded result, code.new) ≡ put_bytes self code.old bytes.now }
    {
        if let Err(why) = self.why_no_bytes(code.len(), bytes.len()) {
            return self.turn_down(why);
        }
        let at = self.code as usize;
        let end = at + bytes.len();
        seqs::copy(bytes, &mut code[at..end]);
        self.code = end as u32;
        Recorded {
            buffer: self,
            answer: Ok(()),
        }
    }

    fn why_not_align(
        self,
        lent: usize,
        room: usize,
        multiple: u32,
        most: u32,
    ) -> Result<(), Refusal>
        ensures { answer_of result ≡ why_align self lent room multiple most }
    {
        let at = self.code as usize;
        let n = self.events as usize;
        self.standing(
            at <= lent && n <= room,
            lent <= MOST_CODE && room <= MOST_ENTRIES,
        )?;
        if !is_alignment(multiple) {
            return Err(Refusal::BadAlignment);
        }
        if keeps_events(self.arch) && room <= n {
            return Err(Refusal::TableFull);
        }
        if lent - at < encoder::padding_within(self.code, multiple, most) as usize {
            return Err(Refusal::CodeFull);
        }
        Ok(())
    }

    // On X64 every alignment is an event, one that takes no bytes too.
    fn put_alignment(self, events: &mut [u8], multiple: u32, most: u32)
        requires { keeps_events self.arch ≡ true → self.events * event_size + event_size ≤ length events.old }
        ensures { events.new ≡ (aligned_events self events.old multiple most).1 }
    {
        if !keeps_events(self.arch) {
            return;
        }
        relax::put_event(
            events,
            self.events as usize,
            relax::ALIGNMENT,
            self.code,
            encoder::padding_within(self.code, multiple, most),
            multiple,
            most,
        );
    }

    // What an alignment does to the tables; the answer is how many bytes it spends there. This is a function of its own, and hands back no counts, so
    // that the loop over a sheet's calls keeps these in registers: with all of an alignment in one function a sheet takes a quarter longer.
    #[inline(never)]
    fn align_tables(
        self,
        code: &mut [u8],
        events: &mut [u8],
        multiple: u32,
        most: u32,
    ) -> Result<u32, Refusal>
        ensures { (spent_of result, (code.new, events.new)) ≡ aligned_tables self code.old events.old multiple most }
    {
        self.why_not_align(code.len(), events.len() / relax::EVENT_SIZE, multiple, most)?;
        let at = self.code as usize;
        let len = encoder::padding_within(self.code, multiple, most);
        let end = at + len as usize;
        pad(self.arch, &mut code[at..end]);
        self.put_alignment(events, multiple, most);
        Ok(len)
    }

    // The recording after an alignment of its tables.
    #[tactic(auto, using(seqs::proofs::Picking::picks), unfolding(crate::specs::steps::Aligned::aligned_counts))]
    fn aligned(mut self, spent: Result<u32, Refusal>) -> Recorded
        requires { IfOk spent (λ len. (self.code + len ≤ most_code) × (keeps_events self.arch ≡ true → self.events < most_entries)) }
        ensures { recorded result ≡ aligned_counts self (spent_of spent) }
    {
        match spent {
            Err(why) => self.turn_down(why),
            Ok(len) => {
                self.code += len;
                if keeps_events(self.arch) {
                    self.events += 1;
                }
                Recorded {
                    buffer: self,
                    answer: Ok(()),
                }
            }
        }
    }

    // Pads the code to a multiple.
    pub fn try_align_to(self, code: &mut [u8], events: &mut [u8], multiple: u32) -> Recorded
        ensures { (recorded result, (code.new, events.new)) ≡ align_to self code.old events.old multiple default_most }
    {
        self.try_align_to_within(code, events, multiple, DEFAULT_MOST)
    }

    // The same where that takes no more than `most` bytes; else it spends none.
    pub fn try_align_to_within(
        self,
        code: &mut [u8],
        events: &mut [u8],
        multiple: u32,
        most: u32,
    ) -> Recorded
        ensures { (recorded result, (code.new, events.new)) ≡ align_to self code.old events.old multiple most }
    {
        let spent = self.align_tables(code, events, multiple, most);
        self.aligned(spent)
    }
}
