// Jumps that relaxation may shrink or grow: events, kept on X64.
ghost use Rattle.std.specs.Prelude.{◌≡◌, ◌*◌, ◌≤◌, length};
ghost use Rattle.refusals.specs.Answers.{answer_of};
ghost use Rattle.buffer.specs.State.{recorded};
ghost use Rattle.buffer.specs.Refusals.{last_end, label_inside, jump_malformed, jump_unfit, why_jump};
ghost use Rattle.buffer.specs.Calls.{record_jump};
ghost use Rattle.buffer.specs.Tables.{label_size};
ghost use Rattle.buffer.specs.steps.Below.{Told};
ghost use Rattle.relax.specs.Events.{event_size};

use crate::open::opened;
use crate::{CodeBuffer, LABEL_SIZE, MOST_ENTRIES, Recorded};
use refusals::Refusal;

// The end of the last of `n` events.
pub fn last_end(events: &[u8], n: usize) -> u64
    requires { n * event_size ≤ length events.now }
    ensures { result ≡ last_end events.now n }
{
    if n == 0 {
        return 0;
    }
    relax::event_end(relax::event_at(events, n - 1))
}

// One of the first `n` labels is bound strictly between two offsets. The scan looks at every label, so that it compiles to vector instructions.
fn label_inside(labels: &[u8], n: usize, start: u32, end: u32) -> bool
    requires { n * label_size ≤ length labels.now }
    ensures { result ≡ label_inside labels.now n start end }
{
    let mut found = false;
    for i in 0..n {
        let at = words::word_at(labels, i);
        found = ((start < at) & (at < end)) | found;
    }
    found
}

// It does not end at `code`, or its length is not 2 to 15, or its condition is above 16.
#[tactic(auto, unfolding(crate::specs::Refusals::jump_malformed))]
fn is_malformed(code: u32, start: u32, len: u32, cc: u32) -> bool
    ensures { result ≡ jump_malformed code start len cc }
{
    start as u64 + len as u64 != code as u64
        || len < relax::SHORT_LEN
        || relax::MOST_JUMP < len
        || relax::NO_CONDITION < cc
}

impl CodeBuffer {
    // `nearest`: the greatest offset of a label below the current offset; where it is not told, the labels are looked at.
    fn is_unfit(
        self,
        labels: &[u8],
        events: &[u8],
        start: u32,
        len: u32,
        cc: u32,
        nearest: Option<u32>,
    ) -> bool
        requires { (self.labels * label_size ≤ length labels.now) × (self.events * event_size ≤ length events.now) × Told labels.now self.labels self.code nearest }
        ensures { result ≡ jump_unfit self labels.now events.now start len cc }
    {
        // Returns and no chain of tests, since the proof of the last rests on the first two.
        if is_malformed(self.code, start, len, cc) {
            return true;
        }
        if (start as u64) < last_end(events, self.events as usize) {
            return true;
        }
        match nearest {
            Some(at) => start < at,
            None => label_inside(labels, self.labels as usize, start, self.code),
        }
    }

    fn why_not_jump(
        self,
        labels: &[u8],
        events: &[u8],
        start: u32,
        len: u32,
        label: u32,
        cc: u32,
        nearest: Option<u32>,
    ) -> Result<(), Refusal>
        requires { Told labels.now self.labels self.code nearest }
        ensures { answer_of result ≡ why_jump self labels.now events.now start len label cc }
    {
        let known = labels.len() / LABEL_SIZE;
        let room = events.len() / relax::EVENT_SIZE;
        self.standing(
            self.labels as usize <= known && self.events as usize <= room,
            known <= MOST_ENTRIES && room <= MOST_ENTRIES,
        )?;
        if self.arch != fields::X64 {
            return Ok(());
        }
        if self.labels <= label {
            return Err(Refusal::UnknownNumber);
        }
        if self.is_unfit(labels, events, start, len, cc, nearest) {
            return Err(Refusal::BadEntry);
        }
        if room <= self.events as usize {
            return Err(Refusal::TableFull);
        }
        Ok(())
    }

    // Records a jump, told of the labels what `is_unfit` is.
    pub fn record_jump(
        mut self,
        labels: &[u8],
        events: &mut [u8],
        start: u32,
        len: u32,
        label: u32,
        cc: u32,
        nearest: Option<u32>,
    ) -> Recorded
        requires { Told labels.now self.labels self.code nearest }
        ensures { (recorded result, events.new) ≡ record_jump self labels.now events.old start len label cc }
    {
        if let Err(why) = self.why_not_jump(labels, events, start, len, label, cc, nearest) {
            return self.turn_down(why);
        }
        if self.arch == fields::X64 {
            let n = self.events;
            relax::put_event(events, n as usize, relax::JUMP, start, len, label, cc);
            self.events = n + 1;
            self.unresolved += opened(labels, label);
        }
        Recorded {
            buffer: self,
            answer: Ok(()),
        }
    }

    // Records a jump that ends at the current offset. Off X64 it is accepted unread.
    pub fn record_relaxable_jump(
        self,
        labels: &[u8],
        events: &mut [u8],
        start: u32,
        len: u32,
        label: u32,
        cc: u32,
    ) -> Recorded
        ensures { (recorded result, events.new) ≡ record_jump self labels.now events.old start len label cc }
    {
        self.record_jump(labels, events, start, len, label, cc, None)
    }
}
