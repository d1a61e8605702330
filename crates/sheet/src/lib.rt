// A sheet of calls: a count n (word), n kind bytes, then n arguments of four words. Its form is checked as a whole before any of its calls is made.
#![tactic(auto)]

ghost use Rattle.std.specs.Prelude.{◌≡◌, ◌*◌, ◌≤◌, ◌<◌, length, true};
ghost use Rattle.seqs.specs.Pick.{pick};
ghost use Rattle.refusals.specs.Answers.{answer_of};
ghost use Rattle.buffer.specs.State.{with_open};
ghost use Rattle.buffer.specs.Tables.{label_size};
ghost use Rattle.buffer.specs.steps.Count.{NamersFit, open_count};
ghost use Rattle.recording.specs.steps.Righted.{Fitting};
ghost use Rattle.checks.specs.Lent.{recording_of};
ghost use Rattle.sheet.specs.Run.{calls_of, run_calls, run_sheet};
ghost use Rattle.sheet_form.specs.Form.{first_broken, argument_size};
ghost use Rattle.sheet.specs.steps.Meant.{meant, Going};

use buffer::CodeBuffer;
use checks::lent::Lent;
use refusals::Refusal;
use sheet_form::bound::Bound;
use sheet_form::kinds::{self, Kind};
use sheet_form::{ARGUMENT_SIZE, form};

mod calls;

// So many binds of a sheet look at the tables themselves; where there are more, the open entries are counted once, after its calls.
const FEW_BINDS: usize = 4;

// The recording after a sheet, the first refusal, and the index of the refused call, or the number of calls.
#[derive(Clone, Copy)]
pub struct Ran {
    pub buffer: CodeBuffer,
    pub answer: Result<(), Refusal>,
    pub index: u32,
}

// Whether there are more than a few binds among the calls.
fn has_many_binds(kinds: &[u8]) -> bool {
    kinds
        .iter()
        .filter(|kind| **kind == Kind::Bind as u8)
        .nth(FEW_BINDS)
        .is_some()
}

// Whether the open entries may be counted once, after the sheet's calls: the number that is handed in is right. Kept from call to call, each bind would have
// to look at the tables, which a sheet of few binds does.
fn is_counted_after(b: CodeBuffer, kinds: &[u8], lent: &Lent) -> bool
    requires namers_fit { NamersFit b lent.now.events.now lent.now.uses.now lent.now.refs.now lent.now.relocs.now }
    requires labels_within { b.labels * label_size ≤ length lent.now.labels.now }
    ensures { result ≡ true → b.unresolved ≡ open_count b lent.now.labels.now lent.now.events.now lent.now.uses.now lent.now.refs.now lent.now.relocs.now }
{
    if !has_many_binds(kinds) {
        return false;
    }
    b.count_open(lent.labels, lent.events, lent.uses, lent.refs, lent.relocs) == b.unresolved
}

// The recording from which the next call goes on: where the number of open entries is not kept, it is 0, and a bind then looks at no table.
fn going_on(mut b: CodeBuffer, kept: bool) -> CodeBuffer
    ensures { result ≡ pick kept b (with_open b 0) }
{
    if kept {
        return b;
    }
    b.unresolved = 0;
    b
}

// Makes the calls of a sheet whose form is sound, up to the first that is refused. Where the number of open entries is not kept, what is left stands for the
// recording with the right one.
fn run(
    b: CodeBuffer,
    kept: bool,
    kinds: &[u8],
    arguments: &[u8],
    code: &mut [u8],
    labels: &mut [u8],
    events: &mut [u8],
    uses: &mut [u8],
    refs: &mut [u8],
    constants: &mut [u8],
    asked: &mut [u8],
    relocs: &mut [u8],
) -> Ran
    requires within { (length arguments.now ≡ length kinds.now * argument_size) × (length kinds.now < 4294967296) }
    requires formed { length kinds.now ≤ first_broken kinds.now arguments.now }
    requires going { Going kept (recording_of b code.old labels.old events.old uses.old refs.old constants.old asked.old relocs.old) }
    ensures relocs_after { ((answer_of result.answer, result.index), meant kept (recording_of result.buffer code.new labels.new events.new uses.new refs.new constants.new asked.new relocs.new)) ≡ run_calls (calls_of kinds.now arguments.now) 0 (meant kept (recording_of b code.old labels.old events.old uses.old refs.old constants.old asked.old relocs.old)) }
    ensures fitting { Fitting (recording_of result.buffer code.new labels.new events.new uses.new refs.new constants.new asked.new relocs.new) }
{
    let mut last = b;
    let mut bound = Bound {
        greatest: None,
        second: None,
    };
    for i in 0..kinds.len() {
        let at = i * ARGUMENT_SIZE;
        let end = at + ARGUMENT_SIZE;
        let byte = kinds[i];
        let kind = kinds::of_byte(byte);
        let more = i + 1 < kinds.len();
        bound = bound.before_call(last, byte, labels, more);
        let nearest = bound.nearest(last.code);
        let done = calls::call(
            last,
            kind,
            &arguments[at..end],
            nearest,
            code,
            labels,
            events,
            uses,
            refs,
            constants,
            asked,
            relocs,
        );
        if let Err(why) = done.answer {
            return Ran {
                buffer: done.buffer,
                answer: Err(why),
                index: i as u32,
            };
        }
        bound = bound.after_call(byte, last.code);
        last = going_on(done.buffer, kept);
    }
    Ran {
        buffer: last,
        answer: Ok(()),
        index: kinds.len() as u32,
    }
}

// What a sheet leaves: where the number of open entries was not kept, they are counted. Not one Lent: the only caller would make it for this call alone.
fn counted(
    mut b: CodeBuffer,
    kept: bool,
    labels: &[u8],
    events: &[u8],
    uses: &[u8],
    refs: &[u8],
    relocs: &[u8],
) -> CodeBuffer
    requires namers_fit { NamersFit b events.now uses.now refs.now relocs.now }
    requires labels_within { b.labels * label_size ≤ length labels.now }
    ensures { result ≡ pick kept b (with_open b (open_count b labels.now events.now uses.now refs.now relocs.now)) }
{
    if kept {
        return b;
    }
    let found = b.count_open(labels, events, uses, refs, relocs);
    b.unresolved = found;
    b
}

// Makes the calls of a sheet up to the first that is refused. All tables of the recording are lent, one by one as the C function lends them.
pub fn run_sheet(
    b: CodeBuffer,
    sheet: &[u8],
    code: &mut [u8],
    labels: &mut [u8],
    events: &mut [u8],
    uses: &mut [u8],
    refs: &mut [u8],
    constants: &mut [u8],
    asked: &mut [u8],
    relocs: &mut [u8],
) -> Ran
    ensures { ((answer_of result.answer, result.index), recording_of result.buffer code.new labels.new events.new uses.new refs.new constants.new asked.new relocs.new) ≡ run_sheet sheet.now (recording_of b code.old labels.old events.old uses.old refs.old constants.old asked.old relocs.old) }
{
    if !form::is_whole(sheet) {
        return Ran {
            buffer: b,
            answer: Err(Refusal::Malformed),
            index: 0,
        };
    }
    let n = words::word_at(sheet, 0) as usize;
    let middle = 4 + n;
    let kinds = &sheet[4..middle];
    let arguments = &sheet[middle..];
    let broken = form::first_broken(kinds, arguments);
    if broken < n {
        return Ran {
            buffer: b,
            answer: Err(Refusal::Malformed),
            index: broken as u32,
        };
    }
    let lent = Lent {
        code,
        labels,
        events,
        uses,
        refs,
        constants,
        asked,
        relocs,
    };
    if let Err(why) = lent.why_not_standing(b, 0, 0) {
        return Ran {
            buffer: b,
            answer: Err(why),
            index: 0,
        };
    }
    let kept = !is_counted_after(b, kinds, &lent);
    let ran = run(
        b, kept, kinds, arguments, code, labels, events, uses, refs, constants, asked, relocs,
    );
    Ran {
        buffer: counted(ran.buffer, kept, labels, events, uses, refs, relocs),
        answer: ran.answer,
        index: ran.index,
    }
}
