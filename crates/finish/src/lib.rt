// `finish`: from a recording to code. After asmkit's core/buffer.rs (see NOTICE). It asks in the order of document 01's refusals; nothing is written to
// the output before the last of them is past, and a table that was written to for a while is as before where finish is refused.
#![tactic(auto)]

ghost use Rattle.std.specs.Prelude.{◌≡◌, List, length, Some, None, Ok};
ghost use Rattle.refusals.specs.Answers.{answer_of};
ghost use Rattle.relax.specs.declared.Segment.{Segment};
ghost use Rattle.pool.specs.steps.Pool.{PoolLabels};
ghost use Rattle.checks.specs.Lent.{recording_of, recorded_in};
ghost use Rattle.finish.specs.Refusals.{why_unfit};
ghost use Rattle.finish.specs.declared.Finished as program;
ghost use Rattle.finish.specs.Finish.{finished_with, outcome_of, finished_as, finish};
ghost use Rattle.finish.specs.steps.Ready.{concluded, Begins};

use buffer::CodeBuffer;
use checks::lent::Lent;
use layout::Summary;
use pool::Pool;
use refusals::Refusal;
use relax::Segment;

mod pooled;

// What finish reports: asmkit's record of that name, with the number of layouts that relaxation made. A refused finish gives zeros.
#[derive(Clone, Copy)]
pub struct CodeBufferFinalized {
    pub arch: u32,
    // Bytes of finished code.
    pub len: u32,
    // What the code is to be loaded on a multiple of: 32, or 64 where a pooled constant has more than 32 bytes.
    pub alignment: u32,
    // Rounds of relaxation; 0 where no jump stands.
    pub layouts: u32,
    // Entries of the tables of labels and relocations, which hold final offsets.
    pub labels: u32,
    pub relocs: u32,
}

// The recording after a finish, and the record or the refusal.
#[derive(Clone, Copy)]
pub struct Finished {
    pub buffer: CodeBuffer,
    pub answer: Result<CodeBufferFinalized, Refusal>,
}

// 1 to 4 as every call, 1 for an entry that no recording writes and for a wrong number of open ones, 13 and 14.
fn why_unfit(b: CodeBuffer, lent: &Lent, segments: usize, output: usize) -> Result<(), Refusal>
    ensures { answer_of result ≡ why_unfit (recorded_in b lent.now) segments output }
{
    lent.why_not_standing(b, segments, output)?;
    if !checks::entries::entries_fit(b, lent) {
        return Err(Refusal::Malformed);
    }
    if b.count_open(lent.labels, lent.events, lent.uses, lent.refs, lent.relocs) != b.unresolved {
        return Err(Refusal::Malformed);
    }
    let pool = Pool {
        constants: lent.constants,
        asked: lent.asked,
        count: b.asked as usize,
    };
    if pool.is_any_bound(lent.labels) {
        return Err(Refusal::PoolLabelBound);
    }
    if buffer::MOST_CODE < pool.end(b.code) as usize {
        return Err(Refusal::PoolTooLarge);
    }
    Ok(())
}

fn finished_with(mut b: CodeBuffer, alignment: u32, laid: Summary) -> Finished
    ensures { finished_as result ≡ finished_with b alignment (outcome_of (Ok laid)) }
{
    b.finished = 1;
    b.unresolved = 0;
    Finished {
        buffer: b,
        answer: Ok(CodeBufferFinalized {
            arch: b.arch,
            len: laid.len,
            alignment,
            layouts: laid.layouts,
            labels: b.labels,
            relocs: b.relocs,
        }),
    }
}

// What finish answers once a recording is placed. One that is refused gets the pool's labels back.
fn conclude(
    b: CodeBuffer,
    labels: &mut [u8],
    pool: &Pool,
    placed: Result<Summary, Refusal>,
) -> Finished
    requires counted { pool.now.count ≡ b.asked }
    requires pool_labels { PoolLabels labels.old pool.now.constants.now pool.now.asked.now pool.now.count }
    ensures { (finished_as result, labels.new) ≡ concluded b pool.now.constants.now pool.now.asked.now (outcome_of placed) labels.old }
{
    match placed {
        Ok(laid) => {
            let alignment = pool.code_alignment();
            finished_with(b, alignment, laid)
        }
        Err(why) => {
            pool.unbind(labels);
            Finished {
                buffer: b,
                answer: Err(why),
            }
        }
    }
}

// Finish up to a layout: 1 to 17, and without a jump all of it; none where a layout is to be made. `segments` is how many there is room for.
// Not one Lent: the pool's labels are bound in between, so that the tables are lent on as they are before it and after it.
fn begin(
    b: CodeBuffer,
    code: &[u8],
    labels: &mut [u8],
    events: &[u8],
    uses: &[u8],
    refs: &[u8],
    constants: &[u8],
    asked: &[u8],
    relocs: &[u8],
    segments: usize,
    output: &mut [u8],
) -> Option<Finished>
    ensures output_after { (f : program.Finished) → result ≡ Some f → (ss : List Segment) → length ss ≡ segments → (finished_as f, (labels.new, (relocs.now, (ss, output.new)))) ≡ finish (recording_of b code.now labels.old events.now uses.now refs.now constants.now asked.now relocs.now) ss output.old }
    ensures begins { result ≡ None → Begins (recording_of b code.now labels.old events.now uses.now refs.now constants.now asked.now relocs.now) labels.new output.old output.new segments }
{
    let recorded = Lent {
        code,
        labels,
        events,
        uses,
        refs,
        constants,
        asked,
        relocs,
    };
    if let Err(why) = why_unfit(b, &recorded, segments, output.len()) {
        return Some(Finished {
            buffer: b,
            answer: Err(why),
        });
    }
    let pool = Pool {
        constants,
        asked,
        count: b.asked as usize,
    };
    pool.bind(b.code, labels);
    let bound = Lent {
        code,
        labels,
        events,
        uses,
        refs,
        constants,
        asked,
        relocs,
    };
    let placed = pooled::start(b, &bound, segments, output)?;
    Some(conclude(b, labels, &pool, placed))
}

// Finishes a recording: pools its constants, relaxes its jumps and writes its code to `output`. On success `labels` and `relocs` hold final offsets. The
// tables are lent whole, one by one as the C function lends them; `segments` has room for every alignment and jump, those of the pool included.
pub fn finish(
    b: CodeBuffer,
    code: &[u8],
    labels: &mut [u8],
    events: &[u8],
    uses: &[u8],
    refs: &[u8],
    constants: &[u8],
    asked: &[u8],
    relocs: &mut [u8],
    segments: &mut [Segment],
    output: &mut [u8],
) -> Finished
    ensures { (finished_as result, (labels.new, (relocs.new, (segments.new, output.new)))) ≡ finish (recording_of b code.now labels.old events.now uses.now refs.now constants.now asked.now relocs.old) segments.old output.old }
{
    if let Some(finished) = begin(
        b,
        code,
        labels,
        events,
        uses,
        refs,
        constants,
        asked,
        relocs,
        segments.len(),
        output,
    ) {
        return finished;
    }
    let pool = Pool {
        constants,
        asked,
        count: b.asked as usize,
    };
    let placed = pooled::relaxed(
        b, code, labels, events, refs, &pool, relocs, segments, output,
    );
    conclude(b, labels, &pool, placed)
}
