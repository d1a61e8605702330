// What becomes of a recording once its entries are checked and the pool's labels are bound: with a jump it is laid out anew, without one it stays as it is.
ghost use Rattle.std.specs.Prelude.{◌≡◌, false, not, Result, Some, None, List, [], ◌∷◌, ◌+◌, ◌*◌, ◌≤◌, ◌<◌, eqb, ltb, length, take, replicate};
ghost use Rattle.refusals.specs.Numbers as refusals;
ghost use Rattle.refusals.specs.declared.Refusal.{Refusal};
ghost use Rattle.refusals.specs.Answers.{answer_of};
ghost use Rattle.seqs.specs.Pick.{first, or_else};
ghost use Rattle.words.specs.Words.{word_at};
ghost use Rattle.lookup.specs.steps.Index.{index_size, large_size};
ghost use Rattle.relax.specs.declared.LayoutEvent.{LayoutEvent};
ghost use Rattle.relax.specs.declared.Segment.{Segment};
ghost use Rattle.relax.specs.Events.{event_at};
ghost use Rattle.buffer.specs.Tables.{most_entries, label_size, use_size};
ghost use Rattle.recording.specs.View as tables;
ghost use Rattle.layout.specs.declared.Summary.{Summary};
ghost use Rattle.buffer.specs.steps.Count.{NamersFit, open_count};
ghost use Rattle.checks.specs.steps.Fields.{refs_clear, why_uses};
ghost use Rattle.checks.specs.steps.Handed.{few_marks, use_label, Named};
ghost use Rattle.finish.specs.Finish.{relaxed, outcome_of};
ghost use Rattle.finish.specs.steps.Tables.{tables_pooled, laid_pooled};
ghost use Rattle.finish.specs.steps.Ready.{Clearing, end_of_runs, code_written, Writing, Layable, code_copied, Copying, Keepable, kept, Placeable, pooled_of, placed_as, Starts};

use buffer::CodeBuffer;
use checks::lent::Lent;
use layout::{OffsetMap, Summary};
use pool::Pool;
use refusals::Refusal;
use relax::Segment;

// 15: whether every label that is named is bound. Where nothing was open before the constants were pooled, no table is looked at.
fn all_bound(b: CodeBuffer, lent: &Lent) -> bool
    requires labels_within { b.labels * label_size ≤ length lent.now.labels.now }
    requires namers_fit { NamersFit b lent.now.events.now lent.now.uses.now lent.now.refs.now lent.now.relocs.now }
    requires none_open { (b.unresolved ≡ 0 → open_count b lent.now.labels.now lent.now.events.now lent.now.uses.now lent.now.refs.now lent.now.relocs.now ≡ 0) }
    ensures { result ≡ eqb (open_count b lent.now.labels.now lent.now.events.now lent.now.uses.now lent.now.refs.now lent.now.relocs.now) 0 }
{
    b.unresolved == 0
        || b.count_open(lent.labels, lent.events, lent.uses, lent.refs, lent.relocs) == 0
}

// 16: the table of segments is short; 17: a ref's field is not clear of the events.
#[tactic(auto, using(seqs::proofs::Picking::picks))]
fn why_not_laid(
    b: CodeBuffer,
    lent: &Lent,
    pool: &Pool,
    segments: usize,
    end: u32,
) -> Result<(), Refusal>
    requires { Clearing lent.now.refs.now lent.now.events.now lent.now.labels.now pool.now.constants.now pool.now.asked.now b.refs b.events pool.now.count b.code end }
    ensures { answer_of result ≡ first ((ltb segments (b.events + pool.now.count), refusals.too_few_segments) ∷ (not (refs_clear lent.now.refs.now b.refs lent.now.events.now b.events b.code pool.now.constants.now pool.now.asked.now pool.now.count), refusals.ref_overlaps) ∷ []) }
{
    let recorded = b.events as usize;
    if segments < recorded + pool.count {
        return Err(Refusal::TooFewSegments);
    }
    if !checks::fields_fit::refs_clear(
        lent.refs,
        b.refs as usize,
        lent.events,
        recorded,
        lent.labels,
        pool,
        b.code,
        end,
    ) {
        return Err(Refusal::RefOverlaps);
    }
    Ok(())
}

// 18: a ref can't reach; 23: the finished code exceeds the output.
#[tactic(auto, using(seqs::proofs::Picking::picks))]
fn why_not_written(reach: bool, len: u32, output: usize) -> Result<(), Refusal>
    ensures { answer_of result ≡ first ((not reach, refusals.ref_out_of_reach) ∷ (ltb output len, refusals.output_too_small) ∷ []) }
{
    if !reach {
        return Err(Refusal::RefOutOfReach);
    }
    if output < len as usize {
        return Err(Refusal::OutputTooSmall);
    }
    Ok(())
}

// Writes the finished code: the events and the runs between them, the pool, the refs, the jumps, and the constants last.
pub(crate) fn write_relaxed(
    b: CodeBuffer,
    output: &mut [u8],
    code: &[u8],
    labels: &[u8],
    events: &[u8],
    refs: &[u8],
    pool: &Pool,
    long: &[bool],
    offsets: &OffsetMap,
)
    requires counted { offsets.now.count ≡ b.events + pool.now.count }
    requires writing { Writing output.old code.now labels.now events.now refs.now pool.now.constants.now pool.now.asked.now long.now offsets.now.segments.now b.arch b.code b.events pool.now.count b.refs (end_of_runs b.arch code.now events.now long.now b.code b.events) }
    ensures { output.new ≡ code_written b.arch output.old code.now labels.now events.now refs.now pool.now.constants.now pool.now.asked.now long.now offsets.now.segments.now b.code b.events pool.now.count b.refs }
{
    let recorded = b.events as usize;
    let segments = offsets.segments;
    emit::emit_events(
        output,
        code,
        events,
        long,
        segments,
        recorded,
        b.code as usize,
        b.arch,
    );
    // Among the recorded events alone, and so without the index, which is of all.
    let among = OffsetMap {
        segments,
        count: recorded,
        index: &offsets.index[0..0],
        shift: offsets.shift,
    };
    let to = among.map(b.code);
    pool.emit(output, b.arch, to);
    emit::patch_refs(output, refs, labels, offsets, b.refs as usize);
    emit::patch_jumps(output, events, labels, long, segments, recorded);
    pool.write(output, labels);
}

// The rounds and what comes after them: 18 and 23, which leave the settled segments in their table, and the writing. `long` has an entry for each event, and
// `index` room for an index of their starts, or none.
pub(crate) fn relax_and_write(
    b: CodeBuffer,
    code: &[u8],
    labels: &mut [u8],
    events: &[u8],
    refs: &[u8],
    pool: &Pool,
    relocs: &mut [u8],
    segments: &mut [Segment],
    output: &mut [u8],
    long: &mut [bool],
    index: &mut [u32],
) -> Result<Summary, Refusal>
    requires layable { Layable code.now labels.old events.now refs.now pool.now.constants.now pool.now.asked.now relocs.old output.old (length segments.old) b.arch b.code b.labels b.events pool.now.count b.refs b.relocs }
    requires none_long { long.old ≡ replicate (b.events + pool.now.count) false }
    ensures { (us : List tables.Use) → (outcome_of result, (labels.new, (relocs.new, (segments.new, output.new)))) ≡ relaxed (laid_pooled b.arch b.code (take b.code code.now) (tables.entries (word_at labels.old) b.labels) (tables.entries (event_at events.now) b.events) us (tables.entries (tables.ref_at refs.now) b.refs) pool.now.constants.now pool.now.asked.now pool.now.count) b.relocs labels.old relocs.old segments.old output.old }
{
    let recorded = b.events as usize;
    let end = pool.end(b.code);
    let shift = lookup::shift_for(end, index.len());
    let laid = layout::relax_jumps(
        segments, events, labels, pool, long, index, shift, recorded, b.code,
    );
    let offsets = OffsetMap {
        segments,
        count: recorded + pool.count,
        index,
        shift,
    };
    let reach = emit::refs_reach(refs, labels, &offsets, b.refs as usize);
    why_not_written(reach, laid.len, output.len())?;
    emit::map_words(labels, &offsets, 1, b.labels as usize);
    emit::map_words(relocs, &offsets, buffer::RELOC_WORDS, b.relocs as usize);
    write_relaxed(b, output, code, labels, events, refs, pool, long, &offsets);
    Ok(laid)
}

// How long an index of so many starts is: none where it does not pay.
fn index_size(all: usize) -> usize
    ensures { result ≤ index_size }
{
    if lookup::pays(all, all) {
        return lookup::SIZE;
    }
    0
}

// With MARKS marks, one for each event at least, and room for an index of INDEX entries, of which it takes `size`. The attribute keeps large arrays out of the
// stack frame of a small finish.
#[inline(never)]
fn relaxed_with<const MARKS: usize, const INDEX: usize>(
    b: CodeBuffer,
    code: &[u8],
    labels: &mut [u8],
    events: &[u8],
    refs: &[u8],
    pool: &Pool,
    relocs: &mut [u8],
    segments: &mut [Segment],
    output: &mut [u8],
    size: usize,
) -> Result<Summary, Refusal>
    requires layable { Layable code.now labels.old events.now refs.now pool.now.constants.now pool.now.asked.now relocs.old output.old (length segments.old) b.arch b.code b.labels b.events pool.now.count b.refs b.relocs }
    requires marked { (b.events + pool.now.count ≤ MARKS) × (MARKS ≤ most_entries) }
    requires indexed { (size ≤ INDEX) × (INDEX ≤ large_size) }
    ensures { (us : List tables.Use) → (outcome_of result, (labels.new, (relocs.new, (segments.new, output.new)))) ≡ relaxed (laid_pooled b.arch b.code (take b.code code.now) (tables.entries (word_at labels.old) b.labels) (tables.entries (event_at events.now) b.events) us (tables.entries (tables.ref_at refs.now) b.refs) pool.now.constants.now pool.now.asked.now pool.now.count) b.relocs labels.old relocs.old segments.old output.old }
{
    let all = b.events as usize + pool.count;
    let mut marks = [false; MARKS];
    let mut entries = [0; INDEX];
    let long = &mut marks[..];
    let index = &mut entries[..];
    relax_and_write(
        b,
        code,
        labels,
        events,
        refs,
        pool,
        relocs,
        segments,
        output,
        &mut long[0..all],
        &mut index[0..size],
    )
}

// With a jump, 16 and 17 being past.
pub(crate) fn relaxed(
    b: CodeBuffer,
    code: &[u8],
    labels: &mut [u8],
    events: &[u8],
    refs: &[u8],
    pool: &Pool,
    relocs: &mut [u8],
    segments: &mut [Segment],
    output: &mut [u8],
) -> Result<Summary, Refusal>
    requires { Layable code.now labels.old events.now refs.now pool.now.constants.now pool.now.asked.now relocs.old output.old (length segments.old) b.arch b.code b.labels b.events pool.now.count b.refs b.relocs }
    ensures { (us : List tables.Use) → (outcome_of result, (labels.new, (relocs.new, (segments.new, output.new)))) ≡ relaxed (laid_pooled b.arch b.code (take b.code code.now) (tables.entries (word_at labels.old) b.labels) (tables.entries (event_at events.now) b.events) us (tables.entries (tables.ref_at refs.now) b.refs) pool.now.constants.now pool.now.asked.now pool.now.count) b.relocs labels.old relocs.old segments.old output.old }
{
    let all = b.events as usize + pool.count;
    if all < lookup::FEW {
        return relaxed_with::<{ lookup::FEW }, 0>(
            b, code, labels, events, refs, pool, relocs, segments, output, 0,
        );
    }
    if all <= checks::entries::FEW_MARKS {
        return relaxed_with::<{ checks::entries::FEW_MARKS }, { lookup::SIZE }>(
            b,
            code,
            labels,
            events,
            refs,
            pool,
            relocs,
            segments,
            output,
            index_size(all),
        );
    }
    relaxed_with::<{ buffer::MOST_ENTRIES }, { lookup::LARGE_SIZE }>(
        b,
        code,
        labels,
        events,
        refs,
        pool,
        relocs,
        segments,
        output,
        lookup::size_for(all),
    )
}

// 19 to 22: a use's field passes the code's end, or it can't reach; 23: the code exceeds the output.
#[tactic(auto, using(refusals::proofs::Chains::chains, seqs::proofs::Picking::picks))]
fn why_not_in_place(b: CodeBuffer, lent: &Lent, end: u32, output: usize) -> Result<(), Refusal>
    requires uses_within { b.uses * use_size ≤ length lent.now.uses.now }
    requires named { Named (use_label lent.now.uses.now) b.uses lent.now.labels.now }
    ensures { answer_of result ≡ or_else (why_uses lent.now.uses.now lent.now.labels.now end b.uses) (first ((ltb output end, refusals.output_too_small) ∷ [])) }
{
    checks::fields_fit::why_uses(lent.uses, b.uses as usize, lent.labels, end)?;
    if output < end as usize {
        return Err(Refusal::OutputTooSmall);
    }
    Ok(())
}

// Writes the code as it is: the bytes, the pool, the uses, and the constants last.
fn write_in_place(b: CodeBuffer, output: &mut [u8], lent: &Lent, pool: &Pool)
    requires { Copying output.old lent.now.code.now lent.now.labels.now lent.now.uses.now pool.now.constants.now pool.now.asked.now b.code b.uses pool.now.count }
    ensures { output.new ≡ code_copied output.old lent.now.code.now lent.now.labels.now lent.now.uses.now pool.now.constants.now pool.now.asked.now b.arch b.code b.uses pool.now.count }
{
    emit::copy_run(output, lent.code, 0, b.code as usize, 0);
    pool.emit(output, b.arch, b.code);
    emit::patch_uses(output, lent.uses, lent.labels, b.uses as usize);
    pool.write(output, lent.labels);
}

// Without a jump.
fn unrelaxed(b: CodeBuffer, lent: &Lent, pool: &Pool, output: &mut [u8]) -> Result<Summary, Refusal>
    requires { Keepable lent.now.code.now lent.now.labels.now lent.now.uses.now pool.now.constants.now pool.now.asked.now b.code b.labels b.uses pool.now.count }
    ensures { (es : List LayoutEvent) (rs : List tables.Ref) → (outcome_of result, output.new) ≡ kept (tables_pooled b.arch b.code (take b.code lent.now.code.now) (tables.entries (word_at lent.now.labels.now) b.labels) es (tables.entries (tables.use_at lent.now.uses.now) b.uses) rs pool.now.constants.now pool.now.asked.now pool.now.count) output.old }
{
    let end = pool.end(b.code);
    why_not_in_place(b, lent, end, output.len())?;
    write_in_place(b, output, lent, pool);
    Ok(Summary {
        layouts: 0,
        len: end,
    })
}

// Once the entries are checked and the pool's labels are bound: 15, then 16 and 17 with a jump, and all without one; none where a layout is to be made.
pub(crate) fn start(
    b: CodeBuffer,
    lent: &Lent,
    segments: usize,
    output: &mut [u8],
) -> Option<Result<Summary, Refusal>>
    requires { Placeable b lent.now.code.now lent.now.labels.now lent.now.events.now lent.now.uses.now lent.now.refs.now lent.now.constants.now lent.now.asked.now lent.now.relocs.now output.old segments }
    ensures output_after { (placed : Result Summary Refusal) → result ≡ Some placed → (ss : List Segment) → length ss ≡ segments → (outcome_of placed, (lent.now.labels.now, (lent.now.relocs.now, (ss, output.new)))) ≡ placed_as (pooled_of b lent.now.code.now lent.now.labels.now lent.now.events.now lent.now.uses.now lent.now.refs.now lent.now.constants.now lent.now.asked.now) b lent.now.labels.now lent.now.relocs.now ss output.old }
    ensures starts { result ≡ None → Starts b lent.now.code.now lent.now.labels.now lent.now.events.now lent.now.uses.now lent.now.refs.now lent.now.constants.now lent.now.asked.now lent.now.relocs.now output.old output.new segments }
{
    if !all_bound(b, lent) {
        return Some(Err(Refusal::UnboundLabel));
    }
    let pool = Pool {
        constants: lent.constants,
        asked: lent.asked,
        count: b.asked as usize,
    };
    if checks::fields_fit::moves(lent.events, b.events as usize) {
        let end = pool.end(b.code);
        return match why_not_laid(b, lent, &pool, segments, end) {
            Ok(()) => None,
            Err(why) => Some(Err(why)),
        };
    }
    Some(unrelaxed(b, lent, &pool, output))
}
