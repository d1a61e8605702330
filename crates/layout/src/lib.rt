// `layout` and `OffsetMap`: where each event of a recording and each byte between events comes to stand, and the rounds by which jumps become long. After
// asmkit's core/relax.rs (see NOTICE). The table is a lent slice of `Segment`; only `segment_at` and `put_segment` reach into it.
#![tactic(auto)]

ghost use Rattle.std.specs.Prelude.{◌≡◌, ◌≢◌, List, [], ℕ, ◌+◌, ◌-◌, ◌*◌, ◌≤◌, ◌<◌, length, get_or, take, set};
ghost use Rattle.seqs.specs.Over.{over};
ghost use Rattle.words.specs.Words.{word_at};
ghost use Rattle.lookup.specs.steps.Index.{index_size, most_keys, Indexed};
ghost use Rattle.relax.specs.declared.LayoutEvent.{LayoutEvent};
ghost use Rattle.relax.specs.Events.{event_at, event_size};
ghost use Rattle.buffer.specs.State.{none};
ghost use Rattle.buffer.specs.Tables.{most_entries};
ghost use Rattle.recording.specs.View.{entries};
ghost use Rattle.fresh.specs.Forms.{width, role_of};
ghost use Rattle.fresh.specs.Rounds.{any, join};
ghost use Rattle.fresh.specs.Segments.{segment, image, map_offset};
ghost use Rattle.fresh.specs.Segments as fresh;
ghost use Rattle.fresh.specs.steps.Runs.{behind_of, ahead_of};
ghost use Rattle.pool.specs.steps.Pool.{pool_start, pool_event, offset_bound};
ghost use Rattle.layout.specs.steps.Targets.{in_reach, end_in, old_end_before, Stands, Shown, Finds, Aims, label_of, Aiming, held, SamePast, Placed, with_target, LaidBy, end_before, Adds, is_missed, missed};
ghost use Rattle.layout.specs.steps.Layout.{zero_segment, start_at, Rising, Sorted, Between, Follows, Recorded, all_events, end_from, finished_length, Known, Labelled, Relaxed};

use pool::Pool;
use relax::{LayoutEvent, Segment};

// What the rounds settle on: how many layouts were made, and the finished length.
#[derive(Clone, Copy)]
pub struct Summary {
    pub layouts: u32,
    pub len: u32,
}

// Segment `i` of the table.
pub fn segment_at(segments: &[Segment], i: usize) -> Segment
    requires { i < length segments.now }
    ensures { result ≡ get_or segments.now i zero_segment }
{
    segments[i]
}

// Writes segment `i` of the table.
pub fn put_segment(segments: &mut [Segment], i: usize, segment: Segment)
    requires { i < length segments.old }
    ensures { segments.new ≡ set segments.old i segment }
{
    segments[i] = segment;
}

// Fills an index of the recorded starts of the first `n` segments.
fn fill_index(index: &mut [u32], shift: u32, segments: &[Segment], n: usize)
    requires sorted { Sorted segments.now n }
    requires within { (index_size ≤ length index.old) × (shift < 32) × (n ≤ most_keys) }
    ensures { Indexed index.new (start_at segments.now) n shift }
{
    let mut next: usize = 0;
    for i in 0..n {
        next = lookup::mark(index, shift, next, i, segment_at(segments, i).old_start);
    }
    lookup::close(index, next, n);
}

// The same where there is an index: a slice that is too short for one is left as it is.
fn index_segments(index: &mut [u32], shift: u32, segments: &[Segment], n: usize)
    requires sorted { Sorted segments.now n }
    requires within { (shift < 32) × (n ≤ most_keys) }
    ensures { Indexed index.new (start_at segments.now) n shift }
{
    if lookup::SIZE <= index.len() {
        fill_index(index, shift, segments, n);
    }
}

// How many of the first `n` segments start at or before an offset. The index, if there is one, is that of their starts. No `OffsetMap` is handed on here, nor
// by `locate`, `target_of` and `find_targets`: these also look up while rows hold targets, which are no new offsets.
fn find(segments: &[Segment], n: usize, index: &[u32], shift: u32, offset: u32) -> usize
    requires sorted { Sorted segments.now n }
    requires indexed { Indexed index.now (start_at segments.now) n shift }
    ensures { Between segments.now n offset result result }
{
    let span = lookup::narrow(index, shift, n, offset);
    lookup::partition_point(span.low, span.high, |i| {
        segment_at(segments, i).old_start <= offset
    })
}

// Where a segment takes an offset at or past its start.
fn place(segment: Segment, offset: u32) -> u32
    requires { (segment.old_start ≤ offset) × (offset ≤ offset_bound) × (segment.new_start ≤ offset_bound) × (segment.new_end ≤ offset_bound) }
    ensures { result ≡ image segment offset }
{
    if offset < segment.old_end {
        offset - segment.old_start + segment.new_start
    } else {
        offset - segment.old_end + segment.new_end
    }
}

// The first `count` segments of a laid out table, and the index of their recorded starts if there is one: by it a recorded offset becomes a new one.
#[derive(Clone, Copy)]
pub struct OffsetMap<'a> {
    pub segments: &'a [Segment],
    pub count: usize,
    pub index: &'a [u32],
    pub shift: u32,
    ghost rising: { Rising segments.now count },
    ghost indexed: { Indexed index.now (start_at segments.now) count shift },
}

impl<'a> OffsetMap<'a> {
    // The new offset of what was recorded at an offset.
    pub fn map(&self, offset: u32) -> u32
        requires { offset ≢ none → offset ≤ offset_bound }
        ensures { result ≡ map_offset (take self.now.count self.now.segments.now) offset }
    {
        // The word of an unbound label in the table that C lends.
        if offset == buffer::NONE {
            return offset;
        }
        match find(self.segments, self.count, self.index, self.shift, offset) {
            0 => offset,
            found => place(segment_at(self.segments, found - 1), offset),
        }
    }
}

// How many bytes an event takes at the new offset `at`.
pub fn width_of(event: LayoutEvent, long: bool, at: u32) -> u32
    ensures { result ≡ width event long at }
{
    match event {
        LayoutEvent::Jump(jump) => {
            if long {
                jump.long_len()
            } else {
                relax::SHORT_LEN
            }
        }
        LayoutEvent::Align(alignment) => {
            encoder::padding_within(at, alignment.align, alignment.most)
        }
        LayoutEvent::Far(_) => {
            if long {
                relax::FAR_LEN
            } else {
                relax::BRANCH_LEN
            }
        }
    }
}

// The segment of an event, where the event before ended at the recorded offset `old` and the new offset `new`.
pub fn next_segment(event: LayoutEvent, long: bool, old: u32, new: u32) -> Segment
    requires { Follows event old new }
    ensures { result ≡ segment old new event long }
{
    let start = relax::event_start(event);
    let at = new + (start - old);
    Segment {
        old_start: start,
        old_end: relax::event_end(event) as u32,
        new_start: at,
        new_end: at + width_of(event, long, at),
    }
}

// Fills the segments of the pool's alignments, from segment `n` on: the pool starts at the recorded offset `old` and the new offset `new`. Where it ends.
fn layout_pool(segments: &mut [Segment], pool: &Pool, n: usize, old: u32, new: u32) -> u32
    requires within { (n ≤ most_entries) × (n + pool.now.count ≤ length segments.old) × (old ≤ offset_bound) × (new ≤ offset_bound) }
    ensures segments_after { segments.new ≡ over segments.old n (fresh.segments old new (entries (pool_event old pool.now.constants.now pool.now.asked.now) pool.now.count) []) }
    ensures value { result ≡ end_from old new (entries (pool_event old pool.now.constants.now pool.now.asked.now) pool.now.count) [] (pool_start old pool.now.constants.now pool.now.asked.now pool.now.count) }
{
    let mut from = old;
    let mut to = new;
    for j in 0..pool.count {
        let size = pool.size_at(j);
        let multiple = pool::constant_alignment(size);
        let old_end = from + encoder::padding_len(from, multiple);
        let new_end = to + encoder::padding_len(to, multiple);
        put_segment(
            segments,
            n + j,
            Segment {
                old_start: from,
                old_end,
                new_start: to,
                new_end,
            },
        );
        from = old_end + size;
        to = new_end + size;
    }
    to
}

// Lays out the `n` events and after them the alignments of the pool's constants, the code being `code` bytes long; the finished length. The row of an
// event comes to hold what `kept` makes of what it held and of the event's segment.
fn layout_by<F: Fn(Segment, Segment) -> Segment>(
    segments: &mut [Segment],
    events: &[u8],
    pool: &Pool,
    long: &[bool],
    n: usize,
    code: u32,
    kept: F,
) -> u32
    requires recorded { Recorded events.now n code }
    requires within { (n + pool.now.count ≤ most_entries) × (n + pool.now.count ≤ length segments.old) × (n ≤ length long.now) }
    requires callable { F.IsAlwaysCallable kept }
    ensures { LaidBy (F.post kept) segments.old segments.new events.now n code pool.now.constants.now pool.now.asked.now pool.now.count long.now result }
{
    let mut last = Segment {
        old_start: 0,
        old_end: 0,
        new_start: 0,
        new_end: 0,
    };
    for i in 0..n {
        let event = relax::event_at(events, i);
        last = next_segment(event, long[i], last.old_end, last.new_end);
        put_segment(segments, i, kept(segment_at(segments, i), last));
    }
    let new = last.new_end + (code - last.old_end);
    layout_pool(segments, pool, n, code, new)
}

// That, every row holding its event's segment.
pub fn layout(
    segments: &mut [Segment],
    events: &[u8],
    pool: &Pool,
    long: &[bool],
    n: usize,
    code: u32,
) -> u32
    requires recorded { Recorded events.now n code }
    requires within { (n + pool.now.count ≤ most_entries) × (n + pool.now.count ≤ length segments.old) × (n ≤ length long.now) }
    ensures segments_after { segments.new ≡ over segments.old 0 (fresh.segments 0 0 (all_events events.now n code pool.now.constants.now pool.now.asked.now pool.now.count) long.now) }
    ensures value { result ≡ finished_length (all_events events.now n code pool.now.constants.now pool.now.asked.now pool.now.count) long.now (pool_start code pool.now.constants.now pool.now.asked.now pool.now.count) }
{
    layout_by(segments, events, pool, long, n, code, |_, made| { made })
}

// A round's layout: the new ends of all events under a choice, and of the first `n` rows nothing else.
fn place_ends(
    segments: &mut [Segment],
    events: &[u8],
    pool: &Pool,
    long: &[bool],
    n: usize,
    code: u32,
)
    requires recorded { Recorded events.now n code }
    requires within { (n + pool.now.count ≤ most_entries) × (n + pool.now.count ≤ length segments.old) × (n ≤ length long.now) }
    ensures { Placed segments.old segments.new (all_events events.now n code pool.now.constants.now pool.now.asked.now pool.now.count) n long.now }
{
    layout_by(
        segments,
        events,
        pool,
        long,
        n,
        code,
        |row, made| Segment {
            new_end: made.new_end,
            ..row
        },
    );
}

// How far an event reaches from the end of its short form.
#[derive(Clone, Copy)]
struct Reach {
    behind: u32,
    ahead: u32,
}

fn reach_of(event: LayoutEvent) -> Reach
    ensures { (result.behind ≡ behind_of event) × (result.ahead ≡ ahead_of event) }
{
    match event {
        LayoutEvent::Jump(_) => Reach {
            behind: 128,
            ahead: 127,
        },
        LayoutEvent::Align(_) => Reach {
            behind: 0,
            ahead: 0,
        },
        LayoutEvent::Far(branch) => {
            if branch.code == fields::BRANCH_14 {
                Reach {
                    behind: 32772,
                    ahead: 32760,
                }
            } else {
                Reach {
                    behind: 1048580,
                    ahead: 1048568,
                }
            }
        }
    }
}

// Whether a label lies so near to the end of an event's short form.
fn in_reach(event: LayoutEvent, end: u32, label: u32) -> bool
    ensures { result ≡ in_reach event end label }
{
    let reach = reach_of(event);
    end as u64 <= label as u64 + reach.behind as u64
        && label as u64 <= end as u64 + reach.ahead as u64
}

// The recorded end of event `i`: of the first `n` by their table, of the pool's alignments by their segment.
fn recorded_end(segments: &[Segment], events: &[u8], n: usize, i: usize) -> u32
    requires { Stands segments.now events.now n i }
    ensures { result ≡ end_in segments.now events.now n i }
{
    if i < n {
        relax::event_end(relax::event_at(events, i)) as u32
    } else {
        segment_at(segments, i).old_end
    }
}

// The recorded end of the first `k` events.
fn recorded_end_before(segments: &[Segment], events: &[u8], n: usize, k: usize) -> u32
    requires { 0 < k → Stands segments.now events.now n (k - 1) }
    ensures { result ≡ old_end_before segments.now events.now n k }
{
    match k {
        0 => 0,
        _ => recorded_end(segments, events, n, k - 1),
    }
}

// Where the label of a jump is found, whatever the choice of long jumps: `beyond` bytes past the new end of the first `passed` events.
#[derive(Clone, Copy)]
pub struct Target {
    pub passed: u32,
    pub beyond: u32,
}

// That of a label recorded at `offset`. Of the `all` events the first `n` stand in their table.
fn locate(
    segments: &[Segment],
    events: &[u8],
    n: usize,
    all: usize,
    index: &[u32],
    shift: u32,
    offset: u32,
) -> Target
    requires shown { ((es : List LayoutEvent) × Shown es segments.now events.now n all) }
    requires indexed { Indexed index.now (start_at segments.now) all shift }
    requires in_range { (offset ≢ none → offset ≤ offset_bound) }
    ensures { (es : List LayoutEvent) → Shown es segments.now events.now n all → Finds es offset result.passed result.beyond }
{
    if offset == buffer::NONE {
        return Target {
            passed: 0,
            beyond: offset,
        };
    }
    let begun = find(segments, all, index, shift, offset);
    let end = recorded_end_before(segments, events, n, begun);
    if end <= offset {
        return Target {
            passed: begun as u32,
            beyond: offset - end,
        };
    }
    // The last of them holds the label.
    Target {
        passed: (begun - 1) as u32,
        beyond: offset - recorded_end_before(segments, events, n, begun - 1),
    }
}

// The label that an event names.
fn label_of(event: LayoutEvent) -> Option<u32>
    ensures { result ≡ label_of (role_of event) }
{
    match event {
        LayoutEvent::Jump(jump) => Some(jump.label),
        LayoutEvent::Align(_) => None,
        LayoutEvent::Far(branch) => Some(branch.label),
    }
}

// That of the label which event `i` names, if it names one.
fn target_of(
    segments: &[Segment],
    events: &[u8],
    labels: &[u8],
    n: usize,
    all: usize,
    index: &[u32],
    shift: u32,
    i: usize,
) -> Option<Target>
    requires shown { ((es : List LayoutEvent) × Shown es segments.now events.now n all) }
    requires indexed { Indexed index.now (start_at segments.now) all shift }
    requires known { Known (event_at events.now i) labels.now }
    requires in_range { i < n }
    ensures { (es : List LayoutEvent) → Shown es segments.now events.now n all → Aims es (word_at labels.now) (event_at events.now i) (held result).passed (held result).beyond }
{
    let label = label_of(relax::event_at(events, i))?;
    let offset = words::word_at(labels, label as usize);
    Some(locate(segments, events, n, all, index, shift, offset))
}

// Writes the target of event `i` into its row, and nothing else of it. A row is four numbers that C lends, so `NONE` in the place of `passed` stands for no
// target.
fn put_target(segments: &mut [Segment], i: usize, target: Option<Target>)
    requires { i < length segments.old }
    ensures { segments.new ≡ set segments.old i (with_target (get_or segments.old i zero_segment) (held target).passed (held target).beyond) }
{
    let target = target.unwrap_or(Target {
        passed: buffer::NONE,
        beyond: 0,
    });
    let row = segment_at(segments, i);
    put_segment(
        segments,
        i,
        Segment {
            old_end: target.beyond,
            new_start: target.passed,
            ..row
        },
    );
}

// Finds the label of each jump once: the first `n` rows of a table that is laid out come to hold the targets of their events.
fn find_targets(
    segments: &mut [Segment],
    events: &[u8],
    labels: &[u8],
    n: usize,
    all: usize,
    index: &[u32],
    shift: u32,
)
    requires shown { ((es : List LayoutEvent) × Shown es segments.old events.now n all) }
    requires indexed { Indexed index.now (start_at segments.old) all shift }
    requires labelled { Labelled events.now labels.now n }
    requires in_bound { n ≤ all }
    ensures aiming { (es : List LayoutEvent) → Shown es segments.old events.now n all → Aiming es (word_at labels.now) events.now n segments.new }
    ensures same_past { SamePast n segments.old segments.new }
{
    for i in 0..n {
        let target = target_of(segments, events, labels, n, all, index, shift, i);
        put_target(segments, i, target);
    }
}

// The new end of the first `k` events.
fn end_before(segments: &[Segment], k: usize) -> u32
    requires { k ≤ length segments.now }
    ensures { result ≡ end_before segments.now k }
{
    match k {
        0 => 0,
        _ => segment_at(segments, k - 1).new_end,
    }
}

// Whether event `i` is a jump or branch that, were it short, would not reach its label. Its row holds `NONE` where it names none.
fn is_missed(segments: &[Segment], events: &[u8], i: usize) -> bool
    requires within { (i < length segments.now) × (i * event_size + event_size ≤ length events.now) }
    requires adds { Adds segments.now (get_or segments.now i zero_segment) }
    ensures { result ≡ is_missed segments.now (event_at events.now i) (get_or segments.now i zero_segment) }
{
    let row = segment_at(segments, i);
    row.new_start != buffer::NONE
        && !in_reach(
            relax::event_at(events, i),
            row.new_end,
            row.old_end + end_before(segments, row.new_start as usize),
        )
}

// A round's scan: every short jump or branch of the first `n` events that does not reach becomes long. Whether there was one.
fn lengthen(segments: &[Segment], events: &[u8], long: &mut [bool], n: usize) -> bool
    requires within { (n ≤ length segments.now) × (n ≤ length long.old) × (n * event_size ≤ length events.now) }
    requires adds { ((i : ℕ) → i < n → Adds segments.now (get_or segments.now i zero_segment)) }
    ensures long_after { long.new ≡ over long.old 0 (join long.old (missed segments.now events.now long.old n)) }
    ensures value { result ≡ any (missed segments.now events.now long.old n) }
{
    let mut grew = false;
    for i in 0..n {
        if !long[i] && is_missed(segments, events, i) {
            long[i] = true;
            grew = true;
        }
    }
    grew
}

// The rounds, from the choice that stands in `long`: each places the new ends and lengthens, until one lengthens none; then the settled layout is
// written. Before them the table is laid out once, so that labels can be found in it; the index that this takes holds of the settled layout, too.
pub fn relax_jumps(
    segments: &mut [Segment],
    events: &[u8],
    labels: &[u8],
    pool: &Pool,
    long: &mut [bool],
    index: &mut [u32],
    shift: u32,
    n: usize,
    code: u32,
) -> Summary
    requires recorded { Recorded events.now n code }
    requires labelled { Labelled events.now labels.now n }
    requires within { (n + pool.now.count ≤ most_entries) × (n + pool.now.count ≤ length segments.old) × (length long.old ≡ n + pool.now.count) × (shift < 32) }
    ensures relaxed { Relaxed (all_events events.now n code pool.now.constants.now pool.now.asked.now pool.now.count) (word_at labels.now) long.old (pool_start code pool.now.constants.now pool.now.asked.now pool.now.count) segments.old segments.new long.new result.layouts result.len }
    ensures indexed { Indexed index.new (start_at segments.new) (n + pool.now.count) shift }
{
    layout(segments, events, pool, long, n, code);
    index_segments(index, shift, segments, n + pool.count);
    find_targets(segments, events, labels, n, n + pool.count, index, shift);
    let mut layouts: u32 = 0;
    // Document 01 asks for this form: the rounds' loop yields the summary.
    let settled = loop {
        place_ends(segments, events, pool, long, n, code);
        layouts += 1;
        if !lengthen(segments, events, long, n) {
            let len = layout(segments, events, pool, long, n, code);
            break Summary { layouts, len };
        }
    };
    settled
}
