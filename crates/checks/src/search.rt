// Whether a piece of code is clear of the events and of the pool's alignments. Both are in order: of those that start before the piece ends, the last
// decides, and halving finds it.
ghost use Rattle.std.specs.Prelude.{◌≡◌, ◌+◌, ◌*◌, ◌≤◌, ◌<◌, length};
ghost use Rattle.recording.specs.Sound.{start_at, end_at};
ghost use Rattle.words.specs.Words.{word_at};
ghost use Rattle.relax.specs.Events.{event_size};
ghost use Rattle.buffer.specs.Tables.{label_size, constant_size, asked_size};
ghost use Rattle.pool.specs.steps.Pool.{label_at, pool_start};
ghost use Rattle.lookup.specs.steps.Index.{index_size, most_keys, Indexed};
ghost use Rattle.checks.specs.Entries.{outside};
ghost use Rattle.checks.specs.steps.Fields.{clear_of_events, clear_of_pool};
ghost use Rattle.checks.specs.steps.Search.{Ordered, Before, Halved, Placed};

fn start_at(events: &[u8], j: usize) -> u64
    requires { j * event_size + event_size ≤ length events.now }
    ensures { result ≡ start_at events.now j }
{
    words::word_at(events, j * relax::EVENT_WORDS + 1) as u64
}

// Entries made by hand may pass 32 bits.
pub fn end_at(events: &[u8], j: usize) -> u64
    requires { j * event_size + event_size ≤ length events.now }
    ensures { result ≡ end_at events.now j }
{
    words::word_at(events, j * relax::EVENT_WORDS + 1) as u64
        + words::word_at(events, j * relax::EVENT_WORDS + 2) as u64
}

// How many of the first `n` events start before `to`: `first` of them do at least, and `last` at most.
fn events_before(events: &[u8], n: usize, to: u64, first: usize, last: usize) -> usize
    requires events_within { n * event_size ≤ length events.now }
    requires ordered { Ordered (start_at events.now) (end_at events.now) n }
    requires halved { Halved (start_at events.now) n to first last }
    ensures { Before (start_at events.now) n to result }
{
    lookup::partition_point(first, last, |j| start_at(events, j) < to)
}

// Whether none of the first `n` events overlaps what lies between two offsets. Of the events `first` at least start before the second, and `last` at most.
fn clear_among(events: &[u8], n: usize, from: u64, to: u64, first: usize, last: usize) -> bool
    requires events_within { n * event_size ≤ length events.now }
    requires ordered { Ordered (start_at events.now) (end_at events.now) n }
    requires halved { Halved (start_at events.now) n to first last }
    ensures { result ≡ clear_of_events events.now n from to }
{
    let k = events_before(events, n, to, first, last);
    k == 0 || end_at(events, k - 1) <= from
}

// The same, by a search among all the events.
pub fn clear_of_events(events: &[u8], n: usize, from: u64, to: u64) -> bool
    requires events_within { n * event_size ≤ length events.now }
    requires ordered { Ordered (start_at events.now) (end_at events.now) n }
    ensures { result ≡ clear_of_events events.now n from to }
{
    clear_among(events, n, from, to, 0, n)
}

// Fills an index of the starts of the first `n` events.
pub fn index_events(index: &mut [u32], shift: u32, events: &[u8], n: usize)
    requires within { (index_size ≤ length index.old) × (shift < 32) × (n ≤ most_keys) × (n * event_size ≤ length events.now) }
    requires ordered { Ordered (start_at events.now) (end_at events.now) n }
    ensures { Indexed index.new (start_at events.now) n shift }
{
    let mut next: usize = 0;
    for i in 0..n {
        let start = words::word_at(events, i * relax::EVENT_WORDS + 1);
        next = lookup::mark(index, shift, next, i, start);
    }
    lookup::close(index, next, n);
}

// Whether an offset lies strictly inside none of the events: the empty piece at the offset is clear of them. The index, if there is one, is that of their
// starts.
pub fn is_outside(events: &[u8], n: usize, index: &[u32], shift: u32, offset: u32) -> bool
    requires events_within { n * event_size ≤ length events.now }
    requires ordered { Ordered (start_at events.now) (end_at events.now) n }
    requires indexed { Indexed index.now (start_at events.now) n shift }
    ensures { result ≡ outside events.now n offset }
{
    let span = lookup::narrow(index, shift, n, offset);
    clear_among(events, n, offset as u64, offset as u64, span.low, span.high)
}

// Where constant `j` of the pool stands, as its label says.
fn offset_at(labels: &[u8], constants: &[u8], asked: &[u8], j: usize) -> u32
    requires { (j * asked_size + asked_size ≤ length asked.now) × (word_at asked.now j * constant_size + constant_size ≤ length constants.now) × (label_at constants.now asked.now j * label_size + label_size ≤ length labels.now) }
    ensures { result ≡ word_at labels.now (label_at constants.now asked.now j) }
{
    let label = pool::label_at(constants, asked, j) as usize;
    words::word_at(labels, label)
}

// Where its alignment starts: at the end of the constant before it, the first at the end of the code.
fn alignment_at(labels: &[u8], constants: &[u8], asked: &[u8], code: u32, j: usize) -> u64
    requires { Placed labels.now constants.now asked.now code j }
    ensures { result ≡ pool_start code constants.now asked.now j }
{
    if j == 0 {
        return code as u64;
    }
    let last = j - 1;
    let offset = offset_at(labels, constants, asked, last);
    let size = pool::size_at(constants, asked, last);
    offset as u64 + size as u64
}

// How many of the alignments of the first `n` constants start before `to`.
fn alignments_before(
    labels: &[u8],
    constants: &[u8],
    asked: &[u8],
    code: u32,
    n: usize,
    to: u64,
) -> usize
    requires { Placed labels.now constants.now asked.now code n }
    ensures { Before (pool_start code constants.now asked.now) n to result }
{
    lookup::partition_point(0, n, |j| {
        alignment_at(labels, constants, asked, code, j) < to
    })
}

// Whether none of the alignments of the first `n` constants overlaps what lies between two offsets. Asked of the tables and no `Pool`, since it holds of
// constants of any size.
pub fn clear_of_pool(
    labels: &[u8],
    constants: &[u8],
    asked: &[u8],
    code: u32,
    n: usize,
    from: u64,
    to: u64,
) -> bool
    requires { Placed labels.now constants.now asked.now code n }
    ensures { result ≡ clear_of_pool code constants.now asked.now n from to }
{
    let k = alignments_before(labels, constants, asked, code, n, to);
    k == 0 || offset_at(labels, constants, asked, k - 1) as u64 <= from
}
