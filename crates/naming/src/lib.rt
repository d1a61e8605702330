// How many entries of a table name a label, and how many name one that is not bound.
#![tactic(auto)]

ghost use Rattle.std.specs.Prelude.{◌≡◌, ◌+◌, ◌*◌, ◌≤◌, ◌<◌, length};
ghost use Rattle.relax.specs.Events.{event_size};
ghost use Rattle.naming.specs.Naming.{naming, jumps_naming};
ghost use Rattle.naming.specs.steps.Open.{is_open_at, open_entries, open_jumps};

// The offset of a label that is not bound.
pub const UNBOUND: u32 = 0xffffffff;

// How many of the first `n` entries, of `stride` words, have `value` in word `at`.
pub fn naming(table: &[u8], n: usize, stride: usize, at: usize, value: u32) -> u32
    requires { (n * stride * 4 ≤ length table.now) × (at < stride) × (n < 4294967296) }
    ensures { result ≡ naming table.now n stride at value }
{
    seqs::how_many(n, |i| words::word_at(table, i * stride + at) == value)
}

// How many of the first `n` events are jumps to the label.
pub fn jumps_naming(events: &[u8], n: usize, label: u32) -> u32
    requires { (n * event_size ≤ length events.now) × (n < 4294967296) }
    ensures { result ≡ jumps_naming events.now n label }
{
    seqs::how_many(n, |i| {
        relax::names_label(words::word_at(events, i * relax::EVENT_WORDS))
            && words::word_at(events, i * relax::EVENT_WORDS + 3) == label
    })
}

// Whether the label is none of the first `known`, or not bound.
#[tactic(auto, unfolding(crate::specs::steps::Open::is_open_at))]
fn is_open(labels: &[u8], known: usize, label: u32) -> bool
    requires { known * 4 ≤ length labels.now }
    ensures { result ≡ is_open_at labels.now known label }
{
    known <= label as usize || words::word_at(labels, label as usize) == UNBOUND
}

// How many of the first `n` entries, of `stride` words, name an open label in word `at`: a word names a label as a number from `base` on.
pub fn open_entries(
    table: &[u8],
    n: usize,
    stride: usize,
    at: usize,
    base: u32,
    labels: &[u8],
    known: usize,
) -> u32
    requires { (n * stride * 4 ≤ length table.now) × (at < stride) × (n < 4294967296) × (known * 4 ≤ length labels.now) }
    ensures { result ≡ open_entries table.now n stride at base labels.now known }
{
    seqs::how_many(n, |i| {
        let word = words::word_at(table, i * stride + at);
        base <= word && is_open(labels, known, word - base)
    })
}

// How many of the first `n` events are jumps to an open label.
pub fn open_jumps(events: &[u8], n: usize, labels: &[u8], known: usize) -> u32
    requires { (n * event_size ≤ length events.now) × (n < 4294967296) × (known * 4 ≤ length labels.now) }
    ensures { result ≡ open_jumps events.now n labels.now known }
{
    seqs::how_many(n, |i| {
        relax::names_label(words::word_at(events, i * relax::EVENT_WORDS))
            && is_open(
                labels,
                known,
                words::word_at(events, i * relax::EVENT_WORDS + 3),
            )
    })
}
