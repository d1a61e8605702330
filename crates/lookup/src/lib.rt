// A coarse index into rising offsets, so that a search by halving starts from a few of them in the place of all. Offsets are told apart by their high
// bits: a part is what lies between two multiples of 2 ^ shift, and the index has for each part how many offsets lie before it. It takes one pass to fill.
// A user's own loop hands the offsets to `mark`, in order, and then closes the index.
#![tactic(auto)]

ghost use Rattle.std.specs.Prelude.{◌≡◌, ℕ, true, ◌+◌, ◌/◌, ◌^◌, ◌≤◌, ◌<◌, length, get_or};
ghost use Rattle.lookup.specs.steps.Index.{parts, index_size, large_size, most_keys, part, Marked, Narrowed, Parted};

// An index has an entry for each part that is told apart, one for what lies past them, and one for the end. It is at least so long; a shorter slice is none.
pub const SIZE: usize = 1026;

// With so many offsets a longer one pays.
pub const MANY: usize = 4096;

pub const LARGE_SIZE: usize = 16386;

// With fewer offsets, or fewer searches, than these an index does not pay.
pub const FEW: usize = 24;

// An entry is a word of 32 bits.
pub const MOST_KEYS: usize = u32::MAX as usize;

// Where a search by halving starts and ends.
#[derive(Clone, Copy)]
pub struct Span {
    pub low: usize,
    pub high: usize,
}

// By halving: where a test of numbers turns from true to false, between two numbers. It is asked below the second alone. The library's method of this name
// is of slices, and what is searched here are entries of several tables.
pub fn partition_point<F: Fn(usize) -> bool>(mut low: usize, mut high: usize, before: F) -> usize
    requires order { low ≤ high }
    requires callable { (i : ℕ) → low ≤ i → i < high → F.pre before i }
    ensures { Parted (F.post before) low high result }
{
    while low < high {
        let mid = low + (high - low) / 2;
        if before(mid) {
            low = mid + 1;
        } else {
            high = mid;
        }
    }
    low
}

// Whether an index of so many offsets pays for so many searches.
pub fn pays(keys: usize, searches: usize) -> bool
    ensures { result ≡ true → keys ≤ most_keys }
{
    FEW <= keys && keys <= MOST_KEYS && FEW <= searches
}

// How long an index of so many offsets is best, of those that have room in a large one.
pub fn size_for(keys: usize) -> usize
    ensures { (index_size ≤ result) × (result ≤ large_size) }
{
    if keys < MANY { SIZE } else { LARGE_SIZE }
}

// The parts that an index of a length tells apart; those of the shortest where it is none.
fn parts_of(size: usize) -> usize
    ensures { (index_size ≤ size → result ≡ parts size) × (1024 ≤ result) }
{
    size.max(SIZE) - 2
}

// The least shift by which offsets up to `end` lie in the parts that an index of a length tells apart. A loop, as it ends where the test fails, not at a number.
pub fn shift_for(end: u32, size: usize) -> u32
    ensures small { result < 32 }
    ensures told_apart { (index_size ≤ size → end / 2 ^ result < parts size) }
{
    let told = parts_of(size);
    let mut shift: u32 = 0;
    while told <= (end >> shift) as usize {
        shift += 1;
    }
    shift
}

// The part that an offset lies in, for an index of a length.
#[tactic(auto, unfolding(crate::specs::steps::Index::part))]
fn part_of(offset: u32, shift: u32, size: usize) -> usize
    requires { (shift < 32) × (index_size ≤ size) }
    ensures { (result ≡ part size shift offset) × (result ≤ parts size) }
{
    ((offset >> shift) as usize).min(size - 2)
}

// Writes `value` into the entries from `next` up to `to`. The first entry that is not written yet.
fn fill(index: &mut [u32], next: usize, to: usize, value: u32) -> usize
    requires { to ≤ length index.old }
    ensures { Marked index.old index.new next to value result }
{
    if next < to {
        index[next..to].fill(value);
    }
    next.max(to)
}

// Marks offset number `i`, the offsets before it being marked: the entries from `next` up to its own part count those. The first entry that is left.
pub fn mark(index: &mut [u32], shift: u32, next: usize, i: usize, offset: u32) -> usize
    requires { (index_size ≤ length index.old) × (shift < 32) × (i ≤ most_keys) }
    ensures { Marked index.old index.new next (part (length index.old) shift offset + 1) i result }
{
    let own = part_of(offset, shift, index.len());
    fill(index, next, own + 1, i as u32)
}

// After the last of `n` offsets is marked: the entries that are left count them all.
pub fn close(index: &mut [u32], next: usize, n: usize) -> usize
    requires { n ≤ most_keys }
    ensures { Marked index.old index.new next (length index.old) n result }
{
    let size = index.len();
    fill(index, next, size, n as u32)
}

// Between which of the `n` offsets a search for an offset starts: between all of them where there is no index, an empty slice.
pub fn narrow(index: &[u32], shift: u32, n: usize, offset: u32) -> Span
    requires { shift < 32 }
    ensures { Narrowed index.now n (part (length index.now) shift offset) result.low result.high }
{
    if index.len() < SIZE {
        return Span { low: 0, high: n };
    }
    let own = part_of(offset, shift, index.len());
    Span {
        low: index[own] as usize,
        high: index[own + 1] as usize,
    }
}
