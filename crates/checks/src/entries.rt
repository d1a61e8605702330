// Number 1: an entry that no call writes. A function for each table, the entries one by one.
ghost use Rattle.std.specs.Prelude.{◌≡◌, true, ◌+◌, ◌*◌, ◌≤◌, ◌<◌, length};
ghost use Rattle.words.specs.Words.{word_at};
ghost use Rattle.recording.specs.Sound.{start_at, end_at, label_of};
ghost use Rattle.seqs.specs.Every.{all};
ghost use Rattle.relax.specs.Events.{event_size};
ghost use Rattle.buffer.specs.Tables.{most_entries, label_size, use_size, ref_size, constant_size, asked_size, reloc_size};
ghost use Rattle.lookup.specs.steps.Index.{index_size, large_size, most_keys, Indexed};
ghost use Rattle.checks.specs.Entries.{form_fits, event_fits, kept_only, events_fit, label_fits, labels_fit, use_fits, uses_fit, ref_fits, refs_fit, reloc_fits, relocs_fit, constant_fits, constants_fit, order_fits, entries_fit};
ghost use Rattle.checks.specs.steps.Search.{Ordered};
ghost use Rattle.checks.specs.steps.Handed.{few_marks, CountsFit, tables, Labelled, Marking, new_at, unlabelled, unlabelled_or};

use crate::lent::Lent;
use buffer::CodeBuffer;

// Marks that cost a small recording next to nothing to clear.
pub const FEW_MARKS: usize = 256;

// A jump has 2 to 15 bytes, a known label, and a condition up to 16; an alignment is on a power of two up to 4,096, with the padding that
// it spends at its start.
#[tactic(auto, unfolding(crate::specs::Entries::form_fits))]
fn form_fits(labels: u32, kind: u32, start: u32, len: u32, what: u32, how: u32) -> bool
    ensures { result ≡ form_fits labels kind start len what how }
{
    match kind {
        relax::JUMP => {
            relax::SHORT_LEN <= len
                && len <= relax::MOST_JUMP
                && what < labels
                && how <= relax::NO_CONDITION
        }
        relax::ALIGNMENT => {
            buffer::bytes::is_alignment(what) && len == encoder::padding_within(start, what, how)
        }
        _ => false,
    }
}

#[tactic(auto, unfolding(crate::specs::Entries::event_fits))]
fn event_fits(events: &[u8], labels: u32, code: u32, j: usize) -> bool
    requires { j * event_size + event_size ≤ length events.now }
    ensures { result ≡ event_fits events.now labels code j }
{
    let kind = words::word_at(events, j * relax::EVENT_WORDS);
    let start = words::word_at(events, j * relax::EVENT_WORDS + 1);
    let len = words::word_at(events, j * relax::EVENT_WORDS + 2);
    let what = words::word_at(events, j * relax::EVENT_WORDS + 3);
    let how = words::word_at(events, j * relax::EVENT_WORDS + 4);
    form_fits(labels, kind, start, len, what, how)
        && start as u64 + len as u64 <= code as u64
        && buffer::jumps::last_end(events, j) <= start as u64
}

// Not every architecture keeps events and refs.
#[tactic(auto, unfolding(crate::specs::Entries::kept_only))]
fn is_kept(arch: u32, n: usize) -> bool
    ensures { result ≡ kept_only arch n }
{
    buffer::keeps_events(arch) || n == 0
}

#[tactic(auto, unfolding(crate::specs::Entries::events_fit))]
pub fn events_fit(arch: u32, events: &[u8], n: usize, labels: u32, code: u32) -> bool
    requires { n * event_size ≤ length events.now }
    ensures { result ≡ events_fit arch events.now n labels code }
{
    is_kept(arch, n) && (0..n).all(|i| event_fits(events, labels, code, i))
}

// Whether label `i` fits: it is unbound, or bound within the code and inside none of the events, whose starts the index has.
#[tactic(auto, unfolding(crate::specs::Entries::label_fits))]
fn label_fits(
    labels: &[u8],
    events: &[u8],
    n: usize,
    code: u32,
    index: &[u32],
    shift: u32,
    i: usize,
) -> bool
    requires labels_within { i * label_size + label_size ≤ length labels.now }
    requires events_within { n * event_size ≤ length events.now }
    requires ordered { Ordered (start_at events.now) (end_at events.now) n }
    requires indexed { Indexed index.now (start_at events.now) n shift }
    ensures { result ≡ label_fits events.now n code (word_at labels.now i) }
{
    let offset = words::word_at(labels, i);
    offset == buffer::NONE
        || (offset <= code && crate::search::is_outside(events, n, index, shift, offset))
}

fn each_label_fits(
    labels: &[u8],
    n: usize,
    events: &[u8],
    m: usize,
    code: u32,
    index: &[u32],
    shift: u32,
) -> bool
    requires labels_within { n * label_size ≤ length labels.now }
    requires events_within { m * event_size ≤ length events.now }
    requires ordered { Ordered (start_at events.now) (end_at events.now) m }
    requires indexed { Indexed index.now (start_at events.now) m shift }
    ensures { result ≡ labels_fit labels.now n events.now m code }
{
    (0..n).all(|i| label_fits(labels, events, m, code, index, shift, i))
}

// By an index of the events' starts, for which there is room in SIZE entries. The attribute keeps a large one out of the stack frame of those who have few
// labels.
#[inline(never)]
fn labels_fit_by<const SIZE: usize>(
    labels: &[u8],
    n: usize,
    events: &[u8],
    m: usize,
    code: u32,
) -> bool
    requires labels_within { n * label_size ≤ length labels.now }
    requires within { (m * event_size ≤ length events.now) × (m ≤ most_keys) }
    requires room { (index_size ≤ SIZE) × (SIZE ≤ large_size) }
    requires ordered { Ordered (start_at events.now) (end_at events.now) m }
    ensures { result ≡ labels_fit labels.now n events.now m code }
{
    let mut index = [0u32; SIZE];
    let shift = lookup::shift_for(code, SIZE);
    crate::search::index_events(&mut index, shift, events, m);
    each_label_fits(labels, n, events, m, code, &index, shift)
}

// An index pays where there are many events and many labels, and a large one where there are very many.
pub fn labels_fit(labels: &[u8], n: usize, events: &[u8], m: usize, code: u32) -> bool
    requires labels_within { n * label_size ≤ length labels.now }
    requires events_within { m * event_size ≤ length events.now }
    requires ordered { Ordered (start_at events.now) (end_at events.now) m }
    ensures { result ≡ labels_fit labels.now n events.now m code }
{
    if !lookup::pays(m, n) {
        let none = [0u32; 0];
        return each_label_fits(labels, n, events, m, code, &none, 0);
    }
    if lookup::MANY <= m {
        return labels_fit_by::<{ lookup::LARGE_SIZE }>(labels, n, events, m, code);
    }
    labels_fit_by::<{ lookup::SIZE }>(labels, n, events, m, code)
}

#[tactic(auto, unfolding(crate::specs::Entries::use_fits))]
fn use_fits(uses: &[u8], arch: u32, labels: u32, i: usize) -> bool
    requires { i * use_size + use_size ≤ length uses.now }
    ensures { result ≡ use_fits uses.now arch labels i }
{
    let label = words::word_at(uses, i * buffer::USE_WORDS + 1);
    let code = words::word_at(uses, i * buffer::USE_WORDS + 2);
    code <= fields::LAST_CODE
        && code != fields::UNSUPPORTED_CODE
        && !buffer::uses::is_foreign(code, arch)
        && label < labels
}

pub fn uses_fit(uses: &[u8], n: usize, arch: u32, labels: u32) -> bool
    requires { n * use_size ≤ length uses.now }
    ensures { result ≡ uses_fit uses.now n arch labels }
{
    (0..n).all(|i| use_fits(uses, arch, labels, i))
}

#[tactic(auto, unfolding(crate::specs::Entries::ref_fits))]
fn ref_fits(refs: &[u8], arch: u32, labels: u32, i: usize) -> bool
    requires { i * ref_size + ref_size ≤ length refs.now }
    ensures { result ≡ ref_fits refs.now arch labels i }
{
    let label = words::word_at(refs, i * buffer::REF_WORDS + 1);
    let code = words::word_at(refs, i * buffer::REF_WORDS + 2);
    !buffer::uses::is_foreign(code, arch) && label < labels
}

#[tactic(auto, unfolding(crate::specs::Entries::refs_fit))]
pub fn refs_fit(refs: &[u8], n: usize, arch: u32, labels: u32) -> bool
    requires { n * ref_size ≤ length refs.now }
    ensures { result ≡ refs_fit refs.now n arch labels }
{
    is_kept(arch, n) && (0..n).all(|i| ref_fits(refs, arch, labels, i))
}

#[tactic(auto, unfolding(crate::specs::Entries::reloc_fits))]
fn reloc_fits(b: CodeBuffer, relocs: &[u8], i: usize) -> bool
    requires { i * reloc_size + reloc_size ≤ length relocs.now }
    ensures { result ≡ reloc_fits b relocs.now i }
{
    let offset = words::word_at(relocs, i * buffer::RELOC_WORDS);
    let kind = words::word_at(relocs, i * buffer::RELOC_WORDS + 1);
    let target = words::word_at(relocs, i * buffer::RELOC_WORDS + 2);
    offset <= buffer::LAST_OFFSET
        && kind <= buffer::LAST_RELOC
        && !buffer::relocs::is_foreign_kind(kind, b.arch)
        && b.is_known(target)
}

pub fn relocs_fit(b: CodeBuffer, relocs: &[u8]) -> bool
    requires { b.relocs * reloc_size ≤ length relocs.now }
    ensures { result ≡ relocs_fit b relocs.now }
{
    (0..b.relocs as usize).all(|i| reloc_fits(b, relocs, i))
}

// The label of constant `i`, or none.
fn label_of(constants: &[u8], i: usize) -> u32
    requires { i * constant_size + constant_size ≤ length constants.now }
    ensures { result ≡ label_of constants.now i }
{
    words::word_at(constants, i * buffer::CONSTANT_WORDS + 1)
}

#[tactic(auto, unfolding(crate::specs::Entries::constant_fits))]
fn constant_fits(constants: &[u8], labels: u32, i: usize) -> bool
    requires { i * constant_size + constant_size ≤ length constants.now }
    ensures { result ≡ constant_fits constants.now labels i }
{
    let size = words::word_at(constants, i * buffer::CONSTANT_WORDS);
    let label = label_of(constants, i);
    size as usize <= buffer::MOST_CONSTANT && (label == buffer::NONE || label < labels)
}

pub fn constants_fit(constants: &[u8], n: usize, labels: u32) -> bool
    requires { n * constant_size ≤ length constants.now }
    ensures { result ≡ constants_fit constants.now n labels }
{
    (0..n).all(|i| constant_fits(constants, labels, i))
}

// Whether entry `i` of the order of asking is a known constant with a label, neither of which is marked.
fn is_new(
    asked: &[u8],
    constants: &[u8],
    known: u32,
    i: usize,
    seen: &[bool],
    taken: &[bool],
) -> bool
    requires asked_within { i * asked_size + asked_size ≤ length asked.now }
    requires marking { Marking asked.now constants.now known i seen.now taken.now }
    ensures { result ≡ new_at asked.now constants.now known i }
{
    let constant = words::word_at(asked, i);
    // Two early exits, each before what it keeps from being read; one chain of && would have to hold a block, and is no plainer.
    if known <= constant {
        return false;
    }
    let label = label_of(constants, constant as usize);
    if label == buffer::NONE {
        return false;
    }
    !seen[constant as usize] && !taken[label as usize]
}

// Marks the constants that are asked for and their labels, up to the first that is marked already or has no label.
fn mark_asked(
    asked: &[u8],
    n: usize,
    constants: &[u8],
    known: u32,
    seen: &mut [bool],
    taken: &mut [bool],
) -> bool
    requires asked_within { n * asked_size ≤ length asked.now }
    requires marking { Marking asked.now constants.now known 0 seen.old taken.old }
    ensures value { result ≡ all (new_at asked.now constants.now known) n }
    ensures marking { (result ≡ true → Marking asked.now constants.now known n seen.new taken.new) }
{
    for i in 0..n {
        if !is_new(asked, constants, known, i, seen, taken) {
            return false;
        }
        let constant = words::word_at(asked, i) as usize;
        let label = label_of(constants, constant) as usize;
        seen[constant] = true;
        taken[label] = true;
    }
    true
}

// Whether every constant that has a label is marked.
fn is_each_marked(constants: &[u8], n: u32, seen: &[bool]) -> bool
    requires constants_within { n * constant_size ≤ length constants.now }
    requires seen_within { n ≤ length seen.now }
    ensures { result ≡ all (unlabelled_or constants.now seen.now) n }
{
    (0..n as usize).all(|i| label_of(constants, i) == buffer::NONE || seen[i])
}

// Whether the order of asking lists every constant that has a label, and no other, each once and with a label of its own. No mark is set yet.
fn order_fits_by(
    asked: &[u8],
    n: usize,
    constants: &[u8],
    known: u32,
    seen: &mut [bool],
    taken: &mut [bool],
) -> bool
    requires asked_within { n * asked_size ≤ length asked.now }
    requires marking { Marking asked.now constants.now known 0 seen.old taken.old }
    ensures { result ≡ order_fits asked.now n constants.now known }
{
    mark_asked(asked, n, constants, known, seen, taken) && is_each_marked(constants, known, seen)
}

// With MARKS marks for constants and as many for labels. The attribute keeps large arrays out of small frames.
#[inline(never)]
fn order_fits_with<const MARKS: usize>(asked: &[u8], n: usize, constants: &[u8], known: u32) -> bool
    requires within { (n * asked_size ≤ length asked.now) × (known ≤ MARKS) × (MARKS ≤ most_entries) }
    requires labelled { Labelled constants.now known MARKS }
    ensures { result ≡ order_fits asked.now n constants.now known }
{
    let mut seen = [false; MARKS];
    let mut taken = [false; MARKS];
    order_fits_by(asked, n, constants, known, &mut seen, &mut taken)
}

// Whether no constant has a label.
fn is_each_unlabelled(constants: &[u8], n: u32) -> bool
    requires { n * constant_size ≤ length constants.now }
    ensures { result ≡ all (unlabelled constants.now) n }
{
    (0..n as usize).all(|i| label_of(constants, i) == buffer::NONE)
}

// Whether the order of asking fits the constants. Where nothing is asked for nothing is marked, and clearing marks for 65,536 entries takes longer than all
// else that a small recording asks.
pub fn order_fits(asked: &[u8], n: usize, constants: &[u8], known: u32, labels: u32) -> bool
    requires within { (n * asked_size ≤ length asked.now) × (known ≤ most_entries) × (labels ≤ most_entries) }
    requires labelled { Labelled constants.now known labels }
    ensures { result ≡ order_fits asked.now n constants.now known }
{
    if n == 0 {
        return is_each_unlabelled(constants, known);
    }
    if known as usize <= FEW_MARKS && labels as usize <= FEW_MARKS {
        return order_fits_with::<FEW_MARKS>(asked, n, constants, known);
    }
    order_fits_with::<{ buffer::MOST_ENTRIES }>(asked, n, constants, known)
}

// Whether every entry of the tables is one that calls write.
#[tactic(auto, unfolding(crate::specs::Entries::entries_fit))]
pub fn entries_fit(b: CodeBuffer, lent: &Lent) -> bool
    requires { CountsFit b lent.now.labels.now lent.now.events.now lent.now.uses.now lent.now.refs.now lent.now.constants.now lent.now.asked.now lent.now.relocs.now }
    ensures { result ≡ entries_fit (tables b lent.now.labels.now lent.now.events.now lent.now.uses.now lent.now.refs.now lent.now.constants.now lent.now.asked.now lent.now.relocs.now) }
{
    events_fit(b.arch, lent.events, b.events as usize, b.labels, b.code)
        && labels_fit(
            lent.labels,
            b.labels as usize,
            lent.events,
            b.events as usize,
            b.code,
        )
        && uses_fit(lent.uses, b.uses as usize, b.arch, b.labels)
        && refs_fit(lent.refs, b.refs as usize, b.arch, b.labels)
        && constants_fit(lent.constants, b.constants as usize, b.labels)
        && order_fits(
            lent.asked,
            b.asked as usize,
            lent.constants,
            b.constants,
            b.labels,
        )
        && relocs_fit(b, lent.relocs)
}
