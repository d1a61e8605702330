// The C functions, on numbers and byte slices, the table of segments alone a slice of structs. The crate wargnifla_c exports them: that is what a host in
// another language links.
// include/wargnifla.h declares them and says what each table and number means. A recording's counts cross the boundary as 52 lent bytes, thirteen words in
// the order of `CodeBuffer`; what finish and join report as 24, six words in the order of `CodeBufferFinalized`. Fewer bytes than that answer 1, and of all that is
// lent only a record of zeros is written; bytes past them are not touched.
#![tactic(auto)]

ghost use Rattle.std.specs.Prelude.{◌≡◌, [], ◌∷◌, ◌+◌, ◌*◌, ◌≤◌, ◌<◌, length, MatchOption};
ghost use Rattle.seqs.specs.Over.{over};
ghost use Rattle.words.specs.Words.{bytes_of_all, over_words};
ghost use Rattle.join.specs.Pieces as joining;
ghost use Rattle.join.specs.Join.{joined_as};
ghost use Rattle.wargnifla.specs.Boundary.{version, counts_at, counts_of, record_of, record_at, start, put_bytes, align, add_constant, add_reloc, lent_of, run_sheet, finish, write_relas, read_relas, join, counts_size, record_size};

use buffer::CodeBuffer;
use finish::CodeBufferFinalized;
use refusals::Refusal;
use relax::Segment;

// 0.8.0: the major number times 1,000,000, the minor number times 1,000, and the patch number.
const VERSION: u32 = 8000;

// The bytes of counts, and of a record.
const COUNTS_SIZE: usize = 52;

const RECORD_SIZE: usize = 24;

// The counts that are lent, if there are bytes for them.
fn counts_at(counts: &[u8]) -> Option<CodeBuffer>
    ensures { MatchOption result (length counts.now < counts_size) (λ b. (counts_size ≤ length counts.now) × (b ≡ counts_at counts.now)) }
{
    if counts.len() < COUNTS_SIZE {
        return None;
    }
    Some(CodeBuffer {
        arch: words::word_at(counts, 0),
        symbols: words::word_at(counts, 1),
        finished: words::word_at(counts, 2),
        refusal: words::word_at(counts, 3),
        code: words::word_at(counts, 4),
        labels: words::word_at(counts, 5),
        events: words::word_at(counts, 6),
        uses: words::word_at(counts, 7),
        refs: words::word_at(counts, 8),
        constants: words::word_at(counts, 9),
        asked: words::word_at(counts, 10),
        relocs: words::word_at(counts, 11),
        unresolved: words::word_at(counts, 12),
    })
}

// Four words from word `k` on.
fn put_four(bytes: &mut [u8], k: usize, first: u32, second: u32, third: u32, fourth: u32)
    requires { k * 4 + 16 ≤ length bytes.old }
    ensures { bytes.new ≡ over bytes.old (k * 4) (bytes_of_all (first ∷ second ∷ third ∷ fourth ∷ [])) }
{
    words::put_word(bytes, k, first);
    words::put_word(bytes, k + 1, second);
    words::put_word(bytes, k + 2, third);
    words::put_word(bytes, k + 3, fourth);
}

fn put_counts(counts: &mut [u8], b: CodeBuffer)
    requires { counts_size ≤ length counts.old }
    ensures { counts.new ≡ over_words counts.old (counts_of b) }
{
    put_four(counts, 0, b.arch, b.symbols, b.finished, b.refusal);
    put_four(counts, 4, b.code, b.labels, b.events, b.uses);
    put_four(counts, 8, b.refs, b.constants, b.asked, b.relocs);
    words::put_word(counts, 12, b.unresolved);
}

fn put_record(finalized: &mut [u8], code: CodeBufferFinalized)
    requires { record_size ≤ length finalized.old }
    ensures { finalized.new ≡ over_words finalized.old (record_of code) }
{
    put_four(
        finalized,
        0,
        code.arch,
        code.len,
        code.alignment,
        code.layouts,
    );
    words::put_word(finalized, 4, code.labels);
    words::put_word(finalized, 5, code.relocs);
}

// The record that is lent.
fn record_at(finalized: &[u8]) -> CodeBufferFinalized
    requires { record_size ≤ length finalized.now }
    ensures { result ≡ record_at finalized.now }
{
    CodeBufferFinalized {
        arch: words::word_at(finalized, 0),
        len: words::word_at(finalized, 1),
        alignment: words::word_at(finalized, 2),
        layouts: words::word_at(finalized, 3),
        labels: words::word_at(finalized, 4),
        relocs: words::word_at(finalized, 5),
    }
}

// What a refused finish or join reports.
const NO_RECORD: CodeBufferFinalized = CodeBufferFinalized {
    arch: 0,
    len: 0,
    alignment: 0,
    layouts: 0,
    labels: 0,
    relocs: 0,
};

// Writes what finish or join reports, and gives the number that it answers.
fn report(finalized: &mut [u8], answer: Result<CodeBufferFinalized, Refusal>) -> u32
    requires { record_size ≤ length finalized.old }
    ensures answered { result ≡ (joined_as answer).refusal }
    ensures written { finalized.new ≡ over_words finalized.old (record_of (joined_as answer).code) }
{
    match answer {
        Ok(code) => {
            put_record(finalized, code);
            0
        }
        Err(refusal) => {
            put_record(finalized, NO_RECORD);
            refusal.number()
        }
    }
}

// The library's version.
pub fn wargnifla_version() -> u32
    ensures { result ≡ version }
{
    VERSION
}

// Starts a recording.
pub fn wargnifla_start(arch: u32, symbols: u32, counts: &mut [u8]) -> u32
    ensures { (result, counts.new) ≡ start arch symbols counts.old }
{
    // No counts are read here, so there is nothing to have as an Option.
    if counts.len() < COUNTS_SIZE {
        return Refusal::Malformed as u32;
    }
    let started = CodeBuffer::new(arch, symbols);
    put_counts(counts, started.buffer);
    refusals::answer_of(started.answer)
}

// Appends bytes, any number of them.
pub fn wargnifla_put_bytes(counts: &mut [u8], code: &mut [u8], bytes: &[u8]) -> u32
    ensures { (result, (counts.new, code.new)) ≡ put_bytes counts.old code.old bytes.now }
{
    let Some(b) = counts_at(counts) else {
        return Refusal::Malformed as u32;
    };
    let done = b.put_bytes(code, bytes);
    put_counts(counts, done.buffer);
    refusals::answer_of(done.answer)
}

// Pads the code to a multiple, where that takes no more than `most` bytes; else it spends none.
pub fn wargnifla_align(
    counts: &mut [u8],
    code: &mut [u8],
    events: &mut [u8],
    multiple: u32,
    most: u32,
) -> u32
    ensures { (result, (counts.new, (code.new, events.new))) ≡ align counts.old code.old events.old multiple most }
{
    let Some(b) = counts_at(counts) else {
        return Refusal::Malformed as u32;
    };
    let done = b.try_align_to_within(code, events, multiple, most);
    put_counts(counts, done.buffer);
    refusals::answer_of(done.answer)
}

// A new constant of up to 64 bytes, and its number.
pub fn wargnifla_add_constant(
    counts: &mut [u8],
    constants: &mut [u8],
    bytes: &[u8],
    number: &mut u32,
) -> u32
    ensures { (result, (counts.new, (constants.new, number.new))) ≡ add_constant counts.old constants.old bytes.now }
{
    let Some(b) = counts_at(counts) else {
        *number = buffer::NONE;
        return Refusal::Malformed as u32;
    };
    let made = b.add_constant(constants, bytes);
    put_counts(counts, made.buffer);
    match made.answer {
        Ok(n) => {
            *number = n;
            0
        }
        Err(why) => {
            *number = buffer::NONE;
            why.number()
        }
    }
}

// A relocation with an addend of 64 bits, two's complement.
pub fn wargnifla_add_reloc(
    counts: &mut [u8],
    labels: &[u8],
    relocs: &mut [u8],
    offset: u32,
    kind: u32,
    target: u32,
    addend: u64,
) -> u32
    ensures { (result, (counts.new, relocs.new)) ≡ add_reloc counts.old labels.now relocs.old offset kind target addend }
{
    let Some(b) = counts_at(counts) else {
        return Refusal::Malformed as u32;
    };
    let done = b.add_reloc_at_offset(labels, relocs, offset, kind, target, addend);
    put_counts(counts, done.buffer);
    refusals::answer_of(done.answer)
}

// Makes the calls of a sheet up to the first that is refused, whose index becomes `index`.
pub fn wargnifla_run_sheet(
    sheet: &[u8],
    index: &mut u32,
    counts: &mut [u8],
    code: &mut [u8],
    labels: &mut [u8],
    events: &mut [u8],
    uses: &mut [u8],
    refs: &mut [u8],
    constants: &mut [u8],
    asked: &mut [u8],
    relocs: &mut [u8],
) -> u32
    ensures { ((result, index.new), lent_of counts.new code.new labels.new events.new uses.new refs.new constants.new asked.new relocs.new) ≡ run_sheet sheet.now (lent_of counts.old code.old labels.old events.old uses.old refs.old constants.old asked.old relocs.old) }
{
    let Some(b) = counts_at(counts) else {
        *index = 0;
        return Refusal::Malformed as u32;
    };
    let ran = sheet::run_sheet(
        b, sheet, code, labels, events, uses, refs, constants, asked, relocs,
    );
    put_counts(counts, ran.buffer);
    *index = ran.index;
    refusals::answer_of(ran.answer)
}

// Finishes a recording; what it reports is written to `finalized`.
pub fn wargnifla_finish(
    counts: &mut [u8],
    code: &[u8],
    labels: &mut [u8],
    events: &[u8],
    uses: &[u8],
    refs: &[u8],
    constants: &[u8],
    asked: &[u8],
    relocs: &mut [u8],
    segments: &mut [Segment],
    output: &mut [u8],
    finalized: &mut [u8],
) -> u32
    ensures { (result, (counts.new, ((labels.new, (relocs.new, (segments.new, output.new))), finalized.new))) ≡ finish (lent_of counts.old code.now labels.old events.now uses.now refs.now constants.now asked.now relocs.old) segments.old output.old finalized.old }
{
    if finalized.len() < RECORD_SIZE {
        return Refusal::Malformed as u32;
    }
    let Some(b) = counts_at(counts) else {
        return report(finalized, Err(Refusal::Malformed));
    };
    let done = finish::finish(
        b, code, labels, events, uses, refs, constants, asked, relocs, segments, output,
    );
    put_counts(counts, done.buffer);
    report(finalized, done.answer)
}

// Writes the relocations of a finished record as ELF's Elf64_Rela entries; a label target becomes the symbol `section`.
pub fn wargnifla_write_relas(
    finalized: &[u8],
    labels: &[u8],
    relocs: &[u8],
    section: u32,
    output: &mut [u8],
) -> u32
    ensures { (result, output.new) ≡ write_relas finalized.now labels.now relocs.now section output.old }
{
    if finalized.len() < RECORD_SIZE {
        return Refusal::Malformed as u32;
    }
    refusals::answer_of(elf::write_relas(record_at(finalized), labels, relocs, section, output))
}

// Takes such entries back to offset, type, symbol and addend.
pub fn wargnifla_read_relas(relas: &[u8], table: &mut [u8]) -> u32
    ensures { (result, table.new) ≡ read_relas relas.now table.old }
{
    refusals::answer_of(elf::read_relas(relas, table))
}

// Joins finished recordings; the record of the whole is written to `finalized`.
pub fn wargnifla_join(
    pieces: &[u8],
    code: &[u8],
    labels: &[u8],
    relocs: &[u8],
    definitions: &[u8],
    output: &mut [u8],
    joined_labels: &mut [u8],
    joined_relocs: &mut [u8],
    finalized: &mut [u8],
) -> u32
    ensures { (result, ((output.new, (joined_labels.new, joined_relocs.new)), finalized.new)) ≡ join (joining.lent_of pieces.now code.now labels.now relocs.now definitions.now) output.old joined_labels.old joined_relocs.old finalized.old }
{
    if finalized.len() < RECORD_SIZE {
        return Refusal::Malformed as u32;
    }
    let answer = join::join(
        pieces,
        code,
        labels,
        relocs,
        definitions,
        output,
        joined_labels,
        joined_relocs,
    );
    report(finalized, answer)
}
