// From the table of relocations to entries of ELF.
ghost use Rattle.std.specs.Prelude.{◌≡◌, ◌+◌, ◌-◌, ◌*◌, ◌≤◌, length, nat_lt};
ghost use Rattle.seqs.specs.Over.{over};
ghost use Rattle.seqs.specs.Pick.{pick};
ghost use Rattle.words.specs.Words.{word_at, bytes_of_all, over_words};
ghost use Rattle.buffer.specs.State.{label_target};
ghost use Rattle.buffer.specs.Tables.{label_size, reloc_words, reloc_size};
ghost use Rattle.recording.specs.View.{reloc_at};
ghost use Rattle.checks.specs.steps.Handed.{TargetsNamed};
ghost use Rattle.refusals.specs.Answers.{answer_of};
ghost use Rattle.elf.specs.Elf.{rela_size, target_bound, all_targets_bound, target_offset, rela_of, leaves_signed, why_no_rela, why_no_relas, relocs_fit, within_limits, why_unfit, why_not_written, words_of_rela, words_of_relas};

use crate::{RELA_SIZE, RELA_WORDS, Rela, addend_at, types};
use finish::CodeBufferFinalized;
use refusals::Refusal;

// 2^63: an addend from here on is negative.
const FIRST_NEGATIVE: u64 = 1 << 63;

// Whether a target is a symbol, or a label that is one of the first `count` and bound.
fn is_target_bound(labels: &[u8], count: u32, target: u32) -> bool
    requires { count * label_size ≤ length labels.now }
    ensures { result ≡ target_bound labels.now count target }
{
    target < buffer::LABEL_TARGET
        || target - buffer::LABEL_TARGET < count
            && words::word_at(labels, (target - buffer::LABEL_TARGET) as usize) != buffer::NONE
}

fn all_targets_bound(labels: &[u8], count: u32, relocs: &[u8], n: usize) -> bool
    requires labels_within { count * label_size ≤ length labels.now }
    requires relocs_within { n * reloc_size ≤ length relocs.now }
    ensures { result ≡ all_targets_bound labels.now count relocs.now n }
{
    (0..n).all(|i| {
        let target = words::word_at(relocs, i * buffer::RELOC_WORDS + 2);
        is_target_bound(labels, count, target)
    })
}

// What a target adds to the addend: a label its offset, a symbol nothing.
fn target_offset(labels: &[u8], target: u32) -> u32
    requires { label_target ≤ target → (target - label_target) * label_size + label_size ≤ length labels.now }
    ensures { result ≡ target_offset labels.now target }
{
    if target < buffer::LABEL_TARGET {
        0
    } else {
        words::word_at(labels, (target - buffer::LABEL_TARGET) as usize)
    }
}

// Whether the sum leaves signed 64 bits.
fn leaves_signed(addend: u64, offset: u32) -> bool
    ensures { result ≡ leaves_signed addend offset }
{
    addend < FIRST_NEGATIVE && FIRST_NEGATIVE <= addend + offset as u64
}

// 24 and 25, of entry `i`.
fn why_no_rela(arch: u32, labels: &[u8], relocs: &[u8], i: usize) -> Result<(), Refusal>
    requires relocs_within { i * reloc_size + reloc_size ≤ length relocs.now }
    requires labels_within { (label_target ≤ word_at relocs.now (i * reloc_words + 2) → (word_at relocs.now (i * reloc_words + 2) - label_target) * label_size + label_size ≤ length labels.now) }
    ensures { answer_of result ≡ why_no_rela arch labels.now (reloc_at relocs.now i) }
{
    let k = i * buffer::RELOC_WORDS;
    if types::elf_type(arch, words::word_at(relocs, k + 1)) == types::NO_TYPE {
        return Err(Refusal::NoElfType);
    }
    let offset = target_offset(labels, words::word_at(relocs, k + 2));
    if leaves_signed(addend_at(relocs, i), offset) {
        return Err(Refusal::AddendOverflow);
    }
    Ok(())
}

// The first of these numbers, of the first `n` entries.
fn why_no_relas(arch: u32, labels: &[u8], relocs: &[u8], n: usize) -> Result<(), Refusal>
    requires relocs_within { n * reloc_size ≤ length relocs.now }
    requires targets_named { TargetsNamed relocs.now n labels.now }
    ensures { answer_of result ≡ why_no_relas arch labels.now relocs.now n }
{
    for i in 0..n {
        why_no_rela(arch, labels, relocs, i)?;
    }
    Ok(())
}

fn relocs_fit(code: CodeBufferFinalized, labels: &[u8], relocs: &[u8]) -> bool
    ensures { result ≡ relocs_fit code labels.now relocs.now }
{
    code.labels as usize <= labels.len() / buffer::LABEL_SIZE
        && code.relocs as usize <= relocs.len() / buffer::RELOC_SIZE
        && all_targets_bound(labels, code.labels, relocs, code.relocs as usize)
}

fn within_limits(labels: &[u8], relocs: &[u8]) -> bool
    ensures { result ≡ within_limits labels.now relocs.now }
{
    labels.len() / buffer::LABEL_SIZE <= buffer::MOST_ENTRIES
        && relocs.len() / buffer::RELOC_SIZE <= buffer::MOST_ENTRIES
}

// 1, 3, and 24 of the architecture.
fn why_unfit(code: CodeBufferFinalized, labels: &[u8], relocs: &[u8]) -> Result<(), Refusal>
    ensures { answer_of result ≡ why_unfit code labels.now relocs.now }
{
    if !relocs_fit(code, labels, relocs) {
        return Err(Refusal::Malformed);
    }
    if !within_limits(labels, relocs) {
        return Err(Refusal::PastLimit);
    }
    if !types::has_types(code.arch) {
        return Err(Refusal::NoElfType);
    }
    Ok(())
}

pub fn why_not_written(
    code: CodeBufferFinalized,
    labels: &[u8],
    relocs: &[u8],
    room: usize,
) -> Result<(), Refusal>
    ensures { answer_of result ≡ why_not_written code labels.now relocs.now room }
{
    why_unfit(code, labels, relocs)?;
    let n = code.relocs as usize;
    why_no_relas(code.arch, labels, relocs, n)?;
    if room < n * RELA_SIZE {
        return Err(Refusal::ElfOutputTooSmall);
    }
    Ok(())
}

// The symbol of a target: its own number, or `section` where it is a label's.
fn symbol_of(target: u32, section: u32) -> u32
    ensures { result ≡ pick (nat_lt target label_target) target section }
{
    if target < buffer::LABEL_TARGET {
        target
    } else {
        section
    }
}

// Relocation `i` as an entry.
fn rela_of(arch: u32, labels: &[u8], section: u32, relocs: &[u8], i: usize) -> Rela
    requires relocs_within { i * reloc_size + reloc_size ≤ length relocs.now }
    requires labels_within { (label_target ≤ word_at relocs.now (i * reloc_words + 2) → (word_at relocs.now (i * reloc_words + 2) - label_target) * label_size + label_size ≤ length labels.now) }
    ensures { result ≡ rela_of arch labels.now section (reloc_at relocs.now i) }
{
    let k = i * buffer::RELOC_WORDS;
    let target = words::word_at(relocs, k + 2);
    let offset = target_offset(labels, target);
    let addend = addend_at(relocs, i);
    Rela {
        offset: words::word_at(relocs, k),
        elf_type: types::elf_type(arch, words::word_at(relocs, k + 1)),
        symbol: symbol_of(target, section),
        addend: addend.wrapping_add(u64::from(offset)),
    }
}

// Makes entry `i` of `output`.
fn put_rela(output: &mut [u8], i: usize, rela: Rela)
    requires { i * rela_size + rela_size ≤ length output.old }
    ensures { output.new ≡ over output.old (i * rela_size) (bytes_of_all (words_of_rela rela)) }
{
    let k = i * RELA_WORDS;
    words::put_word(output, k, rela.offset);
    words::put_word(output, k + 1, 0);
    words::put_word(output, k + 2, rela.elf_type);
    words::put_word(output, k + 3, rela.symbol);
    words::put_word(output, k + 4, (rela.addend % 4294967296) as u32);
    words::put_word(output, k + 5, (rela.addend / 4294967296) as u32);
}

// Writes the first `n` relocations.
pub fn put_relas(output: &mut [u8], arch: u32, labels: &[u8], section: u32, relocs: &[u8], n: usize)
    requires output_within { n * rela_size ≤ length output.old }
    requires relocs_within { n * reloc_size ≤ length relocs.now }
    requires targets_named { TargetsNamed relocs.now n labels.now }
    ensures { output.new ≡ over_words output.old (words_of_relas arch labels.now section relocs.now n) }
{
    for i in 0..n {
        put_rela(output, i, rela_of(arch, labels, section, relocs, i));
    }
}
