// From entries of ELF to a table of offsets, types, symbols and addends.
ghost use Rattle.std.specs.Prelude.{◌≡◌, ◌+◌, ◌*◌, ◌≤◌, length};
ghost use Rattle.seqs.specs.Every.{all};
ghost use Rattle.words.specs.Words.{over_words};
ghost use Rattle.buffer.specs.Tables.{reloc_size};
ghost use Rattle.refusals.specs.Answers.{answer_of};
ghost use Rattle.elf.specs.Elf.{rela_size, rela_at, readable, relas_fit, why_not_read, words_of_entries};

use crate::{RELA_SIZE, RELA_WORDS, Rela, addend_at, types};
use refusals::Refusal;

// Whether entry `i` has an offset of 32 bits, and a type that is listed.
fn is_readable(relas: &[u8], i: usize) -> bool
    requires { i * rela_size + rela_size ≤ length relas.now }
    ensures { result ≡ readable relas.now i }
{
    let k = i * RELA_WORDS;
    words::word_at(relas, k + 1) == 0 && types::is_listed(words::word_at(relas, k + 2))
}

fn all_readable(relas: &[u8], n: usize) -> bool
    requires { n * rela_size ≤ length relas.now }
    ensures { result ≡ all (readable relas.now) n }
{
    (0..n).all(|i| is_readable(relas, i))
}

fn relas_fit(relas: &[u8]) -> bool
    ensures { result ≡ relas_fit relas.now }
{
    relas.len() % RELA_SIZE == 0 && all_readable(relas, relas.len() / RELA_SIZE)
}

// `room` is how many entries the table has room for.
pub fn why_not_read(relas: &[u8], room: usize) -> Result<(), Refusal>
    ensures { answer_of result ≡ why_not_read relas.now room }
{
    if !relas_fit(relas) {
        return Err(Refusal::Malformed);
    }
    if buffer::MOST_ENTRIES < room {
        return Err(Refusal::PastLimit);
    }
    if room < relas.len() / RELA_SIZE {
        return Err(Refusal::TableFull);
    }
    Ok(())
}

fn rela_at(relas: &[u8], i: usize) -> Rela
    requires { i * rela_size + rela_size ≤ length relas.now }
    ensures { result ≡ rela_at relas.now i }
{
    let k = i * RELA_WORDS;
    Rela {
        offset: words::word_at(relas, k),
        elf_type: words::word_at(relas, k + 2),
        symbol: words::word_at(relas, k + 3),
        addend: addend_at(relas, i),
    }
}

// Reads the first `n` entries into `table`.
pub fn put_entries(table: &mut [u8], relas: &[u8], n: usize)
    requires table_within { n * reloc_size ≤ length table.old }
    requires relas_within { n * rela_size ≤ length relas.now }
    ensures { table.new ≡ over_words table.old (words_of_entries relas.now n) }
{
    for i in 0..n {
        let rela = rela_at(relas, i);
        buffer::relocs::put_reloc(
            table,
            i,
            rela.offset,
            rela.elf_type,
            rela.symbol,
            rela.addend,
        );
    }
}
