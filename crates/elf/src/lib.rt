// A finished record's relocations as ELF's Elf64_Rela entries, for the system's linker, and back.
#![tactic(auto)]

ghost use Rattle.std.specs.Prelude.{◌≡◌, ◌+◌, ◌*◌, ◌≤◌, length};
ghost use Rattle.recording.specs.View.{reloc_at};
ghost use Rattle.refusals.specs.Answers.{answer_of};
ghost use Rattle.elf.specs.Elf.{rela_size, rela_at, write_relas, read_relas};

use finish::CodeBufferFinalized;
use refusals::Refusal;

mod read;
mod types;
mod write;

// An entry, in words and in bytes: r_offset, r_info (the type, then the symbol) and r_addend, low words first.
const RELA_WORDS: usize = 6;

const RELA_SIZE: usize = 24;

// What an entry says. The addend is a 64-bit two's complement word.
#[derive(Clone, Copy)]
pub struct Rela {
    pub offset: u32,
    pub elf_type: u32,
    pub symbol: u32,
    pub addend: u64,
}

// The addend of entry `i`: of an Elf64_Rela, or of a relocation as the tables have it, which is of six words with the addend last too.
fn addend_at(entries: &[u8], i: usize) -> u64
    requires { i * rela_size + rela_size ≤ length entries.now }
    ensures { (result ≡ (rela_at entries.now i).addend) × (result ≡ (reloc_at entries.now i).addend) }
{
    let k = i * RELA_WORDS;
    words::word_at(entries, k + 4) as u64 + words::word_at(entries, k + 5) as u64 * 4294967296
}

// Writes an entry for each relocation to `output`, in recorded order. `labels` and `relocs` are the tables that finish left with the record; a label
// target becomes the symbol `section`, its offset added to the addend.
pub fn write_relas(
    code: CodeBufferFinalized,
    labels: &[u8],
    relocs: &[u8],
    section: u32,
    output: &mut [u8],
) -> Result<(), Refusal>
    ensures { (answer_of result, output.new) ≡ write_relas code labels.now relocs.now section output.old }
{
    write::why_not_written(code, labels, relocs, output.len())?;
    write::put_relas(
        output,
        code.arch,
        labels,
        section,
        relocs,
        code.relocs as usize,
    );
    Ok(())
}

// Takes entries back to offset, type, symbol and addend: a table of relocations, with types in the place of kinds.
pub fn read_relas(relas: &[u8], table: &mut [u8]) -> Result<(), Refusal>
    ensures { (answer_of result, table.new) ≡ read_relas relas.now table.old }
{
    read::why_not_read(relas, table.len() / buffer::RELOC_SIZE)?;
    read::put_entries(table, relas, relas.len() / RELA_SIZE);
    Ok(())
}
