// Relocations. An entry is offset, kind, target, 0, and the addend's two halves, low first.
ghost use Rattle.std.specs.Prelude.{◌≡◌, ◌+◌, ◌*◌, ◌/◌, ◌%◌, ◌≤◌, length, get_or};
ghost use Rattle.words.specs.Words.{set_word};
ghost use Rattle.refusals.specs.Answers.{answer_of};
ghost use Rattle.buffer.specs.State.{recorded};
ghost use Rattle.buffer.specs.Refusals.{reloc_archs, foreign_reloc, target_known, why_reloc};
ghost use Rattle.buffer.specs.Calls.{add_reloc};
ghost use Rattle.buffer.specs.Tables.{reloc_words, reloc_size};

use crate::open::target_opened;
use crate::{
    CodeBuffer, LABEL_SIZE, LABEL_TARGET, LAST_OFFSET, LAST_RELOC, MOST_ENTRIES, RELOC_SIZE,
    RELOC_WORDS, Recorded,
};
use refusals::Refusal;

// The architecture of each kind: 0 any, 1 X86 and X64, 2 AArch64, 3 none here.
const ARCHS: [u8; 28] = [
    0, 0, 1, 1, 1, 1, 1, 3, 2, 1, 1, 2, 2, 2, 2, 2, 2, 2, 2, 2, 2, 2, 3, 3, 3, 3, 3, 3,
];

// What `ARCHS` says of the kind; 3 past its end.
fn arch_of_kind(kind: u32) -> u8
    ensures { result ≡ get_or reloc_archs kind 3 }
{
    ARCHS.get(kind as usize).copied().unwrap_or(3)
}

#[tactic(auto, using(seqs::proofs::Picking::picks), unfolding(crate::specs::Refusals::foreign_reloc))]
pub fn is_foreign_kind(kind: u32, arch: u32) -> bool
    ensures { result ≡ foreign_reloc kind arch }
{
    match arch_of_kind(kind) {
        0 => false,
        1 => arch != fields::X86 && arch != fields::X64,
        2 => arch != fields::AARCH64,
        _ => true,
    }
}

// Makes entry `i` of `relocs`.
pub fn put_reloc(relocs: &mut [u8], i: usize, offset: u32, kind: u32, target: u32, addend: u64)
    requires { i * reloc_size + reloc_size ≤ length relocs.old }
    ensures { relocs.new ≡ set_word (set_word (set_word (set_word (set_word (set_word relocs.old (i * reloc_words) offset) (i * reloc_words + 1) kind) (i * reloc_words + 2) target) (i * reloc_words + 3) 0) (i * reloc_words + 4) (addend % 4294967296)) (i * reloc_words + 5) (addend / 4294967296) }
{
    let k = i * RELOC_WORDS;
    words::put_word(relocs, k, offset);
    words::put_word(relocs, k + 1, kind);
    words::put_word(relocs, k + 2, target);
    words::put_word(relocs, k + 3, 0);
    words::put_word(relocs, k + 4, (addend % 4294967296) as u32);
    words::put_word(relocs, k + 5, (addend / 4294967296) as u32);
}

impl CodeBuffer {
    // A target is a symbol, or a label + 2^31.
    pub fn is_known(self, target: u32) -> bool
        ensures { result ≡ target_known self target }
    {
        if target < LABEL_TARGET {
            return target < self.symbols;
        }
        target - LABEL_TARGET < self.labels
    }

    // `known` labels are lent, and room for `room` relocations.
    fn why_no_reloc(
        self,
        known: usize,
        room: usize,
        offset: u32,
        kind: u32,
        target: u32,
    ) -> Result<(), Refusal>
        ensures { answer_of result ≡ why_reloc self known room offset kind target }
    {
        let n = self.relocs as usize;
        self.standing(
            self.labels as usize <= known && (n <= room && kind <= LAST_RELOC),
            known <= MOST_ENTRIES && room <= MOST_ENTRIES,
        )?;
        if is_foreign_kind(kind, self.arch) {
            return Err(Refusal::ForeignKind);
        }
        if !self.is_known(target) {
            return Err(Refusal::UnknownNumber);
        }
        if LAST_OFFSET < offset {
            return Err(Refusal::BadEntry);
        }
        if room <= n {
            return Err(Refusal::TableFull);
        }
        Ok(())
    }

    // A relocation at `offset`; the addend is a 64-bit two's complement word. It is taken into its callers: it would be handed the counts in memory, and the
    // loop over a sheet's calls would store and load them for every call.
    #[inline(always)]
    pub fn add_reloc_at_offset(
        mut self,
        labels: &[u8],
        relocs: &mut [u8],
        offset: u32,
        kind: u32,
        target: u32,
        addend: u64,
    ) -> Recorded
        ensures { (recorded result, relocs.new) ≡ add_reloc self labels.now relocs.old offset kind target addend }
    {
        if let Err(why) = self.why_no_reloc(
            labels.len() / LABEL_SIZE,
            relocs.len() / RELOC_SIZE,
            offset,
            kind,
            target,
        ) {
            return self.turn_down(why);
        }
        put_reloc(relocs, self.relocs as usize, offset, kind, target, addend);
        self.relocs += 1;
        self.unresolved += target_opened(labels, target);
        Recorded {
            buffer: self,
            answer: Ok(()),
        }
    }
}
