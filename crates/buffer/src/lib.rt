// `CodeBuffer`: a recording's counts, and the calls that record. After asmkit's core/buffer.rs (see NOTICE).
// The tables are lent by the caller as byte slices, whole entries of little-endian words; their lengths are their capacities.
#![tactic(auto)]

ghost use Rattle.std.specs.Prelude.{◌≡◌, ◌&&◌, leb};
ghost use Rattle.refusals.specs.Answers.{number_of, answer_of};
ghost use Rattle.buffer.specs.State.{keeps_events, turned_down, none_made, recorded, made_of};
ghost use Rattle.buffer.specs.Refusals.{arch_occurs, refusal_occurs, standing};
ghost use Rattle.buffer.specs.Calls.{started};
ghost use Rattle.buffer.specs.Tables.{most_open};

pub mod bytes;
mod constants;
pub mod jumps;
mod labels;
mod open;
pub mod relocs;
pub mod uses;

use refusals::Refusal;

// The offset of a label that is not bound, and the label of a constant that has none: words of tables that C lends, and so no Option.
pub const NONE: u32 = naming::UNBOUND;

// The limits: entries of a table, bytes of code, the last offset in it, bytes of a constant, the largest alignment.
pub const MOST_ENTRIES: usize = 65536;

pub const MOST_CODE: usize = 16777216;

pub const LAST_OFFSET: u32 = 16777215;

pub const MOST_CONSTANT: usize = 64;

pub const MOST_ALIGNMENT: u32 = 4096;

// The most bytes that an alignment may spend where nothing else is said: as many as the largest takes at most.
pub const DEFAULT_MOST: u32 = 4095;

// The most entries that may be open: uses, refs, events and relocations are `MOST_ENTRIES` each.
pub const MOST_OPEN: u32 = 262144;

// An entry of each table, in words and in bytes; `relax` has those of events. A constant's bytes come after its size and its label.
pub const LABEL_SIZE: usize = 4;

pub const USE_WORDS: usize = 3;

pub const USE_SIZE: usize = 12;

pub const REF_WORDS: usize = 4;

pub const REF_SIZE: usize = 16;

pub const CONSTANT_WORDS: usize = 18;

pub const CONSTANT_SIZE: usize = 72;

pub const CONSTANT_HEAD: usize = 8;

pub const ASKED_SIZE: usize = 4;

pub const RELOC_WORDS: usize = 6;

pub const RELOC_SIZE: usize = 24;

// The last kind of relocation, in the order of asmkit's `Reloc`.
pub const LAST_RELOC: u32 = 27;

// A relocation's target from here on is a label's: its number, and this.
pub const LABEL_TARGET: u32 = 1 << 31;

#[derive(Clone, Copy)]
pub struct CodeBuffer {
    // 1 X86, 2 X64, 6 AArch64.
    pub arch: u32,
    // How many symbols there are; their names stay with the host.
    pub symbols: u32,
    // 0 until the recording has finished.
    pub finished: u32,
    // The first refusal that was recorded, or 0.
    pub refusal: u32,
    // Bytes of code, and entries of each table.
    pub code: u32,
    pub labels: u32,
    pub events: u32,
    pub uses: u32,
    pub refs: u32,
    pub constants: u32,
    pub asked: u32,
    pub relocs: u32,
    // How many uses, refs, jumps and label relocations name a label that is not bound.
    pub unresolved: u32,
}

const EMPTY: CodeBuffer = CodeBuffer {
    arch: 0,
    symbols: 0,
    finished: 0,
    refusal: 0,
    code: 0,
    labels: 0,
    events: 0,
    uses: 0,
    refs: 0,
    constants: 0,
    asked: 0,
    relocs: 0,
    unresolved: 0,
};

// The recording after a call, and whether the call was turned down.
#[derive(Clone, Copy)]
pub struct Recorded {
    pub buffer: CodeBuffer,
    pub answer: Result<(), Refusal>,
}

// The same of a call for a label or a constant, with its number.
#[derive(Clone, Copy)]
pub struct Made {
    pub buffer: CodeBuffer,
    pub answer: Result<u32, Refusal>,
}

// The architectures that keep events and refs.
pub fn keeps_events(arch: u32) -> bool
    ensures { result ≡ keeps_events arch }
{
    arch == fields::X64
}

pub fn arch_occurs(arch: u32) -> bool
    ensures { result ≡ arch_occurs arch }
{
    arch == fields::X86 || arch == fields::X64 || arch == fields::AARCH64
}

fn refusal_occurs(n: u32) -> bool
    ensures { result ≡ refusal_occurs n }
{
    n == 0
        || Refusal::UnsupportedUse as u32 <= n
            && n <= Refusal::CodeFull as u32
            && n != Refusal::AlreadyBound as u32
}

impl CodeBuffer {
    // A recording with nothing in it.
    #[tactic(auto, using(seqs::proofs::Picking::picks), unfolding(crate::specs::Calls::started, crate::specs::Refusals::why_start))]
    pub fn new(arch: u32, symbols: u32) -> Recorded
        ensures { recorded result ≡ started arch symbols }
    {
        if !arch_occurs(arch) {
            return Recorded {
                buffer: EMPTY,
                answer: Err(Refusal::UnknownArch),
            };
        }
        Recorded {
            buffer: CodeBuffer {
                arch,
                symbols,
                ..EMPTY
            },
            answer: Ok(()),
        }
    }

    fn is_sound(self, fit: bool) -> bool
        ensures { result ≡ (arch_occurs self.arch && refusal_occurs self.refusal && leb self.unresolved most_open && fit) }
    {
        arch_occurs(self.arch)
            && refusal_occurs(self.refusal)
            && self.unresolved <= MOST_OPEN
            && fit
    }

    // What every call looks at first: 1, the recorded refusal, 3 or 4. `fit`: every count that can be compared with what is lent passes it
    // nowhere, and the arguments have their form. `within`: no limit is passed by what is lent.
    #[tactic(auto, using(refusals::proofs::Chains::chains, seqs::proofs::Picking::picks), unfolding(crate::specs::Refusals::standing))]
    pub fn standing(self, fit: bool, within: bool) -> Result<(), Refusal>
        ensures { answer_of result ≡ standing self fit within }
    {
        if !self.is_sound(fit) {
            return Err(Refusal::Malformed);
        }
        // The count is any number that C hands in; once it is sound, each but 0 is a refusal's.
        if self.refusal != 0 {
            return Err(Refusal::try_from(self.refusal).unwrap());
        }
        if !within {
            return Err(Refusal::PastLimit);
        }
        if self.finished != 0 {
            return Err(Refusal::AlreadyFinished);
        }
        Ok(())
    }

    // A call that is turned down: numbers from 6 on are recorded.
    #[tactic(auto, using(seqs::proofs::Picking::picks), unfolding(crate::specs::State::refusing))]
    pub(crate) fn turn_down(mut self, why: Refusal) -> Recorded
        ensures { recorded result ≡ turned_down self (number_of why) }
    {
        if why.is_recorded() {
            self.refusal = why.number();
        }
        Recorded {
            buffer: self,
            answer: Err(why),
        }
    }

    // The same of a call for a label or a constant.
    pub(crate) fn make_none(self, why: Refusal) -> Made
        ensures { made_of result ≡ none_made self (number_of why) }
    {
        Made {
            buffer: self.turn_down(why).buffer,
            answer: Err(why),
        }
    }
}
