// Why a call refuses, and the number of each reason: 0 is none. Where several apply, a recorded one comes first once `Malformed` is past, then the lowest;
// 24 on have the order of their calls.
#![tactic(auto)]

ghost use Rattle.std.specs.Prelude.{◌≡◌, leb};
ghost use Rattle.refusals.specs.Numbers.{unsupported_use};
ghost use Rattle.refusals.specs.Answers.{number_of, answer_of, Numbered};

#[derive(Clone, Copy)]
pub enum Refusal {
    // A sheet, an argument, a count or a table's entry that breaks its form.
    Malformed = 1,
    // Start names an architecture other than X86, X64 and AArch64.
    UnknownArch = 2,
    // A call is lent more than a limit.
    PastLimit = 3,
    // The recording has finished.
    AlreadyFinished = 4,
    // An alignment is no power of two, or exceeds 4,096.
    BadAlignment = 5,
    // A use has the code that has no field.
    UnsupportedUse = 6,
    // A use, ref or relocation has a kind foreign to the architecture.
    ForeignKind = 7,
    // A label, constant or symbol number is unknown.
    UnknownNumber = 8,
    // The label is bound already.
    AlreadyBound = 9,
    // A jump, a relocation's offset or a constant that no entry may hold.
    BadEntry = 10,
    // A table that the call must extend is full.
    TableFull = 11,
    // Bytes or padding pass the lent code's end.
    CodeFull = 12,
    // A pooled constant's label was bound by the caller.
    PoolLabelBound = 13,
    // Code with pool exceeds the limit.
    PoolTooLarge = 14,
    // A use, label relocation, ref or jump names an unbound label.
    UnboundLabel = 15,
    // With a jump, the segment table is short.
    TooFewSegments = 16,
    // With a jump, a ref's field passes the pooled code's end, or overlaps an event; joining, a field that is filled passes its piece's end.
    RefOverlaps = 17,
    // With a jump, a ref can't reach its label plus addend; joining, a field can't reach its symbol plus addend.
    RefOutOfReach = 18,
    // Without a jump, a use's field passes the pooled code's end.
    UsePastEnd = 19,
    // Without a jump, an AArch64 branch can't reach.
    BranchOutOfReach = 20,
    // Another use can't reach a label at or after it.
    LabelTooFarAhead = 21,
    // Another use can't reach a label before it.
    LabelTooFarBack = 22,
    // The finished code exceeds the lent output; joining, the whole does, or an offset in it exceeds 32 bits.
    OutputTooSmall = 23,
    // ELF has no type here for a relocation's kind, or none for the architecture.
    NoElfType = 24,
    // A relocation's addend plus its label's offset leaves signed 64 bits.
    AddendOverflow = 25,
    // The entries of ELF exceed the lent output.
    ElfOutputTooSmall = 26,
    // Pieces that are to be joined have different architectures.
    ArchitecturesDiffer = 27,
    // Two definitions have one symbol.
    SymbolDefinedTwice = 28,
    // A field is to be filled with a symbol that nothing defines, or an unknown or unbound label.
    SymbolUndefined = 29,
}

impl Refusal {
    pub fn number(self) -> u32
        ensures { result ≡ number_of self }
    {
        self as u32
    }

    // Whether a recording call keeps it, but for a bind's: the numbers from 6 on.
    pub fn is_recorded(self) -> bool
        ensures { result ≡ leb unsupported_use (number_of self) }
    {
        Refusal::UnsupportedUse.number() <= self.number()
    }
}

// A number that is no refusal's.
#[derive(Clone, Copy)]
pub struct NoRefusal;

impl TryFrom<u32> for Refusal {
    type Error = NoRefusal;

    ghost try_from_gives = { Numbered };

    fn try_from(number: u32) -> Result<Refusal, NoRefusal> {
        match number {
            1 => Ok(Refusal::Malformed),
            2 => Ok(Refusal::UnknownArch),
            3 => Ok(Refusal::PastLimit),
            4 => Ok(Refusal::AlreadyFinished),
            5 => Ok(Refusal::BadAlignment),
            6 => Ok(Refusal::UnsupportedUse),
            7 => Ok(Refusal::ForeignKind),
            8 => Ok(Refusal::UnknownNumber),
            9 => Ok(Refusal::AlreadyBound),
            10 => Ok(Refusal::BadEntry),
            11 => Ok(Refusal::TableFull),
            12 => Ok(Refusal::CodeFull),
            13 => Ok(Refusal::PoolLabelBound),
            14 => Ok(Refusal::PoolTooLarge),
            15 => Ok(Refusal::UnboundLabel),
            16 => Ok(Refusal::TooFewSegments),
            17 => Ok(Refusal::RefOverlaps),
            18 => Ok(Refusal::RefOutOfReach),
            19 => Ok(Refusal::UsePastEnd),
            20 => Ok(Refusal::BranchOutOfReach),
            21 => Ok(Refusal::LabelTooFarAhead),
            22 => Ok(Refusal::LabelTooFarBack),
            23 => Ok(Refusal::OutputTooSmall),
            24 => Ok(Refusal::NoElfType),
            25 => Ok(Refusal::AddendOverflow),
            26 => Ok(Refusal::ElfOutputTooSmall),
            27 => Ok(Refusal::ArchitecturesDiffer),
            28 => Ok(Refusal::SymbolDefinedTwice),
            29 => Ok(Refusal::SymbolUndefined),
            _ => Err(NoRefusal),
        }
    }
}

// What a call answers: 0, or the refusal's number.
pub fn answer_of(outcome: Result<(), Refusal>) -> u32
    ensures { result ≡ answer_of outcome }
{
    match outcome {
        Ok(()) => 0,
        Err(refusal) => refusal.number(),
    }
}
