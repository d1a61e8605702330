// `join`: several finished records become one. After asmkit's core/linker.rs (see NOTICE), whose layout it has; fields it fills itself.
#![tactic(auto)]

ghost use Rattle.std.specs.Prelude.{◌≡◌, ◌≤◌};
ghost use Rattle.join.specs.Pieces.{lent_of};
ghost use Rattle.join.specs.Join.{whole_record, joined_as, join};
ghost use Rattle.join.specs.steps.Tables.{many_symbols};
ghost use Rattle.join.specs.steps.Writes.{Whole};

use finish::CodeBufferFinalized;
use refusals::Refusal;
use symbols::Resolver;

mod labels;
mod pieces;
mod relocs;
mod symbols;
mod why;
mod write;

// Where the pieces before one end: in each slice that is lent, and in the whole.
#[derive(Clone, Copy)]
pub struct Cursor {
    pub code: usize,
    pub labels: usize,
    pub relocs: usize,
    pub definitions: usize,
    pub end: u64,
}

// What is lent of a piece, but for the number of layouts, which join does not look at.
#[derive(Clone, Copy)]
pub struct Piece {
    pub arch: u32,
    // Bytes of code.
    pub len: u32,
    pub alignment: u32,
    pub labels: u32,
    pub relocs: u32,
    pub definitions: u32,
}

// asmkit's record of that name. The target is a symbol, or a label + 2^31; the addend is a 64-bit two's complement word.
#[derive(Clone, Copy)]
pub struct AsmReloc {
    pub offset: u32,
    pub kind: u32,
    pub target: u32,
    pub addend: u64,
}

// The last offset of a label or a relocation of the whole, and its greatest length.
const LAST_PLACE: u64 = 4294967294;

// Bytes of a piece's entry, and of a definition.
const PIECE_SIZE: usize = 28;

const DEFINITION_SIZE: usize = 8;

// How many symbols a table has entries for: in general, and where at most `FEW_ENTRIES` relocations and definitions are lent.
const MANY_SYMBOLS: usize = 65536;

const FEW_SYMBOLS: usize = 256;

const FEW_ENTRIES: usize = 1024;

// The whole's record.
fn whole(pieces: &[u8], relocs: &[u8], n: usize) -> CodeBufferFinalized
    requires { Whole pieces.now relocs.now n }
    ensures { result ≡ whole_record pieces.now relocs.now n }
{
    let first = pieces::piece_at(pieces, 0);
    let sum = pieces::sum(pieces, n);
    CodeBufferFinalized {
        arch: first.arch,
        len: sum.end as u32,
        alignment: pieces::greatest_alignment(pieces, n),
        layouts: 0,
        labels: sum.labels as u32,
        relocs: relocs::count_remaining(pieces, relocs, n) as u32,
    }
}

// Joins, with a table for what is known of symbols, which is to stay out of the stack frames of the callers.
#[inline(never)]
fn join_by<const SYMBOLS: usize>(
    pieces: &[u8],
    code: &[u8],
    labels: &[u8],
    relocs: &[u8],
    definitions: &[u8],
    output: &mut [u8],
    joined_labels: &mut [u8],
    joined_relocs: &mut [u8],
) -> Result<CodeBufferFinalized, Refusal>
    requires { SYMBOLS ≤ many_symbols }
    ensures { (joined_as result, (output.new, (joined_labels.new, joined_relocs.new))) ≡ join (lent_of pieces.now code.now labels.now relocs.now definitions.now) output.old joined_labels.old joined_relocs.old }
{
    let mut table = [0u64; SYMBOLS];
    why::not_joined(
        &mut table,
        pieces,
        code,
        labels,
        relocs,
        definitions,
        output.len(),
        joined_labels.len(),
        joined_relocs.len(),
    )?;
    let n = pieces.len() / PIECE_SIZE;
    let resolver = Resolver {
        table: &table,
        pieces,
        labels,
        definitions,
        count: n,
    };
    write::put_pieces(
        output,
        joined_labels,
        joined_relocs,
        &resolver,
        code,
        relocs,
    );
    Ok(whole(pieces, relocs, n))
}

// Joins finished records. `pieces` has an entry for each; the code, labels, relocations and definitions of all of them follow one another in the next four. The
// whole's code, its labels and the relocations that remain are written to the last three.
pub fn join(
    pieces: &[u8],
    code: &[u8],
    labels: &[u8],
    relocs: &[u8],
    definitions: &[u8],
    output: &mut [u8],
    joined_labels: &mut [u8],
    joined_relocs: &mut [u8],
) -> Result<CodeBufferFinalized, Refusal>
    ensures { (joined_as result, (output.new, (joined_labels.new, joined_relocs.new))) ≡ join (lent_of pieces.now code.now labels.now relocs.now definitions.now) output.old joined_labels.old joined_relocs.old }
{
    let entries = definitions.len() / DEFINITION_SIZE + relocs.len() / buffer::RELOC_SIZE;
    if FEW_ENTRIES < entries {
        join_by::<MANY_SYMBOLS>(
            pieces,
            code,
            labels,
            relocs,
            definitions,
            output,
            joined_labels,
            joined_relocs,
        )
    } else {
        join_by::<FEW_SYMBOLS>(
            pieces,
            code,
            labels,
            relocs,
            definitions,
            output,
            joined_labels,
            joined_relocs,
        )
    }
}
