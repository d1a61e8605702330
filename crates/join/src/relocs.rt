// Relocations: which are filled and with what, and what is asked of each.
ghost use Rattle.std.specs.Prelude.{◌≡◌, ℕ, ◌+◌, ◌-◌, ◌*◌, ◌<◌, ◌≤◌, true, not, ◌||◌, length, nat_le, nat_lt};
ghost use Rattle.seqs.specs.Counting.{one};
ghost use Rattle.fields.specs.Words64.{minus};
ghost use Rattle.buffer.specs.State.{label_target};
ghost use Rattle.buffer.specs.Tables.{reloc_size};
ghost use Rattle.join.specs.Pieces.{base_of};
ghost use Rattle.join.specs.Symbols.{first_place, find};
ghost use Rattle.join.specs.Join.{Test, is_filled, reloc_of, value, fits32, field_size, last_place, filled_holds, remaining_holds, holds, relocs_hold, all_hold, count_remaining_in, count_remaining};
ghost use Rattle.join.specs.steps.Within.{RelocsIn, Relocations};
ghost use Rattle.join.specs.steps.Asking.{Callable, Asks};

use crate::pieces::PlacedPiece;
use crate::{AsmReloc, LAST_PLACE, Piece, pieces, symbols};

// The kinds that are filled: X86PCRel4, X86CallPCRel4 and X86CallPLTRel4.
const FIRST_FILLED: u32 = 2;

const LAST_FILLED: u32 = 4;

// The bytes of a field that is filled.
pub const FIELD_SIZE: usize = 4;

// Relocation `i` of all.
pub fn reloc_at(relocs: &[u8], i: usize) -> AsmReloc
    requires { i * reloc_size + reloc_size ≤ length relocs.now }
    ensures { result ≡ reloc_of relocs.now i }
{
    let k = i * buffer::RELOC_WORDS;
    AsmReloc {
        offset: words::word_at(relocs, k),
        kind: words::word_at(relocs, k + 1),
        target: words::word_at(relocs, k + 2),
        addend: words::word_at(relocs, k + 4) as u64
            + words::word_at(relocs, k + 5) as u64 * 4294967296,
    }
}

pub fn is_filled(arch: u32, reloc: AsmReloc) -> bool
    ensures { result ≡ is_filled arch reloc }
{
    arch == fields::X64
        && reloc.target < buffer::LABEL_TARGET
        && FIRST_FILLED <= reloc.kind
        && reloc.kind <= LAST_FILLED
}

// The symbol's place plus the addend, less the field's own place.
pub fn value(known: u64, placed: PlacedPiece, reloc: AsmReloc) -> u64
    ensures { result ≡ value known placed.piece placed.cursor reloc }
{
    let symbol = known.saturating_sub(symbols::FIRST_PLACE);
    let place = placed.base() + reloc.offset as u64;
    symbol.wrapping_add(reloc.addend).wrapping_sub(place)
}

// Whether a 64-bit two's complement word fits 32 bits, signed.
pub fn fits_32(value: u64) -> bool
    ensures { result ≡ fits32 value }
{
    value.wrapping_add(2147483648) <= 4294967295
}

pub fn is_label_known(piece: Piece, reloc: AsmReloc) -> bool
    ensures { result ≡ (nat_lt reloc.target label_target || nat_lt (reloc.target - label_target) piece.labels) }
{
    reloc.target < buffer::LABEL_TARGET || reloc.target - buffer::LABEL_TARGET < piece.labels
}

pub fn lies_inside(piece: Piece, reloc: AsmReloc) -> bool
    ensures { result ≡ nat_le (reloc.offset + field_size) piece.len }
{
    reloc.offset as usize + FIELD_SIZE <= piece.len as usize
}

pub fn moves(placed: PlacedPiece, reloc: AsmReloc) -> bool
    ensures { result ≡ nat_le (base_of placed.piece placed.cursor + reloc.offset) last_place }
{
    placed.base() + reloc.offset as u64 <= LAST_PLACE
}

// Whether `test` holds of every relocation of a piece.
fn relocs_hold<F: Fn(PlacedPiece, AsmReloc) -> bool>(
    test: &F,
    relocs: &[u8],
    placed: PlacedPiece,
) -> bool
    requires relocs_in { RelocsIn relocs.now placed.piece placed.cursor }
    requires callable { Callable (F.pre test.now) }
    ensures { (asked : Test) (known : ℕ → ℕ) → Asks (F.post test.now) asked known → result ≡ relocs_hold asked known relocs.now placed.piece placed.cursor placed.piece.relocs }
{
    (0..placed.piece.relocs as usize).all(|j| test(
        placed,
        reloc_at(relocs, placed.cursor.relocs + j),
    ))
}

// Whether it holds of every relocation of the `n` pieces.
pub fn all_hold<F: Fn(PlacedPiece, AsmReloc) -> bool>(
    test: F,
    pieces: &[u8],
    relocs: &[u8],
    n: usize,
) -> bool
    requires relocations { Relocations pieces.now relocs.now n }
    requires callable { Callable (F.pre test) }
    ensures { (asked : Test) (known : ℕ → ℕ) → Asks (F.post test) asked known → result ≡ all_hold asked known pieces.now relocs.now n }
{
    let mut cursor = pieces::START;
    for k in 0..n {
        let piece = pieces::piece_at(pieces, k);
        let placed = PlacedPiece { piece, cursor };
        if !relocs_hold(&test, relocs, placed) {
            return false;
        }
        cursor = placed.after();
    }
    true
}

// How many relocations of a piece remain.
fn count_remaining_in(relocs: &[u8], placed: PlacedPiece) -> usize
    requires relocs_in { RelocsIn relocs.now placed.piece placed.cursor }
    ensures { result ≡ count_remaining_in relocs.now placed.piece placed.cursor placed.piece.relocs }
{
    let mut count: usize = 0;
    for j in 0..placed.piece.relocs as usize {
        if !is_filled(
            placed.piece.arch,
            reloc_at(relocs, placed.cursor.relocs + j),
        ) {
            count += 1;
        }
    }
    count
}

// How many relocations of the first `n` pieces remain.
pub fn count_remaining(pieces: &[u8], relocs: &[u8], n: usize) -> usize
    requires { Relocations pieces.now relocs.now n }
    ensures { result ≡ count_remaining pieces.now relocs.now n }
{
    let mut count: usize = 0;
    let mut cursor = pieces::START;
    for k in 0..n {
        let piece = pieces::piece_at(pieces, k);
        let placed = PlacedPiece { piece, cursor };
        count += count_remaining_in(relocs, placed);
        cursor = placed.after();
    }
    count
}
