// Why pieces are not joined: the refusals in their order.
ghost use Rattle.std.specs.Prelude.{◌≡◌, ℕ, List};
ghost use Rattle.refusals.specs.Answers.{answer_of};
ghost use Rattle.join.specs.Pieces.{lent_of, piece_count, sums_fit};
ghost use Rattle.join.specs.Join.{lent_fits, why_unfit, why_undefined, why_no_table, why_no_field, why_no_output, why_no_room, why_not_joined};
ghost use Rattle.join.specs.steps.Tables.{Settled};

use crate::pieces::PlacedPiece;
use crate::symbols::Resolver;
use crate::{
    AsmReloc, Cursor, DEFINITION_SIZE, LAST_PLACE, PIECE_SIZE, labels, pieces, relocs, symbols,
};
use refusals::Refusal;

const MOST_PIECES: usize = 256;

// Whether no sum passes what is lent.
fn sums_fit(sum: Cursor, code: &[u8], labels: &[u8], relocs: &[u8], definitions: &[u8]) -> bool
    ensures { (pieces : List ℕ) → result ≡ sums_fit (lent_of pieces code.now labels.now relocs.now definitions.now) sum }
{
    sum.code <= code.len()
        && sum.labels <= labels.len() / buffer::LABEL_SIZE
        && sum.relocs <= relocs.len() / buffer::RELOC_SIZE
        && sum.definitions <= definitions.len() / DEFINITION_SIZE
}

// 1.
fn lent_fits(pieces: &[u8], code: &[u8], labels: &[u8], relocs: &[u8], definitions: &[u8]) -> bool
    ensures { result ≡ lent_fits (lent_of pieces.now code.now labels.now relocs.now definitions.now) }
{
    let n = pieces.len() / PIECE_SIZE;
    if n == 0 || MOST_PIECES < n || !pieces::pieces_fit(pieces, n) {
        return false;
    }
    let known = |placed: PlacedPiece, reloc: AsmReloc| {
        relocs::is_filled(placed.piece.arch, reloc) || relocs::is_label_known(placed.piece, reloc)
    };
    sums_fit(pieces::sum(pieces, n), code, labels, relocs, definitions)
        && relocs::all_hold(known, pieces, relocs, n)
}

// 1, 3 and 27.
fn unfit(
    pieces: &[u8],
    code: &[u8],
    labels: &[u8],
    relocs: &[u8],
    definitions: &[u8],
) -> Result<(), Refusal>
    ensures { answer_of result ≡ why_unfit (lent_of pieces.now code.now labels.now relocs.now definitions.now) }
{
    if !lent_fits(pieces, code, labels, relocs, definitions) {
        return Err(Refusal::Malformed);
    }
    let n = pieces.len() / PIECE_SIZE;
    if !pieces::within_limits(pieces, n) {
        return Err(Refusal::PastLimit);
    }
    if !pieces::same_arch(pieces, n) {
        return Err(Refusal::ArchitecturesDiffer);
    }
    Ok(())
}

// 28 and 29. Where there is neither, the table is settled.
fn undefined<'a>(
    table: &'a mut [u64],
    pieces: &'a [u8],
    code: &[u8],
    labels: &'a [u8],
    relocs: &[u8],
    definitions: &'a [u8],
) -> Result<(), Refusal>
    requires fits { why_unfit (lent_of pieces.now code.now labels.now relocs.now definitions.now) ≡ 0 }
    requires settled { Settled table.old pieces.now labels.now definitions.now 0 }
    ensures { (answer_of result ≡ why_undefined (lent_of pieces.now code.now labels.now relocs.now definitions.now)) × (answer_of result ≡ 0 → Settled table.new pieces.now labels.now definitions.now (piece_count pieces.now)) }
{
    let n = pieces.len() / PIECE_SIZE;
    if !symbols::settle(table, pieces, labels, definitions, n) {
        return Err(Refusal::SymbolDefinedTwice);
    }
    let resolver = Resolver {
        table,
        pieces,
        labels,
        definitions,
        count: n,
    };
    let defined = |placed: PlacedPiece, reloc: AsmReloc| {
        !relocs::is_filled(placed.piece.arch, reloc)
            || symbols::FIRST_PLACE <= resolver.known(reloc.target)
    };
    if !relocs::all_hold(defined, pieces, relocs, n) {
        return Err(Refusal::SymbolUndefined);
    }
    Ok(())
}

// 11.
fn no_table(
    pieces: &[u8],
    code: &[u8],
    labels: &[u8],
    relocs: &[u8],
    definitions: &[u8],
    joined_labels: usize,
    joined_relocs: usize,
) -> Result<(), Refusal>
    requires { why_unfit (lent_of pieces.now code.now labels.now relocs.now definitions.now) ≡ 0 }
    ensures { answer_of result ≡ why_no_table (lent_of pieces.now code.now labels.now relocs.now definitions.now) joined_labels joined_relocs }
{
    let n = pieces.len() / PIECE_SIZE;
    let sum = pieces::sum(pieces, n);
    if joined_labels / buffer::LABEL_SIZE < sum.labels
        || joined_relocs / buffer::RELOC_SIZE < relocs::count_remaining(pieces, relocs, n)
    {
        return Err(Refusal::TableFull);
    }
    Ok(())
}

// 17 and 18.
fn no_field(
    table: &[u64],
    pieces: &[u8],
    code: &[u8],
    labels: &[u8],
    relocs: &[u8],
    definitions: &[u8],
) -> Result<(), Refusal>
    requires fits { why_unfit (lent_of pieces.now code.now labels.now relocs.now definitions.now) ≡ 0 }
    requires settled { Settled table.now pieces.now labels.now definitions.now (piece_count pieces.now) }
    ensures { answer_of result ≡ why_no_field (lent_of pieces.now code.now labels.now relocs.now definitions.now) }
{
    let n = pieces.len() / PIECE_SIZE;
    let inside = |placed: PlacedPiece, reloc: AsmReloc| {
        !relocs::is_filled(placed.piece.arch, reloc) || relocs::lies_inside(placed.piece, reloc)
    };
    if !relocs::all_hold(inside, pieces, relocs, n) {
        return Err(Refusal::RefOverlaps);
    }
    let resolver = Resolver {
        table,
        pieces,
        labels,
        definitions,
        count: n,
    };
    let reaches = |placed: PlacedPiece, reloc: AsmReloc| {
        !relocs::is_filled(placed.piece.arch, reloc)
            || {
                let known = resolver.known(reloc.target);
                relocs::fits_32(relocs::value(known, placed, reloc))
            }
    };
    if !relocs::all_hold(reaches, pieces, relocs, n) {
        return Err(Refusal::RefOutOfReach);
    }
    Ok(())
}

// 23.
fn no_output(
    pieces: &[u8],
    code: &[u8],
    labels: &[u8],
    relocs: &[u8],
    definitions: &[u8],
    output: usize,
) -> Result<(), Refusal>
    requires { why_unfit (lent_of pieces.now code.now labels.now relocs.now definitions.now) ≡ 0 }
    ensures { answer_of result ≡ why_no_output (lent_of pieces.now code.now labels.now relocs.now definitions.now) output }
{
    let n = pieces.len() / PIECE_SIZE;
    let sum = pieces::sum(pieces, n);
    let moves = |placed: PlacedPiece, reloc: AsmReloc| {
        relocs::is_filled(placed.piece.arch, reloc) || relocs::moves(placed, reloc)
    };
    if LAST_PLACE < sum.end
        || output < sum.end as usize
        || !labels::all_labels_move(pieces, labels, n)
        || !relocs::all_hold(moves, pieces, relocs, n)
    {
        return Err(Refusal::OutputTooSmall);
    }
    Ok(())
}

// 11, 17, 18 and 23.
fn no_room(
    table: &[u64],
    pieces: &[u8],
    code: &[u8],
    labels: &[u8],
    relocs: &[u8],
    definitions: &[u8],
    output: usize,
    joined_labels: usize,
    joined_relocs: usize,
) -> Result<(), Refusal>
    requires fits { why_unfit (lent_of pieces.now code.now labels.now relocs.now definitions.now) ≡ 0 }
    requires settled { Settled table.now pieces.now labels.now definitions.now (piece_count pieces.now) }
    ensures { answer_of result ≡ why_no_room (lent_of pieces.now code.now labels.now relocs.now definitions.now) output joined_labels joined_relocs }
{
    no_table(
        pieces,
        code,
        labels,
        relocs,
        definitions,
        joined_labels,
        joined_relocs,
    )?;
    no_field(table, pieces, code, labels, relocs, definitions)?;
    no_output(pieces, code, labels, relocs, definitions, output)
}

// All of them. Where there is none, the table is settled.
pub fn not_joined(
    table: &mut [u64],
    pieces: &[u8],
    code: &[u8],
    labels: &[u8],
    relocs: &[u8],
    definitions: &[u8],
    output: usize,
    joined_labels: usize,
    joined_relocs: usize,
) -> Result<(), Refusal>
    requires { Settled table.old pieces.now labels.now definitions.now 0 }
    ensures { (answer_of result ≡ why_not_joined (lent_of pieces.now code.now labels.now relocs.now definitions.now) output joined_labels joined_relocs) × (answer_of result ≡ 0 → Settled table.new pieces.now labels.now definitions.now (piece_count pieces.now)) }
{
    unfit(pieces, code, labels, relocs, definitions)?;
    undefined(table, pieces, code, labels, relocs, definitions)?;
    no_room(
        table,
        pieces,
        code,
        labels,
        relocs,
        definitions,
        output,
        joined_labels,
        joined_relocs,
    )
}
