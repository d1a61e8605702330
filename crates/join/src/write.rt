// The whole: the pieces' code with its fields filled, their labels and the relocations that remain.
ghost use Rattle.std.specs.Prelude.{◌≡◌, ◌+◌, ◌*◌, ◌<◌, ◌≤◌, true, not, ◌++◌, length, replicate};
ghost use Rattle.seqs.specs.Counting.{one};
ghost use Rattle.seqs.specs.Over.{over};
ghost use Rattle.words.specs.Words.{bytes_of, bytes_of_all, over_words};
ghost use Rattle.buffer.specs.Tables.{reloc_size};
ghost use Rattle.buffer.specs.State.{label_target};
ghost use Rattle.join.specs.Pieces.{gap, base_of, lent_of};
ghost use Rattle.join.specs.Symbols.{find};
ghost use Rattle.join.specs.Join.{Inside, field_size, is_filled, relocs_hold, piece_code, field_filled, filled_with, filled_code, moved_target, remaining_words, remaining_in, count_remaining_in, image, labels_joined, remaining};
ghost use Rattle.join.specs.steps.Within.{RelocsIn, CodeIn};
ghost use Rattle.join.specs.steps.Writes.{RelocMoves, RelocsMove, Joins};

use crate::pieces::PlacedPiece;
use crate::symbols::Resolver;
use crate::{AsmReloc, Cursor, labels, pieces, relocs};

fn put_field(part: &mut [u8], offset: usize, value: u32)
    requires { offset + field_size ≤ length part.old }
    ensures { part.new ≡ over part.old offset (bytes_of value) }
{
    words::put_word(&mut part[offset..offset + relocs::FIELD_SIZE], 0, value);
}

// Fills the field of a relocation in its piece's code, if it is one that is filled.
fn fill_field(part: &mut [u8], resolver: &Resolver, placed: PlacedPiece, reloc: AsmReloc)
    requires part_within { (is_filled placed.piece.arch reloc ≡ true → reloc.offset + field_size ≤ length part.old) }
    ensures { part.new ≡ field_filled (find resolver.now.pieces.now resolver.now.labels.now resolver.now.definitions.now resolver.now.count) placed.piece placed.cursor reloc part.old }
{
    if relocs::is_filled(placed.piece.arch, reloc) {
        let known = resolver.known(reloc.target);
        let value = relocs::value(known, placed, reloc);
        put_field(part, reloc.offset as usize, (value % 4294967296) as u32);
    }
}

// Fills the fields of a piece, in the order of its relocations.
fn fill_fields(part: &mut [u8], resolver: &Resolver, relocs: &[u8], placed: PlacedPiece)
    requires relocs_in { RelocsIn relocs.now placed.piece placed.cursor }
    requires part_length { length part.old ≡ placed.piece.len }
    requires relocs_hold { relocs_hold Inside (find resolver.now.pieces.now resolver.now.labels.now resolver.now.definitions.now resolver.now.count) relocs.now placed.piece placed.cursor placed.piece.relocs ≡ true }
    ensures { part.new ≡ filled_with (find resolver.now.pieces.now resolver.now.labels.now resolver.now.definitions.now resolver.now.count) relocs.now placed.piece placed.cursor part.old placed.piece.relocs }
{
    for j in 0..placed.piece.relocs as usize {
        let reloc = relocs::reloc_at(relocs, placed.cursor.relocs + j);
        fill_field(part, resolver, placed, reloc);
    }
}

// Writes a piece's code behind the zeros in front of it.
fn put_code(output: &mut [u8], code: &[u8], placed: PlacedPiece)
    requires code_in { CodeIn code.now placed.piece placed.cursor }
    requires output_within { base_of placed.piece placed.cursor + placed.piece.len ≤ length output.old }
    ensures { output.new ≡ over output.old placed.cursor.end (replicate (gap placed.piece placed.cursor) 0 ++ piece_code code.now placed.piece placed.cursor) }
{
    let base = placed.base() as usize;
    let end = placed.cursor.end as usize;
    let from = placed.cursor.code;
    output[end..base].fill(0);
    emit::copy_run(output, code, from, from + placed.piece.len as usize, base);
}

// The same, with the piece's fields filled.
fn put_filled(
    output: &mut [u8],
    resolver: &Resolver,
    code: &[u8],
    relocs: &[u8],
    placed: PlacedPiece,
)
    requires code_in { CodeIn code.now placed.piece placed.cursor × RelocsIn relocs.now placed.piece placed.cursor }
    requires output_within { base_of placed.piece placed.cursor + placed.piece.len ≤ length output.old }
    requires relocs_hold { relocs_hold Inside (find resolver.now.pieces.now resolver.now.labels.now resolver.now.definitions.now resolver.now.count) relocs.now placed.piece placed.cursor placed.piece.relocs ≡ true }
    ensures { output.new ≡ over output.old placed.cursor.end (replicate (gap placed.piece placed.cursor) 0 ++ filled_code (find resolver.now.pieces.now resolver.now.labels.now resolver.now.definitions.now resolver.now.count) relocs.now code.now placed.piece placed.cursor) }
{
    put_code(output, code, placed);
    let base = placed.base() as usize;
    let end = base + placed.piece.len as usize;
    fill_fields(&mut output[base..end], resolver, relocs, placed);
}

// A target's number in the whole.
fn moved_target(cursor: Cursor, target: u32) -> u32
    requires { label_target ≤ target → target + cursor.labels < 4294967296 }
    ensures { result ≡ moved_target cursor target }
{
    if target < buffer::LABEL_TARGET {
        target
    } else {
        (target as usize + cursor.labels) as u32
    }
}

// Writes a relocation as entry `i`, moved, if it is one that remains, and gives the entry behind it.
fn put_remaining(joined: &mut [u8], i: usize, placed: PlacedPiece, reloc: AsmReloc) -> usize
    requires joined_within { (i + one (not (is_filled placed.piece.arch reloc))) * reloc_size ≤ length joined.old }
    requires reloc_moves { RelocMoves placed.piece placed.cursor reloc }
    ensures { (result ≡ i + one (not (is_filled placed.piece.arch reloc))) × (joined.new ≡ over joined.old (i * reloc_size) (bytes_of_all (remaining_words placed.piece placed.cursor reloc))) }
{
    if relocs::is_filled(placed.piece.arch, reloc) {
        return i;
    }
    let offset = (placed.base() + reloc.offset as u64) as u32;
    let target = moved_target(placed.cursor, reloc.target);
    buffer::relocs::put_reloc(joined, i, offset, reloc.kind, target, reloc.addend);
    i + 1
}

// Writes the relocations of a piece that remain, from entry `at` on, and gives the entry behind them.
fn put_relocs(joined: &mut [u8], relocs: &[u8], placed: PlacedPiece, at: usize) -> usize
    requires relocs_in { RelocsIn relocs.now placed.piece placed.cursor }
    requires joined_within { (at + count_remaining_in relocs.now placed.piece placed.cursor placed.piece.relocs) * reloc_size ≤ length joined.old }
    requires relocs_move { RelocsMove relocs.now placed.piece placed.cursor }
    ensures { (result ≡ at + count_remaining_in relocs.now placed.piece placed.cursor placed.piece.relocs) × (joined.new ≡ over joined.old (at * reloc_size) (bytes_of_all (remaining_in relocs.now placed.piece placed.cursor placed.piece.relocs))) }
{
    let mut i: usize = at;
    for j in 0..placed.piece.relocs as usize {
        let reloc = relocs::reloc_at(relocs, placed.cursor.relocs + j);
        i = put_remaining(joined, i, placed, reloc);
    }
    i
}

// Writes the whole.
pub fn put_pieces(
    output: &mut [u8],
    joined_labels: &mut [u8],
    joined_relocs: &mut [u8],
    resolver: &Resolver,
    code: &[u8],
    relocs: &[u8],
)
    requires joins { Joins (lent_of resolver.now.pieces.now code.now resolver.now.labels.now relocs.now resolver.now.definitions.now) resolver.now.count (length output.old) (length joined_labels.old) (length joined_relocs.old) }
    ensures output_after { output.new ≡ over output.old 0 (image (find resolver.now.pieces.now resolver.now.labels.now resolver.now.definitions.now resolver.now.count) resolver.now.pieces.now relocs.now code.now resolver.now.count) }
    ensures joined_labels_after { joined_labels.new ≡ over_words joined_labels.old (labels_joined resolver.now.pieces.now resolver.now.labels.now resolver.now.count) }
    ensures joined_relocs_after { joined_relocs.new ≡ over_words joined_relocs.old (remaining resolver.now.pieces.now relocs.now resolver.now.count) }
{
    let mut cursor = pieces::START;
    let mut at: usize = 0;
    for k in 0..resolver.count {
        let piece = pieces::piece_at(resolver.pieces, k);
        let placed = PlacedPiece { piece, cursor };
        put_filled(output, resolver, code, relocs, placed);
        labels::put_labels(joined_labels, resolver.labels, placed);
        at = put_relocs(joined_relocs, relocs, placed, at);
        cursor = placed.after();
    }
}
