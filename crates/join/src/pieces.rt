// Pieces: their records, where they start, and what is asked of each alone.
ghost use Rattle.std.specs.Prelude.{◌≡◌, ℕ, ◌+◌, ◌*◌, ◌<◌, ◌≤◌, max, true, ◌||◌, length, ◌==◌, nat_eq};
ghost use Rattle.seqs.specs.Every.{all};
ghost use Rattle.join.specs.Pieces.{piece_size, piece_at, piece_fits, pieces_fit, boundary, gap, base_of, after, cursor_at, piece_within_limits, within_limits, same_arch, greatest_alignment, code_alignment, wide_alignment, most_pieces};
ghost use Rattle.join.specs.steps.Within.{most_base, NearBy, Near, Placed};

use crate::{Cursor, Piece};

// Words of a piece's entry.
const PIECE_WORDS: usize = 7;

// The two alignments that a record gives, and the bytes of a page.
const CODE_ALIGNMENT: u32 = 32;

const WIDE_ALIGNMENT: u32 = 64;

const PAGE_SIZE: u32 = 4096;

// Piece `k`.
pub fn piece_at(pieces: &[u8], k: usize) -> Piece
    requires { k * piece_size + piece_size ≤ length pieces.now }
    ensures { result ≡ piece_at pieces.now k }
{
    let i = k * PIECE_WORDS;
    Piece {
        arch: words::word_at(pieces, i),
        len: words::word_at(pieces, i + 1),
        alignment: words::word_at(pieces, i + 2),
        labels: words::word_at(pieces, i + 4),
        relocs: words::word_at(pieces, i + 5),
        definitions: words::word_at(pieces, i + 6),
    }
}

fn piece_fits(piece: Piece) -> bool
    ensures { result ≡ piece_fits piece }
{
    buffer::arch_occurs(piece.arch)
        && (piece.alignment == CODE_ALIGNMENT || piece.alignment == WIDE_ALIGNMENT)
}

pub fn pieces_fit(pieces: &[u8], n: usize) -> bool
    requires { n * piece_size ≤ length pieces.now }
    ensures { result ≡ pieces_fit pieces.now n }
{
    (0..n).all(|k| piece_fits(piece_at(pieces, k)))
}

// What a piece starts at a multiple of.
fn boundary(piece: Piece) -> u32
    ensures { result ≡ boundary piece }
{
    if piece.arch == fields::AARCH64 {
        PAGE_SIZE
    } else {
        piece.alignment
    }
}

// A piece that fits, at the cursor in front of it.
#[derive(Clone, Copy)]
pub struct PlacedPiece {
    pub piece: Piece,
    pub cursor: Cursor,
    ghost placed: { Placed piece cursor },
}

impl PlacedPiece {
    // The zeros in front of it.
    fn gap(self) -> u64
        ensures { (result ≡ gap self.piece self.cursor) × (result < 4096) }
    {
        let multiple = boundary(self.piece) as u64;
        let past = self.cursor.end % multiple;
        if past == 0 { 0 } else { multiple - past }
    }

    // Where it starts in the whole.
    pub fn base(self) -> u64
        ensures { (result ≡ base_of self.piece self.cursor) × (result ≤ most_base) }
    {
        self.cursor.end + self.gap()
    }

    // The cursor behind it.
    pub fn after(self) -> Cursor
        ensures { (result ≡ after self.piece self.cursor) × ((k : ℕ) → NearBy k self.cursor → NearBy (k + 1) result) }
    {
        let piece = self.piece;
        let cursor = self.cursor;
        Cursor {
            code: cursor.code + piece.len as usize,
            labels: cursor.labels + piece.labels as usize,
            relocs: cursor.relocs + piece.relocs as usize,
            definitions: cursor.definitions + piece.definitions as usize,
            end: self.base() + piece.len as u64,
        }
    }
}

// The cursor in front of the first piece.
pub const START: Cursor = Cursor {
    code: 0,
    labels: 0,
    relocs: 0,
    definitions: 0,
    end: 0,
};

// The cursor behind the first `n` pieces.
pub fn sum(pieces: &[u8], n: usize) -> Cursor
    requires pieces_within { n * piece_size ≤ length pieces.now }
    requires in_bound { n ≤ most_pieces }
    requires pieces_fit { pieces_fit pieces.now n ≡ true }
    ensures { (result ≡ cursor_at pieces.now n) × Near result }
{
    let mut cursor = START;
    for k in 0..n {
        let piece = piece_at(pieces, k);
        let placed = PlacedPiece { piece, cursor };
        cursor = placed.after();
    }
    cursor
}

fn piece_within_limits(piece: Piece) -> bool
    ensures { result ≡ piece_within_limits piece }
{
    piece.len as usize <= buffer::MOST_CODE
        && piece.labels as usize <= buffer::MOST_ENTRIES
        && piece.relocs as usize <= buffer::MOST_ENTRIES
        && piece.definitions as usize <= buffer::MOST_ENTRIES
}

pub fn within_limits(pieces: &[u8], n: usize) -> bool
    requires { n * piece_size ≤ length pieces.now }
    ensures { result ≡ within_limits pieces.now n }
{
    (0..n).all(|k| piece_within_limits(piece_at(pieces, k)))
}

// Whether the first `n` pieces have the architecture of the first.
pub fn same_arch(pieces: &[u8], n: usize) -> bool
    requires pieces_within { n * piece_size ≤ length pieces.now }
    requires in_range { 0 < n }
    ensures { result ≡ same_arch pieces.now n }
{
    let first = piece_at(pieces, 0);
    (0..n).all(|k| piece_at(pieces, k).arch == first.arch)
}

// The greatest alignment that the first `n` records give.
pub fn greatest_alignment(pieces: &[u8], n: usize) -> u32
    requires { n * piece_size ≤ length pieces.now }
    ensures { result ≡ greatest_alignment pieces.now n }
{
    let mut greatest: u32 = 0;
    for k in 0..n {
        greatest = greatest.max(piece_at(pieces, k).alignment);
    }
    greatest
}
