// Labels: whether each has an offset in the whole, and the labels of the whole.
ghost use Rattle.std.specs.Prelude.{◌≡◌, ◌+◌, ◌*◌, ◌≤◌, true};
ghost use Rattle.seqs.specs.Over.{over};
ghost use Rattle.words.specs.Words.{bytes_of_all};
ghost use Rattle.buffer.specs.Tables.{label_size};
ghost use Rattle.join.specs.Join.{label_moves, labels_move, all_labels_move, moved_label, moved_labels};
ghost use Rattle.join.specs.steps.Within.{most_base, Labelled, Labels};

use crate::pieces::PlacedPiece;
use crate::{LAST_PLACE, pieces};

fn label_moves(base: u64, offset: u32) -> bool
    requires { base ≤ most_base }
    ensures { result ≡ label_moves base offset }
{
    offset == buffer::NONE || base + offset as u64 <= LAST_PLACE
}

// Whether every label of a piece has an offset in the whole, or is not bound.
fn labels_move(labels: &[u8], placed: PlacedPiece) -> bool
    requires labelled { Labelled labels.now placed.piece placed.cursor }
    ensures { result ≡ labels_move labels.now placed.piece placed.cursor placed.piece.labels }
{
    let base = placed.base();
    (0..placed.piece.labels as usize).all(|j| label_moves(
        base,
        words::word_at(labels, placed.cursor.labels + j),
    ))
}

pub fn all_labels_move(pieces: &[u8], labels: &[u8], n: usize) -> bool
    requires { Labels pieces.now labels.now n }
    ensures { result ≡ all_labels_move pieces.now labels.now n }
{
    let mut cursor = pieces::START;
    for k in 0..n {
        let piece = pieces::piece_at(pieces, k);
        let placed = PlacedPiece { piece, cursor };
        if !labels_move(labels, placed) {
            return false;
        }
        cursor = placed.after();
    }
    true
}

// A label's offset in the whole.
fn moved(base: u64, offset: u32) -> u32
    requires { label_moves base offset ≡ true }
    ensures { result ≡ moved_label base offset }
{
    if offset == buffer::NONE {
        buffer::NONE
    } else {
        (base + offset as u64) as u32
    }
}

// Writes the labels of a piece, in their order behind those of the pieces before it.
pub fn put_labels(joined: &mut [u8], labels: &[u8], placed: PlacedPiece)
    requires labelled { Labelled labels.now placed.piece placed.cursor }
    requires labelled_2 { Labelled joined.old placed.piece placed.cursor }
    requires labels_move { labels_move labels.now placed.piece placed.cursor placed.piece.labels ≡ true }
    ensures { joined.new ≡ over joined.old (placed.cursor.labels * label_size) (bytes_of_all (moved_labels labels.now placed.piece placed.cursor placed.piece.labels)) }
{
    let base = placed.base();
    for j in 0..placed.piece.labels as usize {
        let i = placed.cursor.labels + j;
        words::put_word(joined, i, moved(base, words::word_at(labels, i)));
    }
}
