// Symbols: what their definitions say of them, and a table of it for the small numbers.
ghost use Rattle.std.specs.Prelude.{◌≡◌, ◌+◌, ◌*◌, ◌≤◌, true, length, slice_set};
ghost use Rattle.join.specs.Pieces.{definition_size};
ghost use Rattle.join.specs.Symbols.{symbol_at, place, defined, defined_as, find_in, find, find_before, new_in, defined_once};
ghost use Rattle.join.specs.steps.Within.{Labelled, DefinitionsIn, Symbols};
ghost use Rattle.join.specs.steps.Tables.{Begun, Settled, Resolves};

use crate::pieces::PlacedPiece;
use crate::{Cursor, pieces};

// A definition, in words: the symbol and the label.
const DEFINITION_WORDS: usize = 2;

// What is known of a symbol: nothing defines it; its label is unknown or not bound; else this much more than its place in the whole. A number and no enum: the
// table holds 65,536 of them in fixed memory, which an enum would double, and the definition `find` gives the same number.
const UNDEFINED: u64 = 0;

const UNBOUND: u64 = 1;

pub const FIRST_PLACE: u64 = 2;

// The symbol of definition `j`.
fn symbol_at(definitions: &[u8], cursor: Cursor, j: usize) -> u32
    requires { (cursor.definitions + j + 1) * definition_size ≤ length definitions.now }
    ensures { result ≡ symbol_at definitions.now cursor j }
{
    words::word_at(definitions, (cursor.definitions + j) * DEFINITION_WORDS)
}

// What its label says: `UNBOUND`, or its place.
fn label_place(labels: &[u8], placed: PlacedPiece, label: u32) -> u64
    requires labelled { Labelled labels.now placed.piece placed.cursor }
    ensures { result ≡ place labels.now placed.piece placed.cursor label }
{
    if placed.piece.labels <= label {
        return UNBOUND;
    }
    let offset = words::word_at(labels, placed.cursor.labels + label as usize);
    if offset == buffer::NONE {
        return UNBOUND;
    }
    placed.base() + offset as u64 + FIRST_PLACE
}

// What definition `j` says of its symbol.
fn defined(labels: &[u8], definitions: &[u8], placed: PlacedPiece, j: usize) -> u64
    requires labelled { Labelled labels.now placed.piece placed.cursor }
    requires definitions_within { (placed.cursor.definitions + j + 1) * definition_size ≤ length definitions.now }
    ensures { result ≡ defined labels.now definitions.now placed.piece placed.cursor j }
{
    let label = words::word_at(
        definitions,
        (placed.cursor.definitions + j) * DEFINITION_WORDS + 1,
    );
    label_place(labels, placed, label)
}

// What it says of `symbol`.
fn defined_as(labels: &[u8], definitions: &[u8], placed: PlacedPiece, symbol: u32, j: usize) -> u64
    requires labelled { Labelled labels.now placed.piece placed.cursor }
    requires definitions_within { (placed.cursor.definitions + j + 1) * definition_size ≤ length definitions.now }
    ensures { result ≡ defined_as labels.now definitions.now placed.piece placed.cursor symbol j }
{
    if symbol_at(definitions, placed.cursor, j) == symbol {
        defined(labels, definitions, placed, j)
    } else {
        UNDEFINED
    }
}

// What the first `m` definitions of a piece say of `symbol`.
fn find_in(labels: &[u8], definitions: &[u8], placed: PlacedPiece, m: usize, symbol: u32) -> u64
    requires labelled { Labelled labels.now placed.piece placed.cursor }
    requires definitions_within { (placed.cursor.definitions + m) * definition_size ≤ length definitions.now }
    ensures { result ≡ find_in labels.now definitions.now placed.piece placed.cursor m symbol }
{
    for j in 0..m {
        let found = defined_as(labels, definitions, placed, symbol, j);
        if found != UNDEFINED {
            return found;
        }
    }
    UNDEFINED
}

// What those of the first `n` pieces say of it.
fn find(pieces: &[u8], labels: &[u8], definitions: &[u8], n: usize, symbol: u32) -> u64
    requires { Symbols pieces.now labels.now definitions.now n }
    ensures { result ≡ find pieces.now labels.now definitions.now n symbol }
{
    let mut cursor = pieces::START;
    for k in 0..n {
        let piece = pieces::piece_at(pieces, k);
        let placed = PlacedPiece { piece, cursor };
        let found = find_in(
            labels,
            definitions,
            placed,
            placed.piece.definitions as usize,
            symbol,
        );
        if found != UNDEFINED {
            return found;
        }
        cursor = placed.after();
    }
    UNDEFINED
}

// What the first `k` pieces and the first `j` definitions of the next say of it. `table` has that of the symbols below its length.
fn find_before(
    table: &[u64],
    pieces: &[u8],
    labels: &[u8],
    definitions: &[u8],
    k: usize,
    placed: PlacedPiece,
    j: usize,
    symbol: u32,
) -> u64
    requires symbols { Symbols pieces.now labels.now definitions.now k }
    requires labelled { Labelled labels.now placed.piece placed.cursor }
    requires definitions_within { (placed.cursor.definitions + j) * definition_size ≤ length definitions.now }
    requires begun { Begun table.now pieces.now labels.now definitions.now k placed.piece placed.cursor j }
    ensures { result ≡ find_before pieces.now labels.now definitions.now k placed.piece placed.cursor j symbol }
{
    if (symbol as usize) < table.len() {
        return table[symbol as usize];
    }
    let found = find(pieces, labels, definitions, k, symbol);
    if found != UNDEFINED {
        return found;
    }
    find_in(labels, definitions, placed, j, symbol)
}

// Keeps what is known of a symbol, if the table has room for it.
fn note(table: &mut [u64], symbol: u32, known: u64)
    ensures { table.new ≡ slice_set table.old symbol known }
{
    if (symbol as usize) < table.len() {
        table[symbol as usize] = known;
    }
}

// Notes the definitions of the piece behind the first `k`, and gives whether each defines a new symbol; it stops at one that does not.
fn settle_piece(
    table: &mut [u64],
    pieces: &[u8],
    labels: &[u8],
    definitions: &[u8],
    k: usize,
    placed: PlacedPiece,
) -> bool
    requires symbols { Symbols pieces.now labels.now definitions.now k }
    requires labelled { Labelled labels.now placed.piece placed.cursor }
    requires definitions_in { DefinitionsIn definitions.now placed.piece placed.cursor }
    requires settled { Settled table.old pieces.now labels.now definitions.now k }
    ensures { (result ≡ new_in pieces.now labels.now definitions.now k placed.piece placed.cursor placed.piece.definitions) × (result ≡ true → Begun table.new pieces.now labels.now definitions.now k placed.piece placed.cursor placed.piece.definitions) × (length table.new ≡ length table.old) }
{
    for j in 0..placed.piece.definitions as usize {
        let symbol = symbol_at(definitions, placed.cursor, j);
        let found = find_before(table, pieces, labels, definitions, k, placed, j, symbol);
        if found != UNDEFINED {
            return false;
        }
        let known = defined(labels, definitions, placed, j);
        note(table, symbol, known);
    }
    true
}

// Notes the definitions of the first `n` pieces, and gives whether no symbol is defined twice. `table` is clear.
pub fn settle(table: &mut [u64], pieces: &[u8], labels: &[u8], definitions: &[u8], n: usize) -> bool
    requires symbols { Symbols pieces.now labels.now definitions.now n }
    requires settled { Settled table.old pieces.now labels.now definitions.now 0 }
    ensures { (result ≡ defined_once pieces.now labels.now definitions.now n) × (result ≡ true → Settled table.new pieces.now labels.now definitions.now n) }
{
    let mut cursor = pieces::START;
    for k in 0..n {
        let piece = pieces::piece_at(pieces, k);
        let placed = PlacedPiece { piece, cursor };
        if !settle_piece(table, pieces, labels, definitions, k, placed) {
            return false;
        }
        cursor = placed.after();
    }
    true
}

// The `count` pieces once all their definitions are noted: the table has what is known of the symbols below its length.
#[derive(Clone, Copy)]
pub struct Resolver<'a> {
    pub table: &'a [u64],
    pub pieces: &'a [u8],
    pub labels: &'a [u8],
    pub definitions: &'a [u8],
    pub count: usize,
    ghost resolves: { Resolves table.now pieces.now labels.now definitions.now count },
}

impl<'a> Resolver<'a> {
    // What is known of a symbol.
    pub fn known(&self, symbol: u32) -> u64
        ensures { result ≡ find self.now.pieces.now self.now.labels.now self.now.definitions.now self.now.count symbol }
    {
        if (symbol as usize) < self.table.len() {
            self.table[symbol as usize]
        } else {
            find(
                self.pieces,
                self.labels,
                self.definitions,
                self.count,
                symbol,
            )
        }
    }
}
