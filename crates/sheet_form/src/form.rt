// The form of a sheet.
ghost use Rattle.std.specs.Prelude.{◌≡◌, ◌*◌, length};
ghost use Rattle.sheet_form.specs.Form.{is_whole, in_range, used, is_clear, is_formed, first_broken, argument_size};
ghost use Rattle.sheet_form.specs.Kinds.{code_of};

use crate::kinds::Kind;
use crate::{ARGUMENT_SIZE, MOST_BYTES};

// Whether the length is that of the calls that the sheet counts. The sum is one of 64 bits, so no count makes it wrap.
pub fn is_whole(sheet: &[u8]) -> bool
    ensures { result ≡ is_whole sheet.now }
{
    4 <= sheet.len() && sheet.len() as u64 == 4 + 17 * words::word_at(sheet, 0) as u64
}

// Whether every byte is 0. They are taken by fours.
fn is_clear(part: &[u8]) -> bool
    ensures { result ≡ is_clear part.now }
{
    let (fours, rest) = part.as_chunks::<4>();
    fours.iter().all(|four| words::word_at(four, 0) == 0) && rest.iter().all(|byte| *byte == 0)
}

// Whether a byte count, a use's or ref's code and a relocation's kind are in their ranges.
fn in_range(kind: Kind, arguments: &[u8]) -> bool
    requires { length arguments.now ≡ argument_size }
    ensures { result ≡ in_range (code_of kind) arguments.now }
{
    match kind {
        Kind::Bytes | Kind::Constant => words::word_at(arguments, 0) <= MOST_BYTES,
        Kind::Use | Kind::Ref => words::word_at(arguments, 2) <= fields::LAST_CODE,
        Kind::Relocation => words::word_at(arguments, 1) <= buffer::LAST_RELOC,
        _ => true,
    }
}

// How many bytes of its argument a call uses: four for each of its words, and those that a count counts.
fn used(kind: Kind, arguments: &[u8]) -> usize
    requires { length arguments.now ≡ argument_size }
    ensures { result ≡ used (code_of kind) arguments.now }
{
    match kind {
        Kind::NewLabel => 0,
        Kind::Bind | Kind::ConstantLabel => 4,
        Kind::Align => 8,
        Kind::Use => 12,
        Kind::Ref | Kind::Jump | Kind::Relocation => 16,
        Kind::Bytes | Kind::Constant => 4 + words::word_at(arguments, 0) as usize,
    }
}

// Whether a call has its form.
fn is_formed(kind: u8, arguments: &[u8]) -> bool
    requires { length arguments.now ≡ argument_size }
    ensures { result ≡ is_formed kind arguments.now }
{
    match Kind::try_from(kind) {
        Ok(kind) => in_range(kind, arguments) && is_clear(&arguments[used(kind, arguments)..]),
        Err(_) => false,
    }
}

// The index of the first call whose form is broken; the number of calls where none is.
pub fn first_broken(kinds: &[u8], arguments: &[u8]) -> usize
    requires { length arguments.now ≡ length kinds.now * argument_size }
    ensures { result ≡ first_broken kinds.now arguments.now }
{
    for (i, kind) in kinds.iter().enumerate() {
        let at = i * ARGUMENT_SIZE;
        let end = at + ARGUMENT_SIZE;
        if !is_formed(*kind, &arguments[at..end]) {
            return i;
        }
    }
    kinds.len()
}
