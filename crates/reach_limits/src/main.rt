// Sweeps each kind of field over its reach limits: compares `can_reach`, `reach_refusal` and both patches with standard input, which `make`
// wrote. Prints for each code a line: the code, distances tried, how many reach, how many disagree. The last line has the totals.
#![tactic(auto)]

ghost use Rattle.std.specs.Prelude.{◌≡◌, length};

use fields::LabelUse;
use tally::Tally;

// The input, in little-endian words: the number of sections; of each, its code, its number of rows, and its rows of 52 bytes:
// the field's offset, the label's, 1 if it reaches, the refusal's number, the field's size, and two pairs of windows of 8 bytes.
// A window's field starts at its byte 2. A pair is a window before and after: the first pair's patch is `patch`, the second's
// `patch_with_addend` with addend 0. Where the label is out of reach, the pairs are zeros.

fn print_counts(sum: Tally) {
    tally::print_number(sum.cases);
    tally::print_number(sum.marked);
    tally::print_number(sum.disagreeing);
    io::write_all(1, b"\n");
}

fn patches_agree(kind: LabelUse, row: &mut [u8], offset: u32, label: u32) -> bool
    requires { length row.old ≡ 52 }
{
    let size = words::word_at(row, 4);
    if size > 4 {
        return false;
    }
    let end = size as usize + 2;
    tally::windows_agree(
        &mut row[20..36],
        end,
        |field| kind.patch(field, offset, label),
    ) && tally::windows_agree(
        &mut row[36..52],
        end,
        |field| kind.patch_with_addend(field, offset, label, 0),
    )
}

fn row_agrees(kind: LabelUse, row: &mut [u8], offset: u32, label: u32, reached: bool) -> bool
    requires { length row.old ≡ 52 }
{
    refusals::answer_of(kind.reach_refusal(offset, label)) == words::word_at(row, 3)
        && words::word_at(row, 2) == u32::from(reached)
        && (!reached || patches_agree(kind, row, offset, label))
}

fn read_row(kind: LabelUse) -> Tally {
    let Some(mut row) = tally::read::<52>() else {
        return tally::cut_short();
    };
    let offset = words::word_at(&row, 0);
    let label = words::word_at(&row, 1);
    let reached = kind.can_reach(offset, label);
    tally::compared(row_agrees(kind, &mut row, offset, label, reached)).marked_if(reached)
}

// A code of no kind disagrees, with its rows unread.
fn read_code(code: u32, rows: u32) -> Tally {
    match LabelUse::try_from(code) {
        Ok(kind) => tally::sum_of(rows, |_| read_row(kind)),
        Err(_) => tally::compared(false),
    }
}

fn read_section() -> Tally {
    let Some(head) = tally::read::<8>() else {
        return tally::cut_short();
    };
    let code = words::word_at(&head, 0);
    let sum = read_code(code, words::word_at(&head, 1));
    io::print_decimal(1, code as u64);
    print_counts(sum);
    sum
}

fn main() {
    let sum = tally::read_all(|_| read_section());
    sum.print_end();
    io::write_all(1, b"total");
    print_counts(sum);
}
