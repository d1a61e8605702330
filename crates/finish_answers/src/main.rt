// Replays the Rust's stored recordings, on standard input, through `run_sheet` and finish: each must be refused at the call, or by
// finish, where the Rust refused it, for the same error, and the others must give the Rust's finished record and code.
// Prints the recordings, how many the Rust refused, how many agree, are passed over because too little is lent here, and disagree.
#![tactic(auto)]

ghost use Rattle.std.specs.Prelude.{◌≡◌, length, ◌*◌, ◌≤◌};

use buffer::CodeBuffer;
use finish::{CodeBufferFinalized, Finished};
use refusals::Refusal;
use tally::Tally;

// A recording, in little-endian words: bytes that follow, architecture, symbols, bytes of the sheet, the sheet, and the answer: error and index;
// where the error is 0, finished length, alignment, layouts, the number of labels and their offsets, the number of relocations and of each
// offset, kind, target and the addend's two halves, a checksum of the code, and the number of code bytes that are stored, and these.

// The error of a refusal, by the numbers that are stored (`reference/README.md` names them).
fn error_of(why: Refusal) -> u32 {
    match why {
        Refusal::Malformed
        | Refusal::BadAlignment
        | Refusal::UnknownNumber
        | Refusal::BadEntry
        | Refusal::RefOverlaps
        | Refusal::UsePastEnd => 1,
        Refusal::UnknownArch | Refusal::ForeignKind => 2,
        Refusal::PastLimit | Refusal::RefOutOfReach | Refusal::LabelTooFarAhead => 3,
        Refusal::AlreadyFinished | Refusal::AlreadyBound | Refusal::PoolLabelBound => 4,
        Refusal::TableFull | Refusal::TooFewSegments => 5,
        Refusal::CodeFull | Refusal::PoolTooLarge | Refusal::OutputTooSmall => 6,
        Refusal::UnboundLabel => 7,
        Refusal::UnsupportedUse | Refusal::BranchOutOfReach | Refusal::LabelTooFarBack => 8,
        // Nothing that is replayed is refused by these.
        _ => buffer::NONE,
    }
}

// Too little is lent: a table, the code, the segments or the output.
fn is_for_room(why: Refusal) -> bool {
    matches!(
        why,
        Refusal::TableFull | Refusal::CodeFull | Refusal::TooFewSegments | Refusal::OutputTooSmall
    )
}

// What the Rust answered: 0 or the error, and the index of the refused call, or the number of calls.
#[derive(Clone, Copy)]
struct Answer {
    error: u32,
    index: u32,
}

// A call, or finish, was refused.
fn judge_refusal(why: Refusal, index: u32, answer: Answer) -> Tally {
    let agrees = index == answer.index && error_of(why) == answer.error;
    if !agrees && is_for_room(why) {
        return tally::passed_over();
    }
    tally::compared(agrees)
}

// FNV-1a, 32 bits.
fn checksum(code: &[u8]) -> u32 {
    let mut sum: u32 = 0x811c9dc5;
    for byte in code {
        sum = (sum ^ *byte as u32).wrapping_mul(16777619);
    }
    sum
}

// The code's checksum, and the code itself where it has at most 1,024 bytes.
fn same_code(code: &[u8], stored: &[u8]) -> bool {
    if stored.len() < 8 || checksum(code) != words::word_at(stored, 0) {
        return false;
    }
    let kept = words::word_at(stored, 1) as usize;
    if code.len() > 1024 {
        return kept == 0;
    }
    kept == code.len() && code == &stored[8..]
}

// An entry of the table, six words with a 0 in them, and a stored one of five words.
fn same_reloc(entry: &[u8], stored: &[u8]) -> bool
    requires { (length entry.now ≡ 24) × (length stored.now ≡ 20) }
{
    entry[..12] == stored[..12] && entry[16..] == stored[12..]
}

fn same_relocs(relocs: &[u8], stored: &[u8], n: usize) -> bool
    requires { (n * 24 ≤ length relocs.now) × (n * 20 ≤ length stored.now) }
{
    (0..n).all(|i| {
        let at = i * 24;
        let end = at + 24;
        let stored_at = i * 20;
        let stored_end = stored_at + 20;
        same_reloc(&relocs[at..end], &stored[stored_at..stored_end])
    })
}

// The number of relocations, these, and the code.
fn same_relocs_and_code(relocs: &[u8], n: u32, code: &[u8], stored: &[u8]) -> bool {
    let table_end = n as usize * 24;
    if relocs.len() < table_end {
        return false;
    }
    let end = 4 + n as usize * 20;
    if stored.len() < end {
        return false;
    }
    words::word_at(stored, 0) == n
        && same_relocs(relocs, &stored[4..end], n as usize)
        && same_code(code, &stored[end..])
}

// The labels, and what follows them.
fn same_tables(
    finished: CodeBufferFinalized,
    labels: &[u8],
    relocs: &[u8],
    output: &[u8],
    stored: &[u8],
) -> bool {
    let end = finished.labels as usize * 4;
    let len = finished.len as usize;
    if labels.len() < end || stored.len() < end || output.len() < len {
        return false;
    }
    labels[..end] == stored[..end]
        && same_relocs_and_code(relocs, finished.relocs, &output[0..len], &stored[end..])
}

// The four numbers in front of the labels.
fn same_numbers(finished: CodeBufferFinalized, stored: &[u8]) -> bool
    requires { length stored.now ≡ 16 }
{
    finished.len == words::word_at(stored, 0)
        && finished.alignment == words::word_at(stored, 1)
        && finished.layouts == words::word_at(stored, 2)
        && finished.labels == words::word_at(stored, 3)
}

fn same_record(
    finished: CodeBufferFinalized,
    labels: &[u8],
    relocs: &[u8],
    output: &[u8],
    stored: &[u8],
) -> bool {
    stored.len() >= 16
        && same_numbers(finished, &stored[0..16])
        && same_tables(finished, labels, relocs, output, &stored[16..])
}

// All calls were accepted.
fn judge_finished(
    finished: Finished,
    index: u32,
    answer: Answer,
    labels: &[u8],
    relocs: &[u8],
    output: &[u8],
    stored: &[u8],
) -> Tally {
    match finished.answer {
        Ok(code) => tally::compared(
            answer.error == 0
                && answer.index == index
                && same_record(code, labels, relocs, output, stored),
        ),
        Err(why) => judge_refusal(why, index, answer),
    }
}

// Room for code, recorded or finished. One stored recording has more, 16 MiB.
const ROOM: usize = 3145728;

type Code = [u8; ROOM];

// Runs a sheet and finishes what it recorded; `stored` is what follows the answer. A table of 1,024 entries, or 2,048 events, is enough for each
// recording that has room for its code. None is clear at the start: nothing is read before it is written.
fn replay(
    start: CodeBuffer,
    sheet: &[u8],
    answer: Answer,
    stored: &[u8],
    code: &mut Code,
    output: &mut Code,
) -> Tally {
    let mut labels = [255u8; 1024 * 4];
    let mut events = [255u8; 2048 * 20];
    let mut uses = [255u8; 1024 * 12];
    let mut refs = [255u8; 1024 * 16];
    let mut constants = [255u8; 1024 * 72];
    let mut asked = [255u8; 1024 * 4];
    let mut relocs = [255u8; 1024 * 24];
    let ran = sheet::run_sheet(
        start,
        sheet,
        code,
        &mut labels,
        &mut events,
        &mut uses,
        &mut refs,
        &mut constants,
        &mut asked,
        &mut relocs,
    );
    if let Err(why) = ran.answer {
        return judge_refusal(why, ran.index, answer);
    }
    let finished = own_segments::finish_with_table(
        ran.buffer,
        code,
        &mut labels,
        &events,
        &uses,
        &refs,
        &constants,
        &asked,
        &mut relocs,
        output,
    );
    judge_finished(
        finished, ran.index, answer, &labels, &relocs, output, stored,
    )
}

fn answer_in(stored: &[u8]) -> Answer
    requires { length stored.now ≡ 8 }
{
    Answer {
        error: words::word_at(stored, 0),
        index: words::word_at(stored, 1),
    }
}

// A recording whose lengths do not fit together disagrees.
fn try_recording(stored: &[u8], code: &mut Code, output: &mut Code) -> Tally {
    if stored.len() < 12 {
        return tally::compared(false);
    }
    let sheet_end = 12 + words::word_at(stored, 2) as usize;
    let end = sheet_end + 8;
    if stored.len() < end {
        return tally::compared(false);
    }
    let answer = answer_in(&stored[sheet_end..end]);
    let start = CodeBuffer::new(words::word_at(stored, 0), words::word_at(stored, 1));
    let one = replay(
        start.buffer,
        &stored[12..sheet_end],
        answer,
        &stored[end..],
        code,
        output,
    );
    one.marked_if(answer.error != 0)
}

// A recording of more bytes than `stored` has counts as the input's end.
fn read_recording(code: &mut Code, output: &mut Code) -> Tally {
    let Some(head) = tally::read::<4>() else {
        return tally::cut_short();
    };
    let mut stored = [0u8; 163840];
    let n = u32::from_le_bytes(head) as usize;
    if n > 163840 {
        return tally::cut_short();
    }
    let part: &mut [u8] = &mut stored[..n];
    if !tally::fill(part) {
        return tally::cut_short();
    }
    try_recording(part, code, output)
}

fn print_line(word: &[u8], n: u64) {
    io::write_all(1, word);
    tally::print_number(n);
    io::write_all(1, b"\n");
}

// Tells which recording it is that disagrees.
fn read_all() -> Tally {
    let mut code = [0u8; ROOM];
    let mut output = [0u8; ROOM];
    tally::read_all(|i| {
        let one = read_recording(&mut code, &mut output);
        if one.disagreeing != 0 {
            print_line(b"disagrees: recording", i as u64);
        }
        one
    })
}

fn main() {
    let sum = read_all();
    sum.print_end();
    print_line(b"recordings", sum.cases);
    print_line(b"refused", sum.marked);
    print_line(b"agreeing", sum.agreeing);
    print_line(b"passed-over", sum.passed_over);
    print_line(b"disagreeing", sum.disagreeing);
}
