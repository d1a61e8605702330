// Cases A to D of document 01, run through the recording calls and finish: each letter, then the finished length, layouts and long jumps, in decimal.
#![tactic(auto)]

ghost use Rattle.std.specs.Prelude.{◌<◌};

use buffer::CodeBuffer;
use finish::Finished;

const ZEROS: [u8; 128] = [0; 128];

// The recordings of A to D.
#[derive(Clone, Copy)]
enum Recipe {
    // A jump at 0, zeros, its label at the end.
    Forward(u32),
    // Jumps at 0 and 5, 128 zeros, their labels at 135 and 138.
    Chain,
    // A jump at 0, an alignment to 16, its label at 16.
    Aligned,
}

fn put_zeros(recording: CodeBuffer, code: &mut [u8; 256], n: u32) -> CodeBuffer {
    if n > 128 {
        return recording;
    }
    recording.put_bytes(code, &ZEROS[..n as usize]).buffer
}

// A jump of 5 bytes without a condition.
fn put_jump(
    recording: CodeBuffer,
    code: &mut [u8; 256],
    labels: &[u8; 8],
    events: &mut [u8; 40],
    label: u32,
) -> CodeBuffer {
    let start = recording.code;
    let put = recording.put_bytes(code, b"\xe9\x00\x00\x00\x00").buffer;
    put.record_relaxable_jump(labels, events, start, 5, label, 16)
        .buffer
}

fn new_label(recording: CodeBuffer, labels: &mut [u8; 8]) -> CodeBuffer {
    recording.get_label(labels).buffer
}

// None of these recordings has uses, refs or relocations.
fn bind(recording: CodeBuffer, labels: &mut [u8; 8], events: &[u8; 40], label: u32) -> CodeBuffer {
    recording
        .try_bind_label(labels, events, b"", b"", b"", label)
        .buffer
}

fn record_forward(
    start: CodeBuffer,
    code: &mut [u8; 256],
    labels: &mut [u8; 8],
    events: &mut [u8; 40],
    zeros: u32,
) -> CodeBuffer {
    let labelled = new_label(start, labels);
    let jumped = put_jump(labelled, code, labels, events, 0);
    let put = put_zeros(jumped, code, zeros);
    bind(put, labels, events, 0)
}

fn record_chain(
    start: CodeBuffer,
    code: &mut [u8; 256],
    labels: &mut [u8; 8],
    events: &mut [u8; 40],
) -> CodeBuffer {
    let labelled = new_label(new_label(start, labels), labels);
    let first = put_jump(labelled, code, labels, events, 0);
    let second = put_jump(first, code, labels, events, 1);
    let near = bind(put_zeros(second, code, 125), labels, events, 0);
    bind(put_zeros(near, code, 3), labels, events, 1)
}

fn record_aligned(
    start: CodeBuffer,
    code: &mut [u8; 256],
    labels: &mut [u8; 8],
    events: &mut [u8; 40],
) -> CodeBuffer {
    let labelled = new_label(start, labels);
    let jumped = put_jump(labelled, code, labels, events, 0);
    let aligned = jumped.try_align_to(code, events, 16).buffer;
    bind(aligned, labels, events, 0)
}

fn record(
    recipe: Recipe,
    code: &mut [u8; 256],
    labels: &mut [u8; 8],
    events: &mut [u8; 40],
) -> CodeBuffer {
    let start = CodeBuffer::new(2, 0).buffer;
    match recipe {
        Recipe::Forward(zeros) => record_forward(start, code, labels, events, zeros),
        Recipe::Chain => record_chain(start, code, labels, events),
        Recipe::Aligned => record_aligned(start, code, labels, events),
    }
}

// Whether the finished code has a long jump at `at`, by its opcode.
fn is_long(output: &[u8; 256], at: usize) -> bool
    requires { at < 256 }
{
    output[at] == 0xe9
}

// How many jumps are long: the finished code starts with them. A short one has 2 bytes, a long one 5.
fn long_jumps(recipe: Recipe, output: &[u8; 256]) -> u64 {
    let first = is_long(output, 0);
    match recipe {
        Recipe::Forward(_) | Recipe::Aligned => first as u64,
        Recipe::Chain => {
            let second = if first { 5 } else { 2 };
            first as u64 + is_long(output, second) as u64
        }
    }
}

// There are no uses, refs, constants and relocations.
fn finish_recipe(
    recording: CodeBuffer,
    code: &[u8; 256],
    labels: &mut [u8; 8],
    events: &[u8; 40],
    output: &mut [u8; 256],
) -> Finished {
    let mut relocs = [0u8; 1];
    own_segments::finish_with_table(
        recording,
        code,
        labels,
        events,
        b"",
        b"",
        b"",
        b"",
        &mut relocs,
        output,
    )
}

// Records and finishes.
fn run_recipe(recipe: Recipe, output: &mut [u8; 256]) -> Finished {
    let mut code = [0u8; 256];
    let mut labels = [0u8; 8];
    let mut events = [0u8; 40];
    let recording = record(recipe, &mut code, &mut labels, &mut events);
    finish_recipe(recording, &code, &mut labels, &events, output)
}

fn print_number(n: u64) {
    io::write_all(1, b" ");
    io::print_decimal(1, n);
}

// The finished length, layouts and long jumps, or the refusal's number.
fn run(name: &[u8], recipe: Recipe) {
    let mut output = [0u8; 256];
    let finished = run_recipe(recipe, &mut output);
    io::write_all(1, name);
    match finished.answer {
        Ok(code) => {
            print_number(code.len as u64);
            print_number(code.layouts as u64);
            print_number(long_jumps(recipe, &output));
        }
        Err(why) => {
            io::write_all(1, b" refused");
            print_number(why.number() as u64);
        }
    }
    io::write_all(1, b"\n");
}

fn main() {
    run(b"A", Recipe::Forward(127));
    run(b"B", Recipe::Forward(128));
    run(b"C", Recipe::Chain);
    run(b"D", Recipe::Aligned);
}
