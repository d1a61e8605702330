// Cases G to L of document 01, run: each letter, then the patched field in hexadecimal, or the refusal's number. Then what an ADD holds
// beforehand, in hexadecimal, and what it becomes (document 02, Request Four): its field is replaced, its sh is not.
#![tactic(auto)]

use fields::{LabelUse, NoField};

// Runs one use on a field that holds `word`.
fn run(name: &[u8], code: u32, word: u32, offset: u32, label: u32) {
    io::write_all(1, name);
    io::write_all(1, b" ");
    match LabelUse::try_from(code) {
        Ok(kind) => match kind.reach_refusal(offset, label) {
            Ok(()) => {
                let mut field = [0u8; 4];
                words::put_word(&mut field, 0, word);
                kind.patch(&mut field, offset, label);
                io::print_hex(1, words::word_at(&field, 0) as u64, 8);
            }
            Err(refusal) => {
                io::print_decimal(1, refusal.number() as u64);
            }
        },
        Err(NoField::Unsupported) => {
            io::write_all(1, b"no field here");
        }
        Err(NoField::Unknown) => {
            io::write_all(1, b"no such code");
        }
    }
    io::write_all(1, b"\n");
}

fn main() {
    run(b"G", 11, 0x14000000, 0, 8);
    run(b"H", 13, 0x10000000, 4, 0);
    run(b"I", 14, 0x90000000, 0x0ffc, 0x1000);
    run(b"J", 16, 0x91000000, 0, 0x0123);
    run(b"K", 10, 0x54000000, 0, 6);
    run(b"L", 12, 0x58000000, 0, 6);
    run(b"91000400", 16, 0x91000400, 4, 2);
    run(b"913ffc00", 16, 0x913ffc00, 4, 0x1000);
    run(b"91400000", 16, 0x91400000, 0, 0x0123);
}
