// x86 padding: NOP instructions, and how many bytes an alignment takes. After asmkit's x86/encoder.rs (see NOTICE).
#![tactic(auto)]

ghost use Rattle.std.specs.Prelude.{◌≡◌, ◌≤◌, length, take};
ghost use Rattle.encoder.specs.Nops.{form, nops};
ghost use Rattle.encoder.specs.Padding.{padding_length, padding_within};

// Row n - 1 starts with the form of n bytes; its rest is 0.
const NOP_TABLE: [[u8; 9]; 9] = [
    [0x90, 0, 0, 0, 0, 0, 0, 0, 0],
    [0x66, 0x90, 0, 0, 0, 0, 0, 0, 0],
    [0x0f, 0x1f, 0x00, 0, 0, 0, 0, 0, 0],
    [0x0f, 0x1f, 0x40, 0x00, 0, 0, 0, 0, 0],
    [0x0f, 0x1f, 0x44, 0x00, 0x00, 0, 0, 0, 0],
    [0x66, 0x0f, 0x1f, 0x44, 0x00, 0x00, 0, 0, 0],
    [0x0f, 0x1f, 0x80, 0x00, 0x00, 0x00, 0x00, 0, 0],
    [0x0f, 0x1f, 0x84, 0x00, 0x00, 0x00, 0x00, 0x00, 0],
    [0x66, 0x0f, 0x1f, 0x84, 0x00, 0x00, 0x00, 0x00, 0x00],
];

// Fills `pad` with one form, the start of its row.
fn push_nop(pad: &mut [u8], row: &[u8; 9])
    requires { (length pad.old ≤ 9) × (take (length pad.old) row.now ≡ form (length pad.old)) }
    ensures { pad.new ≡ form (length pad.old) }
{
    let n = pad.len();
    seqs::copy(&row[..n], pad);
}

// Fills `pad` with NOPs, longest first. The table is built once, and the longest form's row taken from it once: long padding takes 5% longer without. In the
// place of `chunks_mut(9)` a loop: of a slice that was lent by parts a proof knows the length alone.
pub fn push_nops(pad: &mut [u8])
    ensures { pad.new ≡ nops (length pad.old) }
{
    let len = pad.len();
    let table = NOP_TABLE;
    let nine = table[8];
    let mut i: usize = 0;
    while 9 <= len - i {
        push_nop(&mut pad[i..i + 9], &nine);
        i += 9;
    }
    if i < len {
        push_nop(&mut pad[i..], &table[len - i - 1]);
    }
}

// The least number of bytes that takes `offset` to a multiple of `align_to`; 0 where that is 0. A power of two takes no division.
pub fn padding_len(offset: u32, align_to: u32) -> u32
    ensures { result ≡ padding_length offset align_to }
{
    if align_to == 0 {
        return 0;
    }
    let mask = align_to - 1;
    if align_to & mask == 0 {
        return offset.wrapping_neg() & mask;
    }
    let past = offset % align_to;
    if past == 0 {
        return 0;
    }
    align_to - past
}

// The same, or 0 where that is more than `most`.
pub fn padding_within(offset: u32, align_to: u32, most: u32) -> u32
    ensures { result ≡ padding_within offset align_to most }
{
    let needed = padding_len(offset, align_to);
    if needed <= most { needed } else { 0 }
}
