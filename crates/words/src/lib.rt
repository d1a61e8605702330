// Little-endian 32-bit words in byte slices. Every table of a recording and every four-byte field is read and written through these two.
#![tactic(auto)]

ghost use Rattle.std.specs.Prelude.{◌≡◌, ◌+◌, ◌*◌, ◌≤◌, ◌<◌, length};
ghost use Rattle.words.specs.Words.{word_at, set_word};

// Word `k` of `bytes`.
#[tactic(auto, unfolding(crate::specs::Words::word_at))]
pub fn word_at(bytes: &[u8], k: usize) -> u32
    requires { k * 4 + 4 ≤ length bytes.now }
    ensures { result ≡ word_at bytes.now k }
{
    let i = k * 4;
    u32::from_le_bytes([bytes[i], bytes[i + 1], bytes[i + 2], bytes[i + 3]])
}

// Makes `v` word `k` of `bytes`, byte by byte: a copy of the four would ask in some loops whether they overlap.
pub fn put_word(bytes: &mut [u8], k: usize, v: u32)
    requires { k * 4 + 4 ≤ length bytes.old }
    ensures { bytes.new ≡ set_word bytes.old k v }
{
    let i = k * 4;
    let [first, second, third, fourth] = v.to_le_bytes();
    bytes[i] = first;
    bytes[i + 1] = second;
    bytes[i + 2] = third;
    bytes[i + 3] = fourth;
}
