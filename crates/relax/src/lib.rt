// `LayoutEvent`: the jumps and alignments of a recording, and the table of bytes that they stand in. After asmkit's core/relax.rs (see NOTICE).
#![tactic(auto)]

ghost use Rattle.std.specs.Prelude.{◌≡◌, ◌+◌, ◌*◌, ◌≤◌, length};
ghost use Rattle.relax.specs.Events.{condition_of, names_label, long_len, event_at, set_event, start_of, end_of, event_size};

// When a jump is taken.
#[derive(Clone, Copy)]
pub enum Condition {
    Always,
    // On a condition code, the low nibble of the opcode.
    On(u32),
}

// A `jmp` or `jcc` whose size relaxation may change.
#[derive(Clone, Copy)]
pub struct RelaxableJump {
    // Offset of the opcode.
    pub start: u32,
    // Bytes recorded.
    pub len: u32,
    pub label: u32,
    pub cc: Condition,
}

// The bytes of a short jump.
pub const SHORT_LEN: u32 = 2;

// The most bytes that a jump is recorded with.
pub const MOST_JUMP: u32 = 15;

impl RelaxableJump {
    // The bytes of its long form: `E9 rel32` or `0F 8x rel32`.
    pub fn long_len(self) -> u32
        ensures { result ≡ long_len self.cc }
    {
        match self.cc {
            Condition::Always => 5,
            Condition::On(_) => 6,
        }
    }
}

// Padding up to a multiple of `align`, where that takes no more than `most` bytes; else none.
#[derive(Clone, Copy)]
pub struct Alignment {
    pub start: u32,
    // Bytes recorded.
    pub len: u32,
    pub align: u32,
    pub most: u32,
}

// A conditional branch of A64, whose word relaxation may replace by its inverse and a B. What it branches on stands in its recorded word.
#[derive(Clone, Copy)]
pub struct FarBranch {
    pub start: u32,
    // Bytes recorded: `BRANCH_LEN`.
    pub len: u32,
    pub label: u32,
    // The code of its field: 9 or 10.
    pub code: u32,
}

// The bytes of a branch, and of its long form.
pub const BRANCH_LEN: u32 = 4;

pub const FAR_LEN: u32 = 8;

#[derive(Clone, Copy)]
pub enum LayoutEvent {
    Jump(RelaxableJump),
    Align(Alignment),
    Far(FarBranch),
}

// Where one `LayoutEvent` was recorded and where it ended up.
#[repr(C)]
#[derive(Clone, Copy)]
pub struct Segment {
    pub old_start: u32,
    pub old_end: u32,
    pub new_start: u32,
    pub new_end: u32,
}

// 0 to 15 are condition codes; this is none. A condition is a word of the table, lent by C; inside the program it is a `Condition`.
pub const NO_CONDITION: u32 = 16;

impl From<u32> for Condition {
    #[tactic(auto, using(seqs::proofs::Picking::picks), unfolding(crate::specs::Events::condition_of))]
    fn from(n: u32) -> Condition
        ensures { result ≡ condition_of n }
    {
        if n == NO_CONDITION {
            Condition::Always
        } else {
            Condition::On(n)
        }
    }
}

// An entry of the table: its words, its bytes, and the kinds that stand in its first word. The table is lent by C, so a kind is a word in it; inside the
// program it is the variant of a `LayoutEvent`.
pub const EVENT_WORDS: usize = 5;

pub const EVENT_SIZE: usize = 20;

pub const JUMP: u32 = 1;

pub const ALIGNMENT: u32 = 2;

pub const BRANCH: u32 = 3;

// Whether an entry of this kind names a label.
#[tactic(auto, unfolding(crate::specs::Events::names_label))]
pub fn names_label(kind: u32) -> bool
    ensures { result ≡ names_label kind }
{
    kind == JUMP || kind == BRANCH
}

// Event `i` of the table. An entry is kind (`JUMP`, `BRANCH`, else an alignment), start, length, label or multiple, condition, code or the most bytes of
// padding.
#[tactic(auto, using(seqs::proofs::Picking::picks), unfolding(crate::specs::Events::event_at, crate::specs::Events::event_of))]
pub fn event_at(events: &[u8], i: usize) -> LayoutEvent
    requires { i * event_size + event_size ≤ length events.now }
    ensures { result ≡ event_at events.now i }
{
    let k = i * EVENT_WORDS;
    let kind = words::word_at(events, k);
    let start = words::word_at(events, k + 1);
    let len = words::word_at(events, k + 2);
    let what = words::word_at(events, k + 3);
    let how = words::word_at(events, k + 4);
    match kind {
        JUMP => LayoutEvent::Jump(RelaxableJump {
            start,
            len,
            label: what,
            cc: Condition::from(how),
        }),
        BRANCH => LayoutEvent::Far(FarBranch {
            start,
            len,
            label: what,
            code: how,
        }),
        _ => LayoutEvent::Align(Alignment {
            start,
            len,
            align: what,
            most: how,
        }),
    }
}

// Writes entry `i` of the table.
#[tactic(auto, unfolding(crate::specs::Events::set_event))]
pub fn put_event(events: &mut [u8], i: usize, kind: u32, start: u32, len: u32, what: u32, how: u32)
    requires { i * event_size + event_size ≤ length events.old }
    ensures { events.new ≡ set_event events.old i kind start len what how }
{
    let k = i * EVENT_WORDS;
    words::put_word(events, k, kind);
    words::put_word(events, k + 1, start);
    words::put_word(events, k + 2, len);
    words::put_word(events, k + 3, what);
    words::put_word(events, k + 4, how);
}

pub fn event_start(event: LayoutEvent) -> u32
    ensures { result ≡ start_of event }
{
    match event {
        LayoutEvent::Jump(jump) => jump.start,
        LayoutEvent::Align(alignment) => alignment.start,
        LayoutEvent::Far(branch) => branch.start,
    }
}

// The offset after the event. Entries made by hand may pass 32 bits.
pub fn event_end(event: LayoutEvent) -> u64
    ensures { result ≡ end_of event }
{
    match event {
        LayoutEvent::Jump(jump) => jump.start as u64 + jump.len as u64,
        LayoutEvent::Align(alignment) => alignment.start as u64 + alignment.len as u64,
        LayoutEvent::Far(branch) => branch.start as u64 + branch.len as u64,
    }
}
