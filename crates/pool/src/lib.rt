// The pool of constants: where the constants that were asked for stand, after asmkit's core/buffer.rs (see NOTICE). `asked` lists them in order; an entry
// of `constants` is a size, a label and 64 bytes.
#![tactic(auto)]

ghost use Rattle.std.specs.Prelude.{◌≡◌, ◌+◌, ◌*◌, ◌≤◌, ◌<◌, length};
ghost use Rattle.seqs.specs.Over.{over};
ghost use Rattle.words.specs.Words.{word_at};
ghost use Rattle.buffer.specs.Tables.{constant_size, asked_size};
ghost use Rattle.fresh.specs.Pooled.{constant_alignment};
ghost use Rattle.pool.specs.steps.Pool.{size_at, label_at, pool_start, pool_bytes, pool_bound, pool_unbound, pool_written, is_any_bound, PoolFits, PoolLabels, PoolRoom, pool_alignment, most_pooled, offset_bound};

// What a constant of `size` bytes is aligned on.
pub fn constant_alignment(size: u32) -> u32
    ensures { result ≡ constant_alignment size }
{
    match size {
        0..=8 => 8,
        9..=32 => 16,
        _ => 64,
    }
}

// Of entry `j` of `asked`, the constant's size and its label, whatever the other entries say.
pub fn size_at(constants: &[u8], asked: &[u8], j: usize) -> u32
    requires { (j * asked_size + asked_size ≤ length asked.now) × (word_at asked.now j * constant_size + constant_size ≤ length constants.now) }
    ensures { result ≡ size_at constants.now asked.now j }
{
    let n = words::word_at(asked, j) as usize;
    words::word_at(constants, n * buffer::CONSTANT_WORDS)
}

pub fn label_at(constants: &[u8], asked: &[u8], j: usize) -> u32
    requires { (j * asked_size + asked_size ≤ length asked.now) × (word_at asked.now j * constant_size + constant_size ≤ length constants.now) }
    ensures { result ≡ label_at constants.now asked.now j }
{
    let n = words::word_at(asked, j) as usize;
    words::word_at(constants, n * buffer::CONSTANT_WORDS + 1)
}

// The constants that were asked for: `asked` lists `count` of them, each with an entry among `constants`.
#[derive(Clone, Copy)]
pub struct Pool<'a> {
    pub constants: &'a [u8],
    pub asked: &'a [u8],
    pub count: usize,
    ghost fits: { PoolFits constants.now asked.now count },
}

impl<'a> Pool<'a> {
    pub fn size_at(&self, j: usize) -> u32
        requires { j < self.now.count }
        ensures { result ≡ size_at self.now.constants.now self.now.asked.now j }
    {
        size_at(self.constants, self.asked, j)
    }

    pub fn label_at(&self, j: usize) -> u32
        requires { j < self.now.count }
        ensures { result ≡ label_at self.now.constants.now self.now.asked.now j }
    {
        label_at(self.constants, self.asked, j)
    }

    // Where the pool ends, if it starts at `from`.
    pub fn end(&self, from: u32) -> u32
        requires in_bound { from ≤ offset_bound }
        ensures { (result ≡ pool_start from self.now.constants.now self.now.asked.now self.now.count) × (result ≤ from + self.now.count * most_pooled) }
    {
        let mut at = from;
        for j in 0..self.count {
            let size = self.size_at(j);
            at = at + encoder::padding_len(at, constant_alignment(size)) + size;
        }
        at
    }

    // What the code is to be loaded on a multiple of: the greater of 32 and the largest alignment among the constants.
    pub fn code_alignment(&self) -> u32
        ensures { result ≡ pool_alignment self.now.constants.now self.now.asked.now self.now.count }
    {
        let mut alignment: u32 = 32;
        for j in 0..self.count {
            let size = self.size_at(j);
            alignment = alignment.max(constant_alignment(size));
        }
        alignment
    }

    // Whether the label of one of the constants is bound.
    pub fn is_any_bound(&self, labels: &[u8]) -> bool
        requires pool_labels { PoolLabels labels.now self.now.constants.now self.now.asked.now self.now.count }
        ensures { result ≡ is_any_bound labels.now self.now.constants.now self.now.asked.now self.now.count }
    {
        (0..self.count).any(|j| words::word_at(labels, self.label_at(j) as usize) != buffer::NONE)
    }

    // Binds the constants' labels where the constants will stand.
    pub fn bind(&self, from: u32, labels: &mut [u8])
        requires pool_labels { PoolLabels labels.old self.now.constants.now self.now.asked.now self.now.count }
        requires in_bound { from ≤ offset_bound }
        ensures { labels.new ≡ pool_bound from labels.old self.now.constants.now self.now.asked.now self.now.count }
    {
        let mut at = from;
        for j in 0..self.count {
            let size = self.size_at(j);
            let label = self.label_at(j) as usize;
            let offset = at + encoder::padding_len(at, constant_alignment(size));
            words::put_word(labels, label, offset);
            at = offset + size;
        }
    }

    // Takes that back.
    pub fn unbind(&self, labels: &mut [u8])
        requires pool_labels { PoolLabels labels.old self.now.constants.now self.now.asked.now self.now.count }
        ensures { labels.new ≡ pool_unbound labels.old self.now.constants.now self.now.asked.now self.now.count }
    {
        for j in 0..self.count {
            let label = self.label_at(j) as usize;
            words::put_word(labels, label, buffer::NONE);
        }
    }

    // Writes the pool's padding, and zeros where the constants will stand.
    pub fn emit(&self, output: &mut [u8], arch: u32, from: u32)
        requires in_bound { from ≤ offset_bound }
        requires output_within { pool_start from self.now.constants.now self.now.asked.now self.now.count ≤ length output.old }
        ensures { output.new ≡ over output.old from (pool_bytes arch from self.now.constants.now self.now.asked.now self.now.count) }
    {
        let mut at = from;
        for j in 0..self.count {
            let size = self.size_at(j);
            let offset = at + encoder::padding_len(at, constant_alignment(size));
            let end = offset + size;
            buffer::bytes::pad(arch, &mut output[at as usize..offset as usize]);
            output[offset as usize..end as usize].fill(0);
            at = end;
        }
    }

    // Writes the constants' bytes where their labels say.
    pub fn write(&self, output: &mut [u8], labels: &[u8])
        requires pool_labels { PoolLabels labels.now self.now.constants.now self.now.asked.now self.now.count }
        requires pool_room { PoolRoom output.old labels.now self.now.constants.now self.now.asked.now self.now.count }
        ensures { output.new ≡ pool_written output.old labels.now self.now.constants.now self.now.asked.now self.now.count }
    {
        for j in 0..self.count {
            let size = self.size_at(j) as usize;
            let label = self.label_at(j) as usize;
            let offset = words::word_at(labels, label) as usize;
            let from = words::word_at(self.asked, j) as usize * buffer::CONSTANT_SIZE
                + buffer::CONSTANT_HEAD;
            seqs::copy(
                &self.constants[from..from + size],
                &mut output[offset..offset + size],
            );
        }
    }
}
