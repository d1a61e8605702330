// Lists: the copier, the counter, and (in specs/ and proofs/) the laws on lists that every other crate cites.
#![tactic(auto)]

ghost use Rattle.std.specs.Prelude.{◌≡◌, ℕ, ◌<◌};
ghost use Rattle.seqs.specs.Counting.{Counts};
ghost use Rattle.seqs.specs.Over.{over};

// Copies `src` over the first bytes of `dst`, as many as both have. A loop, since the slice's own method calls `memmove`: dear for a few bytes, and one more
// name that the archive would need.
pub fn copy(src: &[u8], dst: &mut [u8])
    ensures { dst.new ≡ over dst.old 0 src.now }
{
    let n = src.len().min(dst.len());
    for at in 0..n {
        dst[at] = src[at];
    }
}

// How many of the numbers below `n` have a property. A sum without an exit, so that it compiles to few instructions a number.
pub fn how_many<F: Fn(usize) -> bool>(n: usize, has: F) -> u32
    requires few { n < 4294967296 }
    requires callable { (i : ℕ) → i < n → F.pre has i }
    ensures { Counts (F.post has) n result }
{
    let mut found: u32 = 0;
    for i in 0..n {
        found += u32::from(has(i));
    }
    found
}
