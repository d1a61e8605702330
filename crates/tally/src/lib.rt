// Stored cases, read from standard input and compared: what the programs that do so share.
#![tactic(auto)]

ghost use Rattle.std.specs.Prelude.{◌≤◌, ◌<◌, length};

// How many cases were read, and what came of them.
#[derive(Clone, Copy)]
pub struct Tally {
    pub cases: u64,
    // Those that a program counts apart: refused, or in reach.
    pub marked: u64,
    pub agreeing: u64,
    pub passed_over: u64,
    pub disagreeing: u64,
    // The input ended before its last case; no Option, since what was counted up to there is printed.
    pub cut_short: bool,
}

pub const NONE: Tally = Tally {
    cases: 0,
    marked: 0,
    agreeing: 0,
    passed_over: 0,
    disagreeing: 0,
    cut_short: false,
};

// One case that was compared.
pub fn compared(agrees: bool) -> Tally {
    Tally {
        cases: 1,
        agreeing: u64::from(agrees),
        disagreeing: u64::from(!agrees),
        ..NONE
    }
}

// One case that was read and not compared.
pub fn passed_over() -> Tally {
    Tally {
        cases: 1,
        passed_over: 1,
        ..NONE
    }
}

// No case: the input ended.
pub fn cut_short() -> Tally {
    Tally {
        cut_short: true,
        ..NONE
    }
}

// The tally of `n` cases, or sections of them, `next` of each, as far as the input goes.
pub fn sum_of<F: FnMut(u32) -> Tally>(n: u32, mut next: F) -> Tally
    requires { F.IsAlwaysCallable next }
{
    let mut sum = NONE;
    for i in 0..n {
        sum = sum.plus(next(i));
        if sum.cut_short {
            break;
        }
    }
    sum
}

// The same of the whole input, whose first word, little-endian, is their number.
pub fn read_all<F: FnMut(u32) -> Tally>(next: F) -> Tally
    requires { F.IsAlwaysCallable next }
{
    match read() {
        Some(head) => sum_of(u32::from_le_bytes(head), next),
        None => cut_short(),
    }
}

impl Tally {
    // The tally of one case, marked or not.
    pub fn marked_if(self, marked: bool) -> Tally {
        Tally {
            marked: u64::from(marked),
            ..self
        }
    }

    pub fn plus(self, next: Tally) -> Tally {
        Tally {
            cases: self.cases.wrapping_add(next.cases),
            marked: self.marked.wrapping_add(next.marked),
            agreeing: self.agreeing.wrapping_add(next.agreeing),
            passed_over: self.passed_over.wrapping_add(next.passed_over),
            disagreeing: self.disagreeing.wrapping_add(next.disagreeing),
            cut_short: next.cut_short,
        }
    }

    // Says where the input did not end with its last case.
    pub fn print_end(self) {
        if self.cut_short {
            io::write_all(1, b"input cut short\n");
        } else if read::<1>().is_some() {
            io::write_all(1, b"input goes on\n");
        }
    }
}

// Fills `part` from standard input: false where that ends before.
pub fn fill(part: &mut [u8]) -> bool {
    io::read_full(0, part) == part.len()
}

// The next `N` bytes of standard input, where it has as many.
pub fn read<const N: usize>() -> Option<[u8; N]> {
    let mut part = [0u8; N];
    if fill(&mut part) { Some(part) } else { None }
}

pub fn print_number(n: u64) {
    io::write_all(1, b" ");
    io::print_decimal(1, n);
}

// Whether the two halves of `pair`, what was made and what is stored, hold the same bytes.
pub fn halves_agree(pair: &[u8]) -> bool {
    let (made, stored) = pair.split_at(pair.len() / 2);
    made == stored
}

// The same of two windows, before and after: `patch` is given the field, or NOP, of the first, its bytes from 2 up to `end`.
pub fn windows_agree<F: FnOnce(&mut [u8])>(pair: &mut [u8], end: usize, patch: F) -> bool
    requires calls { F.IsAlwaysCallable patch }
    requires within { (2 ≤ end) × (end ≤ length pair.old) }
{
    patch(&mut pair[2..end]);
    halves_agree(pair)
}
