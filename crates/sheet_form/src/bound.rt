// The greatest offsets at which labels are bound, kept from call to call of a sheet: what a jump has to know of the labels (number 10) is then no longer
// looked for among all of them.
ghost use Rattle.std.specs.Prelude.{◌≡◌, List, ℕ, ◌*◌, ◌≤◌, length};
ghost use Rattle.buffer.specs.State.{none};
ghost use Rattle.buffer.specs.Tables.{label_size};
ghost use Rattle.buffer.specs.steps.Below.{under, greatest_below, Told};
ghost use Rattle.sheet_form.specs.steps.Bound.{Known, Follows};

use crate::kinds::Kind;
use buffer::{CodeBuffer, LABEL_SIZE, NONE};

// The greatest offset at which a label is bound, and the greatest below that, as far as they are known.
#[derive(Clone, Copy)]
pub struct Bound {
    pub greatest: Option<u32>,
    pub second: Option<u32>,
}

// A label's offset; 0 where it is not bound.
fn offset_of(label: u32) -> u32
    ensures { result ≡ under label none }
{
    if label < NONE { label } else { 0 }
}

// The greatest offset at which one of the first `n` labels is bound; 0 where none is.
fn greatest_of(labels: &[u8], n: usize) -> u32
    requires { n * label_size ≤ length labels.now }
    ensures { result ≡ greatest_below labels.now n none }
{
    let mut most: u32 = 0;
    for i in 0..n {
        most = offset_of(words::word_at(labels, i)).max(most);
    }
    most
}

impl Bound {
    // Before a call: the first jump that is read looks at the labels, if more calls follow.
    pub fn before_call(self, b: CodeBuffer, kind: u8, labels: &[u8], more: bool) -> Bound
        requires { Known labels.now b.labels self }
        ensures { Known labels.now b.labels result }
    {
        let n = b.labels as usize;
        if kind != Kind::Jump as u8
            || b.arch != fields::X64
            || self.greatest.is_some()
            || !more
            || labels.len() / LABEL_SIZE < n
        {
            return self;
        }
        Bound {
            greatest: Some(greatest_of(labels, n)),
            second: None,
        }
    }

    // The greatest offset of a label below the current offset, where it is known.
    pub fn nearest(self, code: u32) -> Option<u32>
        ensures { (labels : List ℕ) (n : ℕ) → Known labels n self → Told labels n code result }
    {
        let most = self.greatest.unwrap_or(NONE);
        if most < code {
            return Some(most);
        }
        self.second.filter(|second| *second < code)
    }

    // After a call that was accepted at the offset `code`: a bind adds that offset. Any byte may stand for the call's kind here and above.
    pub fn after_call(self, kind: u8, code: u32) -> Bound
        ensures { (labels labels' : List ℕ) (n n' : ℕ) → Follows kind code labels n labels' n' → Known labels n self → Known labels' n' result }
    {
        if kind != Kind::Bind as u8 {
            return self;
        }
        let most = self.greatest.unwrap_or(NONE);
        if most < code {
            Bound {
                greatest: Some(code),
                second: Some(most),
            }
        } else if most == code {
            self
        } else {
            Bound {
                greatest: self.greatest,
                second: self.second.map(|second| second.max(code)),
            }
        }
    }
}
