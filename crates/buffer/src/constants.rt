// Constants, and their labels. An entry is size, label (or `NONE`) and 64 bytes; the table of askings lists the constants that have labels, in order.
ghost use Rattle.std.specs.Prelude.{◌≡◌, ◌+◌, ◌*◌, ◌/◌, ◌≤◌, length};
ghost use Rattle.seqs.specs.Over.{over};
ghost use Rattle.words.specs.Words.{set_word};
ghost use Rattle.refusals.specs.Answers.{answer_of};
ghost use Rattle.buffer.specs.State.{none, made_of};
ghost use Rattle.buffer.specs.Refusals.{why_constant, why_constant_label};
ghost use Rattle.buffer.specs.Calls.{add_constant, asked_first, constant_label};
ghost use Rattle.buffer.specs.Tables.{most_constant, label_size, constant_words, constant_size, constant_head, asked_size};

use crate::{
    ASKED_SIZE, CONSTANT_HEAD, CONSTANT_SIZE, CONSTANT_WORDS, CodeBuffer, LABEL_SIZE,
    MOST_CONSTANT, MOST_ENTRIES, Made, NONE,
};
use refusals::Refusal;

fn put_constant(constants: &mut [u8], i: usize, bytes: &[u8])
    requires { (i * constant_size + constant_size ≤ length constants.old) × (length bytes.now ≤ most_constant) }
    ensures { constants.new ≡ over (set_word (set_word constants.old (i * constant_words) (length bytes.now)) (i * constant_words + 1) none) (i * constant_size + constant_head) bytes.now }
{
    words::put_word(constants, i * CONSTANT_WORDS, bytes.len() as u32);
    words::put_word(constants, i * CONSTANT_WORDS + 1, NONE);
    let at = i * CONSTANT_SIZE + CONSTANT_HEAD;
    let end = at + bytes.len();
    seqs::copy(bytes, &mut constants[at..end]);
}

impl CodeBuffer {
    #[tactic(auto, using(refusals::proofs::Chains::chains, seqs::proofs::Picking::picks), unfolding(crate::specs::Refusals::why_constant))]
    fn why_no_constant(self, room: usize, n: usize) -> Result<(), Refusal>
        ensures { answer_of result ≡ why_constant self room n }
    {
        let count = self.constants as usize;
        self.standing(count <= room, room <= MOST_ENTRIES)?;
        if MOST_CONSTANT < n {
            return Err(Refusal::BadEntry);
        }
        if room <= count {
            return Err(Refusal::TableFull);
        }
        Ok(())
    }

    // A new constant, without a label.
    pub fn add_constant(self, constants: &mut [u8], bytes: &[u8]) -> Made
        ensures { (made_of result, constants.new) ≡ add_constant self constants.old bytes.now }
    {
        if let Err(why) = self.why_no_constant(constants.len() / CONSTANT_SIZE, bytes.len()) {
            return self.make_none(why);
        }
        let n = self.constants;
        put_constant(constants, n as usize, bytes);
        // Field by field: copied in pairs, of which other calls make other ones, the counts would lie in memory while a sheet runs.
        Made {
            buffer: CodeBuffer {
                constants: n + 1,
                ..self
            },
            answer: Ok(n),
        }
    }

    fn why_no_constant_label(
        self,
        constants: usize,
        asked: usize,
        labels: usize,
        constant: u32,
    ) -> Result<(), Refusal>
        ensures { answer_of result ≡ why_constant_label self constants asked labels constant }
    {
        self.standing(
            self.constants as usize <= constants
                && (self.asked as usize <= asked && self.labels as usize <= labels),
            constants <= MOST_ENTRIES && (asked <= MOST_ENTRIES && labels <= MOST_ENTRIES),
        )?;
        if self.constants <= constant {
            return Err(Refusal::UnknownNumber);
        }
        Ok(())
    }

    // The label of a constant that has none: a new one.
    #[tactic(auto, using(seqs::proofs::Picking::picks), unfolding(crate::specs::Calls::asked_first))]
    fn ask_first(
        mut self,
        constants: &mut [u8],
        asked: &mut [u8],
        labels: &mut [u8],
        constant: u32,
    ) -> Made
        requires { why_constant_label self (length constants.old / constant_size) (length asked.old / asked_size) (length labels.old / label_size) constant ≡ 0 }
        ensures { (made_of result, (constants.new, (asked.new, labels.new))) ≡ asked_first self constants.old asked.old labels.old constant }
    {
        let label = self.labels;
        let place = self.asked;
        if labels.len() / LABEL_SIZE <= label as usize
            || asked.len() / ASKED_SIZE <= place as usize
        {
            return self.make_none(Refusal::TableFull);
        }
        words::put_word(constants, constant as usize * CONSTANT_WORDS + 1, label);
        words::put_word(asked, place as usize, constant);
        words::put_word(labels, label as usize, NONE);
        self.asked = place + 1;
        self.labels = label + 1;
        Made {
            buffer: self,
            answer: Ok(label),
        }
    }

    // The constant's label, made where this is the first asking.
    pub fn get_label_for_constant(
        self,
        constants: &mut [u8],
        asked: &mut [u8],
        labels: &mut [u8],
        constant: u32,
    ) -> Made
        ensures { (made_of result, (constants.new, (asked.new, labels.new))) ≡ constant_label self constants.old asked.old labels.old constant }
    {
        if let Err(why) = self.why_no_constant_label(
            constants.len() / CONSTANT_SIZE,
            asked.len() / ASKED_SIZE,
            labels.len() / LABEL_SIZE,
            constant,
        ) {
            return self.make_none(why);
        }
        let held = words::word_at(constants, constant as usize * CONSTANT_WORDS + 1);
        if held != NONE {
            return Made {
                buffer: self,
                answer: Ok(held),
            };
        }
        self.ask_first(constants, asked, labels, constant)
    }
}
