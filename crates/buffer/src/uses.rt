// Uses of labels, the fields that name one, and the refs that X64 keeps of them. An entry of uses is offset, label and code; of refs, the addend too.
ghost use Rattle.std.specs.Prelude.{◌≡◌, ◌+◌, ◌*◌, ◌≤◌, length};
ghost use Rattle.words.specs.Words.{set_word};
ghost use Rattle.fields.specs.Kinds.{decoded};
ghost use Rattle.refusals.specs.Answers.{answer_of};
ghost use Rattle.buffer.specs.State.{recorded};
ghost use Rattle.buffer.specs.Refusals.{foreign, why_use, why_ref};
ghost use Rattle.buffer.specs.Calls.{use_label, record_ref};
ghost use Rattle.buffer.specs.Tables.{use_words, use_size, ref_words, ref_size};

use crate::open::opened;
use crate::{
    CodeBuffer, LABEL_SIZE, MOST_ENTRIES, REF_SIZE, REF_WORDS, Recorded, USE_SIZE, USE_WORDS,
    keeps_events,
};
use refusals::Refusal;

// Whether the architecture has no field of the kind that `code` stands for.
pub fn is_foreign(code: u32, arch: u32) -> bool
    ensures { result ≡ foreign (decoded code) arch }
{
    match fields::LabelUse::try_from(code) {
        Ok(kind) => !kind.supports_arch(arch),
        Err(_) => true,
    }
}

// Rows of words are written word by word, here and at the other tables: their clauses say what each word is.
fn put_use(uses: &mut [u8], i: usize, offset: u32, label: u32, code: u32)
    requires { i * use_size + use_size ≤ length uses.old }
    ensures { uses.new ≡ set_word (set_word (set_word uses.old (i * use_words) offset) (i * use_words + 1) label) (i * use_words + 2) code }
{
    let k = i * USE_WORDS;
    words::put_word(uses, k, offset);
    words::put_word(uses, k + 1, label);
    words::put_word(uses, k + 2, code);
}

fn put_ref(refs: &mut [u8], i: usize, offset: u32, label: u32, code: u32, addend: u32)
    requires { i * ref_size + ref_size ≤ length refs.old }
    ensures { refs.new ≡ set_word (set_word (set_word (set_word refs.old (i * ref_words) offset) (i * ref_words + 1) label) (i * ref_words + 2) code) (i * ref_words + 3) addend }
{
    let k = i * REF_WORDS;
    words::put_word(refs, k, offset);
    words::put_word(refs, k + 1, label);
    words::put_word(refs, k + 2, code);
    words::put_word(refs, k + 3, addend);
}

impl CodeBuffer {
    // `known` labels are lent, and room for `room` uses.
    fn why_no_use(self, known: usize, room: usize, label: u32, code: u32) -> Result<(), Refusal>
        ensures { answer_of result ≡ why_use self known room label code }
    {
        let n = self.uses as usize;
        self.standing(
            self.labels as usize <= known && (n <= room && code <= fields::LAST_CODE),
            known <= MOST_ENTRIES && room <= MOST_ENTRIES,
        )?;
        if code == fields::UNSUPPORTED_CODE {
            return Err(Refusal::UnsupportedUse);
        }
        if is_foreign(code, self.arch) {
            return Err(Refusal::ForeignKind);
        }
        if self.labels <= label {
            return Err(Refusal::UnknownNumber);
        }
        if room <= n {
            return Err(Refusal::TableFull);
        }
        Ok(())
    }

    // The field at `offset`, of the kind that `code` stands for, names the label.
    pub fn use_label_at_offset(
        mut self,
        labels: &[u8],
        uses: &mut [u8],
        offset: u32,
        label: u32,
        code: u32,
    ) -> Recorded
        ensures { (recorded result, uses.new) ≡ use_label self labels.now uses.old offset label code }
    {
        if let Err(why) = self.why_no_use(
            labels.len() / LABEL_SIZE,
            uses.len() / USE_SIZE,
            label,
            code,
        ) {
            return self.turn_down(why);
        }
        put_use(uses, self.uses as usize, offset, label, code);
        self.uses += 1;
        self.unresolved += opened(labels, label);
        Recorded {
            buffer: self,
            answer: Ok(()),
        }
    }

    fn why_no_ref(self, known: usize, room: usize, label: u32, code: u32) -> Result<(), Refusal>
        ensures { answer_of result ≡ why_ref self known room label code }
    {
        let n = self.refs as usize;
        self.standing(
            self.labels as usize <= known && (n <= room && code <= fields::LAST_CODE),
            known <= MOST_ENTRIES && room <= MOST_ENTRIES,
        )?;
        if !keeps_events(self.arch) {
            return Ok(());
        }
        if is_foreign(code, self.arch) {
            return Err(Refusal::ForeignKind);
        }
        if self.labels <= label {
            return Err(Refusal::UnknownNumber);
        }
        if room <= n {
            return Err(Refusal::TableFull);
        }
        Ok(())
    }

    // The same with an addend, a 32-bit two's complement word. Off X64 nothing is kept.
    pub fn record_label_ref(
        mut self,
        labels: &[u8],
        refs: &mut [u8],
        offset: u32,
        label: u32,
        code: u32,
        addend: u32,
    ) -> Recorded
        ensures { (recorded result, refs.new) ≡ record_ref self labels.now refs.old offset label code addend }
    {
        if let Err(why) = self.why_no_ref(
            labels.len() / LABEL_SIZE,
            refs.len() / REF_SIZE,
            label,
            code,
        ) {
            return self.turn_down(why);
        }
        if keeps_events(self.arch) {
            put_ref(refs, self.refs as usize, offset, label, code, addend);
            self.refs += 1;
            self.unresolved += opened(labels, label);
        }
        Recorded {
            buffer: self,
            answer: Ok(()),
        }
    }
}
