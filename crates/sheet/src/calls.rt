// The calls of a sheet, by kind.
ghost use Rattle.std.specs.Prelude.{◌≡◌, length};
ghost use Rattle.refusals.specs.Answers.{answer_of};
ghost use Rattle.buffer.specs.steps.Below.{Told};
ghost use Rattle.checks.specs.Lent.{recording_of};
ghost use Rattle.sheet.specs.Run.{call_of, called};
ghost use Rattle.sheet_form.specs.Form.{argument_size};
ghost use Rattle.sheet_form.specs.Kinds.{code_of};

use buffer::{CodeBuffer, Made, Recorded};
use sheet_form::MOST_BYTES;
use sheet_form::kinds::Kind;

// What a call for a label or a constant answers, without its number.
fn recorded(made: Made) -> Recorded
    ensures same { result.buffer ≡ made.buffer }
    ensures answered { answer_of result.answer ≡ answer_of made.answer }
{
    Recorded {
        buffer: made.buffer,
        answer: made.answer.map(|_| ()),
    }
}

// Makes the call of a kind with its arguments. `nearest` is what a jump is told of the labels.
pub(crate) fn call(
    b: CodeBuffer,
    kind: Kind,
    arguments: &[u8],
    nearest: Option<u32>,
    code: &mut [u8],
    labels: &mut [u8],
    events: &mut [u8],
    uses: &mut [u8],
    refs: &mut [u8],
    constants: &mut [u8],
    asked: &mut [u8],
    relocs: &mut [u8],
) -> Recorded
    requires { (length arguments.now ≡ argument_size) × Told labels.old b.labels b.code nearest }
    ensures { (answer_of result.answer, recording_of result.buffer code.new labels.new events.new uses.new refs.new constants.new asked.new relocs.new) ≡ called (call_of (code_of kind) arguments.now) (recording_of b code.old labels.old events.old uses.old refs.old constants.old asked.old relocs.old) }
{
    let first = words::word_at(arguments, 0);
    let second = words::word_at(arguments, 1);
    let third = words::word_at(arguments, 2);
    let fourth = words::word_at(arguments, 3);

    // Where bytes end whose count is the first word, of which there is room for 12.
    let end = 4 + first.min(MOST_BYTES) as usize;
    match kind {
        Kind::Bytes => b.put_bytes(code, &arguments[4..end]),
        Kind::NewLabel => recorded(b.get_label(labels)),
        Kind::Bind => b.try_bind_label(labels, events, uses, refs, relocs, first),
        // A second word of 0 stands for the default.
        Kind::Align if second == 0 => b.try_align_to(code, events, first),
        Kind::Align => b.try_align_to_within(code, events, first, second),
        Kind::Use => b.use_label_at_offset(labels, uses, first, second, third),
        Kind::Ref => b.record_label_ref(labels, refs, first, second, third, fourth),
        Kind::Jump => b.record_jump(labels, events, first, second, third, fourth, nearest),
        Kind::Constant => recorded(b.add_constant(constants, &arguments[4..end])),
        Kind::ConstantLabel => recorded(b.get_label_for_constant(constants, asked, labels, first)),
        Kind::Relocation => {
            let addend = fields::sign_extend_32(fourth);
            b.add_reloc_at_offset(labels, relocs, first, second, third, addend)
        }
    }
}
