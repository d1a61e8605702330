// The finished code: events and the runs between them, and the fields, labels and relocations that name offsets. After asmkit's core/buffer.rs and
// core/relax.rs (see NOTICE).
#![tactic(auto)]

ghost use Rattle.std.specs.Prelude.{◌≡◌, ℕ, ◌+◌, ◌-◌, ◌*◌, ◌≤◌, List, [], ◌∷◌, length, take, drop};
ghost use Rattle.seqs.specs.Over.{over};
ghost use Rattle.words.specs.Words.{word_at};
ghost use Rattle.fields.specs.Kinds.{Use, decoded, patch_size};
ghost use Rattle.fields.specs.Words64.{plus, minus, sign_extend};
ghost use Rattle.fields.specs.Patch.{patched, patched_use};
ghost use Rattle.relax.specs.Events.{event_at, event_size, start_of, extent_of, end_of};
ghost use Rattle.buffer.specs.Tables.{label_size, ref_words, ref_size};
ghost use Rattle.recording.specs.View.{entries};
ghost use Rattle.fresh.specs.Forms.{short_form, long_form, form, width, field_of, branch_of, far_branch_of};
ghost use Rattle.fresh.specs.Fill.{part, fill_field, fill_jump};
ghost use Rattle.fresh.specs.Segments.{map_offset};
ghost use Rattle.fresh.specs.steps.Runs.{form_at, runs};
ghost use Rattle.pool.specs.steps.Pool.{offset_bound};
ghost use Rattle.emit.specs.steps.Emit.{jump_form, branch_form, Encodes, Writes, Keeps, Emits, use_filled, uses_filled, UseFits, UsesFit, ref_filled, refs_filled, RefFits, RefsFit, field_reaches, refs_reach, RefsKnown, jumps_filled, JumpFits, JumpsFit, mapped_words, WordsFit};

use fields::LabelUse;
use layout::OffsetMap;
use relax::{Condition, FarBranch, LayoutEvent, RelaxableJump, Segment};

fn short_opcode(cc: Condition) -> u8
    requires { Encodes cc }
    ensures { short_form cc ≡ result ∷ 0 ∷ [] }
{
    match cc {
        Condition::Always => 0xeb,
        Condition::On(c) => (0x70 + c) as u8,
    }
}

fn put_short(part: &mut [u8], cc: Condition)
    requires encodes { Encodes cc }
    requires part_length { length part.old ≡ length (short_form cc) }
    ensures { part.new ≡ short_form cc }
{
    part.fill(0);
    part[0] = short_opcode(cc);
}

fn put_long(part: &mut [u8], cc: Condition)
    requires encodes { Encodes cc }
    requires part_length { length part.old ≡ length (long_form cc) }
    ensures { part.new ≡ long_form cc }
{
    part.fill(0);
    match cc {
        Condition::Always => {
            part[0] = 0xe9;
        }
        Condition::On(c) => {
            part[0] = 0x0f;
            part[1] = (0x80 + c) as u8;
        }
    }
}

// Fills `part` with a jump whose displacement is 0.
pub fn put_jump(part: &mut [u8], cc: Condition, long: bool)
    requires encodes { Encodes cc }
    requires part_length { length part.old ≡ length (jump_form cc long) }
    ensures { part.new ≡ jump_form cc long }
{
    if long {
        put_long(part, cc);
    } else {
        put_short(part, cc);
    }
}

// Fills `part` with a branch whose displacement is as recorded: `word`, or its inverse over a B.
fn put_branch(part: &mut [u8], code: u32, word: u32, long: bool)
    requires { length part.old ≡ length (branch_form code word long) }
    ensures { part.new ≡ branch_form code word long }
{
    if long {
        words::put_word(part, 0, fields::skipping(code, word));
        words::put_word(part, 1, fields::OPEN_B);
    } else {
        words::put_word(part, 0, word);
    }
}

// Fills `part` with what an event takes, whatever its recorded bytes; of a branch these are `word`.
fn put_event(part: &mut [u8], event: LayoutEvent, word: u32, long: bool, at: u32, arch: u32)
    requires writes { Writes event }
    requires part_length { length part.old ≡ width event long at }
    ensures { (bytes : List ℕ) → Keeps event word bytes → part.new ≡ form arch event bytes long at }
{
    match event {
        LayoutEvent::Jump(jump) => {
            put_jump(part, jump.cc, long);
        }
        LayoutEvent::Align(_) => {
            buffer::bytes::pad(arch, part);
        }
        LayoutEvent::Far(branch) => {
            put_branch(part, branch.code, word, long);
        }
    }
}

// Copies the recorded bytes from `old` up to `start` to where they come to stand.
pub fn copy_run(output: &mut [u8], code: &[u8], old: usize, start: usize, new: usize)
    requires { (old ≤ start) × (start ≤ length code.now) × (new + (start - old) ≤ length output.old) }
    ensures { output.new ≡ over output.old new (take (start - old) (drop old code.now)) }
{
    let end = new + (start - old);
    seqs::copy(&code[old..start], &mut output[new..end]);
}

// The word that a branch was recorded with; 0 of any other event, whose form looks at no word, so that there is no Option to open.
fn recorded_word(code: &[u8], event: LayoutEvent) -> u32
    requires { Writes event × (end_of event ≤ length code.now) }
    ensures { Keeps event result (part code.now (start_of event) (extent_of event)) }
{
    match event {
        LayoutEvent::Jump(_) | LayoutEvent::Align(_) => 0,
        LayoutEvent::Far(branch) => {
            let start = branch.start as usize;
            let end = start + 4;
            words::word_at(&code[start..end], 0)
        }
    }
}

// Writes an event where its segment says.
fn emit_event(
    output: &mut [u8],
    event: LayoutEvent,
    word: u32,
    long: bool,
    segment: Segment,
    arch: u32,
)
    requires writes { Writes event }
    requires within { (segment.new_end ≡ segment.new_start + width event long segment.new_start) × (segment.new_end ≤ length output.old) }
    ensures { (bytes : List ℕ) → Keeps event word bytes → output.new ≡ over output.old segment.new_start (form arch event bytes long segment.new_start) }
{
    let start = segment.new_start;
    let end = segment.new_end;
    put_event(
        &mut output[start as usize..end as usize],
        event,
        word,
        long,
        start,
        arch,
    );
}

// Writes the run before event `i` and the event, long or not, where its segment says; the event before ended at `old` and `new`.
fn emit_segment(
    output: &mut [u8],
    code: &[u8],
    events: &[u8],
    i: usize,
    long: bool,
    segment: Segment,
    old: usize,
    new: usize,
    arch: u32,
)
    requires within { (i * event_size + event_size ≤ length events.now) × Writes (event_at events.now i) × (end_of (event_at events.now i) ≤ length code.now) }
    requires within_2 { (old ≤ segment.old_start) × (segment.old_start ≤ length code.now) × (new + (segment.old_start - old) ≤ length output.old) }
    requires within_3 { (segment.new_end ≡ segment.new_start + width (event_at events.now i) long segment.new_start) × (segment.new_end ≤ length output.old) }
    ensures { output.new ≡ over (over output.old new (take (segment.old_start - old) (drop old code.now))) segment.new_start (form_at arch code.now (event_at events.now i) long segment.new_start) }
{
    let event = relax::event_at(events, i);
    copy_run(output, code, old, segment.old_start as usize, new);
    let word = recorded_word(code, event);
    emit_event(output, event, word, long, segment, arch);
}

// Writes the first `len` bytes of the code, events as their segments say, displacements 0.
pub fn emit_events(
    output: &mut [u8],
    code: &[u8],
    events: &[u8],
    long: &[bool],
    segments: &[Segment],
    n: usize,
    len: usize,
    arch: u32,
)
    requires { Emits output.old code.now events.now long.now segments.now n len arch }
    ensures { output.new ≡ over output.old 0 (runs arch 0 0 (take len code.now) (entries (event_at events.now) n) long.now) }
{
    let mut old: usize = 0;
    let mut new: usize = 0;
    for i in 0..n {
        let segment = layout::segment_at(segments, i);
        emit_segment(output, code, events, i, long[i], segment, old, new, arch);
        old = segment.old_end as usize;
        new = segment.new_end as usize;
    }
    copy_run(output, code, old, len, new);
}

fn patch_field(output: &mut [u8], kind: LabelUse, at: u32, label: u32, addend: u32)
    requires { at + patch_size kind ≤ length output.old }
    ensures { output.new ≡ over output.old at (patched kind at (plus label (sign_extend 32 addend)) (part output.old at (patch_size kind))) }
{
    let start = at as usize;
    let end = start + kind.patch_size();
    let addend = fields::sign_extend_32(addend);
    kind.patch_with_addend(&mut output[start..end], at, label, addend);
}

// The addend stands in the field. A closure in the place of the last line would be no shorter than a second function.
fn patch_held(output: &mut [u8], kind: LabelUse, at: u32, label: u32)
    requires { at + patch_size kind ≤ length output.old }
    ensures { output.new ≡ over output.old at (patched_use kind at label (part output.old at (patch_size kind))) }
{
    let start = at as usize;
    let end = start + kind.patch_size();
    kind.patch(&mut output[start..end], at, label);
}

// The offset of the label that an entry names, of uses or of refs, which starts at word `k` of its table.
fn label_of(table: &[u8], k: usize, labels: &[u8]) -> u32
    requires { (k * 4 + 8 ≤ length table.now) × (word_at table.now (k + 1) * label_size + label_size ≤ length labels.now) }
    ensures { result ≡ word_at labels.now (word_at table.now (k + 1)) }
{
    words::word_at(labels, words::word_at(table, k + 1) as usize)
}

fn patch_use(output: &mut [u8], uses: &[u8], labels: &[u8], i: usize)
    requires { UseFits (length output.old) uses.now labels.now i }
    ensures { output.new ≡ use_filled uses.now labels.now i output.old }
{
    let k = i * buffer::USE_WORDS;
    let at = words::word_at(uses, k);
    let label = label_of(uses, k, labels);
    match LabelUse::try_from(words::word_at(uses, k + 2)) {
        Ok(kind) => patch_held(output, kind, at, label),
        Err(_) => {}
    }
}

// Patches the uses in order.
pub fn patch_uses(output: &mut [u8], uses: &[u8], labels: &[u8], count: usize)
    requires { UsesFit (length output.old) uses.now labels.now count }
    ensures { output.new ≡ uses_filled output.old uses.now labels.now count }
{
    for i in 0..count {
        patch_use(output, uses, labels, i);
    }
}

// Fills ref `i`, whose field stands at `at`.
fn patch_ref(output: &mut [u8], refs: &[u8], labels: &[u8], at: u32, i: usize)
    requires { RefFits (length output.old) refs.now labels.now at i }
    ensures { output.new ≡ ref_filled refs.now labels.now at i output.old }
{
    let k = i * buffer::REF_WORDS;
    let label = label_of(refs, k, labels);
    let addend = words::word_at(refs, k + 3);
    match LabelUse::try_from(words::word_at(refs, k + 2)) {
        Ok(kind) => patch_field(output, kind, at, label, addend),
        Err(_) => {}
    }
}

// Fills the refs in order, where the labels have their new offsets.
pub fn patch_refs(output: &mut [u8], refs: &[u8], labels: &[u8], offsets: &OffsetMap, count: usize)
    requires { RefsFit (length output.old) refs.now labels.now offsets.now.segments.now offsets.now.count count }
    ensures { output.new ≡ refs_filled output.old refs.now labels.now offsets.now.segments.now offsets.now.count count }
{
    for i in 0..count {
        let at = offsets.map(words::word_at(refs, i * buffer::REF_WORDS));
        patch_ref(output, refs, labels, at, i);
    }
}

// How far from the field's first byte its target is.
fn distance(at: u32, label: u32, addend: u32) -> u64
    ensures { result ≡ minus (plus label (sign_extend 32 addend)) at }
{
    u64::from(label)
        .wrapping_add(fields::sign_extend_32(addend))
        .wrapping_sub(u64::from(at))
}

// Whether ref `i` does, its field at `at` and its label at `label`.
fn ref_reaches(refs: &[u8], at: u32, label: u32, i: usize) -> bool
    requires { i * ref_size + ref_size ≤ length refs.now }
    ensures { result ≡ field_reaches (decoded (word_at refs.now (i * ref_words + 2))) at label (word_at refs.now (i * ref_words + 3)) }
{
    let k = i * buffer::REF_WORDS;
    let far = distance(at, label, words::word_at(refs, k + 3));
    match LabelUse::try_from(words::word_at(refs, k + 2)) {
        Ok(kind) => kind.can_reach_delta(far),
        Err(_) => true,
    }
}

// Whether every ref reaches its label, where the labels have their recorded offsets.
pub fn refs_reach(refs: &[u8], labels: &[u8], offsets: &OffsetMap, count: usize) -> bool
    requires { RefsKnown refs.now labels.now count }
    ensures { result ≡ refs_reach refs.now labels.now offsets.now.segments.now offsets.now.count count }
{
    (0..count).all(|i| {
        let at = words::word_at(refs, i * buffer::REF_WORDS);
        let label = label_of(refs, i * buffer::REF_WORDS, labels);
        ref_reaches(refs, offsets.map(at), offsets.map(label), i)
    })
}

// A jump's displacement is a field: its last byte where it is short, else its last four. `start` is the jump's.
fn patch_displacement(output: &mut [u8], jump: RelaxableJump, long: bool, start: u32, label: u32)
    requires output_within { start + (field_of (branch_of jump) long).place + patch_size (field_of (branch_of jump) long).kind ≤ length output.old }
    requires in_bound { start ≤ offset_bound }
    ensures { output.new ≡ fill_field (Use (field_of (branch_of jump) long).kind) (start + (field_of (branch_of jump) long).place) label 0 output.old }
{
    if long {
        let at = start + (jump.long_len() - 4);
        patch_field(output, LabelUse::X86JmpRel32, at, label, 0);
    } else {
        let at = start + (relax::SHORT_LEN - 1);
        patch_field(output, LabelUse::X86BranchRel8, at, label, 0);
    }
}

// A branch's displacement is in its word, or in the B after its inverse. `start` is the branch's.
fn patch_branch(output: &mut [u8], branch: FarBranch, long: bool, start: u32, label: u32)
    requires output_within { start + (field_of (far_branch_of branch) long).place + patch_size (field_of (far_branch_of branch) long).kind ≤ length output.old }
    requires in_bound { start ≤ offset_bound }
    ensures { output.new ≡ fill_field (Use (field_of (far_branch_of branch) long).kind) (start + (field_of (far_branch_of branch) long).place) label 0 output.old }
{
    if long {
        let at = start + relax::BRANCH_LEN;
        patch_field(output, LabelUse::A64Branch26, at, label, 0);
    } else {
        patch_field(output, fields::field_kind(branch.code), start, label, 0);
    }
}

// Writes the displacement of event `i`, long or not, where its segment says, if it is a jump or a branch.
fn patch_jump(
    output: &mut [u8],
    events: &[u8],
    labels: &[u8],
    long: bool,
    segment: Segment,
    i: usize,
)
    requires { JumpFits (length output.old) events.now labels.now long segment.new_start i }
    ensures { output.new ≡ fill_jump (word_at labels.now) (event_at events.now i) long segment.new_start output.old }
{
    let start = segment.new_start;
    match relax::event_at(events, i) {
        LayoutEvent::Jump(jump) => {
            let label = words::word_at(labels, jump.label as usize);
            patch_displacement(output, jump, long, start, label);
        }
        LayoutEvent::Align(_) => {}
        LayoutEvent::Far(branch) => {
            let label = words::word_at(labels, branch.label as usize);
            patch_branch(output, branch, long, start, label);
        }
    }
}

// Writes the jumps' displacements, where the labels have their new offsets.
pub fn patch_jumps(
    output: &mut [u8],
    events: &[u8],
    labels: &[u8],
    long: &[bool],
    segments: &[Segment],
    n: usize,
)
    requires { JumpsFit (length output.old) events.now labels.now long.now segments.now n }
    ensures { output.new ≡ jumps_filled output.old events.now labels.now long.now segments.now n }
{
    for i in 0..n {
        let segment = layout::segment_at(segments, i);
        patch_jump(output, events, labels, long[i], segment, i);
    }
}

// Maps the words 0, `stride`, 2 `stride`, .. of a table: labels (stride 1), and relocations' offsets (stride 6).
pub fn map_words(table: &mut [u8], offsets: &OffsetMap, stride: usize, count: usize)
    requires { WordsFit table.old stride count }
    ensures { table.new ≡ mapped_words (map_offset (take offsets.now.count offsets.now.segments.now)) table.old stride count }
{
    for i in 0..count {
        let k = i * stride;
        let offset = words::word_at(table, k);
        words::put_word(table, k, offsets.map(offset));
    }
}
