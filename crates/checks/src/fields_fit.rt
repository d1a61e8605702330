// Numbers 17 and 19 to 22: refs that overlap an event, and uses that can't reach.
ghost use Rattle.std.specs.Prelude.{◌≡◌, ◌+◌, ◌*◌, ◌≤◌, length};
ghost use Rattle.refusals.specs.Answers.{answer_of};
ghost use Rattle.fields.specs.Kinds.{decoded};
ghost use Rattle.relax.specs.Events.{event_at, event_size};
ghost use Rattle.buffer.specs.Tables.{label_size, use_size, ref_size};
ghost use Rattle.recording.specs.View.{entries};
ghost use Rattle.recording.specs.Sound.{start_at, end_at};
ghost use Rattle.fresh.specs.Forms.{is_moving, moves};
ghost use Rattle.pool.specs.steps.Pool.{pool_start};
ghost use Rattle.fields.specs.Kinds.{size_of};
ghost use Rattle.fields.specs.Reach.{reach_of};
ghost use Rattle.checks.specs.steps.Fields.{ref_clear, refs_clear, why_unreached, why_uses};
ghost use Rattle.checks.specs.steps.Search.{Ordered, Placed};
ghost use Rattle.checks.specs.steps.Handed.{use_label, Named};

use pool::Pool;
use refusals::Refusal;
use relax::LayoutEvent;

fn is_moving(event: LayoutEvent) -> bool
    ensures { result ≡ is_moving event }
{
    match event {
        LayoutEvent::Jump(_) | LayoutEvent::Far(_) => true,
        LayoutEvent::Align(_) => false,
    }
}

// Whether one of the first `n` events makes finish lay out anew.
pub fn moves(events: &[u8], n: usize) -> bool
    requires { n * event_size ≤ length events.now }
    ensures { result ≡ moves (entries (event_at events.now) n) }
{
    (0..n).any(|i| is_moving(relax::event_at(events, i)))
}

// The size of the field that a code stands for.
fn size_of(code: u32) -> u64
    ensures { (result ≡ size_of (decoded code)) × (result ≤ 4) }
{
    match fields::LabelUse::try_from(code) {
        Ok(kind) => kind.patch_size() as u64,
        Err(_) => 0,
    }
}

fn reach_of(code: u32, offset: u32, label: u32) -> Result<(), Refusal>
    ensures { answer_of result ≡ reach_of (decoded code) offset label }
{
    match fields::LabelUse::try_from(code) {
        Ok(kind) => kind.reach_refusal(offset, label),
        Err(_) => Ok(()),
    }
}

// Whether the field of ref `i` lies within `len` bytes of code, and clear of the events and of the pool's alignments.
#[tactic(auto, unfolding(crate::specs::steps::Fields::ref_clear))]
fn ref_clear(
    refs: &[u8],
    events: &[u8],
    n: usize,
    labels: &[u8],
    pool: &Pool,
    code: u32,
    len: u32,
    i: usize,
) -> bool
    requires within { (i * ref_size + ref_size ≤ length refs.now) × (n * event_size ≤ length events.now) × (len ≡ pool_start code pool.now.constants.now pool.now.asked.now pool.now.count) }
    requires ordered { Ordered (start_at events.now) (end_at events.now) n }
    requires placed { Placed labels.now pool.now.constants.now pool.now.asked.now code pool.now.count }
    ensures { result ≡ ref_clear refs.now events.now n code pool.now.constants.now pool.now.asked.now pool.now.count i }
{
    let offset = words::word_at(refs, i * buffer::REF_WORDS);
    let kind = words::word_at(refs, i * buffer::REF_WORDS + 2);
    let from = offset as u64;
    let to = from + size_of(kind);
    to <= len as u64
        && crate::search::clear_of_events(events, n, from, to)
        && crate::search::clear_of_pool(
            labels,
            pool.constants,
            pool.asked,
            code,
            pool.count,
            from,
            to,
        )
}

pub fn refs_clear(
    refs: &[u8],
    count: usize,
    events: &[u8],
    n: usize,
    labels: &[u8],
    pool: &Pool,
    code: u32,
    len: u32,
) -> bool
    requires within { (count * ref_size ≤ length refs.now) × (n * event_size ≤ length events.now) × (len ≡ pool_start code pool.now.constants.now pool.now.asked.now pool.now.count) }
    requires ordered { Ordered (start_at events.now) (end_at events.now) n }
    requires placed { Placed labels.now pool.now.constants.now pool.now.asked.now code pool.now.count }
    ensures { result ≡ refs_clear refs.now count events.now n code pool.now.constants.now pool.now.asked.now pool.now.count }
{
    (0..count).all(|i| ref_clear(refs, events, n, labels, pool, code, len, i))
}

// 19: the field of use `i` passes the end of the code, of which there are `len` bytes; 20 to 22: it can't reach its label.
fn why_unreached(uses: &[u8], labels: &[u8], len: u32, i: usize) -> Result<(), Refusal>
    requires { (i * use_size + use_size ≤ length uses.now) × (use_label uses.now i * label_size + label_size ≤ length labels.now) }
    ensures { answer_of result ≡ why_unreached uses.now labels.now len i }
{
    let offset = words::word_at(uses, i * buffer::USE_WORDS);
    let label = words::word_at(uses, i * buffer::USE_WORDS + 1);
    let kind = words::word_at(uses, i * buffer::USE_WORDS + 2);
    let target = words::word_at(labels, label as usize);
    if (len as u64) < offset as u64 + size_of(kind) {
        return Err(Refusal::UsePastEnd);
    }
    reach_of(kind, offset, target)
}

// The refusal of the first use that has one.
pub fn why_uses(uses: &[u8], n: usize, labels: &[u8], len: u32) -> Result<(), Refusal>
    requires uses_within { n * use_size ≤ length uses.now }
    requires named { Named (use_label uses.now) n labels.now }
    ensures { answer_of result ≡ why_uses uses.now labels.now len n }
{
    for i in 0..n {
        why_unreached(uses, labels, len, i)?;
    }
    Ok(())
}
