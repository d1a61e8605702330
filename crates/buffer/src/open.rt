// How many entries are open: uses, refs, jumps and label relocations that name a label which is not bound, or not known.
ghost use Rattle.std.specs.Prelude.{◌≡◌, ◌+◌, ◌-◌, ◌*◌, ◌≤◌, ◌<◌, length};
ghost use Rattle.buffer.specs.State.{label_target};
ghost use Rattle.buffer.specs.Refusals.{namers_fit, namers_within};
ghost use Rattle.buffer.specs.Open.{opened, target_opened, named, settled};
ghost use Rattle.buffer.specs.Tables.{label_size};
ghost use Rattle.buffer.specs.steps.Count.{NamersFit, open_count};

use crate::{CodeBuffer, LABEL_TARGET, MOST_ENTRIES, NONE, REF_WORDS, RELOC_WORDS, USE_WORDS};

// 1 where the label is not bound.
pub(crate) fn opened(labels: &[u8], label: u32) -> u32
    requires { label * label_size + label_size ≤ length labels.now }
    ensures { (result ≡ opened labels.now label) × (result ≤ 1) }
{
    u32::from(words::word_at(labels, label as usize) == NONE)
}

// The same of a relocation's target, where that is a label's.
pub(crate) fn target_opened(labels: &[u8], target: u32) -> u32
    requires { (label_target ≤ target) → (target - label_target) * label_size + label_size ≤ length labels.now }
    ensures { (result ≡ target_opened labels.now target) × (result ≤ 1) }
{
    if target < LABEL_TARGET {
        return 0;
    }
    opened(labels, target - LABEL_TARGET)
}

// No more is lent of the tables that name labels than the limit; the numbers are entries.
pub(crate) fn namers_within(events: usize, uses: usize, refs: usize, relocs: usize) -> bool
    ensures { result ≡ namers_within events uses refs relocs }
{
    events <= MOST_ENTRIES
        && (uses <= MOST_ENTRIES && (refs <= MOST_ENTRIES && relocs <= MOST_ENTRIES))
}

impl CodeBuffer {
    // No count of those tables passes what is lent.
    pub(crate) fn namers_fit(self, events: usize, uses: usize, refs: usize, relocs: usize) -> bool
        ensures { result ≡ namers_fit self events uses refs relocs }
    {
        self.events as usize <= events
            && (self.uses as usize <= uses
                && (self.refs as usize <= refs && self.relocs as usize <= relocs))
    }

    // How many entries name the label.
    fn named(self, events: &[u8], uses: &[u8], refs: &[u8], relocs: &[u8], label: u32) -> u32
        requires namers_fit { NamersFit self events.now uses.now refs.now relocs.now }
        requires in_range { label < label_target }
        ensures { result ≡ named self events.now uses.now refs.now relocs.now label }
    {
        let used = naming::naming(uses, self.uses as usize, USE_WORDS, 1, label);
        let referred = naming::naming(refs, self.refs as usize, REF_WORDS, 1, label);
        let target = LABEL_TARGET + label;
        let targeted = naming::naming(relocs, self.relocs as usize, RELOC_WORDS, 2, target);
        let jumped = naming::jumps_naming(events, self.events as usize, label);
        used + referred + targeted + jumped
    }

    // How many entries are open once the label is bound to the current offset. Where none is open, no table is looked at.
    pub(crate) fn open_once_bound(
        self,
        events: &[u8],
        uses: &[u8],
        refs: &[u8],
        relocs: &[u8],
        label: u32,
    ) -> u32
        requires namers_fit { NamersFit self events.now uses.now refs.now relocs.now }
        requires in_range { label < label_target }
        ensures { result ≡ self.unresolved - settled self events.now uses.now refs.now relocs.now label }
    {
        if self.unresolved == 0 {
            return 0;
        }
        if self.code == NONE {
            return self.unresolved;
        }
        let settled = self.named(events, uses, refs, relocs, label);
        self.unresolved.saturating_sub(settled)
    }

    // How many entries are open, counted over the tables.
    pub fn count_open(
        self,
        labels: &[u8],
        events: &[u8],
        uses: &[u8],
        refs: &[u8],
        relocs: &[u8],
    ) -> u32
        requires namers_fit { NamersFit self events.now uses.now refs.now relocs.now }
        requires labels_within { self.labels * label_size ≤ length labels.now }
        ensures { result ≡ open_count self labels.now events.now uses.now refs.now relocs.now }
    {
        let known = self.labels as usize;
        let used = naming::open_entries(uses, self.uses as usize, USE_WORDS, 1, 0, labels, known);
        let referred = naming::open_entries(
            refs,
            self.refs as usize,
            REF_WORDS,
            1,
            0,
            labels,
            known,
        );
        let targeted = naming::open_entries(
            relocs,
            self.relocs as usize,
            RELOC_WORDS,
            2,
            LABEL_TARGET,
            labels,
            known,
        );
        let jumped = naming::open_jumps(events, self.events as usize, labels, known);
        used + referred + targeted + jumped
    }
}
