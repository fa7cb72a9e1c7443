//! Some words of a run.

ghost use Rattle.std.specs.Prelude.{◌≡◌};

/// How some words of a run ended.
#[derive(Clone, Copy, Debug)]
pub(crate) enum PartEnd {
    /// The word at the place follows.
    Goes,
    /// The word at the place is that of a delay slot, after which the one at a displacement from the place before it follows.
    Slot(u32),
    /// The word at the place calls the hypervisor.
    Calls,
    /// The word at the place is left to others.
    Stays,
}

/// Where a run stands after some words: the place that follows, and the place where the steps that are left would end.
#[derive(Clone, Copy, Debug)]
pub(crate) struct Part {
    pub(crate) at: usize,
    pub(crate) limit: usize,
    pub(crate) end: PartEnd,
}

impl Part {
    /// It ended there.
    #[inline(always)]
    pub(crate) fn of(at: usize, limit: usize, end: PartEnd) -> Part
        ensures { (result.at ≡ at) × (result.limit ≡ limit) × (result.end ≡ end) }
    {
        Part { at, limit, end }
    }
}
