//! Places in the code where a row is done. Each has a type of its own, and so an instance of its own of what does a row: one that is
//! called at one place is inlined there, however large it is, and one that is called at several is not.

/// A word of a block.
#[derive(Clone, Copy, Debug)]
pub(crate) struct InBlock;

/// The word in the delay slot of a branch.
#[derive(Clone, Copy, Debug)]
pub(crate) struct AfterBranch;

/// The word in the delay slot of a branch that was done with the comparison before it.
#[derive(Clone, Copy, Debug)]
pub(crate) struct AfterPair;

/// A word among those that are done one by one.
#[derive(Clone, Copy, Debug)]
pub(crate) struct OneByOne;

/// The word in the delay slot of a branch among those.
#[derive(Clone, Copy, Debug)]
pub(crate) struct AfterOne;
