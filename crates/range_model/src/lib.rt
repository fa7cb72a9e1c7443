//! The numbers in the stated machine's state stay in their ranges, and so do those of what each partition receives.
//! Mathematics over `machine_model`, whose memories and registers are lists of numbers of any size. Of a system it is
//! asked that its configuration meets the rules, that each image begins at a word and that what its segments load is
//! bytes; of its input words nothing, since a guest gets the bytes of each. The words of health entries, the bits of
//! trace entries, clocks, counters and the pending and masked interrupts are not in it: no byte and no register is made
//! of them but as bytes of theirs.
#![tactic(auto)]

mod law;

pub use law::{cues_are_in_range, instructions_keep_ranges, keeps_ranges};
