//! What a machine keeps of a tick.

ghost use Rattle.tick_steps.specs.Kept.{KeepsCues};

/// What is kept of a tick gives each partition its cue.
pub fn keeps_cues()
    ensures law { KeepsCues }
{}
