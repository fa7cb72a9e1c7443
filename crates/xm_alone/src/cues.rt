//! The cues of a script, one after the other, lent to a machine.

ghost use Rattle.std.specs.Prelude.{◌≡◌, ◌++◌, [], MatchOption};
ghost use Rattle.cue_scripts.specs.Entries.{first_cue};
ghost use Rattle.cue_scripts.specs.Values as kept;
ghost use Rattle.xm_alone.specs.lemmas.Cues.{ComesNext, HasNext, cues_left, next_left};
ghost use Rattle.tick_steps.specs.CueValues.{cue_value, sight_value, traffic_value};

use cue_scripts::{
    CueSlot, Script, ScriptCue, ScriptEntry, ScriptSight, ScriptTraffic, WholeEvent,
};
use xm_machine::{Cue, Sight, Traffic};

/// The cues of a script that come next.
#[derive(Clone, Copy)]
pub(crate) enum Next<'a> {
    /// This many with nothing but whose slot it is: the partition's own, which began before, or not.
    Alike { own: bool, count: u32 },
    /// Another one.
    Other(Cue<'a>),
}

/// The cues of a script that are still left. They take no memory, however many they are.
#[derive(Clone, Copy, Debug)]
pub(crate) struct Cues<'a> {
    // Whose running slot the plain cues name that come first, and how many these are.
    own: bool,
    left: u32,
    // The entries after them.
    entries: &'a [ScriptEntry],
}

impl<'a> Cues<'a> {
    /// All cues of a script.
    pub(crate) fn of(script: &'a Script) -> Cues<'a>
        ensures { cues_left result ≡ script.now }
    {
        Cues {
            own: false,
            left: 0,
            entries: script.entries(),
        }
    }

    /// Those that come next, which are all alike or one, and the cues of the entries after them; or `None` where there is none.
    pub(crate) fn next(self) -> Option<(Next<'a>, Cues<'a>)>
        ensures { MatchOption result (cues_left self.entry ≡ []) (λ (first, others). ComesNext (cues_left self.entry) first others) }
    {
        let mut rest = self;
        while rest.left == 0 {
            let (first, later) = rest.entries.split_first()?;
            rest = match first {
                ScriptEntry::Alike { own, count } => Cues {
                    own: *own,
                    left: *count,
                    entries: later,
                },
                ScriptEntry::First => {
                    let others = Cues {
                        entries: later,
                        ..rest
                    };
                    return Some((Next::Other(begun()), others));
                }
                ScriptEntry::Other(cue) => {
                    let others = Cues {
                        entries: later,
                        ..rest
                    };
                    return Some((Next::Other(lent(cue)), others));
                }
            };
        }
        let next = Next::Alike {
            own: rest.own,
            count: rest.left,
        };
        let others = Cues { left: 0, ..rest };
        Some((next, others))
    }

    /// What is left of the cues that came next when this many of them are done, before those of the entries after them.
    pub(crate) fn after(self, next: Next<'a>, done: u64) -> Cues<'a>
        requires none { self.left ≡ 0 }
        requires within { HasNext next done }
        ensures { cues_left result ≡ next_left next.entry done ++ cues_left self.entry }
    {
        match next {
            Next::Alike { own, count } => Cues {
                own,
                left: count - done as u32,
                ..self
            },
            Next::Other(_) => self,
        }
    }
}

/// A cue with nothing but that a slot of the partition's own begins.
fn begun() -> Cue<'static>
    ensures { cue_value result ≡ first_cue }
{
    Cue {
        mine: CueSlot::Mine { first: true },
        traffic: Traffic::Nothing,
        order: None,
        whole: WholeEvent::Nothing,
        seen: Sight::Nothing,
    }
}

/// A cue that is kept, lent.
fn lent(cue: &ScriptCue) -> Cue<'_>
    ensures { cue_value result ≡ kept.script_cue_value cue.now }
{
    Cue {
        mine: cue.mine,
        traffic: traffic_of(&cue.traffic),
        order: cue.order,
        whole: cue.whole,
        seen: sight_of(&cue.seen),
    }
}

/// The traffic of others.
fn traffic_of(traffic: &ScriptTraffic) -> Traffic<'_>
    ensures { traffic_value result ≡ kept.script_traffic_value traffic.now }
{
    match traffic {
        ScriptTraffic::Nothing => Traffic::Nothing,
        ScriptTraffic::Put { chan, bytes } => Traffic::Put { chan: *chan, bytes },
        ScriptTraffic::Take { chan } => Traffic::Take { chan: *chan },
        ScriptTraffic::Signal { number } => Traffic::Signal { number: *number },
    }
}

/// What was shown.
fn sight_of(seen: &ScriptSight) -> Sight<'_>
    ensures { sight_value result ≡ kept.script_sight_value seen.now }
{
    match seen {
        ScriptSight::Nothing => Sight::Nothing,
        ScriptSight::NotKept => Sight::NotKept,
        ScriptSight::Words(bytes) => Sight::Words(bytes),
    }
}
