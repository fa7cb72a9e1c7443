//! Stretches: ticks of one slot or gap, up to the first that reaches beyond its partition by more than a message.

ghost use Rattle.std.specs.Prelude.{◌≡◌};
ghost use Rattle.machine_model.specs.Health.{done_to_all};
ghost use Rattle.tick_steps.specs.Quiet.{ends_stretch};
ghost use Rattle.xm_machine.specs.lemmas.StretchTerms.{stepped_by};
ghost use Rattle.tick_steps.specs.Span.{ends_so, notes_signal};
ghost use Rattle.tick_steps.specs.Work.{act_beyond};

use health_monitor::Whole;
use hypercalls::Note;
use tick_steps::Beyond;
use xm_report::WriteFault;

/// Ticks that were done, of which only the last may have an act that ends a stretch.
#[derive(Clone, Copy, Debug, PartialEq, Eq)]
pub(crate) struct Stepped {
    /// How many there were.
    pub(crate) ticks: u64,
    /// The lines that they printed.
    pub(crate) lines: u64,
    /// Whether the act of the last ends a stretch.
    pub(crate) ends: bool,
}

/// The outcome of such ticks: their lines went out, and this is their number, or they were cut off.
pub(crate) fn stepped_by(
    printed: Result<u64, WriteFault>,
    ticks: u64,
    ends: bool,
) -> Result<Stepped, WriteFault>
    ensures { result ≡ stepped_by printed ticks ends }
{
    match printed {
        Ok(lines) => Ok(Stepped { ticks, lines, ends }),
        Err(fault) => Err(fault),
    }
}

/// Whether an act that this note reports and that reaches so beyond its partition ends a stretch.
pub(crate) fn ends_stretch(note: Note, reach: Beyond) -> bool
    ensures { result ≡ ends_so note reach }
{
    if is_signal(note) {
        true
    } else {
        reaches(reach)
    }
}

// Whether a note reports of a signal.
fn is_signal(note: Note) -> bool
    ensures { result ≡ notes_signal note }
{
    match note {
        Note::Signal { .. } => true,
        Note::Nothing
        | Note::Console { .. }
        | Note::Trace(_)
        | Note::Put { .. }
        | Note::Take { .. }
        | Note::Saw { .. }
        | Note::NotKept => false,
    }
}

// Whether more than a message reaches beyond the partition.
fn reaches(reach: Beyond) -> bool
    ensures { result ≡ ends_stretch (act_beyond reach) }
{
    match reach {
        Beyond::Nothing => false,
        Beyond::Order { .. } | Beyond::Plan { .. } => true,
        Beyond::Whole(event) => is_event(event),
    }
}

// Whether something is done to the whole system.
fn is_event(event: Whole) -> bool
    ensures { result ≡ ends_stretch (done_to_all event) }
{
    match event {
        Whole::Nothing => false,
        Whole::Maintenance | Whole::Reset(_) | Whole::Halt => true,
    }
}
