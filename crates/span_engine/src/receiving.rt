//! What one partition receives by a tick's note and reach.

ghost use Rattle.std.specs.Prelude.{◌≡◌, ◌<◌, length};
ghost use Rattle.cue_scripts.specs.Values.{slot_value};
ghost use Rattle.machine_model.specs.Cue.{slot_of};
ghost use Rattle.machine_model.specs.Lists.{is_number};
ghost use Rattle.machine_model.specs.Machine.{is_turn_of, order_for, turn_here};
ghost use Rattle.machine_model.specs.Emission.{reach_of};
ghost use Rattle.machine_model.specs.Traffic.{heard_as, own_puts_at, own_signals_at, own_takes_at};
ghost use Rattle.machine_model.specs.View.{linked};
ghost use Rattle.tick_steps.specs.CueValues.{sight_value, traffic_value};
ghost use Rattle.tick_steps.specs.Kept.{sight_with, traffic_with};
ghost use Rattle.tick_steps.specs.Work.{act_beyond};

use cue_scripts::{CueSlot, name_of};
use cyclic_plans::Here;
use health_monitor::Whole;
use hypercalls::Note;
use tick_steps::{Beyond, Sight, Traffic};
use xm_base::{Order, PartId};
use xm_conf::Conf;

/// Whether a tick is in a slot of partition `p`.
pub(crate) fn is_slot_of(slot: Option<Here>, p: PartId) -> bool
    ensures { result ≡ is_turn_of (turn_here slot) p }
{
    match slot {
        Some(slot) => slot.part == p,
        None => false,
    }
}

/// Whose slot a tick is in, as partition `p` sees it.
pub(crate) fn mine_of(slot: Option<Here>, p: PartId) -> CueSlot
    ensures { slot_value result ≡ slot_of (turn_here slot) p }
{
    match slot {
        Some(slot) => {
            if slot.part == p {
                CueSlot::Mine { first: slot.first }
            } else {
                CueSlot::Away
            }
        }
        None => CueSlot::Away,
    }
}

/// The traffic that a note of partition `source` records with these bytes, as partition `p` hears of it: on a channel of its own, under its
/// name for it, or over a link to it.
pub(crate) fn traffic_heard<'a>(
    conf: &Conf,
    p: PartId,
    source: PartId,
    note: Note,
    bytes: &'a [u8],
) -> Traffic<'a>
    requires { p < length conf.now.parts }
    ensures { traffic_value result ≡ heard_as conf.now p (traffic_with source note bytes.now) }
{
    match note {
        Note::Put { chan, .. } => put_heard(name_of(conf, p, chan), bytes),
        Note::Take { chan } => take_heard(name_of(conf, p, chan)),
        Note::Signal { number } => signal_heard(is_linked(conf, source, number, p), number),
        Note::Nothing | Note::Console { .. } | Note::Trace(_) | Note::Saw { .. } | Note::NotKept =>
            Traffic::Nothing,
    }
}

// A message that was put, where its channel has a name.
fn put_heard(name: Option<u8>, bytes: &[u8]) -> Traffic<'_>
    ensures { traffic_value result ≡ own_puts_at name bytes.now }
{
    match name {
        Some(chan) => Traffic::Put { chan, bytes },
        None => Traffic::Nothing,
    }
}

// A message that was taken, where its channel has a name.
fn take_heard(name: Option<u8>) -> Traffic<'static>
    ensures { traffic_value result ≡ own_takes_at name }
{
    match name {
        Some(chan) => Traffic::Take { chan },
        None => Traffic::Nothing,
    }
}

// A signal, where its link goes to the partition.
fn signal_heard(reaches: bool, number: u8) -> Traffic<'static>
    ensures { traffic_value result ≡ own_signals_at reaches number }
{
    if reaches {
        Traffic::Signal { number }
    } else {
        Traffic::Nothing
    }
}

/// The order on partition `p`.
pub(crate) fn order_for(reach: Beyond, p: PartId) -> Option<Order>
    ensures { result ≡ order_for (reach_of (act_beyond reach)).directed p }
{
    match reach {
        Beyond::Order { id, order } => { if id == p { Some(order) } else { None } }
        Beyond::Whole(Whole::Nothing | Whole::Reset(_) | Whole::Halt | Whole::Maintenance) => None,
        Beyond::Nothing | Beyond::Plan { .. } => None,
    }
}

/// What a note reports with these bytes of what its partition was shown.
pub(crate) fn sight_of(note: Note, bytes: &[u8]) -> Sight<'_>
    ensures { sight_value result ≡ sight_with note bytes.now }
{
    match note {
        Note::Saw { .. } => Sight::Words(bytes),
        Note::NotKept => Sight::NotKept,
        Note::Nothing
        | Note::Console { .. }
        | Note::Trace(_)
        | Note::Put { .. }
        | Note::Take { .. }
        | Note::Signal { .. } => Sight::Nothing,
    }
}

// Whether a partition's link of a number goes to partition `p`, which is another one.
#[tactic(auto, unfolding(machine_model::specs::View::linked))]
fn is_linked(conf: &Conf, source: PartId, number: u8, p: PartId) -> bool
    ensures { result ≡ is_number (linked conf.now source number) p }
{
    match conf.link_of(source, number) {
        Some(dest) => dest != source && dest == p,
        None => false,
    }
}
