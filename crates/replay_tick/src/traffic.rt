//! What others do to the channels of one partition, and which links signal it.

ghost use Rattle.std.specs.Prelude.{◌≡◌, ◌<◌, IsSome, Some, length, slice_get, true};
ghost use Rattle.cue_scripts.specs.Script.{CanHear, IsHeardMessage, gives_queue, most_heard};
ghost use Rattle.machine_model.specs.Machine.{copies};
ghost use Rattle.machine_model.specs.Emission.{OwnPuts, OwnSignals, OwnTakes};
ghost use Rattle.machine_model.specs.View.{view_of};
ghost use Rattle.system_state.specs.State.{with_machine};
ghost use Rattle.xm_base.specs.Options.{on};
ghost use Rattle.tick_steps.specs.CueValues.{traffic_value};
ghost use Rattle.replay_tick.specs.lemmas.LoneWorkTerms.{HasPut, IsChannelFor, IsChannelOfKind, has_first, taken_in, traffic_done};
ghost use Rattle.replay_model.specs.Taking.{takes_traffic};
ghost use Rattle.xm_ports.specs.Channels.{IsQueuing, IsSampling, shapes_of};

use hypercalls::Sys;
use port_calls::{drop_first, put_sampling, send, signal};
use tick_steps::Traffic;
use xm_base::{PartId, proof};
use xm_conf::ChanKind;
use xm_ports::Full;

/// What others did to a channel of partition `p`, which goes by the partition's name for it, or over a link to it. Whether it can be done:
/// a queue that gets a message is not full, and one that gives a message is not empty. Where it cannot, nothing is.
pub(crate) fn apply_traffic(sys: &mut Sys, p: PartId, traffic: Traffic<'_>) -> bool
    requires partition { p < length sys.old.machine.parts }
    requires shapes { sys.old.shapes ≡ shapes_of sys.old.machine.system.conf }
    requires cue { CanHear sys.old.machine.system.conf p (traffic_value traffic) }
    ensures taken { result ≡ takes_traffic (view_of sys.old.machine.system p) (copies sys.old.machine p) (traffic_value traffic.entry) }
    ensures heard { sys.new ≡ with_machine (traffic_done result sys.old.machine p (traffic_value traffic.entry)) sys.old }
{
    match traffic {
        Traffic::Nothing => true,
        Traffic::Put { chan, bytes } => hear_put(sys, p, chan, bytes),
        Traffic::Take { chan } => hear_take(sys, p, chan),
        Traffic::Signal { number } => hear_signal(sys, p, number),
    }
}

// A message that others put.
fn hear_put(sys: &mut Sys, p: PartId, name: u8, bytes: &[u8]) -> bool
    requires partition { p < length sys.old.machine.parts }
    requires shapes { sys.old.shapes ≡ shapes_of sys.old.machine.system.conf }
    requires cue { IsHeardMessage (most_heard sys.old.machine.system.conf p name) name bytes.now }
    ensures taken { result ≡ takes_traffic (view_of sys.old.machine.system p) (copies sys.old.machine p) (OwnPuts name bytes.now) }
    ensures heard { sys.new ≡ with_machine (traffic_done result sys.old.machine p (OwnPuts name bytes.now)) sys.old }
{
    match sys.conf().channel_of(p, name) {
        Some(chan) => put_on(sys, chan, bytes),
        None => true,
    }
}

// A message that others took.
fn hear_take(sys: &mut Sys, p: PartId, name: u8) -> bool
    requires partition { p < length sys.old.machine.parts }
    requires shapes { sys.old.shapes ≡ shapes_of sys.old.machine.system.conf }
    requires cue { gives_queue sys.old.machine.system.conf p name ≡ true }
    ensures taken { result ≡ takes_traffic (view_of sys.old.machine.system p) (copies sys.old.machine p) (OwnTakes name) }
    ensures heard { sys.new ≡ with_machine (traffic_done result sys.old.machine p (OwnTakes name)) sys.old }
{
    match sys.conf().channel_of(p, name) {
        Some(chan) => take(sys, chan),
        None => true,
    }
}

// A signal over a link to the partition.
fn hear_signal(sys: &mut Sys, p: PartId, number: u8) -> bool
    requires partition { p < length sys.old.machine.parts }
    requires number { number < 8 }
    ensures taken { result ≡ takes_traffic (view_of sys.old.machine.system p) (copies sys.old.machine p) (OwnSignals number) }
    ensures heard { sys.new ≡ with_machine (traffic_done result sys.old.machine p (OwnSignals number)) sys.old }
{
    signal(sys, p, number);
    true
}

// A message is put into a channel, unless that is a full queue.
fn put_on(sys: &mut Sys, chan: u8, bytes: &[u8]) -> bool
    requires shapes { sys.old.shapes ≡ shapes_of sys.old.machine.system.conf }
    requires channel { IsChannelFor sys.old.machine.system.conf chan bytes.now }
    ensures { HasPut result chan bytes.now sys.old sys.new }
{
    match kind_of(sys, chan) {
        ChanKind::Sampling { .. } => put_sample(sys, chan, bytes),
        ChanKind::Queuing { .. } => put_message(sys, chan, bytes),
    }
}

// A message is written to a sampling channel, which takes each one.
fn put_sample(sys: &mut Sys, chan: u8, bytes: &[u8]) -> bool
    requires shapes { sys.old.shapes ≡ shapes_of sys.old.machine.system.conf }
    requires channel { IsChannelFor sys.old.machine.system.conf chan bytes.now }
    requires kind { IsChannelOfKind IsSampling sys.old.machine.system.conf chan }
    ensures { HasPut result chan bytes.now sys.old sys.new }
{
    put_sampling(sys, chan, bytes);
    true
}

// A message is put at the end of a queue, unless that is full.
fn put_message(sys: &mut Sys, chan: u8, bytes: &[u8]) -> bool
    requires shapes { sys.old.shapes ≡ shapes_of sys.old.machine.system.conf }
    requires channel { IsChannelFor sys.old.machine.system.conf chan bytes.now }
    requires kind { IsChannelOfKind IsQueuing sys.old.machine.system.conf chan }
    ensures { HasPut result chan bytes.now sys.old sys.new }
{
    // Its contract says that the queue holds no more than it may.
    proof! { let _first = sys.channels().first(chan); }
    match send(sys, chan, bytes) {
        Ok(()) => true,
        Err(Full) => false,
    }
}

// The first message is taken from a queue, unless that is empty.
fn take(sys: &mut Sys, chan: u8) -> bool
    requires shapes { sys.old.shapes ≡ shapes_of sys.old.machine.system.conf }
    requires kind { IsChannelOfKind IsQueuing sys.old.machine.system.conf chan }
    ensures taken { result ≡ has_first sys.old.machine chan }
    ensures given { sys.new ≡ with_machine (taken_in result sys.old.machine chan) sys.old }
{
    let some = sys.channels().first(chan).is_some();
    if some {
        drop_first(sys, chan);
    }
    some
}

// The kind of a channel.
fn kind_of(sys: &Sys, chan: u8) -> ChanKind
    requires { IsSome (slice_get sys.now.machine.system.conf.chans chan) }
    ensures { on (λ the_chan. the_chan.kind) (slice_get sys.now.machine.system.conf.chans chan) ≡ Some result }
{
    sys.conf().raw().chans[usize::from(chan)].kind
}
