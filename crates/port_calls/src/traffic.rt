//! Messages that are put into channels and taken from them, signals over links, and the partitions that hear of them.

ghost use Rattle.std.specs.Prelude.{◌≡◌, ◌↔◌, ◌<◌, ◌≤◌, true, IsErr, IsSomeAnd, OnErr, OnOk, Some, length, slice_get};
ghost use Rattle.std.specs.Bool.{OnTrue};
ghost use Rattle.guest_bus.specs.Memory.{all_from, bytes_at, is_readable};
ghost use Rattle.virt_traps.specs.Virtual.{raised};
ghost use Rattle.xm_conf.specs.Description.{described};
ghost use Rattle.xm_conf.specs.Fits.{Fits};
ghost use Rattle.xm_ports.specs.Channels.{FitsChannel, HasQueue, HasSampling, IsFull, content_at, first_message, shapes_of};
ghost use Rattle.span_model.specs.Passes.{with_traffic};
ghost use Rattle.machine_model.specs.Emission.{OwnSignals};
ghost use Rattle.machine_model.specs.Traffic.{Puts, Takes, hearing, is_destination};
ghost use Rattle.machine_model.specs.View.{part_of, view_of};
ghost use Rattle.port_calls.specs.MadePorts.{table_in};
ghost use Rattle.system_state.specs.State.{areas_in, memory_of, part_at, with_machine, with_part};
ghost use Rattle.port_calls.specs.lemmas.Traffic.{EndsIn, dests_of, heard_at, hears_from, hears_in, is_on, notified};

use system_state::interrupts::{LINK_SIGNAL, QUEUING_MESSAGE, SAMPLING_MESSAGE};
use system_state::{Sys, engine, messages};
use xm_base::{PartId, proof};
use xm_conf::{Conf, End, Port, Way};
use xm_ports::Full;

/// Writes a message to a sampling channel. The partitions that hear it are interrupted.
pub fn put_sampling(sys: &mut Sys, chan: u8, bytes: &[u8])
    // Called with channels of the configuration's shapes, for a sampling channel, and with a message of 1 to as many
    // bytes as the channel says.
    requires shapes { sys.old.shapes ≡ shapes_of sys.old.machine.system.conf }
    requires channel { HasSampling chan (table_in sys.old) }
    requires bytes { FitsChannel bytes.now chan (table_in sys.old) }
    // The channel has the message, and the interrupt is pending at each partition that hears of it.
    ensures { sys.new ≡ with_machine (with_traffic (Puts chan bytes.now) sys.old.machine) sys.old }
{
    let now = sys.now();
    sys.channels_mut().put_sampling(chan, bytes, now);
    notify(sys, chan, SAMPLING_MESSAGE);
}

/// Puts a message at the end of a queue, or answers `Full`. The partitions that hear it are interrupted.
pub fn send(sys: &mut Sys, chan: u8, bytes: &[u8]) -> Result<(), Full>
    // Called with channels of the configuration's shapes, for a queue, and with a message of 1 to as many bytes as the
    // channel says.
    requires shapes { sys.old.shapes ≡ shapes_of sys.old.machine.system.conf }
    requires channel { HasQueue chan (table_in sys.old) }
    requires bytes { FitsChannel bytes.now chan (table_in sys.old) }
    // `Full` exactly where the queue is.
    ensures full { IsErr result ↔ IsFull chan (table_in sys.old) }
    // The queue has the message, and the interrupt is pending at each partition that hears of it.
    ensures sent { OnOk result (sys.new ≡ with_machine (with_traffic (Puts chan bytes.now) sys.old.machine) sys.old) }
    // After `Full` nothing changed.
    ensures unchanged { OnErr result (sys.new ≡ sys.old) }
{
    match sys.channels_mut().send(chan, bytes) {
        Ok(()) => {
            notify(sys, chan, QUEUING_MESSAGE);
            Ok(())
        }
        Err(full) => Err(full),
    }
}

/// Writes bytes of a partition's memory to a sampling channel. The partitions that hear it are interrupted.
pub(crate) fn put_sampling_from(sys: &mut Sys, chan: u8, p: PartId, address: u32, size: u32)
    requires partition { p < length sys.old.machine.parts }
    requires few { size ≤ 4096 }
    requires readable { all_from (is_readable (areas_in p sys.old.machine)) address size ≡ true }
    requires shapes { sys.old.shapes ≡ shapes_of sys.old.machine.system.conf }
    requires channel { HasSampling chan (table_in sys.old) }
    requires bytes { FitsChannel (bytes_at (memory_of p sys.old.machine) address size) chan (table_in sys.old) }
    ensures { sys.new ≡ with_machine (with_traffic (Puts chan (bytes_at (memory_of p sys.old.machine) address size)) sys.old.machine) sys.old }
{
    messages::put_sampling_from(sys, chan, p, address, size);
    notify(sys, chan, SAMPLING_MESSAGE);
}

/// Puts bytes of a partition's memory at the end of a queue, or answers `Full`. The partitions that hear it are
/// interrupted.
pub(crate) fn send_from(
    sys: &mut Sys,
    chan: u8,
    p: PartId,
    address: u32,
    size: u32,
) -> Result<(), Full>
    requires partition { p < length sys.old.machine.parts }
    requires few { size ≤ 4096 }
    requires readable { all_from (is_readable (areas_in p sys.old.machine)) address size ≡ true }
    requires shapes { sys.old.shapes ≡ shapes_of sys.old.machine.system.conf }
    requires channel { HasQueue chan (table_in sys.old) }
    requires bytes { FitsChannel (bytes_at (memory_of p sys.old.machine) address size) chan (table_in sys.old) }
    ensures full { IsErr result ↔ IsFull chan (table_in sys.old) }
    ensures sent { OnOk result (sys.new ≡ with_machine (with_traffic (Puts chan (bytes_at (memory_of p sys.old.machine) address size)) sys.old.machine) sys.old) }
{
    match messages::send_from(sys, chan, p, address, size) {
        Ok(()) => {
            notify(sys, chan, QUEUING_MESSAGE);
            Ok(())
        }
        Err(full) => Err(full),
    }
}

/// Takes the first message from a queue.
pub fn drop_first(sys: &mut Sys, chan: u8)
    // Called for a queue in which a message of at most 4096 bytes waits.
    requires channel { HasQueue chan (table_in sys.old) }
    requires first { IsSomeAnd (first_message (content_at chan (table_in sys.old))) (λ first. length first ≤ 4096) }
    ensures { sys.new ≡ with_machine (with_traffic (Takes chan) sys.old.machine) sys.old }
{
    sys.channels_mut().drop_first(chan);
}

/// Signals over a link of a number to a partition: the link's interrupt is pending there, unless the partition has halted.
pub fn signal(sys: &mut Sys, dest: PartId, number: u8)
    // Called for a partition that exists and with the number of a link.
    requires there { dest < length sys.old.machine.parts }
    requires number { number < 8 }
    // The interrupt of a link's number is pending at the partition to which it goes.
    ensures { sys.new ≡ with_machine (with_part dest (hearing (view_of sys.old.machine.system dest) (OwnSignals number) (part_at dest sys.old.machine)) sys.old.machine) sys.old }
{
    engine::raise(sys, dest, LINK_SIGNAL + number);
}

/// Makes an interrupt pending at each partition that hears what is put into a channel. Each is at one of its destinations.
pub(crate) fn notify(sys: &mut Sys, chan: u8, interrupt: u8)
    requires { interrupt < 32 }
    ensures { sys.new ≡ with_machine (notified chan interrupt sys.old.machine) sys.old }
{
    for k in 0..dest_count(sys, chan) {
        let q = dest_part(sys, chan, k);
        interrupt_hearer(sys, q, chan, interrupt);
    }
}

/// How many destinations a channel has.
fn dest_count(sys: &Sys, chan: u8) -> usize
    ensures count { result ≡ length (dests_of (slice_get sys.now.machine.system.conf.chans chan)) }
    ensures fits { Fits (described sys.now.machine.system.conf) }
{
    dests(sys.conf(), chan).len()
}

/// The partition at a destination of a channel.
fn dest_part(sys: &Sys, chan: u8, k: usize) -> PartId
    requires { k < length (dests_of (slice_get sys.now.machine.system.conf.chans chan)) }
    ensures part { IsSomeAnd (slice_get (dests_of (slice_get sys.now.machine.system.conf.chans chan)) k) (EndsIn result) }
    ensures there { result < length sys.now.machine.parts }
{
    // As many partitions run as are configured.
    proof! { let _count = sys.count(); }
    dests(sys.conf(), chan)[k].part
}

/// The destinations of a channel.
#[tactic(auto, unfolding(xm_conf::specs::Description::described))]
fn dests(conf: &Conf, chan: u8) -> &[End]
    ensures value { result.now ≡ dests_of (slice_get conf.now.chans chan) }
    ensures fits { Fits (described conf.now) }
{
    match conf.raw().chans.get(usize::from(chan)) {
        Some(chan) => &chan.dests,
        None => &[],
    }
}

/// Makes an interrupt pending at a partition, where it hears what is put into a channel. Where it is pending, that need not be looked at.
fn interrupt_hearer(sys: &mut Sys, q: PartId, chan: u8, interrupt: u8)
    requires there { q < length sys.old.machine.parts }
    requires interrupt { interrupt < 32 }
    ensures { sys.new ≡ with_machine (with_part q (heard_at sys.old.machine.system.conf chan interrupt q (part_at q sys.old.machine)) sys.old.machine) sys.old }
{
    if is_pending(sys, q, interrupt) {
        return;
    }
    if hears(sys, q, chan) {
        engine::raise(sys, q, interrupt);
    }
}

/// Whether an interrupt is pending at a partition.
#[tactic(auto, unfolding(virt_traps::specs::Virtual::raised))]
fn is_pending(sys: &Sys, q: PartId, interrupt: u8) -> bool
    requires there { q < length sys.now.machine.parts }
    requires interrupt { interrupt < 32 }
    ensures { OnTrue result (raised interrupt (part_at q sys.now.machine).traps ≡ (part_at q sys.now.machine).traps) }
{
    let pending = sys.part(q).virt.pending;
    pending | 1 << interrupt == pending
}

/// Whether a partition hears what is put into a channel.
#[tactic(auto, unfolding(crate::specs::lemmas::Traffic::hears_in))]
fn hears(sys: &Sys, q: PartId, chan: u8) -> bool
    requires { q < length sys.now.machine.parts }
    ensures { result ≡ hears_in sys.now.machine.system.conf q chan (part_at q sys.now.machine) }
{
    one_hears(sys, q, chan, ports_of(sys, q))
}

/// The ports of a partition.
#[tactic(auto, unfolding(machine_model::specs::View::part_of, xm_conf::specs::Description::described))]
fn ports_of(sys: &Sys, q: PartId) -> &[Port]
    requires { q < length sys.now.machine.parts }
    ensures ports { result.now ≡ (part_of sys.now.machine.system.conf q).ports }
    ensures few { length result.now ≤ 32 }
{
    // As many partitions run as are configured.
    proof! { let _count = sys.count(); }
    &sys.conf().raw().parts[usize::from(q)].ports
}

/// Whether one of a partition's ports is a made destination on a channel.
fn one_hears(sys: &Sys, q: PartId, chan: u8, ports: &[Port]) -> bool
    requires there { q < length sys.now.machine.parts }
    requires few { length ports.now ≤ 32 }
    ensures { result ≡ hears_from (is_on sys.now.machine.system.conf q chan (part_at q sys.now.machine).made) 0 ports.now }
{
    for r in 0..ports.len() {
        if is_destination(ports[r].way) && is_on(sys, q, chan, r as u8) {
            return true;
        }
    }
    false
}

/// Whether a port is a destination.
fn is_destination(way: Way) -> bool
    ensures { result ≡ is_destination way }
{
    match way {
        Way::Source => false,
        Way::Destination => true,
    }
}

/// Whether a partition's port is made, and on a channel.
#[tactic(auto, unfolding(crate::specs::lemmas::Traffic::is_on))]
fn is_on(sys: &Sys, q: PartId, chan: u8, port: u8) -> bool
    requires { q < length sys.now.machine.parts }
    ensures { result ≡ is_on sys.now.machine.system.conf q chan (part_at q sys.now.machine).made port }
{
    sys.part(q).ports.is_made(port) && sys.conf().channel_of(q, port) == Some(chan)
}
