//! Messages between a partition's memory and the channels, for the crate of the calls on ports. One that is read goes
//! straight from its channel to the memory, and one that is put goes straight to its channel from the area that has all of
//! it. One whose bytes stand in several areas goes through the one buffer that a system has for it.

ghost use Rattle.std.specs.Prelude.{◌≡◌, ◌↔◌, ◌<◌, ◌≤◌, ℕ, true, [], IsErr, IsSomeAnd, OnErr, OnOk, length, unwrap_or};
ghost use Rattle.guest_bus.specs.Memory.{all_from, bytes_at, is_readable, is_writable, with_bytes};
ghost use Rattle.guest_memory.specs.Memories.{areas_at, map_at, with_map};
ghost use Rattle.machine_model.specs.Caller.{with_written};
ghost use Rattle.system_state.specs.State.{areas_in, memory_of, part_at, sample_bytes, table_in, with_machine, with_part, with_table};
ghost use Rattle.xm_ports.specs.Channels.{FitsChannel, HasQueue, HasSampling, IsFull, content_at, first_message, put, sample_of, with_content};

use crate::sys::Sys;
use predecoded_memory::PredecodedRam;
use xm_base::PartId;
use xm_ports::{Channels, Full, Sample};

/// Writes bytes of a partition's memory to a sampling channel.
pub fn put_sampling_from(sys: &mut Sys, chan: u8, p: PartId, address: u32, size: u32)
    // Called for a partition that exists, with at most 4096 bytes, all of which it may read, for a sampling channel, and
    // with 1 to as many bytes as the channel says.
    requires partition { p < length sys.old.machine.parts }
    requires few { size ≤ 4096 }
    requires readable { all_from (is_readable (areas_in p sys.old.machine)) address size ≡ true }
    requires channel { HasSampling chan (table_in sys.old) }
    requires bytes { FitsChannel (bytes_at (memory_of p sys.old.machine) address size) chan (table_in sys.old) }
    // The channel holds the bytes from now on, and nothing else changes.
    ensures { sys.new ≡ with_table (with_content (put sys.old.machine.time (bytes_at (memory_of p sys.old.machine) address size)) chan (table_in sys.old)) sys.old }
{
    let all = &mut sys.message[..];
    put_read(
        &mut sys.channels,
        chan,
        sys.time,
        &sys.ram,
        p,
        address,
        size,
        &mut all[..size as usize],
    );
}

/// Puts bytes of a partition's memory at the end of a queue, or answers `Full`.
pub fn send_from(sys: &mut Sys, chan: u8, p: PartId, address: u32, size: u32) -> Result<(), Full>
    // Called for a partition that exists, with at most 4096 bytes, all of which it may read, for a queue, and with 1 to as
    // many bytes as the channel says.
    requires partition { p < length sys.old.machine.parts }
    requires few { size ≤ 4096 }
    requires readable { all_from (is_readable (areas_in p sys.old.machine)) address size ≡ true }
    requires channel { HasQueue chan (table_in sys.old) }
    requires bytes { FitsChannel (bytes_at (memory_of p sys.old.machine) address size) chan (table_in sys.old) }
    // `Full` exactly where the queue is, and then nothing changed; else the bytes are its last message, and nothing else
    // changes.
    ensures full { IsErr result ↔ IsFull chan (table_in sys.old) }
    ensures sent { OnOk result ((now : ℕ) → sys.new ≡ with_table (with_content (put now (bytes_at (memory_of p sys.old.machine) address size)) chan (table_in sys.old)) sys.old) }
    ensures unchanged { OnErr result (sys.new ≡ sys.old) }
{
    let all = &mut sys.message[..];
    send_read(
        &mut sys.channels,
        chan,
        &sys.ram,
        p,
        address,
        size,
        &mut all[..size as usize],
    )
}

/// Writes the message that a sampling channel holds to a partition's memory.
pub fn write_sample(sys: &mut Sys, chan: u8, p: PartId, address: u32)
    // Called for a partition that exists, for a sampling channel that holds a message, and with an address from which on
    // the partition may write as many bytes as that has.
    requires partition { p < length sys.old.machine.parts }
    requires channel { HasSampling chan (table_in sys.old) }
    requires room { IsSomeAnd (sample_of (content_at chan (table_in sys.old))) (λ sample. all_from (is_writable (areas_in p sys.old.machine)) address (length sample.bytes) ≡ true) }
    // The message's bytes stand there, and nothing else changes.
    ensures { sys.new ≡ with_machine (with_part p (with_written address (sample_bytes (sample_of (content_at chan (table_in sys.old)))) (part_at p sys.old.machine)) sys.old.machine) sys.old }
{
    write_held(&mut sys.ram, p, address, sys.channels.get_sampling(chan));
}

/// Writes the message that waits longest in a queue to a partition's memory.
pub fn write_first(sys: &mut Sys, chan: u8, p: PartId, address: u32)
    // Called for a partition that exists, for a queue in which a message waits, and with an address from which on the
    // partition may write as many bytes as the first one has.
    requires partition { p < length sys.old.machine.parts }
    requires channel { HasQueue chan (table_in sys.old) }
    requires room { IsSomeAnd (first_message (content_at chan (table_in sys.old))) (λ first. all_from (is_writable (areas_in p sys.old.machine)) address (length first) ≡ true) }
    // The message's bytes stand there, and nothing else changes: the message stays in the queue.
    ensures { sys.new ≡ with_machine (with_part p (with_written address (unwrap_or (first_message (content_at chan (table_in sys.old))) []) (part_at p sys.old.machine)) sys.old.machine) sys.old }
{
    write_message(&mut sys.ram, p, address, sys.channels.first(chan));
}

/// Writes bytes of a partition's memory to a sampling channel at a time: straight from the area that has all of them.
fn put_read(
    channels: &mut Channels,
    chan: u8,
    now: u64,
    ram: &PredecodedRam,
    p: PartId,
    address: u32,
    size: u32,
    buffer: &mut [u8],
)
    requires partition { p < length ram.now.areas }
    requires size { length buffer.old ≡ size }
    requires readable { all_from (is_readable (areas_at p ram.now)) address size ≡ true }
    requires channel { HasSampling chan channels.old }
    requires bytes { FitsChannel (bytes_at (map_at p ram.now) address size) chan channels.old }
    ensures { channels.new ≡ with_content (put now (bytes_at (map_at p ram.now) address size)) chan channels.old }
{
    match ram.bytes(p, address, size) {
        Some(bytes) => channels.put_sampling(chan, bytes, now),
        None => put_copied(channels, chan, now, ram, p, address, size, buffer),
    }
}

/// The same through a buffer.
#[cold]
#[inline(never)]
fn put_copied(
    channels: &mut Channels,
    chan: u8,
    now: u64,
    ram: &PredecodedRam,
    p: PartId,
    address: u32,
    size: u32,
    buffer: &mut [u8],
)
    requires partition { p < length ram.now.areas }
    requires size { length buffer.old ≡ size }
    requires readable { all_from (is_readable (areas_at p ram.now)) address size ≡ true }
    requires channel { HasSampling chan channels.old }
    requires bytes { FitsChannel (bytes_at (map_at p ram.now) address size) chan channels.old }
    ensures { channels.new ≡ with_content (put now (bytes_at (map_at p ram.now) address size)) chan channels.old }
{
    read(ram, p, address, buffer);
    channels.put_sampling(chan, buffer, now);
}

/// Puts bytes of a partition's memory at the end of a queue: straight from the area that has all of them.
fn send_read(
    channels: &mut Channels,
    chan: u8,
    ram: &PredecodedRam,
    p: PartId,
    address: u32,
    size: u32,
    buffer: &mut [u8],
) -> Result<(), Full>
    requires partition { p < length ram.now.areas }
    requires size { length buffer.old ≡ size }
    requires readable { all_from (is_readable (areas_at p ram.now)) address size ≡ true }
    requires channel { HasQueue chan channels.old }
    requires bytes { FitsChannel (bytes_at (map_at p ram.now) address size) chan channels.old }
    ensures full { IsErr result ↔ IsFull chan channels.old }
    ensures sent { OnOk result ((now : ℕ) → channels.new ≡ with_content (put now (bytes_at (map_at p ram.now) address size)) chan channels.old) }
    ensures unchanged { OnErr result (channels.new ≡ channels.old) }
{
    match ram.bytes(p, address, size) {
        Some(bytes) => channels.send(chan, bytes),
        None => send_copied(channels, chan, ram, p, address, size, buffer),
    }
}

/// The same through a buffer.
#[cold]
#[inline(never)]
fn send_copied(
    channels: &mut Channels,
    chan: u8,
    ram: &PredecodedRam,
    p: PartId,
    address: u32,
    size: u32,
    buffer: &mut [u8],
) -> Result<(), Full>
    requires partition { p < length ram.now.areas }
    requires size { length buffer.old ≡ size }
    requires readable { all_from (is_readable (areas_at p ram.now)) address size ≡ true }
    requires channel { HasQueue chan channels.old }
    requires bytes { FitsChannel (bytes_at (map_at p ram.now) address size) chan channels.old }
    ensures full { IsErr result ↔ IsFull chan channels.old }
    ensures sent { OnOk result ((now : ℕ) → channels.new ≡ with_content (put now (bytes_at (map_at p ram.now) address size)) chan channels.old) }
    ensures unchanged { OnErr result (channels.new ≡ channels.old) }
{
    read(ram, p, address, buffer);
    channels.send(chan, buffer)
}

/// Reads bytes of a partition's memory, all of which it may read.
fn read(ram: &PredecodedRam, p: PartId, address: u32, into: &mut [u8])
    requires partition { p < length ram.now.areas }
    requires readable { all_from (is_readable (areas_at p ram.now)) address (length into.old) ≡ true }
    ensures { into.new ≡ bytes_at (map_at p ram.now) address (length into.old) }
{
    match ram.copy_in(p, address, into) {
        Ok(()) => {}
        Err(_) => unreachable!(),
    }
}

/// Writes the bytes of a sample, which there is, to a partition's memory.
fn write_held(ram: &mut PredecodedRam, p: PartId, address: u32, sample: Option<Sample<'_>>)
    requires partition { p < length ram.old.areas }
    requires room { IsSomeAnd sample (λ held. all_from (is_writable (areas_at p ram.old)) address (length held.bytes) ≡ true) }
    ensures { IsSomeAnd sample.entry (λ held. ram.new ≡ with_map p (with_bytes (map_at p ram.old) address held.bytes) ram.old) }
{
    match sample {
        Some(held) => write(ram, p, address, held.bytes),
        None => unreachable!(),
    }
}

/// Writes a message, which there is, to a partition's memory.
fn write_message(ram: &mut PredecodedRam, p: PartId, address: u32, message: Option<&[u8]>)
    requires partition { p < length ram.old.areas }
    requires room { IsSomeAnd message (λ first. all_from (is_writable (areas_at p ram.old)) address (length first.now) ≡ true) }
    ensures { IsSomeAnd message.entry (λ first. ram.new ≡ with_map p (with_bytes (map_at p ram.old) address first.now) ram.old) }
{
    match message {
        Some(bytes) => write(ram, p, address, bytes),
        None => unreachable!(),
    }
}

/// Writes bytes to a partition's memory, all of which it may write there.
fn write(ram: &mut PredecodedRam, p: PartId, address: u32, bytes: &[u8])
    requires partition { p < length ram.old.areas }
    requires room { all_from (is_writable (areas_at p ram.old)) address (length bytes.now) ≡ true }
    ensures { ram.new ≡ with_map p (with_bytes (map_at p ram.old) address bytes.now) ram.old }
{
    match ram.copy_out(p, address, bytes) {
        Ok(()) => {}
        Err(_) => unreachable!(),
    }
}
