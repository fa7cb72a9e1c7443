//! What is saved of each channel.

ghost use Rattle.std.specs.Prelude.{◌≡◌, ◌≤◌, ◌++◌, IsSomeAnd, OnOk, length, slice_get};
ghost use Rattle.std.specs.List.{flat_map};
ghost use Rattle.xm_ports.specs.Channels.{HasQueue, IsTable, content_at, messages_of, shapes_of};
ghost use Rattle.machine_saves.specs.lemmas.SaveTerms.{channels_text, content_text, held_text, message_text, messages_text, sample_text};

use crate::fields::{put_byte, put_byte_count, put_half_count};
use file_headers::put_double;
use system_state::Sys;
use xm_base::{Memory, proof};
use xm_conf::{Chan, ChanKind, Conf};
use xm_ports::{Channels, Sample};

/// Puts what each channel holds.
pub(crate) fn put_channels(out: &mut Vec<u8>, sys: &Sys) -> Result<(), Memory>
    requires shapes { sys.now.shapes ≡ shapes_of sys.now.machine.system.conf }
    ensures { OnOk result (out.new.items ≡ out.old.items ++ channels_text sys.now.machine) }
{
    let chans = chans_of(sys.conf());
    for c in 0..chans.len() {
        let chan = &chans[c];
        let kind = kind_of(chan);
        // Its contract says that there is something for each channel.
        proof! { look_at(sys.channels(), c as u8, kind); }
        put_content(out, sys.channels(), c as u8, kind)?;
    }
    Ok(())
}

/// The channels of a configuration.
#[tactic(auto, unfolding(xm_conf::specs::Description::described))]
pub(crate) fn chans_of(conf: &Conf) -> &[Chan]
    ensures value { result.now ≡ conf.now.chans }
    ensures few { length result.now ≤ 64 }
{
    &conf.raw().chans
}

/// The kind of a channel.
pub(crate) fn kind_of(chan: &Chan) -> ChanKind
    ensures { result ≡ chan.now.kind }
{
    chan.kind
}

/// For the proof: what holds of the channels at all times.
fn look_at(channels: &Channels, c: u8, kind: ChanKind)
    requires { IsSomeAnd (slice_get channels.now.shapes c) (λ shape. shape.kind ≡ kind) }
    ensures { IsTable channels.now }
{
    match kind {
        ChanKind::Sampling { refresh: _ } => {
            let _sample = channels.get_sampling(c);
        }
        ChanKind::Queuing { most: _ } => {
            let _message = channels.first(c);
        }
    }
}

/// Puts what a channel of a kind holds.
fn put_content(out: &mut Vec<u8>, channels: &Channels, c: u8, kind: ChanKind) -> Result<(), Memory>
    requires { IsSomeAnd (slice_get channels.now.shapes c) (λ shape. shape.kind ≡ kind) }
    ensures { OnOk result (out.new.items ≡ out.old.items ++ content_text kind (content_at c channels.now)) }
{
    match kind {
        ChanKind::Sampling { refresh: _ } => put_sample(out, channels.get_sampling(c)),
        ChanKind::Queuing { most: _ } => put_messages(out, channels, c),
    }
}

/// Puts whether a sampling channel holds a message, and that message.
fn put_sample(out: &mut Vec<u8>, sample: Option<Sample<'_>>) -> Result<(), Memory>
    ensures { OnOk result (out.new.items ≡ out.old.items ++ sample_text sample.entry) }
{
    match sample {
        Some(sample) => put_held(out, &sample),
        None => put_byte(out, 0),
    }
}

/// Puts the message of a sampling channel, and before it that there is one and when it was written.
#[tactic(auto, unfolding(crate::specs::lemmas::SaveTerms::held_text))]
fn put_held(out: &mut Vec<u8>, sample: &Sample<'_>) -> Result<(), Memory>
    ensures { OnOk result (out.new.items ≡ out.old.items ++ held_text sample.now) }
{
    put_byte(out, 1)?;
    put_double(out, sample.time)?;
    put_message(out, sample.bytes)
}

/// Puts the messages that wait in a queue, their number before them.
fn put_messages(out: &mut Vec<u8>, channels: &Channels, c: u8) -> Result<(), Memory>
    requires { HasQueue c channels.now }
    ensures { OnOk result (out.new.items ≡ out.old.items ++ messages_text (messages_of (content_at c channels.now))) }
{
    put_byte_count(out, channels.count(c))?;
    put_waiting(out, channels, c)
}

/// Puts the messages that wait in a queue, the one that waits longest first.
fn put_waiting(out: &mut Vec<u8>, channels: &Channels, c: u8) -> Result<(), Memory>
    requires { HasQueue c channels.now }
    ensures { OnOk result (out.new.items ≡ out.old.items ++ flat_map message_text (messages_of (content_at c channels.now))) }
{
    for place in 0..channels.count(c) {
        match channels.message(c, place) {
            Some(message) => put_message(out, message)?,
            None => unreachable!(),
        }
    }
    Ok(())
}

/// Puts a message, its length before it.
#[tactic(auto, unfolding(crate::specs::lemmas::SaveTerms::message_text))]
fn put_message(out: &mut Vec<u8>, message: &[u8]) -> Result<(), Memory>
    ensures { OnOk result (out.new.items ≡ out.old.items ++ message_text message.now) }
{
    put_half_count(out, message.len())?;
    out.extend_from_slice(message)?;
    Ok(())
}
