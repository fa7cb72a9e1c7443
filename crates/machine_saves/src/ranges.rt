//! For the proof: the numbers of a machine are in the ranges of their fields, since the types that keep them have no
//! others.

ghost use Rattle.std.specs.Prelude.{◌≡◌, ◌%◌, ◌^◌, ◌<◌, All, IfSome, IsSomeAnd, length, slice_get};
ghost use Rattle.saved_machines.specs.Savable.{AreSavedRegisters, AreSavedTraps, AreSavedWords, IsSavedContent, IsSavedHealth, IsSavedMachine, IsSavedState, IsSavedTrace};
ghost use Rattle.sparc_step.specs.Registers.{AreRegisters};
ghost use Rattle.system_state.specs.State.{input_words_of, part_at};
ghost use Rattle.virt_clocks.specs.Clocks.{AreTimers};
ghost use Rattle.xm_ports.specs.Channels.{IsTable, content_at, sample_of, shapes_of};
ghost use Rattle.xm_traces.specs.Ring.{IsKept};
ghost use Rattle.machine_saves.specs.Loaded.{AreLoaded};
ghost use Rattle.machine_saves.specs.lemmas.SaveTerms.{EachBelow, HaveMemories, HaveStates};

use crate::channels::{chans_of, kind_of};
use guest_memory::Ram;
use health_monitor::HealthEntry;
use sparc_step::Core;
use system_state::{PartState, Sys};
use virt_clocks::Clock;
use virt_traps::Virt;
use xm_base::PartId;
use xm_conf::ChanKind;
use xm_ports::{Channels, Sample};
use xm_traces::{Ring, TraceEntry};

/// For the proof: the numbers of a machine are in range, and each memory has the bytes of its areas.
pub(crate) fn look_at_machine(sys: &Sys, loaded: &Ram)
    requires shapes { sys.now.shapes ≡ shapes_of sys.now.machine.system.conf }
    requires loaded { AreLoaded sys.now.machine.system loaded.now }
    ensures { IsSavedMachine sys.now.machine }
{
    look_at_word(sys.resets());
    look_at_contents(sys);
    look_at_parts(sys);
    look_at_memories(sys, loaded);
}

/// For the proof: a byte stands at each address of a partition's areas and at no other, in its memory and in the one that
/// is loaded.
fn look_at_memories(sys: &Sys, loaded: &Ram)
    requires { AreLoaded sys.now.machine.system loaded.now }
    ensures { HaveMemories sys.now.machine }
{
    let _count = sys.count();
    let now = sys.ram();
    let _now = now.selected();
    let _before = loaded.selected();
}

/// For the proof: so are those of each channel.
fn look_at_contents(sys: &Sys)
    requires shapes { sys.now.shapes ≡ shapes_of sys.now.machine.system.conf }
    ensures { EachBelow IsSavedContent (length sys.now.machine.system.conf.chans) sys.now.machine.channels }
{
    let chans = chans_of(sys.conf());
    for c in 0..chans.len() {
        let chan = &chans[c];
        let kind = kind_of(chan);
        look_at_content(sys.channels(), c as u8, kind);
    }
}

/// For the proof: so are those of what a channel of a kind holds.
fn look_at_content(channels: &Channels, c: u8, kind: ChanKind)
    requires { IsSomeAnd (slice_get channels.now.shapes c) (λ shape. shape.kind ≡ kind) }
    ensures table { IsTable channels.now }
    ensures content { IsSavedContent (content_at c channels.now) }
{
    match kind {
        ChanKind::Sampling { refresh: _ } => look_at_sample(channels.get_sampling(c)),
        ChanKind::Queuing { most: _ } => {
            let _message = channels.first(c);
        }
    }
}

/// For the proof: so is the time of a message.
fn look_at_sample(sample: Option<Sample<'_>>)
    ensures { IfSome sample.entry (λ held. held.time < 2 ^ 64) }
{
    match sample {
        Some(sample) => look_at_double(sample.time),
        None => {}
    }
}

/// For the proof: so are those of each partition.
fn look_at_parts(sys: &Sys)
    ensures { HaveStates (length sys.now.machine.parts) sys.now.machine }
{
    for p in 0..sys.count() {
        look_at_part(sys, p);
    }
}

/// For the proof: so are those of a partition.
fn look_at_part(sys: &Sys, p: PartId)
    requires { p < length sys.now.machine.parts }
    ensures { IsSavedState (part_at p sys.now.machine) }
{
    look_at_own(sys.part(p));
    look_at_inputs(sys, p);
}

/// For the proof: so are those of its own state.
fn look_at_own(own: &PartState)
    ensures core { AreSavedRegisters own.now.core }
    ensures traps { AreSavedTraps own.now.virt }
    ensures table { own.now.virt.base % 4096 ≡ 0 }
    ensures timers { AreTimers own.now.clocks }
    ensures resets { own.now.resets < 2 ^ 32 }
    ensures status { own.now.reset_status < 2 ^ 32 }
    ensures ports { length own.now.ports ≡ 32 }
    ensures traces { IsKept own.now.traces }
    ensures trace_entries { All IsSavedTrace own.now.traces.entries }
    ensures health { IsKept own.now.health }
    ensures health_entries { All IsSavedHealth own.now.health.entries }
{
    look_at_registers(&own.core.core());
    let _timer = own.clocks.timer(Clock::Hw);
    look_at_traps(&own.virt);
    look_at_word(own.resets);
    look_at_word(own.reset_status);
    let _first = own.ports.is_made(0);
    look_at_traces(&own.traces);
    look_at_health(&own.health);
}

/// For the proof: so are the registers.
fn look_at_registers(core: &Core)
    ensures { AreSavedRegisters core.now }
{
    let _register = core.get(0);
    look_at_word(core.pc);
    look_at_word(core.npc);
    look_at_word(core.y);
    look_at_words(&core.globals);
    look_at_words(&core.windows);
}

/// For the proof: so are the virtual traps.
fn look_at_traps(traps: &Virt)
    ensures words { AreSavedTraps traps.now }
    ensures table { traps.now.base % 4096 ≡ 0 }
{
    look_at_word(traps.base);
    look_at_word(traps.pending);
    look_at_word(traps.mask);
}

/// For the proof: so are the traces.
fn look_at_traces(traces: &Ring<TraceEntry>)
    ensures kept { IsKept traces.now }
    ensures entries { All IsSavedTrace traces.now.entries }
{
    let counts = traces.counts();
    for place in 0..counts.next - counts.first {
        match traces.read(counts.first + place) {
            Some(entry) => look_at_trace(&entry),
            None => unreachable!(),
        }
    }
}

/// For the proof: so is a trace.
fn look_at_trace(entry: &TraceEntry)
    ensures { IsSavedTrace entry.now }
{
    look_at_double(entry.time);
    look_at_word(entry.bits);
    look_at_word(entry.seq);
    let _load = &entry.load;
}

/// For the proof: so is the health log.
fn look_at_health(health: &Ring<HealthEntry>)
    ensures kept { IsKept health.now }
    ensures entries { All IsSavedHealth health.now.entries }
{
    let counts = health.counts();
    for place in 0..counts.next - counts.first {
        match health.read(counts.first + place) {
            Some(entry) => look_at_event(&entry),
            None => unreachable!(),
        }
    }
}

/// For the proof: so is an entry of it.
fn look_at_event(entry: &HealthEntry)
    ensures { IsSavedHealth entry.now }
{
    look_at_double(entry.time);
    look_at_word(entry.seq);
    look_at_word(entry.word);
}

/// For the proof: so are the input words of a partition.
fn look_at_inputs(sys: &Sys, p: PartId)
    requires { p < length sys.now.machine.parts }
    ensures { AreSavedWords (input_words_of p sys.now.machine) }
{
    let mut place = 0;
    while let Some(word) = sys.input(p, place) {
        look_at_word(word);
        place += 1;
    }
}

/// For the proof: so are words.
fn look_at_words(words: &[u32])
    ensures { AreSavedWords words.now }
{}

/// For the proof: so is a word.
fn look_at_word(word: u32)
    ensures { word < 2 ^ 32 }
{}

/// For the proof: so is a double word.
fn look_at_double(number: u64)
    ensures { number < 2 ^ 64 }
{}
