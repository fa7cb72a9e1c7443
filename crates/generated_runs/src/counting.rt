//! What is counted at the end of a run.

ghost use Rattle.std.specs.Prelude.{◌≡◌, ◌<◌, ◌≤◌, ℕ, length};
ghost use Rattle.generated_system.specs.Reported.{exec_in, waiting_in};
ghost use Rattle.generated_runs.specs.lemmas.Short.{AreShort};
ghost use Rattle.span_model.specs.Passes.{part_at};
ghost use Rattle.xm_ports.specs.Channels.{HasQueue, content_at, messages_of};

use system_state::Sys;
use xm_base::PartId;
use xm_machine::Machine;
use xm_ports::Channels;

/// How many channels a generated system has.
const CHANNELS: u8 = 8;

/// In how many ticks partitions ran.
pub(crate) fn exec_in(machine: &Machine) -> u64
    ensures { result ≡ exec_in machine.now.state }
{
    // No clock counted more ticks than were begun.
    machine.done();
    exec_of(machine.sys())
}

// The sum of the partitions' clocks.
#[tactic(auto, unfolding(generated_system::specs::Reported::exec_in))]
fn exec_of(sys: &Sys) -> u64
    requires { AreShort sys.now.machine }
    ensures { result ≡ exec_in sys.now.machine }
{
    let mut sum = 0;
    for p in 0..sys.count() {
        sum += exec_at(sys, p);
    }
    sum
}

// The clock of a partition.
fn exec_at(sys: &Sys, p: PartId) -> u64
    requires { p < length sys.now.machine.parts }
    ensures { result ≡ (part_at p sys.now.machine).clocks.execution }
{
    sys.part(p).clocks.exec()
}

/// How many messages wait in all channels, each of which is a queue.
#[tactic(auto, unfolding(generated_system::specs::Reported::waiting_in))]
pub(crate) fn waiting_in(channels: &Channels) -> u64
    requires queues { (c : ℕ) → c < 8 → HasQueue c channels.now }
    requires count { length channels.now.contents ≡ 8 }
    ensures { result ≡ waiting_in channels.now.contents }
{
    let mut sum = 0;
    for chan in 0..CHANNELS {
        sum += waiting_at(channels, chan);
    }
    sum
}

// How many wait in one, which are few.
fn waiting_at(channels: &Channels, chan: u8) -> u64
    requires { HasQueue chan channels.now }
    ensures value { result ≡ length (messages_of (content_at chan channels.now)) }
    ensures few { result ≤ 64 }
{
    // The contract of the first message says that no more wait than the channel may hold.
    channels.first(chan);
    channels.count(chan) as u64
}
