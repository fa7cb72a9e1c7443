//! How a partition stands, what its processor has, its timers and its ports.

ghost use Rattle.std.specs.Prelude.{◌≡◌, ◌<◌, ◌∷◌, ◌++◌, length};
ghost use Rattle.virt_clocks.specs.Clocks.{timer_of};
ghost use Rattle.machine_model.specs.CoreFile.{bits_of_flags, processor_bytes, standing_bytes, timer_bytes};
ghost use Rattle.machine_model.specs.Structures.{double, flag};
ghost use Rattle.machine_model.specs.View.{view_of};
ghost use Rattle.system_state.specs.State.{part_at};

use system_state::Sys;
use system_state::structures::{Structure, state_number};
use virt_clocks::{Clock, Timer};
use xm_base::{PartId, proof};
use xm_ports::Ports;

/// The version of the format.
const VERSION: u16 = 1;

/// How many ports a partition has at most.
const PORTS: u8 = 32;

/// How a partition stands, 24 bytes.
#[tactic(auto, unfolding(machine_model::specs::CoreFile::standing_bytes, machine_model::specs::View::view_of))]
pub(crate) fn standing(sys: &Sys, p: PartId) -> Structure
    requires { p < length sys.now.machine.parts }
    ensures value { result ≡ standing_bytes (view_of sys.now.machine.system p) (part_at p sys.now.machine) }
    ensures size { length result ≡ 24 }
{
    let own = sys.part(p);
    let mut bytes = Structure::new();
    bytes.text(b"XMCO");
    bytes.half(VERSION);
    bytes.text(&[p, state_number(own.state)]);
    bytes.word(own.resets);
    bytes.word(own.reset_status);
    bytes.double(own.clocks.exec());
    bytes
}

/// What the processor and the virtual traps of a partition have, but for the numbered registers, 28 bytes.
#[tactic(auto, unfolding(machine_model::specs::CoreFile::processor_bytes))]
pub(crate) fn processor(sys: &Sys, p: PartId) -> Structure
    requires { p < length sys.now.machine.parts }
    ensures value { result ≡ processor_bytes (part_at p sys.now.machine) }
    ensures size { length result ≡ 28 }
{
    let core = sys.part(p).core.core();
    let virt = &sys.part(p).virt;
    let mut bytes = Structure::new();
    bytes.word(core.pc);
    bytes.word(core.npc);
    bytes.word(core.y);
    bytes.text(&[core.icc, core.cwp, core.inv, flag(virt.enabled)]);
    bytes.word(virt.base);
    bytes.word(virt.pending);
    bytes.word(virt.mask);
    bytes
}

/// A flag as a number.
fn flag(set: bool) -> u8
    ensures { result ≡ flag set }
{
    if set { 1 } else { 0 }
}

/// A timer of a partition, 17 bytes.
pub(crate) fn timer(sys: &Sys, p: PartId, clock: Clock) -> Structure
    requires { p < length sys.now.machine.parts }
    ensures value { result ≡ timer_bytes (timer_of clock (part_at p sys.now.machine).clocks) }
    ensures size { length result ≡ 17 }
{
    timer_bytes(sys.part(p).clocks.timer(clock))
}

/// A timer, 17 bytes, which are zeros where it is not armed.
fn timer_bytes(timer: Option<Timer>) -> Structure
    ensures value { result ≡ timer_bytes timer }
    ensures size { length result ≡ 17 }
{
    match timer {
        Some(timer) => setting(1, timer.deadline, timer.interval),
        None => setting(0, 0, 0),
    }
}

/// Whether a timer is armed, its deadline and its interval, 17 bytes.
fn setting(armed: u8, deadline: u64, interval: u64) -> Structure
    ensures value { result ≡ armed ∷ double deadline ++ double interval }
    ensures size { length result ≡ 17 }
{
    let mut bytes = Structure::new();
    bytes.byte(armed);
    bytes.double(deadline);
    bytes.double(interval);
    bytes
}

/// The ports that a partition has made.
pub(crate) fn made_ports(sys: &Sys, p: PartId) -> u32
    requires { p < length sys.now.machine.parts }
    ensures { result ≡ bits_of_flags (part_at p sys.now.machine).made }
{
    port_bits(&sys.part(p).ports)
}

/// A bit for each port, which is set where the port is made; port 0 has the lowest.
fn port_bits(ports: &Ports) -> u32
    ensures { result ≡ bits_of_flags ports.now }
{
    // Its contract says that there are 32.
    proof! { let _first = ports.is_made(0); }
    let mut bits = 0;
    let mut port = PORTS;
    while port > 0 {
        port -= 1;
        bits = 2 * bits + u32::from(flag(ports.is_made(port)));
    }
    bits
}
