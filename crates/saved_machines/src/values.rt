//! The values of a machine that are no configuration: what a saved machine is read to, and restored from.

use health_monitor::HealthEntry;
use sparc_step::Core;
use std::marker::Model;
use virt_clocks::Timer;
use virt_traps::Virt;
use xm_base::State;
use xm_ports::ContentValue;
use xm_traces::TraceEntry;

/// Bytes of a partition's memory, from an address on, that differ from what was loaded.
#[derive(Debug, Drop)]
pub struct Page {
    pub address: u32,
    pub bytes: Vec<u8>,
}

impl Model for Page {
    ghost use Rattle.saved_machines.specs.Saved.{SavedPage};

    ghost Value = { SavedPage };

    ghost view = { λ page. record { address = page.address; bytes = page.bytes.items } };
}

/// The state of a partition, but for its input words.
#[derive(Debug, Drop)]
pub struct PartValues {
    pub core: Core,
    pub virt: Virt,
    /// How many ticks it ran.
    pub execution: u64,
    pub hardware_timer: Option<Timer>,
    pub execution_timer: Option<Timer>,
    pub state: State,
    pub resets: u32,
    pub reset_status: u32,
    /// Which of its ports are made.
    pub made: [bool; 32],
    /// The number of its next trace.
    pub next_trace: u32,
    /// The traces that are kept, the oldest first.
    pub traces: Vec<TraceEntry>,
    /// The number of its next health entry.
    pub next_health: u32,
    /// The health entries that are kept, the oldest first.
    pub health: Vec<HealthEntry>,
    /// By its areas the pages that differ from what was loaded.
    pub pages: Vec<Vec<Page>>,
}

impl Model for PartValues {
    ghost use Rattle.std.specs.Prelude.{map};
    ghost use Rattle.saved_machines.specs.Values as plain;
    ghost use Rattle.xm_traces.specs.Ring.{kept_of};

    ghost Value = { plain.PartValues };

    ghost view = { λ part. record {
      core = part.core;
      traps = part.virt;
      clocks = record { execution = part.execution; hardware_timer = part.hardware_timer; execution_timer = part.execution_timer };
      state = part.state;
      resets = part.resets;
      reset_status = part.reset_status;
      made = part.made;
      traces = kept_of part.next_trace part.traces.items;
      health = kept_of part.next_health part.health.items;
      pages = map (λ pages. pages.items) part.pages.items;
    } };
}

/// The values of a machine but for its configuration, its images and its input words.
#[derive(Debug, Drop)]
pub struct MachineValues {
    pub parts: Vec<PartValues>,
    pub channels: Vec<ContentValue>,
    /// The plan that runs.
    pub plan: u8,
    /// The tick with which its frame began.
    pub frame_start: u64,
    /// The plan that is asked for.
    pub asked: Option<u8>,
    /// The hardware clock.
    pub time: u64,
    /// How many ticks were done since boot.
    pub ticks: u64,
    /// How many warm resets of the hypervisor there were since the last cold one.
    pub resets: u32,
    /// Whether the hypervisor has halted.
    pub halted: bool,
}

impl Model for MachineValues {
    ghost use Rattle.std.specs.Prelude.{map};
    ghost use Rattle.saved_machines.specs.Values as plain;
    ghost use Rattle.xm_ports.specs.Contents.{content_of};

    ghost Value = { plain.MachineValues };

    ghost view = { λ machine. record {
      parts = machine.parts.items;
      channels = map content_of machine.channels.items;
      clock = record { plan = machine.plan; frame_start = machine.frame_start; asked = machine.asked };
      time = machine.time;
      ticks = machine.ticks;
      resets = machine.resets;
      halted = machine.halted;
    } };
}
