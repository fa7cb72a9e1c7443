//! A whole machine goes on.

ghost use Rattle.std.specs.Prelude.{◌≡◌, [], IfOk, OnOk, length, map};
ghost use Rattle.saved_machines.specs.Reading.{saved_value};
ghost use Rattle.saved_machines.specs.Restorable.{IsRestorable};
ghost use Rattle.saved_machines.specs.Saving.{machine_saved};
ghost use Rattle.system_state.specs.State.{with_inputs, with_machine};
ghost use Rattle.xm_ports.specs.Channels.{shapes_of};
ghost use Rattle.xm_ports.specs.Contents.{EachSuits, content_of};
ghost use Rattle.machine_restore.specs.lemmas.Values.{AreValues, restored};
ghost use Rattle.machine_restore.specs.lemmas.RestoreTerms.{counted_so, given_all};

use crate::inputs::inputs_of;
use crate::parts::put_parts;
use cyclic_plans::PlanClock;
use loaded_system::System;
use saved_machines::{MachineValues, Saved};
use std::alloc::Global;
use system_state::{Inputs, Sys, restoring};
use xm_base::Memory;
use xm_ports::{Channels, ContentValue};

/// The system of a saved machine: it goes on from where that was saved.
pub fn restore(alloc: Global, system: System, saved: &Saved) -> Result<Sys, Memory>
    // Called with a saved machine that was read for this configuration.
    requires { IsRestorable system.conf (saved_value saved.now) }
    // The machine is the one that was saved, with the words that its partitions have left as those that they were given,
    // and its channels have the shapes of the configuration.
    ensures machine { IfOk result (λ sys. sys.machine ≡ machine_saved (with_inputs system []) (saved_value saved.now)) }
    ensures shapes { IfOk result (λ sys. sys.shapes ≡ shapes_of system.conf) }
{
    let inputs = inputs_of(alloc, system.conf().part_count(), &saved.inputs)?;
    restore_values(alloc, system, inputs, &saved.values)
}

// A system with these values. Its partitions have read none of the input words.
fn restore_values(
    alloc: Global,
    system: System,
    inputs: Inputs,
    values: &MachineValues,
) -> Result<Sys, Memory>
    requires inputs { length inputs ≡ length system.conf.parts }
    requires values { AreValues system.conf values.now }
    ensures machine { IfOk result (λ sys. sys.machine ≡ restored (with_inputs system inputs) values.now) }
    ensures shapes { IfOk result (λ sys. sys.shapes ≡ shapes_of system.conf) }
{
    let mut sys = Sys::new(alloc, system, inputs)?;
    put_all(alloc, &mut sys, values)?;
    Ok(sys)
}

// A system that boots has these values.
fn put_all(alloc: Global, sys: &mut Sys, values: &MachineValues) -> Result<(), Memory>
    requires counted { length sys.old.machine.parts ≡ length sys.old.machine.system.conf.parts }
    requires shapes { sys.old.shapes ≡ shapes_of sys.old.machine.system.conf }
    requires values { AreValues sys.old.machine.system.conf values.now }
    ensures { OnOk result (sys.new ≡ with_machine (given_all values.now sys.old.machine) sys.old) }
{
    put_parts(alloc, sys, &values.parts)?;
    put_channels(alloc, sys, &values.channels)?;
    put_clocks(sys, values);
    Ok(())
}

// The channels hold this.
fn put_channels(alloc: Global, sys: &mut Sys, contents: &[ContentValue]) -> Result<(), Memory>
    requires counted { length contents.now ≡ length (shapes_of sys.old.machine.system.conf) }
    requires suits { EachSuits (shapes_of sys.old.machine.system.conf) (map content_of contents.now) }
    requires shapes { sys.old.shapes ≡ shapes_of sys.old.machine.system.conf }
    ensures { OnOk result (sys.new ≡ with_machine (record sys.old.machine { channels = map content_of contents.now }) sys.old) }
{
    let channels = Channels::resumed(alloc, sys.conf(), contents)?;
    restoring::set_channels(sys, channels);
    Ok(())
}

// The clocks and the counts of the machine have these values.
fn put_clocks(sys: &mut Sys, values: &MachineValues)
    ensures { sys.new ≡ with_machine (counted_so values.now sys.old.machine) sys.old }
{
    let clock = PlanClock::resumed(values.plan, values.frame_start, values.asked);
    restoring::set_plan_clock(sys, clock);
    sys.set_now(values.time);
    restoring::set_ticks(sys, values.ticks);
    restoring::set_resets(sys, values.resets);
    restoring::set_halted(sys, values.halted);
}
