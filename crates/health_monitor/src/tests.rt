//! The tables of events, actions and effects, row by row.

use crate::actions::effect;
use crate::effects::{Effect, Own, Whole};
use crate::entry::HealthEntry;
use crate::events::event_of;
use crate::table::{action_of, is_logged};
use xm_base::Mode;
use xm_conf::{Action, Event, HmTable};

const OWN_EVENTS: [(u8, Event); 11] = [
    (0x01, Event::SparcInstrAccess),
    (0x02, Event::SparcIllegalInstruction),
    (0x03, Event::SparcPrivilegedInstruction),
    (0x04, Event::SparcFpDisabled),
    (0x05, Event::MemProtection),
    (0x06, Event::MemProtection),
    (0x07, Event::SparcAddressNotAligned),
    (0x09, Event::SparcDataAccess),
    (0x0a, Event::SparcTagOverflow),
    (0x24, Event::SparcCpDisabled),
    (0x2a, Event::SparcDivideException),
];

#[test]
fn every_action_comes_to_its_effect(rt: HostRuntime) {
    for (action, pass, own, whole) in [
        (Action::Ignore, true, Own::Nothing, Whole::Nothing),
        (Action::Shutdown, true, Own::Shutdown, Whole::Nothing),
        (
            Action::PartitionColdReset,
            false,
            Own::Reset(Mode::Cold),
            Whole::Nothing,
        ),
        (
            Action::PartitionWarmReset,
            false,
            Own::Reset(Mode::Warm),
            Whole::Nothing,
        ),
        (Action::Suspend, true, Own::Suspend, Whole::Nothing),
        (Action::Halt, false, Own::Halt, Whole::Nothing),
        (
            Action::HypervisorColdReset,
            false,
            Own::Nothing,
            Whole::Reset(Mode::Cold),
        ),
        (
            Action::HypervisorWarmReset,
            false,
            Own::Nothing,
            Whole::Reset(Mode::Warm),
        ),
        (Action::HypervisorHalt, false, Own::Nothing, Whole::Halt),
        (
            Action::SwitchToMaintenance,
            true,
            Own::Nothing,
            Whole::Maintenance,
        ),
    ] {
        let comes_to = Effect {
            action,
            pass,
            own,
            whole,
        };
        assert_eq!(rt; effect(action, true), comes_to);
        assert_eq!(rt; effect(action, false), comes_to);
    }
    for (enabled, action, own) in [
        (true, Action::Propagate, Own::Propagate),
        (false, Action::Halt, Own::Halt),
    ] {
        let comes_to = Effect {
            action,
            pass: false,
            own,
            whole: Whole::Nothing,
        };
        assert_eq!(rt; effect(Action::Propagate, enabled), comes_to);
    }
}

#[test]
fn every_event_has_its_trap_types_and_its_place_in_the_table(rt: HostRuntime) {
    for tt in 0..=u8::MAX {
        let mut event = Event::UnexpectedTrap;
        for (own, own_event) in OWN_EVENTS {
            if own == tt {
                event = own_event;
            }
        }
        assert_eq!(rt; event_of(tt), event, "trap type {tt}");
    }
    let table = HmTable {
        actions: [
            Action::Ignore,
            Action::Shutdown,
            Action::PartitionColdReset,
            Action::PartitionWarmReset,
            Action::Suspend,
            Action::Halt,
            Action::Propagate,
            Action::HypervisorColdReset,
            Action::HypervisorWarmReset,
            Action::HypervisorHalt,
            Action::SwitchToMaintenance,
            Action::Halt,
        ],
        logged: 0b1010_0110_0101,
    };
    for (event, action, logged) in [
        (Event::PartitionError, Action::Ignore, true),
        (Event::MemProtection, Action::Shutdown, false),
        (Event::UnexpectedTrap, Action::PartitionColdReset, true),
        (
            Event::SparcIllegalInstruction,
            Action::PartitionWarmReset,
            false,
        ),
        (Event::SparcPrivilegedInstruction, Action::Suspend, false),
        (Event::SparcFpDisabled, Action::Halt, true),
        (Event::SparcCpDisabled, Action::Propagate, true),
        (
            Event::SparcAddressNotAligned,
            Action::HypervisorColdReset,
            false,
        ),
        (Event::SparcTagOverflow, Action::HypervisorWarmReset, false),
        (Event::SparcDivideException, Action::HypervisorHalt, true),
        (Event::SparcInstrAccess, Action::SwitchToMaintenance, false),
        (Event::SparcDataAccess, Action::Halt, true),
    ] {
        assert_eq!(rt; action_of(&table, event), action);
        assert_eq!(rt; is_logged(&table, event), logged);
    }
    for (logged, each) in [(0, false), (0x0fff, true), (0xf000, false)] {
        let table = HmTable {
            actions: [Action::Halt; 12],
            logged,
        };
        for (_, event) in OWN_EVENTS {
            assert_eq!(rt; is_logged(&table, event), each);
        }
        assert_eq!(rt; is_logged(&table, Event::PartitionError), each);
        assert_eq!(rt; is_logged(&table, Event::UnexpectedTrap), each);
    }
}
