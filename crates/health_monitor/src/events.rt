//! The events of traps.

ghost use Rattle.std.specs.Prelude.{◌≡◌, ◌↔◌};
ghost use Rattle.xm_conf.specs.declared.health.Event.TheVariants as event;
ghost use Rattle.health_monitor.specs.Monitor.{HasNoEvent, event_of_type};

use xm_conf::Event;

/// The event that a trap of this type raises.
#[tactic(auto, unfolding(crate::specs::Monitor::event_of_type))]
pub fn event_of(tt: u8) -> Event
    // The event of a trap type; the unexpected one exactly for types without a row.
    ensures value { result ≡ event_of_type tt }
    ensures unexpected { (result ≡ event.UnexpectedTrap) ↔ HasNoEvent tt }
{
    match tt {
        0x01 => Event::SparcInstrAccess,
        0x02 => Event::SparcIllegalInstruction,
        0x03 => Event::SparcPrivilegedInstruction,
        0x04 => Event::SparcFpDisabled,
        0x05 | 0x06 => Event::MemProtection,
        0x07 => Event::SparcAddressNotAligned,
        0x09 => Event::SparcDataAccess,
        0x0a => Event::SparcTagOverflow,
        0x24 => Event::SparcCpDisabled,
        0x2a => Event::SparcDivideException,
        _ => Event::UnexpectedTrap,
    }
}
