//! Health events and the actions that answer them, by their numbers and names.

ghost use Rattle.std.specs.Prelude.{◌≡◌, ◌<◌, slice_get};
ghost use Rattle.std.specs.Str.{bytes_eq};
ghost use Rattle.xm_conf.specs.Health.{IsActionNamed, IsEventNamed, action_named, action_row, actions, default_action, event_named, event_row, is_allowed};
ghost use Rattle.xm_conf.specs.Rules as rules;

/// What can go wrong in a partition.
#[derive(Clone, Copy, Debug, PartialEq, Eq)]
pub enum Event {
    /// The partition reports an error of its own.
    PartitionError,
    /// An access outside the partition's areas.
    MemProtection,
    /// A trap that has no event of its own.
    UnexpectedTrap,
    /// A word that is no instruction.
    SparcIllegalInstruction,
    /// A privileged instruction.
    SparcPrivilegedInstruction,
    /// A floating-point instruction.
    SparcFpDisabled,
    /// A coprocessor instruction.
    SparcCpDisabled,
    /// An access at an address that is not aligned to its size.
    SparcAddressNotAligned,
    /// A tagged operation that overflows.
    SparcTagOverflow,
    /// A division by zero.
    SparcDivideException,
    /// A fetch that the memory refuses.
    SparcInstrAccess,
    /// A load or store that the memory refuses.
    SparcDataAccess,
}

/// All health events, in the order of their numbers.
pub const EVENTS: [Event; 12] = [
    Event::PartitionError,
    Event::MemProtection,
    Event::UnexpectedTrap,
    Event::SparcIllegalInstruction,
    Event::SparcPrivilegedInstruction,
    Event::SparcFpDisabled,
    Event::SparcCpDisabled,
    Event::SparcAddressNotAligned,
    Event::SparcTagOverflow,
    Event::SparcDivideException,
    Event::SparcInstrAccess,
    Event::SparcDataAccess,
];

impl Event {
    /// The event's number.
    pub fn number(self) -> u8
        // The event's number, as in its row of the table.
        ensures value { result ≡ (event_row self).number }
        // It is below 12.
        ensures below { result < 12 }
    {
        self as u8
    }

    /// The event's name as a configuration and the report have it.
    pub fn text(self) -> &'static str
        // The event's text, as in its row of the table.
        ensures { result.now ≡ (event_row self).text }
    {
        match self {
            Event::PartitionError => "XM_HM_EV_PARTITION_ERROR",
            Event::MemProtection => "XM_HM_EV_MEM_PROTECTION",
            Event::UnexpectedTrap => "XM_HM_EV_UNEXPECTED_TRAP",
            Event::SparcIllegalInstruction => "XM_HM_EV_SPARC_ILLEGAL_INSTRUCTION",
            Event::SparcPrivilegedInstruction => "XM_HM_EV_SPARC_PRIVILEGED_INSTRUCTION",
            Event::SparcFpDisabled => "XM_HM_EV_SPARC_FP_DISABLED",
            Event::SparcCpDisabled => "XM_HM_EV_SPARC_CP_DISABLED",
            Event::SparcAddressNotAligned => "XM_HM_EV_SPARC_ADDRESS_NOT_ALIGNED",
            Event::SparcTagOverflow => "XM_HM_EV_SPARC_TAG_OVERFLOW",
            Event::SparcDivideException => "XM_HM_EV_SPARC_DIVIDE_EXCEPTION",
            Event::SparcInstrAccess => "XM_HM_EV_SPARC_INSTR_ACCESS",
            Event::SparcDataAccess => "XM_HM_EV_SPARC_DATA_ACCESS",
        }
    }

    /// What is done about the event where nothing answers it.
    pub fn default_action(self) -> Action
        ensures value { result ≡ default_action self }
    {
        match self {
            Event::PartitionError
            | Event::MemProtection
            | Event::SparcInstrAccess
            | Event::SparcDataAccess => Action::Halt,
            Event::UnexpectedTrap
            | Event::SparcIllegalInstruction
            | Event::SparcPrivilegedInstruction
            | Event::SparcFpDisabled
            | Event::SparcCpDisabled
            | Event::SparcAddressNotAligned
            | Event::SparcTagOverflow
            | Event::SparcDivideException => Action::Propagate,
        }
    }

    /// The event that these bytes name, or `None` where they name none.
    pub fn named(bytes: &[u8]) -> Option<Event>
        // The event with this text, and none where there is none.
        ensures value { result ≡ event_named bytes.now }
        ensures exact { IsEventNamed bytes.now result }
    {
        Event::with_name(bytes)
    }

    // The first of the table with this name.
    fn with_name(bytes: &[u8]) -> Option<Event>
        ensures { result ≡ event_named bytes.now }
    {
        EVENTS.iter().copied().find(|event| event.is_named(bytes))
    }

    // Whether these bytes are the event's name.
    fn is_named(self, bytes: &[u8]) -> bool
        ensures { result ≡ bytes_eq (event_row self).text bytes.now }
    {
        self.text().as_bytes() == bytes
    }
}

/// What is done about a health event.
#[derive(Clone, Copy, Debug, PartialEq, Eq)]
pub enum Action {
    /// Nothing.
    Ignore,
    /// The partition is asked to shut down, by an interrupt.
    Shutdown,
    /// The partition starts again, cold.
    PartitionColdReset,
    /// The partition starts again, warm.
    PartitionWarmReset,
    /// The partition waits until it is resumed.
    Suspend,
    /// The partition stops.
    Halt,
    /// The trap goes on to the partition.
    Propagate,
    /// The whole system starts again, cold.
    HypervisorColdReset,
    /// The whole system starts again, warm.
    HypervisorWarmReset,
    /// The whole system stops.
    HypervisorHalt,
    /// The maintenance plan comes next.
    SwitchToMaintenance,
}

/// All actions, in the order of their numbers.
const ACTIONS: [Action; 11] = [
    Action::Ignore,
    Action::Shutdown,
    Action::PartitionColdReset,
    Action::PartitionWarmReset,
    Action::Suspend,
    Action::Halt,
    Action::Propagate,
    Action::HypervisorColdReset,
    Action::HypervisorWarmReset,
    Action::HypervisorHalt,
    Action::SwitchToMaintenance,
];

impl Action {
    /// The action's number.
    pub fn number(self) -> u8
        // The action's number, as in its row of the table.
        ensures { result ≡ (action_row self).number }
    {
        self as u8
    }

    /// The action of this number, or `None` where there is none.
    pub fn numbered(number: u8) -> Option<Action>
        ensures { result ≡ slice_get actions number }
    {
        ACTIONS.get(usize::from(number)).copied()
    }

    /// The action's name as a configuration and the report have it.
    pub fn text(self) -> &'static str
        // The action's text, as in its row of the table.
        ensures { result.now ≡ (action_row self).text }
    {
        match self {
            Action::Ignore => "XM_HM_AC_IGNORE",
            Action::Shutdown => "XM_HM_AC_SHUTDOWN",
            Action::PartitionColdReset => "XM_HM_AC_PARTITION_COLD_RESET",
            Action::PartitionWarmReset => "XM_HM_AC_PARTITION_WARM_RESET",
            Action::Suspend => "XM_HM_AC_SUSPEND",
            Action::Halt => "XM_HM_AC_HALT",
            Action::Propagate => "XM_HM_AC_PROPAGATE",
            Action::HypervisorColdReset => "XM_HM_AC_HYPERVISOR_COLD_RESET",
            Action::HypervisorWarmReset => "XM_HM_AC_HYPERVISOR_WARM_RESET",
            Action::HypervisorHalt => "XM_HM_AC_HYPERVISOR_HALT",
            Action::SwitchToMaintenance => "XM_HM_AC_SWITCH_TO_MAINTENANCE",
        }
    }

    /// The action that these bytes name, or `None` where they name none.
    pub fn named(bytes: &[u8]) -> Option<Action>
        // The action with this text, and none where there is none.
        ensures value { result ≡ action_named bytes.now }
        ensures exact { IsActionNamed bytes.now result }
    {
        Action::with_name(bytes)
    }

    // The first of the table with this name.
    fn with_name(bytes: &[u8]) -> Option<Action>
        ensures { result ≡ action_named bytes.now }
    {
        ACTIONS
            .iter()
            .copied()
            .find(|action| action.is_named(bytes))
    }

    // Whether these bytes are the action's name.
    fn is_named(self, bytes: &[u8]) -> bool
        ensures { result ≡ bytes_eq (action_row self).text bytes.now }
    {
        self.text().as_bytes() == bytes
    }
}

/// Whether an action may answer an event.
pub fn allowed(event: Event, action: Action) -> bool
    ensures { result ≡ is_allowed event action }
{
    match action {
        Action::Propagate => !matches!(event, Event::PartitionError | Event::MemProtection),
        Action::Ignore => !matches!(event, Event::MemProtection | Event::SparcInstrAccess),
        Action::Shutdown
        | Action::PartitionColdReset
        | Action::PartitionWarmReset
        | Action::Suspend
        | Action::Halt
        | Action::HypervisorColdReset
        | Action::HypervisorWarmReset
        | Action::HypervisorHalt
        | Action::SwitchToMaintenance => true,
    }
}

/// Whether an action has its plan, where there are this many plans.
pub fn has_plan(plans: usize, action: Action) -> bool
    ensures { result ≡ rules.has_plan plans action }
{
    match action {
        Action::Ignore
        | Action::Shutdown
        | Action::PartitionColdReset
        | Action::PartitionWarmReset
        | Action::Suspend
        | Action::Halt
        | Action::Propagate
        | Action::HypervisorColdReset
        | Action::HypervisorWarmReset
        | Action::HypervisorHalt => true,
        Action::SwitchToMaintenance => 1 < plans,
    }
}
