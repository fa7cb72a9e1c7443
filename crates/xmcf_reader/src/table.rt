//! What each element has: its attributes with their forms, and its children.

ghost use Rattle.std.specs.Prelude.{◌≡◌};
ghost use Rattle.xmcf_reader.specs.Table.{attributes, allowed_children};

use crate::word::Word;

/// The form of an attribute's value.
#[derive(Clone, Copy, Debug)]
pub(crate) enum Form {
    /// Any text.
    Text,
    /// A name.
    Name,
    /// An address.
    Address,
    /// A size.
    Size,
    /// A number.
    Number,
    /// A frequency.
    Frequency,
    /// A time.
    Time,
    /// The flags of a partition.
    Flags,
    /// The access to an area.
    Access,
    /// A health event.
    Event,
    /// The action for a health event.
    Action,
    /// Whether an event is logged.
    Log,
    /// The kind of a port.
    Kind,
    /// The direction of a port.
    Way,
}

/// An attribute of an element.
#[derive(Clone, Copy, Debug)]
pub(crate) struct Attribute {
    /// Its name.
    pub(crate) word: Word,
    /// The form of its value.
    pub(crate) form: Form,
    /// Whether it has to stand.
    pub(crate) needed: bool,
}

/// How often a child stands.
#[derive(Clone, Copy, Debug)]
pub(crate) enum Often {
    /// Once.
    One,
    /// Once or not at all.
    Maybe,
    /// Once or more.
    Some,
    /// Any number of times.
    Any,
}

/// A child of an element.
#[derive(Clone, Copy, Debug)]
pub(crate) struct Child {
    /// Its name.
    pub(crate) word: Word,
    /// How often it stands.
    pub(crate) often: Often,
}

// An attribute with a value of this form, and whether it has to stand.
macro_rules! attribute {
    ($word:ident $form:ident $needed:literal) => {
        Attribute {
            word: Word::$word,
            form: Form::$form,
            needed: $needed,
        }
    };
}

// An attribute that has to stand.
macro_rules! must {
    ($word:ident $form:ident) => {
        attribute!($word $form true)
    };
}

// An attribute that may stand.
macro_rules! may {
    ($word:ident $form:ident) => {
        attribute!($word $form false)
    };
}

// A child that stands so often.
macro_rules! child {
    ($word:ident $often:ident) => {
        Child {
            word: Word::$word,
            often: Often::$often,
        }
    };
}

/// The attributes of an element, in the order of the table.
pub(crate) fn attributes(element: Word) -> &'static [Attribute]
    ensures { result.now ≡ attributes element }
{
    match element {
        Word::SystemDescription => &[must!(Version Text), must!(Name Name), may!(Xmlns Text)],
        Word::Region => &[must!(Kind Text), must!(Start Address), must!(Size Size)],
        Word::Processor => &[must!(Id Number), may!(Frequency Frequency)],
        Word::Plan => &[must!(Id Number), must!(MajorFrame Time)],
        Word::Slot => &[
            must!(Id Number),
            must!(Start Time),
            must!(Duration Time),
            must!(PartitionId Number),
        ],
        Word::Uart => &[must!(Id Number), must!(Name Name), may!(BaudRate Number)],
        Word::XmHypervisor => &[may!(Console Name)],
        Word::PhysicalMemoryArea => &[must!(Size Size)],
        Word::Partition => &[
            must!(Id Number),
            must!(Name Name),
            may!(Flags Flags),
            may!(Console Name),
        ],
        Word::Area => &[must!(Start Address), must!(Size Size), may!(Flags Access)],
        Word::TemporalRequirements => &[must!(Duration Time), must!(Period Time)],
        Word::Event => &[must!(Name Event), must!(Action Action), may!(Log Log)],
        Word::Trace => &[must!(Bitmask Address), may!(Device Name)],
        Word::Port => &[must!(Name Name), must!(Kind Kind), must!(Direction Way)],
        Word::SamplingChannel => &[must!(MaxMessageLength Size), may!(RefreshPeriod Time)],
        Word::QueuingChannel => &[must!(MaxMessageLength Size), must!(MaxNoMessages Number)],
        Word::Source => &[must!(PartitionId Number), must!(PortName Name)],
        Word::Destination => &[must!(PartitionId Number), must!(PortName Name)],
        Word::Ipvi => &[
            must!(Id Number),
            must!(SourceId Number),
            must!(DestinationId Number),
        ],
        _ => &[],
    }
}

/// The children of an element, in the order of the table.
pub(crate) fn children(element: Word) -> &'static [Child]
    ensures { result.now ≡ allowed_children element }
{
    match element {
        Word::SystemDescription => &[
            child!(HwDescription One),
            child!(XmHypervisor One),
            child!(PartitionTable One),
            child!(Channels Maybe),
        ],
        Word::HwDescription => &[
            child!(MemoryLayout One),
            child!(ProcessorTable One),
            child!(Devices Maybe),
        ],
        Word::MemoryLayout => &[child!(Region Some)],
        Word::ProcessorTable => &[child!(Processor One)],
        Word::Processor => &[child!(CyclicPlanTable One)],
        Word::CyclicPlanTable => &[child!(Plan Some)],
        Word::Plan => &[child!(Slot Some)],
        Word::Devices => &[child!(Uart Any)],
        Word::XmHypervisor => &[child!(PhysicalMemoryArea One)],
        Word::PartitionTable => &[child!(Partition Some)],
        Word::Partition => &[
            child!(PhysicalMemoryAreas One),
            child!(TemporalRequirements Maybe),
            child!(HealthMonitor Maybe),
            child!(Trace Maybe),
            child!(PortTable Maybe),
        ],
        Word::PhysicalMemoryAreas => &[child!(Area Some)],
        Word::HealthMonitor => &[child!(Event Any)],
        Word::PortTable => &[child!(Port Any)],
        Word::Channels => &[
            child!(SamplingChannel Any),
            child!(QueuingChannel Any),
            child!(Ipvi Any),
        ],
        Word::SamplingChannel => &[child!(Source One), child!(Destination Some)],
        Word::QueuingChannel => &[child!(Source One), child!(Destination One)],
        _ => &[],
    }
}
