//! The names of elements and attributes.

ghost use Rattle.std.specs.Prelude.{◌≡◌, ◌==◌};
ghost use Rattle.std.specs.Str.{bytes_eq};
ghost use Rattle.xmcf_reader.specs.Words.{element_named, word_number, word_text};

/// The name of an element or of an attribute.
#[derive(Clone, Copy, Debug)]
pub enum Word {
    /// The element `SystemDescription`.
    SystemDescription,
    /// The element `HwDescription`.
    HwDescription,
    /// The element `MemoryLayout`.
    MemoryLayout,
    /// The element `Region`.
    Region,
    /// The element `ProcessorTable`.
    ProcessorTable,
    /// The element `Processor`.
    Processor,
    /// The element `CyclicPlanTable`.
    CyclicPlanTable,
    /// The element `Plan`.
    Plan,
    /// The element `Slot`.
    Slot,
    /// The element `Devices`.
    Devices,
    /// The element `Uart`.
    Uart,
    /// The element `XMHypervisor`.
    XmHypervisor,
    /// The element `PhysicalMemoryArea`.
    PhysicalMemoryArea,
    /// The element `PartitionTable`.
    PartitionTable,
    /// The element `Partition`.
    Partition,
    /// The element `PhysicalMemoryAreas`.
    PhysicalMemoryAreas,
    /// The element `Area`.
    Area,
    /// The element `TemporalRequirements`.
    TemporalRequirements,
    /// The element `HealthMonitor`.
    HealthMonitor,
    /// The element `Event`.
    Event,
    /// The element `Trace`.
    Trace,
    /// The element `PortTable`.
    PortTable,
    /// The element `Port`.
    Port,
    /// The element `Channels`.
    Channels,
    /// The element `SamplingChannel`.
    SamplingChannel,
    /// The element `QueuingChannel`.
    QueuingChannel,
    /// The element `Source`.
    Source,
    /// The element `Destination`.
    Destination,
    /// The element `Ipvi`.
    Ipvi,
    /// The attribute `version`.
    Version,
    /// The attribute `name`.
    Name,
    /// The attribute `xmlns`.
    Xmlns,
    /// The attribute `type`.
    Kind,
    /// The attribute `start`.
    Start,
    /// The attribute `size`.
    Size,
    /// The attribute `id`.
    Id,
    /// The attribute `frequency`.
    Frequency,
    /// The attribute `majorFrame`.
    MajorFrame,
    /// The attribute `duration`.
    Duration,
    /// The attribute `partitionId`.
    PartitionId,
    /// The attribute `baudRate`.
    BaudRate,
    /// The attribute `console`.
    Console,
    /// The attribute `flags`.
    Flags,
    /// The attribute `period`.
    Period,
    /// The attribute `action`.
    Action,
    /// The attribute `log`.
    Log,
    /// The attribute `bitmask`.
    Bitmask,
    /// The attribute `device`.
    Device,
    /// The attribute `direction`.
    Direction,
    /// The attribute `maxMessageLength`.
    MaxMessageLength,
    /// The attribute `refreshPeriod`.
    RefreshPeriod,
    /// The attribute `maxNoMessages`.
    MaxNoMessages,
    /// The attribute `portName`.
    PortName,
    /// The attribute `sourceId`.
    SourceId,
    /// The attribute `destinationId`.
    DestinationId,
}

/// All elements, in the order of their table.
const ELEMENTS: [Word; 29] = [
    Word::SystemDescription,
    Word::HwDescription,
    Word::MemoryLayout,
    Word::Region,
    Word::ProcessorTable,
    Word::Processor,
    Word::CyclicPlanTable,
    Word::Plan,
    Word::Slot,
    Word::Devices,
    Word::Uart,
    Word::XmHypervisor,
    Word::PhysicalMemoryArea,
    Word::PartitionTable,
    Word::Partition,
    Word::PhysicalMemoryAreas,
    Word::Area,
    Word::TemporalRequirements,
    Word::HealthMonitor,
    Word::Event,
    Word::Trace,
    Word::PortTable,
    Word::Port,
    Word::Channels,
    Word::SamplingChannel,
    Word::QueuingChannel,
    Word::Source,
    Word::Destination,
    Word::Ipvi,
];

impl Word {
    /// The name as a text has it.
    pub fn text(self) -> &'static str
        // The name of an element or an attribute.
        ensures { result.now ≡ word_text self }
    {
        match self {
            Word::SystemDescription => "SystemDescription",
            Word::HwDescription => "HwDescription",
            Word::MemoryLayout => "MemoryLayout",
            Word::Region => "Region",
            Word::ProcessorTable => "ProcessorTable",
            Word::Processor => "Processor",
            Word::CyclicPlanTable => "CyclicPlanTable",
            Word::Plan => "Plan",
            Word::Slot => "Slot",
            Word::Devices => "Devices",
            Word::Uart => "Uart",
            Word::XmHypervisor => "XMHypervisor",
            Word::PhysicalMemoryArea => "PhysicalMemoryArea",
            Word::PartitionTable => "PartitionTable",
            Word::Partition => "Partition",
            Word::PhysicalMemoryAreas => "PhysicalMemoryAreas",
            Word::Area => "Area",
            Word::TemporalRequirements => "TemporalRequirements",
            Word::HealthMonitor => "HealthMonitor",
            Word::Event => "Event",
            Word::Trace => "Trace",
            Word::PortTable => "PortTable",
            Word::Port => "Port",
            Word::Channels => "Channels",
            Word::SamplingChannel => "SamplingChannel",
            Word::QueuingChannel => "QueuingChannel",
            Word::Source => "Source",
            Word::Destination => "Destination",
            Word::Ipvi => "Ipvi",
            Word::Version => "version",
            Word::Name => "name",
            Word::Xmlns => "xmlns",
            Word::Kind => "type",
            Word::Start => "start",
            Word::Size => "size",
            Word::Id => "id",
            Word::Frequency => "frequency",
            Word::MajorFrame => "majorFrame",
            Word::Duration => "duration",
            Word::PartitionId => "partitionId",
            Word::BaudRate => "baudRate",
            Word::Console => "console",
            Word::Flags => "flags",
            Word::Period => "period",
            Word::Action => "action",
            Word::Log => "log",
            Word::Bitmask => "bitmask",
            Word::Device => "device",
            Word::Direction => "direction",
            Word::MaxMessageLength => "maxMessageLength",
            Word::RefreshPeriod => "refreshPeriod",
            Word::MaxNoMessages => "maxNoMessages",
            Word::PortName => "portName",
            Word::SourceId => "sourceId",
            Word::DestinationId => "destinationId",
        }
    }

    // The name's number.
    fn number(self) -> u8
        ensures { result ≡ word_number self }
    {
        self as u8
    }

    /// Whether both are the same name.
    pub(crate) fn is(self, other: Word) -> bool
        ensures { result ≡ (word_number self == word_number other) }
    {
        self.number() == other.number()
    }

    // Whether these bytes spell the name.
    pub(crate) fn is_spelled(self, bytes: &[u8]) -> bool
        ensures { result ≡ bytes_eq (word_text self) bytes.now }
    {
        self.text().as_bytes() == bytes
    }

    /// The element that these bytes name, or `None` where they name none.
    #[tactic(auto, unfolding(crate::specs::Words::element_named))]
    pub(crate) fn element(bytes: &[u8]) -> Option<Word>
        ensures { result ≡ element_named bytes.now }
    {
        ELEMENTS.iter().copied().find(|word| word.is_spelled(bytes))
    }
}
