//! The elements with their values, from the attributes that stand in their tags.

ghost use Rattle.std.specs.Prelude.{◌≡◌};
ghost use Rattle.xmcf_reader.specs.Elements as elements;
ghost use Rattle.xmcf_reader.specs.lemmas.Seen.{pairs_of, text_of_option};

use crate::draft::Element;
use crate::values::{access, address, flags, kind, log, number, size, time, way};
use crate::word::Word;
use xm_conf::{Action, Event, Name};

/// An attribute that stands in a tag.
#[derive(Clone, Copy, Debug)]
pub(crate) struct Pair<'a> {
    /// Its name.
    pub(crate) word: Word,
    /// The text of its value.
    pub(crate) text: &'a [u8],
}

/// The text of an attribute, where it stands.
pub(crate) fn text_at<'a>(word: Word, given: &[Pair<'a>]) -> Option<&'a [u8]>
    ensures { text_of_option result ≡ elements.attribute_text word (pairs_of given.now) }
{
    for pair in given {
        if pair.word.is(word) {
            return Some(pair.text);
        }
    }
    None
}

/// The text of an attribute, or no bytes.
#[tactic(auto, unfolding(crate::specs::Elements::attribute_text_of))]
fn text_of<'a>(word: Word, given: &[Pair<'a>]) -> &'a [u8]
    ensures { result.now ≡ elements.attribute_text_of word (pairs_of given.now) }
{
    match text_at(word, given) {
        Some(text) => text,
        None => &[],
    }
}

/// Whether a partition is a system partition.
#[tactic(auto, unfolding(crate::specs::Elements::system_given))]
fn is_system(given: &[Pair<'_>]) -> Option<bool>
    ensures { result ≡ elements.system_given (pairs_of given.now) }
{
    match text_at(Word::Flags, given) {
        Some(text) => flags(text),
        None => Some(false),
    }
}

/// A partition's console.
#[tactic(auto, unfolding(crate::specs::Elements::console_given))]
fn console(given: &[Pair<'_>]) -> Option<Option<Name>>
    ensures { result ≡ elements.console_given (pairs_of given.now) }
{
    match text_at(Word::Console, given) {
        Some(text) => {
            let name = Name::new(text)?;
            Some(Some(name))
        }
        None => Some(None),
    }
}

/// Whether an area is only read.
#[tactic(auto, unfolding(crate::specs::Elements::is_read_only))]
fn is_read_only(given: &[Pair<'_>]) -> Option<bool>
    ensures { result ≡ elements.is_read_only (pairs_of given.now) }
{
    match text_at(Word::Flags, given) {
        Some(text) => access(text),
        None => Some(false),
    }
}

/// Whether an event is logged.
#[tactic(auto, unfolding(crate::specs::Elements::logged_given))]
fn is_logged(given: &[Pair<'_>]) -> Option<bool>
    ensures { result ≡ elements.logged_given (pairs_of given.now) }
{
    match text_at(Word::Log, given) {
        Some(text) => log(text),
        None => Some(true),
    }
}

/// A sampling channel's refresh period; 0 is forever.
#[tactic(auto, unfolding(crate::specs::Elements::refresh))]
fn refresh(given: &[Pair<'_>]) -> Option<u32>
    ensures { result ≡ elements.refresh (pairs_of given.now) }
{
    match text_at(Word::RefreshPeriod, given) {
        Some(text) => time(text),
        None => Some(0),
    }
}

/// The system's element.
#[tactic(auto, unfolding(crate::specs::Elements::system))]
fn system(given: &[Pair<'_>]) -> Option<Element>
    ensures { result ≡ elements.system (pairs_of given.now) }
{
    let name = Name::new(text_of(Word::Name, given))?;
    Some(Element::System { name })
}

/// A region.
#[tactic(auto, unfolding(crate::specs::Elements::region_element))]
fn region(given: &[Pair<'_>]) -> Option<Element>
    ensures { result ≡ elements.region_element (pairs_of given.now) }
{
    let start = address(text_of(Word::Start, given))?;
    let size = size(text_of(Word::Size, given))?;
    Some(Element::Region { start, size })
}

/// The processor.
#[tactic(auto, unfolding(crate::specs::Elements::processor))]
fn processor(given: &[Pair<'_>]) -> Option<Element>
    ensures { result ≡ elements.processor (pairs_of given.now) }
{
    let id = number(text_of(Word::Id, given))?;
    Some(Element::Processor { id })
}

/// A plan.
#[tactic(auto, unfolding(crate::specs::Elements::plan_element))]
fn plan(given: &[Pair<'_>]) -> Option<Element>
    ensures { result ≡ elements.plan_element (pairs_of given.now) }
{
    let id = number(text_of(Word::Id, given))?;
    let frame = time(text_of(Word::MajorFrame, given))?;
    Some(Element::Plan { id, frame })
}

/// A slot.
#[tactic(auto, unfolding(crate::specs::Elements::slot_element))]
fn slot(given: &[Pair<'_>]) -> Option<Element>
    ensures { result ≡ elements.slot_element (pairs_of given.now) }
{
    let id = number(text_of(Word::Id, given))?;
    let start = time(text_of(Word::Start, given))?;
    let duration = time(text_of(Word::Duration, given))?;
    let part = number(text_of(Word::PartitionId, given))?;
    Some(Element::Slot {
        id,
        start,
        duration,
        part,
    })
}

/// A UART.
#[tactic(auto, unfolding(crate::specs::Elements::uart))]
fn uart(given: &[Pair<'_>]) -> Option<Element>
    ensures { result ≡ elements.uart (pairs_of given.now) }
{
    let id = number(text_of(Word::Id, given))?;
    let name = Name::new(text_of(Word::Name, given))?;
    Some(Element::Uart { id, name })
}

/// The hypervisor's area.
#[tactic(auto, unfolding(crate::specs::Elements::hypervisor_area))]
fn hypervisor_area(given: &[Pair<'_>]) -> Option<Element>
    ensures { result ≡ elements.hypervisor_area (pairs_of given.now) }
{
    let size = size(text_of(Word::Size, given))?;
    Some(Element::HvArea { size })
}

/// A partition.
#[tactic(auto, unfolding(crate::specs::Elements::partition))]
fn partition(given: &[Pair<'_>]) -> Option<Element>
    ensures { result ≡ elements.partition (pairs_of given.now) }
{
    let id = number(text_of(Word::Id, given))?;
    let name = Name::new(text_of(Word::Name, given))?;
    let system = is_system(given)?;
    let console = console(given)?;
    Some(Element::Partition {
        id,
        name,
        system,
        console,
    })
}

/// An area.
#[tactic(auto, unfolding(crate::specs::Elements::area_element))]
fn area(given: &[Pair<'_>]) -> Option<Element>
    ensures { result ≡ elements.area_element (pairs_of given.now) }
{
    let start = address(text_of(Word::Start, given))?;
    let size = size(text_of(Word::Size, given))?;
    let read_only = is_read_only(given)?;
    Some(Element::Area {
        start,
        size,
        read_only,
    })
}

/// A requirement.
#[tactic(auto, unfolding(crate::specs::Elements::need_element))]
fn need(given: &[Pair<'_>]) -> Option<Element>
    ensures { result ≡ elements.need_element (pairs_of given.now) }
{
    let duration = time(text_of(Word::Duration, given))?;
    let period = time(text_of(Word::Period, given))?;
    Some(Element::Need { duration, period })
}

/// The event that a health event's tag names.
#[tactic(auto, unfolding(crate::specs::Elements::event_given))]
fn event_given(given: &[Pair<'_>]) -> Option<Event>
    ensures { result ≡ elements.event_given (pairs_of given.now) }
{
    Event::named(text_of(Word::Name, given))
}

/// The action that a health event's tag names.
#[tactic(auto, unfolding(crate::specs::Elements::action_given))]
fn action_given(given: &[Pair<'_>]) -> Option<Action>
    ensures { result ≡ elements.action_given (pairs_of given.now) }
{
    Action::named(text_of(Word::Action, given))
}

/// A health event.
#[tactic(auto, unfolding(crate::specs::Elements::event))]
fn event(given: &[Pair<'_>]) -> Option<Element>
    ensures { result ≡ elements.event (pairs_of given.now) }
{
    let event = event_given(given)?;
    let action = action_given(given)?;
    let log = is_logged(given)?;
    Some(Element::Event { event, action, log })
}

/// The trace.
#[tactic(auto, unfolding(crate::specs::Elements::trace))]
fn trace(given: &[Pair<'_>]) -> Option<Element>
    ensures { result ≡ elements.trace (pairs_of given.now) }
{
    let mask = address(text_of(Word::Bitmask, given))?;
    Some(Element::Trace { mask })
}

/// A port.
#[tactic(auto, unfolding(crate::specs::Elements::port_element))]
fn port(given: &[Pair<'_>]) -> Option<Element>
    ensures { result ≡ elements.port_element (pairs_of given.now) }
{
    let name = Name::new(text_of(Word::Name, given))?;
    let kind = kind(text_of(Word::Kind, given))?;
    let way = way(text_of(Word::Direction, given))?;
    Some(Element::Port { name, kind, way })
}

/// A sampling channel.
#[tactic(auto, unfolding(crate::specs::Elements::sampling))]
fn sampling(given: &[Pair<'_>]) -> Option<Element>
    ensures { result ≡ elements.sampling (pairs_of given.now) }
{
    let length = size(text_of(Word::MaxMessageLength, given))?;
    let refresh = refresh(given)?;
    Some(Element::Sampling { length, refresh })
}

/// A queuing channel.
#[tactic(auto, unfolding(crate::specs::Elements::queuing))]
fn queuing(given: &[Pair<'_>]) -> Option<Element>
    ensures { result ≡ elements.queuing (pairs_of given.now) }
{
    let length = size(text_of(Word::MaxMessageLength, given))?;
    let most = number(text_of(Word::MaxNoMessages, given))?;
    Some(Element::Queuing { length, most })
}

/// The source of a channel.
#[tactic(auto, unfolding(crate::specs::Elements::source))]
fn source(given: &[Pair<'_>]) -> Option<Element>
    ensures { result ≡ elements.source (pairs_of given.now) }
{
    let part = number(text_of(Word::PartitionId, given))?;
    let name = Name::new(text_of(Word::PortName, given))?;
    Some(Element::Source { part, name })
}

/// A destination of a channel.
#[tactic(auto, unfolding(crate::specs::Elements::destination))]
fn destination(given: &[Pair<'_>]) -> Option<Element>
    ensures { result ≡ elements.destination (pairs_of given.now) }
{
    let part = number(text_of(Word::PartitionId, given))?;
    let name = Name::new(text_of(Word::PortName, given))?;
    Some(Element::Destination { part, name })
}

/// A link.
#[tactic(auto, unfolding(crate::specs::Elements::ipvi))]
fn ipvi(given: &[Pair<'_>]) -> Option<Element>
    ensures { result ≡ elements.ipvi (pairs_of given.now) }
{
    let id = number(text_of(Word::Id, given))?;
    let source = number(text_of(Word::SourceId, given))?;
    let dest = number(text_of(Word::DestinationId, given))?;
    Some(Element::Ipvi { id, source, dest })
}

/// The element with its values.
#[tactic(auto, unfolding(crate::specs::Elements::built))]
pub(crate) fn built(word: Word, given: &[Pair<'_>]) -> Option<Element>
    ensures { result ≡ elements.built word (pairs_of given.now) }
{
    match word {
        Word::SystemDescription => system(given),
        Word::HwDescription => Some(Element::Hw),
        Word::MemoryLayout => Some(Element::MemoryLayout),
        Word::Region => region(given),
        Word::ProcessorTable => Some(Element::ProcessorTable),
        Word::Processor => processor(given),
        Word::CyclicPlanTable => Some(Element::CyclicPlanTable),
        Word::Plan => plan(given),
        Word::Slot => slot(given),
        Word::Devices => Some(Element::Devices),
        Word::Uart => uart(given),
        Word::XmHypervisor => Some(Element::Hypervisor),
        Word::PhysicalMemoryArea => hypervisor_area(given),
        Word::PartitionTable => Some(Element::PartitionTable),
        Word::Partition => partition(given),
        Word::PhysicalMemoryAreas => Some(Element::Areas),
        Word::Area => area(given),
        Word::TemporalRequirements => need(given),
        Word::HealthMonitor => Some(Element::HealthMonitor),
        Word::Event => event(given),
        Word::Trace => trace(given),
        Word::PortTable => Some(Element::PortTable),
        Word::Port => port(given),
        Word::Channels => Some(Element::Channels),
        Word::SamplingChannel => sampling(given),
        Word::QueuingChannel => queuing(given),
        Word::Source => source(given),
        Word::Destination => destination(given),
        Word::Ipvi => ipvi(given),
        _ => None,
    }
}
