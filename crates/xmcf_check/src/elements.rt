//! What each element of a draft adds to a configuration.

ghost use Rattle.std.specs.Prelude.{◌≡◌};
ghost use Rattle.xm_base.specs.Options.{on};
ghost use Rattle.xmcf_check.specs.lemmas.Capped.{capped, capped_link, capped_slot};
ghost use Rattle.xmcf_check.specs.Elements.{element_area, carried_of, element_frame, element_answer, link_element, mask_of, element_need, element_own, part_id_of, plan_id_of, element_port, processor_of, region_of, element_size, slot_id_of, element_slot, uart_id_of, uart_of};
ghost use Rattle.xmcf_check.specs.lemmas.ElementsTerms.{capped_carried};

use xm_conf::{Action, Area, ChanKind, Event, Link, Name, Need, Port, Region, Slot};
use xmcf_reader::Element;

/// An answer to a health event, and whether the event is logged.
#[derive(Clone, Copy, Debug)]
pub(crate) struct Given {
    pub(crate) event: Event,
    pub(crate) action: Action,
    pub(crate) log: bool,
}

/// What a partition calls itself, and its console.
#[derive(Clone, Copy, Debug)]
pub(crate) struct Own {
    pub(crate) name: Name,
    pub(crate) system: bool,
    pub(crate) console: Option<Name>,
}

/// What a channel carries: its kind, and how many bytes a message has at most.
#[derive(Clone, Copy, Debug)]
pub(crate) struct Carried {
    pub(crate) kind: ChanKind,
    pub(crate) size: u16,
}

/// A number as a byte, or the greatest byte.
#[tactic(auto, unfolding(crate::specs::lemmas::Capped::capped))]
pub(crate) fn byte(number: u32) -> u8
    ensures { result ≡ capped 255 number }
{
    if number > 255 { 255 } else { number as u8 }
}

/// A number as a half word, or the greatest half word.
#[tactic(auto, unfolding(crate::specs::lemmas::Capped::capped))]
pub(crate) fn half_word(number: u32) -> u16
    ensures { result ≡ capped 65535 number }
{
    if number > 65535 { 65535 } else { number as u16 }
}

/// A number of an item as a byte, or the greatest byte.
#[tactic(auto, unfolding(crate::specs::lemmas::Capped::capped))]
pub(crate) fn item_byte(number: usize) -> u8
    ensures { result ≡ capped 255 number }
{
    if number > 255 { 255 } else { number as u8 }
}

/// A region.
pub(crate) fn region_of(element: &Element) -> Option<Region>
    ensures { result ≡ region_of element.now }
{
    match element {
        Element::Region { start, size } => Some(Region {
            start: *start,
            size: *size,
        }),
        _ => None,
    }
}

/// The processor's id.
pub(crate) fn processor_of(element: &Element) -> Option<u32>
    ensures { result ≡ processor_of element.now }
{
    match element {
        Element::Processor { id } => Some(*id),
        _ => None,
    }
}

/// A plan's frame.
pub(crate) fn frame_of(element: &Element) -> Option<u32>
    ensures { result ≡ element_frame element.now }
{
    match element {
        Element::Plan { frame, .. } => Some(*frame),
        _ => None,
    }
}

/// A plan's id.
pub(crate) fn plan_id_of(element: &Element) -> Option<u32>
    ensures { result ≡ plan_id_of element.now }
{
    match element {
        Element::Plan { id, .. } => Some(*id),
        _ => None,
    }
}

/// A slot, with its partition capped.
#[tactic(auto, unfolding(crate::specs::lemmas::Capped::capped_slot))]
pub(crate) fn slot_of(element: &Element) -> Option<Slot>
    ensures { result ≡ on capped_slot (element_slot element.now) }
{
    match element {
        Element::Slot {
            start,
            duration,
            part,
            ..
        } => Some(Slot {
            start: *start,
            duration: *duration,
            part: byte(*part),
        }),
        _ => None,
    }
}

/// A slot's id.
pub(crate) fn slot_id_of(element: &Element) -> Option<u32>
    ensures { result ≡ slot_id_of element.now }
{
    match element {
        Element::Slot { id, .. } => Some(*id),
        _ => None,
    }
}

/// A UART's name.
pub(crate) fn uart_of(element: &Element) -> Option<Name>
    ensures { result ≡ uart_of element.now }
{
    match element {
        Element::Uart { name, .. } => Some(*name),
        _ => None,
    }
}

/// A UART's id.
pub(crate) fn uart_id_of(element: &Element) -> Option<u32>
    ensures { result ≡ uart_id_of element.now }
{
    match element {
        Element::Uart { id, .. } => Some(*id),
        _ => None,
    }
}

/// The size of the hypervisor.
pub(crate) fn size_of(element: &Element) -> Option<u32>
    ensures { result ≡ element_size element.now }
{
    match element {
        Element::HvArea { size } => Some(*size),
        _ => None,
    }
}

/// A partition's id.
pub(crate) fn part_id_of(element: &Element) -> Option<u32>
    ensures { result ≡ part_id_of element.now }
{
    match element {
        Element::Partition { id, .. } => Some(*id),
        _ => None,
    }
}

/// What a partition calls itself.
pub(crate) fn own_of(element: &Element) -> Option<Own>
    ensures { result ≡ element_own element.now }
{
    match element {
        Element::Partition {
            name,
            system,
            console,
            ..
        } => Some(Own {
            name: *name,
            system: *system,
            console: *console,
        }),
        _ => None,
    }
}

/// An area.
pub(crate) fn area_of(element: &Element) -> Option<Area>
    ensures { result ≡ element_area element.now }
{
    match element {
        Element::Area {
            start,
            size,
            read_only,
        } => Some(Area {
            start: *start,
            size: *size,
            read_only: *read_only,
        }),
        _ => None,
    }
}

/// What time is required.
pub(crate) fn need_of(element: &Element) -> Option<Need>
    ensures { result ≡ element_need element.now }
{
    match element {
        Element::Need { duration, period } => Some(Need {
            duration: *duration,
            period: *period,
        }),
        _ => None,
    }
}

/// An answer to a health event.
pub(crate) fn given_of(element: &Element) -> Option<Given>
    ensures { result ≡ element_answer element.now }
{
    match element {
        Element::Event { event, action, log } => Some(Given {
            event: *event,
            action: *action,
            log: *log,
        }),
        _ => None,
    }
}

/// The mask of a trace.
pub(crate) fn mask_of(element: &Element) -> Option<u32>
    ensures { result ≡ mask_of element.now }
{
    match element {
        Element::Trace { mask } => Some(*mask),
        _ => None,
    }
}

/// A port.
pub(crate) fn port_of(element: &Element) -> Option<Port>
    ensures { result ≡ element_port element.now }
{
    match element {
        Element::Port { name, kind, way } => Some(Port {
            name: *name,
            kind: *kind,
            way: *way,
        }),
        _ => None,
    }
}

/// What a channel carries, with its numbers capped.
#[tactic(auto, unfolding(crate::specs::lemmas::ElementsTerms::capped_carried, crate::specs::lemmas::Capped::capped_kind))]
pub(crate) fn carried_of(element: &Element) -> Option<Carried>
    ensures { result ≡ on capped_carried (carried_of element.now) }
{
    match element {
        Element::Sampling { length, refresh } => Some(Carried {
            kind: ChanKind::Sampling { refresh: *refresh },
            size: half_word(*length),
        }),
        Element::Queuing { length, most } => Some(Carried {
            kind: ChanKind::Queuing { most: byte(*most) },
            size: half_word(*length),
        }),
        _ => None,
    }
}

/// A link, with its numbers capped.
#[tactic(auto, unfolding(crate::specs::lemmas::Capped::capped_link))]
pub(crate) fn link_of(element: &Element) -> Option<Link>
    ensures { result ≡ on capped_link (link_element element.now) }
{
    match element {
        Element::Ipvi { id, source, dest } => Some(Link {
            number: byte(*id),
            source: byte(*source),
            dest: byte(*dest),
        }),
        _ => None,
    }
}
