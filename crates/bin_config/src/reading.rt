//! The fields of a configuration, read one after another.

ghost use Rattle.std.specs.Prelude.{◌≡◌, IfOk, Ok, Result, codes, length};
ghost use Rattle.xm_conf.specs.Configuration.{Conf as Meaning};
ghost use Rattle.xm_conf.specs.Description.{described};
ghost use Rattle.xm_conf.specs.Rules.{first_broken};
ghost use Rattle.file_headers.specs.Gives.{Gives};
ghost use Rattle.file_headers.specs.lemmas.GivesTerms.{GivesAt};
ghost use Rattle.file_headers.specs.Heads.{magic_at};
ghost use Rattle.bin_config.specs.Gives.{Fails};
ghost use Rattle.xm_base.specs.Cursor.{Place};
ghost use Rattle.bin_config.specs.Laws.{IsSpellingOf};
ghost use Rattle.bin_config.specs.Reading as reading;
ghost use Rattle.bin_config.specs.Reading.{Read};
ghost use Rattle.bin_config.specs.Version.{parts_in_version};
ghost use Rattle.fault_messages.specs.declared.fault.XmcFault.TheVariants as fault;
ghost use Rattle.bin_config.specs.declared.version.Version.{Version as AVersion};

use crate::identity::Identity;
use crate::law::{read_is_spelled, spelled_is_read};
use crate::version::Version;
use fault_messages::XmcFault;
use std::alloc::Global;
use xm_base::{Cursor, proof};
use xm_conf::{
    Action, Area, Chan, ChanKind, Conf, End, HmTable, Kind, Link, Name, Need, Part, Plan, Port,
    RawConf, Region, Slot, Way, broken_unless_fits,
};

/// A number of one byte.
#[tactic(auto, unfolding(crate::specs::Reading::byte_field_at))]
fn byte(cursor: &mut Cursor<'_>) -> Result<u8, XmcFault>
    ensures { GivesAt Fails (λ value. value) result cursor.new (reading.byte_field_at cursor.old) }
{
    Ok(cursor.u8()?)
}

/// A number of two bytes.
#[tactic(auto, unfolding(crate::specs::Reading::half_word_at))]
fn half_word(cursor: &mut Cursor<'_>) -> Result<u16, XmcFault>
    ensures { GivesAt Fails (λ value. value) result cursor.new (reading.half_word_at cursor.old) }
{
    Ok(cursor.u16()?)
}

/// A number of four bytes.
#[tactic(auto, unfolding(crate::specs::Reading::word_field_at))]
fn word(cursor: &mut Cursor<'_>) -> Result<u32, XmcFault>
    ensures { GivesAt Fails (λ value. value) result cursor.new (reading.word_field_at cursor.old) }
{
    Ok(cursor.u32()?)
}

/// A region.
#[tactic(auto, unfolding(crate::specs::Reading::region_at))]
fn region(cursor: &mut Cursor<'_>) -> Result<Region, XmcFault>
    ensures { GivesAt Fails (λ value. value) result cursor.new (reading.region_at cursor.old) }
{
    let start = word(cursor)?;
    let size = word(cursor)?;
    Ok(Region { start, size })
}

/// A slot.
#[tactic(auto, unfolding(crate::specs::Reading::slot_record_at))]
fn slot(cursor: &mut Cursor<'_>) -> Result<Slot, XmcFault>
    ensures { GivesAt Fails (λ value. value) result cursor.new (reading.slot_record_at cursor.old) }
{
    let start = word(cursor)?;
    let duration = word(cursor)?;
    let part = byte(cursor)?;
    Ok(Slot {
        start,
        duration,
        part,
    })
}

/// What a byte means that is 0 or 1, each for a value.
fn one_of_two<T: Copy>(byte: u8, first: T, second: T) -> Option<T>
    ensures { result ≡ reading.one_of_two first second byte }
{
    if byte == 0 {
        return Some(first);
    }
    if byte == 1 {
        return Some(second);
    }
    None
}

/// A byte that is 0 or 1.
#[tactic(auto, unfolding(crate::specs::Reading::flag_at))]
fn flag(cursor: &mut Cursor<'_>) -> Result<bool, XmcFault>
    ensures { GivesAt Fails (λ value. value) result cursor.new (reading.flag_at cursor.old) }
{
    let at = cursor.at();
    let byte = byte(cursor)?;
    match one_of_two(byte, false, true) {
        Some(value) => Ok(value),
        None => Err(XmcFault::Field { at }),
    }
}

/// The bytes of a text that begins at a place.
fn text_after(at: usize, count: u8, cursor: &mut Cursor<'_>) -> Result<Name, XmcFault>
    ensures { GivesAt Fails (λ value. value) result cursor.new (reading.text_after at count cursor.old) }
{
    match cursor.take(usize::from(count)) {
        Ok(bytes) => match Name::new(bytes) {
            Some(name) => Ok(name),
            None => Err(XmcFault::Field { at }),
        },
        Err(_) => Err(XmcFault::Short { at }),
    }
}

/// A text.
#[tactic(auto, unfolding(crate::specs::Reading::text_field_at))]
fn text(cursor: &mut Cursor<'_>) -> Result<Name, XmcFault>
    ensures { GivesAt Fails (λ value. value) result cursor.new (reading.text_field_at cursor.old) }
{
    let at = cursor.at();
    let count = byte(cursor)?;
    text_after(at, count, cursor)
}

/// A port's kind.
#[tactic(auto, unfolding(crate::specs::Reading::kind_at))]
fn kind(cursor: &mut Cursor<'_>) -> Result<Kind, XmcFault>
    ensures { GivesAt Fails (λ value. value) result cursor.new (reading.kind_at cursor.old) }
{
    let at = cursor.at();
    let byte = byte(cursor)?;
    match one_of_two(byte, Kind::Sampling, Kind::Queuing) {
        Some(value) => Ok(value),
        None => Err(XmcFault::Field { at }),
    }
}

/// A port's way.
#[tactic(auto, unfolding(crate::specs::Reading::way_at))]
fn way(cursor: &mut Cursor<'_>) -> Result<Way, XmcFault>
    ensures { GivesAt Fails (λ value. value) result cursor.new (reading.way_at cursor.old) }
{
    let at = cursor.at();
    let byte = byte(cursor)?;
    match one_of_two(byte, Way::Source, Way::Destination) {
        Some(value) => Ok(value),
        None => Err(XmcFault::Field { at }),
    }
}

/// A port.
#[tactic(auto, unfolding(crate::specs::Reading::port_record_at))]
fn port(cursor: &mut Cursor<'_>) -> Result<Port, XmcFault>
    ensures { GivesAt Fails (λ value. value) result cursor.new (reading.port_record_at cursor.old) }
{
    let name = text(cursor)?;
    let kind = kind(cursor)?;
    let way = way(cursor)?;
    Ok(Port { name, kind, way })
}

/// An area.
#[tactic(auto, unfolding(crate::specs::Reading::area_at))]
fn area(cursor: &mut Cursor<'_>) -> Result<Area, XmcFault>
    ensures { GivesAt Fails (λ value. value) result cursor.new (reading.area_at cursor.old) }
{
    let start = word(cursor)?;
    let size = word(cursor)?;
    let read_only = flag(cursor)?;
    Ok(Area {
        start,
        size,
        read_only,
    })
}

/// An end of a channel.
#[tactic(auto, unfolding(crate::specs::Reading::end_at))]
fn end(cursor: &mut Cursor<'_>) -> Result<End, XmcFault>
    ensures { GivesAt Fails (λ value. value) result cursor.new (reading.end_at cursor.old) }
{
    let part = byte(cursor)?;
    let port = byte(cursor)?;
    Ok(End { part, port })
}

/// What a channel's kind has beside it.
#[tactic(auto, unfolding(crate::specs::Reading::keeps_at))]
fn keeps(kind: Kind, cursor: &mut Cursor<'_>) -> Result<ChanKind, XmcFault>
    ensures { GivesAt Fails (λ value. value) result cursor.new (reading.keeps_at kind cursor.old) }
{
    match kind {
        Kind::Sampling => {
            let refresh = word(cursor)?;
            Ok(ChanKind::Sampling { refresh })
        }
        Kind::Queuing => {
            let most = byte(cursor)?;
            Ok(ChanKind::Queuing { most })
        }
    }
}

/// A requirement of a duration and a period: both are 0 or neither.
fn need_of(duration: u32, period: u32) -> Option<Option<Need>>
    ensures { result ≡ reading.need_of_numbers duration period }
{
    if duration == 0 && period == 0 {
        return Some(None);
    }
    if duration == 0 || period == 0 {
        return None;
    }
    Some(Some(Need { duration, period }))
}

/// A requirement.
#[tactic(auto, unfolding(crate::specs::Reading::need_at))]
fn need(cursor: &mut Cursor<'_>) -> Result<Option<Need>, XmcFault>
    ensures { GivesAt Fails (λ value. value) result cursor.new (reading.need_at cursor.old) }
{
    let duration = word(cursor)?;
    let at = cursor.at();
    let period = word(cursor)?;
    match need_of(duration, period) {
        Some(value) => Ok(value),
        None => Err(XmcFault::Field { at }),
    }
}

/// The flags of the events that are logged.
fn flags_of(byte: u16) -> Option<u16>
    ensures { result ≡ reading.logged_flags byte }
{
    if byte < 4096 {
        return Some(byte);
    }
    None
}

/// The flags of the events that are logged.
#[tactic(auto, unfolding(crate::specs::Reading::flags_at))]
fn flags(cursor: &mut Cursor<'_>) -> Result<u16, XmcFault>
    ensures { GivesAt Fails (λ value. value) result cursor.new (reading.flags_at cursor.old) }
{
    let at = cursor.at();
    let byte = half_word(cursor)?;
    match flags_of(byte) {
        Some(value) => Ok(value),
        None => Err(XmcFault::Field { at }),
    }
}

/// This many elements, one after another.
fn each<T: Drop, F: Fn(&mut Cursor<'_>) -> Result<T, XmcFault>>(
    alloc: Global,
    count: u8,
    cursor: &mut Cursor<'_>,
    element: F,
) -> Result<Vec<T>, XmcFault>
    requires callable { F.IsAlwaysCallable element }
    ensures { (read : Place → Read T) → ((old : _) (found : Result T XmcFault) (new : _) → F.post element old found new → GivesAt Fails (λ value. value) found new.now (read old.now)) → GivesAt Fails (λ elements. elements.items) result cursor.new (reading.elements_at read count cursor.old) }
{
    let mut elements = Vec::new(alloc);
    for _ in 0..count {
        let one = element(cursor)?;
        elements.push(one)?;
    }
    Ok(elements)
}

/// A byte with the number of elements, and each of them.
fn counted<T: Drop, F: Fn(&mut Cursor<'_>) -> Result<T, XmcFault>>(
    alloc: Global,
    cursor: &mut Cursor<'_>,
    element: F,
) -> Result<Vec<T>, XmcFault>
    requires callable { F.IsAlwaysCallable element }
    ensures { (read : Place → Read T) → ((old : _) (found : Result T XmcFault) (new : _) → F.post element old found new → GivesAt Fails (λ value. value) found new.now (read old.now)) → GivesAt Fails (λ elements. elements.items) result cursor.new (reading.counted_at read cursor.old) }
{
    let count = byte(cursor)?;
    each(alloc, count, cursor, element)
}

/// A plan.
#[tactic(auto, unfolding(crate::specs::Reading::plan_record_at))]
fn plan(alloc: Global, cursor: &mut Cursor<'_>) -> Result<Plan, XmcFault>
    ensures { GivesAt Fails (λ value. value) result cursor.new (reading.plan_record_at cursor.old) }
{
    let frame = word(cursor)?;
    let slots = counted(alloc, cursor, slot)?;
    Ok(Plan { frame, slots })
}

/// A channel.
#[tactic(auto, unfolding(crate::specs::Reading::chan_record_at))]
fn chan(alloc: Global, cursor: &mut Cursor<'_>) -> Result<Chan, XmcFault>
    ensures { GivesAt Fails (λ value. value) result cursor.new (reading.chan_record_at cursor.old) }
{
    let kind = kind(cursor)?;
    let length = half_word(cursor)?;
    let kind = keeps(kind, cursor)?;
    let source = end(cursor)?;
    let dests = counted(alloc, cursor, end)?;
    Ok(Chan {
        kind,
        length,
        source,
        dests,
    })
}

/// An action.
#[tactic(auto, unfolding(crate::specs::Reading::action_at))]
fn action(cursor: &mut Cursor<'_>) -> Result<Action, XmcFault>
    ensures { GivesAt Fails (λ value. value) result cursor.new (reading.action_at cursor.old) }
{
    let at = cursor.at();
    let byte = byte(cursor)?;
    match Action::numbered(byte) {
        Some(value) => Ok(value),
        None => Err(XmcFault::Field { at }),
    }
}

/// As many actions as there are places for.
#[tactic(auto, using(crate::proofs::ElementsLemmas::elements_fill))]
fn fill(places: &mut [Action], cursor: &mut Cursor<'_>) -> Result<(), XmcFault>
    ensures { GivesAt Fails (λ _. places.new) result cursor.new (reading.elements_at reading.action_at (length places.old) cursor.old) }
{
    for n in 0..places.len() {
        places[n] = action(cursor)?;
    }
    Ok(())
}

/// A partition's table of health events.
#[tactic(auto, unfolding(crate::specs::Reading::health_table_at, crate::specs::Reading::event_count))]
fn monitor(cursor: &mut Cursor<'_>) -> Result<HmTable, XmcFault>
    ensures { GivesAt Fails (λ value. value) result cursor.new (reading.health_table_at cursor.old) }
{
    let mut actions = [Action::Ignore; 12];
    fill(&mut actions, cursor)?;
    let logged = flags(cursor)?;
    Ok(HmTable { actions, logged })
}

/// The UART of a console.
fn console_of(byte: u8) -> Option<u8>
    ensures { result ≡ reading.console_of byte }
{
    if byte == 255 {
        return None;
    }
    Some(byte)
}

/// Who a partition is, and what time it requires.
#[tactic(auto, unfolding(crate::specs::Reading::identity_at))]
fn identity(cursor: &mut Cursor<'_>) -> Result<Identity, XmcFault>
    ensures { GivesAt Fails (λ value. value) result cursor.new (reading.identity_at cursor.old) }
{
    let name = text(cursor)?;
    let system = flag(cursor)?;
    let console = byte(cursor)?;
    let need = need(cursor)?;
    let trace_mask = word(cursor)?;
    Ok(Identity {
        name,
        system,
        console: console_of(console),
        need,
        trace_mask,
    })
}

/// A partition.
#[tactic(auto, unfolding(crate::specs::Reading::part_record_at))]
fn part(alloc: Global, cursor: &mut Cursor<'_>) -> Result<Part, XmcFault>
    ensures { GivesAt Fails (λ value. value) result cursor.new (reading.part_record_at cursor.old) }
{
    let identity = identity(cursor)?;
    let hm = monitor(cursor)?;
    let areas = counted(alloc, cursor, area)?;
    let ports = counted(alloc, cursor, port)?;
    Ok(Part {
        name: identity.name,
        system: identity.system,
        console: identity.console,
        need: identity.need,
        trace_mask: identity.trace_mask,
        hm,
        areas,
        ports,
    })
}

/// A link.
#[tactic(auto, unfolding(crate::specs::Reading::link_at))]
fn link(cursor: &mut Cursor<'_>) -> Result<Link, XmcFault>
    ensures { GivesAt Fails (λ value. value) result cursor.new (reading.link_at cursor.old) }
{
    let number = byte(cursor)?;
    let source = byte(cursor)?;
    let dest = byte(cursor)?;
    Ok(Link {
        number,
        source,
        dest,
    })
}

/// The links, which version 1 does not have.
fn links(alloc: Global, version: Version, cursor: &mut Cursor<'_>) -> Result<Vec<Link>, XmcFault>
    ensures { GivesAt Fails (λ elements. elements.items) result cursor.new (reading.links_at version cursor.old) }
{
    match version {
        Version::One => Ok(Vec::new(alloc)),
        Version::Two => counted(alloc, cursor, link),
    }
}

/// What stands after the length of the whole.
#[tactic(auto, unfolding(crate::specs::Reading::conf_body_at))]
fn conf(alloc: Global, version: Version, cursor: &mut Cursor<'_>) -> Result<RawConf, XmcFault>
    ensures { GivesAt Fails (λ value. value) result cursor.new (reading.conf_body_at version cursor.old) }
{
    let name = text(cursor)?;
    let regions = counted(alloc, cursor, region)?;
    let hv_size = word(cursor)?;
    let uarts = counted(alloc, cursor, text)?;
    let plans = counted(alloc, cursor, |cursor| plan(alloc, cursor))?;
    let parts = counted(alloc, cursor, |cursor| part(alloc, cursor))?;
    let chans = counted(alloc, cursor, |cursor| chan(alloc, cursor))?;
    let links = links(alloc, version, cursor)?;
    Ok(RawConf {
        name,
        regions,
        hv_size,
        uarts,
        plans,
        parts,
        chans,
        links,
    })
}

/// The name of the format.
#[tactic(auto, unfolding(file_headers::specs::Heads::magic_at))]
fn magic(cursor: &mut Cursor<'_>) -> Result<(), XmcFault>
    ensures { Gives Fails (λ _. cursor.new) result (magic_at reading.conf_short fault.Magic (codes "XMCF") cursor.old) }
{
    if cursor.take(4)? != b"XMCF".as_slice() {
        return Err(XmcFault::Magic);
    }
    Ok(())
}

/// The version, which is the one that is wanted, or either.
#[tactic(auto, unfolding(crate::specs::Reading::wanted_version_at))]
fn version(wanted: Option<Version>, cursor: &mut Cursor<'_>) -> Result<Version, XmcFault>
    ensures { GivesAt Fails (λ value. value) result cursor.new (reading.wanted_version_at wanted cursor.old) }
{
    let found = half_word(cursor)?;
    match Version::wanted(wanted, found) {
        Some(version) => Ok(version),
        None => Err(XmcFault::Version { found }),
    }
}

/// The first fields: what comes first, the version, which is returned, and the length of the whole, which
/// has this many bytes.
#[tactic(auto, unfolding(crate::specs::Reading::head_at))]
fn head(total: usize, wanted: Option<Version>, cursor: &mut Cursor<'_>) -> Result<Version, XmcFault>
    requires { total ≡ length cursor.old.bytes }
    ensures { GivesAt Fails (λ value. value) result cursor.new (reading.head_at wanted cursor.old) }
{
    magic(cursor)?;
    let version = version(wanted, cursor)?;
    let stated = word(cursor)?;
    is_whole(total, stated)?;
    Ok(version)
}

/// There are as many bytes as the length field states.
fn is_whole(total: usize, stated: u32) -> Result<(), XmcFault>
    ensures { Gives Fails (λ value. value) result (reading.is_whole total stated) }
{
    let length = stated as usize;
    if total < length {
        return Err(XmcFault::Short { at: total });
    }
    if length < total {
        return Err(XmcFault::Trailing { at: length });
    }
    Ok(())
}

/// The other fields of a version, and nothing after them.
#[tactic(auto, unfolding(crate::specs::Reading::fields_at))]
fn fields(alloc: Global, version: Version, cursor: &mut Cursor<'_>) -> Result<RawConf, XmcFault>
    ensures { Gives Fails (λ value. value) result (reading.fields_at version cursor.old) }
{
    let raw = conf(alloc, version, cursor)?;
    if cursor.left() > 0 {
        return Err(XmcFault::Trailing { at: cursor.at() });
    }
    Ok(raw)
}

/// A configuration, where no rule of a version is broken.
fn unbroken(version: Version, raw: RawConf) -> Result<Conf, XmcFault>
    ensures { Gives Fails (λ value. value) result (reading.unbroken raw (first_broken (parts_in_version version) (described raw))) }
{
    proof! { broken_unless_fits(); }
    match Conf::within(version.parts(), raw) {
        Ok(conf) => Ok(conf),
        Err(broken) => Err(XmcFault::NotFit { rule: broken.rule }),
    }
}

/// The configuration that these bytes are in the version that is wanted, or in either.
#[tactic(auto, unfolding(crate::specs::Reading::read_within))]
fn read_within(alloc: Global, wanted: Option<Version>, bytes: &[u8]) -> Result<Conf, XmcFault>
    ensures { Gives Fails (λ conf. conf) result (reading.read_within wanted bytes.now) }
{
    let mut cursor = Cursor::new(bytes);
    let version = head(bytes.len(), wanted, &mut cursor)?;
    let raw = fields(alloc, version, &mut cursor)?;
    unbroken(version, raw)
}

/// The configuration that these bytes are in either version, or the first fault: of the head, then of
/// the length, then of the other fields from left to right, then a byte that is left, then a broken
/// rule. `Memory` when out of memory.
pub fn read_xmc(alloc: Global, bytes: &[u8]) -> Result<Conf, XmcFault>
    // What is read is the configuration that the bytes spell, in one of the versions.
    ensures found { IfOk result (λ conf. (v : AVersion) × IsSpellingOf v bytes.now conf) }
    // The configuration that the bytes spell is read, unless out of memory.
    ensures only { (v : AVersion) (conf : Meaning) → IsSpellingOf v bytes.now conf → Gives Fails (λ found. found) result (Ok conf) }
    // A fault is the first one.
    ensures exact { Gives Fails (λ found. found) result (reading.read_of bytes.now) }
{
    proof! {
        read_is_spelled();
        spelled_is_read();
    }
    read_within(alloc, None, bytes)
}

/// The same, where no other version than one is known.
pub fn read_version(alloc: Global, version: Version, bytes: &[u8]) -> Result<Conf, XmcFault>
    // What is read is the configuration that the bytes spell in this version.
    ensures found { IfOk result (IsSpellingOf version bytes.now) }
    // The configuration that the bytes spell in this version is read, unless out of memory.
    ensures only { (conf : Meaning) → IsSpellingOf version bytes.now conf → Gives Fails (λ found. found) result (Ok conf) }
    // A fault is the first one.
    ensures exact { Gives Fails (λ found. found) result (reading.read_as version bytes.now) }
{
    proof! {
        read_is_spelled();
        spelled_is_read();
    }
    read_within(alloc, Some(version), bytes)
}
