//! A configuration, field by field in its binary form.

ghost use Rattle.std.specs.Prelude.{◌≡◌, ℕ, ◌++◌, ◌+◌, ◌<◌, ◌≤◌, List, Result, Some, All, IfOk, IfSome, Ok, OnOk, length, flat_map, slice_get};
ghost use Rattle.bin_config.specs.lemmas.Puts.{Puts, WasPut};
ghost use Rattle.bin_config.specs.Spelled as spelled;
ghost use Rattle.bin_config.specs.lemmas.SpelledTerms as spelled_lemmas;
ghost use Rattle.bin_config.specs.Xmc as xmc;
ghost use Rattle.bin_config.specs.declared.version.Version.TheVariants.{Two};
ghost use Rattle.bin_config.specs.Reading.{read_of};
ghost use Rattle.bin_config.specs.Version.{FitsVersion};
ghost use Rattle.xm_conf.specs.lemmas.FitsTerms.{HasCounts};
ghost use Rattle.xm_conf.specs.Limits.{most_dests};
ghost use Rattle.xm_conf.specs.Name.{IsName};

use crate::law::spelled_is_read;
use crate::put::{append, put_byte, put_half_word, put_word};
use crate::version::Version;
use std::alloc::Global;
use xm_base::{Memory, proof};
use xm_conf::{
    Action, Area, Chan, ChanKind, Conf, End, HmTable, Kind, Link, Name, Need, Part, Plan, Port,
    RawConf, Region, Slot, Way,
};

/// Puts a name: its length, and its bytes.
#[tactic(auto, using(crate::proofs::PutsLemmas::put_then), unfolding(crate::specs::Xmc::text_field))]
fn put_text(bytes: &mut Vec<u8>, name: &Name) -> Result<(), Memory>
    ensures bytes { Puts result bytes.old.items bytes.new.items (xmc.text_field name.now) }
    ensures name { OnOk result (IsName name.now) }
{
    let piece = name.bytes();
    put_byte(bytes, piece.len() as u8)?;
    append(bytes, piece)
}

/// Puts each of the elements, as one is put.
fn put_each<T, F: Fn(&mut Vec<u8>, &T) -> Result<(), Memory>>(
    bytes: &mut Vec<u8>,
    elements: &[T],
    put_one: F,
) -> Result<(), Memory>
    requires callable { (old : _) (n : ℕ) (element : _) → slice_get elements.now n ≡ Some element.now → F.pre put_one old element }
    ensures bytes { (spell : T → List ℕ) → ((old : _) (element : _) (done : Result (Unit {0}) Memory) (new : _) → F.post put_one old element done new → Puts done old.now.items new.now.items (spell element.now)) → Puts result bytes.old.items bytes.new.items (flat_map spell elements.now) }
    ensures each { OnOk result (All (WasPut (F.post put_one)) elements.now) }
{
    for element in elements {
        put_one(bytes, element)?;
    }
    Ok(())
}

/// Puts a list: the number of its elements, and each of them.
#[tactic(auto, using(crate::proofs::PutsLemmas::put_then))]
fn put_list<T, F: Fn(&mut Vec<u8>, &T) -> Result<(), Memory>>(
    bytes: &mut Vec<u8>,
    elements: &[T],
    put_one: F,
) -> Result<(), Memory>
    requires few { length elements.now < 256 }
    requires callable { (old : _) (n : ℕ) (element : _) → slice_get elements.now n ≡ Some element.now → F.pre put_one old element }
    ensures bytes { (spell : T → List ℕ) → ((old : _) (element : _) (done : Result (Unit {0}) Memory) (new : _) → F.post put_one old element done new → Puts done old.now.items new.now.items (spell element.now)) → Puts result bytes.old.items bytes.new.items (xmc.list_field spell elements.now) }
    ensures each { OnOk result (All (WasPut (F.post put_one)) elements.now) }
{
    put_byte(bytes, elements.len() as u8)?;
    put_each(bytes, elements, put_one)
}

/// Puts two words.
#[tactic(auto, using(crate::proofs::PutsLemmas::put_then))]
fn put_words(bytes: &mut Vec<u8>, first: u32, second: u32) -> Result<(), Memory>
    ensures { Puts result bytes.old.items bytes.new.items (xmc.word_field first ++ xmc.word_field second) }
{
    put_word(bytes, first)?;
    put_word(bytes, second)
}

/// Puts a region.
#[tactic(auto, unfolding(crate::specs::Xmc::region_record))]
fn put_region(bytes: &mut Vec<u8>, region: &Region) -> Result<(), Memory>
    ensures bytes { Puts result bytes.old.items bytes.new.items (xmc.region_record region.now) }
    ensures ranges { OnOk result (spelled.IsSpelledRegion region.now) }
{
    put_words(bytes, region.start, region.size)
}

/// Puts a slot.
#[tactic(auto, using(crate::proofs::PutsLemmas::put_then), unfolding(crate::specs::Xmc::slot_record))]
fn put_slot(bytes: &mut Vec<u8>, slot: &Slot) -> Result<(), Memory>
    ensures bytes { Puts result bytes.old.items bytes.new.items (xmc.slot_record slot.now) }
    ensures ranges { OnOk result (spelled.IsSpelledSlot slot.now) }
{
    put_words(bytes, slot.start, slot.duration)?;
    put_byte(bytes, slot.part)
}

/// Puts a plan.
#[tactic(auto, using(crate::proofs::PutsLemmas::put_then), unfolding(crate::specs::Xmc::plan_record))]
fn put_plan(bytes: &mut Vec<u8>, plan: &Plan) -> Result<(), Memory>
    requires { length plan.now.slots ≤ 64 }
    ensures bytes { Puts result bytes.old.items bytes.new.items (xmc.plan_record plan.now) }
    ensures ranges { OnOk result (spelled_lemmas.HasPlanRanges plan.now) }
{
    put_word(bytes, plan.frame)?;
    put_list(bytes, &plan.slots, put_slot)
}

/// The byte that answers whether something is so.
fn flag(is: bool) -> u8
    ensures { result ≡ xmc.flag_field is }
{
    if is { 1 } else { 0 }
}

/// The byte of a console: the UART, or 255 for none.
fn console(uart: Option<u8>) -> u8
    ensures { result ≡ xmc.console_field uart }
{
    match uart {
        Some(uart) => uart,
        None => 255,
    }
}

/// Puts a requirement, or zeros for none.
fn put_need(bytes: &mut Vec<u8>, need: Option<Need>) -> Result<(), Memory>
    ensures bytes { Puts result bytes.old.items bytes.new.items (xmc.need_field need) }
    ensures ranges { OnOk result (IfSome need spelled.HasNeedRanges) }
{
    match need {
        Some(need) => put_words(bytes, need.duration, need.period),
        None => put_words(bytes, 0, 0),
    }
}

/// Puts who a partition is, and what time it requires.
#[tactic(auto, using(crate::proofs::PutsLemmas::put_then), unfolding(crate::specs::Xmc::identity))]
fn put_identity(bytes: &mut Vec<u8>, part: &Part) -> Result<(), Memory>
    ensures bytes { Puts result bytes.old.items bytes.new.items (xmc.identity part.now) }
    ensures name { OnOk result (IsName part.now.name) }
    ensures need { OnOk result (IfSome part.now.need spelled.HasNeedRanges) }
    ensures trace_mask { OnOk result (spelled.HasFourBytes part.now.trace_mask) }
{
    put_text(bytes, &part.name)?;
    put_byte(bytes, flag(part.system))?;
    put_byte(bytes, console(part.console))?;
    put_need(bytes, part.need)?;
    put_word(bytes, part.trace_mask)
}

/// Puts an action.
#[tactic(auto, unfolding(crate::specs::Xmc::action))]
fn put_action(bytes: &mut Vec<u8>, action: &Action) -> Result<(), Memory>
    ensures { Puts result bytes.old.items bytes.new.items (xmc.action action.now) }
{
    put_byte(bytes, action.number())
}

/// Puts the actions of all events, and what is logged.
#[tactic(auto, using(crate::proofs::PutsLemmas::put_then), unfolding(crate::specs::Xmc::monitor))]
fn put_monitor(bytes: &mut Vec<u8>, hm: &HmTable) -> Result<(), Memory>
    ensures bytes { Puts result bytes.old.items bytes.new.items (xmc.monitor hm.now) }
    ensures actions { OnOk result (length hm.now.actions ≡ 12) }
{
    put_each(bytes, &hm.actions, put_action)?;
    put_half_word(bytes, hm.logged)
}

/// Puts an area.
#[tactic(auto, using(crate::proofs::PutsLemmas::put_then), unfolding(crate::specs::Xmc::area_record))]
fn put_area(bytes: &mut Vec<u8>, area: &Area) -> Result<(), Memory>
    ensures bytes { Puts result bytes.old.items bytes.new.items (xmc.area_record area.now) }
    ensures ranges { OnOk result (spelled.IsSpelledArea area.now) }
{
    put_words(bytes, area.start, area.size)?;
    put_byte(bytes, flag(area.read_only))
}

/// The byte of a port's kind.
fn kind_byte(kind: Kind) -> u8
    ensures { result ≡ xmc.kind_byte kind }
{
    match kind {
        Kind::Sampling => 0,
        Kind::Queuing => 1,
    }
}

/// The byte of a port's way.
fn way_byte(way: Way) -> u8
    ensures { result ≡ xmc.way_byte way }
{
    match way {
        Way::Source => 0,
        Way::Destination => 1,
    }
}

/// Puts a port.
#[tactic(auto, using(crate::proofs::PutsLemmas::put_then), unfolding(crate::specs::Xmc::port_record))]
fn put_port(bytes: &mut Vec<u8>, port: &Port) -> Result<(), Memory>
    ensures bytes { Puts result bytes.old.items bytes.new.items (xmc.port_record port.now) }
    ensures name { OnOk result (IsName port.now.name) }
{
    put_text(bytes, &port.name)?;
    put_byte(bytes, kind_byte(port.kind))?;
    put_byte(bytes, way_byte(port.way))
}

/// Puts what a partition has.
#[tactic(auto, using(crate::proofs::PutsLemmas::put_then), unfolding(crate::specs::Xmc::belongings))]
fn put_belongings(bytes: &mut Vec<u8>, part: &Part) -> Result<(), Memory>
    requires areas { length part.now.areas ≤ 8 }
    requires ports { length part.now.ports ≤ 32 }
    ensures bytes { Puts result bytes.old.items bytes.new.items (xmc.belongings part.now) }
    ensures area_ranges { OnOk result (All spelled.IsSpelledArea part.now.areas) }
    ensures port_names { OnOk result (All (λ port. IsName port.name) part.now.ports) }
{
    put_list(bytes, &part.areas, put_area)?;
    put_list(bytes, &part.ports, put_port)
}

/// Puts a partition.
#[tactic(auto, using(crate::proofs::PutsLemmas::put_then), unfolding(crate::specs::Xmc::part_record))]
fn put_part(bytes: &mut Vec<u8>, part: &Part) -> Result<(), Memory>
    requires areas { length part.now.areas ≤ 8 }
    requires ports { length part.now.ports ≤ 32 }
    ensures bytes { Puts result bytes.old.items bytes.new.items (xmc.part_record part.now) }
    ensures ranges { OnOk result (spelled.HasPartRanges part.now) }
{
    put_identity(bytes, part)?;
    put_monitor(bytes, &part.hm)?;
    put_belongings(bytes, part)
}

/// The byte of a channel's kind.
fn chan_byte(kind: ChanKind) -> u8
    ensures { result ≡ xmc.chan_byte kind }
{
    match kind {
        ChanKind::Sampling { .. } => 0,
        ChanKind::Queuing { .. } => 1,
    }
}

/// Puts what a channel's kind has beside it.
fn put_keeps(bytes: &mut Vec<u8>, kind: ChanKind) -> Result<(), Memory>
    ensures bytes { Puts result bytes.old.items bytes.new.items (xmc.keeps kind) }
    ensures ranges { OnOk result (spelled.IsSpelledKind kind) }
{
    match kind {
        ChanKind::Sampling { refresh } => put_word(bytes, refresh),
        ChanKind::Queuing { most } => put_byte(bytes, most),
    }
}

/// Puts an end of a channel.
#[tactic(auto, using(crate::proofs::PutsLemmas::put_then), unfolding(crate::specs::Xmc::end))]
fn put_end(bytes: &mut Vec<u8>, end: &End) -> Result<(), Memory>
    ensures bytes { Puts result bytes.old.items bytes.new.items (xmc.end end.now) }
    ensures ranges { OnOk result (spelled.IsSpelledEnd end.now) }
{
    put_byte(bytes, end.part)?;
    put_byte(bytes, end.port)
}

/// Puts a channel.
#[tactic(auto, using(crate::proofs::PutsLemmas::put_then), unfolding(crate::specs::Xmc::chan))]
fn put_chan(bytes: &mut Vec<u8>, chan: &Chan) -> Result<(), Memory>
    requires { length chan.now.dests ≤ most_dests }
    ensures bytes { Puts result bytes.old.items bytes.new.items (xmc.chan chan.now) }
    ensures ranges { OnOk result (spelled_lemmas.HasChanRanges chan.now) }
{
    put_byte(bytes, chan_byte(chan.kind))?;
    put_half_word(bytes, chan.length)?;
    put_keeps(bytes, chan.kind)?;
    put_end(bytes, &chan.source)?;
    put_list(bytes, &chan.dests, put_end)
}

/// Puts a link.
#[tactic(auto, using(crate::proofs::PutsLemmas::put_then), unfolding(crate::specs::Xmc::link_text))]
fn put_link(bytes: &mut Vec<u8>, link: &Link) -> Result<(), Memory>
    ensures bytes { Puts result bytes.old.items bytes.new.items (xmc.link_text link.now) }
    ensures ranges { OnOk result (spelled.IsSpelledLink link.now) }
{
    put_byte(bytes, link.number)?;
    put_byte(bytes, link.source)?;
    put_byte(bytes, link.dest)
}

/// Puts what stands after the length of the whole.
#[tactic(auto, using(crate::proofs::PutsLemmas::put_then, crate::proofs::FewLemmas::few), unfolding(crate::specs::Xmc::body))]
fn put_body(bytes: &mut Vec<u8>, raw: &RawConf) -> Result<(), Memory>
    requires counts { HasCounts raw.now }
    requires dests { All (λ chan. length chan.dests ≤ most_dests) raw.now.chans }
    ensures bytes { Puts result bytes.old.items bytes.new.items (xmc.body Two raw.now) }
    ensures ranges { OnOk result (spelled.HasConfRanges raw.now) }
{
    put_text(bytes, &raw.name)?;
    put_list(bytes, &raw.regions, put_region)?;
    put_word(bytes, raw.hv_size)?;
    put_list(bytes, &raw.uarts, put_text)?;
    put_list(bytes, &raw.plans, put_plan)?;
    put_list(bytes, &raw.parts, put_part)?;
    put_list(bytes, &raw.chans, put_chan)?;
    put_list(bytes, &raw.links, put_link)
}

/// The length of a file whose body has this many bytes. A body is far shorter than what a length can
/// state.
fn total(body: usize) -> Result<u32, Memory>
    ensures { IfOk result (λ total. total ≡ 10 + body) }
{
    match u32::try_from(body) {
        Ok(body) => match body.checked_add(10) {
            Some(total) => Ok(total),
            None => Err(Memory),
        },
        Err(_) => Err(Memory),
    }
}

/// Puts the first bytes of a file of this many bytes.
#[tactic(auto, using(crate::proofs::PutsLemmas::put_then), unfolding(crate::specs::Xmc::head))]
fn put_head(bytes: &mut Vec<u8>, total: u32) -> Result<(), Memory>
    ensures { Puts result bytes.old.items bytes.new.items (xmc.head Two total) }
{
    append(bytes, b"XMCF")?;
    put_half_word(bytes, Version::Two.number())?;
    put_word(bytes, total)
}

/// The file with this body.
fn framed(alloc: Global, body: &[u8]) -> Result<Vec<u8>, Memory>
    ensures { IfOk result (λ bytes. bytes.items ≡ xmc.head Two (10 + length body.now) ++ body.now) }
{
    let total = total(body.len())?;
    let mut bytes = Vec::new(alloc);
    put_head(&mut bytes, total)?;
    append(&mut bytes, body)?;
    Ok(bytes)
}

/// What stands after the length of the whole.
#[tactic(auto, using(crate::proofs::FewLemmas::fitting))]
fn body_of(alloc: Global, conf: &Conf) -> Result<Vec<u8>, Memory>
    ensures bytes { IfOk result (λ bytes. bytes.items ≡ xmc.body Two conf.now) }
    ensures ranges { OnOk result (spelled.HasConfRanges conf.now) }
    ensures fits { FitsVersion Two conf.now }
{
    let mut body = Vec::new(alloc);
    put_body(&mut body, conf.raw())?;
    Ok(body)
}

/// The one spelling of a configuration in version 2, of which the same configuration is read again.
/// `Memory` where there is none.
#[tactic(auto, using(crate::proofs::ReadLemmas::written_read), unfolding(crate::specs::Xmc::xmc))]
pub fn write_xmc(alloc: Global, conf: &Conf) -> Result<Vec<u8>, Memory>
    // The one spelling of a configuration in version 2, whose numbers are in the ranges of their fields, and which is
    // read as that configuration.
    ensures exact { IfOk result (λ bytes. bytes.items ≡ xmc.xmc Two conf.now) }
    ensures ranges { OnOk result (spelled.HasConfRanges conf.now) }
    ensures read { IfOk result (λ bytes. read_of bytes.items ≡ Ok conf.now) }
{
    proof! { spelled_is_read(); }
    let body = body_of(alloc, conf)?;
    framed(alloc, &body)
}
