//! Which upsets a run of a system can have.

ghost use Rattle.std.specs.Prelude.{◌≡◌, ◌<◌, ◌≤◌, length};
ghost use Rattle.std.specs.Bool.{OnTrue};
ghost use Rattle.std.specs.List.{list_any};
ghost use Rattle.file_headers.specs.Gives.{IsRead};
ghost use Rattle.upset_files.specs.Fits.{has_address, is_bit_of, is_place_of, areas_of_part};
ghost use Rattle.upset_files.specs.Reading.{fitted, too_early};
ghost use Rattle.upset_files.specs.lemmas.LineTerms.{fields_of};

use crate::fault::UpsetCause;
use upset_model::UpsetLine;
use xm_conf::{Area, Conf};
use xm_report::Place;

/// The fields of a line as they are read.
#[derive(Clone, Copy, Debug)]
pub(crate) struct SpelledLine {
    pub tick: u64,
    pub part: u64,
    pub place: Place,
    pub bit: u64,
}

/// Whether an area has the address.
#[tactic(auto, unfolding(crate::specs::Fits::has_address))]
fn has_address(address: u32, area: &Area) -> bool
    ensures { result ≡ has_address address area.now }
{
    let end = u64::from(area.start) + u64::from(area.size);
    area.start <= address && u64::from(address) < end
}

/// Whether one of these areas has the address.
fn is_in_areas(areas: &[Area], address: u32) -> bool
    ensures { result ≡ list_any (has_address address) areas.now }
{
    areas.iter().any(|area| has_address(address, area))
}

/// Whether a partition with these areas has the place.
fn has_place(areas: &[Area], place: Place) -> bool
    ensures { result ≡ is_place_of areas.now place }
{
    match place {
        Place::Global(n) => 1 <= n && n < 8,
        Place::Windowed(n) => n < 128,
        Place::Pc
        | Place::Npc
        | Place::YRegister
        | Place::Conditions
        | Place::HardwareDeadline
        | Place::ExecutionDeadline
        | Place::TrapBase
        | Place::Mask
        | Place::Pending => true,
        Place::MemoryByte(address) => is_in_areas(areas, address),
    }
}

/// Whether the place has the bit, and may be struck there.
fn has_bit(place: Place, bit: u64) -> bool
    ensures value { result ≡ is_bit_of place bit }
    ensures below { OnTrue result (bit < 64) }
{
    match place {
        Place::Pc | Place::Npc => 2 <= bit && bit < 32,
        Place::TrapBase => 12 <= bit && bit < 32,
        Place::Conditions => bit < 4,
        Place::HardwareDeadline | Place::ExecutionDeadline => bit < 63,
        Place::MemoryByte(_) => bit < 8,
        Place::Global(_) | Place::Windowed(_) | Place::YRegister | Place::Mask | Place::Pending =>
            bit < 32,
    }
}

/// The areas of a partition.
#[tactic(auto, unfolding(crate::specs::Fits::areas_of_part))]
fn areas_of(conf: &Conf, part: u8) -> &[Area]
    requires { part < length conf.now.parts }
    ensures { result.now ≡ areas_of_part conf.now part }
{
    let part = &conf.raw().parts[usize::from(part)];
    &part.areas
}

/// Why the line of this number is too early.
fn too_early(number: usize) -> UpsetCause
    ensures { result ≡ too_early number }
{
    if number == 1 {
        UpsetCause::Unreached
    } else {
        UpsetCause::Unordered
    }
}

/// The line of this number, which may not be before the tick `before`, where it fits a run up to
/// this many ticks.
#[tactic(auto, unfolding(crate::specs::Reading::fitted))]
pub(crate) fn fitted(
    conf: &Conf,
    ticks: u64,
    number: usize,
    before: u64,
    line: SpelledLine,
) -> Result<UpsetLine, UpsetCause>
    ensures { IsRead (λ line. line) result (fitted conf.now ticks number before (fields_of line)) }
{
    if line.part >= u64::from(conf.part_count()) {
        return Err(UpsetCause::NoPartition);
    }
    let part = line.part as u8;
    if !has_place(areas_of(conf, part), line.place) {
        return Err(UpsetCause::NoPlace);
    }
    if !has_bit(line.place, line.bit) {
        return Err(UpsetCause::NoBit);
    }
    if line.tick < before {
        return Err(too_early(number));
    }
    if ticks <= line.tick {
        return Err(UpsetCause::Unreached);
    }
    Ok(UpsetLine {
        tick: line.tick,
        part,
        place: line.place,
        bit: line.bit as u8,
    })
}
