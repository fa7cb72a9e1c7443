//! The program file of a linker as an image.

ghost use Rattle.std.specs.Prelude.{◌≡◌, ◌+◌, ◌++◌, ◌^◌, ◌<◌, ◌≤◌, IfOk, OnErr, OnOk, drop, length, take};
ghost use Rattle.std.specs.Option.{option_to_list};
ghost use Rattle.xef_images.specs.Elf.{elf, header_count, is_class, is_magic, is_machine, load_at, loads, overlap, segment_from, sorted, verdict};
ghost use Rattle.xef_images.specs.ElfGives.{ElfGives};

use crate::header::{HEADER, Header, half, word};
use crate::segment::{ADDRESSES, Segment};
use crate::xef::{SEGMENTS, Xef, fits, is_entry};
use fault_messages::ElfFault;
use std::alloc::Global;
use xm_base::FILE_BYTES;

/// The bytes of the head of a file.
const HEAD: usize = 52;

/// How an ELF file begins.
const MAGIC: [u8; 4] = *b"\x7fELF";

/// Whether the file begins as ELF.
#[tactic(auto, unfolding(crate::specs::Elf::is_magic))]
fn is_magic(bytes: &[u8]) -> bool
    requires { 52 ≤ length bytes.now }
    ensures { result ≡ is_magic bytes.now }
{
    &bytes[..4] == MAGIC.as_slice()
}

/// Whether it is of 32 bits, big endian and of version 1.
#[tactic(auto, unfolding(crate::specs::Elf::is_class))]
fn is_class(bytes: &[u8]) -> bool
    requires { 52 ≤ length bytes.now }
    ensures { result ≡ is_class bytes.now }
{
    bytes[4] == 1 && bytes[5] == 2 && bytes[6] == 1
}

/// Whether it is an executable for SPARC, of version 1.
#[tactic(auto, unfolding(crate::specs::Elf::is_machine))]
fn is_machine(bytes: &[u8]) -> bool
    requires { 52 ≤ length bytes.now }
    ensures { result ≡ is_machine bytes.now }
{
    half(bytes, 16) == 2 && half(bytes, 18) == 2 && word(bytes, 20) == 1
}

/// How many program headers the file has.
#[tactic(auto, unfolding(crate::specs::Elf::header_count))]
fn header_count(bytes: &[u8]) -> Result<u16, ElfFault>
    ensures value { result ≡ header_count bytes.now }
    ensures long { IfOk result (λ _. 52 ≤ length bytes.now) }
{
    if bytes.len() < HEAD {
        return Err(ElfFault::Short { at: 0 });
    }
    if !is_magic(bytes) {
        return Err(ElfFault::Magic);
    }
    if !is_class(bytes) {
        return Err(ElfFault::Class);
    }
    if !is_machine(bytes) {
        return Err(ElfFault::Machine);
    }
    let count = half(bytes, 44);
    let found = half(bytes, 42);
    if 0 < count && usize::from(found) != HEADER {
        return Err(ElfFault::Headers { found });
    }
    Ok(count)
}

/// The segment of a header that is loaded, after this many others.
#[tactic(auto, unfolding(crate::specs::Elf::segment_from))]
fn segment(alloc: Global, bytes: &[u8], before: usize, header: Header) -> Result<Segment, ElfFault>
    ensures { ElfGives (λ segment. segment) result (segment_from bytes.now before header) }
{
    let Header {
        place: at,
        offset,
        address,
        count,
        memory,
        ..
    } = header;
    if memory < count {
        return Err(ElfFault::Size { at });
    }
    if ADDRESSES < u64::from(address) + u64::from(memory) || SEGMENTS <= before {
        return Err(ElfFault::Limit { at });
    }
    if header.is_cut(bytes) {
        return Err(ElfFault::Short {
            at: offset as usize,
        });
    }
    let contents = contents(bytes, offset as usize, count as usize);
    Ok(Segment {
        address,
        memory,
        bytes: Vec::from_slice(alloc, contents)?,
    })
}

/// This many bytes of the file from a place on.
fn contents(bytes: &[u8], place: usize, count: usize) -> &[u8]
    requires { 0 < count → place + count ≤ length bytes.now }
    ensures { result.now ≡ take count (drop place bytes.now) }
{
    if count == 0 {
        return &[];
    }
    &bytes[place..place + count]
}

/// What the header at a place loads after this many other segments.
#[tactic(auto, unfolding(crate::specs::Elf::load_at))]
fn load(
    alloc: Global,
    bytes: &[u8],
    before: usize,
    place: usize,
) -> Result<Option<Segment>, ElfFault>
    requires { place + 32 < 2 ^ 64 }
    ensures { ElfGives option_to_list result (load_at bytes.now before place) }
{
    if bytes.len() < place + HEADER {
        return Err(ElfFault::Short { at: place });
    }
    let header = Header::at(bytes, place);
    if !header.is_loaded() {
        return Ok(None);
    }
    let segment = segment(alloc, bytes, before, header)?;
    Ok(Some(segment))
}

/// Keeps what a header loads.
fn keep(segments: &mut Vec<Segment>, loaded: Option<Segment>) -> Result<(), ElfFault>
    ensures value { OnOk result (segments.new.items ≡ segments.old.items ++ option_to_list loaded) }
    ensures memory { OnErr result (result ≡ Err ElfFault.Memory) }
{
    match loaded {
        None => Ok(()),
        Some(segment) => Ok(segments.push(segment)?),
    }
}

/// What this many headers load, from a place on.
fn segments(alloc: Global, bytes: &[u8], place: u32, count: u16) -> Result<Vec<Segment>, ElfFault>
    ensures { ElfGives (λ segments. segments.items) result (loads bytes.now 0 place count) }
{
    let mut segments = Vec::new(alloc);
    let mut place = place as usize;
    for _ in 0..count {
        let loaded = load(alloc, bytes, segments.len(), place)?;
        keep(&mut segments, loaded)?;
        place += HEADER;
    }
    Ok(segments)
}

/// Sorts segments by address.
fn sort(segments: &mut Vec<Segment>) -> Result<(), ElfFault>
    ensures value { OnOk result (segments.new.items ≡ sorted segments.old.items) }
    ensures memory { OnErr result (result ≡ Err ElfFault.Memory) }
{
    segments.sort_by_key(|segment| segment.address)?;
    Ok(())
}

/// The address of the first segment that begins before the one before it ends.
fn overlap(segments: &[Segment]) -> Option<u32>
    ensures { result ≡ overlap 0 segments.now }
{
    let mut floor = 0;
    for segment in segments {
        if u64::from(segment.address) < floor {
            return Some(segment.address);
        }
        floor = segment.end();
    }
    None
}

/// What is wrong with an entry and all segments, sorted by address.
#[tactic(auto, unfolding(crate::specs::Elf::verdict))]
fn verdict(entry: u32, segments: &[Segment]) -> Result<(), ElfFault>
    ensures { result ≡ verdict entry segments.now }
{
    if segments.is_empty() {
        return Err(ElfFault::NoLoad);
    }
    if let Some(address) = overlap(segments) {
        return Err(ElfFault::Overlap { address });
    }
    if !is_entry(entry, segments) {
        return Err(ElfFault::Entry { found: entry });
    }
    if !fits(segments, FILE_BYTES) {
        return Err(ElfFault::Limit { at: 0 });
    }
    Ok(())
}

/// The entry and the segments of a program file.
#[tactic(auto, unfolding(crate::specs::Elf::elf))]
fn image(alloc: Global, bytes: &[u8]) -> Result<(u32, Vec<Segment>), ElfFault>
    ensures { ElfGives (λ image. record { entry = image.0; segments = image.1.items }) result (elf bytes.now) }
{
    let count = header_count(bytes)?;
    let mut segments = segments(alloc, bytes, word(bytes, 28), count)?;
    sort(&mut segments)?;
    let entry = word(bytes, 24);
    verdict(entry, &segments)?;
    Ok((entry, segments))
}

/// Reads a program file: an executable of ELF, of 32 bits, big endian, for SPARC. Gives the image
/// of its loaded headers, or its first fault.
pub fn read_elf(alloc: Global, bytes: &[u8]) -> Result<Xef, ElfFault>
    // The image of a linker's program file, or its first fault.
    ensures { ElfGives (λ image. image) result (elf bytes.now) }
{
    let (entry, segments) = image(alloc, bytes)?;
    Ok(Xef { entry, segments })
}
