//! The reading of a container.

ghost use Rattle.std.specs.Prelude.{◌≡◌, ◌≤◌, IfOk, Ok, codes, length};
ghost use Rattle.bin_config.specs.Reading.{read_as};
ghost use Rattle.bin_config.specs.declared.version.Version.{Version as AVersion};
ghost use Rattle.xef_images.specs.Reading.{xef};
ghost use Rattle.xm_base.specs.Cursor.{left};
ghost use Rattle.loaded_system.specs.System.{System as Meaning};
ghost use Rattle.file_headers.specs.Gives.{Gives, IsRead};
ghost use Rattle.file_headers.specs.lemmas.GivesTerms.{GivesAt, IsReadAt};
ghost use Rattle.file_headers.specs.Heads.{ReportsDigests, stated_version, unsealed};
ghost use Rattle.xm_conf.specs.Limits.{most_parts};
ghost use Rattle.xm_container.specs.Box.{IsSpelledContainer};
ghost use Rattle.xm_container.specs.lemmas.EntriesTerms.{AreEntries};
ghost use Rattle.xm_container.specs.Gives.{Fails};
ghost use Rattle.xm_container.specs.Reading.{as_config, as_image, assigned, conf_at, config_fault, image_entries_at, image_entry_at, container_fields, id_at, image_at, image_fault, length_at, system_in, image_table_at, unpacked, version_in, box_faults};

use crate::entries::Entries;
use crate::image::Image;
use crate::law::{packed_is_unpacked, unpacked_is_packed};
use crate::numbers::{extra, missing};
use bin_config::{Version, XmcFault, read_version};
use fault_messages::BoxFault;
use file_headers::{stated_version, unsealed};
use loaded_system::System;
use std::alloc::Global;
use xef_images::{Xef, XefFault, read_xef};
use xm_base::{Cursor, proof};
use xm_conf::Conf;

/// The bytes of name, version and length.
const LEAD: usize = 10;

/// The number of the latest version.
const LATEST: u16 = 2;

/// The bytes before the digest, where it is theirs.
fn unsealed_box(bytes: &[u8]) -> Result<&[u8], BoxFault>
    ensures { IsRead (λ front. front.now) result (unsealed box_faults (codes "XMPK") 2 bytes.now) }
{
    Ok(unsealed(bytes, *b"XMPK", LATEST)?)
}

/// The fault of a configuration as that of its container.
fn config_fault(fault: XmcFault) -> BoxFault
    ensures { result ≡ config_fault fault }
{
    match fault {
        XmcFault::Magic => BoxFault::Config(XmcFault::Magic),
        XmcFault::Version { found } => BoxFault::Config(XmcFault::Version { found }),
        XmcFault::Short { at } => BoxFault::Config(XmcFault::Short { at }),
        XmcFault::Trailing { at } => BoxFault::Config(XmcFault::Trailing { at }),
        XmcFault::Field { at } => BoxFault::Config(XmcFault::Field { at }),
        XmcFault::NotFit { rule } => BoxFault::Config(XmcFault::NotFit { rule }),
        XmcFault::Memory => BoxFault::Memory,
    }
}

/// The configuration that these bytes are in the container's version.
#[tactic(auto, using(crate::proofs::FaultLemmas::config_fails))]
fn config(alloc: Global, version: Version, bytes: &[u8]) -> Result<Conf, BoxFault>
    ensures { Gives Fails (λ conf. conf) result (as_config (read_as version bytes.now)) }
{
    match read_version(alloc, version, bytes) {
        Ok(conf) => Ok(conf),
        Err(fault) => Err(config_fault(fault)),
    }
}

/// The fault of an image as that of its container.
fn image_fault(id: u8, fault: XefFault) -> BoxFault
    ensures { result ≡ image_fault id fault }
{
    match fault {
        XefFault::Magic => BoxFault::Image {
            id,
            fault: XefFault::Magic,
        },
        XefFault::Version { found } => BoxFault::Image {
            id,
            fault: XefFault::Version { found },
        },
        XefFault::Short { at } => BoxFault::Image {
            id,
            fault: XefFault::Short { at },
        },
        XefFault::Trailing { at } => BoxFault::Image {
            id,
            fault: XefFault::Trailing { at },
        },
        XefFault::Digest { stored, found } => BoxFault::Image {
            id,
            fault: XefFault::Digest { stored, found },
        },
        XefFault::Field { at } => BoxFault::Image {
            id,
            fault: XefFault::Field { at },
        },
        XefFault::Memory => BoxFault::Memory,
    }
}

/// The image that these bytes are.
#[tactic(auto, using(crate::proofs::FaultLemmas::image_fails))]
fn xef_of(alloc: Global, id: u8, bytes: &[u8]) -> Result<Xef, BoxFault>
    ensures { Gives Fails (λ image. image) result (as_image id (xef bytes.now)) }
{
    match read_xef(alloc, bytes) {
        Ok(image) => Ok(image),
        Err(fault) => Err(image_fault(id, fault)),
    }
}

/// The length of the configuration, after the bytes of name, version and length.
#[tactic(auto, unfolding(crate::specs::Reading::length_at))]
fn conf_length(cursor: &mut Cursor<'_>) -> Result<u32, BoxFault>
    requires { cursor.old.at ≡ 0 }
    ensures { IsReadAt (λ length. length) result cursor.new (length_at cursor.old) }
{
    match cursor.take(LEAD) {
        Ok(_) => Ok(cursor.u32()?),
        Err(_) => Err(BoxFault::Short { at: LEAD }),
    }
}

/// The configuration, which is of the container's version.
#[tactic(auto, unfolding(crate::specs::Reading::conf_at))]
fn conf(alloc: Global, version: Version, cursor: &mut Cursor<'_>) -> Result<Conf, BoxFault>
    requires { cursor.old.at ≡ 0 }
    ensures { GivesAt Fails (λ conf. conf) result cursor.new (conf_at version cursor.old) }
{
    let count = conf_length(cursor)?;
    let bytes = cursor.take(count as usize)?;
    config(alloc, version, bytes)
}

/// The number of an image's partition, which is not below the floor.
#[tactic(auto, unfolding(crate::specs::Reading::id_at))]
fn id(cursor: &mut Cursor<'_>, floor: u16) -> Result<u8, BoxFault>
    ensures { IsReadAt (λ id. id) result cursor.new (id_at floor cursor.old) }
{
    let at = cursor.at();
    let id = cursor.u8()?;
    if u16::from(id) < floor {
        return Err(BoxFault::Field { at });
    }
    Ok(id)
}

/// An image, by its length and its bytes.
#[tactic(auto, unfolding(crate::specs::Reading::image_at))]
fn image(alloc: Global, cursor: &mut Cursor<'_>, id: u8) -> Result<Xef, BoxFault>
    ensures { GivesAt Fails (λ image. image) result cursor.new (image_at id cursor.old) }
{
    let count = cursor.u32()?;
    let bytes = cursor.take(count as usize)?;
    xef_of(alloc, id, bytes)
}

/// An image with the number of its partition.
#[tactic(auto, unfolding(crate::specs::Reading::image_entry_at))]
fn entry(alloc: Global, cursor: &mut Cursor<'_>, floor: u16) -> Result<Image, BoxFault>
    ensures { GivesAt Fails (λ entry. entry) result cursor.new (image_entry_at floor cursor.old) }
{
    let id = id(cursor, floor)?;
    let xef = image(alloc, cursor, id)?;
    Ok(Image { id, xef })
}

/// This many images, each with a number above that of the one before it.
fn entries(alloc: Global, cursor: &mut Cursor<'_>, count: u8) -> Result<Entries, BoxFault>
    ensures exact { GivesAt Fails (λ entries. entries) result cursor.new (image_entries_at count 0 cursor.old) }
    ensures entries { IfOk result AreEntries }
{
    let mut ids = Vec::new(alloc);
    let mut images = Vec::new(alloc);
    let mut floor = 0;
    for _ in 0..count {
        let Image { id, xef } = entry(alloc, cursor, floor)?;
        floor = u16::from(id) + 1;
        ids.push(id)?;
        images.push(xef)?;
    }
    Ok(Entries { ids, images })
}

/// The images after their number.
#[tactic(auto, unfolding(crate::specs::Reading::image_table_at))]
fn table(alloc: Global, cursor: &mut Cursor<'_>) -> Result<Entries, BoxFault>
    ensures exact { GivesAt Fails (λ entries. entries) result cursor.new (image_table_at cursor.old) }
    ensures entries { IfOk result AreEntries }
{
    let count = cursor.u8()?;
    entries(alloc, cursor, count)
}

/// The configuration and the images of the bytes before the digest.
#[tactic(auto, unfolding(crate::specs::Reading::container_fields))]
fn fields(alloc: Global, version: Version, bytes: &[u8]) -> Result<(Conf, Entries), BoxFault>
    ensures exact { Gives Fails (λ fields. (fields.0, fields.1)) result (container_fields version bytes.now) }
    ensures entries { IfOk result (λ fields. AreEntries fields.1) }
{
    let mut cursor = Cursor::new(bytes);
    let conf = conf(alloc, version, &mut cursor)?;
    let entries = table(alloc, &mut cursor)?;
    if cursor.left() > 0 {
        return Err(BoxFault::Trailing { at: cursor.at() });
    }
    Ok((conf, entries))
}

/// The system of a configuration and images.
#[tactic(auto, unfolding(crate::specs::Reading::assigned))]
fn assigned(conf: Conf, entries: Entries) -> Result<System, BoxFault>
    requires { AreEntries entries }
    ensures { IsRead (λ system. system) result (assigned conf entries) }
{
    let Entries { ids, images } = entries;
    let count = count_of(&conf);
    if let Some(id) = extra(count, &ids) {
        return Err(BoxFault::Extra { id });
    }
    if let Some(id) = missing(count, &ids) {
        return Err(BoxFault::Missing { id });
    }
    match System::new(conf, images) {
        Ok(system) => Ok(system),
        Err(outside) => Err(BoxFault::Outside {
            id: outside.id,
            address: outside.address,
        }),
    }
}

/// How many partitions a configuration has.
fn count_of(conf: &Conf) -> usize
    ensures value { result ≡ length conf.now.parts }
    ensures few { result ≤ most_parts }
{
    usize::from(conf.part_count())
}

/// The number of the version of the bytes before the digest.
fn found_version(bytes: &[u8]) -> Result<u16, BoxFault>
    ensures { IsRead (λ found. found) result (stated_version box_faults (codes "XMPK") 2 bytes.now) }
{
    Ok(stated_version(bytes, *b"XMPK", LATEST)?)
}

/// The version of the bytes before the digest.
#[tactic(auto, unfolding(crate::specs::Reading::version_in))]
fn version_in(bytes: &[u8]) -> Result<Version, BoxFault>
    ensures { IsRead (λ version. version) result (version_in bytes.now) }
{
    let found = found_version(bytes)?;
    match Version::numbered(found) {
        Some(version) => Ok(version),
        None => Err(BoxFault::Version { found }),
    }
}

/// The system of the bytes before the digest.
#[tactic(auto, unfolding(crate::specs::Reading::system_in))]
fn system(alloc: Global, bytes: &[u8]) -> Result<System, BoxFault>
    ensures { Gives Fails (λ system. system) result (system_in bytes.now) }
{
    let version = version_in(bytes)?;
    let (conf, entries) = fields(alloc, version, bytes)?;
    assigned(conf, entries)
}

/// The system of a container.
#[tactic(auto, unfolding(crate::specs::Reading::unpacked))]
fn whole(alloc: Global, bytes: &[u8]) -> Result<System, BoxFault>
    ensures exact { Gives Fails (λ system. system) result (unpacked bytes.now) }
    ensures digest { ReportsDigests box_faults (codes "XMPK") 2 bytes.now result }
{
    let front = unsealed_box(bytes)?;
    system(alloc, front)
}

/// Reads a container: the system that it spells, or its first fault.
pub fn unpack(alloc: Global, bytes: &[u8]) -> Result<System, BoxFault>
    // What is unpacked is the system whose container the bytes are, in one of the versions.
    ensures found { IfOk result (λ system. (v : AVersion) × IsSpelledContainer v bytes.now system) }
    // The system whose container the bytes are is unpacked, unless out of memory.
    ensures only { (v : AVersion) (system : Meaning) → IsSpelledContainer v bytes.now system → Gives Fails (λ found. found) result (Ok system) }
    // A fault is the first one.
    ensures exact { Gives Fails (λ found. found) result (unpacked bytes.now) }
    // Two digests are reported exactly where they differ.
    ensures digest { ReportsDigests box_faults (codes "XMPK") 2 bytes.now result }
{
    proof! {
        packed_is_unpacked();
        unpacked_is_packed();
    }
    whole(alloc, bytes)
}
