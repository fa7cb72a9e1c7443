//! The lines that describe a container.

ghost use Rattle.std.specs.Prelude.{◌≡◌, ◌++◌, IfOk, OnOk, Ok, length};
ghost use Rattle.xef_images.specs.Spelling.{xef_text};
ghost use Rattle.xm_container.specs.Box.{entries_text};
ghost use Rattle.xm_container.specs.Reading.{unpacked};
ghost use Rattle.xm_container.specs.Texts.{box_lines, container_line, file_line, image_line, image_lines, system_line};

use crate::files::{entries_of, first_file};
use fault_messages::{put_address, put_digest, put_number};
use file_headers::stored_digest;
use loaded_system::System;
use std::alloc::Global;
use xef_images::Xef;
use xm_base::Memory;
use xm_conf::RawConf;

/// The lines that describe a container and the system that it is: its length and digest, its configuration, and each
/// image.
#[tactic(auto, unfolding(crate::specs::Texts::box_lines))]
pub fn list_lines(alloc: Global, bytes: &[u8], system: &System) -> Result<Vec<u8>, Memory>
    // Called with the system that the bytes unpack to.
    requires { unpacked bytes.now ≡ Ok system.now }
    // The lines that describe a container.
    ensures { IfOk result (λ lines. lines.items ≡ box_lines bytes.now system.now) }
{
    let mut lines = Vec::new(alloc);
    put_container(alloc, &mut lines, bytes.len(), stored_digest(bytes))?;
    let raw = system.conf().raw();
    put_system(alloc, &mut lines, raw.name.bytes(), counts_of(raw))?;
    put_images(alloc, &mut lines, entries_of(bytes), system)?;
    Ok(lines)
}

/// What a configuration has.
#[derive(Clone, Copy, Debug)]
struct Counts {
    parts: usize,
    plans: usize,
    channels: usize,
}

/// How many partitions, plans and channels a configuration has.
fn counts_of(raw: &RawConf) -> Counts
    ensures parts { result.parts ≡ length raw.now.parts }
    ensures plans { result.plans ≡ length raw.now.plans }
    ensures channels { result.channels ≡ length raw.now.chans }
{
    Counts {
        parts: raw.parts.len(),
        plans: raw.plans.len(),
        channels: raw.chans.len(),
    }
}

/// Writes the line of a container.
#[tactic(auto, unfolding(crate::specs::Texts::container_line))]
fn put_container(
    alloc: Global,
    lines: &mut Vec<u8>,
    total: usize,
    digest: &[u8],
) -> Result<(), Memory>
    requires { length digest.now ≡ 16 }
    ensures { OnOk result (lines.new.items ≡ lines.old.items ++ container_line total digest.now) }
{
    put_number(alloc, lines, b"container length=", total)?;
    put_digest(lines, b" md5=", digest)?;
    lines.extend_from_slice(b"\n")?;
    Ok(())
}

/// Writes the line of a configuration.
#[tactic(auto, unfolding(crate::specs::Texts::system_line))]
fn put_system(alloc: Global, lines: &mut Vec<u8>, name: &[u8], counts: Counts) -> Result<(), Memory>
    ensures { OnOk result (lines.new.items ≡ lines.old.items ++ system_line name.now counts.parts counts.plans counts.channels) }
{
    lines.extend_from_slice(b"system name=")?;
    lines.extend_from_slice(name)?;
    put_number(alloc, lines, b" parts=", counts.parts)?;
    put_number(alloc, lines, b" plans=", counts.plans)?;
    put_number(alloc, lines, b" channels=", counts.channels)?;
    lines.extend_from_slice(b"\n")?;
    Ok(())
}

/// Writes the lines of all images, whose files stand one after the other.
fn put_images(
    alloc: Global,
    lines: &mut Vec<u8>,
    entries: &[u8],
    system: &System,
) -> Result<(), Memory>
    requires { entries.now ≡ entries_text 0 system.now.images }
    ensures { OnOk result (lines.new.items ≡ lines.old.items ++ image_lines 0 system.now.images) }
{
    let mut rest = entries;
    for id in 0..parts(system) {
        let xef = system.image(id);
        let (file, later) = first_file(rest);
        put_image(alloc, lines, id, xef, file)?;
        rest = later;
    }
    Ok(())
}

/// How many partitions a system has.
fn parts(system: &System) -> u8
    ensures value { result ≡ length system.now.conf.parts }
    ensures images { result ≡ length system.now.images }
{
    system.conf().part_count()
}

/// Writes the line of an image, with the digest at the end of its file.
fn put_image(
    alloc: Global,
    lines: &mut Vec<u8>,
    id: u8,
    xef: &Xef,
    file: &[u8],
) -> Result<(), Memory>
    requires { file.now ≡ xef_text xef.now }
    ensures { OnOk result (lines.new.items ≡ lines.old.items ++ image_line id xef.now) }
{
    put_file(
        alloc,
        lines,
        id,
        file.len(),
        xef.entry(),
        stored_digest(file),
    )
}

/// Writes the line of an image's file.
#[tactic(auto, unfolding(crate::specs::Texts::file_line))]
fn put_file(
    alloc: Global,
    lines: &mut Vec<u8>,
    id: u8,
    total: usize,
    entry: u32,
    digest: &[u8],
) -> Result<(), Memory>
    requires { length digest.now ≡ 16 }
    ensures { OnOk result (lines.new.items ≡ lines.old.items ++ file_line id total entry digest.now) }
{
    put_number(alloc, lines, b"image id=", usize::from(id))?;
    put_number(alloc, lines, b" length=", total)?;
    put_address(lines, b" entry=", entry)?;
    put_digest(lines, b" md5=", digest)?;
    lines.extend_from_slice(b"\n")?;
    Ok(())
}
