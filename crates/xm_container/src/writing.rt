//! The writing of a container.

ghost use Rattle.std.specs.Prelude.{◌≡◌, ◌≤◌, ◌+◌, ◌++◌, ◌∷◌, ◌<◌, All, IfOk, IsNone, OnOk, None, Ok, Some, length, map, option_copied};
ghost use Rattle.bin_config.specs.Spelled.{HasConfRanges};
ghost use Rattle.xef_images.specs.Image.{IsImage};
ghost use Rattle.loaded_system.specs.Inside.{first_outside as first_outside_of};
ghost use Rattle.xm_container.specs.Box.{entries_text, image_entry_text, fields_text, front_text, sized_text};
ghost use Rattle.xm_container.specs.Numbers.{missing as missing_of};
ghost use Rattle.xm_container.specs.Pack.{AreFilesOf, Packs, partition_numbers, image_of, in_order, packed, sealed, system_of};
ghost use Rattle.xm_container.specs.Reading.{unpacked};
ghost use Rattle.xm_container.specs.lemmas.EntriesTerms.{IsFileOf};
ghost use Rattle.xm_conf.specs.Limits.{most_parts};
ghost use Rattle.bin_config.specs.declared.version.Version.TheVariants.{Two};

use crate::image::Image;
use crate::law::packed_is_unpacked;
use crate::numbers::{extra, missing};
use crate::put::put_sized;
use bin_config::{Version, write_xmc};
use fault_messages::PackFault;
use file_headers::{put_half, put_word};
use loaded_system::{Outside, outside_of, parts};
use md5::{Digest, Md5};
use std::alloc::Global;
use xef_images::{Xef, build_xef};
use xm_base::{FILE_BYTES, Memory, proof};
use xm_conf::{Conf, Part};

/// The bytes of a container before and after its fields.
const FRAME: usize = 26;

/// The numbers of images.
fn ids_of(alloc: Global, images: &[Image]) -> Result<Vec<u8>, Memory>
    ensures { IfOk result (λ ids. ids.items ≡ partition_numbers images.now) }
{
    let mut ids = Vec::new(alloc);
    for image in images {
        ids.push(image.id)?;
    }
    Ok(ids)
}

/// The image of a partition's number.
fn image_of(images: &[Image], id: usize) -> Option<&Xef>
    ensures { option_copied result ≡ image_of images.now id }
{
    for image in images {
        if usize::from(image.id) == id {
            return Some(&image.xef);
        }
    }
    None
}

/// The image of a partition's number, where no image is missing.
fn image_at(images: &[Image], id: usize, parts: usize) -> &Xef
    requires complete { missing_of parts (partition_numbers images.now) ≡ None }
    requires below { id < parts }
    ensures { image_of images.now id ≡ Some result.now }
{
    let Some(xef) = image_of(images, id) else {
        unreachable!();
    };
    xef
}

/// The first segment of the images that lies inside no area of its partition.
fn first_outside(parts: &[Part], images: &[Image]) -> Option<Outside>
    requires few { length parts.now ≤ most_parts }
    requires complete { missing_of (length parts.now) (partition_numbers images.now) ≡ None }
    ensures value { result ≡ first_outside_of parts.now (in_order images.now 0 (length parts.now)) }
    ensures images { IsNone result → All IsImage (in_order images.now 0 (length parts.now)) }
{
    for id in 0..parts.len() {
        let xef = image_at(images, id, parts.len());
        if let Some(address) = outside_of(&parts[id], xef) {
            return Some(Outside {
                id: id as u8,
                address,
            });
        }
    }
    None
}

/// Puts an image after the number of its partition: the bytes of its file, which is made where it is not given.
fn put_entry(
    alloc: Global,
    out: &mut Vec<u8>,
    id: u8,
    xef: &Xef,
    file: Option<&[u8]>,
) -> Result<(), Memory>
    requires { IsFileOf (Some xef.now) (option_copied file) }
    ensures { OnOk result (out.new.items ≡ out.old.items ++ image_entry_text id xef.now) }
{
    match file {
        Some(bytes) => put_numbered(out, id, bytes),
        None => {
            let bytes = build_xef(alloc, xef)?;
            put_numbered(out, id, &bytes)
        }
    }
}

/// Puts the file of an image after the number of its partition.
fn put_numbered(out: &mut Vec<u8>, id: u8, file: &[u8]) -> Result<(), Memory>
    ensures { OnOk result (out.new.items ≡ out.old.items ++ id ∷ sized_text file.now) }
{
    out.push(id)?;
    put_sized(out, file)
}

/// The file of a partition's image, where it is given.
fn file_of<'a>(images: &[Image], files: &'a [Vec<u8>], id: usize) -> Option<&'a [u8]>
    requires { AreFilesOf (map (λ file. file.items) files.now) images.now }
    ensures { IsFileOf (image_of images.now id) (option_copied result) }
{
    let mut rest = images;
    for file in files {
        let Some((image, later)) = rest.split_first() else {
            return None;
        };
        if usize::from(image.id) == id {
            return Some(file);
        }
        rest = later;
    }
    None
}

/// Puts the images of all partitions.
fn put_entries(
    alloc: Global,
    out: &mut Vec<u8>,
    parts: usize,
    images: &[Image],
    files: &[Vec<u8>],
) -> Result<(), Memory>
    requires few { parts ≤ most_parts }
    requires complete { missing_of parts (partition_numbers images.now) ≡ None }
    requires files { AreFilesOf (map (λ file. file.items) files.now) images.now }
    ensures { OnOk result (out.new.items ≡ out.old.items ++ entries_text 0 (in_order images.now 0 parts)) }
{
    for id in 0..parts {
        let file = file_of(images, files, id);
        put_entry(alloc, out, id as u8, image_at(images, id, parts), file)?;
    }
    Ok(())
}

/// The fields of a container.
fn fields(
    alloc: Global,
    conf: &Conf,
    parts: usize,
    images: &[Image],
    files: &[Vec<u8>],
) -> Result<Vec<u8>, Memory>
    requires parts { parts ≡ length conf.now.parts }
    requires few { parts ≤ most_parts }
    requires complete { missing_of parts (partition_numbers images.now) ≡ None }
    requires files { AreFilesOf (map (λ file. file.items) files.now) images.now }
    ensures value { IfOk result (λ fields. fields.items ≡ fields_text Two (system_of conf.now images.now)) }
    ensures ranges { OnOk result (HasConfRanges conf.now) }
{
    let xmc = write_xmc(alloc, conf)?;
    let mut fields = Vec::new(alloc);
    put_sized(&mut fields, &xmc)?;
    fields.push(parts as u8)?;
    put_entries(alloc, &mut fields, parts, images, files)?;
    Ok(fields)
}

/// What stands before the digest.
#[tactic(auto, unfolding(crate::specs::Box::front_text))]
fn front(alloc: Global, total: u32, fields: &[u8]) -> Result<Vec<u8>, Memory>
    requires { total ≡ 26 + length fields.now }
    ensures { IfOk result (λ front. front.items ≡ front_text Two fields.now) }
{
    let mut front = Vec::new(alloc);
    front.extend_from_slice(b"XMPK")?;
    put_half(&mut front, Version::Two.number())?;
    put_word(&mut front, total)?;
    front.extend_from_slice(fields)?;
    Ok(front)
}

/// The container with these fields, where it is not too long.
#[tactic(auto, unfolding(crate::specs::Box::sealed_text, crate::specs::Pack::sealed))]
fn sealed(alloc: Global, fields: &[u8]) -> Result<Vec<u8>, PackFault>
    ensures { Packs result (sealed fields.now) }
{
    let total = FRAME + fields.len();
    if FILE_BYTES < total {
        return Err(PackFault::Long {
            length: total as u64,
        });
    }
    let mut bytes = front(alloc, total as u32, fields)?;
    let digest = Md5::digest(bytes.as_slice());
    bytes.extend_from_slice(&digest)?;
    Ok(bytes)
}

/// The container, of version 2, of a configuration and an image for each of its partitions, in any order. Refused in this order: an
/// image whose number is no partition's, the smallest; a partition without an image, the smallest; a segment that
/// lies inside no area of its partition, the first one of the smallest partition; more bytes than `FILE_BYTES`. Of two
/// images of one number the first one counts.
pub fn pack(alloc: Global, conf: &Conf, images: &[Image]) -> Result<Vec<u8>, PackFault>
    // The one spelling, in version 2, of a configuration and its images, which is read as that configuration with those
    // images; or the first refusal: Extra, Missing, Outside, Long.
    ensures exact { Packs result (packed conf.now images.now) }
    // What is written is read as that configuration with those images.
    ensures read { IfOk result (λ bytes. unpacked bytes.items ≡ Ok (system_of conf.now images.now)) }
{
    pack_with_files(alloc, conf, images, &[])
}

/// The same, where the files of the first images are given, each at the place of its image: what stands in them is put
/// as it is, and the files of the others are made.
#[tactic(auto, unfolding(crate::specs::Pack::packed))]
pub fn pack_with_files(
    alloc: Global,
    conf: &Conf,
    images: &[Image],
    files: &[Vec<u8>],
) -> Result<Vec<u8>, PackFault>
    // Called with files each of which is that of the image at its place.
    requires { AreFilesOf (map (λ file. file.items) files.now) images.now }
    // The one spelling, in version 2, of a configuration and its images, which is read as that configuration with those
    // images; or the first refusal: Extra, Missing, Outside, Long.
    ensures exact { Packs result (packed conf.now images.now) }
    // What is written is read as that configuration with those images.
    ensures read { IfOk result (λ bytes. unpacked bytes.items ≡ Ok (system_of conf.now images.now)) }
{
    proof! { packed_is_unpacked(); }
    let parts = parts(conf);
    let ids = ids_of(alloc, images)?;
    if let Some(id) = extra(parts.len(), &ids) {
        return Err(PackFault::Extra { id });
    }
    if let Some(id) = missing(parts.len(), &ids) {
        return Err(PackFault::Missing { id });
    }
    if let Some(outside) = first_outside(parts, images) {
        return Err(PackFault::Outside {
            id: outside.id,
            address: outside.address,
        });
    }
    let fields = fields(alloc, conf, parts.len(), images, files)?;
    sealed(alloc, &fields)
}
