//! A configuration and the images of its partitions are packed into a container.

ghost use Rattle.std.specs.Prelude.{◌≡◌, ◌∷◌, IfOk, drop, map};
ghost use Rattle.xef_images.specs.Reading.{xef};
ghost use Rattle.xef_images.specs.Spelling.{xef_text};
ghost use Rattle.xm_container.specs.Pack.{AreFilesOf, packed};
ghost use Rattle.fault_messages.specs.Texts.{pack_fault_text};
ghost use Rattle.builders.specs.Makes.{IsRefusalText};
ghost use Rattle.file_commands.specs.Outcome.{content, first_long};
ghost use Rattle.file_commands.specs.Packing.{container_by, container_of, container_with, image_by, images_of, file_names};
ghost use Rattle.file_commands.specs.lemmas.PackingTerms.{limited};
ghost use Rattle.file_commands.specs.lemmas.EndingValuesTerms.{MakesOr};
ghost use Rattle.file_commands.specs.EndingValues.{vector_bytes, ending_of};
ghost use Rattle.file_commands.specs.Work.{IsDone, outside};
ghost use Rattle.command_line.specs.Seen.{seen_file, seen_files};
ghost use Rattle.command_line.specs.Words.{Pack};

use crate::delivery::{unmade, write_container};
use crate::ending::{Ending, Refusal};
use crate::reading::{first_long, read_files, split_contents};
use bin_config::read_xmc;
use builders::{Unmade, no_configuration, no_image, unmade_by};
use command_line::{PartFile, PartFiles};
use std::alloc::Global;
use xef_images::{Xef, read_xef};
use xm_conf::Conf;
use xm_container::{Image, PackFault, pack_with_files};
use xm_outside::{Sink, Store};

/// Reads a configuration and the images of its partitions, and writes their container.
pub fn pack_files<'a, S: Store, O: Sink>(
    alloc: Global,
    configuration: &'a str,
    output: &'a str,
    images: PartFiles<'a>,
    files: &mut S,
    out: &mut O,
) -> Ending<'a>
    // The container of a configuration and its images is written and reported: each file is read, or the first refusal
    // ends the call.
    ensures { IsDone (ending_of result) (Pack configuration.now output.now (seen_files images.entry))
        (outside (S.files files.old) (S.read_faults files.old) (S.write_faults files.old) (S.calls files.old)
        (O.got out.old) (O.faults out.old))
        (outside (S.files files.new) (S.read_faults files.new) (S.write_faults files.new) (S.calls files.new)
        (O.got out.new) (O.faults out.new)) }
{
    match read_files(alloc, configuration, images, None, None, files) {
        Ok(contents) => {
            let container = container(alloc, configuration, images, &contents);
            write_container(output, container, files, out)
        }
        Err(ending) => ending,
    }
}

// The container of files with these contents, or the first refusal.
fn container<'a>(
    alloc: Global,
    configuration: &'a str,
    images: PartFiles<'a>,
    contents: &[Vec<u8>],
) -> Result<Vec<u8>, Ending<'a>>
    ensures value { MakesOr vector_bytes result
        (limited (first_long (configuration.now ∷ file_names (seen_files images.entry)) (map vector_bytes contents.now))
        (container_of configuration.now (content 0 (map vector_bytes contents.now)) (seen_files images.entry) (drop 1 (map vector_bytes contents.now)))) }
{
    match first_long(configuration, images, None, None, contents) {
        Some(file) => Err(Ending::Refused {
            file,
            why: Refusal::TooLong,
        }),
        None => {
            let (bytes, others) = split_contents(contents);
            make_container(alloc, configuration, bytes, images, others)
        }
    }
}

// The container of a configuration and images, none of whose files is too long.
#[tactic(auto, unfolding(crate::specs::Packing::container_of))]
fn make_container<'a>(
    alloc: Global,
    configuration: &'a str,
    bytes: &[u8],
    images: PartFiles<'a>,
    contents: &[Vec<u8>],
) -> Result<Vec<u8>, Ending<'a>>
    ensures value { MakesOr vector_bytes result (container_of configuration.now bytes.now (seen_files images.entry) (map vector_bytes contents.now)) }
{
    match read_xmc(alloc, bytes) {
        Ok(conf) => container_with(alloc, configuration, &conf, images, contents),
        Err(fault) => Err(unmade(configuration, no_configuration(alloc, fault))),
    }
}

// The container of a configuration that was read and of images.
fn container_with<'a>(
    alloc: Global,
    configuration: &'a str,
    conf: &Conf,
    images: PartFiles<'a>,
    contents: &[Vec<u8>],
) -> Result<Vec<u8>, Ending<'a>>
    ensures value { MakesOr vector_bytes result (container_with configuration.now conf.now (images_of (seen_files images.entry) (map vector_bytes contents.now))) }
{
    match read_images(alloc, images, contents) {
        Ok(images) => container_by(alloc, configuration, conf, &images, contents),
        Err(ending) => Err(ending),
    }
}

// The container of a configuration and of images that were read, by the bytes of their files, whose digests were seen to
// be right when they were read.
fn container_by<'a>(
    alloc: Global,
    configuration: &'a str,
    conf: &Conf,
    images: &[Image],
    contents: &[Vec<u8>],
) -> Result<Vec<u8>, Ending<'a>>
    requires { AreFilesOf (map vector_bytes contents.now) images.now }
    ensures value { MakesOr vector_bytes result (container_by configuration.now (packed conf.now images.now)) }
{
    match pack_with_files(alloc, conf, images, contents) {
        Ok(bytes) => Ok(bytes),
        Err(fault) => Err(unmade(configuration, no_packing(alloc, fault))),
    }
}

// The images of partitions, in the order of their files.
fn read_images<'a>(
    alloc: Global,
    images: PartFiles<'a>,
    contents: &[Vec<u8>],
) -> Result<Vec<Image>, Ending<'a>>
    ensures value { MakesOr (λ images. images.items) result (images_of (seen_files images.entry) (map vector_bytes contents.now)) }
    ensures files { IfOk result (λ images. AreFilesOf (map vector_bytes contents.now) images.items) }
{
    let mut read = Vec::new(alloc);
    let mut rest = images;
    for bytes in contents {
        let Some((first, others)) = rest.split_first() else {
            return Ok(read);
        };
        let xef = match read_image(alloc, first, bytes) {
            Ok(xef) => xef,
            Err(ending) => return Err(ending),
        };
        let image = Image {
            id: first.part,
            xef,
        };
        if read.push(image).is_err() {
            return Err(Ending::NoMemory);
        }
        rest = others;
    }
    Ok(read)
}

// The image of a partition, by the bytes of its file.
fn read_image<'a>(alloc: Global, named: PartFile<'a>, bytes: &[u8]) -> Result<Xef, Ending<'a>>
    ensures value { MakesOr (λ image. image) result (image_by (seen_file named.entry).file (xef bytes.now)) }
    ensures text { IfOk result (λ image. bytes.now ≡ xef_text image) }
{
    match read_xef(alloc, bytes) {
        Ok(xef) => Ok(xef),
        Err(fault) => Err(unmade(named.file, no_image(alloc, fault))),
    }
}

// What is said of a configuration and images that make no container.
fn no_packing(alloc: Global, fault: PackFault) -> Unmade
    ensures text { IsRefusalText result (pack_fault_text fault) }
    ensures memory { fault ≡ PackFault.Memory → result ≡ Unmade.Memory }
{
    unmade_by!(alloc, fault, PackFault::Memory)
}
