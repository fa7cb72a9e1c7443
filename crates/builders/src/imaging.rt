//! The image of a program, and what is printed of images and containers.

ghost use Rattle.std.specs.Prelude.{◌≡◌, IfErr, IfOk, length};
ghost use Rattle.fault_messages.specs.Texts.{elf_fault_text, xef_fault_text};
ghost use Rattle.fault_messages.specs.Texts.{box_fault_text};
ghost use Rattle.builders.specs.Imaging.{checked_text, container_lines_of, container_verdict_of, image_lines_of, xef_of};
ghost use Rattle.builders.specs.Makes.{IsRefusalText, Makes};

use crate::success::ok_line;
use crate::unmade::Unmade;
use crate::unmade_by;
use std::alloc::Global;
use xef_images::{ElfFault, XefFault, build_xef, describe, read_elf, read_xef};
use xm_container::{BoxFault, System, list_lines, unpack};

/// The image's file of a program.
#[tactic(auto, unfolding(crate::specs::Imaging::xef_of))]
pub(crate) fn make_xef(alloc: Global, program: &[u8]) -> Result<Vec<u8>, Unmade>
    ensures { Makes result (xef_of program.now) }
{
    match read_elf(alloc, program) {
        Ok(image) => build_xef(alloc, &image).map_err(|_| Unmade::Memory),
        Err(fault) => Err(no_program(alloc, fault)),
    }
}

/// The lines that describe the image of a file.
#[tactic(auto, unfolding(crate::specs::Imaging::image_lines_of))]
pub(crate) fn image_lines(alloc: Global, file: &[u8]) -> Result<Vec<u8>, Unmade>
    ensures { Makes result (image_lines_of file.now) }
{
    match read_xef(alloc, file) {
        Ok(image) => describe(alloc, file, &image).map_err(|_| Unmade::Memory),
        Err(fault) => Err(no_image(alloc, fault)),
    }
}

/// The lines that describe the container of a file.
#[tactic(auto, unfolding(crate::specs::Imaging::container_lines_of))]
pub(crate) fn container_lines(alloc: Global, file: &[u8]) -> Result<Vec<u8>, Unmade>
    ensures { Makes result (container_lines_of file.now) }
{
    match unpack(alloc, file) {
        Ok(system) => list_lines(alloc, file, &system).map_err(|_| Unmade::Memory),
        Err(fault) => Err(no_container(alloc, fault)),
    }
}

/// What is printed of the container of a file.
#[tactic(auto, unfolding(crate::specs::Imaging::container_verdict_of))]
pub(crate) fn container_verdict(alloc: Global, file: &[u8]) -> Result<Vec<u8>, Unmade>
    ensures { Makes result (container_verdict_of file.now) }
{
    match unpack(alloc, file) {
        Ok(system) => verdict(alloc, &system),
        Err(fault) => Err(no_container(alloc, fault)),
    }
}

// What is printed of a system that was unpacked.
fn verdict(alloc: Global, system: &System) -> Result<Vec<u8>, Unmade>
    ensures line { IfOk result (λ line. line.items ≡ checked_text (length system.now.conf.parts)) }
    ensures memory { IfErr result (λ why. why ≡ Unmade.Memory) }
{
    let line = ok_line(b"parts=", system.conf().raw().parts.len());
    Vec::from_slice(alloc, line.bytes()).map_err(|_| Unmade::Memory)
}

// What is said of a file that is no program.
fn no_program(alloc: Global, fault: ElfFault) -> Unmade
    ensures text { IsRefusalText result (elf_fault_text fault) }
    ensures memory { fault ≡ ElfFault.Memory → result ≡ Unmade.Memory }
{
    unmade_by!(alloc, fault, ElfFault::Memory)
}

/// What is said of a file that is no image.
pub fn no_image(alloc: Global, fault: XefFault) -> Unmade
    // The refusal has the text of the image's fault.
    ensures text { IsRefusalText result (xef_fault_text fault) }
    // Out of memory is the answer where that was the fault.
    ensures memory { fault ≡ XefFault.Memory → result ≡ Unmade.Memory }
{
    unmade_by!(alloc, fault, XefFault::Memory)
}

/// What is said of a file that is no container.
pub fn no_container(alloc: Global, fault: BoxFault) -> Unmade
    // The refusal has the text of the container's fault.
    ensures text { IsRefusalText result (box_fault_text fault) }
    // Out of memory is the answer where that was the fault.
    ensures memory { fault ≡ BoxFault.Memory → result ≡ Unmade.Memory }
{
    unmade_by!(alloc, fault, BoxFault::Memory)
}
