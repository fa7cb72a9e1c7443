//! The images of the partitions.

ghost use Rattle.std.specs.Prelude.{◌≡◌, ◌<◌, ◌++◌, IfOk, OnOk};
ghost use Rattle.std.specs.Int.{to_be_bytes, w32};
ghost use Rattle.generated_system.specs.Generated.{image_bytes, first_word, generated_image, program_of};
ghost use Rattle.generated_system.specs.lemmas.Given.{all_given};

use crate::parts::{PARTS, area_start};
use std::alloc::Global;
use xef_images::{Segment, Xef};
use xm_base::{Memory, PartId};
use xm_container::Image;

/// SETHI of a register with the first addresses of partition 0's area.
const FIRST_WORD: u32 = 0x0310_0400;

/// What a partition that sends does after that: it makes its port, and sends a byte again and again. The names stand at the end.
const SENDING: [u32; 15] = [
    0x9210_6038,
    0x9410_2004,
    0x9610_2001,
    0x9810_2000,
    0x9010_2014,
    0x91d0_2070,
    0x9210_2000,
    0x9410_603c,
    0x9610_2001,
    0x9010_2015,
    0x91d0_2070,
    0x10bf_fffb,
    0x0100_0000,
    0x7100_0000,
    0x6d00_0000,
];

/// And one that receives: it makes its port, takes a byte, writes it to its console and waits for its next slot, again and again.
const RECEIVING: [u32; 21] = [
    0x9210_6050,
    0x9410_2004,
    0x9610_2001,
    0x9810_2001,
    0x9010_2014,
    0x91d0_2070,
    0x9210_2000,
    0x9410_6054,
    0x9610_2001,
    0x9010_2016,
    0x91d0_2070,
    0x9210_6054,
    0x9410_2001,
    0x9010_2020,
    0x91d0_2070,
    0x9010_2007,
    0x91d0_2070,
    0x10bf_fff5,
    0x0100_0000,
    0x7100_0000,
    0x0000_0000,
];

/// The images of all partitions, each with the number of its own.
#[tactic(auto, using(crate::proofs::NumberedLemmas::numbered_more), unfolding(crate::specs::lemmas::Given::all_given, crate::specs::lemmas::Given::generated_given))]
pub(crate) fn images(alloc: Global) -> Result<Vec<Image>, Memory>
    ensures { IfOk result (λ images. images.items ≡ all_given) }
{
    let mut images = Vec::new(alloc);
    for id in 0..PARTS {
        let xef = image(alloc, id)?;
        images.push(Image { id, xef })?;
    }
    Ok(images)
}

// The image of a partition.
#[tactic(auto, using(crate::proofs::ImageLemmas::loads), unfolding(crate::specs::Generated::generated_image))]
fn image(alloc: Global, p: PartId) -> Result<Xef, Memory>
    requires { p < 16 }
    ensures { IfOk result (λ xef. xef ≡ generated_image p) }
{
    let address = area_start(p);
    let bytes = bytes(alloc, p)?;
    let segment = Segment {
        address,
        memory: bytes.len() as u32,
        bytes,
    };
    let Some(xef) = Xef::new(address, Vec::from_array(alloc, [segment])?) else {
        unreachable!();
    };
    Ok(xef)
}

// The bytes of a partition's image.
#[tactic(auto, unfolding(crate::specs::Generated::image_bytes))]
fn bytes(alloc: Global, p: PartId) -> Result<Vec<u8>, Memory>
    requires { p < 16 }
    ensures { IfOk result (λ bytes. bytes.items ≡ image_bytes p) }
{
    let mut bytes = Vec::new(alloc);
    push_word(&mut bytes, first_word(p))?;
    for word in program(p) {
        push_word(&mut bytes, *word)?;
    }
    Ok(bytes)
}

// One word more.
fn push_word(bytes: &mut Vec<u8>, word: u32) -> Result<(), Memory>
    ensures { OnOk result (bytes.new.items ≡ bytes.old.items ++ to_be_bytes w32 word) }
{
    bytes.extend_from_slice(&word.to_be_bytes())?;
    Ok(())
}

// The first word of a partition's image.
#[tactic(auto, unfolding(crate::specs::Generated::first_word))]
fn first_word(p: PartId) -> u32
    requires { p < 16 }
    ensures { result ≡ first_word p }
{
    FIRST_WORD + 4 * u32::from(p)
}

// The other words: those of a partition that sends, or of one that receives.
#[tactic(auto, unfolding(crate::specs::Generated::program_of, crate::specs::Generated::sending_code, crate::specs::Generated::receiving_code))]
fn program(p: PartId) -> &'static [u32]
    ensures { result.now ≡ program_of p }
{
    if p % 2 == 0 { &SENDING } else { &RECEIVING }
}
