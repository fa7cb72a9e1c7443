//! The reading of an image's file.

ghost use Rattle.std.specs.Prelude.{◌≡◌, IfOk, codes};
ghost use Rattle.file_headers.specs.Gives.{Gives, IsRead};
ghost use Rattle.file_headers.specs.lemmas.GivesTerms.{GivesAt, IsReadAt};
ghost use Rattle.file_headers.specs.Heads.{ReportsDigests, unsealed};
ghost use Rattle.xef_images.specs.Image.{Image};
ghost use Rattle.xef_images.specs.Spelling.{IsSpelledImage};
ghost use Rattle.xef_images.specs.Gives.{Fails};
ghost use Rattle.xef_images.specs.Reading.{address_at, count_at, entry_point_at, image_fields, memory_at, row_at, rows_at, segment_at, segments_at, size_at, segment_table_at, xef, xef_faults};

use crate::row::Row;
use crate::segment::{ADDRESSES, Segment};
use crate::writing::{MAGIC, VERSION};
use crate::xef::{SEGMENTS, Xef, is_entry};
use fault_messages::XefFault;
use file_headers::unsealed;
use std::alloc::Global;
use xm_base::Cursor;

/// The bytes of name, version and length.
const LEAD: usize = 10;

/// The bytes before the digest, where it is theirs.
fn unsealed_xef(bytes: &[u8]) -> Result<&[u8], XefFault>
    ensures { IsRead (λ front. front.now) result (unsealed xef_faults (codes "XMEF") 1 bytes.now) }
{
    Ok(unsealed(bytes, MAGIC, VERSION)?)
}

/// An address that is not below the floor.
#[tactic(auto, unfolding(crate::specs::Reading::address_at))]
fn address(cursor: &mut Cursor<'_>, floor: u64) -> Result<u32, XefFault>
    ensures { IsReadAt (λ address. address) result cursor.new (address_at floor cursor.old) }
{
    let at = cursor.at();
    let address = cursor.u32()?;
    if u64::from(address) < floor {
        return Err(XefFault::Field { at });
    }
    Ok(address)
}

/// A size of memory that is not 0, and does not pass the end of the addresses.
#[tactic(auto, unfolding(crate::specs::Reading::memory_at))]
fn memory(cursor: &mut Cursor<'_>, address: u32) -> Result<u32, XefFault>
    ensures { IsReadAt (λ memory. memory) result cursor.new (memory_at address cursor.old) }
{
    let at = cursor.at();
    let memory = cursor.u32()?;
    if 1 <= memory && u64::from(address) + u64::from(memory) <= ADDRESSES {
        Ok(memory)
    } else {
        Err(XefFault::Field { at })
    }
}

/// A number of bytes that fit into the memory.
#[tactic(auto, unfolding(crate::specs::Reading::count_at))]
fn count(cursor: &mut Cursor<'_>, memory: u32) -> Result<u32, XefFault>
    ensures { IsReadAt (λ count. count) result cursor.new (count_at memory cursor.old) }
{
    let at = cursor.at();
    let count = cursor.u32()?;
    if memory < count {
        return Err(XefFault::Field { at });
    }
    Ok(count)
}

/// The row of a segment that begins at the floor or after it.
#[tactic(auto, unfolding(crate::specs::Reading::row_at))]
fn row(cursor: &mut Cursor<'_>, floor: u64) -> Result<Row, XefFault>
    ensures { IsReadAt (λ row. row) result cursor.new (row_at floor cursor.old) }
{
    let address = address(cursor, floor)?;
    let memory = memory(cursor, address)?;
    let count = count(cursor, memory)?;
    Ok(Row {
        address,
        memory,
        count,
    })
}

/// This many rows, each after the end of the one before it.
fn rows(alloc: Global, cursor: &mut Cursor<'_>, count: u8) -> Result<Vec<Row>, XefFault>
    ensures { GivesAt Fails (λ rows. rows.items) result cursor.new (rows_at count 0 cursor.old) }
{
    let mut rows = Vec::new(alloc);
    let mut floor = 0;
    for _ in 0..count {
        let row = row(cursor, floor)?;
        floor = row.end();
        rows.push(row)?;
    }
    Ok(rows)
}

/// The segment of a row, with its bytes.
#[tactic(auto, unfolding(crate::specs::Reading::segment_at))]
fn segment(alloc: Global, cursor: &mut Cursor<'_>, row: Row) -> Result<Segment, XefFault>
    ensures { GivesAt Fails (λ segment. segment) result cursor.new (segment_at row cursor.old) }
{
    let bytes = cursor.take(row.count as usize)?;
    Ok(Segment {
        address: row.address,
        memory: row.memory,
        bytes: Vec::from_slice(alloc, bytes)?,
    })
}

/// The segments of the rows, with their bytes one after the other.
fn segments(alloc: Global, cursor: &mut Cursor<'_>, rows: &[Row]) -> Result<Vec<Segment>, XefFault>
    ensures { GivesAt Fails (λ segments. segments.items) result cursor.new (segments_at rows.now cursor.old) }
{
    let mut segments = Vec::new(alloc);
    for row in rows {
        let segment = segment(alloc, cursor, *row)?;
        segments.push(segment)?;
    }
    Ok(segments)
}

/// A number of segments.
#[tactic(auto, unfolding(crate::specs::Reading::size_at))]
fn size(cursor: &mut Cursor<'_>) -> Result<u8, XefFault>
    ensures { IsReadAt (λ count. count) result cursor.new (size_at cursor.old) }
{
    let at = cursor.at();
    let count = cursor.u8()?;
    if 1 <= count && usize::from(count) <= SEGMENTS {
        Ok(count)
    } else {
        Err(XefFault::Field { at })
    }
}

/// The segments: their number, their rows and their bytes.
#[tactic(auto, unfolding(crate::specs::Reading::segment_table_at))]
fn table(alloc: Global, cursor: &mut Cursor<'_>) -> Result<Vec<Segment>, XefFault>
    ensures { GivesAt Fails (λ segments. segments.items) result cursor.new (segment_table_at cursor.old) }
{
    let count = size(cursor)?;
    let rows = rows(alloc, cursor, count)?;
    segments(alloc, cursor, &rows)
}

/// The entry, after the bytes of name, version and length.
#[tactic(auto, unfolding(crate::specs::Reading::entry_point_at))]
fn entry(cursor: &mut Cursor<'_>) -> Result<u32, XefFault>
    requires { cursor.old.at ≡ 0 }
    ensures { IsReadAt (λ entry. entry) result cursor.new (entry_point_at cursor.old) }
{
    match cursor.take(LEAD) {
        Ok(_) => Ok(cursor.u32()?),
        Err(_) => Err(XefFault::Short { at: LEAD }),
    }
}

/// The entry and the segments of the bytes before the digest.
#[tactic(auto, unfolding(crate::specs::Reading::image_fields))]
fn image(alloc: Global, bytes: &[u8]) -> Result<(u32, Vec<Segment>), XefFault>
    ensures { Gives Fails (λ image. record { entry = image.0; segments = image.1.items }) result (image_fields bytes.now) }
{
    let mut cursor = Cursor::new(bytes);
    let entry = entry(&mut cursor)?;
    let segments = table(alloc, &mut cursor)?;
    if !is_entry(entry, &segments) {
        return Err(XefFault::Field { at: LEAD });
    }
    if cursor.left() > 0 {
        return Err(XefFault::Trailing { at: cursor.at() });
    }
    Ok((entry, segments))
}

/// The entry and the segments of a file.
#[tactic(auto, unfolding(crate::specs::Reading::xef))]
fn whole(alloc: Global, bytes: &[u8]) -> Result<(u32, Vec<Segment>), XefFault>
    ensures exact { Gives Fails (λ image. record { entry = image.0; segments = image.1.items }) result (xef bytes.now) }
    ensures digest { ReportsDigests xef_faults (codes "XMEF") 1 bytes.now result }
{
    let front = unsealed_xef(bytes)?;
    image(alloc, front)
}

/// Reads the file of an image: the image that it spells, or its first fault.
pub fn read_xef(alloc: Global, bytes: &[u8]) -> Result<Xef, XefFault>
    // What is read is the image that the bytes spell.
    ensures found { IfOk result (IsSpelledImage bytes.now) }
    // What is spelled is read, unless memory runs out.
    ensures only { (image : Image) → IsSpelledImage bytes.now image → Gives Fails (λ found. found) result (Ok image) }
    // A fault is the first one.
    ensures exact { Gives Fails (λ found. found) result (xef bytes.now) }
    // Two digests are reported exactly where they differ.
    ensures digest { ReportsDigests xef_faults (codes "XMEF") 1 bytes.now result }
{
    let (entry, segments) = whole(alloc, bytes)?;
    Ok(Xef { entry, segments })
}
