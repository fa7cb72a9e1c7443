//! The head of a file, and its digest.

ghost use Rattle.std.specs.Prelude.{◌≡◌, ◌+◌, ◌-◌, ◌≤◌, IfOk, drop, length};
ghost use Rattle.file_headers.specs.Gives.{IsRead};
ghost use Rattle.file_headers.specs.lemmas.GivesTerms.{IsReadAt};
ghost use Rattle.file_headers.specs.Heads.{before_digest, count_before, magic_at, stated_length, stated_version, unsealed, version_at};
ghost use Rattle.file_headers.specs.Known.{head_faults};

use fault_messages::HeadFault;
use md5::{DIGEST_LEN, Digest, Md5};
use xm_base::Cursor;

/// The bytes before the digest of a file, where it is theirs: the file begins with this name and one of the versions up to the latest, and is as long as its head says.
#[tactic(auto, unfolding(crate::specs::Heads::unsealed))]
pub fn unsealed<'a>(bytes: &'a [u8], name: [u8; 4], latest: u16) -> Result<&'a [u8], HeadFault>
    // The bytes before the digest of a file, exactly where it begins with this name and a version up to the latest, is
    // as long as its head says, and has the MD5 of these bytes at its end; else its first fault.
    ensures value { IsRead (λ front. front.now) result (unsealed head_faults name latest bytes.now) }
{
    let count = before_digest(bytes, name, latest)?;
    let (front, stored) = bytes.split_at(count);
    let Ok(stored) = <[u8; DIGEST_LEN]>::try_from(stored) else {
        unreachable!();
    };
    let found = Md5::digest(front);
    if stored != found {
        return Err(HeadFault::Digest { stored, found });
    }
    Ok(front)
}

// How many bytes stand before the digest.
#[tactic(auto, unfolding(crate::specs::Heads::before_digest))]
fn before_digest(bytes: &[u8], name: [u8; 4], latest: u16) -> Result<usize, HeadFault>
    ensures value { IsRead (λ count. count) result (before_digest head_faults name latest bytes.now) }
    ensures within { IfOk result (λ count. count + 16 ≡ length bytes.now) }
{
    let stated = stated_length(bytes, name, latest)?;
    count_before(bytes.len(), stated as usize)
}

// How many bytes stand before the digest, in a file of this many bytes whose head says this many.
#[tactic(auto, unfolding(crate::specs::Heads::count_before))]
fn count_before(size: usize, stated: usize) -> Result<usize, HeadFault>
    ensures value { result ≡ count_before head_faults size stated }
    ensures within { IfOk result (λ count. count + 16 ≡ size) }
{
    if size < stated {
        return Err(HeadFault::Short { at: size });
    }
    if stated < size {
        return Err(HeadFault::Trailing { at: stated });
    }
    if size < DIGEST_LEN {
        return Err(HeadFault::Short { at: size });
    }
    Ok(size - DIGEST_LEN)
}

// The length that the head says.
#[tactic(auto, unfolding(crate::specs::Heads::stated_length))]
fn stated_length(bytes: &[u8], name: [u8; 4], latest: u16) -> Result<u32, HeadFault>
    ensures { IsRead (λ size. size) result (stated_length head_faults name latest bytes.now) }
{
    let mut cursor = Cursor::new(bytes);
    magic(&mut cursor, name)?;
    version(&mut cursor, latest)?;
    Ok(cursor.u32()?)
}

/// The version that the head of a file says, after its name.
#[tactic(auto, unfolding(crate::specs::Heads::stated_version))]
pub fn stated_version(bytes: &[u8], name: [u8; 4], latest: u16) -> Result<u16, HeadFault>
    // The version that stands after the name, or the first fault.
    ensures value { IsRead (λ version. version) result (stated_version head_faults name latest bytes.now) }
{
    let mut cursor = Cursor::new(bytes);
    magic(&mut cursor, name)?;
    version(&mut cursor, latest)
}

// The name of the format.
#[tactic(auto, unfolding(crate::specs::Heads::magic_at))]
fn magic(cursor: &mut Cursor<'_>, name: [u8; 4]) -> Result<(), HeadFault>
    ensures { IsRead (λ _. cursor.new) result (magic_at head_faults.short head_faults.magic name cursor.old) }
{
    if cursor.take(4)? != name.as_slice() {
        return Err(HeadFault::Magic);
    }
    Ok(())
}

// The version.
#[tactic(auto, unfolding(crate::specs::Heads::version_at))]
fn version(cursor: &mut Cursor<'_>, latest: u16) -> Result<u16, HeadFault>
    ensures { IsReadAt (λ found. found) result cursor.new (version_at head_faults.short head_faults.version latest cursor.old) }
{
    let found = cursor.u16()?;
    if 1 <= found && found <= latest {
        Ok(found)
    } else {
        Err(HeadFault::Version { found })
    }
}

/// The digest at the end of a file.
pub fn stored_digest(bytes: &[u8]) -> &[u8]
    // Called with bytes that may end with a digest.
    requires { 16 ≤ length bytes.now }
    // The last 16 bytes of a file.
    ensures value { result.now ≡ drop (length bytes.now - 16) bytes.now }
    ensures size { length result.now ≡ 16 }
{
    &bytes[bytes.len() - DIGEST_LEN..]
}
