//! A file of the system that is replaced whole, or stays as it was.

use crate::part_name::PartName;
use std::alloc::Alloc;
use std::fs::{Metadata, OpenFile, OpenOptions, Permissions};
use std::io::{ErrorKind, Write};
use std::os::unix::fs::{MetadataExt, PermissionsExt};
use std::path::PathBuf;
use std::rt::Files;
use std::{fs, io};

/// How many links are followed, as by the system.
const LINKS: u32 = 40;

/// How many names are tried for the file that is written first.
const NAMES: u32 = 1000;

/// Makes the file, or replaces the whole of it, once all bytes are on its disk; through a link, the file that the link
/// names. What is there and is no regular file gets the bytes directly.
pub(crate) fn store<R: Files + Alloc>(rt: &R, name: &str, bytes: &[u8]) -> io::Result<()> {
    let found = match OpenOptions::new().write(true).open(rt, name) {
        Ok(mut file) => {
            let found = file.metadata()?;
            if !found.is_file() {
                return finish(&mut file, bytes);
            }
            Some(found)
        }
        Err(error) if error.kind() == ErrorKind::NotFound => None,
        Err(error) => return Err(error),
    };
    match fs::symlink_metadata(rt, name) {
        Ok(entry) if entry.is_symlink() => {
            let path = followed(rt, name)?;
            replace(rt, path.as_str(), found, bytes)
        }
        _ => replace(rt, name, found, bytes),
    }
}

/// Writes all of the bytes, and waits until they are on the disk.
pub(crate) fn finish<F: Write + OpenFile>(file: &mut F, bytes: &[u8]) -> io::Result<()> {
    file.write_all(bytes)?;
    synced(file)
}

/// Waits until what was written is on the disk, so that a fault which only the end of writing shows is reported. A pipe
/// or a device without a disk has no such wait, and answers `InvalidInput`.
fn synced<F: OpenFile>(file: &F) -> io::Result<()> {
    unless_invalid(file.sync_all())
}

/// Takes all bytes away that a file has. A pipe or a device has none that stay, and answers `InvalidInput`.
pub(crate) fn emptied<F: OpenFile>(file: &F) -> io::Result<()> {
    unless_invalid(file.set_len(0))
}

/// An answer, or success where a file has no such operation.
fn unless_invalid(answer: io::Result<()>) -> io::Result<()> {
    match answer {
        Err(error) if error.kind() == ErrorKind::InvalidInput => Ok(()),
        answer => answer,
    }
}

/// The path at the end of a chain of links. No file need be there.
fn followed<R: Files + Alloc>(rt: &R, name: &str) -> io::Result<PathBuf<R::A>> {
    let mut path = PathBuf::from_str(rt.alloc(), name)?;
    for _ in 0..LINKS {
        match fs::read_link(rt, path.as_path()) {
            Ok(text) => {
                path.pop();
                path.push(text.as_path())?;
            }
            Err(error) if matches!(error.kind(), ErrorKind::InvalidInput | ErrorKind::NotFound) => {
                return Ok(path);
            }
            Err(error) => return Err(error),
        }
    }
    Err(io::Error::from(ErrorKind::FilesystemLoop))
}

/// Writes a new file beside the path, and gives it the path at the end. After a fault it is removed.
fn replace<R: Files>(rt: &R, path: &str, found: Option<Metadata>, bytes: &[u8]) -> io::Result<()> {
    let (mut file, part) = begin(rt, path)?;
    let mut done = fill(rt, &mut file, &part, found, bytes);
    if done.is_ok() {
        done = fs::rename(rt, part.as_str(), path);
    }
    if done.is_err() {
        let _ = fs::remove_file(rt, part.as_str());
    }
    done
}

/// A new file in the path's folder, with its name: the first that is free.
fn begin<R: Files>(rt: &R, path: &str) -> io::Result<(R::File, PartName)> {
    for number in 0..NAMES {
        let part = PartName::new(path, number)?;
        let mut options = OpenOptions::new();
        options.write(true).create_new(true);
        match options.open(rt, part.as_str()) {
            Ok(file) => return Ok((file, part)),
            Err(error) if error.kind() == ErrorKind::AlreadyExists => {}
            Err(error) => return Err(error),
        }
    }
    Err(io::Error::from(ErrorKind::AlreadyExists))
}

/// Gives the new file the permissions of the file that was there, its owner where the system allows that, and the bytes.
fn fill<R: Files>(
    rt: &R,
    file: &mut R::File,
    part: &PartName,
    found: Option<Metadata>,
    bytes: &[u8],
) -> io::Result<()> {
    if let Some(found) = found {
        let _ = rt.chown(part.as_str(), Some(found.uid()), Some(found.gid()));
        file.set_permissions(Permissions::from_mode(found.mode() & 0o777))?;
    }
    finish(file, bytes)
}
