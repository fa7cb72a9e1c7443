//! What no clause says: that memory suffices, and what the system does.

use crate::{
    Failed, FileStore, FileUart, MemSink, MemStore, MemUart, OutSink, Sink, Store, StoreFault,
    SureSink, SureUart, Uart, write_all,
};
use std::fs::{File, OpenOptions, Permissions};
use std::io::Write;
use std::os::unix::fs::{MetadataExt, PermissionsExt, symlink};
use std::test::Fail;
use std::{env, fs, io};

#[test]
fn memory_suffices(rt: HostRuntime) -> Result<(), Fail> {
    let mut store = MemStore::new(rt.alloc(), vec![in rt.alloc(); 2]?);
    assert_eq!(rt; store.put("a", b"01234"), Ok(()));
    let whole = store.read(rt.alloc(), "a", 4);
    assert!(rt; whole.is_ok_and(|bytes| bytes.as_slice() == b"01234".as_slice()));
    assert_eq!(rt; store.write("a", b"xyz"), Ok(()));
    assert_eq!(rt; store.write("a", b""), Err(Failed));
    assert_eq!(rt; store.get("a"), Some(b"xyz".as_slice()));
    assert_eq!(rt; store.starved(), 0);
    let mut sink = MemSink::new(rt.alloc(), vec![in rt.alloc(); 4]?, 3);
    assert_eq!(rt; write_all(&mut sink, b"1234567"), Ok(()));
    assert_eq!(rt; write_all(&mut sink, b"abcdef"), Err(Failed));
    assert_eq!(rt; sink.got(), b"1234567abc".as_slice());
    assert_eq!(rt; sink.starved(), 0);
    assert_eq!(rt; write_all(&mut SureSink::new(), b"1234567"), Ok(()));
    let mut uart = MemUart::new(rt.alloc(), vec![in rt.alloc(); 1, 2]?, 2);
    for (bytes, answer, got) in [
        (b"xyz".as_slice(), Ok(()), b"xyz".as_slice()),
        (b"abc", Err(Failed), b"xyzab"),
        (b"d", Err(Failed), b"xyzabd"),
        (b"efg", Ok(()), b"xyzabdefg"),
    ] {
        assert_eq!(rt; uart.write(bytes), answer);
        assert_eq!(rt; uart.got(), got);
    }
    assert_eq!(rt; (uart.faulted(), uart.starved()), (2, 0));
    assert_eq!(rt; SureUart::new().write(b"1234567"), Ok(()));
    assert_eq!(rt; SureUart::new().faulted(), 0);
    Ok(())
}

/// A writer that takes nothing.
#[derive(Drop)]
struct Deaf;

impl io::Write for Deaf {
    fn write(&mut self, _: &[u8]) -> io::Result<usize> {
        Ok(0)
    }

    fn flush(&mut self) -> io::Result<()> {
        Ok(())
    }
}

/// A writer that takes three bytes a call.
#[derive(Drop)]
struct Narrow {
    got: Vec<u8>,
}

impl io::Write for Narrow {
    fn write(&mut self, piece: &[u8]) -> io::Result<usize> {
        let count = piece.len().min(3);
        self.got.extend_from_slice(&piece[..count])?;
        Ok(count)
    }

    fn flush(&mut self) -> io::Result<()> {
        Ok(())
    }
}

#[test]
fn a_stream_that_takes_a_part_gets_all(rt: HostRuntime) -> Result<(), Fail> {
    let mut narrow = Narrow {
        got: Vec::new(rt.alloc()),
    };
    let mut sink = OutSink::new(&mut narrow);
    assert_eq!(rt; sink.write(b"0123"), Ok(3));
    assert_eq!(rt; write_all(&mut sink, b"3456789abc"), Ok(()));
    assert_eq!(rt; narrow.got.as_slice(), b"0123456789abc".as_slice());
    Ok(())
}

#[test]
fn files_and_streams_have_what_was_written(rt: HostRuntime) -> Result<(), Fail> {
    let dir = env::temp_dir(&rt)?;
    let name = format!(in rt.alloc(); "{}/xm_outside_store", dir.as_str())?;
    let mut sink = OutSink::new(File::create(&rt, name.as_str())?);
    assert_eq!(rt; write_all(&mut sink, b"one line\n"), Ok(()));
    let wrote = fs::read_to_string(&rt, name.as_str())?;
    assert_eq!(rt; wrote.as_str(), "one line\n");
    fs::remove_file(&rt, name.as_str())?;
    let mut deaf = OutSink::new(Deaf);
    assert_eq!(rt; deaf.write(b""), Ok(0));
    assert_eq!(rt; deaf.write(b"a"), Err(Failed));

    let mut store = FileStore::new(rt);
    let missing = store.read(rt.alloc(), name.as_str(), 9);
    assert!(rt; matches!(missing, Err(StoreFault::Failed)));
    assert_eq!(rt; store.write(name.as_str(), b"longer than the next"), Ok(()));
    assert_eq!(rt; store.write(name.as_str(), b"0123456789"), Ok(()));
    let whole = store.read(rt.alloc(), name.as_str(), 10);
    let prefix = store.read(rt.alloc(), name.as_str(), 4);
    fs::remove_file(&rt, name.as_str())?;
    assert!(rt; whole.is_ok_and(|bytes| bytes.as_slice() == b"0123456789".as_slice()));
    assert!(rt; prefix.is_ok_and(|bytes| bytes.as_slice() == b"01234".as_slice()));
    let nowhere = format!(in rt.alloc(); "{}/xm_outside_none/a", dir.as_str())?;
    assert_eq!(rt; store.write(nowhere.as_str(), b""), Err(Failed));
    Ok(())
}

#[test]
fn a_file_is_replaced_through_links_with_its_permissions(rt: HostRuntime) -> Result<(), Fail> {
    let dir = format!(in rt.alloc(); "{}/xm_outside_links", env::temp_dir(&rt)?.as_str())?;
    fs::create_dir(&rt, dir.as_str())?;
    let file = format!(in rt.alloc(); "{dir}/file")?;
    let link = format!(in rt.alloc(); "{dir}/link")?;
    let second = format!(in rt.alloc(); "{dir}/second")?;
    symlink(&rt, "file", link.as_str())?;
    symlink(&rt, link.as_str(), second.as_str())?;
    let mut store = FileStore::new(rt);
    assert_eq!(rt; store.write(second.as_str(), b"made"), Ok(()));
    fs::set_permissions(&rt, file.as_str(), Permissions::from_mode(0o640))?;
    assert_eq!(rt; store.write(link.as_str(), b"replaced"), Ok(()));
    let wrote = fs::read_to_string(&rt, file.as_str())?;
    assert_eq!(rt; wrote.as_str(), "replaced");
    assert_eq!(rt; fs::metadata(&rt, file.as_str())?.mode() & 0o777, 0o640);
    assert!(rt; fs::symlink_metadata(&rt, second.as_str())?.is_symlink());
    assert!(rt; fs::symlink_metadata(&rt, link.as_str())?.is_symlink());
    assert_eq!(rt; store.write("/dev/null", b"a"), Ok(()));
    assert_eq!(rt; store.write("/dev/full", b"a"), Err(Failed));
    for name in [file, link, second] {
        fs::remove_file(&rt, name.as_str())?;
    }
    // It fails where a file is left beside them.
    fs::remove_dir(&rt, dir.as_str())?;
    Ok(())
}

#[test]
fn the_first_write_empties_a_file_of_before(rt: HostRuntime) -> Result<(), Fail> {
    let dir = env::temp_dir(&rt)?;
    env::set_current_dir(&rt, dir.as_str())?;
    fs::write(&rt, "uart7.out", "of a run before")?;
    let mut uart = FileUart::new(rt, 7);
    let untouched = fs::read_to_string(&rt, "uart7.out")?;
    assert_eq!(rt; untouched.as_str(), "of a run before");
    assert_eq!(rt; uart.write(b"hi"), Ok(()));
    assert_eq!(rt; uart.write(b"\n\\"), Ok(()));
    let wrote = fs::read_to_string(&rt, "uart7.out")?;
    fs::remove_file(&rt, "uart7.out")?;
    assert_eq!(rt; wrote.as_str(), "hi\n\\");
    assert_eq!(rt; uart.faulted(), 0);

    fs::create_dir(&rt, "uart0.out")?;
    let mut uart = FileUart::new(rt, 0);
    assert_eq!(rt; uart.write(b"a"), Err(Failed));
    assert_eq!(rt; uart.faulted(), 1);
    fs::remove_dir(&rt, "uart0.out")?;
    Ok(())
}

#[test]
fn what_others_do_with_an_open_file(rt: HostRuntime) -> Result<(), Fail> {
    let dir = env::temp_dir(&rt)?;
    env::set_current_dir(&rt, dir.as_str())?;
    let mut uart = FileUart::new(rt, 6);
    assert_eq!(rt; uart.write(b"first"), Ok(()));
    let other = OpenOptions::new().append(true).open(&rt, "uart6.out")?;
    other.set_len(2)?;
    assert_eq!(rt; uart.write(b"-second"), Ok(()));
    let shorter = fs::read_to_string(&rt, "uart6.out")?;
    assert_eq!(rt; shorter.as_str(), "fi-second");
    let mut other = OpenOptions::new().append(true).open(&rt, "uart6.out")?;
    other.write_all(b"-other")?;
    assert_eq!(rt; uart.write(b"-third"), Ok(()));
    fs::rename(&rt, "uart6.out", "xm_outside_uart6")?;
    assert_eq!(rt; uart.write(b"-fourth"), Ok(()));
    let renamed = fs::read_to_string(&rt, "xm_outside_uart6")?;
    fs::remove_file(&rt, "xm_outside_uart6")?;
    assert_eq!(rt; renamed.as_str(), "fi-second-other-third-fourth");
    assert_eq!(rt; uart.write(b"-fifth"), Ok(()));
    assert_eq!(rt; uart.faulted(), 0);
    assert!(rt; fs::metadata(&rt, "uart6.out").is_err());
    Ok(())
}
