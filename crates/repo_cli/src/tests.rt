//! The real objects against real files, a pipe, and sockets on loopback.
use crate::clock::RealClock;
use crate::disk::FileDisk;
use crate::faults::{read_again, write_again};
use crate::host::RealHost;
use crate::link::{RealLink, SILENCE};
use crate::listener::{TcpListen, is_of_one};
use crate::note::line_of;
use crate::sink::StdSink;
use disk_core::Disk;
use link_core::{Clock, Host, Link, Listener, Sink};
use repo_top::Note;
use std::alloc::Global;
use std::fs::{self, OpenOptions};
use std::io::{Error, ErrorKind, Read, Result as IoResult, Write, pipe};
use std::net::{TcpListener, TcpStream};
use std::os::unix::fs::MetadataExt;
use std::test::Fail;
use std::time::Duration;

// What the system, or the form itself, said of a fault.
fn words_of(alloc: Global, fault: Option<&Error>) -> Result<String, Fail> {
    match fault {
        Some(error) => Ok(format!(in alloc; "{error}")?),
        None => Err(Fail::from("no fault")),
    }
}

// The line of a note, none for none.
fn line_text(alloc: Global, note: &Note, cause: Option<&Error>) -> Result<String, Fail> {
    match line_of("zenkawi", note, cause) {
        Some(line) => Ok(format!(in alloc; "{line}")?),
        None => Ok(String::new(alloc)),
    }
}

#[test]
fn a_line_ends_in_the_words_of_the_system(rt: HostRuntime) -> Result<(), Fail> {
    let cause = Error::from_raw_os_error(98);
    let text = line_text(rt.alloc(), &Note::Host, Some(&cause))?;
    assert_eq!(rt;
        text.as_str(),
        "zenkawi: a file, or standard input and output, could not be opened: Address already in use (os error 98)"
    );
    let text = line_text(rt.alloc(), &Note::Memory, None)?;
    assert_eq!(rt; text.as_str(), "zenkawi: out of memory");
    assert!(rt; line_of("zenkawi", &Note::Nothing, None).is_none());
    Ok(())
}

#[test]
fn a_file_keeps_what_is_written(rt: HostRuntime) -> Result<(), Fail> {
    let mut host = RealHost::new(&rt, rt.alloc(), rt.stdin(), rt.stdout());
    let Ok(mut disk) = host.disk("store") else {
        return Err(Fail::from("no file"));
    };
    assert_eq!(rt; disk.length(), Ok(0));
    assert_eq!(rt;
        (disk.write_at(2, b"abc"), disk.sync(), disk.length()),
        (Ok(()), Ok(()), Ok(5))
    );
    let mut buffer = [9; 8];
    assert_eq!(rt; disk.read_at(0, &mut buffer), Ok(5));
    assert_eq!(rt; &buffer[..5], b"\0\0abc".as_slice());
    assert_eq!(rt; disk.read_at(5, &mut buffer), Ok(0));
    let Ok(copy) = host.file("store", 3) else {
        return Err(Fail::from("no copy"));
    };
    assert_eq!(rt; copy.get(), b"\0\0a".as_slice());
    assert!(rt; host.file("none", 3).is_err() && host.last_fault().is_some());
    assert!(rt; host.disk("none/store").is_err());
    Ok(())
}

#[test]
fn a_file_is_made_for_its_owner_and_is_a_disk_once(rt: HostRuntime) -> Result<(), Fail> {
    let mut host = RealHost::new(&rt, rt.alloc(), rt.stdin(), rt.stdout());
    let Ok(mut disk) = host.disk("once") else {
        return Err(Fail::from("no file"));
    };
    assert_eq!(rt; fs::metadata(&rt, "once")?.mode() & 0o777, 0o600);
    assert_eq!(rt; disk.write_at(0, b"abc"), Ok(()));
    assert!(rt; host.disk("once").is_err());
    let words = words_of(rt.alloc(), host.last_fault())?;
    assert_eq!(rt; words.as_str(), "the file is open in another process");
    drop(disk);
    let Ok(mut again) = host.disk("once") else {
        return Err(Fail::from("still locked"));
    };
    assert_eq!(rt; again.length(), Ok(3));
    Ok(())
}

#[test]
fn only_a_regular_file_is_a_disk(rt: HostRuntime) -> Result<(), Fail> {
    let mut host = RealHost::new(&rt, rt.alloc(), rt.stdin(), rt.stdout());
    for path in [".", "/dev/null"] {
        assert!(rt; host.disk(path).is_err(), "{path}");
    }
    let words = words_of(rt.alloc(), host.last_fault())?;
    assert_eq!(rt; words.as_str(), "it isn't a regular file");
    Ok(())
}

#[test]
fn a_full_disk_has_the_words_of_the_system(rt: HostRuntime) -> Result<(), Fail> {
    let mut options = OpenOptions::new();
    options.read(true).write(true);
    // A device that is always full, and that can't be synced, in the place of a file.
    let mut disk = FileDisk::new(options.open(&rt, "/dev/full")?);
    assert!(rt; disk.write_at(0, b"abc").is_err());
    let words = words_of(rt.alloc(), disk.last_fault())?;
    assert_eq!(rt; words.as_str(), "No space left on device (os error 28)");
    assert!(rt; disk.sync().is_err() && disk.sync().is_err());
    let words = words_of(rt.alloc(), disk.last_fault())?;
    assert_eq!(rt;
        (words.as_str(), disk.fault_count()),
        ("Invalid argument (os error 22)", 3)
    );
    Ok(())
}

#[test]
fn a_listener_has_the_words_of_the_system(rt: HostRuntime) -> Result<(), Fail> {
    let socket = TcpListener::bind(&rt, ("127.0.0.1", 0))?;
    // Another handle of the socket has its options, so nothing need come to an end for a fault.
    socket.try_clone()?.set_nonblocking(true)?;
    let mut listener = TcpListen::new(socket);
    assert!(rt; listener.accept().is_err());
    let words = words_of(rt.alloc(), listener.last_fault())?;
    assert_eq!(rt;
        words.as_str(),
        "Resource temporarily unavailable (os error 11)"
    );
    Ok(())
}

#[test]
fn a_pipe_that_is_closed_early_is_a_fault_of_its_sink(rt: HostRuntime) -> Result<(), Fail> {
    let (reader, writer) = pipe(&rt)?;
    let mut sink = StdSink::new(writer);
    assert_eq!(rt; sink.write(b"abc"), Ok(3));
    drop(reader);
    assert!(rt; sink.write(b"abc").is_err());
    let words = words_of(rt.alloc(), sink.last_fault())?;
    assert_eq!(rt; words.as_str(), "Broken pipe (os error 32)");
    Ok(())
}

#[test]
fn a_silent_socket_is_a_fault_in_words_of_its_own(rt: HostRuntime) -> Result<(), Fail> {
    let listener = TcpListener::bind(&rt, ("127.0.0.1", 0))?;
    let stream = TcpStream::connect(&rt, listener.local_addr()?)?;
    // Another handle of the socket has its options, so the test need not wait for five minutes.
    let options = stream.try_clone()?;
    let mut link = RealLink::socket(stream)?;
    let silence = options.read_timeout()?.map(|silence| silence.as_secs());
    assert_eq!(rt; silence, Some(SILENCE));
    options.set_read_timeout(Some(Duration::from_millis(50)))?;
    assert!(rt; link.read(&mut [0; 8]).is_err());
    let words = words_of(rt.alloc(), link.last_fault())?;
    assert_eq!(rt; words.as_str(), "no byte for five minutes");
    Ok(())
}

// Whether one of a thousand writes is a fault.
fn fills(link: &mut RealLink) -> bool {
    for _ in 0..1_000 {
        if link.write(&[7; 65_536]).is_err() {
            return true;
        }
    }
    false
}

#[test]
fn a_socket_whose_peer_reads_nothing_is_a_fault_too(rt: HostRuntime) -> Result<(), Fail> {
    let listener = TcpListener::bind(&rt, ("127.0.0.1", 0))?;
    let stream = TcpStream::connect(&rt, listener.local_addr()?)?;
    let options = stream.try_clone()?;
    let mut link = RealLink::socket(stream)?;
    let silence = options.write_timeout()?.map(|silence| silence.as_secs());
    assert_eq!(rt; (silence, options.nodelay()?), (Some(SILENCE), true));
    options.set_write_timeout(Some(Duration::from_millis(50)))?;
    assert!(rt; fills(&mut link));
    let words = words_of(rt.alloc(), link.last_fault())?;
    assert_eq!(rt; words.as_str(), "no byte for five minutes");
    Ok(())
}

#[test]
fn a_reply_arrives_although_the_request_was_not_read_to_its_end(
    rt: HostRuntime,
) -> Result<(), Fail> {
    let listener = TcpListener::bind(&rt, ("127.0.0.1", 0))?;
    let mut near = RealLink::socket(TcpStream::connect(&rt, listener.local_addr()?)?)?;
    let (stream, _) = listener.accept()?;
    let mut far = RealLink::socket(stream)?;
    assert!(rt; near.write(&[7; 10_000]).is_ok());
    let mut buffer = [0; 8];
    assert_eq!(rt;
        (far.read(&mut buffer), far.write(b"reply")),
        (Ok(8), Ok(5))
    );
    far.close();
    assert_eq!(rt;
        (near.read(&mut buffer), near.read(&mut buffer)),
        (Ok(5), Ok(0))
    );
    Ok(())
}

// A stream whose first call a signal interrupts.
#[derive(Drop)]
struct Interrupted {
    calls: u64,
}

impl Interrupted {
    fn call(&mut self) -> IoResult<()> {
        self.calls = self.calls.saturating_add(1);
        if self.calls == 1 {
            return Err(Error::from(ErrorKind::Interrupted));
        }
        Ok(())
    }
}

impl Read for Interrupted {
    fn read(&mut self, _into: &mut [u8]) -> IoResult<usize> {
        self.call()?;
        Ok(0)
    }
}

impl Write for Interrupted {
    fn write(&mut self, piece: &[u8]) -> IoResult<usize> {
        self.call()?;
        Ok(piece.len())
    }

    fn flush(&mut self) -> IoResult<()> {
        Ok(())
    }
}

#[test]
fn a_call_that_a_signal_interrupted_is_made_again(rt: HostRuntime) -> Result<(), Fail> {
    let mut source = Interrupted { calls: 0 };
    assert!(rt; matches!(read_again(&mut source, &mut [0; 8]), Ok(0)));
    let mut sink = Interrupted { calls: 0 };
    assert!(rt; matches!(write_again(&mut sink, b"abc"), Ok(3)));
    assert_eq!(rt; (source.calls, sink.calls), (2, 2));
    Ok(())
}

#[test]
fn an_error_of_one_connection_is_none_of_the_listener(rt: HostRuntime) -> Result<(), Fail> {
    // A broken protocol, a connection given up, a host that is gone; too many files, no memory, no socket.
    for (number, wanted) in [
        (71, true),
        (103, true),
        (113, true),
        (24, false),
        (12, false),
        (88, false),
    ] {
        assert_eq!(rt;
            is_of_one(&Error::from_raw_os_error(number)),
            wanted,
            "{number}"
        );
    }
    Ok(())
}

#[test]
fn two_sockets_on_loopback_are_two_links(rt: HostRuntime) -> Result<(), Fail> {
    let mut host = RealHost::new(&rt, rt.alloc(), rt.stdin(), rt.stdout());
    for address in ["127.0.0.1", "::1"] {
        let Ok(mut listener) = host.listen(address, 0) else {
            // A machine may have no IPv6.
            assert_eq!(rt; address, "::1");
            return Ok(());
        };
        let port = listener.port()?;
        let Ok(mut near) = host.dial(address, port) else {
            return Err(Fail::from("refused"));
        };
        let Ok(Some(mut far)) = listener.accept() else {
            return Err(Fail::from("not accepted"));
        };
        let mut buffer = [0; 8];
        assert_eq!(rt;
            (near.write(b"ping"), far.read(&mut buffer)),
            (Ok(4), Ok(4))
        );
        assert_eq!(rt; &buffer[..4], b"ping".as_slice());
        near.close();
        assert_eq!(rt; far.read(&mut buffer), Ok(0));
        assert!(rt; near.read(&mut buffer).is_err() && near.last_fault().is_some());
        assert!(rt; host.listen(address, port).is_err());
        let words = words_of(rt.alloc(), host.last_fault())?;
        assert_eq!(rt; words.as_str(), "Address already in use (os error 98)");
    }
    Ok(())
}

#[test]
fn the_clock_is_past_the_year_2020(rt: HostRuntime) -> Result<(), Fail> {
    let mut clock = RealClock::new(&rt);
    assert!(rt; clock.now() > 1_577_836_800_000);
    Ok(())
}
