// What no clause says: that each call can succeed, and what it does at the edge to real files and output.
use gdi_io::{
    Failed, FolderShelf, MemShelf, MemSink, OutSink, ReadRefused, Shelf, Sink, read_all, write_all,
};
use gdi_kinds::{Bytes, FileList, NamedBytes, NoMemory, NumList};
use std::alloc::Global;
use std::cell::RefCell;
use std::fmt::Display;
use std::{fs, io};

// Longer than one piece of `read_all`.
const LONG: usize = 70_000;

fn numbers_of(alloc: Global, numbers: &[u64]) -> Result<NumList, NoMemory> {
    Ok(NumList::from_vec(Vec::from_slice(alloc, numbers)?))
}

fn file_of(alloc: Global, name: &[u8], bytes: Vec<u8>) -> Result<NamedBytes, NoMemory> {
    Ok(NamedBytes {
        name: Bytes::from_vec(Vec::from_slice(alloc, name)?),
        bytes: Bytes::from_vec(bytes),
    })
}

// A shelf with a short file, a long one, and a second one of the short one's name.
fn shelf_of(alloc: Global, fails: &[u64]) -> Result<MemShelf, NoMemory> {
    let mut files = FileList::new(alloc);
    files.push(file_of(alloc, b"short", Vec::from_slice(alloc, b"hello")?)?)?;
    files.push(file_of(alloc, b"long", vec![in alloc; 7u8; LONG]?)?)?;
    files.push(file_of(alloc, b"short", Vec::new(alloc))?)?;
    Ok(MemShelf::new(files, numbers_of(alloc, fails)?))
}

#[test]
fn a_file_comes_in_pieces(rt: HostRuntime) -> Result<(), NoMemory> {
    let mut shelf = shelf_of(rt.alloc(), &[])?;
    let mut piece = [0u8; 3];
    assert_eq!(rt; shelf.read(&mut piece), Ok(0), "before any select");
    assert_eq!(rt; shelf.select("short"), Ok(()));
    assert_eq!(rt; shelf.read(&mut piece), Ok(3));
    assert_eq!(rt; piece, *b"hel");
    assert_eq!(rt; shelf.read(&mut piece), Ok(2));
    assert_eq!(rt; piece, *b"lol");
    assert_eq!(rt; shelf.read(&mut piece), Ok(0));
    assert_eq!(rt; shelf.select("absent"), Err(Failed));
    Ok(())
}

#[test]
fn a_whole_file_is_read(rt: HostRuntime) -> Result<(), NoMemory> {
    let alloc = rt.alloc();
    let mut shelf = shelf_of(alloc, &[7])?;
    for (name, want) in [("long", Some(LONG)), ("short", Some(5)), ("long", None)] {
        let read = read_all(alloc, &mut shelf, name);
        assert_eq!(rt; read.ok().map(|bytes| bytes.len()), want, "at {name}");
    }
    Ok(())
}

#[test]
fn a_failed_read_is_told(rt: HostRuntime) -> Result<(), NoMemory> {
    let alloc = rt.alloc();
    let mut shelf = shelf_of(alloc, &[2])?;
    assert_eq!(rt;
        read_all(alloc, &mut shelf, "long").err(),
        Some(ReadRefused::Failed)
    );
    assert!(rt; read_all(alloc, &mut shelf, "long").is_ok());
    assert_eq!(rt;
        read_all(alloc, &mut shelf, "absent").err(),
        Some(ReadRefused::Failed)
    );
    Ok(())
}

#[test]
fn a_sink_keeps_what_it_takes(rt: HostRuntime) -> Result<(), NoMemory> {
    let alloc = rt.alloc();
    let mut sink = MemSink::new(alloc, 8, numbers_of(alloc, &[1])?);
    assert_eq!(rt; write_all(&mut sink, b"hello"), Ok(()));
    assert_eq!(rt; write_all(&mut sink, b"lost"), Err(Failed));
    assert_eq!(rt; write_all(&mut sink, b""), Ok(()));
    assert_eq!(rt; write_all(&mut sink, b", you"), Err(Failed));
    assert_eq!(rt; sink.bytes(), b"hello, y".as_slice());
    Ok(())
}

#[test]
fn a_sink_takes_many_pieces(rt: HostRuntime) -> Result<(), NoMemory> {
    let alloc = rt.alloc();
    let mut sink = MemSink::new(alloc, u64::MAX, NumList::new(alloc));
    let mut want = Vec::new(alloc);
    for piece in 0..1000u32 {
        let bytes = piece.to_le_bytes();
        assert_eq!(rt; write_all(&mut sink, &bytes), Ok(()), "piece {piece}");
        want.extend_from_slice(&bytes)?;
    }
    assert_eq!(rt; sink.bytes(), want.as_slice());
    Ok(())
}

#[test]
fn real_files_are_read(rt: HostRuntime) -> io::Result<()> {
    let files = [
        ("gdi_io_greeting.txt", "hello"),
        ("gdi_io_empty.txt", ""),
        ("gdi_io_parting.txt", "good\nbye\n"),
    ];
    for (name, text) in files {
        fs::write(&rt, name, text)?;
    }
    let mut shelf = FolderShelf::new(&rt);
    let mut piece = [0u8; 3];
    assert_eq!(rt; shelf.read(&mut piece), Ok(0), "before any select");
    for (name, text) in files {
        let Ok(bytes) = read_all(rt.alloc(), &mut shelf, name) else {
            panic!(rt; "{name} isn't read");
        };
        assert_eq!(rt; bytes.as_slice(), text.as_bytes(), "at {name}");
    }
    for (name, _) in files {
        fs::remove_file(&rt, name)?;
        let read = read_all(rt.alloc(), &mut shelf, name);
        assert_eq!(rt; read.err(), Some(ReadRefused::Failed), "{name} is gone");
    }
    Ok(())
}

// An output that keeps what is printed, takes three bytes at a time, and fails from a length on.
#[derive(Drop)]
struct Recorder {
    printed: RefCell<Vec<u8>>,
    limit: usize,
}

impl Print for Recorder {
    fn print<D: Display + Drop>(&self, _value: D) -> io::Result<()> {
        Err(io::Error::from(io::ErrorKind::Unsupported))
    }

    fn println<D: Display + Drop>(&self, _value: D) -> io::Result<()> {
        Err(io::Error::from(io::ErrorKind::Unsupported))
    }

    fn write_all(&self, _bytes: &[u8]) -> io::Result<()> {
        Err(io::Error::from(io::ErrorKind::Unsupported))
    }

    fn write_some(&self, bytes: &[u8]) -> io::Result<usize> {
        let Ok(mut printed) = self.printed.try_borrow_mut() else {
            return Err(io::Error::from(io::ErrorKind::Other));
        };
        if printed.len() >= self.limit {
            return Err(io::Error::from(io::ErrorKind::BrokenPipe));
        }
        let count = bytes.len().min(3);
        printed.extend_from_slice(&bytes[..count])?;
        Ok(count)
    }
}

#[test]
fn output_is_written_as_it_is(rt: HostRuntime) -> Result<(), NoMemory> {
    for (limit, text, answer, want) in [
        (100, "hello\n", Ok(()), "hello\n"),
        (100, "", Ok(()), ""),
        (6, "two lines\nof text", Err(Failed), "two li"),
    ] {
        let output = Recorder {
            printed: RefCell::new(Vec::new(rt.alloc())),
            limit,
        };
        let mut sink = OutSink::new(&output);
        assert_eq!(rt;
            write_all(&mut sink, text.as_bytes()),
            answer,
            "at {text:?}"
        );
        assert_eq!(rt; output.printed.into_inner().as_slice(), want.as_bytes());
    }
    Ok(())
}

#[test]
fn real_output_takes_bytes(rt: HostRuntime) {
    let mut sink = OutSink::new(&rt);
    assert_eq!(rt; write_all(&mut sink, b"hello\n"), Ok(()));
}
