//! What no clause says: worked reads and writes, each refusal, and that none answers that memory ran out.
ghost use Rattle.std.specs.Prelude.{◌≤◌};

use crate::endless::Endless;
use edt_outside::{
    DirShelf, Failed, HasFault, MemoryShelf, MemorySink, Name, OpenFault, PutFailed, ReadFault,
    Shelf, Sink, StdSink, names_differ, put_all, read_all,
};
use std::alloc::Global;
use std::process::Abort;
use std::test::Fail;
use std::{env, fs, process};

// What the file "phases" of the tests holds.
const TEXT: &[u8] = b"PAT P 17";

// A shelf with the files "control" and "phases".
fn shelf(rt: &impl Abort, alloc: Global, piece: usize, failing: &[u64]) -> Result<MemoryShelf, Fail>
    requires { 1 ≤ piece }
{
    let mut files = Vec::new(alloc);
    files.push((Name::new(alloc, "control")?, b"CONTROL 1".to_vec(alloc)?))?;
    files.push((Name::new(alloc, "phases")?, TEXT.to_vec(alloc)?))?;
    assert!(rt; names_differ(&files));
    Ok(MemoryShelf::new(files, piece, failing.to_vec(alloc)?))
}

#[test]
fn reads_the_whole_file_in_any_pieces(rt: HostRuntime) -> Result<(), Fail> {
    let alloc = rt.alloc();
    for piece in [1, 3, 65536] {
        for limit in [TEXT.len(), TEXT.len() + 1, usize::MAX] {
            let mut shelf = shelf(&rt, alloc, piece, &[])?;
            let all = read_all(alloc, &mut shelf, "phases", limit)?;
            assert_eq!(rt; all.as_slice(), TEXT, "{piece} {limit}");
        }
        let mut shelf = shelf(&rt, alloc, piece, &[])?;
        let long = read_all(alloc, &mut shelf, "phases", TEXT.len() - 1);
        assert_eq!(rt; long.err(), Some(ReadFault::TooLong), "{piece}");
    }
    let endless = read_all(alloc, &mut Endless { most: 65_536 }, "phases", 100000);
    assert_eq!(rt; endless.err(), Some(ReadFault::TooLong));
    Ok(())
}

#[test]
fn refuses_what_fails_and_what_is_absent(rt: HostRuntime) -> Result<(), Fail> {
    let alloc = rt.alloc();
    // The open, the first read, a later one, and the one that finds the end.
    for call in [1, 2, 3, 5] {
        let mut shelf = shelf(&rt, alloc, 3, &[call])?;
        let failed = read_all(alloc, &mut shelf, "phases", 100);
        assert_eq!(rt; failed.err(), Some(ReadFault::Failed), "{call}");
    }
    let mut shelf = shelf(&rt, alloc, 3, &[6])?;
    let all = read_all(alloc, &mut shelf, "phases", 100)?;
    assert_eq!(rt; all.as_slice(), TEXT);
    let failed = read_all(alloc, &mut shelf, "phases", 100);
    assert_eq!(rt; failed.err(), Some(ReadFault::Failed));
    let absent = read_all(alloc, &mut shelf, "phase", 100);
    assert_eq!(rt; absent.err(), Some(ReadFault::Absent));
    Ok(())
}

#[test]
fn nothing_is_unread_before_an_open_and_after_a_refused_one(rt: HostRuntime) -> Result<(), Fail> {
    let alloc = rt.alloc();
    let mut shelf = shelf(&rt, alloc, 3, &[8])?;
    let mut into = [0; 4];
    assert_eq!(rt; shelf.read(&mut into)?, 0);
    assert_eq!(rt; shelf.has("phases")?, true);
    assert_eq!(rt; shelf.has("phase")?, false);
    shelf.open_file("phases")?;
    assert_eq!(rt; shelf.read(&mut into)?, 3);
    assert_eq!(rt; shelf.open_file("phase"), Err(OpenFault::Absent));
    assert_eq!(rt; shelf.read(&mut into)?, 0);
    assert_eq!(rt; shelf.has("phases"), Err(HasFault::Failed));
    Ok(())
}

#[test]
fn writes_all_or_tells_how_many_bytes_were_taken(rt: HostRuntime) -> Result<(), Fail> {
    let alloc = rt.alloc();
    // The room, the piece, the write that fails, and the bytes that are taken.
    let cases = [
        (8, 3, 9, 8),
        (8, 3, 2, 3),
        (7, 3, 9, 7),
        (0, 3, 9, 0),
        // One byte a write, so that eight writes suffice.
        (8, 1, 9, 8),
        (8, 1, 8, 7),
    ];
    for (room, piece, failing, taken) in cases {
        let failing = [failing].to_vec(alloc)?;
        let mut sink = MemorySink::new(alloc, room, piece, failing)?;
        let answer = put_all(&mut sink, TEXT);
        if taken < TEXT.len() {
            assert_eq!(rt; answer, Err(PutFailed { taken }), "{room} {piece}");
        } else {
            assert_eq!(rt; answer, Ok(()), "{room} {piece}");
        }
        assert_eq!(rt; sink.bytes(), &TEXT[..taken], "{room} {piece}");
        assert_eq!(rt; put_all(&mut sink, &[]), Ok(()));
    }
    Ok(())
}

#[test]
fn the_system_tells_files_from_what_is_absent_and_from_folders(
    rt: HostRuntime,
) -> Result<(), Fail> {
    let alloc = rt.alloc();
    let temp = env::temp_dir(&rt)?;
    let place = temp.as_str();
    let number = process::id(rt.process());
    let folder = format!(in alloc; "{place}/edt_outside_{number}")?;
    let file = format!(in alloc; "{folder}/phases")?;
    let absent = format!(in alloc; "{folder}/phase")?;
    let below = format!(in alloc; "{file}/phase")?;
    fs::create_dir(&rt, folder.as_str())?;
    fs::write(&rt, file.as_str(), TEXT)?;

    let mut shelf = DirShelf::new(rt);
    let mut into = [0; 4];
    assert_eq!(rt; shelf.read(&mut into)?, 0);
    assert_eq!(rt; shelf.has(&file), Ok(true));
    assert_eq!(rt; shelf.has(&absent), Ok(false));
    assert_eq!(rt; shelf.has(&folder), Err(HasFault::Failed));
    assert_eq!(rt; shelf.has(&below), Err(HasFault::Failed));
    let all = read_all(alloc, &mut shelf, &file, TEXT.len())?;
    assert_eq!(rt; all.as_slice(), TEXT);
    let long = read_all(alloc, &mut shelf, &file, TEXT.len() - 1);
    assert_eq!(rt; long.err(), Some(ReadFault::TooLong));
    assert_eq!(rt; shelf.open_file(&absent), Err(OpenFault::Absent));
    assert_eq!(rt; shelf.read(&mut into)?, 0);
    assert_eq!(rt; shelf.open_file(&folder), Err(OpenFault::Failed));
    assert_eq!(rt; shelf.open_file(&below), Err(OpenFault::Failed));

    fs::remove_dir_all(&rt, folder.as_str())?;
    Ok(())
}

#[test]
fn the_outputs_take_bytes(rt: HostRuntime) -> Result<(), Fail> {
    let mut out = StdSink::out(rt.stdout());
    assert_eq!(rt; put_all(&mut out, b"to standard output\n"), Ok(()));
    assert_eq!(rt; out.write(&[]), Ok(0));
    let mut err = StdSink::err(rt.stderr());
    assert_eq!(rt; put_all(&mut err, b"to standard error\n"), Ok(()));
    Ok(())
}
