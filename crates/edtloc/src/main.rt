//! The program `edtloc`. All that it does is `edt_top::locate_run`.
#![tactic(auto)]

use edt_outside::{DirShelf, StdSink, put_all};
use edt_top::locate_run;
use std::alloc::{AllocError, Global};
use std::env;
use std::io::ErrorKind;
use std::process::ExitCode;

/// The status of a run that wanted memory, here while it fetched its words.
const MEMORY: u8 = 6;

/// Passes on the words after the program's name, the folder that it runs in and the two outputs, and ends with the status.
fn main(rt: HostRuntime) -> ExitCode {
    let alloc = rt.alloc();
    let mut out = StdSink::out(rt.stdout());
    let mut err = StdSink::err(rt.stderr());
    let Ok(words) = fetch_words(&rt, alloc) else {
        let _ = put_all(&mut err, b"edtloc: memory\n");
        return ExitCode::from(MEMORY);
    };
    let mut shelf = DirShelf::new(rt);
    ExitCode::from(locate_run(alloc, &words, &mut shelf, &mut out, &mut err))
}

/// The words after the program's name. Where one isn't UTF-8 there are none, which have no shape either.
fn fetch_words(rt: &HostRuntime, alloc: Global) -> Result<Vec<String>, AllocError> {
    match env::args(rt) {
        Ok(words) => words.skip(1).collect(alloc),
        Err(error) if error.kind() == ErrorKind::OutOfMemory => Err(AllocError),
        Err(_) => Ok(Vec::new(alloc)),
    }
}
