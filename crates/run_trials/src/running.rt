//! A run of either program over a shelf and two sinks in memory, and what it is to end with.

use check_top::check_run;
use edt_outside::{MemoryShelf, MemorySink, Name, Shelf, names_differ};
use edt_top::locate_run;
use std::alloc::Global;
use std::process::Abort;
use std::test::Fail;

// The names of files and what they hold.
pub type Files = Vec<(Name, Vec<u8>)>;

// The two programs.
#[derive(Clone, Copy)]
pub enum Program {
    Locator,
    Checker,
}

// The program of a run, its words, how many bytes a read gives and a write takes at most, and the numbers of the calls and of the writes that fail.
#[derive(Clone, Copy)]
pub struct Run<'a> {
    pub program: Program,
    pub words: &'a [&'a str],
    pub piece: usize,
    pub taking: usize,
    pub failing_calls: &'a [u64],
    pub failing_writes: &'a [u64],
    pub failing_errors: &'a [u64],
}

// A run of the locator with these words in which nothing fails.
pub fn plain<'a>(words: &'a [&'a str]) -> Run<'a> {
    Run {
        program: Program::Locator,
        words,
        piece: 65536,
        taking: 10,
        failing_calls: &[],
        failing_writes: &[],
        failing_errors: &[],
    }
}

// What a run ends with: its status, and the bytes that the two sinks have taken.
#[derive(Clone, Copy)]
pub struct Ending<'a> {
    pub status: u8,
    pub out: &'a str,
    pub err: &'a str,
}

// One file of this name.
pub fn one_file(alloc: Global, name: &str, bytes: &[u8]) -> Result<Files, Fail> {
    let mut files = Vec::new(alloc);
    files.push((Name::new(alloc, name)?, bytes.to_vec(alloc)?))?;
    Ok(files)
}

fn words_of(alloc: Global, words: &[&str]) -> Result<Vec<String>, Fail> {
    let mut list = Vec::new(alloc);
    for word in words {
        list.push(String::from_str(alloc, word)?)?;
    }
    Ok(list)
}

// A sink that takes so many bytes a write.
fn sink(alloc: Global, taking: usize, failing: &[u64]) -> Result<MemorySink, Fail> {
    Ok(MemorySink::new(alloc, 20_000, taking.max(1), failing.to_vec(alloc)?)?)
}

// A shelf in memory of these files.
pub fn shelf_of(
    rt: &impl Abort,
    alloc: Global,
    files: Files,
    run: &Run,
) -> Result<MemoryShelf, Fail> {
    assert!(rt; names_differ(&files));
    assert!(rt; 1 <= run.piece);
    Ok(MemoryShelf::new(files, run.piece, run.failing_calls.to_vec(alloc)?))
}

// Runs over these files, and asserts what it ends with.
pub fn expect(
    rt: &impl Abort,
    alloc: Global,
    files: Files,
    run: &Run,
    ending: &Ending,
) -> Result<(), Fail> {
    let mut shelf = shelf_of(rt, alloc, files, run)?;
    expect_over(rt, alloc, &mut shelf, run, ending)
}

// Runs over this shelf, and asserts what it ends with.
pub fn expect_over<S: Shelf>(
    rt: &impl Abort,
    alloc: Global,
    shelf: &mut S,
    run: &Run,
    ending: &Ending,
) -> Result<(), Fail> {
    let words = words_of(alloc, run.words)?;
    let mut output = sink(alloc, run.taking, run.failing_writes)?;
    let mut errors = sink(alloc, run.taking, run.failing_errors)?;
    let status = match run.program {
        Program::Locator => locate_run(alloc, &words, shelf, &mut output, &mut errors),
        Program::Checker => check_run(alloc, &words, shelf, &mut output, &mut errors),
    };
    assert_eq!(rt; status, ending.status, "of {} {}", ending.out, ending.err);
    assert_eq!(rt; output.bytes(), ending.out.as_bytes());
    assert_eq!(rt; errors.bytes(), ending.err.as_bytes());
    Ok(())
}
