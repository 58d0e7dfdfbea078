//! Worked control files, and each range at its last good and first bad value. The expected values were found apart from this code.
ghost use Rattle.std.specs.Prelude.{◌≡◌, ◌≤◌, All, IsTrue, vec_len};

use control_reader::{Control, ControlCause, ControlFault, Keyword, include_names, read_control};
use kernel_table::Shape;
use std::alloc::Global;
use std::process::Abort;
use std::test::Fail;

// A control file whose lines many rows here change.
const SAMPLE: [&str; 9] = [
    "# sample",
    "CONTROL 1 54321",
    "TRANS SIMPLE 46.0 8.0 0.0",
    "LOCSIG observatory",
    "LOCFILES obs.txt NLLOC_OBS time/a loc/a",
    "LOCGRID 4 1 1 10.0 0.0 0.0 1.0 1.0 1.0 PROB_DENSITY SAVE",
    "LOCMETH EDT 9999.0 2 -1 -1 -1 0",
    "LOCGAU 0.1 0.0",
    "LOCSEARCH OCT 1 1 1 0.01 10000 5000 0 1",
];

// The sample with other lines in place of the one of this number, counted from 1, or after the last.
fn sample_with(alloc: Global, number: usize, lines: &str) -> Result<String, Fail> {
    let mut text = String::new(alloc);
    for (index, line) in SAMPLE.iter().enumerate() {
        if index + 1 == number {
            text.push_str(lines)?;
        } else {
            text.push_str(line)?;
            text.push_str("\n")?;
        }
    }
    if number == 10 {
        text.push_str(lines)?;
    }
    Ok(text)
}

// So many times the same text.
fn repeated(alloc: Global, text: &str, count: u32) -> Result<String, Fail> {
    let mut all = String::new(alloc);
    for _ in 0..count {
        all.push_str(text)?;
    }
    Ok(all)
}

// Included files of these texts.
fn files_of(alloc: Global, texts: &[&str]) -> Result<Vec<Vec<u8>>, Fail> {
    let mut files = Vec::new(alloc);
    for text in texts {
        files.push(text.as_bytes().to_vec(alloc)?)?;
    }
    Ok(files)
}

// Whether each file has at most 1,048,576 bytes.
fn are_short(files: &[Vec<u8>]) -> bool
    ensures { IsTrue result → All (λ file. vec_len file ≤ 1048576) files.now }
{
    files.iter().all(|file| file.len() <= 1_048_576)
}

// A fault that no file has, for a control file that can't be handed over.
const UNFIT: ControlFault = ControlFault {
    file: 99,
    line: 99,
    cause: ControlCause::Memory,
};

// A control file and the first fault of its names or of its lines.
fn read(alloc: Global, main: &str, included: &[Vec<u8>]) -> Result<Control, ControlFault> {
    if main.len() > 1_048_576 || !are_short(included) {
        return Err(UNFIT);
    }
    let names = include_names(alloc, main.as_bytes())?;
    if names.len() != included.len() {
        return Err(UNFIT);
    }
    read_control(alloc, main.as_bytes(), included)
}

// The first fault, and `None` where there is a reading.
fn fault_of(alloc: Global, main: &str, included: &[Vec<u8>]) -> Option<(u32, u32, ControlCause)> {
    match read(alloc, main, included) {
        Ok(_) => None,
        Err(fault) => Some((fault.file, fault.line, fault.cause)),
    }
}

// The fault that this line has in the place of a line of the sample.
fn cause_at(alloc: Global, number: usize, line: &str) -> Result<Option<ControlCause>, Fail> {
    let text = sample_with(alloc, number, line)?;
    match fault_of(alloc, text.as_str(), &[]) {
        None => Ok(None),
        Some((0, at, cause)) if at as usize == number => Ok(Some(cause)),
        Some(_) => Ok(Some(ControlCause::Memory)),
    }
}

#[test]
fn the_sample_is_read(rt: HostRuntime) -> Result<(), Fail> {
    let text = sample_with(rt.alloc(), 0, "")?;
    match read(rt.alloc(), text.as_str(), &[]) {
        Ok(control) => {
            assert_eq!(rt; control.passed, 2);
            assert_eq!(rt; control.obs_file.as_str(), "obs.txt");
            assert_eq!(rt; control.time_root.as_str(), "time/a");
            assert!(rt; !control.swap);
            let frame = control.frame;
            let grid = frame.grid;
            assert!(rt; (grid.x(), grid.y(), grid.z()) == (4, 1, 1));
            assert!(rt; (frame.ox, frame.oy, frame.oz) == (10_000_000, 0, 0));
            assert!(rt; (frame.dx, frame.dy, frame.dz) == (1_000_000, 1_000_000, 1_000_000));
            assert!(rt; (control.max_dist, control.min_dist) == (9_999_000_000, -1_000_000));
            assert!(rt; (control.min_phases, control.max_phases, control.min_s) == (2, -1, -1));
            assert_eq!(rt; control.vpvs, -1_000_000);
            assert!(rt; control.reject_duplicates);
            assert_eq!(rt; control.sigma, 100_000);
            assert!(rt; control.cells == (1, 1, 1));
            assert_eq!(rt; control.seed, 54321);
            assert!(rt; (control.margin, control.budget, control.lanes) == (0, 8, 1));
            assert!(rt; control.shape == Shape::Gauss);
            assert!(rt; control.phase_ids.is_empty() && control.excludes.is_empty());
            assert!(rt; control.delays.is_empty() && control.aliases.is_empty());
        }
        Err(_) => assert!(rt; false),
    }
    Ok(())
}

#[test]
fn optional_words_and_statements_are_read(rt: HostRuntime) -> Result<(), Fail> {
    let alloc = rt.alloc();
    let text = "LOCFILES o NLLOC_OBS t x 1 more\nLOCGRID 2 3 4 -1.5 2.5 -0.000001 1 2 3\n\
        LOCMETH EDT -1 -2 3 4 1.73 ? 0.5 0 more\nLOCGAU 1\nLOCSEARCH OCT 0 5000 7 more\n\
        EDTNEAR 999\nEDTBUDGET 17\nEDTKERNEL COUNT 3.0 7\nEDTLANES 64 x\nedtnear\n\
        GTMODE GRID3D\n";
    match read(alloc, text, &[]) {
        Ok(control) => {
            assert!(rt; control.swap);
            let frame = control.frame;
            assert!(rt; (frame.ox, frame.oy, frame.oz) == (-1_500_000, 2_500_000, -1));
            assert!(rt; (frame.dx, frame.dy, frame.dz) == (1_000_000, 2_000_000, 3_000_000));
            assert!(rt; (control.max_dist, control.min_dist) == (-1_000_000, 500_000));
            assert!(rt; (control.min_phases, control.max_phases, control.min_s) == (-2, 3, 4));
            assert_eq!(rt; control.vpvs, 1_730_000);
            assert!(rt; !control.reject_duplicates);
            assert!(rt; control.cells == (1, 4096, 7));
            assert!(rt; (control.margin, control.budget, control.seed) == (999, 17, 0));
            assert_eq!(rt; control.lanes, 64);
            assert!(rt; control.shape == Shape::Count(3_000_000));
            assert_eq!(rt; control.passed, 2);
        }
        Err(_) => assert!(rt; false),
    }
    Ok(())
}

#[test]
fn the_grid_is_one_root_where_no_octree_is_asked(rt: HostRuntime) -> Result<(), Fail> {
    let alloc = rt.alloc();
    for line in ["", "LOCSEARCH GRID 7 7 7\n", "LOCSEARCH MET 7 7 7\n"] {
        let text = sample_with(alloc, 9, line)?;
        match read(alloc, text.as_str(), &[]) {
            Ok(control) => assert!(rt; control.cells == (1, 1, 1)),
            Err(_) => assert!(rt; false),
        }
    }
    Ok(())
}

#[test]
fn lists_are_in_the_order_of_their_statements(rt: HostRuntime) -> Result<(), Fail> {
    let alloc = rt.alloc();
    let lines = "LOCPHASEID P p Pn\nLOCEXCLUDE A P\nLOCPHASEID S Sg\nLOCEXCLUDE B S x\n\
        LOCDELAY C P 3 -0.5\nLOCALIAS D E 1994 2 3 -9999 99 999 x\nLOCDELAY C S 0 10000.0\n";
    let text = sample_with(alloc, 10, lines)?;
    match read(alloc, text.as_str(), &[]) {
        Ok(control) => {
            let mut ids = String::new(alloc);
            for id in &control.phase_ids {
                let pair = format!(in alloc; "{}={} ", id.code.as_str(), id.standard.as_str())?;
                ids.push_str(pair.as_str())?;
            }
            assert_eq!(rt; ids.as_str(), "p=P Pn=P Sg=S ");
            let mut others = String::new(alloc);
            for exclude in &control.excludes {
                let (station, phase) = (exclude.station.as_str(), exclude.phase.as_str());
                let pair = format!(in alloc; "{station}.{phase} ")?;
                others.push_str(pair.as_str())?;
            }
            for delay in &control.delays {
                let (station, phase) = (delay.station.as_str(), delay.phase.as_str());
                let part = format!(in alloc; "{station}.{phase}:{} ", delay.delay)?;
                others.push_str(part.as_str())?;
            }
            assert_eq!(rt; others.as_str(), "A.P B.S C.P:-500000 C.S:10000000000 ");
            for alias in &control.aliases {
                assert_eq!(rt; alias.station.as_str(), "D");
                assert_eq!(rt; alias.alias.as_str(), "E");
                assert!(rt; alias.from == (1994, 2, 3) && alias.to == (-9999, 99, 999));
            }
            assert_eq!(rt; control.aliases.len(), 1);
        }
        Err(_) => assert!(rt; false),
    }
    Ok(())
}

// Statements in place of line 5 of the sample, each after its cause.
const FILES: &str = "\
    Fields LOCFILES o NLLOC_OBS t\n\
    Name LOCFILES o* PHASES t x\n\
    Name LOCFILES o? NLLOC_OBS t x\n\
    Name LOCFILES o[ NLLOC_OBS t x\n\
    good LOCFILES o] NLLOC_OBS t* x\n\
    Name LOCFILES o\x7f NLLOC_OBS t x\n\
    FileType LOCFILES o NLLOC t\x01 x\n\
    Name LOCFILES o NLLOC_OBS t\x01 x 2\n\
    good LOCFILES o NLLOC_OBS t x\x01 0\n\
    Limit LOCFILES o NLLOC_OBS t x 2\n\
    Limit LOCFILES o NLLOC_OBS t x -1\n\
    Number LOCFILES o NLLOC_OBS t x y\n\
";

// Statements in place of line 6.
const GRIDS: &str = "\
    Fields LOCGRID 4 1 1 0 0 0 1 1\n\
    Limit LOCGRID 0 x 1 0 0 0 1 1 1\n\
    good LOCGRID 4096 1 1 0 0 0 1 1 1\n\
    Limit LOCGRID 1 4097 1 0 0 0 1 1 1\n\
    Number LOCGRID 1 1 x 0 0 0 1 1 1\n\
    good LOCGRID 2000 1000 1 0 0 0 1 1 1\n\
    Limit LOCGRID 1 2001 1000 x 0 0 1 1 1\n\
    good LOCGRID 1 1 1 10000.0 -10000.0 0 1 1 1\n\
    Limit LOCGRID 1 1 1 10000.000001 x 0 1 1 1\n\
    Limit LOCGRID 1 1 1 0 -10000.000001 0 1 1 1\n\
    Number LOCGRID 1 1 1 0 0 1e30 0 1 1\n\
    good LOCGRID 1 1 1 0 0 0 0.000001 1000.0 1\n\
    Limit LOCGRID 1 1 1 0 0 0 0.0 x 1\n\
    Limit LOCGRID 1 1 1 0 0 0 1 1000.000001 1\n\
    Number LOCGRID 1 1 1 0 0 0 1 1 -\n\
";

// Statements in place of line 7.
const METHODS: &str = "\
    Fields LOCMETH EDT 1 2 3 4\n\
    Method LOCMETH EDT_OT_WT 9999.0 2 -1 -1 -1 0\n\
    Method LOCMETH edt x 2 -1 -1 -1 0\n\
    good LOCMETH EDT 1000000.0 2 -1 -1 10\n\
    Limit LOCMETH EDT 1000000.000001 x -1 -1 -1 0\n\
    Limit LOCMETH EDT -1000000.000001 2 -1 -1 -1 0\n\
    Number LOCMETH EDT x 2 -1 -1 11 0\n\
    Number LOCMETH EDT 1 x -1 -1 11 0\n\
    Number LOCMETH EDT 1 2 2.5 -1 11 0\n\
    Number LOCMETH EDT 1 2 -1 1000000000 11 0\n\
    Limit LOCMETH EDT 1 2 -1 -1 10.000001 0\n\
    good LOCMETH EDT 1 2 -1 -1 -999 x -1000000 -5\n\
    Limit LOCMETH EDT 1 2 -1 -1 1 0 1000000.000001 x\n\
    Number LOCMETH EDT 1 2 -1 -1 1 0 x\n\
    Number LOCMETH EDT 1 2 -1 -1 1 0 1 x\n\
";

// Statements in place of line 8.
const SIGMAS: &str = "\
    Fields LOCGAU\n\
    good LOCGAU 100 x\n\
    Limit LOCGAU 100.000001\n\
    good LOCGAU 0\n\
    Limit LOCGAU -0.000001\n\
    Number LOCGAU 0,1\n\
";

// Statements in place of line 9.
const SEARCHES: &str = "\
    Fields LOCSEARCH\n\
    good LOCSEARCH GRID\n\
    good LOCSEARCH MET x\n\
    FileType LOCSEARCH BOX 1 1 1\n\
    Fields LOCSEARCH OCT x 1\n\
    Number LOCSEARCH OCT 1 1 x\n\
";

// Statements in place of line 2.
const SEEDS: &str = "\
    Fields CONTROL 1\n\
    Number CONTROL x 1\n\
    Number CONTROL 1 x\n\
";

// Statements after the sample.
const ADDED: &str = "\
    Fields LOCPHASEID P\n\
    Name LOCPHASEID P p\x7f\n\
    Name LOCPHASEID P\x01 p\n\
    Fields LOCEXCLUDE A\n\
    Name LOCEXCLUDE A\x7f P\n\
    Name LOCEXCLUDE A P\x7f\n\
    Fields LOCDELAY BBB P 1\n\
    Name LOCDELAY BBB P\x7f x 0.1\n\
    Number LOCDELAY BBB P x 0.1\n\
    Number LOCDELAY BBB P 1 x\n\
    good LOCDELAY BBB P 1 -10000.0\n\
    Limit LOCDELAY BBB P 1 10000.000001\n\
    Limit LOCDELAY BBB P 1 -10000.000001\n\
    Fields LOCALIAS A B 1 1 1\n\
    Fields LOCALIAS A B 1 1 1 1 1\n\
    Name LOCALIAS A B\x7f x 1 1 1 1 1\n\
    Number LOCALIAS A B 1 1 1 1 1 x\n\
    Number LOCALIAS A B 1 1 1.5 1 1 1\n\
    Repeated CONTROL 1 2\n\
    Fields EDTNEAR\n\
    good EDTNEAR 0\n\
    Limit EDTNEAR 1000\n\
    Limit EDTNEAR -1\n\
    Number EDTNEAR x\n\
    Fields EDTBUDGET\n\
    Limit EDTBUDGET 0\n\
    good EDTBUDGET 1\n\
    good EDTBUDGET 4000000\n\
    Limit EDTBUDGET 4000001\n\
    Number EDTBUDGET x\n\
    Fields EDTKERNEL\n\
    good EDTKERNEL TRIANGLE x\n\
    FileType EDTKERNEL COSINE\n\
    FileType EDTKERNEL gauss\n\
    Fields EDTKERNEL COUNT\n\
    good EDTKERNEL COUNT 0 x\n\
    good EDTKERNEL COUNT 1000.0\n\
    Number EDTKERNEL COUNT x\n\
    Limit EDTKERNEL COUNT 1000.000001\n\
    Limit EDTKERNEL COUNT -0.000001\n\
    Fields EDTLANES\n\
    Limit EDTLANES 0\n\
    good EDTLANES 1\n\
    good EDTLANES 64 65 x\n\
    Limit EDTLANES 65\n\
    Limit EDTLANES -1\n\
    Number EDTLANES 2.5\n\
    Number EDTLANES x\n\
    NotYet LOCGAU2 x\n\
    good LOCGAU3 x\n\
";

// Whether each statement of a table has its cause in the place of a line of the sample.
fn check_rows(rt: &impl Abort, alloc: Global, number: usize, table: &str) -> Result<(), Fail> {
    for row in table.lines() {
        let (want, statement) = row.split_once(' ').unwrap_or((row, ""));
        let line = format!(in alloc; "{statement}\n")?;
        let found = match cause_at(alloc, number, line.as_str())? {
            None => format!(in alloc; "good")?,
            Some(cause) => format!(in alloc; "{cause:?}")?,
        };
        assert_eq!(rt; found.as_str(), want, "at {row}");
    }
    Ok(())
}

#[test]
fn single_statements_have_their_first_fault(rt: HostRuntime) -> Result<(), Fail> {
    check_rows(&rt, rt.alloc(), 2, SEEDS)?;
    check_rows(&rt, rt.alloc(), 5, FILES)?;
    check_rows(&rt, rt.alloc(), 6, GRIDS)?;
    check_rows(&rt, rt.alloc(), 7, METHODS)?;
    check_rows(&rt, rt.alloc(), 8, SIGMAS)?;
    check_rows(&rt, rt.alloc(), 9, SEARCHES)
}

#[test]
fn added_statements_have_their_first_fault(rt: HostRuntime) -> Result<(), Fail> {
    check_rows(&rt, rt.alloc(), 10, ADDED)
}

#[test]
fn names_and_lines_have_lengths(rt: HostRuntime) -> Result<(), Fail> {
    let alloc = rt.alloc();
    let station = repeated(alloc, "x", 64)?;
    let good = format!(in alloc; "LOCEXCLUDE {station} P\nLOCPHASEID P {station}\n")?;
    let bad = format!(in alloc; "LOCEXCLUDE x{station} P\n")?;
    let bad_code = format!(in alloc; "LOCPHASEID P P x{station}\n")?;
    assert!(rt; cause_at(alloc, 10, good.as_str())? == None);
    assert!(rt; cause_at(alloc, 10, bad.as_str())? == Some(ControlCause::Name));
    assert!(rt; cause_at(alloc, 10, bad_code.as_str())? == Some(ControlCause::Name));
    let file = repeated(alloc, "x", 255)?;
    let good = format!(in alloc; "LOCFILES {file} NLLOC_OBS {file} -\n")?;
    let bad = format!(in alloc; "LOCFILES o NLLOC_OBS x{file} -\n")?;
    assert!(rt; cause_at(alloc, 5, good.as_str())? == None);
    assert!(rt; cause_at(alloc, 5, bad.as_str())? == Some(ControlCause::Name));
    let long = repeated(alloc, "x", 4096)?;
    let blanks = repeated(alloc, " ", 4097)?;
    for (row, cause) in [
        (format!(in alloc; "{long}\n")?, None),
        (
            format!(in alloc; "x{long}\n")?,
            Some(ControlCause::LongLine),
        ),
        (
            format!(in alloc; "#{long}\n")?,
            Some(ControlCause::LongLine),
        ),
        (
            format!(in alloc; "{blanks}\n")?,
            Some(ControlCause::LongLine),
        ),
        (
            format!(in alloc; "LOCGAU2 {long}\n")?,
            Some(ControlCause::LongLine),
        ),
    ] {
        assert!(rt; cause_at(alloc, 10, row.as_str())? == cause);
    }
    Ok(())
}

#[test]
fn needed_statements_may_stand_once(rt: HostRuntime) -> Result<(), Fail> {
    let alloc = rt.alloc();
    for (number, keyword) in [
        (5, Keyword::Locfiles),
        (6, Keyword::Locgrid),
        (7, Keyword::Locmeth),
        (8, Keyword::Locgau),
    ] {
        let text = sample_with(alloc, number, "")?;
        let missing = ControlCause::Missing(keyword);
        assert!(rt; fault_of(alloc, text.as_str(), &[]) == Some((0, 0, missing)));
    }
    let first = ControlCause::Missing(Keyword::Locfiles);
    assert!(rt; fault_of(alloc, "# LOCFILES\n \nTRANS\n", &[]) == Some((0, 0, first)));
    for number in [2, 5, 6, 7, 8, 9] {
        let line = SAMPLE.get(number - 1).map_or("", |line| *line);
        let twice = format!(in alloc; "{line}\n{line}\n")?;
        let text = sample_with(alloc, number, twice.as_str())?;
        let again = Some((0, number as u32 + 1, ControlCause::Repeated));
        assert!(rt; fault_of(alloc, text.as_str(), &[]) == again, "at {line}");
    }
    for line in ["EDTNEAR 1", "EDTBUDGET 1", "EDTKERNEL GAUSS", "EDTLANES 3"] {
        let twice = format!(in alloc; "{line}\n{line} x\n")?;
        let text = sample_with(alloc, 10, twice.as_str())?;
        let again = Some((0, 11, ControlCause::Repeated));
        assert!(rt; fault_of(alloc, text.as_str(), &[]) == again, "at {line}");
    }
    Ok(())
}

#[test]
fn included_lines_stand_in_place_of_their_line(rt: HostRuntime) -> Result<(), Fail> {
    let alloc = rt.alloc();
    let grid = "LOCGRID 4 1 1 10.0 0.0 0.0 1.0 1.0 1.0\nXYZ\nLOCMETH EDT 9999.0 2 -1 -1 -1 0";
    let main = "LOCFILES o NLLOC_OBS t x\nINCLUDE grid.in\nLOCGAU 0.1\nABC\n";
    match read(alloc, main, &files_of(alloc, &[grid])?) {
        Ok(control) => {
            assert!(rt;
                (control.max_dist, control.budget, control.passed) == (9_999_000_000, 8, 2)
            );
        }
        Err(_) => assert!(rt; false),
    }
    let nested = files_of(alloc, &["INCLUDE\n"])?;
    assert!(rt; fault_of(alloc, main, &nested) == Some((1, 1, ControlCause::NestedInclude)));
    let gau = files_of(alloc, &[grid, "# a\n\nLOCGAU 2\nLOCGAU 3\n"])?;
    let both = "LOCFILES o NLLOC_OBS t x\nINCLUDE a\nINCLUDE b\nLOCGAU x\n";
    assert!(rt; fault_of(alloc, both, &gau) == Some((2, 4, ControlCause::Repeated)));
    let gau = files_of(alloc, &["LOCGAU 2\n", "EDTNEAR 1\nEDTNEAR\n"])?;
    let after = "INCLUDE a\nLOCGAU 2\nINCLUDE b\n";
    assert!(rt; fault_of(alloc, after, &gau) == Some((0, 2, ControlCause::Repeated)));
    let before = "LOCGAU 2\nINCLUDE a\nINCLUDE b\n";
    assert!(rt; fault_of(alloc, before, &gau) == Some((1, 1, ControlCause::Repeated)));
    Ok(())
}

#[test]
fn a_carriage_return_is_a_blank(rt: HostRuntime) -> Result<(), Fail> {
    let alloc = rt.alloc();
    let mut text = String::new(alloc);
    for line in SAMPLE {
        text.push_str(line)?;
        text.push_str("\r\n")?;
    }
    assert!(rt; fault_of(alloc, text.as_str(), &[]) == None);
    let names = include_names(alloc, b"INCLUDE a.in\r\n\tINCLUDE b.in extra");
    match names {
        Ok(names) => {
            let mut all = String::new(alloc);
            for name in &names {
                all.push_str(name.as_str())?;
                all.push_str(" ")?;
            }
            assert_eq!(rt; all.as_str(), "a.in b.in ");
        }
        Err(_) => assert!(rt; false),
    }
    Ok(())
}

// The first fault of the names that a main file includes, at its line.
fn name_fault(alloc: Global, main: &str) -> Option<(u32, u32, ControlCause)> {
    if main.len() > 1_048_576 {
        return None;
    }
    match include_names(alloc, main.as_bytes()) {
        Ok(_) => None,
        Err(fault) => Some((fault.file, fault.line, fault.cause)),
    }
}

#[test]
fn sixteen_files_may_be_included(rt: HostRuntime) -> Result<(), Fail> {
    let alloc = rt.alloc();
    let lines = repeated(alloc, "INCLUDE c.in\n", 16)?;
    let text = sample_with(alloc, 10, lines.as_str())?;
    let more = format!(in alloc; "{text}INCLUDE c.in\nINCLUDE\n")?;
    assert!(rt; name_fault(alloc, text.as_str()) == None);
    assert!(rt; name_fault(alloc, more.as_str()) == Some((0, 26, ControlCause::Limit)));
    let mut files = Vec::new(alloc);
    for _ in 0..16 {
        files.push(b"XYZ\nXYZ".to_vec(alloc)?)?;
    }
    match read(alloc, text.as_str(), &files) {
        Ok(control) => assert_eq!(rt; control.passed, 34),
        Err(_) => assert!(rt; false),
    }
    Ok(())
}

#[test]
fn only_lines_that_include_are_looked_at_for_names(rt: HostRuntime) -> Result<(), Fail> {
    let alloc = rt.alloc();
    let file = repeated(alloc, "x", 255)?;
    let long = repeated(alloc, "x", 4096)?;
    for (text, fault) in [
        (format!(in alloc; "LOCGRID\n{long}x\nINCLUDE {file}")?, None),
        (
            format!(in alloc; "\nINCLUDE x{file}\nINCLUDE")?,
            Some((0, 2, ControlCause::Name)),
        ),
        (
            format!(in alloc; "#\nINCLUDE\n")?,
            Some((0, 2, ControlCause::Fields)),
        ),
        (
            format!(in alloc; "INCLUDE a {long}\n")?,
            Some((0, 1, ControlCause::LongLine)),
        ),
        (
            format!(in alloc; "INCLUDES\nINCLUDE a\x7f\n")?,
            Some((0, 2, ControlCause::Name)),
        ),
    ] {
        assert!(rt; name_fault(alloc, text.as_str()) == fault);
    }
    Ok(())
}
