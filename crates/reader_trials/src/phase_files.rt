//! Worked lines and files, and each limit at its last good and first bad value. The expected values were found apart from this code.
use phase_reader::{PhaseCause, read_phases};
use std::alloc::Global;
use std::test::Fail;

// The pick that many files here repeat, with its line feed.
const PICK: &str = "A ? ? ? P ? 20000101 0000 0 GAU 0\n";

// The first fault of a file, and `None` where it has a reading.
fn fault_of(alloc: Global, bytes: &[u8]) -> Option<(u32, PhaseCause)> {
    if bytes.len() > 16_777_216 {
        return None;
    }
    match read_phases(alloc, bytes) {
        Ok(_) => None,
        Err(fault) => Some((fault.line, fault.cause)),
    }
}

// How many events and passed lines a file has, and how many picks the first event and the last.
fn shape_of(alloc: Global, bytes: &[u8]) -> Option<(usize, u32, usize, usize)> {
    if bytes.len() > 16_777_216 {
        return None;
    }
    match read_phases(alloc, bytes) {
        Ok(phases) => {
            let first = phases.events.first().map(|event| event.picks.len());
            let last = phases.events.last().map(|event| event.picks.len());
            Some((
                phases.events.len(),
                phases.passed,
                first.unwrap_or(0),
                last.unwrap_or(0),
            ))
        }
        Err(_) => None,
    }
}

// Time, error and weight of the first pick of a file.
fn values_of(alloc: Global, bytes: &[u8]) -> Option<(i64, i64, i64)> {
    if bytes.len() > 16_777_216 {
        return None;
    }
    match read_phases(alloc, bytes) {
        Ok(phases) => {
            let pick = phases.events.first()?.picks.first()?;
            Some((pick.time, pick.error, pick.weight))
        }
        Err(_) => None,
    }
}

// A file of a pick with these words for date, hour and minute, and seconds, and with this end.
fn pick_line(
    alloc: Global,
    date: &str,
    clock: &str,
    seconds: &str,
    end: &str,
) -> Result<String, Fail> {
    Ok(format!(in alloc; "A ? ? ? P ? {date} {clock} {seconds} GAU {end}")?)
}

// So many times the same text.
fn repeated(alloc: Global, text: &str, count: u32) -> Result<String, Fail> {
    let mut all = String::new(alloc);
    for _ in 0..count {
        all.push_str(text)?;
    }
    Ok(all)
}

#[test]
fn a_usual_line_is_read(rt: HostRuntime) -> Result<(), Fail> {
    let line = b"GRX ? ? ? P U 19940217 2216 44.9200 GAU 2.00e-02 -1.00e+00 -1.00e+00 -1.00e+00";
    match read_phases(rt.alloc(), line) {
        Ok(phases) => {
            assert_eq!(rt; phases.events.len(), 1);
            for event in &phases.events {
                for pick in &event.picks {
                    assert_eq!(rt; pick.line, 1);
                    assert_eq!(rt; pick.station.as_str(), "GRX");
                    assert_eq!(rt; pick.phase.as_str(), "P");
                    assert!(rt; pick.day == (1994, 2, 17));
                }
            }
        }
        Err(_) => assert!(rt; false),
    }
    assert!(rt; values_of(rt.alloc(), line) == Some((761_523_404_920_000, 20_000, 1000)));
    Ok(())
}

#[test]
fn seconds_and_weights_are_read(rt: HostRuntime) -> Result<(), Fail> {
    let rows = [
        (
            "19941231",
            "2359",
            "62.5",
            "0.1",
            788_918_402_500_000,
            100_000,
            1000,
        ),
        ("19700101", "0000", "0", "-1", 0, -1_000_000, 1000),
        ("19700101", "0000", "-0.0000004", "0 ? ? ? 2.0", 0, 0, 2000),
        (
            "19700101",
            "0001",
            "999.999999",
            "0 ? ? ? 0.0009 ?",
            1_059_999_999,
            0,
            0,
        ),
        ("19691231", "2359", "59.999999", "0 ? ? ? -1", -1, 0, -1000),
        (
            "20240229",
            "0000",
            "0",
            "0 ? ? ? -0.0009",
            1_709_164_800_000_000,
            0,
            -1,
        ),
        ("20000229", "0000", "0", "0", 951_782_400_000_000, 0, 1000),
        (
            "10000101",
            "0000",
            "0",
            "0",
            -30_610_224_000_000_000,
            0,
            1000,
        ),
        (
            "99981231",
            "2359",
            "0",
            "0",
            253_370_764_740_000_000,
            0,
            1000,
        ),
    ];
    for (date, clock, seconds, end, time, error, weight) in rows {
        let line = pick_line(rt.alloc(), date, clock, seconds, end)?;
        assert!(rt;
            values_of(rt.alloc(), line.as_bytes()) == Some((time, error, weight)),
            "at {date} {seconds} {end}"
        );
    }
    Ok(())
}

#[test]
fn blank_lines_part_events(rt: HostRuntime) -> Result<(), Fail> {
    let text = format!(in rt.alloc(); "{PICK}# note\n{PICK}\n \n{PICK}PUBLIC_ID smi:local/1\n")?;
    assert!(rt; shape_of(rt.alloc(), text.as_bytes()) == Some((2, 1, 2, 1)));
    assert!(rt; shape_of(rt.alloc(), b"") == Some((0, 0, 0, 0)));
    assert!(rt; shape_of(rt.alloc(), b"\n# note\n\nPUBLIC_ID\n\n") == Some((0, 1, 0, 0)));
    Ok(())
}

#[test]
fn first_faults_are_named(rt: HostRuntime) -> Result<(), Fail> {
    let rows = [
        ("A ? ? ? P ? 20000101 0000 0 GAU", PhaseCause::Fields),
        ("A\x7f ? ? ? P ? 2000 0000 0 GAU 0", PhaseCause::Name),
        ("A ? ? ? P\x01 ? 2000 0000 0 GAU 0", PhaseCause::Name),
        ("A ? ? ? P ? 09991231 0000 0 GAU 0", PhaseCause::Date),
        ("A ? ? ? P ? 99990101 0000 0 GAU 0", PhaseCause::Date),
        ("A ? ? ? P ? 19940230 0000 0 GAU 0", PhaseCause::Date),
        ("A ? ? ? P ? 19000229 0000 0 GAU 0", PhaseCause::Date),
        ("A ? ? ? P ? 20230229 0000 0 GAU 0", PhaseCause::Date),
        ("A ? ? ? P ? 2000010x 2400 0 GAU 0", PhaseCause::Date),
        ("A ? ? ? P ? 20000101 2400 0 GAU 0", PhaseCause::Time),
        ("A ? ? ? P ? 20000101 0060 0 GAU 0", PhaseCause::Time),
        ("A ? ? ? P ? 20000101 0000 x GAU 0", PhaseCause::Number),
        ("A ? ? ? P ? 20000101 0000 1000 GAU 0", PhaseCause::Time),
        (
            "A ? ? ? P ? 20000101 0000 999.9999999 GAU 0",
            PhaseCause::Time,
        ),
        ("A ? ? ? P ? 20000101 0000 -1 GAU 0", PhaseCause::Time),
        ("A ? ? ? P ? 20000101 0000 0 BOX x", PhaseCause::ErrorType),
        ("A ? ? ? P ? 20000101 0000 0 GAU x", PhaseCause::Number),
        (
            "A ? ? ? P ? 20000101 0000 0 GAU 0 ? ? ? 1e30",
            PhaseCause::Number,
        ),
    ];
    for (line, cause) in rows {
        let text = format!(in rt.alloc(); "{PICK}# note\n{line}\nA\n")?;
        assert!(rt;
            fault_of(rt.alloc(), text.as_bytes()) == Some((3, cause)),
            "at {line}"
        );
    }
    Ok(())
}

#[test]
fn lines_and_names_have_lengths(rt: HostRuntime) -> Result<(), Fail> {
    let long = repeated(rt.alloc(), "x", 4095)?;
    let good = format!(in rt.alloc(); "#{long}\n")?;
    let bad = format!(in rt.alloc(); "\n##{long}\n")?;
    assert!(rt; fault_of(rt.alloc(), good.as_bytes()) == None);
    assert!(rt; fault_of(rt.alloc(), bad.as_bytes()) == Some((2, PhaseCause::LongLine)));
    let name = repeated(rt.alloc(), "x", 64)?;
    let good = format!(in rt.alloc(); "{name} ? ? ? P ? 20000101 0000 0 GAU 0")?;
    let bad = format!(in rt.alloc(); "x{good}")?;
    assert!(rt; fault_of(rt.alloc(), good.as_bytes()) == None);
    assert!(rt; fault_of(rt.alloc(), bad.as_bytes()) == Some((1, PhaseCause::Name)));
    Ok(())
}

#[test]
fn events_have_limits(rt: HostRuntime) -> Result<(), Fail> {
    let parted = format!(in rt.alloc(); "{PICK}\n")?;
    let good = repeated(rt.alloc(), parted.as_str(), 10_000)?;
    let bad = format!(in rt.alloc(); "{good}{PICK}")?;
    assert!(rt; shape_of(rt.alloc(), good.as_bytes()) == Some((10_000, 0, 1, 1)));
    assert!(rt; fault_of(rt.alloc(), bad.as_bytes()) == Some((20_001, PhaseCause::Limit)));
    let good = repeated(rt.alloc(), PICK, 4096)?;
    let bad = format!(in rt.alloc(); "{good}{PICK}")?;
    assert!(rt; shape_of(rt.alloc(), good.as_bytes()) == Some((1, 0, 4096, 4096)));
    assert!(rt; fault_of(rt.alloc(), bad.as_bytes()) == Some((4097, PhaseCause::Limit)));
    Ok(())
}

#[test]
fn picks_of_an_event_lie_near_its_first(rt: HostRuntime) -> Result<(), Fail> {
    let good = pick_line(rt.alloc(), "20000112", "1346", "40", "0")?;
    let bad = pick_line(rt.alloc(), "20000112", "1346", "40.000001", "0")?;
    let near = format!(in rt.alloc(); "{PICK}{good}\n\n{bad}")?;
    let far = format!(in rt.alloc(); "{PICK}{bad}")?;
    let before = format!(in rt.alloc(); "{good}\n{PICK}")?;
    let far_before = format!(in rt.alloc(); "{bad}\n{PICK}")?;
    assert!(rt; shape_of(rt.alloc(), near.as_bytes()) == Some((2, 0, 2, 1)));
    assert!(rt; fault_of(rt.alloc(), far.as_bytes()) == Some((2, PhaseCause::Limit)));
    assert!(rt; fault_of(rt.alloc(), before.as_bytes()) == None);
    assert!(rt; fault_of(rt.alloc(), far_before.as_bytes()) == Some((2, PhaseCause::Limit)));
    Ok(())
}

#[test]
fn a_file_of_many_lines_is_read(rt: HostRuntime) -> Result<(), Fail> {
    let event = repeated(rt.alloc(), PICK, 3999)?;
    let part = format!(in rt.alloc(); "{event}\n")?;
    let all = repeated(rt.alloc(), part.as_str(), 50)?;
    assert!(rt; shape_of(rt.alloc(), all.as_bytes()) == Some((50, 0, 3999, 3999)));
    Ok(())
}
