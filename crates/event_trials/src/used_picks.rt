//! Worked picks: each rule at its last good and first bad value. The expected values were found apart from this code.
ghost use Rattle.std.specs.Prelude.{◌≡◌, ◌≤◌, ◌^◌, pos, unsigned_abs, IfOk, OnOk, IsTrue, All, length};
ghost use Rattle.text_terms.specs.Names.{is_name};
ghost use Rattle.control_reader.specs.Limits.{IsControl, IsDelay};
ghost use Rattle.phase_reader.specs.Limits.{IsPick, IsEvent};
ghost use Rattle.station_table.specs.Limits.{HoldsKeysOf, IsPlace};

use control_reader::{Alias, Control, Delay, Exclude, PhaseId};
use edt_text::Name;
use kernel_table::Shape;
use node_boxes::{Frame, Grid};
use phase_reader::{Event, Pick};
use station_table::{KeyTable, Picks, Place, use_picks, wanted};
use std::alloc::Global;
use std::test::Fail;

// The middle of the search grid of these tests, in millimetres.
const MIDDLE: Place = Place::At { x: 1000, y: 500 };

// What these tests vary of a pick. Its time is 0.
#[derive(Clone, Copy)]
struct Row<'a> {
    station: &'a str,
    phase: &'a str,
    day: (i64, i64, i64),
    error: i64,
    weight: i64,
}

fn usual<'a>(station: &'a str, phase: &'a str) -> Row<'a> {
    Row {
        station,
        phase,
        day: (2000, 1, 1),
        error: 0,
        weight: 1000,
    }
}

fn name(alloc: Global, text: &str) -> Result<Name, Fail>
    ensures short { IfOk result (λ name. IsTrue (is_name 64 name)) }
    ensures long { IfOk result (λ name. IsTrue (is_name 255 name)) }
{
    if text.len() > 64 {
        return Err(Fail::from("a long name"));
    }
    Ok(Name::new(alloc, text.as_bytes())?)
}

// A control whose lists are empty and that limits nothing.
fn plain_control(alloc: Global) -> Result<Control, Fail>
    ensures { IfOk result IsControl }
{
    let grid = Grid::new(3, 2, 1).ok_or("a grid")?;
    Ok(Control {
        obs_file: name(alloc, "picks.obs")?,
        time_root: name(alloc, "time/layer")?,
        swap: false,
        frame: Frame {
            grid,
            ox: 0,
            oy: 0,
            oz: 0,
            dx: 1000,
            dy: 1000,
            dz: 1000,
        },
        max_dist: 0,
        min_dist: 0,
        min_phases: 0,
        max_phases: 0,
        min_s: 0,
        vpvs: 0,
        reject_duplicates: false,
        sigma: 0,
        cells: (1, 1, 1),
        phase_ids: Vec::new(alloc),
        excludes: Vec::new(alloc),
        delays: Vec::new(alloc),
        aliases: Vec::new(alloc),
        seed: 0,
        margin: 0,
        budget: 1,
        shape: Shape::Gauss,
        lanes: 1,
        passed: 0,
    })
}

fn add_alias(
    alloc: Global,
    control: &mut Control,
    station: &str,
    alias: &str,
    days: [(i64, i64, i64); 2],
) -> Result<(), Fail>
    requires { IsControl control.old }
    ensures { OnOk result (IsControl control.new) }
{
    let [from, to] = days;
    control.aliases.push(Alias {
        station: name(alloc, station)?,
        alias: name(alloc, alias)?,
        from,
        to,
    })?;
    Ok(())
}

fn add_phase_id(
    alloc: Global,
    control: &mut Control,
    standard: &str,
    code: &str,
) -> Result<(), Fail>
    requires { IsControl control.old }
    ensures { OnOk result (IsControl control.new) }
{
    control.phase_ids.push(PhaseId {
        standard: name(alloc, standard)?,
        code: name(alloc, code)?,
    })?;
    Ok(())
}

fn add_exclude(alloc: Global, control: &mut Control, station: &str, phase: &str) -> Result<(), Fail>
    requires { IsControl control.old }
    ensures { OnOk result (IsControl control.new) }
{
    control.excludes.push(Exclude {
        station: name(alloc, station)?,
        phase: name(alloc, phase)?,
    })?;
    Ok(())
}

fn delay_of(alloc: Global, station: &str, phase: &str, delay: i64) -> Result<Delay, Fail>
    requires { unsigned_abs delay ≤ 10 ^ 10 }
    ensures { IfOk result IsDelay }
{
    Ok(Delay {
        station: name(alloc, station)?,
        phase: name(alloc, phase)?,
        delay,
    })
}

fn add_delay(
    alloc: Global,
    control: &mut Control,
    station: &str,
    phase: &str,
    delay: i64,
) -> Result<(), Fail>
    requires control { IsControl control.old }
    requires delay { unsigned_abs delay ≤ 10 ^ 10 }
    ensures { OnOk result (IsControl control.new) }
{
    control
        .delays
        .push(delay_of(alloc, station, phase, delay)?)?;
    Ok(())
}

fn pick_of(alloc: Global, line: u32, row: &Row) -> Result<Pick, Fail>
    ensures limits { IfOk result IsPick }
    ensures time { IfOk result (λ pick. pick.time ≡ pos 0) }
{
    if row.error.unsigned_abs() > 1_000_000_000_000
        || row.weight.unsigned_abs() > 1_000_000_000_000
    {
        return Err(Fail::from("a pick past its limits"));
    }
    Ok(Pick {
        line,
        station: name(alloc, row.station)?,
        phase: name(alloc, row.phase)?,
        day: row.day,
        time: 0,
        error: row.error,
        weight: row.weight,
    })
}

// The event of these picks, whose lines are numbered from 1.
fn event_of(alloc: Global, rows: &[Row]) -> Result<Event, Fail>
    ensures { IfOk result IsEvent }
{
    if rows.is_empty() {
        return Err(Fail::from("no pick"));
    }
    if rows.len() > 4096 {
        return Err(Fail::from("too many picks"));
    }
    let mut picks = Vec::new(alloc);
    for row in rows {
        let line = u32::try_from(picks.len())?.saturating_add(1);
        picks.push(pick_of(alloc, line, row)?)?;
    }
    Ok(Event { picks })
}

// What is decided of the picks of an event, the used ones first. All sources are at this place, but the station X has no grids.
fn decided(alloc: Global, control: &Control, place: Place, rows: &[Row]) -> Result<String, Fail>
    requires control { IsControl control.now }
    requires place { IsPlace place }
{
    let events = vec![in alloc; event_of(alloc, rows)?]?;
    let keys = wanted(alloc, control, &events)?;
    if keys.len() > 4096 {
        return Err(Fail::from("many keys"));
    }
    let mut places = Vec::new(alloc);
    for key in &keys {
        let is_absent = key.station.as_str() == "X";
        places.push(if is_absent { Place::Absent } else { place })?;
    }
    let picks = use_picks(alloc, control, &events[0], &keys, &places)?;
    text_of(alloc, &picks)
}

// Of a used pick its line, station, phase, time, weight, variance and key, and of another one its line, station, phase and reason.
fn text_of(alloc: Global, picks: &Picks) -> Result<String, Fail> {
    let mut text = String::new(alloc);
    for pick in &picks.used {
        let (station, phase) = (pick.station.as_str(), pick.phase.as_str());
        let (line, time, weight) = (pick.line, pick.time, pick.weight);
        let (variance, key) = (pick.variance, pick.key);
        let part = format!(in alloc; "{line} {station} {phase} {time} {weight} {variance} {key};")?;
        text.push_str(part.as_str())?;
    }
    for skip in &picks.skipped {
        let (station, phase) = (skip.station.as_str(), skip.phase.as_str());
        let (line, reason) = (skip.line, skip.reason);
        let part = format!(in alloc; "{line} {station} {phase} {reason:?};")?;
        text.push_str(part.as_str())?;
    }
    Ok(text)
}

// The wanted keys of events, in order.
fn wanted_text(alloc: Global, control: &Control, events: &[Event]) -> Result<String, Fail>
    requires control { IsControl control.now }
    requires events { All IsEvent events.now }
{
    let mut text = String::new(alloc);
    for key in &wanted(alloc, control, events)? {
        let (station, phase) = (key.station.as_str(), key.phase.as_str());
        let (grid_phase, converted) = (key.grid_phase.as_str(), key.converted);
        let part = format!(in alloc; "{station} {phase} {grid_phase} {converted};")?;
        text.push_str(part.as_str())?;
    }
    Ok(text)
}

#[test]
fn aliases_hold_within_their_days(rt: HostRuntime) -> Result<(), Fail> {
    let alloc = rt.alloc();
    let mut control = plain_control(alloc)?;
    add_alias(alloc, &mut control, "A", "B", [(2000, 1, 10), (2000, 3, 5)])?;
    let rows = [
        ((2000, 1, 9), "A"),
        ((2000, 1, 10), "B"),
        ((2000, 2, 31), "B"),
        ((2000, 3, 5), "B"),
        ((2000, 3, 6), "A"),
        ((1999, 2, 20), "A"),
        ((2001, 2, 20), "A"),
    ];
    for (day, station) in rows {
        let row = Row {
            day,
            ..usual("A", "P")
        };
        let expected = format!(in alloc; "1 {station} P 0 1000 0 0;")?;
        assert_eq!(rt; decided(alloc, &control, MIDDLE, &[row])?, expected);
    }
    Ok(())
}

#[test]
fn the_first_alias_holds_and_is_not_looked_up_again(rt: HostRuntime) -> Result<(), Fail> {
    let alloc = rt.alloc();
    let mut control = plain_control(alloc)?;
    let days = [(2000, 1, 1), (2000, 1, 1)];
    add_alias(alloc, &mut control, "A", "B", days)?;
    add_alias(alloc, &mut control, "A", "C", days)?;
    add_alias(alloc, &mut control, "B", "D", days)?;
    let rows = [usual("A", "P"), usual("B", "P"), usual("C", "P")];
    assert_eq!(rt;
        decided(alloc, &control, MIDDLE, &rows)?.as_str(),
        "1 B P 0 1000 0 0;2 D P 0 1000 0 1;3 C P 0 1000 0 2;"
    );
    Ok(())
}

#[test]
fn phase_words_have_standard_phases(rt: HostRuntime) -> Result<(), Fail> {
    let alloc = rt.alloc();
    let mut control = plain_control(alloc)?;
    add_phase_id(alloc, &mut control, "P", "Pn")?;
    add_phase_id(alloc, &mut control, "S", "Pn")?;
    add_phase_id(alloc, &mut control, "Z", "P")?;
    let rows = [usual("A", "Pn"), usual("A", "P"), usual("A", "p")];
    assert_eq!(rt;
        decided(alloc, &control, MIDDLE, &rows)?.as_str(),
        "1 A P 0 1000 0 0;2 A Z 0 1000 0 1;3 A p 0 1000 0 2;"
    );
    Ok(())
}

#[test]
fn exclusions_name_either_phase(rt: HostRuntime) -> Result<(), Fail> {
    let alloc = rt.alloc();
    let mut control = plain_control(alloc)?;
    add_alias(alloc, &mut control, "C", "B", [(2000, 1, 1), (2000, 1, 1)])?;
    add_phase_id(alloc, &mut control, "P", "Pn")?;
    add_exclude(alloc, &mut control, "A", "Pn")?;
    add_exclude(alloc, &mut control, "B", "P")?;
    let rows = [
        usual("A", "Pn"),
        usual("A", "P"),
        usual("B", "Pn"),
        usual("C", "P"),
        usual("B", "S"),
    ];
    assert_eq!(rt;
        decided(alloc, &control, MIDDLE, &rows)?.as_str(),
        "2 A P 0 1000 0 0;5 B S 0 1000 0 1;1 A P Excluded;3 B P Excluded;4 B P Excluded;"
    );
    Ok(())
}

#[test]
fn weights_and_errors_have_limits(rt: HostRuntime) -> Result<(), Fail> {
    let alloc = rt.alloc();
    let mut control = plain_control(alloc)?;
    control.sigma = 3;
    let rows = [
        (1, 0, "1 A P 0 1 9 0;"),
        (0, 0, "1 A P Weight0;"),
        (-1, -1, "1 A P Weight0;"),
        (2000, 4, "1 A P 0 2000 25 0;"),
        (2001, 0, "1 A P 0 2000 9 0;"),
        (1000, 100_000_000, "1 A P 0 1000 10000000000000009 0;"),
        (1000, 100_000_001, "1 A P ErrMag;"),
        (1000, -1, "1 A P ErrMag;"),
    ];
    for (weight, error, expected) in rows {
        let row = Row {
            weight,
            error,
            ..usual("A", "P")
        };
        assert_eq!(rt;
            decided(alloc, &control, MIDDLE, &[row])?.as_str(),
            expected
        );
    }
    Ok(())
}

#[test]
fn duplicates_look_back_at_wanted_picks(rt: HostRuntime) -> Result<(), Fail> {
    let alloc = rt.alloc();
    let mut control = plain_control(alloc)?;
    add_phase_id(alloc, &mut control, "P", "Pn")?;
    add_exclude(alloc, &mut control, "A", "Pn")?;
    let no_weight = Row {
        weight: 0,
        ..usual("B", "P")
    };
    let rows = [
        usual("A", "Pn"),
        usual("A", "P"),
        usual("A", "P"),
        usual("A", "S"),
        no_weight,
        usual("B", "P"),
        usual("X", "P"),
        usual("X", "Pn"),
    ];
    assert_eq!(rt;
        decided(alloc, &control, MIDDLE, &rows)?.as_str(),
        "2 A P 0 1000 0 0;3 A P 0 1000 0 0;4 A S 0 1000 0 1;6 B P 0 1000 0 2;1 A P Excluded;5 B P Weight0;7 X P NoGrid;8 X P NoGrid;"
    );
    control.reject_duplicates = true;
    assert_eq!(rt;
        decided(alloc, &control, MIDDLE, &rows)?.as_str(),
        "2 A P 0 1000 0 0;4 A S 0 1000 0 1;6 B P 0 1000 0 2;1 A P Excluded;3 A P Duplicate;5 B P Weight0;7 X P NoGrid;8 X P Duplicate;"
    );
    Ok(())
}

// What a table decides of the picks of events, one after the other.
fn decided_by(alloc: Global, table: &mut KeyTable, events: &[Event]) -> Result<String, Fail>
    requires events { All IsEvent events.now }
    requires holds { All (λ event. HoldsKeysOf table.old.control table.old.keys event.picks.items) events.now }
{
    let mut text = String::new(alloc);
    for event in events {
        let picks = table.use_picks(alloc, event)?;
        text.push_str(text_of(alloc, &picks)?.as_str())?;
    }
    Ok(text)
}

// What one table decides of events whose sources are all in the middle of the search grid.
fn decided_in_turn(alloc: Global, control: &Control, events: &[Event]) -> Result<String, Fail>
    requires control { IsControl control.now }
    requires events { All IsEvent events.now }
{
    let keys = wanted(alloc, control, events)?;
    if keys.len() > 4096 {
        return Err(Fail::from("many keys"));
    }
    let places = vec![in alloc; MIDDLE; keys.len()]?;
    let mut table = KeyTable::new(alloc, control, &keys, &places)?;
    decided_by(alloc, &mut table, events)
}

#[test]
fn one_table_serves_events_that_share_no_duplicates(rt: HostRuntime) -> Result<(), Fail> {
    let alloc = rt.alloc();
    let mut control = plain_control(alloc)?;
    control.reject_duplicates = true;
    let first = event_of(alloc, &[usual("A", "P"), usual("B", "P"), usual("A", "P")])?;
    let second = event_of(alloc, &[usual("A", "P"), usual("B", "S")])?;
    let third = event_of(alloc, &[usual("B", "S"), usual("B", "P")])?;
    let events = vec![in alloc; first, second, third]?;
    assert_eq!(rt;
        decided_in_turn(alloc, &control, &events)?.as_str(),
        "1 A P 0 1000 0 0;2 B P 0 1000 0 1;3 A P Duplicate;1 A P 0 1000 0 0;2 B S 0 1000 0 2;1 B S 0 1000 0 2;2 B P 0 1000 0 1;"
    );
    Ok(())
}

// What is decided of a pick whose source is 5 m from the middle of the search grid, with these limits of the distance.
fn decided_within(alloc: Global, max_dist: i64, min_dist: i64) -> Result<String, Fail> {
    if max_dist.unsigned_abs() > 10_000 {
        return Err(Fail::from("a large greatest distance"));
    }
    if min_dist.unsigned_abs() > 10_000 {
        return Err(Fail::from("a large least distance"));
    }
    let mut control = plain_control(alloc)?;
    control.max_dist = max_dist;
    control.min_dist = min_dist;
    let place = Place::At { x: 4000, y: 4500 };
    decided(alloc, &control, place, &[usual("A", "P")])
}

#[test]
fn distances_have_both_limits(rt: HostRuntime) -> Result<(), Fail> {
    let rows = [
        (5000, 0, "1 A P 0 1000 0 0;"),
        (4999, 0, "1 A P Far;"),
        (0, 5000, "1 A P 0 1000 0 0;"),
        (0, 5001, "1 A P Far;"),
        (0, 0, "1 A P 0 1000 0 0;"),
        (-1, -1, "1 A P 0 1000 0 0;"),
        (5000, 5000, "1 A P 0 1000 0 0;"),
    ];
    for (max_dist, min_dist, expected) in rows {
        let text = decided_within(rt.alloc(), max_dist, min_dist)?;
        assert_eq!(rt; text.as_str(), expected);
    }
    Ok(())
}

#[test]
fn the_first_ones_of_too_many_are_used(rt: HostRuntime) -> Result<(), Fail> {
    let alloc = rt.alloc();
    let mut control = plain_control(alloc)?;
    let rows = [
        usual("X", "P"),
        usual("A", "P"),
        usual("B", "P"),
        usual("X", "S"),
    ];
    control.max_phases = 1;
    assert_eq!(rt;
        decided(alloc, &control, MIDDLE, &rows)?.as_str(),
        "2 A P 0 1000 0 1;1 X P NoGrid;3 B P BeyondMax;4 X S NoGrid;"
    );
    control.max_phases = 2;
    assert_eq!(rt;
        decided(alloc, &control, MIDDLE, &rows)?.as_str(),
        "2 A P 0 1000 0 1;3 B P 0 1000 0 2;1 X P NoGrid;4 X S NoGrid;"
    );
    Ok(())
}

#[test]
fn the_first_delay_is_taken(rt: HostRuntime) -> Result<(), Fail> {
    let alloc = rt.alloc();
    let mut control = plain_control(alloc)?;
    add_phase_id(alloc, &mut control, "P", "Pn")?;
    add_delay(alloc, &mut control, "A", "P", 250_000)?;
    add_delay(alloc, &mut control, "A", "P", 1)?;
    add_delay(alloc, &mut control, "B", "S", -7)?;
    let rows = [
        usual("A", "Pn"),
        usual("A", "S"),
        usual("B", "P"),
        usual("B", "S"),
    ];
    assert_eq!(rt;
        decided(alloc, &control, MIDDLE, &rows)?.as_str(),
        "1 A P -250000 1000 0 0;2 A S 0 1000 0 1;3 B P 0 1000 0 2;4 B S 7 1000 0 3;"
    );
    Ok(())
}

#[test]
fn keys_are_wanted_once_each_in_order(rt: HostRuntime) -> Result<(), Fail> {
    let alloc = rt.alloc();
    let mut control = plain_control(alloc)?;
    control.vpvs = 1_730_000;
    add_exclude(alloc, &mut control, "C", "P")?;
    let first = [
        usual("B", "S"),
        usual("A", "P"),
        usual("C", "P"),
        usual("B", "P"),
    ];
    let second = [usual("A", "P"), usual("C", "S"), usual("B", "S")];
    let events = vec![in alloc; event_of(alloc, &first)?, event_of(alloc, &second)?]?;
    assert_eq!(rt;
        wanted_text(alloc, &control, &events)?.as_str(),
        "B S P true;A P P false;B P P false;C S P true;"
    );
    control.vpvs = 0;
    assert_eq!(rt;
        wanted_text(alloc, &control, &events)?.as_str(),
        "B S S false;A P P false;B P P false;C S S false;"
    );
    Ok(())
}
