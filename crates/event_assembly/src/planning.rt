//! What is settled before any body is read.
ghost use Rattle.std.specs.Prelude.{◌≡◌, ◌<◌, ◌^◌, IfOk, IfSome, All, length};
ghost use Rattle.grid_header.specs.Reading.{IsValidHeader};
ghost use Rattle.control_reader.specs.ControlValues.{values_of};
ghost use Rattle.control_reader.specs.Limits.{IsControl};
ghost use Rattle.phase_reader.specs.Limits.{IsEvent};
ghost use Rattle.phase_reader.specs.PhaseFile.{picks_of_events};
ghost use Rattle.station_table.specs.Limits.{HoldsKeysOf, KeysDiffer};
ghost use Rattle.event_assembly.specs.Inside.Planning.{IsPlan, place_of_header, places_of_headers};

use crate::assembly::Prepared;
use crate::deciding::decide;
use crate::problems::prepare;
use crate::rows::{Rows, mark_keys};
use control_reader::Control;
use grid_header::Header;
use phase_reader::Event;
use station_table::{GridKey, Place};
use std::alloc::{AllocError, Global};

/// The rows, and the events with their problems.
#[derive(Drop)]
pub(crate) struct Plan {
    /// The number of the key of each row.
    pub rows: Vec<u32>,
    /// The events.
    pub events: Vec<Prepared>,
}

impl Plan {
    /// The plan by the headers of the wanted keys. Running out of memory is the only refusal.
    pub fn new(
        alloc: Global,
        control: &Control,
        events: &[Event],
        keys: &[GridKey],
        headers: &[Option<Header>],
    ) -> Result<Plan, AllocError>
        requires control { IsControl control.now }
        requires events { All IsEvent events.now }
        requires few { length keys.now < 2 ^ 32 }
        requires differ { KeysDiffer keys.now }
        requires holds { All (λ event. HoldsKeysOf (values_of control.now) keys.now event.picks.items) events.now }
        requires one_each { length headers.now ≡ length keys.now }
        requires valid { All (λ header. IfSome header IsValidHeader) headers.now }
        ensures { IfOk result (IsPlan (values_of control.now) keys.now headers.now (picks_of_events events.now)) }
    {
        let places = places_of(alloc, headers)?;
        let decided = decide(alloc, control, events, keys, &places)?;
        let marks = mark_keys(alloc, control, keys.len(), &decided)?;
        let rows = Rows::of_marks(alloc, &marks)?;
        let events = prepare(alloc, control, decided, &rows.row_of_key)?;
        Ok(Plan {
            rows: rows.keys,
            events,
        })
    }
}

// Where the sources of headers are.
fn places_of(alloc: Global, headers: &[Option<Header>]) -> Result<Vec<Place>, AllocError>
    ensures { IfOk result (λ places. places.items ≡ places_of_headers headers.now) }
{
    let mut places = Vec::with_capacity(alloc, headers.len())?;
    for header in headers {
        places.push(place_of(header))?;
    }
    Ok(places)
}

// Where the source of a header is.
fn place_of(header: &Option<Header>) -> Place
    ensures { result ≡ place_of_header header.now }
{
    match header {
        Some(header) => Place::At {
            x: header.sx,
            y: header.sy,
        },
        None => Place::Absent,
    }
}
