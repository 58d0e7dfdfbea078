//! The picks of an event, decided one after the other.
ghost use Rattle.std.specs.Prelude.{◌≡◌, ◌≤◌, ◌<◌, ◌^◌, ◌+◌, ◌*◌, false, min, pos, int_lt, All, length, replicate, unsigned_abs, None, IsTrue, IfOk, OnOk};
ghost use Rattle.std.specs.List.{AllPairs};
ghost use Rattle.std.specs.Result.{result_err};
ghost use Rattle.control_reader.specs.ControlValues.{values_of};
ghost use Rattle.control_reader.specs.Limits.{IsControl};
ghost use Rattle.phase_reader.specs.Limits.{IsEvent, IsPick};
ghost use Rattle.station_table.specs.Inside.Drafts.{rules_control, AreRules, AreDrafted, NotesMore, FollowsMore, HasReason, HasPlace};
ghost use Rattle.station_table.specs.Inside.Named.{IsNamed, skip_of};
ghost use Rattle.station_table.specs.Limits.{AreNear, HoldsKeyOf, HoldsKeysOf, IsPlace, IsUsedPick, KeysDiffer};
ghost use Rattle.station_table.specs.Reasons.{early_reason};
ghost use Rattle.station_table.specs.Using.{used_pick_at};

use crate::key_index::KeyIndex;
use crate::key_words::KeyWords;
use crate::keys::{GridKey, Place};
use crate::met_keys::MetKeys;
use crate::named_pick::NamedPick;
use crate::picks::{Picks, Reason, Skip, UsedPick};
use crate::reasons::late_reason;
use crate::stations::delay_of;
use control_reader::Control;
use phase_reader::{Event, Pick};
use std::alloc::{AllocError, Global};

/// What the picks of events are decided by: the control, the keys, and for each key the place of its source.
#[derive(Drop)]
pub(crate) struct Rules<'a> {
    control: &'a Control,
    index: KeyIndex<'a>,
    places: &'a [Place],
}

impl<'a> Rules<'a> {
    /// The rules of a control over keys and the places of their sources.
    pub(crate) fn new(
        alloc: Global,
        control: &'a Control,
        keys: &'a [GridKey],
        places: &'a [Place],
    ) -> Result<Rules<'a>, AllocError>
        requires control { IsControl control.now }
        requires one_each { length keys.now ≡ length places.now }
        requires few { length keys.now < 2 ^ 32 }
        requires differ { KeysDiffer keys.now }
        requires near { All IsPlace places.now }
        ensures control { IfOk result (λ rules. rules.control.now ≡ control.now) }
        ensures keys { IfOk result (λ rules. rules.index ≡ keys.now) }
        ensures places { IfOk result (λ rules. rules.places.now ≡ places.now) }
        ensures limits { IfOk result AreRules }
    {
        Ok(Rules {
            control,
            index: KeyIndex::of(alloc, keys)?,
            places,
        })
    }
}

/// The picks of an event, decided by the rules. No key was met before.
pub(crate) fn draft_picks(
    alloc: Global,
    rules: &Rules,
    met: &mut MetKeys,
    event: &Event,
) -> Result<Picks, AllocError>
    requires rules { AreRules rules.now }
    requires met { met.old ≡ replicate (length rules.now.index) false }
    requires event { IsEvent event.now }
    requires holds { HoldsKeysOf (rules_control rules.now) rules.now.index event.now.picks.items }
    ensures value { IfOk result (AreDrafted rules.now event.now.picks.items) }
    ensures near { IfOk result (λ picks. AllPairs AreNear picks.used.items) }
    ensures limits { IfOk result (λ picks. All (IsUsedPick (length rules.now.index)) picks.used.items) }
    ensures one_each { length met.new ≡ length met.old }
{
    let mut picks = Picks {
        used: Vec::with_capacity(alloc, event.picks.len())?,
        skipped: Vec::new(alloc),
    };
    for pick in &event.picks {
        take_pick(alloc, rules, met, pick, &mut picks)?;
    }
    Ok(picks)
}

// Takes one more pick into the picks so far. Where memory is wanting they are of no use.
fn take_pick(
    alloc: Global,
    rules: &Rules,
    met: &mut MetKeys,
    pick: &Pick,
    picks: &mut Picks,
) -> Result<(), AllocError>
    requires rules { AreRules rules.now }
    requires one_each { length met.old ≡ length rules.now.index }
    requires pick { IsPick pick.now }
    requires key { HoldsKeyOf (rules_control rules.now) rules.now.index pick.now }
    ensures one_each { length met.new ≡ length met.old }
    ensures picks { OnOk result (FollowsMore rules.now pick.now (met.old, picks.old) (met.new, picks.new)) }
{
    let named = NamedPick::of(rules.control, pick);
    match decide(rules, met, &named, picks.used.len()) {
        Ok(place) => {
            let used = used_pick(alloc, rules.control, &named, place)?;
            picks.used.push(used)?;
        }
        Err(reason) => {
            let skipped = skip(alloc, &named, reason)?;
            picks.skipped.push(skipped)?;
        }
    }
    Ok(())
}

// The place of the key of a pick that is used, or the first reason why it isn't, where so many picks before it are used.
fn decide(rules: &Rules, met: &mut MetKeys, named: &NamedPick, used: usize) -> Result<usize, Reason>
    requires rules { AreRules rules.now }
    requires one_each { length met.old ≡ length rules.now.index }
    requires named { IsNamed (rules_control rules.now) named.now }
    requires key { HoldsKeyOf (rules_control rules.now) rules.now.index named.now.pick.now }
    ensures notes { NotesMore rules.now named.now.pick.now met.old met.new }
    ensures one_each { length met.new ≡ length met.old }
    ensures reason { HasReason rules.now named.now.pick.now met.old used (result_err result) }
    ensures place { IfOk result (HasPlace rules.now named.now.pick.now) }
    ensures within { IfOk result (λ place. place < length rules.now.index) }
    ensures good { IfOk result (λ _. early_reason (rules_control rules.now) named.now.pick.now ≡ None) }
{
    match named.reason {
        Some(reason) => Err(reason),
        None => {
            let key = KeyWords::for_phase(rules.control, named.station, named.phase);
            let place = rules.index.key_place(&key);
            let is_met = met.meet(place);
            match late_reason(rules.control, is_met, &rules.places[place], used) {
                Some(reason) => Err(reason),
                None => Ok(place),
            }
        }
    }
}

// A pick that is used, whose key is at this place.
fn used_pick(
    alloc: Global,
    control: &Control,
    named: &NamedPick,
    place: usize,
) -> Result<UsedPick, AllocError>
    requires control { IsControl control.now }
    requires named { IsNamed (values_of control.now) named.now }
    requires pick { IsPick named.now.pick.now }
    requires good { early_reason (values_of control.now) named.now.pick.now ≡ None }
    requires place { place < 2 ^ 32 }
    ensures { IfOk result (λ used. used ≡ used_pick_at (values_of control.now) named.now.pick.now place) }
{
    let pick = named.pick;
    let time = pick.time - delay_of(control, named.station, named.phase);
    Ok(UsedPick {
        line: pick.line,
        station: named.station.copy(alloc)?,
        phase: named.phase.copy(alloc)?,
        time,
        weight: weight_of(pick),
        variance: variance_of(control, pick),
        key: place as u32,
    })
}

// A pick that isn't.
fn skip(alloc: Global, named: &NamedPick, reason: Reason) -> Result<Skip, AllocError>
    ensures { IfOk result (λ skip. skip ≡ skip_of named.now reason) }
{
    Ok(Skip {
        line: named.pick.line,
        station: named.station.copy(alloc)?,
        phase: named.phase.copy(alloc)?,
        reason,
    })
}

// The weight of a pick in thousandths, above 0: one above 2000 counts as 2000.
fn weight_of(pick: &Pick) -> u32
    requires { IsTrue (int_lt (pos 0) pick.now.weight) }
    ensures { result ≡ min 2000 (unsigned_abs pick.now.weight) }
{
    pick.weight.min(2000) as u32
}

// The variance of a pick in square microseconds: that of the travel times and that of the pick together.
fn variance_of(control: &Control, pick: &Pick) -> u64
    requires sigma { control.now.sigma ≤ 10 ^ 8 }
    requires error { unsigned_abs pick.now.error ≤ 10 ^ 8 }
    ensures { result
        ≡ control.now.sigma * control.now.sigma + unsigned_abs pick.now.error * unsigned_abs pick.now.error }
{
    let error = pick.error.unsigned_abs();
    control.sigma * control.sigma + error * error
}
