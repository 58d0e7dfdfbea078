//! Laws of the rules by which picks are used.
ghost use Rattle.std.specs.Prelude.{◌≡◌, ◌+◌, ◌++◌, ◌∷◌, [], List, length, min, pos, int_lt, unsigned_abs, IsTrue};
ghost use Rattle.control_reader.specs.ControlValues.{ControlValues};
ghost use Rattle.phase_reader.specs.declared.phases.Pick.{Pick};
ghost use Rattle.station_table.specs.declared.keys.GridKey.{GridKey};
ghost use Rattle.station_table.specs.declared.keys.Place.{Place};
ghost use Rattle.station_table.specs.Using.{used_picks, skipped_picks, usable_count, reason_of, is_beyond, is_full, if_used, if_skipped};

/// Where there is a greatest number of used picks, it or the number of picks that may be used but for it is that of the used picks,
/// whichever is less: the first ones are used. So `BeyondMax` says that so many picks before are used already.
pub fn first_ones_are_used()
    ensures used { (control : ControlValues) (keys : List GridKey) (places : List Place) (picks : List Pick)
        → IsTrue (int_lt (pos 0) control.max_phases)
        → length (used_picks control keys places picks)
        ≡ min (unsigned_abs control.max_phases) (usable_count control keys places picks) }
    ensures beyond { (control : ControlValues) (keys : List GridKey) (places : List Place) (before : List Pick)
        → is_beyond control keys places before ≡ is_full control (length (used_picks control keys places before)) }
{}

/// Each pick of an event is in exactly one of the two lists: one more pick stands after the used ones where it has no reason, and else
/// after the skipped ones.
pub fn each_pick_is_in_one_list()
    ensures count { (control : ControlValues) (keys : List GridKey) (places : List Place) (picks : List Pick)
        → length (used_picks control keys places picks) + length (skipped_picks control keys places picks)
        ≡ length picks }
    ensures used { (control : ControlValues) (keys : List GridKey) (places : List Place) (before : List Pick)
        (pick : Pick)
        → used_picks control keys places (before ++ pick ∷ []) ≡ used_picks control keys places before
        ++ if_used control keys pick (reason_of control keys places before pick) }
    ensures skipped { (control : ControlValues) (keys : List GridKey) (places : List Place) (before : List Pick)
        (pick : Pick)
        → skipped_picks control keys places (before ++ pick ∷ []) ≡ skipped_picks control keys places before
        ++ if_skipped control pick (reason_of control keys places before pick) }
{}
