//! The form of a decimal, and the first place where a text leaves it.
ghost use Rattle.std.specs.Prelude.{◌≡◌, true, MatchOption};
ghost use Rattle.fixed_decimal.specs.Form.{has_form};
ghost use Rattle.fixed_decimal.specs.Leaving.{LeavesFormAt};
ghost use Rattle.fixed_decimal.specs.Inside.State as spec;

// How far a text has come.
#[derive(Clone, Copy)]
enum State {
    // Nothing was read.
    Start,
    // A sign, digits or a point were read.
    Mantissa { digit: bool, point: bool },
    // The mark was read.
    Mark,
    // A sign or digits were read after the mark.
    Exponent { digit: bool },
}

/// The first place, counted from 0, where the text leaves the form of a decimal: the length where it is cut short. `None` where it
/// has the form.
pub(crate) fn first_fault(text: &[u8]) -> Option<usize>
    ensures { MatchOption result (has_form text.now ≡ true) (λ place. LeavesFormAt text.now place) }
{
    let mut state = State::Start;
    for (place, byte) in text.iter().enumerate() {
        match after(state, *byte) {
            Some(next) => state = next,
            None => return Some(place),
        }
    }
    if ends(state) { None } else { Some(text.len()) }
}

fn after(state: State, byte: u8) -> Option<State>
    ensures { result ≡ spec.after state byte }
{
    match state {
        State::Start => match byte {
            b'+' | b'-' => Some(State::Mantissa {
                digit: false,
                point: false,
            }),
            _ => after_mantissa(false, false, byte),
        },
        State::Mantissa { digit, point } => after_mantissa(digit, point, byte),
        State::Mark => match byte {
            b'+' | b'-' => Some(State::Exponent { digit: false }),
            _ => after_exponent(byte),
        },
        State::Exponent { .. } => after_exponent(byte),
    }
}

fn after_mantissa(digit: bool, point: bool, byte: u8) -> Option<State>
    ensures { result ≡ spec.after_mantissa digit point byte }
{
    match byte {
        b'0'..=b'9' => Some(State::Mantissa { digit: true, point }),
        b'.' if !point => Some(State::Mantissa { digit, point: true }),
        b'e' | b'E' if digit => Some(State::Mark),
        _ => None,
    }
}

fn after_exponent(byte: u8) -> Option<State>
    ensures { result ≡ spec.after_exponent byte }
{
    if byte.is_ascii_digit() {
        Some(State::Exponent { digit: true })
    } else {
        None
    }
}

// Whether a text may end here.
fn ends(state: State) -> bool
    ensures { result ≡ spec.ends state }
{
    match state {
        State::Start | State::Mark => false,
        State::Mantissa { digit, .. } | State::Exponent { digit } => digit,
    }
}
