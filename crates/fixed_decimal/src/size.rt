//! The size of a decimal in millionths.
ghost use Rattle.std.specs.Prelude.{◌≡◌, ◌+◌, ◌*◌, ◌^◌, ◌<◌, ◌≤◌, true, false, length, filter, position, count_by, nat_le, if◌then◌else◌, Some, None, MatchOption, IfSome, IfNone};
ghost use Rattle.std.specs.Char.{is_ascii_digit};
ghost use Rattle.std.specs.List.{after_first};
ghost use Rattle.text_terms.specs.Numerals.{value_of};
ghost use Rattle.fixed_decimal.specs.Form.{is_mark, is_point, mantissa_of, exponent_of};
ghost use Rattle.fixed_decimal.specs.Nearest.{nearest, IsNearest};
ghost use Rattle.fixed_decimal.specs.Value.{digits_of, raised_by, lowered_by, is_long, is_out_of_range, size_of};

// Digits as one whole number, to be raised and lowered by powers of ten.
#[derive(Clone, Copy)]
struct Scaled {
    digits: u128,
    raised_by: u32,
    lowered_by: u32,
}

/// The size of a decimal's value in millionths, rounded to the nearest whole number and upward from a half. `None` where more than 30
/// digits stand before the exponent, the exponent passes 30 in size, or the size is 10^15 or more.
pub(crate) fn size(text: &[u8]) -> Option<u64>
    ensures value { result ≡ (if is_out_of_range text.now then None else Some (size_of text.now)) }
    ensures small { IfSome result (λ size. size < 10 ^ 15) }
{
    match scaled_digits(text) {
        Some(scaled) => rounded(scaled.digits, scaled.raised_by, scaled.lowered_by),
        None => None,
    }
}

fn scaled_digits(text: &[u8]) -> Option<Scaled>
    ensures long { IfNone result (is_long text.now ≡ true) }
    ensures short { IfSome result (λ _. is_long text.now ≡ false) }
    ensures digits { IfSome result (λ s. (s.digits ≡ value_of (digits_of text.now)) × (s.digits < 10 ^ 30)) }
    ensures raised { IfSome result (λ s. (s.raised_by ≡ raised_by text.now) × (s.raised_by ≤ 36)) }
    ensures lowered { IfSome result (λ s. (s.lowered_by ≡ lowered_by text.now) × (s.lowered_by ≤ 60)) }
{
    let (mantissa, exponent) = split_at_mark(text);
    let digits = digits_value(mantissa)?;
    let places = places(mantissa);
    let power = exponent_size(exponent)?;
    let negative = exponent.first() == Some(&b'-');
    Some(Scaled {
        digits,
        raised_by: if negative { 6 } else { 6 + power },
        lowered_by: if negative { places + power } else { places },
    })
}

// What stands before the mark, and what stands after it.
fn split_at_mark(text: &[u8]) -> (&[u8], &[u8])
    ensures front { result.0.now ≡ mantissa_of text.now }
    ensures back { result.1.now ≡ exponent_of text.now }
{
    match mark_place(text) {
        Some(mark) => {
            let (mantissa, rest) = text.split_at(mark);
            (mantissa, &rest[1..])
        }
        None => (text, &[]),
    }
}

// Where the mark stands.
fn mark_place(text: &[u8]) -> Option<usize>
    ensures { result ≡ position is_mark text.now }
{
    text.iter().position(|b| matches!(b, b'e' | b'E'))
}

// The digits of a mantissa as one whole number, or `None` where they are more than 30.
fn digits_value(mantissa: &[u8]) -> Option<u128>
    ensures long { IfNone result (30 < length (filter is_ascii_digit mantissa.now)) }
    ensures short { IfSome result (λ _. length (filter is_ascii_digit mantissa.now) ≤ 30) }
    ensures value { IfSome result (λ value. value ≡ value_of (filter is_ascii_digit mantissa.now)) }
    ensures small { IfSome result (λ value. value < 10 ^ 30) }
{
    let mut value: u128 = 0;
    let mut count: u32 = 0;
    for byte in mantissa {
        if !byte.is_ascii_digit() {
            continue;
        }
        if count == 30 {
            return None;
        }
        value = 10 * value + u128::from(*byte - b'0');
        count += 1;
    }
    Some(value)
}

// How many digits stand after the point of a mantissa that has at most 30 digits.
fn places(mantissa: &[u8]) -> u32
    requires { length (filter is_ascii_digit mantissa.now) ≤ 30 }
    ensures value { result ≡ count_by is_ascii_digit (after_first is_point mantissa.now) }
    ensures few { result ≤ 30 }
{
    match point_place(mantissa) {
        Some(point) => {
            let (_, rest) = mantissa.split_at(point);
            count_digits(&rest[1..]) as u32
        }
        None => 0,
    }
}

// Where the point stands.
fn point_place(mantissa: &[u8]) -> Option<usize>
    ensures { result ≡ position is_point mantissa.now }
{
    mantissa.iter().position(|b| *b == b'.')
}

fn count_digits(bytes: &[u8]) -> usize
    ensures { result ≡ count_by is_ascii_digit bytes.now }
{
    bytes.iter().filter(|b| b.is_ascii_digit()).count()
}

// The size of an exponent, or `None` where it passes 30.
fn exponent_size(exponent: &[u8]) -> Option<u32>
    ensures long { IfNone result (30 < value_of (filter is_ascii_digit exponent.now)) }
    ensures short { IfSome result (λ size. size ≤ 30) }
    ensures value { IfSome result (λ size. size ≡ value_of (filter is_ascii_digit exponent.now)) }
{
    let mut size: u32 = 0;
    for byte in exponent {
        if !byte.is_ascii_digit() {
            continue;
        }
        size = 10 * size + u32::from(*byte - b'0');
        if size > 30 {
            return None;
        }
    }
    Some(size)
}

// The whole number nearest to digits * 10^raised_by / 10^lowered_by, if it is below 10^15.
fn rounded(digits: u128, raised_by: u32, lowered_by: u32) -> Option<u64>
    requires digits_few { digits < 10 ^ 30 }
    requires raised_few { raised_by ≤ 36 }
    requires lowered_few { lowered_by ≤ 60 }
    ensures value { let size = nearest (digits * 10 ^ raised_by) (10 ^ lowered_by) in result
        ≡ (if nat_le (10 ^ 15) size then None else Some size) }
    ensures small { IfSome result (λ size. size < 10 ^ 15) }
{
    if raised_by < lowered_by {
        return below_limit(lowered(digits, lowered_by - raised_by));
    }
    match digits.checked_mul(10u128.pow(raised_by - lowered_by)) {
        Some(size) => below_limit(size),
        None => None,
    }
}

// The whole number nearest to digits / 10^by.
fn lowered(digits: u128, by: u32) -> u128
    requires digits_few { digits < 10 ^ 30 }
    ensures { IsNearest digits (10 ^ by) result }
{
    // Fewer than 31 digits are less than half of 10^31.
    if by > 30 {
        return 0;
    }
    let unit = 10u128.pow(by);
    (2 * digits + unit) / (2 * unit)
}

fn below_limit(size: u128) -> Option<u64>
    ensures { result ≡ (if nat_le (10 ^ 15) size then None else Some size) }
{
    if size < 1_000_000_000_000_000 {
        Some(size as u64)
    } else {
        None
    }
}
