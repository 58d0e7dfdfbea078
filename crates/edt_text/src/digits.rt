//! Numbers as shortest decimals, written and read.
ghost use Rattle.std.specs.Prelude.{◌≡◌, ◌++◌, OnOk, OnErr, decimal};
ghost use Rattle.std.specs.Fmt.{signed_decimal};
ghost use Rattle.edt_text.specs.Reading.{reading_of, value_within};
ghost use Rattle.edt_text.specs.Inside.Digits as digits;

use itoa::Buffer;
use std::alloc::AllocError;

/// Appends the shortest decimal of `value` to `out`. When out of memory `out` stays unchanged.
pub fn push_number(out: &mut Vec<u8>, value: u64) -> Result<(), AllocError>
    ensures ok { OnOk result (out.new.items ≡ out.old.items ++ decimal value) }
    ensures err { OnErr result (out.new.items ≡ out.old.items) }
{
    let mut buffer = Buffer::new();
    out.extend_from_slice(buffer.format(value).as_bytes())
}

/// Appends the shortest decimal of `value` to `out`, with `-` before one below 0. When out of memory `out` stays unchanged.
pub fn push_signed(out: &mut Vec<u8>, value: i64) -> Result<(), AllocError>
    ensures ok { OnOk result (out.new.items ≡ out.old.items ++ signed_decimal value) }
    ensures err { OnErr result (out.new.items ≡ out.old.items) }
{
    let mut signed = Buffer::new();
    out.extend_from_slice(signed.format(value).as_bytes())
}

/// The number of which `word` is the shortest decimal: one digit, or several of which the first isn't 0. `None` where it is that
/// of no number below 2^64.
pub fn read_number(word: &[u8]) -> Option<u64>
    ensures { result ≡ reading_of word.now }
{
    match word {
        [] => None,
        [b'0', _, ..] => None,
        _ => digits_within(word, u64::MAX),
    }
}

/// The number that digits write. `None` where a byte isn't a digit or the number passes `most`; no bytes are 0.
pub fn digits_within(word: &[u8], most: u64) -> Option<u64>
    ensures { result ≡ value_within most word.now }
{
    let mut value: u64 = 0;
    for byte in word {
        value = with_digit(value, *byte, most)?;
    }
    Some(value)
}

// The number with one more digit, where the byte is a digit and the number stays within its limit.
fn with_digit(value: u64, byte: u8, most: u64) -> Option<u64>
    ensures { result ≡ digits.with_digit most value byte }
{
    if !byte.is_ascii_digit() {
        return None;
    }
    let longer = value.checked_mul(10)?.checked_add(u64::from(byte - b'0'))?;
    if longer > most {
        return None;
    }
    Some(longer)
}
