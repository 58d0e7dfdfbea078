//! Decimals and their faults, worked by hand.
use super::*;

fn has(text: &[u8], millionths: i64) -> bool {
    read_millionths(text) == Ok(millionths)
}

fn lacks(text: &[u8], fault: DecimalError) -> bool {
    read_millionths(text) == Err(fault)
}

#[test]
fn decimals_have_values(rt: HostRuntime) {
    assert!(rt; has(b"-0.0000005", -1));
    assert!(rt; has(b"0.0000004999", 0));
    assert!(rt; has(b"+.5", 500_000));
    assert!(rt; has(b"5.", 5_000_000));
    assert!(rt; has(b"2.00e-02", 20_000));
    assert!(rt; has(b"1E0000003", 1_000_000_000));
    assert!(rt; has(b"999999999.999999", 999_999_999_999_999));
    assert!(rt; has(b"000000000000000000000000000007", 7_000_000));
    assert!(rt; has(b"123456789012345678901234567890e-30", 123_457));
    assert!(rt; has(b"0e30", 0));
    assert!(rt; has(b"1e-30", 0));
}

#[test]
fn faults_come_in_order(rt: HostRuntime) {
    assert!(rt; lacks(b"", DecimalError::Empty));
    assert!(rt; lacks(b".", DecimalError::BadByte(1)));
    assert!(rt; lacks(b"1e", DecimalError::BadByte(2)));
    assert!(rt; lacks(b"1x", DecimalError::BadByte(1)));
    assert!(rt; lacks(b"1.5.", DecimalError::BadByte(3)));
    assert!(rt; lacks(b"-+1", DecimalError::BadByte(1)));
    assert!(rt; lacks(b".e5", DecimalError::BadByte(1)));
    assert!(rt; lacks(b"1e30", DecimalError::Range));
    assert!(rt; lacks(b"0e31", DecimalError::Range));
    assert!(rt;
        lacks(
            b"0e-99999999999999999999999999999999999999999999",
            DecimalError::Range
        )
    );
    assert!(rt; lacks(b"0000000000000000000000000000000", DecimalError::Range));
    assert!(rt; lacks(b"999999999.9999995", DecimalError::Range));
}

#[test]
fn whole_numbers_are_rounded_first(rt: HostRuntime) {
    assert_eq!(rt; read_whole(b"1.0000000001"), Ok(1));
    assert_eq!(rt; read_whole(b"-12e2"), Ok(-1200));
    assert_eq!(rt; read_whole(b"999999999"), Ok(999_999_999));
    assert_eq!(rt; read_whole(b"1000000000"), Err(DecimalError::Range));
    assert_eq!(rt; read_whole(b"1.5"), Err(DecimalError::NotWhole));
    assert_eq!(rt; read_whole(b"x"), Err(DecimalError::BadByte(0)));
}
