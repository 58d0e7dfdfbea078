//! Headers worked by hand, with each cause and each limit.
use HeaderError::{FloatBody, Kind, Limit, Number, Shape};
use grid_header::{Header, HeaderError, read_header};

// The cause for which a header of these two lines is refused, if it is.
fn cause(text: &[u8]) -> Option<HeaderError> {
    if text.len() > 65_536 {
        return None;
    }
    read_header(text).err()
}

#[test]
fn a_header_is_read(rt: HostRuntime) {
    assert_eq!(rt;
        read_header(b"4 1 1 10.0 0.0 0.0 1.0 1.0 1.0 TIME USEC32\nAAA 10.0 0.0 0.0\n"),
        Ok(Header {
            x: 4,
            y: 1,
            z: 1,
            ox: 10_000_000,
            oy: 0,
            oz: 0,
            dx: 1_000_000,
            dy: 1_000_000,
            dz: 1_000_000,
            sx: 10_000_000,
            sy: 0,
            sz: 0,
        })
    );
    assert_eq!(rt;
        read_header(
            b"1 2 3 -4 -5.5 6e-6 1e-6 8 1e3 TIME USEC32 more\r\n? 1 2 -10000 more\nTRANSFORM NONE"
        ),
        Ok(Header {
            x: 1,
            y: 2,
            z: 3,
            ox: -4_000_000,
            oy: -5_500_000,
            oz: 6,
            dx: 1,
            dy: 8_000_000,
            dz: 1_000_000_000,
            sx: 1_000_000,
            sy: 2_000_000,
            sz: -10_000_000_000,
        })
    );
}

#[test]
fn causes_come_in_order(rt: HostRuntime) {
    assert_eq!(rt; cause(b"0 1 1 0 0 0 1 1 1 ANGLE FLOAT\n"), Some(Shape));
    assert_eq!(rt;
        cause(b"\n0 1 1 0 0 0 1 1 1 ANGLE FLOAT\nA 0 0 0\n"),
        Some(Shape)
    );
    assert_eq!(rt; cause(b"0 x 1 0 0 0 1 1 TIME\nA 0 0 0\n"), Some(Shape));
    assert_eq!(rt;
        cause(b"0 x 1 0 0 0 1 1 1 ANGLE FLOAT\nA 0 0\n"),
        Some(Shape)
    );
    assert_eq!(rt;
        cause(b"0 x 1 0 0 0 1 1 1 ANGLE FLOAT\nA 0 0 0\n"),
        Some(Kind)
    );
    assert_eq!(rt;
        cause(b"0 x 1 0 0 0 1 1 1 TIME2D USEC32\nA 0 0 0\n"),
        Some(Kind)
    );
    assert_eq!(rt;
        cause(b"0 x 1 0 0 0 1 1 1 TIME FLOAT\nA 0 0 0\n"),
        Some(FloatBody)
    );
    assert_eq!(rt;
        cause(b"0 x 1 0 0 0 1 1 1 TIME\nA 0 0 0\n"),
        Some(FloatBody)
    );
    assert_eq!(rt;
        cause(b"0 x 1 0 0 0 1 1 1 TIME USEC32\nA 0 0 0\n"),
        Some(Number)
    );
    assert_eq!(rt;
        cause(b"4.5 1 1 0 0 0 1 1 1 TIME USEC32\nA 0 0 0\n"),
        Some(Number)
    );
    assert_eq!(rt;
        cause(b"0 1 1 1e30 0 0 1 1 1 TIME USEC32\nA 0 0 0\n"),
        Some(Number)
    );
    assert_eq!(rt;
        cause(b"0 1 1 0 0 0 1 1 1 TIME USEC32\nA 0 0 east\n"),
        Some(Number)
    );
    assert_eq!(rt;
        cause(b"0 1 1 0 0 0 1 1 1 TIME USEC32\nA 0 0 0\n"),
        Some(Limit)
    );
    assert_eq!(rt;
        cause(b"4 1 1 0 0 0 0.0 1 1 TIME USEC32\nA 0 0 0"),
        Some(Limit)
    );
}

#[test]
fn limits_hold(rt: HostRuntime) {
    assert_eq!(rt; cause(b"4096 1 1 0 0 0 1 1 1 TIME USEC32\nA 0 0 0\n"), None);
    assert_eq!(rt;
        cause(b"1 1 4097 0 0 0 1 1 1 TIME USEC32\nA 0 0 0\n"),
        Some(Limit)
    );
    assert_eq!(rt;
        cause(b"1 -1 1 0 0 0 1 1 1 TIME USEC32\nA 0 0 0\n"),
        Some(Limit)
    );
    assert_eq!(rt;
        cause(b"250 250 256 0 0 0 1 1 1 TIME USEC32\nA 0 0 0\n"),
        None
    );
    assert_eq!(rt;
        cause(b"250 250 257 0 0 0 1 1 1 TIME USEC32\nA 0 0 0\n"),
        Some(Limit)
    );
    assert_eq!(rt;
        cause(b"1 1 1 0 0 0 1 1000 1e-6 TIME USEC32\nA 0 0 0\n"),
        None
    );
    assert_eq!(rt;
        cause(b"1 1 1 0 0 0 1 1 1000.000001 TIME USEC32\nA 0 0 0\n"),
        Some(Limit)
    );
    assert_eq!(rt;
        cause(b"1 1 1 0 0 0 1 -1 1 TIME USEC32\nA 0 0 0\n"),
        Some(Limit)
    );
    assert_eq!(rt;
        cause(b"1 1 1 0 -1e4 1e4 1 1 1 TIME USEC32\nA 0 0 1e4\n"),
        None
    );
    assert_eq!(rt;
        cause(b"1 1 1 0 -10000.000001 0 1 1 1 TIME USEC32\nA 0 0 0\n"),
        Some(Limit)
    );
    assert_eq!(rt;
        cause(b"1 1 1 0 0 0 1 1 1 TIME USEC32\nA 0 10000.000001 0\n"),
        Some(Limit)
    );
}

#[test]
fn only_the_first_two_lines_have_a_length(rt: HostRuntime) {
    let mut text = [b' '; 16_000];
    text[..29].copy_from_slice(b"4 1 1 0 0 0 1 1 1 TIME USEC32");
    text[4096] = b'\n';
    text[4100..4107].copy_from_slice(b"A 0 0 0");
    text[8193] = b'\n';
    assert_eq!(rt; cause(&text), None);
    text[8193] = b' ';
    text[8194] = b'\n';
    assert_eq!(rt; cause(&text), Some(Shape));
    text[8193] = b'\n';
    text[4096] = b' ';
    text[4097] = b'\n';
    assert_eq!(rt; cause(&text), Some(Shape));
}
