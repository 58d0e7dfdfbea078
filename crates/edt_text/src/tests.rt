//! Lines and words of small texts, counted by the loops that a reader writes; names and digits at their limits.
use super::*;
use std::test::Fail;

// The number of the last line, after all were passed.
fn count_lines(bytes: &[u8]) -> u32 {
    if bytes.len() > 1000 {
        return 0;
    }
    let mut lines = Lines::new(bytes);
    while let Some(_line) = lines.next() {}
    lines.passed()
}

fn count_words(line: &[u8]) -> u64 {
    let mut words = Words::new(line);
    let mut count: u64 = 0;
    while let Some(_word) = words.next() {
        count = count.wrapping_add(1);
    }
    count
}

fn count_file_words(bytes: &[u8]) -> u64 {
    let mut words = FileWords::new(bytes);
    let mut count: u64 = 0;
    while let Some(_word) = words.next() {
        count = count.wrapping_add(1);
    }
    count
}

#[test]
fn lines_end_at_line_feeds(rt: HostRuntime) {
    assert_eq!(rt; count_lines(b""), 0);
    assert_eq!(rt; count_lines(b"a"), 1);
    assert_eq!(rt; count_lines(b"a\n"), 1);
    assert_eq!(rt; count_lines(b"a\n\nb"), 3);
    assert_eq!(rt; count_lines(b"\n\n"), 2);
}

#[test]
fn a_copy_goes_its_own_way(rt: HostRuntime) {
    let mut lines = Lines::new(b"a\nb\n");
    let copy = lines;
    let _first = lines.next();
    assert_eq!(rt; lines.passed(), 1);
    assert_eq!(rt; copy.passed(), 0);
}

#[test]
fn five_bytes_part_words(rt: HostRuntime) {
    assert_eq!(rt; count_words(b""), 0);
    assert_eq!(rt; count_words(b" \t\x0b\x0c\r"), 0);
    assert_eq!(rt; count_words(b" a\tb\x0bc\x0cd\re "), 5);
    assert_eq!(rt; count_words(b"a\nb\x00\x7f\xff"), 1);
    assert_eq!(rt; count_file_words(b"a b\n\n c\r\nd"), 4);
    assert_eq!(rt; count_file_words(b" \n\r\n\t"), 0);
}

#[test]
fn words_have_places(rt: HostRuntime) {
    let line = b"a bb  c d e f g h i j k l m n o p";
    let words = PlacedWords::new(Words::new(line));
    assert!(rt; words.has(15));
    assert_eq!(rt; words.at(1), b"bb".as_slice());
    assert_eq!(rt; words.at(14), b"o".as_slice());
    let few = PlacedWords::new(Words::new(b" a "));
    assert!(rt; few.has(1) && !few.has(2));
    assert_eq!(rt; few.at(1), b"".as_slice());
    let mut rest = words.after_first();
    assert_eq!(rt; rest.next(), Some(b"bb".as_slice()));
}

#[test]
fn names_have_limits(rt: HostRuntime) -> Result<(), Fail> {
    let long = [b'a'; 513];
    let name = Name::new(rt.alloc(), &long[..512])?;
    assert_eq!(rt; name.as_str().len(), 512);
    let copy = name.copy(rt.alloc())?;
    assert!(rt; are_same(&name, &copy));
    let other = Name::new(rt.alloc(), b"!~")?;
    assert_eq!(rt; other.as_str(), "!~");
    assert!(rt; !are_same(&name, &other));
    assert!(rt; is_name(b"!~", 2) && !is_name(b"!~", 1) && !is_name(b"", 1) && !is_name(b" ", 1));
    assert_eq!(rt; Name::new(rt.alloc(), b"").err(), Some(NameFault::Empty));
    assert_eq!(rt; Name::new(rt.alloc(), &long).err(), Some(NameFault::Long));
    assert_eq!(rt;
        Name::new(rt.alloc(), b"A B").err(),
        Some(NameFault::BadByte(1))
    );
    assert_eq!(rt;
        Name::new(rt.alloc(), b"AB\x7f").err(),
        Some(NameFault::BadByte(2))
    );
    Ok(())
}

#[test]
fn digits_are_written_and_read(rt: HostRuntime) -> Result<(), Fail> {
    let mut out = Vec::new(rt.alloc());
    push_number(&mut out, 0)?;
    push_signed(&mut out, i64::MIN)?;
    push_number(&mut out, u64::MAX)?;
    assert_eq!(rt;
        out.as_slice(),
        b"0-922337203685477580818446744073709551615".as_slice()
    );
    assert_eq!(rt; read_number(b"18446744073709551615"), Some(u64::MAX));
    assert_eq!(rt; read_number(b"18446744073709551616"), None);
    assert_eq!(rt; read_number(b"0"), Some(0));
    assert_eq!(rt; read_number(b""), None);
    assert_eq!(rt; read_number(b"00"), None);
    assert_eq!(rt; read_number(b"01"), None);
    assert_eq!(rt; read_number(b"+1"), None);
    assert_eq!(rt; read_number(b"1 "), None);
    assert_eq!(rt; digits_within(b"0099", 99), Some(99));
    assert_eq!(rt; digits_within(b"100", 99), None);
    assert_eq!(rt; digits_within(b"9x", 99), None);
    Ok(())
}
