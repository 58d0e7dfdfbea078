//! Certificates both ways, and their faults.
use super::samples::along_x;
use cover_certificate::{Block, BlockCause, BlockFault, LocatedBlock, read_block, write_block};
use edt_text::Lines;
use std::alloc::Global;
use std::test::Fail;

const SAMPLE: &str =
    "CERT LOCATED\nBEST 0 343597383680\nNEAR 1\n0 343597383680\nCOVER 3\n0 1 0 1 0 1 343597383680\n1 2 0 1 0 1 0\n2 4 0 1 0 1 0\nEND\n";

// The block of the sample.
fn sample(alloc: Global) -> Result<Block, Fail> {
    let mut near = Vec::new(alloc);
    near.push((0, 343_597_383_680))?;
    let mut cover = Vec::new(alloc);
    cover.push(along_x(0, 1, 343_597_383_680))?;
    cover.push(along_x(1, 2, 0))?;
    cover.push(along_x(2, 4, 0))?;
    Ok(Block::Located(LocatedBlock {
        hyp: 0,
        score: 343_597_383_680,
        near,
        cover,
    }))
}

// What is read of a text of at most 1000 bytes, as the text of the block and the number of the last line that was passed.
fn rewritten(alloc: Global, text: &str) -> Result<(Vec<u8>, u32), Fail> {
    if text.len() > 1000 {
        return Err(Fail::new("a long text"));
    }
    let mut lines = Lines::new(text.as_bytes());
    let block = read_block(alloc, &mut lines)?;
    let mut out = Vec::new(alloc);
    write_block(&mut out, &block)?;
    Ok((out, lines.passed()))
}

// Why a text of at most 1000 bytes isn't read.
fn fault_of(alloc: Global, text: &str) -> Option<BlockFault> {
    if text.len() > 1000 {
        return None;
    }
    read_block(alloc, &mut Lines::new(text.as_bytes())).err()
}

#[test]
fn the_sample_is_written_after_what_stands_there(rt: HostRuntime) -> Result<(), Fail> {
    let alloc = rt.alloc();
    let mut out = Vec::new(alloc);
    out.push(b'x')?;
    write_block(&mut out, &sample(alloc)?)?;
    let wanted = format!(in alloc; "x{SAMPLE}")?;
    assert!(rt; out.as_slice() == wanted.as_bytes());
    Ok(())
}

#[test]
fn texts_are_read_and_written_again(rt: HostRuntime) -> Result<(), Fail> {
    let alloc = rt.alloc();
    let rows = [
        (SAMPLE, 9),
        ("CERT NOFIT\nCOVER 1\n0 4 0 1 0 1 0\nEND\n", 4),
        ("CERT NOFIT\nCOVER 0\nEND\n", 3),
        ("CERT FEW\nEND\n", 2),
        ("CERT MANY\nEND\n", 2),
        ("CERT BUDGET\nEND\n", 2),
        ("CERT NEARLIMIT\nEND\n", 2),
        (
            "CERT LOCATED\nBEST 4294967295 18446744073709551615\nNEAR 0\nCOVER 0\nEND\n",
            5,
        ),
    ];
    for (text, count) in rows {
        let (again, passed) = rewritten(alloc, text)?;
        assert!(rt; again.as_slice() == text.as_bytes(), "at {text}");
        assert_eq!(rt; passed, count, "at {text}");
        let longer = format!(in alloc; "{text}\nEVENT 2")?;
        let (again, passed) = rewritten(alloc, longer.as_str())?;
        assert!(rt;
            again.as_slice() == text.as_bytes(),
            "before more, at {text}"
        );
        assert_eq!(rt; passed, count, "before more, at {text}");
    }
    Ok(())
}

#[test]
fn the_first_faulty_line_decides(rt: HostRuntime) {
    let alloc = rt.alloc();
    let rows = [
        ("", 1, BlockCause::Form),
        ("CERT\nEND\n", 1, BlockCause::Form),
        ("CERT LOST\nEND\n", 1, BlockCause::Form),
        ("CERT FEW \nEND\n", 1, BlockCause::Form),
        ("CERT FEW\n", 2, BlockCause::Form),
        ("CERT FEW\nEND", 2, BlockCause::Form),
        ("CERT FEW\nEND \n", 2, BlockCause::Form),
        (
            "CERT NOFIT\nCOVER 2\n0 1 0 1 0 1 0\nEND\n",
            4,
            BlockCause::Form,
        ),
        (
            "CERT NOFIT\nCOVER 1\n0 1 0 1 0 1\nEND\n",
            3,
            BlockCause::Form,
        ),
        ("CERT NOFIT\nCOVER 1\n0 1 0 1 0 1 0\n", 4, BlockCause::Form),
        ("CERT LOCATED\nBEST 0  1\n", 2, BlockCause::Form),
        ("CERT LOCATED\nBEST\t0 1\n", 2, BlockCause::Form),
        ("CERT LOCATED\nBEST 0 1\r\n", 2, BlockCause::Form),
        ("CERT LOCATED\nBEST 0 1 \n", 2, BlockCause::Form),
        ("CERT LOCATED\n\n", 2, BlockCause::Form),
        ("CERT LOCATED\nBEST 0 0\n", 2, BlockCause::Number),
        ("CERT LOCATED\nBEST 4294967296 1\n", 2, BlockCause::Number),
        (
            "CERT LOCATED\nBEST 0 18446744073709551616\n",
            2,
            BlockCause::Number,
        ),
        (
            "CERT LOCATED\nBEST 0 1\nNEAR 100001\n",
            3,
            BlockCause::Limit,
        ),
        // The greatest counts are read, and the line after them is missing.
        ("CERT LOCATED\nBEST 0 1\nNEAR 100000\n", 4, BlockCause::Form),
        ("CERT NOFIT\nCOVER 2000000\n", 3, BlockCause::Form),
        (
            "CERT LOCATED\nBEST 0 1\nNEAR 4294967296\n",
            3,
            BlockCause::Number,
        ),
        (
            "CERT LOCATED\nBEST 0 1\nNEAR 1\n0 +1\n",
            4,
            BlockCause::Number,
        ),
        ("CERT NOFIT\nCOVER 2000001\n", 2, BlockCause::Limit),
        (
            "CERT NOFIT\nCOVER 1\n0 1 0 1 0 1 00\n",
            3,
            BlockCause::Number,
        ),
    ];
    for (text, line, cause) in rows {
        assert_eq!(rt;
            fault_of(alloc, text),
            Some(BlockFault { line, cause }),
            "at {text}"
        );
    }
}
