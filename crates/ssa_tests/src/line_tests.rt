//! Where lines end: a line feed is looked for many bytes at a time.

use ssa_lines::line::line_len;
use std::alloc::{AllocError, Global};
use std::test::Fail;

// How many bytes stand before a line feed: none, as many as are looked at at once, one less and one more.
const BEFORE: [usize; 12] = [0, 1, 7, 8, 15, 16, 17, 31, 32, 33, 64, 1_000];

// Texts without a line feed: a letter, the byte above a line feed, and a letter whose last byte is a line feed's with the
// highest bit set.
const OTHERS: [&str; 3] = ["x", "\u{b}", "\u{8a}"];

// What stands behind them: nothing, a line feed at the end, and one before others.
const BEHIND: [&str; 3] = ["", "\n", "\nyyyyyyyyyyyyyyyyyyyyyyyyyyyyyyyy\n\ny"];

// Whether the line of so many of the text ends before what stands behind it.
fn ends_before(alloc: Global, text: &str, times: usize, behind: &str) -> Result<bool, AllocError> {
    let line = text.repeat(alloc, times)?;
    let whole = [line.as_str(), behind].concat(alloc)?;
    Ok(line_len(whole.as_bytes()) == line.len())
}

// Whether each such line does.
fn each_ends_before(alloc: Global, text: &str, behind: &str) -> Result<bool, AllocError> {
    for times in BEFORE {
        if !ends_before(alloc, text, times, behind)? {
            return Ok(false);
        }
    }
    Ok(true)
}

#[test]
fn lines_end_at_their_first_line_feed(rt: HostRuntime) -> Result<(), Fail> {
    for text in OTHERS {
        for behind in BEHIND {
            assert!(rt;
                each_ends_before(rt.alloc(), text, behind)?,
                "{text:?} {behind:?}"
            );
        }
    }
    Ok(())
}
