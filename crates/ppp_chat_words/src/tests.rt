use super::*;
use ppp_words::Backslash;
use std::test::*;

/// Words, and what they say: the timeout, the places of `-f`'s and `-L`'s values, the script's place, and what is wrong.
type Row = (
    &'static [u8],
    bool,
    u16,
    Option<usize>,
    Option<usize>,
    usize,
    Option<usize>,
);

const ROWS: [Row; 12] = [
    (b"", false, 45, None, None, 0, None),
    (b"'' ATDT5 CONNECT ''", false, 45, None, None, 0, None),
    (b"-t 20 ABORT BUSY '' ATDT5", false, 20, None, None, 2, None),
    (b"-v -V -s -S -t 20 -t 7 ''", false, 7, None, None, 8, None),
    (b"-f a -v", false, 45, Some(1), None, 3, None),
    (b"-f a ''", false, 45, Some(1), None, 2, Some(2)),
    (b"-f a -f b", false, 45, Some(1), None, 2, Some(2)),
    (b"-t 65536 ''", false, 45, None, None, 0, Some(0)),
    (b"-v -t", false, 45, None, None, 1, Some(1)),
    (b"-x -t 0", false, 45, None, None, 0, Some(0)),
    (b"-L h:1 ''", false, 45, None, None, 0, Some(0)),
    (b"-L h:1 -L h:2", true, 45, None, Some(1), 2, Some(2)),
];

#[test]
fn what_the_words_say(rt: HostRuntime) -> Result<(), Fail> {
    for (text, dials, timeout_s, file, line, script, wrong) in ROWS {
        let words = split(rt.alloc(), text, Backslash::Dropped)
            .ok()
            .ok_or("words")?;
        let said = chat_words(words.as_slice(), dials);
        let wanted = ChatWords {
            timeout_s,
            file,
            line,
            script,
            wrong,
        };
        assert_eq!(rt; said, wanted);
    }
    Ok(())
}
