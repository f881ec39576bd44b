use super::*;
use std::alloc::Global;
use std::process::Abort;
use std::test::*;

/// A text, and its words with their lines.
struct Case {
    text: &'static [u8],
    words: &'static [(&'static [u8], usize)],
}

/// The options form.
const DROPPED: [Case; 16] = [
    Case {
        text: b"",
        words: &[],
    },
    Case {
        text: b" \t\r\n\x0b\x0c",
        words: &[],
    },
    Case {
        text: b"mtu 1500\nnoauth",
        words: &[(b"mtu", 1), (b"1500", 1), (b"noauth", 2)],
    },
    Case {
        text: b"# all\na #b\nc#d # e",
        words: &[(b"a", 2), (b"c#d", 3)],
    },
    Case {
        text: b"'a b' \"c'd\"",
        words: &[(b"a b", 1), (b"c'd", 1)],
    },
    Case {
        text: b"a'b c'd\"e f\"g",
        words: &[(b"ab cde fg", 1)],
    },
    Case {
        text: b"'' a'' \"\" ''''",
        words: &[(b"", 1), (b"a", 1), (b"", 1), (b"", 1)],
    },
    Case {
        text: b"''#a",
        words: &[(b"#a", 1)],
    },
    Case {
        text: b"\\#a b\\ c \\'d",
        words: &[(b"#a", 1), (b"b c", 1), (b"'d", 1)],
    },
    Case {
        text: b"'a\\'b' \"c\\\\d\"",
        words: &[(b"a'b", 1), (b"c\\d", 1)],
    },
    Case {
        text: b"a\\\nb c",
        words: &[(b"a\nb", 1), (b"c", 2)],
    },
    Case {
        text: b"\n'a\nb' c",
        words: &[(b"a\nb", 2), (b"c", 3)],
    },
    Case {
        text: b"a\\",
        words: &[(b"a", 1)],
    },
    Case {
        text: b"a \\",
        words: &[(b"a", 1)],
    },
    Case {
        text: b"''\\",
        words: &[(b"", 1)],
    },
    Case {
        text: b"a # b\\\nc",
        words: &[(b"a", 1), (b"c", 2)],
    },
];

/// The form of chat files.
const KEPT: [Case; 6] = [
    Case {
        text: b"'' AT\\r OK",
        words: &[(b"", 1), (b"AT\\r", 1), (b"OK", 1)],
    },
    Case {
        text: b"a\\ b",
        words: &[(b"a\\ b", 1)],
    },
    Case {
        text: b"'a\\'b'",
        words: &[(b"a\\'b", 1)],
    },
    Case {
        text: b"\\#a",
        words: &[(b"\\#a", 1)],
    },
    Case {
        text: b"a \\",
        words: &[(b"a", 1), (b"\\", 1)],
    },
    Case {
        text: b"\n\\\na b",
        words: &[(b"\\\na", 2), (b"b", 3)],
    },
];

fn has_words(
    rt: &impl Abort,
    alloc: Global,
    case: &Case,
    backslash: Backslash,
) -> Result<(), Fail> {
    let found = words(alloc, case.text, backslash)
        .ok()
        .ok_or("it has words")?;
    assert_eq!(rt; found.len(), case.words.len());
    for (word, wanted) in found.iter().zip(case.words) {
        assert_eq!(rt; word.octets(), wanted.0);
        assert_eq!(rt; word.line(), wanted.1);
    }
    Ok(())
}

#[test]
fn the_words_of_texts(rt: HostRuntime) -> Result<(), Fail> {
    for case in &DROPPED {
        has_words(&rt, rt.alloc(), case, Backslash::Dropped)?;
    }
    for case in &KEPT {
        has_words(&rt, rt.alloc(), case, Backslash::Kept)?;
    }
    Ok(())
}

#[test]
fn open_quotes(rt: HostRuntime) {
    let texts: [(&[u8], usize); 6] = [
        (b"'", 1),
        (b"a\nb'c\nd", 2),
        (b"'a\nb'\"c", 2),
        (b"'a\\'", 1),
        (b"\"a\\", 1),
        (b"a \n\n \"b # c\n'd'\n", 3),
    ];
    for (text, line) in texts {
        for backslash in [Backslash::Dropped, Backslash::Kept] {
            let fault = words(rt.alloc(), text, backslash).err();
            assert_eq!(rt; fault, Some(WordsFault::OpenQuote(line)));
        }
    }
}

/// Texts of the options form, what stands in front of the word with an open quote, and the quote's line.
const FRONTS: [(Case, Option<usize>); 6] = [
    (
        Case {
            text: b"",
            words: &[],
        },
        None,
    ),
    (
        Case {
            text: b"frob 'open",
            words: &[(b"frob", 1)],
        },
        Some(1),
    ),
    (
        Case {
            text: b"a\nb'c\nd",
            words: &[(b"a", 1)],
        },
        Some(2),
    ),
    (
        Case {
            text: b"'a\nb'\"c",
            words: &[],
        },
        Some(2),
    ),
    (
        Case {
            text: b"a ' b",
            words: &[(b"a", 1)],
        },
        Some(1),
    ),
    (
        Case {
            text: b"a 'b'\nc",
            words: &[(b"a", 1), (b"b", 1), (b"c", 2)],
        },
        None,
    ),
];

#[test]
fn words_before_an_open_quote(rt: HostRuntime) -> Result<(), Fail> {
    for (case, open_quote) in &FRONTS {
        let front = words_in_front(rt.alloc(), case.text, Backslash::Dropped)?;
        assert_eq!(rt; front.open_quote, *open_quote);
        assert_eq!(rt; front.words.len(), case.words.len());
        for (word, wanted) in front.words.iter().zip(case.words) {
            assert_eq!(rt; word.octets(), wanted.0);
            assert_eq!(rt; word.line(), wanted.1);
        }
    }
    Ok(())
}
