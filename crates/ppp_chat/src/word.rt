ghost use Rattle.std.specs.Prelude.{◌≡◌, ◌+◌, ◌^◌, ◌<◌, Some, None};
ghost use Rattle.std.specs.List.{slice_split};
ghost use Rattle.ppp_chat.specs.Pieces.{pieces_of};
ghost use Rattle.ppp_chat.specs.Reading.{Adds};
ghost use Rattle.ppp_chat.specs.Steps.{flat, flat_directive, flat_expect, flat_send, directives_in};
ghost use Rattle.ppp_chat.specs.Words.{abort_word, all_pieces, clear_word, directive_word, expect_word, is_hyphen, keyword_of, ok_map, seconds_of, send_word, timeout_word, two_words};

use crate::directive::Directive;
use crate::directives::MOST_ABORTS;
use crate::fault::ScriptFault;
use crate::keyword::{Keyword, keyword_of};
use crate::parts::Parts;
use crate::pieces::Pieces;
use crate::send::push_send;
use crate::step::Step;
use crate::steps::Steps;
use ppp_base::{LeadingZeros, read_number};
use std::alloc::Global;

/// The most octets of a string.
const MOST_STRING: usize = 512;

/// The most seconds of a timeout.
const MOST_SECONDS: u64 = 65535;

// The seconds of `TIMEOUT`, from 1 to 65535. Zeros may stand before them.
fn seconds_of(word: &[u8]) -> Option<u16>
    ensures { result ≡ seconds_of word.now }
{
    let seconds = read_number(word, LeadingZeros::Lawful, 1, MOST_SECONDS)?;
    Some(seconds as u16)
}

// Adds the steps of a word that is expected.
fn read_expect(
    alloc: Global,
    steps: &mut Steps,
    number: usize,
    word: &[u8],
) -> Result<(), ScriptFault>
    ensures { Adds steps.old steps.new result (ok_map flat_expect (expect_word number (all_pieces (slice_split is_hyphen word.now)))) }
{
    let parts = Parts::read(alloc, number, word)?;
    if !parts.fit() {
        return Err(ScriptFault::TooLong(number));
    }
    parts.push(alloc, steps)
}

// Adds the steps of a word that is sent.
fn read_send(
    alloc: Global,
    steps: &mut Steps,
    number: usize,
    word: &[u8],
) -> Result<(), ScriptFault>
    ensures { Adds steps.old steps.new result (ok_map flat_send (send_word number (pieces_of word.now))) }
{
    let pieces = Pieces::read(alloc, number, word)?;
    if pieces.text_len() > MOST_STRING {
        return Err(ScriptFault::TooLong(number));
    }
    push_send(alloc, steps, &pieces)
}

// Adds the step of an abort string.
fn read_abort(
    alloc: Global,
    steps: &mut Steps,
    number: usize,
    word: &[u8],
) -> Result<(), ScriptFault>
    ensures { Adds steps.old steps.new result (ok_map flat_directive (abort_word number (directives_in steps.old) (pieces_of word.now))) }
{
    let pieces = Pieces::read(alloc, number, word)?;
    if steps.aborts_set() >= MOST_ABORTS {
        return Err(ScriptFault::TooManyAborts(number));
    }
    if pieces.text_len() > MOST_STRING {
        return Err(ScriptFault::TooLong(number));
    }
    steps.push(Step::Direct(Directive::Abort(pieces.text(alloc)?)))
}

// Adds the step of a string that is no abort string any more.
fn read_clear_abort(
    alloc: Global,
    steps: &mut Steps,
    number: usize,
    word: &[u8],
) -> Result<(), ScriptFault>
    ensures { Adds steps.old steps.new result (ok_map flat_directive (clear_word number (pieces_of word.now))) }
{
    let pieces = Pieces::read(alloc, number, word)?;
    if pieces.text_len() > MOST_STRING {
        return Err(ScriptFault::TooLong(number));
    }
    steps.push(Step::Direct(Directive::ClearAbort(pieces.text(alloc)?)))
}

// Adds the step of a timeout.
fn read_timeout(steps: &mut Steps, number: usize, word: &[u8]) -> Result<(), ScriptFault>
    ensures { Adds steps.old steps.new result (ok_map flat_directive (timeout_word number (seconds_of word.now))) }
{
    let Some(seconds) = seconds_of(word) else {
        return Err(ScriptFault::BadNumber(number));
    };
    steps.push(Step::Direct(Directive::Timeout(seconds)))
}

// Adds the step of a directive, with the word behind its name.
fn read_directive(
    alloc: Global,
    steps: &mut Steps,
    keyword: Keyword,
    number: usize,
    word: &[u8],
) -> Result<(), ScriptFault>
    ensures { Adds steps.old steps.new result (ok_map flat_directive (directive_word number (directives_in steps.old) keyword word.now)) }
{
    match keyword {
        Keyword::Abort => read_abort(alloc, steps, number, word),
        Keyword::ClearAbort => read_clear_abort(alloc, steps, number, word),
        Keyword::Timeout => read_timeout(steps, number, word),
    }
}

// Adds the steps of a word that is expected and of one that is sent.
fn read_pair(
    alloc: Global,
    steps: &mut Steps,
    number: usize,
    expect: &[u8],
    send: &[u8],
) -> Result<(), ScriptFault>
    requires { number + 1 < 2 ^ 64 }
    ensures { Adds steps.old steps.new result (ok_map flat (two_words number (directives_in steps.old) expect.now None (Some send.now))) }
{
    read_expect(alloc, steps, number, expect)?;
    read_send(alloc, steps, number + 1, send)
}

// Adds the steps of two words, of which the first has this number.
pub(crate) fn read_two(
    alloc: Global,
    steps: &mut Steps,
    number: usize,
    first: &[u8],
    second: &[u8],
) -> Result<(), ScriptFault>
    requires { number + 1 < 2 ^ 64 }
    ensures { Adds steps.old steps.new result (ok_map flat (two_words number (directives_in steps.old) first.now (keyword_of first.now) (Some second.now))) }
{
    match keyword_of(first) {
        Some(keyword) => read_directive(alloc, steps, keyword, number + 1, second),
        None => read_pair(alloc, steps, number, first, second),
    }
}

// Adds the steps of a last word that stands alone.
pub(crate) fn read_last(
    alloc: Global,
    steps: &mut Steps,
    number: usize,
    word: &[u8],
) -> Result<(), ScriptFault>
    ensures { Adds steps.old steps.new result (ok_map flat (two_words number (directives_in steps.old) word.now (keyword_of word.now) None)) }
{
    match keyword_of(word) {
        Some(_) => Ok(()),
        None => read_expect(alloc, steps, number, word),
    }
}
