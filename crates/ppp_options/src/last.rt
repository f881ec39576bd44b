ghost use Rattle.std.specs.Prelude.{◌≡◌, IfSome, bit_or, option_map};
ghost use Rattle.std.specs.List.{list_any};
ghost use Rattle.std.specs.Option.{option_copied, option_or};
ghost use Rattle.ppp_options.specs.Last.{last_of};
ghost use Rattle.ppp_options.specs.LinkOf.{asyncmap_of};
ghost use Rattle.ppp_option_words.specs.Picks.{endpoint_in, is_pty, is_socket, line_in, local_in, number_in, remote_in, script_in, switch_in, text_in};
ghost use Rattle.ppp_option_words.specs.Table.{IsWithin};

use ppp_base::{Disc, Name};
use ppp_chat::Script;
use ppp_option_words::{Flag, Item, Number, Text};
use ppp_outside::LineWords;

// Each of these tells what the last of some items says, or else what was said before them.

// The number behind a word.
#[tactic(auto, using(crate::proofs::LastLemmas::option_or_option_or))]
pub(crate) fn last_number(items: &[Item], word: Number, before: Option<u32>) -> Option<u32>
    requires { IfSome before (IsWithin word) }
    ensures value { result ≡ option_or (last_of (number_in word) items.now) before }
    ensures range { IfSome result (IsWithin word) }
{
    let mut found = before;
    let mut left = items;
    'looking: while let [item, others @ ..] = left {
        if let Some(said) = item.number(word) {
            found = Some(said);
        }
        left = others;
    }
    found
}

// The text behind a word.
#[tactic(auto, using(crate::proofs::LastLemmas::option_or_option_or))]
pub(crate) fn last_text<'a>(
    items: &'a [Item],
    word: Text,
    before: Option<&'a Name>,
) -> Option<&'a Name>
    ensures { option_copied result ≡ option_or (last_of (text_in word) items.now) (option_copied before.entry) }
{
    let mut found = before;
    let mut left = items;
    'looking: while let [item, others @ ..] = left {
        if let Some(said) = item.text(word) {
            found = Some(said);
        }
        left = others;
    }
    found
}

// Whether the words switch something on or off.
#[tactic(auto, using(crate::proofs::LastLemmas::option_or_option_or))]
pub(crate) fn last_switch(
    items: &[Item],
    on: &[Flag],
    off: &[Flag],
    before: Option<bool>,
) -> Option<bool>
    ensures { result ≡ option_or (last_of (switch_in on.now off.now) items.now) before }
{
    let mut found = before;
    let mut left = items;
    'looking: while let [item, others @ ..] = left {
        if let Some(said) = item.switch(on, off) {
            found = Some(said);
        }
        left = others;
    }
    found
}

// The script of `connect`.
#[tactic(auto, using(crate::proofs::LastLemmas::option_or_option_or))]
pub(crate) fn last_script<'a>(items: &'a [Item], before: Option<&'a Script>) -> Option<&'a Script>
    ensures { option_copied result ≡ option_or (last_of script_in items.now) (option_copied before.entry) }
{
    let mut found = before;
    let mut left = items;
    'looking: while let [item, others @ ..] = left {
        if let Some(said) = item.script() {
            found = Some(said);
        }
        left = others;
    }
    found
}

// The line of `socket` or `pty`.
#[tactic(auto, using(crate::proofs::LastLemmas::option_or_option_or))]
pub(crate) fn last_line(items: &[Item], before: Option<LineWords>) -> Option<LineWords>
    ensures { result ≡ option_or (last_of line_in items.now) before }
{
    let mut found = before;
    let mut left = items;
    'looking: while let [item, others @ ..] = left {
        if let Some(said) = item.line() {
            found = Some(said);
        }
        left = others;
    }
    found
}

// The discriminator of `endpoint`.
#[tactic(auto, using(crate::proofs::LastLemmas::option_or_option_or))]
pub(crate) fn last_endpoint<'a>(items: &'a [Item], before: Option<&'a Disc>) -> Option<&'a Disc>
    ensures { option_copied result ≡ option_or (last_of endpoint_in items.now) (option_copied before.entry) }
{
    let mut found = before;
    let mut left = items;
    'looking: while let [item, others @ ..] = left {
        if let Some(said) = item.endpoint() {
            found = Some(said);
        }
        left = others;
    }
    found
}

// Our address of `A:B`.
#[tactic(auto, using(crate::proofs::LastLemmas::option_or_option_or))]
pub(crate) fn last_local(items: &[Item], before: Option<[u8; 4]>) -> Option<[u8; 4]>
    ensures { result ≡ option_or (last_of local_in items.now) before }
{
    let mut found = before;
    let mut left = items;
    'looking: while let [item, others @ ..] = left {
        if let Some(said) = item.local() {
            found = Some(said);
        }
        left = others;
    }
    found
}

// The peer's address of `A:B`.
#[tactic(auto, using(crate::proofs::LastLemmas::option_or_option_or))]
pub(crate) fn last_remote(
    items: &[Item],
    before: Option<Option<[u8; 4]>>,
) -> Option<Option<[u8; 4]>>
    ensures { result ≡ option_or (last_of remote_in items.now) before }
{
    let mut found = before;
    let mut left = items;
    'looking: while let [item, others @ ..] = left {
        if let Some(said) = item.remote() {
            found = Some(said);
        }
        left = others;
    }
    found
}

// All octets of `asyncmap`, with those before.
pub(crate) fn joined_asyncmap(items: &[Item], before: u32) -> u32
    ensures { result ≡ bit_or before (asyncmap_of items.now) }
{
    let mut map = before;
    let mut left = items;
    'looking: while let [item, others @ ..] = left {
        map |= item.asyncmap();
        left = others;
    }
    map
}

// Whether one of the words is `socket`.
pub(crate) fn has_socket(items: &[Item]) -> bool
    ensures { result ≡ list_any is_socket items.now }
{
    items.iter().any(|item| item.is_socket())
}

// Whether one of the words is `pty`.
pub(crate) fn has_pty(items: &[Item]) -> bool
    ensures { result ≡ list_any is_pty items.now }
{
    items.iter().any(|item| item.is_pty())
}
