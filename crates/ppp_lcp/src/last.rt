ghost use Rattle.std.specs.Prelude.{◌≡◌, ◌≤◌};
ghost use Rattle.std.specs.Option.{option_copied};
ghost use Rattle.ppp_control.specs.Changes.{last_body};
ghost use Rattle.ppp_lcp.specs.Last.{number2_or, number4_or, method_named, method_in, agreed_by, mrru_pair, number2_of, discriminator_of};

use crate::judge::{is_chap, is_pap, number2, number4};
use ppp_base::{DEFAULT_MAP, DEFAULT_MRU, Disc, Mrru, SendSettings};
use ppp_control::last_body;
use ppp_packet::{Agreed, Method, OptionList};

// The number of an option's two octets.
pub(crate) fn number2_or(body: Option<&[u8]>, default: u16) -> u16
    ensures { result ≡ number2_or (option_copied body.entry) default }
{
    match body {
        Some(body) => {
            if body.len() == 2 {
                number2(body)
            } else {
                default
            }
        }
        None => default,
    }
}

// The number of an option's four octets.
pub(crate) fn number4_or(body: Option<&[u8]>, default: u32) -> u32
    ensures { result ≡ number4_or (option_copied body.entry) default }
{
    match body {
        Some(body) => {
            if body.len() == 4 {
                number4(body)
            } else {
                default
            }
        }
        None => default,
    }
}

fn method_named(body: Option<&[u8]>) -> Option<Method>
    ensures { result ≡ method_named (option_copied body.entry) }
{
    match body {
        Some(body) => {
            if is_chap(body) {
                Some(Method::Chap)
            } else if is_pap(body) {
                Some(Method::Pap)
            } else {
                None
            }
        }
        None => None,
    }
}

// By what the sender of these options wants the other end to prove who it is.
pub(crate) fn method_in(items: &OptionList) -> Option<Method>
    ensures { result ≡ method_in items.now }
{
    method_named(last_body(items, 3))
}

fn discriminator_of(body: Option<&[u8]>) -> Option<Disc>
    ensures { result ≡ discriminator_of (option_copied body.entry) }
{
    match body {
        Some(body) => {
            if body.len() < 1 {
                None
            } else {
                Disc::new(body[0], &body[1..])
            }
        }
        None => None,
    }
}

// The number of two octets, where there are two.
fn number2_of(body: Option<&[u8]>) -> Option<u16>
    ensures { result ≡ number2_of (option_copied body.entry) }
{
    match body {
        Some(body) => {
            if body.len() == 2 {
                Some(number2(body))
            } else {
                None
            }
        }
        None => None,
    }
}

fn mrru_pair(ours: Option<u16>, theirs: Option<u16>) -> Option<Mrru>
    ensures { result ≡ mrru_pair ours theirs }
{
    match ours {
        Some(ours) => match theirs {
            Some(theirs) => Mrru::new(ours, theirs),
            None => None,
        },
        None => None,
    }
}

// What the options of two requests mean, ours and the peer's.
pub(crate) fn agreed_by(ours: &OptionList, theirs: &OptionList) -> Agreed
    ensures { result ≡ agreed_by ours.now theirs.now }
{
    Agreed {
        we_prove: method_in(theirs),
        peer_proves: method_in(ours),
        peer_mru: number2_or(last_body(theirs, 1), DEFAULT_MRU).min(DEFAULT_MRU),
        mrru: mrru_pair(
            number2_of(last_body(ours, 17)),
            number2_of(last_body(theirs, 17)),
        ),
        disc: discriminator_of(last_body(theirs, 19)),
        send: SendSettings {
            map: number4_or(last_body(theirs, 2), DEFAULT_MAP),
            pfc: last_body(theirs, 7).is_some(),
            acfc: last_body(theirs, 8).is_some(),
        },
        receive_map: number4_or(last_body(ours, 2), DEFAULT_MAP),
    }
}
