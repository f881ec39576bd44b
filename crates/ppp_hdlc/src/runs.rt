//! Octets that go over the line as they are, sixteen at a time.

ghost use Rattle.ppp_base.specs.declared.octets.TheConstants.{MOST_FRAME};
ghost use Rattle.std.specs.Prelude.{◌≡◌, ◌≢◌, ℕ, ◌+◌, ◌<◌, ◌≤◌, Bool, ◌++◌, length, take, drop, slice_index};
ghost use Rattle.std.specs.Int.{bit_at};
ghost use Rattle.ppp_hdlc.specs.Octets.{is_mapped};
ghost use Rattle.ppp_hdlc.specs.Encoding.{escape, escaped, is_escaped};
ghost use Rattle.ppp_hdlc.specs.Deframing.{whole_part};
ghost use Rattle.ppp_hdlc.specs.Spans.{Takes};

use crate::octets::{ESCAPE, ESCAPE_BIT, FLAG, is_mapped, must_escape};
use std::simd::prelude::*;

/// How many octets are looked at together.
const LANES: usize = 16;

// Unescapes the octets of the line from a place on to those from `count` on in `out`, sixteen at a time: how far it
// came in each. It ends at an octet that is more than plain or an escape with the octet behind it.
pub(crate) fn unescape_runs(
    map: u32,
    octets: &[u8],
    from: usize,
    out: &mut [u8],
    count: usize,
) -> (usize, usize)
    requires from { from ≤ length octets.now }
    requires count { count ≤ length out.old }
    requires long { length out.old ≡ MOST_FRAME }
    ensures count { result.1 ≤ MOST_FRAME }
    ensures long { length out.new ≡ MOST_FRAME }
    ensures takes { (is_over : Bool) → Takes octets.now from result.0 (whole_part map (take count out.old) is_over) (whole_part map (take result.1 out.new) is_over) }
{
    let mut at = from;
    let mut n = count;
    while octets.len() - at >= LANES && out.len() - n >= LANES {
        let run = copy_plain(map, octets, at, out, n);
        at += run;
        n += run;
        if run < LANES {
            if octets[at] != ESCAPE || octets.len() - at < 2 {
                return (at, n);
            }
            let next = octets[at + 1];
            if next == FLAG || is_mapped(map, next) {
                return (at, n);
            }
            out[n] = next ^ ESCAPE_BIT;
            n += 1;
            at += 2;
        }
    }
    (at, n)
}

// Escapes the octets in front to those in front of `out`, sixteen at a time: how far it came in each.
pub(crate) fn escape_runs(map: u32, octets: &[u8], out: &mut [u8]) -> (usize, usize)
    requires few { length octets.now ≤ 746 }
    requires long { length out.old ≡ MOST_FRAME }
    ensures within { result.0 ≤ length octets.now }
    ensures count { result.1 ≤ MOST_FRAME }
    ensures long { length out.new ≡ MOST_FRAME }
    ensures written { take result.1 out.new ≡ escaped map (take result.0 octets.now) }
{
    let mut at = 0;
    let mut n = 0;
    while octets.len() - at >= LANES {
        let run = copy_plain(map, octets, at, out, n);
        at += run;
        n += run;
        if run < LANES {
            n = escape_to(map, octets[at], out, n);
            at += 1;
        }
    }
    (at, n)
}

// Escapes one octet to those from `count` on: how far it came.
#[inline(always)]
fn escape_to(map: u32, octet: u8, out: &mut [u8], count: usize) -> usize
    requires { count + 2 ≤ length out.old }
    ensures len { length out.new ≡ length out.old }
    ensures count { result ≤ count + 2 }
    ensures written { take result out.new ≡ take count out.old ++ escape map octet }
{
    if must_escape(map, octet) {
        out[count] = ESCAPE;
        out[count + 1] = octet ^ ESCAPE_BIT;
        count + 2
    } else {
        out[count] = octet;
        count + 1
    }
}

// Copies the octets in front of the sixteen from `at` on that go over the line as they are to those from `count` on:
// how many they are. All sixteen are written.
#[inline(always)]
fn copy_plain(map: u32, octets: &[u8], at: usize, out: &mut [u8], count: usize) -> usize
    requires sixteen { at + 16 ≤ length octets.now }
    requires room { count + 16 ≤ length out.old }
    ensures within { result ≤ 16 }
    ensures plain { (k : ℕ) → k < result → is_escaped map (slice_index octets.now (at + k)) ≡ Bool.false }
    ensures len { length out.new ≡ length out.old }
    ensures kept { take (count + result) out.new ≡ take count out.old ++ take result (drop at octets.now) }
{
    let lanes = u8x16::from_slice(&octets[at..]);
    put(out, count, lanes);
    plain_in_front(map, lanes)
}

// Puts sixteen octets in the place of those from `at` on.
#[inline(always)]
fn put(octets: &mut [u8], at: usize, lanes: u8x16)
    requires { at + 16 ≤ length octets.old }
    ensures len { length octets.new ≡ length octets.old }
    ensures front { take (at + 16) octets.new ≡ take at octets.old ++ lanes }
{
    lanes.copy_to_slice(&mut octets[at..]);
}

// How many octets in front go over the line as they are. Those below 32 are all left out where the map
// has some bit set.
#[inline(always)]
fn plain_in_front(map: u32, lanes: u8x16) -> usize
    ensures within { result ≤ 16 }
    ensures plain { (k : ℕ) → k < result → is_escaped map (slice_index lanes k) ≡ Bool.false }
{
    let marked = marked_as(lanes, FLAG)
        | marked_as(lanes, ESCAPE)
        | marked_below(lanes, least_unmapped(map));
    (marked | 0x1_0000).trailing_zeros() as usize
}

// Bit k stands where lane k is this octet.
#[inline(always)]
fn marked_as(lanes: u8x16, octet: u8) -> u64
    ensures { (k : ℕ) → k < 16 → bit_at result k ≡ 0 → slice_index lanes k ≢ octet }
{
    lanes.simd_eq(u8x16::splat(octet)).to_bitmask()
}

// Bit k stands where lane k is below this number.
#[inline(always)]
fn marked_below(lanes: u8x16, number: u8) -> u64
    ensures { (k : ℕ) → k < 16 → bit_at result k ≡ 0 → number ≤ slice_index lanes k }
{
    lanes.simd_lt(u8x16::splat(number)).to_bitmask()
}

// An octet from which on no octet's bit is set in the map.
#[inline]
fn least_unmapped(map: u32) -> u8
    ensures { (octet : ℕ) → result ≤ octet → is_mapped map octet ≡ Bool.false }
{
    if map == 0 { 0 } else { 32 }
}
