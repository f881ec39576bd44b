// Frames are heard: a piece of the line's octets up to and with the first one that is answered otherwise than by Nothing.
ghost use Rattle.std.specs.Prelude.{◌≡◌, ◌<◌, ◌≤◌, length, take};
ghost use Rattle.ppp_link_rules.specs.FrameCounts.{counted, with_fault};
ghost use Rattle.ppp_link_rules.specs.Hearing.{heard_taken, octets_taken};
ghost use Rattle.ppp_link_rules.specs.LinkState.{Framing, LinkState};

use ppp_hdlc::{Deframer, FrameFault, Heard, Span};
use ppp_link_rules::FrameCounts;

// With octets that are no frame.
fn with_fault(counts: FrameCounts, fault: FrameFault) -> FrameCounts
    ensures { result ≡ with_fault fault counts }
{
    let mut counts = counts;
    match fault {
        FrameFault::Aborted => counts.aborted = counts.aborted.saturating_add(1),
        FrameFault::TooLong => counts.too_long = counts.too_long.saturating_add(1),
        FrameFault::Short => counts.short = counts.short.saturating_add(1),
        FrameFault::BadFcs => counts.bad_fcs = counts.bad_fcs.saturating_add(1),
        FrameFault::BadHeader => counts.bad_header = counts.bad_header.saturating_add(1),
    }
    counts
}

// With one answer of the deframer.
fn counted(counts: FrameCounts, heard: &Heard) -> FrameCounts
    ensures { result ≡ counted heard.now counts }
{
    match heard {
        Heard::Nothing => counts,
        Heard::Frame(_, _) => FrameCounts {
            frames: counts.frames.saturating_add(1),
            ..counts
        },
        Heard::Dropped(fault) => with_fault(counts, *fault),
    }
}

/// Takes the octets of a piece up to and with the first one that is answered otherwise than by Nothing, or else all of them.
/// The answer is counted, and is that of the last octet that was taken. What the octets taken lead to is what the answer leads to.
pub fn hear_span(deframer: &mut Deframer, counts: &mut FrameCounts, octets: &[u8]) -> Span
    ensures within { result.used ≤ length octets.now }
    ensures some { 0 < length octets.now → 0 < result.used }
    ensures counts { counts.new ≡ counted result.heard counts.old }
    ensures map { deframer.new.map ≡ deframer.old.map }
    ensures taken { (s : LinkState) → s.listener ≡ Framing → s.deframer ≡ deframer.old → s.counts ≡ counts.old
        → octets_taken (take result.used octets.now) s ≡ heard_taken result.heard (record s { deframer = deframer.new; counts = counts.new }) }
{
    let span = deframer.feed_span(octets);
    *counts = counted(*counts, &span.heard);
    span
}
