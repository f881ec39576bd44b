ghost use Rattle.std.specs.Prelude.{◌≡◌, Option};
ghost use Rattle.ppp_chat.specs.ChatState.{IsBegun};
ghost use Rattle.chat.specs.Talking.{HearsNext, ReadsAs, Says, TakesCall};
ghost use Rattle.chat.specs.Talks.{Talks};

use crate::ending::TalkEnd;
use ppp_chat::{Chat, ChatEnd, ChatNow, Script};
use ppp_outside::{Clock, LineGot, LineIn, Sink, write_whole};
use std::sync::Wait;

/// How many milliseconds a read waits at most.
const WAIT_MS: u32 = 100;

/// The latest moment in milliseconds: a reading of the clock above it counts as that.
const LATEST_MS: u64 = 1 << 56;

// Reads one octet at most.
fn read_one<I: LineIn>(input: &mut I) -> Result<Option<u8>, TalkEnd>
    ensures { ReadsAs I.state I.coming input.old input.new result }
{
    let mut buf = [0u8; 1];
    match input.read(&mut buf, WAIT_MS) {
        LineGot::Got(_) => Ok(Some(buf[0])),
        LineGot::Quiet => Ok(None),
        LineGot::End => Err(TalkEnd::LineEnded),
        LineGot::Failed => Err(TalkEnd::LineFailed),
    }
}

// Tells the conversation of an octet, or of the time alone.
fn tell(chat: &mut Chat, octet: Option<u8>, now: u64) -> ChatNow
    requires { IsBegun chat.old }
    ensures { TakesCall chat.old chat.new (record { at = now; octet = octet }) result }
{
    match octet {
        Some(octet) => chat.octet(octet, now),
        None => chat.tick(now),
    }
}

// Reads the line, and behind it the clock, and tells the conversation of it.
fn hear<I: LineIn, C: Clock>(
    chat: &mut Chat,
    input: &mut I,
    clock: &mut C,
) -> Result<ChatNow, TalkEnd>
    requires { IsBegun chat.old }
    ensures { HearsNext I.state I.coming C.state chat.old chat.new input.old input.new clock.old clock.new result }
{
    let octet = match read_one(input) {
        Ok(octet) => octet,
        Err(end) => return Err(end),
    };
    let now = clock.now_ms().min(LATEST_MS);
    Ok(tell(chat, octet, now))
}

// Does what an answer asks for: writes what is to be sent, or says how the conversation has ended.
fn say<O: Sink>(output: &mut O, answer: &ChatNow) -> Option<TalkEnd>
    ensures { Says answer.now (O.state output.old) (O.state output.new) result }
{
    match answer {
        ChatNow::Going => None,
        ChatNow::Sent(octets) => {
            if write_whole(output, octets.as_slice()) {
                None
            } else {
                Some(TalkEnd::SendFailed)
            }
        }
        ChatNow::Done => Some(TalkEnd::Over(ChatEnd::Done)),
        ChatNow::TimedOut => Some(TalkEnd::Over(ChatEnd::TimedOut)),
        ChatNow::Aborted(number) => Some(TalkEnd::Over(ChatEnd::Aborted(*number))),
    }
}

/// Runs a script over a line that was just dialled: the clock is read, and the script begins; then each turn reads one
/// octet at most, and the clock.
pub fn talk<R: Wait, I: LineIn, O: Sink, C: Clock>(
    rt: &R,
    script: Script,
    input: &mut I,
    output: &mut O,
    clock: &mut C,
) -> TalkEnd
    ensures { Talks I.state I.coming C.state script result input.old input.new clock.old clock.new (O.state output.old) (O.state output.new) }
{
    let mut chat = Chat::new(script);
    let began = clock.now_ms().min(LATEST_MS);
    let mut answer = chat.begin(began);
    'talking: for _ in rt.forever() {
        if let Some(end) = say(output, &answer) {
            return end;
        }
        answer = match hear(&mut chat, input, clock) {
            Ok(answer) => answer,
            Err(end) => return end,
        };
    }
    unreachable!()
}
