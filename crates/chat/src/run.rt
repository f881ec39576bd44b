ghost use Rattle.std.specs.Prelude.{◌≡◌, ℕ, List, Option, Some, map, codes};
ghost use Rattle.std.specs.String.{string_bytes};
ghost use Rattle.ppp_chat_words.specs.FileWords.{words_at};
ghost use Rattle.ppp_outside.specs.Files.{NamedFile};
ghost use Rattle.ppp_words.specs.declared.backslash.Backslash.TheVariants.{Kept};
ghost use Rattle.chat.specs.Asked.{planned};
ghost use Rattle.chat.specs.Run.{Answers, HasCause, IsStatusOf, PlanRuns, Tells, TellsOf, refused_status};

use crate::asking::read_plan;
use crate::ending::{Ending, Refusal};
use crate::plan::Plan;
use crate::talking::talk;
use ppp_outside::{Clock, Dialer, Dialled, Files, Sink, write_whole};
use std::alloc::Global;
use std::sync::Wait;

/// What a run answers: the status of the program, and the line that was dialled, where the dial gave one.
#[derive(Drop)]
pub struct ChatRun<D: Dialer> {
    pub status: u8,
    pub line: Option<(D::In, D::Out)>,
}

// What a run of a plan answers.
#[derive(Drop)]
struct Ran<D: Dialer> {
    ending: Ending,
    line: Option<(D::In, D::Out)>,
}

// Writes a text, as far as the sink takes it.
fn put<O: Sink>(errors: &mut O, text: &[u8])
    ensures { Tells (O.state errors.old) (O.state errors.new) text.now }
{
    let _ = write_whole(errors, text);
}

// Tells why nothing is dialled, where that is to be told.
fn tell<O: Sink>(errors: &mut O, refusal: Refusal)
    ensures { TellsOf refusal (O.state errors.old) (O.state errors.new) }
{
    match refusal {
        Refusal::OtherWords => put(errors, b"chat: usage\n"),
        Refusal::BadScript => put(errors, b"chat: bad script\n"),
        Refusal::NoFile | Refusal::FilesFailed | Refusal::NoMemory => {}
    }
}

/// Tells why nothing is dialled, and answers the status.
pub fn refuse<O: Sink>(errors: &mut O, refusal: Refusal) -> u8
    ensures tells { TellsOf refusal (O.state errors.old) (O.state errors.new) }
    ensures status { result ≡ refused_status refusal }
{
    tell(errors, refusal);
    refusal.status()
}

// Dials the line, and runs the script over it.
fn run_plan<R: Wait, D: Dialer, C: Clock>(
    rt: &R,
    plan: Plan,
    dialer: &mut D,
    clock: &mut C,
) -> Ran<D>
    ensures { PlanRuns D.In.state D.In.coming D.Out.state C.state plan (D.state dialer.old) (D.state dialer.new) clock.old clock.new result.ending result.line }
{
    match dialer.dial(&plan.line) {
        Dialled::Failed => Ran {
            ending: Ending::NoLine,
            line: None,
        },
        Dialled::Line(mut input, mut output) => {
            let end = talk(rt, plan.script, &mut input, &mut output, clock);
            Ran {
                ending: Ending::Talked(end),
                line: Some((input, output)),
            }
        }
    }
}

/// Does what the words ask for: dials a line, runs a chat script over it, and answers the status of the program:
///
/// | Status | Meaning |
/// |---|---|
/// | 0 | the script was done |
/// | 1 | the words are others, or the script is none; one line says which |
/// | 2 | the dialer, the line or the files failed, the file is missing, or the line ended first |
/// | 3 | an expect was late |
/// | 4 to 53 | the abort string of this number less 3 came |
/// | 64 | memory ran out |
pub fn chat_run<R: Wait, D: Dialer, F: Files, C: Clock, O: Sink>(
    rt: &R,
    alloc: Global,
    words: &[String],
    dialer: &mut D,
    files: &mut F,
    clock: &mut C,
    errors: &mut O,
) -> ChatRun<D>
    // What each status says is one relation, by endings.
    ensures answers { Answers D.In.state D.In.coming D.Out.state C.state (map string_bytes words.now)
        result.status
        (record { files = F.state files.old; dialer = D.state dialer.old; clock = clock.old; errors = O.state errors.old })
        (record { files = F.state files.new; dialer = D.state dialer.new; clock = clock.new; errors = O.state errors.new })
        result.line }

    // Where the files tell what they are, the status is one that the words have.
    ensures complete { (all : List NamedFile) → (F.state files.old).files ≡ Some all
        → IsStatusOf (planned (words_at Kept all) (map string_bytes words.now))
        (HasCause D.In.state D.Out.state
        (record { files = F.state files.old; dialer = D.state dialer.old; clock = clock.old; errors = O.state errors.old })
        (record { files = F.state files.new; dialer = D.state dialer.new; clock = clock.new; errors = O.state errors.new })
        result.line)
        result.status }
{
    match read_plan(alloc, files, words) {
        Ok(plan) => {
            let Ran { ending, line } = run_plan(rt, plan, dialer, clock);
            ChatRun {
                status: ending.status(),
                line,
            }
        }
        Err(refusal) => ChatRun {
            status: refuse(errors, refusal),
            line: None,
        },
    }
}
