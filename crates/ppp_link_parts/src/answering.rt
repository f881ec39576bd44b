// What the dial answers, as its mark and as what a link does.
ghost use Rattle.std.specs.Prelude.{◌≡◌, ℕ, ◌^◌, ◌<◌, ◌≤◌, List, nat_le};
ghost use Rattle.ppp_mark.specs.Log.{added, room_of};
ghost use Rattle.ppp_mark.specs.Marks.{over_mark, signal_mark, signal_number};
ghost use Rattle.ppp_link_rules.specs.Dialling.{end_by};
ghost use Rattle.ppp_link_rules.specs.Marks.{cause_in, count_in, was_live_in};
ghost use Rattle.ppp_link_parts.specs.Records.{AreFew, IsOfLink, KeepsTold, log_answered};
ghost use Rattle.ppp_mark.specs.declared.kind.TheConstants.{ATTEMPT};
ghost use Rattle.ppp_mark.specs.declared.mark.Mark.{Mark};

use crate::control::{Control, Doing};
use crate::status::session_end;
use ppp_base::SignalWord;
use ppp_dial::{DialNow, SessionEnd};
use ppp_mark::{Mark, ScriptLog};
use ppp_outside::{LineWords, Spawner};

// Whether a signal is no hang-up.
fn is_stop(word: SignalWord) -> bool
    ensures { result ≡ nat_le 2 (signal_number word) }
{
    match word {
        SignalWord::Hup => false,
        SignalWord::Int | SignalWord::Term => true,
        SignalWord::Usr1 | SignalWord::Usr2 => true,
    }
}

// The mark of a signal.
pub(crate) fn put_signal<S: Spawner>(
    scripts: &mut ScriptLog<S>,
    control: &mut Control,
    word: SignalWord,
    time: u64,
)
    requires room { 0 < room_of scripts.old.log }
    requires link { IsOfLink scripts.old.machine.target }
    requires told { KeepsTold control.old scripts.old.log.past }
    requires few { AreFew control.old scripts.old.log.past }
    ensures scripts { scripts.new ≡ record scripts.old { log = added (signal_mark time word) scripts.old.log } }
    ensures told { KeepsTold control.new scripts.new.log.past }
    ensures few { AreFew control.new scripts.new.log.past }
{
    scripts.put(Mark::signal(time, word));
    if is_stop(word) {
        control.is_stopped = true;
    }
}

// The mark of a session's end.
pub(crate) fn put_over<S: Spawner>(scripts: &mut ScriptLog<S>, control: &mut Control, time: u64)
    requires room { 0 < room_of scripts.old.log }
    requires link { IsOfLink scripts.old.machine.target }
    requires told { KeepsTold control.old scripts.old.log.past }
    requires few { AreFew control.old scripts.old.log.past }
    ensures scripts { scripts.new ≡ record scripts.old { log = added (over_mark time (was_live_in scripts.old.log.past) (count_in 0 ATTEMPT scripts.old.log.past)) scripts.old.log } }
    ensures told { KeepsTold control.new scripts.new.log.past }
    ensures few { AreFew control.new scripts.new.log.past }
{
    scripts.put(Mark::over(time, control.was_live, control.session));
    control.doing = Doing::IsOver;
}

// How a session ends, as the marks tell it.
pub(crate) fn end_of(control: &Control, line: &LineWords) -> SessionEnd
    ensures { (past : List Mark) → KeepsTold control.now past → result ≡ end_by line.now (was_live_in past) (cause_in past) }
{
    session_end(line, control.was_live, control.cause)
}

// The mark of an attempt.
fn put_attempt<S: Spawner>(scripts: &mut ScriptLog<S>, control: &mut Control, time: u64)
    requires room { 0 < room_of scripts.old.log }
    requires link { IsOfLink scripts.old.machine.target }
    requires told { KeepsTold control.old scripts.old.log.past }
    requires few { AreFew control.old scripts.old.log.past }
    ensures scripts { scripts.new ≡ record scripts.old { log = log_answered DialNow.Begin time scripts.old.log } }
    ensures told { KeepsTold control.new scripts.new.log.past }
    ensures few { AreFew control.new scripts.new.log.past }
{
    let from = scripts.log().count();
    let session = control.session + 1;
    scripts.put(Mark::attempt(time, session));
    control.session = session;
    control.doing = Doing::Dials;
    control.cause = None;
    control.was_live = false;
    control.from = from;
}

// The mark of what the dial answered, and what it tells.
pub(crate) fn put_answer<S: Spawner>(
    scripts: &mut ScriptLog<S>,
    control: &mut Control,
    answer: DialNow,
    time: u64,
)
    requires room { 0 < room_of scripts.old.log }
    requires time { time ≤ 2 ^ 56 }
    requires link { IsOfLink scripts.old.machine.target }
    requires told { KeepsTold control.old scripts.old.log.past }
    requires few { AreFew control.old scripts.old.log.past }
    ensures scripts { scripts.new ≡ record scripts.old { log = log_answered answer time scripts.old.log } }
    ensures told { KeepsTold control.new scripts.new.log.past }
    ensures few { AreFew control.new scripts.new.log.past }
{
    match answer {
        DialNow::Nothing => {}
        DialNow::Begin => put_attempt(scripts, control, time),
        DialNow::Hold(milliseconds) => {
            scripts.put(Mark::hold(time, milliseconds));
            control.doing = Doing::Holds(time + u64::from(milliseconds));
        }
        DialNow::Wait => {
            scripts.put(Mark::wait(time));
            control.doing = Doing::Waits;
        }
        DialNow::Finish(status) => {
            scripts.put(Mark::finished(time, status));
            control.doing = Doing::HasFinished(status);
        }
    }
}
