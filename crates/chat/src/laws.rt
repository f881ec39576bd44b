// Laws of the definitions that the contracts cite.
ghost use Rattle.std.specs.Prelude.{◌≡◌, ◌∷◌, ◌++◌, ℕ, true, [], List, Option, None, Ok, Err, Some, codes, drop, unwrap_or};
ghost use Rattle.std.specs.List.{flat_map};
ghost use Rattle.ppp_chat.specs.Event.{octet_at, tick_at};
ghost use Rattle.ppp_chat.specs.declared.event.Event.{Event};
ghost use Rattle.ppp_chat.specs.Words.{script_of};
ghost use Rattle.ppp_chat_words.specs.Said.{AreOptions, IsScript, Said, counted, is_from, last_seconds, said_spelled};
ghost use Rattle.ppp_chat_words.specs.Split.{FrontWords};
ghost use Rattle.chat.specs.Asked.{file_plan, planned, script_plan};
ghost use Rattle.chat.specs.Heard.{Listens};
ghost use Rattle.chat.specs.Options.{dialled, named};
ghost use Rattle.chat.specs.Rows.{asks, asks_of_file, asks_of_text, comes, parted};
ghost use Rattle.chat.specs.Run.{status_of};
ghost use Rattle.chat.specs.Telling.{ClockTells, LineTells};
ghost use Rattle.chat.specs.declared.ending.Ending.TheVariants.{NoLine, Refused, Talked};
ghost use Rattle.chat.specs.declared.ending.Refusal.TheVariants.{BadScript, NoFile, NoMemory, OtherWords};
ghost use Rattle.chat.specs.declared.ending.TalkEnd.TheVariants.{LineEnded};

use ppp_chat_words::laws::options_tell;
use ppp_outside::{Clock, LineIn};

/// No octet that the line gave is lost, each of its answers but the last is an event, and each event has the clock's reading behind it.
pub fn nothing_is_lost<I: LineIn, C: Clock>()
    ensures line { (before after : I) (earlier later : C) (calls : List Event) → Listens I.state I.coming C.state before after earlier later calls
        → LineTells (I.state before) (I.state after) (drop 1 calls) }
    ensures clock { (before after : I) (earlier later : C) (calls : List Event) → Listens I.state I.coming C.state before after earlier later calls
        → ClockTells (C.state earlier) (C.state later) calls }
{}

/// What options ask for: the line is that of `-L`, the timeout that of the last `-t`, and the script stands behind them, or in the file of `-f`.
pub fn options_ask()
    ensures script { (files : List ℕ → Option FrontWords) (options : List Said) (script : List (List ℕ)) (line : List ℕ)
        → AreOptions true options → IsScript script → counted is_from options ≡ 0 → dialled options ≡ Some line
        → planned files (flat_map said_spelled options ++ script) ≡ script_plan line (unwrap_or (last_seconds options) 45) (script_of script) }
    ensures file { (files : List ℕ → Option FrontWords) (options : List Said) (line file : List ℕ)
        → AreOptions true options → dialled options ≡ Some line → named options ≡ Some file
        → planned files (flat_map said_spelled options) ≡ file_plan line (unwrap_or (last_seconds options) 45) (files file) }
{
    options_tell();
}

/// Worked words.
pub fn words_ask()
    ensures script { asks (codes "-L h:1 -t 20 -v '' AT OK") ≡ script_plan (codes "h:1") 20 (script_of (parted (codes "'' AT OK"))) }
    ensures last_timeout { asks (codes "-t 7 -V -L h:1 -t 20 -s -S AT") ≡ script_plan (codes "h:1") 20 (script_of (parted (codes "AT"))) }
    ensures no_timeout { asks (codes "-L /run/modem AT") ≡ script_plan (codes "/run/modem") 45 (script_of (parted (codes "AT"))) }
    ensures no_script { asks (codes "-L h:1") ≡ script_plan (codes "h:1") 45 (Ok []) }
    ensures no_escape { asks (codes "-L h:1 '' \\z") ≡ Err BadScript }
    ensures no_seconds { asks (codes "-L h:1 -t 0 ''") ≡ Err OtherWords }
    ensures two_files { asks (codes "-L h:1 -f a -f b") ≡ Err OtherWords }
    ensures beside_a_file { asks (codes "-L h:1 -f a ''") ≡ Err OtherWords }
    ensures no_line { asks (codes "'' AT") ≡ Err OtherWords }
    ensures two_lines { asks (codes "-L h:1 -L h:2") ≡ Err OtherWords }
    ensures no_file { asks (codes "-L h:1 -f a") ≡ Err NoFile }
    ensures of_file { asks_of_file (parted (codes "'' AT")) None (codes "-L h:1 -f a") ≡ script_plan (codes "h:1") 45 (script_of (parted (codes "'' AT"))) }
    ensures bad_file { asks_of_file (parted (codes "'' \\z")) None (codes "-L h:1 -f a") ≡ Err BadScript }
    ensures open_quote { asks_of_file (parted (codes "'' \\z")) (Some 1) (codes "-L h:1 -f a") ≡ Err OtherWords }
{}

/// Worked conversations, each begun at 0: what was sent, and the status where the script has ended.
pub fn calls_come()
    ensures busy { comes (asks (codes "-L h:1 ABORT BUSY '' ATDT5 CONNECT ''")) (tick_at 0 ∷ octet_at 66 1 ∷ octet_at 85 2 ∷ octet_at 83 3 ∷ octet_at 89 4 ∷ [])
        ≡ Ok (record { status = Some 4; sent = codes "ATDT5\r" }) }
    ensures not_yet_busy { comes (asks (codes "-L h:1 ABORT BUSY '' ATDT5 CONNECT ''")) (tick_at 0 ∷ octet_at 66 1 ∷ octet_at 85 2 ∷ octet_at 83 3 ∷ [])
        ≡ Ok (record { status = None; sent = codes "ATDT5\r" }) }
    ensures silence { comes (asks (codes "-L h:1 -t 1 '' AT OK-ATZ-OK ATD")) (tick_at 0 ∷ tick_at 999 ∷ tick_at 1000 ∷ tick_at 1999 ∷ tick_at 2000 ∷ [])
        ≡ Ok (record { status = Some 3; sent = codes "AT\rATZ\r" }) }
    ensures of_file { comes (asks_of_text (codes "'' \"ATDT5\\c\" # dials\nCONNECT ' user'\n") (codes "-L h:1 -f a"))
        (tick_at 0 ∷ octet_at 67 1 ∷ octet_at 79 2 ∷ octet_at 78 3 ∷ octet_at 78 4 ∷ octet_at 69 5 ∷ octet_at 67 6 ∷ octet_at 84 7 ∷ tick_at 8 ∷ [])
        ≡ Ok (record { status = Some 0; sent = codes "ATDT5 user\r" }) }
    ensures before_the_end { comes (asks (codes "-L h:1 '' AT OK ''")) (tick_at 0 ∷ octet_at 79 1 ∷ []) ≡ Ok (record { status = None; sent = codes "AT\r" }) }
{}

/// The statuses where no script has ended.
pub fn other_statuses()
    ensures ended_line { status_of (Talked LineEnded) ≡ 2 }
    ensures no_line { status_of NoLine ≡ 2 }
    ensures no_file { status_of (Refused NoFile) ≡ 2 }
    ensures other_words { status_of (Refused OtherWords) ≡ 1 }
    ensures bad_script { status_of (Refused BadScript) ≡ 1 }
    ensures no_memory { status_of (Refused NoMemory) ≡ 64 }
{}
