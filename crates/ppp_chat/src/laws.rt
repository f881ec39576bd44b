// Laws of the definitions that the contracts cite.
ghost use Rattle.std.specs.Prelude.{◌≡◌, ◌+◌, ◌<◌, ◌≤◌, ◌++◌, ◌∷◌, [], ℕ, Bool, List, Option, Some, None, Ok, Err, IsOk, codes, replicate, take};
ghost use Rattle.ppp_chat.specs.ChatOf.{ChatOf};
ghost use Rattle.ppp_chat.specs.ChatState.{Answers};
ghost use Rattle.ppp_chat.specs.Course.{course};
ghost use Rattle.ppp_chat.specs.Ending.{first_from};
ghost use Rattle.ppp_chat.specs.Event.{Event, tick_at, octet_at};
ghost use Rattle.ppp_chat.specs.Script.{ChatScript, Item};
ghost use Rattle.ppp_chat.specs.Settings.{settings_after};
ghost use Rattle.ppp_chat.specs.Steps.{flat, items_of};
ghost use Rattle.ppp_chat.specs.Talk.{answer_after, says};
ghost use Rattle.ppp_chat.specs.Words.{script_of, word_of};
ghost use Rattle.ppp_chat.specs.declared.fault.ScriptFault.TheVariants.{BadEscape, BadNumber, TooLong};
ghost use Rattle.ppp_chat.specs.declared.now.ChatNow.TheVariants.{Going, Sent, Done, TimedOut, Aborted};

use crate::ending::Ending;
use crate::fault::ScriptFault;
use crate::now::{ChatEnd, ChatNow};

/// Where a script has ended, more events change nothing.
pub fn an_end_stays()
    ensures { (script : ChatScript) (events more : List Event) (how : ChatEnd) → (ChatOf script events).outcome ≡ Some how
        → ChatOf script (events ++ more) ≡ ChatOf script events }
{}

/// A call at which octets are sent ends no script.
pub fn a_send_is_no_end()
    ensures { (script : ChatScript) (calls : List Event) (call : Event) (octets : List ℕ) → Answers script calls call (Sent octets)
        → (ChatOf script (calls ++ call ∷ [])).outcome ≡ None }
{}

/// The number of an abort string that ends a script is from 1 to 50.
pub fn an_abort_has_its_number()
    ensures { (words : List (List ℕ)) (script : ChatScript) (events : List Event) (number : ℕ) → script_of words ≡ Ok script.items
        → (ChatOf script events).outcome ≡ Some (ChatEnd.Aborted number) → (1 ≤ number) × (number ≤ 50) }
{}

/// A call's answer is that which rows of answers list.
pub fn answers_are_listed()
    ensures { (script : ChatScript) (calls : List Event) (call : Event) (answered : ChatNow) → Answers script calls call answered
        → answered ≡ answer_after (ChatOf script) calls call }
{}

/// The steps of a script, which are the code's own form of it, send what it sends and end as it ends, and it is the only script with these steps.
pub fn steps_say_the_same()
    ensures course { (script : ChatScript) (begin : Event) (later : List Event)
        → ChatOf script (begin ∷ later) ≡ course (flat script.items) Bool.false (settings_after script.timeout_s []) begin.at Bool.false later }
    ensures back { (items : List Item) → items_of (flat items) ≡ items }
{}

/// An expect or a delay ends with the first event that ends it.
pub fn the_first_ends()
    ensures found { (ends : ℕ → Option Ending) (count place : ℕ) (how : Ending) → first_from ends 0 count ≡ Some (place, how)
        → (ends place ≡ Some how) × (place < count) × ((i : ℕ) → i < place → ends i ≡ None) }
    ensures none { (ends : ℕ → Option Ending) (count : ℕ) → first_from ends 0 count ≡ None → (i : ℕ) → i < count → ends i ≡ None }
{}

/// A fault is that of the first word that has one: the words up to it have it, and those before it are a script.
pub fn a_fault_is_the_first()
    ensures { (words : List (List ℕ)) (fault : ScriptFault) (place : ℕ) → script_of words ≡ Err fault → word_of fault ≡ Some (place + 1)
        → (script_of (take (place + 1) words) ≡ Err fault) × ((items : List Item) × (script_of (take place words) ≡ Ok items)) }
{}

/// A busy line, begun at 0, and the octets `BU` and `SY`. After the end each call is answered the same again.
pub fn a_busy_line()
    ensures { says (codes "ABORT BUSY '' ATDT5 CONNECT ''") 45 (tick_at 0 ∷ octet_at 66 1 ∷ octet_at 85 2 ∷ octet_at 83 3 ∷ octet_at 89 4 ∷ octet_at 89 5 ∷ [])
        ≡ Ok (Sent (0x41 ∷ 0x54 ∷ 0x44 ∷ 0x54 ∷ 0x35 ∷ 0x0d ∷ []) ∷ Going ∷ Going ∷ Going ∷ Aborted 1 ∷ Aborted 1 ∷ []) }
{}

/// A string that is late, begun at 0 with a timeout of 45 seconds.
pub fn a_late_string()
    ensures { says (codes "'' AT OK-ATZ-OK ATD") 45 (tick_at 0 ∷ tick_at 44999 ∷ tick_at 45000 ∷ tick_at 89999 ∷ tick_at 90000 ∷ [])
        ≡ Ok (Sent (codes "AT\r") ∷ Going ∷ Sent (codes "ATZ\r") ∷ Going ∷ TimedOut ∷ []) }
{}

/// There is no escape `\z`.
pub fn no_escape_z()
    ensures { says (codes "'' \\z") 45 [] ≡ Err (BadEscape 2) }
{}

/// What a call sends and where an expect begins.
pub fn sends()
    ensures one_a_call { says (codes "'' A '' B") 45 (tick_at 0 ∷ tick_at 1 ∷ tick_at 2 ∷ []) ≡ Ok (Sent (codes "A\r") ∷ Sent (codes "B\r") ∷ Done ∷ []) }
    ensures waiting { says (codes "'' A '' B OK ''") 45 (tick_at 0 ∷ octet_at 79 100 ∷ octet_at 75 101 ∷ tick_at 45099 ∷ tick_at 45100 ∷ [])
        ≡ Ok (Sent (codes "A\r") ∷ Sent (codes "B\r") ∷ Going ∷ Going ∷ TimedOut ∷ []) }
    ensures no_return { says (codes "'' a\\cb '' ab\\c") 45 (tick_at 0 ∷ tick_at 1 ∷ []) ≡ Ok (Sent (codes "ab\r") ∷ Sent (codes "ab") ∷ []) }
    ensures even_parts { says (codes "OK-AT ATD") 45 (tick_at 0 ∷ tick_at 45000 ∷ tick_at 45001 ∷ tick_at 45002 ∷ [])
        ≡ Ok (Going ∷ Sent (codes "AT\r") ∷ Sent (codes "ATD\r") ∷ Done ∷ []) }
{}

/// Delays cut a send, and each begins with the call that ended what was before it.
pub fn delays()
    ensures one { says (codes "'' a\\dp OK ''") 45 (tick_at 0 ∷ octet_at 79 999 ∷ tick_at 1000 ∷ octet_at 75 1001 ∷ octet_at 79 1002 ∷ octet_at 75 1003 ∷ octet_at 75 1004 ∷ [])
        ≡ Ok (Sent (codes "a") ∷ Going ∷ Sent (codes "p\r") ∷ Going ∷ Going ∷ Sent (codes "\r") ∷ Done ∷ []) }
    ensures two { says (codes "'' \\d\\dA") 45 (tick_at 0 ∷ tick_at 1500 ∷ tick_at 2499 ∷ tick_at 2500 ∷ tick_at 2501 ∷ [])
        ≡ Ok (Going ∷ Going ∷ Going ∷ Sent (codes "A\r") ∷ Done ∷ []) }
    ensures behind_a_send { says (codes "'' A '' \\pB") 45 (tick_at 0 ∷ tick_at 99 ∷ tick_at 100 ∷ []) ≡ Ok (Sent (codes "A\r") ∷ Going ∷ Sent (codes "B\r") ∷ []) }
{}

/// Directives, and the order in which an expect is looked at.
pub fn directives()
    ensures expected_first { says (codes "TIMEOUT 1 ABORT B ABORT AB AB '' X ''") 45 (tick_at 0 ∷ octet_at 65 1 ∷ octet_at 66 2 ∷ octet_at 65 3 ∷ octet_at 66 4 ∷ [])
        ≡ Ok (Going ∷ Going ∷ Sent (codes "\r") ∷ Going ∷ Aborted 1 ∷ []) }
    ensures time_first { says (codes "TIMEOUT 1 A ''") 45 (tick_at 0 ∷ octet_at 65 1000 ∷ []) ≡ Ok (Going ∷ TimedOut ∷ []) }
    ensures cleared { says (codes "ABORT A ABORT B CLR_ABORT A X ''") 45 (tick_at 0 ∷ octet_at 65 1 ∷ octet_at 66 2 ∷ []) ≡ Ok (Going ∷ Going ∷ Aborted 1 ∷ []) }
    ensures set_anew { says (codes "ABORT A CLR_ABORT A ABORT A X ''") 45 (tick_at 0 ∷ octet_at 65 1 ∷ []) ≡ Ok (Going ∷ Aborted 1 ∷ []) }
    ensures empty_expected { says (codes "ABORT '' A ''") 45 (tick_at 0 ∷ octet_at 65 1 ∷ []) ≡ Ok (Going ∷ Sent (codes "\r") ∷ []) }
    ensures empty_met { says (codes "ABORT '' A ''") 45 (tick_at 0 ∷ octet_at 66 1 ∷ []) ≡ Ok (Going ∷ Aborted 1 ∷ []) }
    ensures last_word { says (codes "'' AT ABORT") 45 (tick_at 0 ∷ tick_at 1 ∷ []) ≡ Ok (Sent (codes "AT\r") ∷ Done ∷ []) }
{}

/// Escapes, and words that are none.
pub fn words()
    ensures escapes { says (codes "'' \\b\\n\\r\\s\\t\\\\\\N\\q\\101\\1018^Ax\\c") 45 (tick_at 0 ∷ [])
        ≡ Ok (Sent (0x08 ∷ 0x0a ∷ 0x0d ∷ 0x20 ∷ 0x09 ∷ 0x5c ∷ 0x00 ∷ 0x41 ∷ 0x41 ∷ 0x38 ∷ 0x01 ∷ 0x78 ∷ []) ∷ []) }
    ensures above_377 { says (codes "'' \\400") 45 [] ≡ Err (BadEscape 2) }
    ensures no_letter { says (codes "'' ^1") 45 [] ≡ Err (BadEscape 2) }
    ensures at_the_end { says (codes "'' a\\") 45 [] ≡ Err (BadEscape 2) }
    ensures in_a_part { says (codes "a-\\z-b") 45 [] ≡ Err (BadEscape 1) }
    ensures ten_digits { says (codes "TIMEOUT 0000000001 A ''") 45 (tick_at 0 ∷ tick_at 999 ∷ tick_at 1000 ∷ []) ≡ Ok (Going ∷ Going ∷ TimedOut ∷ []) }
    ensures eleven_digits { says (codes "TIMEOUT 00000000001 A ''") 45 [] ≡ Err (BadNumber 2) }
    ensures no_digits { says (codes "TIMEOUT '' A ''") 45 [] ≡ Err (BadNumber 2) }
    ensures too_great { says (codes "TIMEOUT 65536 A ''") 45 [] ≡ Err (BadNumber 2) }
    ensures greatest { says (codes "TIMEOUT 65535 A ''") 45 [] ≡ Ok [] }
    ensures none { says (codes "TIMEOUT 0 A ''") 45 [] ≡ Err (BadNumber 2) }
{}

/// A string has at most 512 octets; hyphens count, and a return does not.
pub fn lengths()
    ensures send { IsOk (script_of (codes "''" ∷ replicate 512 97 ∷ [])) }
    ensures long_send { script_of (codes "''" ∷ replicate 513 97 ∷ []) ≡ Err (TooLong 2) }
    ensures parts { IsOk (script_of ((replicate 255 97 ++ 45 ∷ replicate 256 97) ∷ [])) }
    ensures long_parts { script_of ((replicate 256 97 ++ 45 ∷ replicate 256 97) ∷ []) ≡ Err (TooLong 1) }
{}
