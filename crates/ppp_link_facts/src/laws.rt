//! What the rules keep, for a reader and for the machine of a link.

ghost use Rattle.std.specs.Prelude.{◌≡◌, ◌≢◌, ◌≤◌, ◌||◌, ℕ, Bool, List, false, is_some, true};
ghost use Rattle.ppp_lcp.specs.declared.wish.LcpWish.{LcpWish};
ghost use Rattle.ppp_option_words.specs.LinkValues.{LinkValues};
ghost use Rattle.ppp_secrets.specs.declared.secrets.SecretsPair.{SecretsPair};
ghost use Rattle.ppp_link_rules.specs.Errands.{gives_dial, gives_job, gives_reading, gives_writing, with_dial_out, with_job_out, with_post_taken, with_reading_out, with_writing_out};
ghost use Rattle.ppp_link_rules.specs.Facts.{GoesRight, ScriptsFollow, is_protocol_open, is_start, is_stop, is_wake};
ghost use Rattle.ppp_link_rules.specs.Hearing.{octet_taken, octets_taken};
ghost use Rattle.ppp_link_rules.specs.LinkEvent.{Event};
ghost use Rattle.ppp_link_rules.specs.LinkPart.{LinkPart, after, is_present};
ghost use Rattle.ppp_link_rules.specs.LinkState.{LinkState, control, is_lasting};
ghost use Rattle.ppp_link_rules.specs.Marks.{New, Waits, hold_by};
ghost use Rattle.ppp_timer.specs.Due.{has_come};
ghost use Rattle.ppp_link_rules.specs.NewLink.{new_link};
ghost use Rattle.ppp_link_facts.specs.Budget.{BetweenOctets, BetweenSteps, HasRoom, Stands};
ghost use Rattle.ppp_link_facts.specs.Errands.{ErrandsStand};
ghost use Rattle.ppp_link_facts.specs.LinkStands.{LinkStands};
ghost use Rattle.ppp_link_facts.specs.Moves.{may_move};
ghost use Rattle.ppp_link_facts.specs.Scripts.{ScriptsStand};

/// No mark of a link ever meets a full log: a link whose log may have 1,024 marks begins so, each event that is taken and
/// each that is stale keeps it so, and so does each octet; and wherever it is so there is room for 64 marks more, and behind
/// them for all that is still owed.
pub fn no_mark_meets_a_full_log()
    ensures new { (id seed limit : ℕ) (config : LinkValues) (wish : LcpWish) (secrets : SecretsPair) → 1024 ≤ limit → BetweenSteps (new_link id config wish secrets seed limit) }
    ensures event { (event : Event) (old new : LinkState) (taken : Bool) → LinkPart old event new taken → BetweenSteps old → BetweenSteps new }
    ensures step_room { (s : LinkState) → BetweenSteps s → HasRoom s }
    ensures begins { (s : LinkState) → BetweenSteps s → BetweenOctets s }
    ensures octet { (octet : ℕ) (s : LinkState) → BetweenOctets s → BetweenOctets (octet_taken octet s) }
    ensures octets { (octets : List ℕ) (s : LinkState) → BetweenOctets s → BetweenOctets (octets_taken octets s) }
    ensures octet_room { (s : LinkState) → BetweenOctets s → HasRoom s }
{}

/// The scripts of a link follow its peer: over each octet and each event its log keeps the law of scripts, and while no
/// script runs the last start is an up exactly where the peer must prove itself, has done so, and LCP hasn't left Opened since.
pub fn the_scripts_follow_the_peer()
    ensures new { (id seed limit : ℕ) (config : LinkValues) (wish : LcpWish) (secrets : SecretsPair) → ScriptsStand (new_link id config wish secrets seed limit) }
    ensures event { (event : Event) (old new : LinkState) (taken : Bool) → LinkPart old event new taken → BetweenSteps old → ScriptsStand old → ScriptsStand new }
    ensures octet { (octet : ℕ) (s : LinkState) → BetweenOctets s → ScriptsStand s → ScriptsStand (octet_taken octet s) }
    ensures octets { (octets : List ℕ) (s : LinkState) → BetweenOctets s → ScriptsStand s → ScriptsStand (octets_taken octets s) }
    ensures follows { (s : LinkState) → Stands s → ScriptsStand s → ScriptsFollow s }
    ensures tells { (s : LinkState) → Stands s → ScriptsStand s → is_some (control s).auth_open ≡ is_protocol_open s }
{}

/// The log tells which errands a link has, over each event: a dial waits or is out exactly while the link dials, and reading,
/// writing and LCP are there exactly while it has a line; and no session is left that should be over.
pub fn the_log_tells_the_errands()
    ensures new { (id seed limit : ℕ) (config : LinkValues) (wish : LcpWish) (secrets : SecretsPair) → ErrandsStand (new_link id config wish secrets seed limit) }
    ensures event { (event : Event) (old new : LinkState) (taken : Bool) → LinkPart old event new taken → BetweenSteps old → ErrandsStand old → ErrandsStand new }
{}

/// Nothing of a link is left behind, over each event: no session that should be over, no hold that has outlasted its time,
/// no session with nine hundred marks, and none whose log could fill.
pub fn each_link_goes_right()
    ensures event { (event : Event) (old new : LinkState) (taken : Bool) → LinkPart old event new taken → BetweenSteps old → ErrandsStand old → GoesRight old → GoesRight new }
    ensures waits { (s : LinkState) → BetweenSteps s → ErrandsStand s → has_come s.time (hold_by (control s).doing) ≡ false → GoesRight s }
{}

/// All of it in one: it holds of a link that has just been made, each event keeps it, and so does each errand that is given
/// and each post that is taken.
pub fn each_link_stands()
    ensures new { (id seed limit : ℕ) (config : LinkValues) (wish : LcpWish) (secrets : SecretsPair) → 1024 ≤ limit → LinkStands (new_link id config wish secrets seed limit) }
    ensures event { (event : Event) (old new : LinkState) (taken : Bool) → LinkPart old event new taken → LinkStands old → LinkStands new }
    ensures dial { (s : LinkState) → gives_dial s ≡ true → LinkStands s → LinkStands (with_dial_out s) }
    ensures reading { (s : LinkState) → gives_reading s ≡ true → LinkStands s → LinkStands (with_reading_out s) }
    ensures writing { (s : LinkState) → gives_writing s ≡ true → LinkStands s → LinkStands (with_writing_out s) }
    ensures job { (s : LinkState) → gives_job s ≡ true → LinkStands s → LinkStands (with_job_out s) }
    ensures post { (s : LinkState) → LinkStands s → LinkStands (with_post_taken s) }
    ensures runs { (s : LinkState) → LinkStands s → s.job_out ≡ true → is_some (control s).running ≡ true }
    ensures follows { (s : LinkState) → LinkStands s → ScriptsFollow s }
{}

/// While no session lasts, only a begin, a hold's end, a packet in a wait and a signal to stop change what a link does.
pub fn few_events_move_a_link()
    ensures still { (event : Event) (s : LinkState) → is_present event s ≡ true → BetweenSteps s → is_lasting s ≡ false → may_move event (control s).doing ≡ false → (control (after event s)).doing ≡ (control s).doing }
    ensures from_new { (event : Event) (s : LinkState) → is_present event s ≡ true → BetweenSteps s → (control s).doing ≡ New → (control (after event s)).doing ≢ New → (is_start event || is_stop event) ≡ true }
    ensures from_wait { (event : Event) (s : LinkState) → is_present event s ≡ true → BetweenSteps s → (control s).doing ≡ Waits → (control (after event s)).doing ≢ Waits → (is_wake event || is_stop event) ≡ true }
{}
