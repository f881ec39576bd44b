//! What is so of a link now: which errand is out, what is given, what it shows of itself.

ghost use Rattle.std.specs.Prelude.{◌≡◌, ◌==◌, ◌&&◌, true};
ghost use Rattle.ppp_link_rules.specs.Errands.{gives_dial, gives_reading, gives_writing, is_dial_out, is_next, is_reading_out, is_session, is_writing_out};
ghost use Rattle.ppp_link_rules.specs.LinkEvent.{FromTable};
ghost use Rattle.ppp_link_rules.specs.LinkPart.{is_present, may_come_back};
ghost use Rattle.ppp_link_rules.specs.LinkState.{LinkState, control, is_out, is_waiting};
ghost use Rattle.ppp_link_rules.specs.Marks.{is_new, status_by};
ghost use Rattle.ppp_link_rules.specs.Posts.{is_stay, names_present, stay_of};
ghost use Rattle.ppp_link_rules.specs.View.{view_of};
ghost use Rattle.ppp_link_rules.specs.declared.errand.Errand.TheVariants as errand;
ghost use Rattle.ppp_link_core.specs.Standing.{StandsFor};
ghost use Rattle.ppp_link_events.specs.Looking.{may_come_by};

use ppp_base::{LinkId, Post};
use ppp_link_core::link_core::LinkCore;
use ppp_link_rules::errand::{Errand, ReadEnd};
use ppp_link_rules::view::LinkView;
use ppp_link_steps::sessions::wants_line;
use ppp_outside::Spawner;

// Whether an errand was taken and hasn't come back.
fn is_out(errand: Errand) -> bool
    ensures { result ≡ is_out errand }
{
    match errand {
        Errand::Absent => false,
        Errand::Waiting => false,
        Errand::Out => true,
    }
}

// Whether an errand waits to be taken.
fn is_waiting(errand: Errand) -> bool
    ensures { result ≡ is_waiting errand }
{
    match errand {
        Errand::Absent => false,
        Errand::Waiting => true,
        Errand::Out => false,
    }
}

// Whether this is the link's present session.
#[tactic(auto, using(crate::proofs::LookFacts::session_is))]
fn is_session<S: Spawner>(core: &LinkCore<S>, link: LinkId, session: u32) -> bool
    ensures stands { (s : LinkState) → StandsFor core.now s → is_session link session s ≡ result }
{
    let now = core.records.session();
    link == core.id && session == now
}

// Whether a dial is the one that is out, by what is so.
fn is_this_dial(dial: Errand, present: bool, failed: u32, failures: u32) -> bool
    ensures { result ≡ (is_out dial && (present && failed == failures)) }
{
    is_out(dial) && (present && failed == failures)
}

// Whether an errand of the present session is out.
fn is_this(errand: Errand, present: bool) -> bool
    ensures { result ≡ (is_out errand && present) }
{
    is_out(errand) && present
}

/// Whether this dial is the one that is out.
#[tactic(auto, using(crate::proofs::LookFacts::dial_is))]
pub fn is_dial_out<S: Spawner>(core: &LinkCore<S>, link: LinkId, session: u32, failed: u32) -> bool
    ensures stands { (s : LinkState) → StandsFor core.now s → is_dial_out link session failed s ≡ result }
    ensures out { result ≡ true → core.now.dial ≡ errand.Out }
{
    let present = is_session(core, link, session);
    is_this_dial(core.dial, present, failed, core.failed_dials)
}

/// Whether this reading is the one that is out.
#[tactic(auto, using(crate::proofs::LookFacts::reading_is))]
pub fn is_reading_out<S: Spawner>(core: &LinkCore<S>, link: LinkId, session: u32) -> bool
    ensures stands { (s : LinkState) → StandsFor core.now s → is_reading_out link session s ≡ result }
    ensures out { result ≡ true → core.now.reading ≡ errand.Out }
{
    let present = is_session(core, link, session);
    is_this(core.reading, present)
}

/// Whether this writing is the one that is out.
#[tactic(auto, using(crate::proofs::LookFacts::writing_is))]
pub fn is_writing_out<S: Spawner>(core: &LinkCore<S>, link: LinkId, session: u32) -> bool
    ensures stands { (s : LinkState) → StandsFor core.now s → is_writing_out link session s ≡ result }
    ensures out { result ≡ true → core.now.writing ≡ errand.Out }
{
    let present = is_session(core, link, session);
    is_this(core.writing, present)
}

/// Whether octets from this place on come next.
#[tactic(auto, using(crate::proofs::LookFacts::next_is))]
pub fn is_next<S: Spawner>(core: &LinkCore<S>, link: LinkId, session: u32, offset: u64) -> bool
    ensures stands { (s : LinkState) → StandsFor core.now s → is_next link session offset s ≡ result }
{
    let present = is_session(core, link, session);
    present && offset == core.taken
}

// Whether a reading may come back so, by whether the line is wanted.
fn may_come_by(how: ReadEnd, wanted: bool) -> bool
    ensures { result ≡ may_come_by how wanted }
{
    match how {
        ReadEnd::End => true,
        ReadEnd::Failed => true,
        ReadEnd::Left => !wanted,
    }
}

/// Whether a reading may come back so.
#[tactic(auto, using(crate::proofs::LookFacts::come_is))]
pub fn may_come_back<S: Spawner>(core: &LinkCore<S>, how: ReadEnd) -> bool
    ensures stands { (s : LinkState) → StandsFor core.now s → may_come_back how s ≡ result }
{
    let wanted = wants_line(core);
    may_come_by(how, wanted)
}

// Whether this stay is the present one.
fn is_stay(stay: u32, present: Option<u32>) -> bool
    ensures { result ≡ is_stay stay present }
{
    match present {
        None => false,
        Some(present) => stay == present,
    }
}

// Whether a post that names a stay names the present one.
fn names_present(post: &Post, present: Option<u32>) -> bool
    ensures { result ≡ names_present (stay_of post.now) present }
{
    match post {
        Post::Member { stay, .. } => is_stay(*stay, present),
        Post::Refused { stay, .. } => is_stay(*stay, present),
        Post::Close { stay, .. } => is_stay(*stay, present),
        Post::Send { .. } => true,
        Post::Reject { .. } => true,
        Post::Wake => true,
    }
}

/// Whether a post of the table is for the link as it is now.
#[tactic(auto, using(crate::proofs::LookFacts::post_is))]
pub fn is_post_present<S: Spawner>(core: &LinkCore<S>, post: &Post) -> bool
    ensures stands { (s : LinkState) → StandsFor core.now s → is_present (FromTable post.now) s ≡ result }
{
    let stay = core.records.stay();
    names_present(post, stay)
}

/// Whether the link hasn't begun.
#[tactic(auto, using(crate::proofs::LookFacts::new_is))]
pub fn is_new<S: Spawner>(core: &LinkCore<S>) -> bool
    ensures stands { (s : LinkState) → StandsFor core.now s → is_new (control s).doing ≡ result }
{
    core.records.is_new()
}

/// Whether a dial is given.
#[tactic(auto, using(crate::proofs::LookFacts::gives_dial_is, crate::proofs::LookFacts::waiting_by))]
pub fn gives_dial<S: Spawner>(core: &LinkCore<S>) -> bool
    ensures stands { (s : LinkState) → StandsFor core.now s → gives_dial s ≡ result }
    ensures waits { result ≡ true → core.now.dial ≡ errand.Waiting }
{
    is_waiting(core.dial)
}

// Whether an errand is in, and something asks for it.
fn is_given(errand: Errand, asked: bool) -> bool
    ensures { result ≡ (is_waiting errand && asked) }
{
    is_waiting(errand) && asked
}

/// Whether a reading is given.
#[tactic(auto, using(crate::proofs::LookFacts::gives_reading_is))]
pub fn gives_reading<S: Spawner>(core: &LinkCore<S>) -> bool
    ensures stands { (s : LinkState) → StandsFor core.now s → gives_reading s ≡ result }
{
    let wanted = wants_line(core);
    is_given(core.reading, wanted)
}

/// Whether a writing is given.
#[tactic(auto, using(crate::proofs::LookFacts::gives_writing_is))]
pub fn gives_writing<S: Spawner>(core: &LinkCore<S>) -> bool
    ensures stands { (s : LinkState) → StandsFor core.now s → gives_writing s ≡ result }
{
    let empty = core.out.is_empty();
    is_given(core.writing, !empty)
}

/// What the link shows of itself.
#[tactic(auto, using(crate::proofs::LookFacts::view_is))]
pub fn view<S: Spawner>(core: &LinkCore<S>) -> LinkView
    ensures stands { (s : LinkState) → StandsFor core.now s → view_of s ≡ result }
{
    let session = core.records.session();
    let lcp_state = core.state();
    let stay = core.records.stay();
    let member = core.records.unit();
    let live = core.records.is_live();
    LinkView {
        session,
        taken: core.taken,
        lcp_state,
        stay,
        member,
        live,
    }
}

/// The status with which the link has finished.
#[tactic(auto, using(crate::proofs::LookFacts::status_is))]
pub fn status<S: Spawner>(core: &LinkCore<S>) -> Option<u8>
    ensures stands { (s : LinkState) → StandsFor core.now s → status_by (control s).doing ≡ result }
{
    core.records.status()
}
