ghost use Rattle.std.specs.Prelude.{◌≡◌, ◌≤◌, option_to_list};
ghost use Rattle.ppp_table.specs.Told.{cause_of, end_for, is_new, told, told_all, told_end, told_member};
ghost use Rattle.ppp_unit_parts.specs.Member.{stay_of};
ghost use Rattle.ppp_table_parts.specs.Side.{without_frames};
ghost use Rattle.ppp_table_parts.specs.Sides.{at_link};

use crate::news::StepNews;
use crate::stays::stay_of;
use ppp_base::{CloseCause, LinkId, Post};
use ppp_bundle::{BundleEnd, Member};
use ppp_table_parts::sides::Sides;

// The cause of this number.
fn cause_of(number: u8) -> CloseCause
    ensures { result ≡ cause_of number }
{
    match number {
        12 => CloseCause::Idle,
        13 => CloseCause::ConnectTime,
        14 => CloseCause::IpcpFailed,
        15 => CloseCause::EndedByPeer,
        _ => CloseCause::TooManyChanges,
    }
}

// Whether a link is the one that comes in, or goes out, by the step.
fn is_new(link: LinkId, one: &Option<Member>) -> bool
    ensures { result ≡ is_new (stay_of link (option_to_list one.now)) }
{
    match one {
        Some(member) => member.link == link,
        None => false,
    }
}

// A member is told at joining, and when IPCP becomes Opened.
#[tactic(auto, using(ppp_table_parts::proofs::SideLemmas::none_at))]
fn tell_member(news: &StepNews, link: LinkId, stay: u32, sides: &mut Sides)
    ensures { sides.new ≡ at_link link (told_member news.now link stay) sides.old }
{
    if news.opened || is_new(link, &news.comes) {
        sides.put_control(
            link,
            Post::Member {
                stay,
                unit: news.unit,
                live: news.live,
            },
        );
    }
}

// Who goes out by the step isn't told of the end.
fn end_for(news: &StepNews, link: LinkId) -> Option<BundleEnd>
    ensures { result ≡ end_for (is_new (stay_of link news.now.goes)) news.now.ended }
{
    if is_new(link, &news.goes) {
        return None;
    }
    news.ended
}

// A member of a bundle that is closed is told so.
#[tactic(auto, using(ppp_table_parts::proofs::SideLemmas::none_at))]
fn tell_close(news: &StepNews, link: LinkId, stay: u32, ended: Option<BundleEnd>, sides: &mut Sides)
    ensures { sides.new ≡ at_link link (told_end news.now stay ended) sides.old }
{
    if let Some(end) = ended {
        sides.put_control(
            link,
            Post::Close {
                stay,
                unit: news.unit,
                cause: cause_of(end.cause),
                elapsed_ms: end.elapsed_ms,
                live: end.live,
            },
        );
    }
}

// One that was taken out: its frames are dropped, and a member of a bundle that is closed is told so.
fn tell_end(news: &StepNews, link: LinkId, stay: u32, sides: &mut Sides)
    ensures { sides.new ≡ at_link link (λ side. told_end news.now stay (end_for (is_new (stay_of link news.now.goes)) news.now.ended) (without_frames side)) sides.old }
{
    let ended = end_for(news, link);
    sides.clear(link);
    tell_close(news, link, stay, ended, sides);
}

// One link is told what a step tells it.
#[tactic(auto, using(ppp_table_parts::proofs::SideLemmas::none_at))]
fn tell(news: &StepNews, link: LinkId, sides: &mut Sides)
    ensures { sides.new ≡ at_link link (told news.now link) sides.old }
{
    match (
        stay_of(link, news.after.as_slice()),
        stay_of(link, news.before.as_slice()),
    ) {
        (Some(stay), _) => tell_member(news, link, stay, sides),
        (None, Some(stay)) => tell_end(news, link, stay, sides),
        (None, None) => {}
    }
}

// Each link is told what a step tells it.
#[tactic(auto, using(ppp_table_parts::proofs::SideLemmas::one_more, ppp_table_parts::proofs::SideLemmas::all_of, ppp_table_parts::proofs::SideLemmas::first_length))]
pub(crate) fn tell_all(news: &StepNews, sides: &mut Sides)
    ensures { sides.new ≡ told_all news.now sides.old }
{
    let past = sides.count() + 1;
    for number in 1..past {
        tell(news, LinkId::new(number).unwrap(), sides);
    }
}
