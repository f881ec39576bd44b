ghost use Rattle.std.specs.Prelude.{◌≡◌, true};
ghost use Rattle.ppp_bundle.specs.State.{members_of};
ghost use Rattle.ppp_bundle.specs.UnitPart.{MayEnter};
ghost use Rattle.ppp_unit_parts.specs.Member.{has_link};

use crate::{Bundle, BundleEvent, UnitWish};
use ppp_base::{Allow, CloseCause, Datagram, Frame, LinkId, Mrru, Name, Unit, protocol};
use ppp_fsm::Limits;
use ppp_ipcp::IpWish;
use ppp_mark::Mark;
use ppp_outside::ReplaySpawner;
use ppp_secrets::{Secrets, SecretsPair};
use std::alloc::Global;
use std::test::Fail;

// Each asks for its address, which the other acknowledges.
const OUR_REQUEST: [u8; 10] = [1, 1, 0, 10, 3, 6, 10, 0, 0, 1];

const PEERS_ACK: [u8; 10] = [2, 1, 0, 10, 3, 6, 10, 0, 0, 1];

const PEERS_REQUEST: [u8; 10] = [1, 7, 0, 10, 3, 6, 10, 0, 0, 2];

const OUR_ACK: [u8; 10] = [2, 7, 0, 10, 3, 6, 10, 0, 0, 2];

// We are 10.0.0.1 and the peer is 10.0.0.2.
fn wish(idle_s: u16, maxconnect_s: u16) -> UnitWish {
    UnitWish {
        ip: IpWish {
            local: [10, 0, 0, 1],
            remote: Some([10, 0, 0, 2]),
            accept_local: false,
            accept_remote: false,
            restart_s: 3,
            limits: Limits {
                configure: 10,
                terminate: 3,
            },
            max_failure: 10,
        },
        idle_s,
        maxconnect_s,
        device: Name::new(),
        param: Name::new(),
    }
}

fn no_secrets(alloc: Global) -> Result<SecretsPair, Fail> {
    Ok(SecretsPair {
        pap: Secrets::read(alloc, b"").map_err(|_| "pap")?,
        chap: Secrets::read(alloc, b"").map_err(|_| "chap")?,
    })
}

// A unit whose first bundle is made, by link 1.
fn made(
    alloc: Global,
    mrru: Option<Mrru>,
    wish: UnitWish,
    secrets: &SecretsPair,
) -> Result<Bundle<ReplaySpawner>, Fail> {
    let mut unit = Bundle::new(alloc, Unit::zero(), ReplaySpawner::new(), 4096)?;
    let maker = LinkId::new(1).ok_or("link")?;
    let _taken = unit.step(
        BundleEvent::Make {
            number: 1,
            maker,
            wish,
            mrru,
            allow: Allow::Any,
        },
        secrets,
    );
    Ok(unit)
}

// Whether a link is a member.
fn is_member(unit: &Bundle<ReplaySpawner>, link: LinkId) -> bool
    ensures { result ≡ has_link link (members_of unit.now.live) }
{
    unit.members().iter().any(|member| member.link == link)
}

// Whether a link may come in.
#[tactic(auto, using(crate::proofs::EnterFacts::may_join, crate::proofs::EnterFacts::may_begin))]
fn may_enter(unit: &Bundle<ReplaySpawner>, link: LinkId) -> bool
    ensures { result ≡ true → MayEnter unit.now.live link 1500 }
{
    if !unit.has_bundle() || is_member(unit, link) {
        return false;
    }
    unit.mrru().is_some() || unit.members().is_empty()
}

fn enter(unit: &mut Bundle<ReplaySpawner>, number: u8, secrets: &SecretsPair) -> bool {
    if unit.take_sent().is_some() || unit.take_given().is_some() {
        return false;
    }
    let Some(link) = LinkId::new(number) else {
        return false;
    };
    if !may_enter(unit, link) {
        return false;
    }
    unit.step(
        BundleEvent::In {
            link,
            stay: 1,
            mru: 1500,
        },
        secrets,
    )
    .is_taken()
}

fn frame(
    unit: &mut Bundle<ReplaySpawner>,
    number: u8,
    protocol: u16,
    octets: &[u8],
    secrets: &SecretsPair,
) -> bool {
    if unit.take_sent().is_some() || unit.take_given().is_some() {
        return false;
    }
    let Some(link) = LinkId::new(number) else {
        return false;
    };
    let Some(information) = Frame::from_octets(octets) else {
        return false;
    };
    unit.step(
        BundleEvent::Frame {
            link,
            protocol,
            information,
        },
        secrets,
    )
    .is_taken()
}

fn tick(unit: &mut Bundle<ReplaySpawner>, now: u64, secrets: &SecretsPair) -> bool {
    if unit.take_sent().is_some() || unit.take_given().is_some() {
        return false;
    }
    unit.step(BundleEvent::Tick(now), secrets).is_taken()
}

fn datagram(unit: &mut Bundle<ReplaySpawner>, octets: &[u8], secrets: &SecretsPair) -> bool {
    if unit.take_sent().is_some() || unit.take_given().is_some() {
        return false;
    }
    let Some(datagram) = Datagram::from_octets(octets) else {
        return false;
    };
    unit.step(BundleEvent::Datagram(datagram), secrets)
        .is_taken()
}

// The mark at this place.
fn mark(unit: &Bundle<ReplaySpawner>, at: u32) -> Option<Mark> {
    unit.log().get(at)
}

// How many marks there are.
fn marks(unit: &Bundle<ReplaySpawner>) -> u32 {
    unit.log().count()
}

// How it was closed: the cause, its detail, how long it was, and whether it was live.
fn end(unit: &Bundle<ReplaySpawner>) -> Option<(u8, u16, u32, bool)> {
    match unit.ended_by() {
        Some(end) => Some((end.cause, end.y, end.elapsed_ms, end.live)),
        None => None,
    }
}

// What was dropped.
fn dropped(unit: &Bundle<ReplaySpawner>) -> (u64, u64, u64, u64) {
    let counts = unit.counts();
    (
        counts.not_open,
        counts.stranger,
        counts.too_big,
        counts.bad_inner,
    )
}

// Whether IP is open, how often it was, how many bundles were made, and the job that runs.
fn scripts(unit: &Bundle<ReplaySpawner>) -> (bool, u32, u32, Option<u32>) {
    (
        unit.opened(),
        unit.openings(),
        unit.bundles(),
        unit.running(),
    )
}

// How many members there are of a bundle that lives.
fn members(unit: &Bundle<ReplaySpawner>) -> Option<usize> {
    if unit.has_bundle() {
        Some(unit.members().len())
    } else {
        None
    }
}

fn job(unit: &mut Bundle<ReplaySpawner>) -> Option<u32> {
    match unit.take_job() {
        Some(job) => Some(job.number()),
        None => None,
    }
}

// Whether the first of what is sent is this, over this link.
fn sends(unit: &mut Bundle<ReplaySpawner>, number: u8, protocol: u16, octets: &[u8]) -> bool {
    match unit.take_sent() {
        Some(sending) => {
            sending.link.number() == number
                && sending.protocol == protocol
                && sending.information.as_slice() == octets
                && !sending.rejected
        }
        None => false,
    }
}

// Whether the first of what is given is this.
fn gives(unit: &mut Bundle<ReplaySpawner>, octets: &[u8]) -> bool {
    match unit.take_given() {
        Some(datagram) => datagram.as_slice() == octets,
        None => false,
    }
}

// The peer's request, and its ack of ours, over a plain bundle's link 1: IP opens.
fn negotiate(unit: &mut Bundle<ReplaySpawner>, secrets: &SecretsPair) -> bool {
    let asks = sends(unit, 1, protocol::IPCP, &OUR_REQUEST);
    let hears = frame(unit, 1, protocol::IPCP, &PEERS_REQUEST, secrets);
    let acks = sends(unit, 1, protocol::IPCP, &OUR_ACK);
    let opens = frame(unit, 1, protocol::IPCP, &PEERS_ACK, secrets);
    asks && hears && acks && opens
}

// Five seconds after the opening: with `maxconnect 5` the bundle ends, with `idle 5` too, where nothing passed.
fn five_seconds(
    unit: &mut Bundle<ReplaySpawner>,
    secrets: &SecretsPair,
) -> (bool, Option<(u8, u16, u32, bool)>) {
    let begun = enter(unit, 1, secrets) && negotiate(unit, secrets);
    let before = tick(unit, 4999, secrets) && members(unit) == Some(1);
    let over = tick(unit, 5000, secrets);
    (begun && before && over, end(unit))
}

#[test]
fn a_bundle_is_closed_after_its_time(rt: HostRuntime) -> Result<(), Fail> {
    let secrets = no_secrets(rt.alloc())?;
    let mut unit = made(rt.alloc(), None, wish(0, 5), &secrets)?;
    assert_eq!(rt;
        five_seconds(&mut unit, &secrets),
        (true, Some((13, 0, 5000, true)))
    );
    Ok(())
}

#[test]
fn a_bundle_without_datagrams_is_closed(rt: HostRuntime) -> Result<(), Fail> {
    let secrets = no_secrets(rt.alloc())?;
    let mut unit = made(rt.alloc(), None, wish(5, 0), &secrets)?;
    assert_eq!(rt;
        five_seconds(&mut unit, &secrets),
        (true, Some((12, 0, 5000, true)))
    );
    Ok(())
}

// The peer's Terminate-Request closes IP; as its restart time has passed, the bundle ends.
fn peer_ends(unit: &mut Bundle<ReplaySpawner>, secrets: &SecretsPair) -> bool {
    let begun = enter(unit, 1, secrets) && negotiate(unit, secrets);
    let shut = frame(unit, 1, protocol::IPCP, &[5, 9, 0, 4], secrets);
    let answers = sends(unit, 1, protocol::IPCP, &[6, 9, 0, 4]);
    let before = tick(unit, 2999, secrets) && members(unit) == Some(1);
    begun && shut && answers && before && tick(unit, 3000, secrets)
}

#[test]
fn the_peer_ends_it(rt: HostRuntime) -> Result<(), Fail> {
    let secrets = no_secrets(rt.alloc())?;
    let mut unit = made(rt.alloc(), None, wish(0, 0), &secrets)?;
    assert_eq!(rt; peer_ends(&mut unit, &secrets), true);
    assert_eq!(rt; end(&unit), Some((15, 1, 0, true)));
    assert_eq!(rt;
        mark(&unit, 7),
        Some(Mark::close(3000, CloseCause::EndedByPeer, 0))
    );
    assert_eq!(rt; mark(&unit, 9), Some(Mark::unmade(3000, 1)));
    Ok(())
}

// A Code-Reject of our request: the negotiation has failed, and IP was never opened.
#[test]
fn a_failed_negotiation_ends_it(rt: HostRuntime) -> Result<(), Fail> {
    let secrets = no_secrets(rt.alloc())?;
    let mut unit = made(rt.alloc(), None, wish(0, 0), &secrets)?;
    let begun = enter(&mut unit, 1, &secrets) && sends(&mut unit, 1, protocol::IPCP, &OUR_REQUEST);
    let rejected = frame(
        &mut unit,
        1,
        protocol::IPCP,
        &[7, 1, 0, 8, 1, 1, 0, 4],
        &secrets,
    );
    assert_eq!(rt;
        (begun && rejected, end(&unit)),
        (true, Some((14, 0, 0, false)))
    );
    Ok(())
}

#[test]
fn a_start_stands_behind_the_opening_and_before_its_addresses(rt: HostRuntime) -> Result<(), Fail> {
    let secrets = no_secrets(rt.alloc())?;
    let mut unit = made(rt.alloc(), None, wish(0, 0), &secrets)?;
    let opened = enter(&mut unit, 1, &secrets) && negotiate(&mut unit, &secrets);
    assert_eq!(rt; (opened, marks(&unit)), (true, 6));
    assert_eq!(rt; mark(&unit, 2), Some(Mark::ip_open(0, 1)));
    assert_eq!(rt; mark(&unit, 3), Some(Mark::started(0, true, 1)));
    assert_eq!(rt; mark(&unit, 4), Some(Mark::local(0, [10, 0, 0, 1])));
    assert_eq!(rt; scripts(&unit), (true, 1, 1, Some(1)));
    assert_eq!(rt; (job(&mut unit), job(&mut unit)), (Some(1), None));
    Ok(())
}

// What passes in Opened alone, and what is counted.
fn passes(unit: &mut Bundle<ReplaySpawner>, secrets: &SecretsPair) -> bool {
    let early = datagram(unit, &[69], secrets);
    let begun = enter(unit, 1, secrets) && negotiate(unit, secrets);
    let comes = frame(unit, 1, protocol::IP, &[69, 0], secrets) && gives(unit, &[69, 0]);
    let strange = frame(unit, 2, protocol::IP, &[69, 0], secrets);
    early && begun && comes && strange && datagram(unit, &[69; 1501], secrets)
}

#[test]
fn what_passes_in_opened_alone_is_counted_before(rt: HostRuntime) -> Result<(), Fail> {
    let secrets = no_secrets(rt.alloc())?;
    let mut unit = made(rt.alloc(), None, wish(0, 0), &secrets)?;
    assert_eq!(rt;
        (passes(&mut unit, &secrets), dropped(&unit)),
        (true, (1, 1, 1, 0))
    );
    Ok(())
}

// Our request and our ack have the numbers 0 and 1, and each goes whole to one member.
fn begins_with_two(unit: &mut Bundle<ReplaySpawner>, secrets: &SecretsPair) -> bool {
    let first = enter(unit, 1, secrets)
        && sends(
            unit,
            1,
            protocol::MULTILINK,
            &[0xc0, 0, 0, 0, 0x80, 0x21, 1, 1, 0, 10, 3, 6, 10, 0, 0, 1],
        );
    let second = enter(unit, 2, secrets) && members(unit) == Some(2);
    let acks = frame(unit, 1, protocol::IPCP, &PEERS_REQUEST, secrets)
        && sends(
            unit,
            2,
            protocol::MULTILINK,
            &[0xc0, 0, 0, 1, 0x80, 0x21, 2, 7, 0, 10, 3, 6, 10, 0, 0, 2],
        );
    first && second && acks && frame(unit, 2, protocol::IPCP, &PEERS_ACK, secrets)
}

// The length of the next piece, its link, and whether it begins with these octets.
fn piece(unit: &mut Bundle<ReplaySpawner>, begins: &[u8]) -> Option<(usize, u8, bool)> {
    match unit.take_sent() {
        Some(sending) => Some((
            sending.information.len(),
            sending.link.number(),
            sending.information.as_slice().starts_with(begins),
        )),
        None => None,
    }
}

#[test]
fn a_multilink_bundle_sends_pieces(rt: HostRuntime) -> Result<(), Fail> {
    let secrets = no_secrets(rt.alloc())?;
    let mut unit = made(rt.alloc(), Mrru::new(1500, 1500), wish(0, 0), &secrets)?;
    let begun = begins_with_two(&mut unit, &secrets) && datagram(&mut unit, &[69; 299], &secrets);
    assert_eq!(rt; begun, true);
    assert_eq!(rt;
        piece(&mut unit, &[0x80, 0, 0, 2, 0x21, 69]),
        Some((154, 1, true))
    );
    assert_eq!(rt;
        piece(&mut unit, &[0x40, 0, 0, 3, 69]),
        Some((154, 2, true))
    );
    Ok(())
}

// What comes in pieces is given once, in whatever order they come.
fn gathers(unit: &mut Bundle<ReplaySpawner>, secrets: &SecretsPair) -> bool {
    let last = frame(unit, 2, protocol::MULTILINK, &[0x40, 0, 0, 1, 70], secrets);
    let first = frame(
        unit,
        1,
        protocol::MULTILINK,
        &[0x80, 0, 0, 0, 0x21, 69],
        secrets,
    );
    let given = gives(unit, &[69, 70]);
    let again = frame(
        unit,
        1,
        protocol::MULTILINK,
        &[0x80, 0, 0, 0, 0x21, 69],
        secrets,
    );
    last && first && given && again && unit.take_given().is_none()
}

#[test]
fn a_multilink_bundle_gathers_pieces(rt: HostRuntime) -> Result<(), Fail> {
    let secrets = no_secrets(rt.alloc())?;
    let mut unit = made(rt.alloc(), Mrru::new(1500, 1500), wish(0, 0), &secrets)?;
    let begun = begins_with_two(&mut unit, &secrets);
    assert_eq!(rt; (begun, gathers(&mut unit, &secrets)), (true, true));
    Ok(())
}
