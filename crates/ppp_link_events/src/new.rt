//! A link that hasn't begun.

ghost use Rattle.std.specs.Prelude.{◌<◌, ◌≤◌, ◌^◌, IfOk};
ghost use Rattle.ppp_lcp.specs.declared.wish.LcpWish.{LcpWish};
ghost use Rattle.ppp_link_rules.specs.NewLink.{new_link};
ghost use Rattle.ppp_link_rules.specs.Wishes.{IsWish};
ghost use Rattle.ppp_link_events.specs.Going.{Goes, IsGoing};

use ppp_base::{LinkId, NoMemory};
use ppp_link_core::link_core::LinkCore;
use ppp_link_rules::lcp_wish;
use ppp_link_steps::new::make_link;
use ppp_option_words::LinkConfig;
use ppp_outside::Spawner;
use ppp_secrets::SecretsPair;
use std::alloc::Global;

/// A link that hasn't begun, whose log has room for so many marks.
#[tactic(auto, using(crate::proofs::NewFacts::new_going, crate::proofs::NewFacts::new_goes))]
pub fn make<S: Spawner>(
    alloc: Global,
    id: LinkId,
    config: LinkConfig,
    secrets: SecretsPair,
    spawner: S,
    seed: u64,
    limit: u32,
) -> Result<LinkCore<S>, NoMemory>
    requires tries { S.tries spawner < 2 ^ 63 }
    requires faults { S.faults spawner < 2 ^ 63 }
    requires least { 1024 ≤ limit }
    requires limit { limit ≤ 1048576 }
    ensures going { IfOk result (λ c. (wish : LcpWish) → IsWish config wish → IsGoing c (new_link id config wish secrets seed limit)) }
    ensures goes { IfOk result Goes }
{
    let _wish = lcp_wish(&config);
    let link = make_link(alloc, id, config, secrets, spawner, seed, limit)?;
    Ok(link)
}
