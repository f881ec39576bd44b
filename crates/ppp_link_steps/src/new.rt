//! A link that hasn't begun.

ghost use Rattle.std.specs.Prelude.{◌≡◌, ◌<◌, ◌≤◌, ◌^◌, IfOk};
ghost use Rattle.ppp_lcp.specs.declared.wish.LcpWish.{LcpWish};
ghost use Rattle.ppp_mark.specs.Log.{no_marks};
ghost use Rattle.ppp_link_rules.specs.NewLink.{new_link};
ghost use Rattle.ppp_link_rules.specs.Wishes.{IsWish};
ghost use Rattle.ppp_link_core.specs.Standing.{Lives, Sits, StandsFor, opened};
ghost use Rattle.ppp_link_steps.specs.Calm.{Calm};

use ppp_base::{LinkId, NoMemory};
use ppp_link_core::link_core::LinkCore;
use ppp_link_rules::lcp_wish;
use ppp_option_words::LinkConfig;
use ppp_outside::Spawner;
use ppp_secrets::SecretsPair;
use std::alloc::Global;

/// A link that hasn't begun, whose log has room for so many marks: it keeps what is so between two calls.
#[tactic(auto, using(crate::proofs::NewFacts::new_calm))]
pub fn make_link<S: Spawner>(
    alloc: Global,
    id: LinkId,
    config: LinkConfig,
    secrets: SecretsPair,
    spawner: S,
    seed: u64,
    limit: u32,
) -> Result<LinkCore<S>, NoMemory>
    requires tries { S.tries spawner < 2 ^ 63 }
    requires faults { S.faults spawner < 2 ^ 63 }
    requires limit { limit ≤ 1048576 }
    ensures stands { IfOk result (λ c. (wish : LcpWish) → IsWish config wish → StandsFor c (new_link id config wish secrets seed limit)) }
    ensures sits { IfOk result (λ c. Sits (opened c.lcp) c) }
    ensures calm { IfOk result Calm }
    ensures log { IfOk result (λ c. c.records.scripts.log ≡ no_marks limit) }
    ensures lives { IfOk result Lives }
{
    let _wish = lcp_wish(&config);
    let link = LinkCore::new(alloc, id, config, secrets, spawner, seed, limit)?;
    Ok(link)
}
