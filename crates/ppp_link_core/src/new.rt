// A link that hasn't begun.
ghost use Rattle.std.specs.Prelude.{◌≡◌, ◌<◌, ◌≤◌, ◌^◌, ℕ, IfOk};
ghost use Rattle.ppp_lcp.specs.declared.wish.LcpWish.{LcpWish};
ghost use Rattle.ppp_link_rules.specs.NewLink.{new_link};
ghost use Rattle.ppp_link_rules.specs.Wishes.{IsWish};
ghost use Rattle.ppp_mark.specs.Log.{no_marks};
ghost use Rattle.ppp_link_core.specs.Standing.{Lives, Sits, StandsFor, opened};

use crate::link_core::LinkCore;
use ppp_base::{LinkId, NoMemory};
use ppp_hdlc::Deframer;
use ppp_link_parts::out_ring::OutRing;
use ppp_link_parts::records::Records;
use ppp_link_parts::talk::Talk;
use ppp_link_parts::up_ring::UpRing;
use ppp_link_rules::counts::FrameCounts;
use ppp_link_rules::errand::Errand;
use ppp_link_rules::{dial_policy, lcp_wish};
use ppp_option_words::{LinkConfig, copied_script};
use ppp_outside::Spawner;
use ppp_secrets::SecretsPair;
use std::alloc::Global;

impl<S: Spawner> LinkCore<S> {
    // Its parts, for whatever LCP will be asked for.
    #[tactic(auto, using(crate::proofs::NewFacts::new_stands, crate::proofs::NewFacts::new_sits))]
    fn make(
        alloc: Global,
        id: LinkId,
        config: LinkConfig,
        secrets: SecretsPair,
        spawner: S,
        seed: u64,
        limit: u32,
    ) -> Result<LinkCore<S>, NoMemory>
        requires tries { S.tries spawner < 2 ^ 63 }
        requires faults { S.faults spawner < 2 ^ 63 }
        requires limit { limit ≤ 1048576 }
        ensures stands { IfOk result (λ c. (wish : LcpWish) → IsWish config wish → StandsFor c (new_link id config wish secrets seed limit)) }
        ensures sits { IfOk result (λ c. Sits (opened c.lcp) c) }
        ensures log { IfOk result (λ c. c.records.scripts.log ≡ no_marks limit) }
    {
        let records = Records::new(alloc, id, dial_policy(&config), spawner, limit)?;
        let script = copied_script(alloc, config.script.as_ref())?;
        let deframer = Deframer::new(alloc)?;
        let out = OutRing::new(alloc)?;
        let up = UpRing::new(alloc)?;
        Ok(LinkCore {
            id,
            config,
            secrets,
            time: 0,
            words: seed,
            records,
            dial: Errand::Absent,
            failed_dials: 0,
            reading: Errand::Absent,
            writing: Errand::Absent,
            line_ended: false,
            taken: 0,
            talk: Talk::new(script),
            deframer,
            counts: FrameCounts {
                frames: 0,
                aborted: 0,
                too_long: 0,
                short: 0,
                bad_fcs: 0,
                bad_header: 0,
            },
            lcp: None,
            auth: None,
            out,
            up,
        })
    }

    /// A link that hasn't begun, whose log has room for so many marks.
    pub fn new(
        alloc: Global,
        id: LinkId,
        config: LinkConfig,
        secrets: SecretsPair,
        spawner: S,
        seed: u64,
        limit: u32,
    ) -> Result<LinkCore<S>, NoMemory>
        requires tries { S.tries spawner < 2 ^ 63 }
        requires faults { S.faults spawner < 2 ^ 63 }
        requires limit { limit ≤ 1048576 }
        ensures stands { IfOk result (λ c. (wish : LcpWish) → IsWish config wish → StandsFor c (new_link id config wish secrets seed limit)) }
        ensures sits { IfOk result (λ c. Sits (opened c.lcp) c) }
        ensures log { IfOk result (λ c. c.records.scripts.log ≡ no_marks limit) }
        ensures lives { IfOk result Lives }
    {
        let _wish = lcp_wish(&config);
        let link = LinkCore::make(alloc, id, config, secrets, spawner, seed, limit)?;
        Ok(link)
    }
}
