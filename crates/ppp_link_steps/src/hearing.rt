//! Octets of the line come between two calls.

ghost use Rattle.std.specs.Prelude.{◌≡◌, ◌≤◌, ◌<◌, length, take};
ghost use Rattle.ppp_mark.specs.Log.{room_of};
ghost use Rattle.ppp_mark.specs.ScriptLog.{Grows};
ghost use Rattle.ppp_link_rules.specs.Hearing.{octets_taken};
ghost use Rattle.ppp_link_core.specs.Standing.{Does, Lives, Sits, opened};
ghost use Rattle.ppp_link_steps.specs.Calm.{Calm};

use ppp_link_core::link_core::LinkCore;
use ppp_link_hearing::octets::take_span;
use ppp_outside::Spawner;

/// Octets of the line come: a front of them is acted on, and how many they were is the answer, at least one where there are any.
pub fn hear_span<S: Spawner>(core: &mut LinkCore<S>, octets: &[u8]) -> usize
    requires lives { Lives core.old }
    requires room { 26 ≤ room_of core.old.records.scripts.log }
    requires sits { Sits (opened core.old.lcp) core.old }
    requires calm { Calm core.old }
    ensures within { result ≤ length octets.now }
    ensures some { 0 < length octets.now → 0 < result }
    ensures does { Does (octets_taken (take result octets.now)) core.old core.new }
    ensures sits { Sits (opened core.new.lcp) core.new }
    ensures calm { Calm core.new }
    ensures grows { Grows 26 core.old.records.scripts.log core.new.records.scripts.log }
    ensures lives { Lives core.new }
{
    take_span(core, octets)
}
