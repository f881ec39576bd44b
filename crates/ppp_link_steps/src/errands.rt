//! Errands are given and come back.

ghost use Rattle.std.specs.Prelude.{◌≡◌, ◌≤◌};
ghost use Rattle.ppp_mark.specs.Log.{room_of};
ghost use Rattle.ppp_mark.specs.ScriptLog.{Grows};
ghost use Rattle.ppp_link_rules.specs.LinkPart.{reading_back, writing_back};
ghost use Rattle.ppp_link_core.specs.Standing.{Does, Lives, Sits, opened};
ghost use Rattle.ppp_link_steps.specs.Calm.{Calm};
ghost use Rattle.ppp_link_steps.specs.Back.{reading_come, with_reading_in, with_writing_in, writing_come};

use crate::line::lose_line;
use ppp_link_core::link_core::LinkCore;
use ppp_link_rules::cause::Cause;
use ppp_link_rules::errand::{Errand, ReadEnd, SentEnd};
use ppp_outside::Spawner;

// The reading is in.
#[tactic(auto, using(crate::proofs::ErrandFacts::read_does))]
fn put_reading_in<S: Spawner>(core: &mut LinkCore<S>)
    requires lives { Lives core.old }
    ensures does { Does with_reading_in core.old core.new }
    ensures rest { core.new ≡ record core.old { reading = core.new.reading } }
    ensures lives { Lives core.new }
{
    core.reading = Errand::Waiting;
}

// The writing is in.
#[tactic(auto, using(crate::proofs::ErrandFacts::written_does))]
fn put_writing_in<S: Spawner>(core: &mut LinkCore<S>)
    requires lives { Lives core.old }
    ensures does { Does with_writing_in core.old core.new }
    ensures rest { core.new ≡ record core.old { writing = core.new.writing } }
    ensures lives { Lives core.new }
{
    core.writing = Errand::Waiting;
}

// What a reading that came back leads to.
#[tactic(auto, using(crate::proofs::ErrandFacts::back_end, crate::proofs::ErrandFacts::back_failed, crate::proofs::ErrandFacts::back_left))]
fn follow_reading<S: Spawner>(core: &mut LinkCore<S>, how: ReadEnd)
    requires lives { Lives core.old }
    requires room { 18 ≤ room_of core.old.records.scripts.log }
    requires sits { Sits (opened core.old.lcp) core.old }
    ensures does { Does (reading_back how) core.old core.new }
    ensures sits { Sits (opened core.new.lcp) core.new }
    ensures grows { Grows 18 core.old.records.scripts.log core.new.records.scripts.log }
    ensures lives { Lives core.new }
{
    match how {
        ReadEnd::End => lose_line(
            core,
            Cause {
                number: 10,
                detail: 0,
            },
        ),
        ReadEnd::Failed => lose_line(
            core,
            Cause {
                number: 10,
                detail: 1,
            },
        ),
        ReadEnd::Left => {}
    }
}

// What a writing that came back leads to.
#[tactic(auto, using(crate::proofs::ErrandFacts::sent_all, crate::proofs::ErrandFacts::sent_failed))]
fn follow_writing<S: Spawner>(core: &mut LinkCore<S>, how: SentEnd)
    requires lives { Lives core.old }
    requires room { 18 ≤ room_of core.old.records.scripts.log }
    requires sits { Sits (opened core.old.lcp) core.old }
    ensures does { Does (writing_back how) core.old core.new }
    ensures sits { Sits (opened core.new.lcp) core.new }
    ensures grows { Grows 18 core.old.records.scripts.log core.new.records.scripts.log }
    ensures lives { Lives core.new }
{
    match how {
        SentEnd::All => {}
        SentEnd::Failed(_) => lose_line(
            core,
            Cause {
                number: 10,
                detail: 2,
            },
        ),
    }
}

/// A reading comes back.
#[tactic(auto, using(crate::proofs::ErrandFacts::reading_does, crate::proofs::ErrandFacts::reading_calm, crate::proofs::ErrandFacts::sits_read))]
pub fn take_reading_back<S: Spawner>(core: &mut LinkCore<S>, how: ReadEnd)
    requires lives { Lives core.old }
    requires room { 18 ≤ room_of core.old.records.scripts.log }
    requires sits { Sits (opened core.old.lcp) core.old }
    ensures does { Does (reading_come how) core.old core.new }
    ensures sits { Sits (opened core.new.lcp) core.new }
    ensures calm { Calm core.old → Calm core.new }
    ensures grows { Grows 18 core.old.records.scripts.log core.new.records.scripts.log }
    ensures lives { Lives core.new }
{
    put_reading_in(core);
    follow_reading(core, how);
}

/// A writing comes back.
#[tactic(auto, using(crate::proofs::ErrandFacts::writing_does, crate::proofs::ErrandFacts::writing_calm, crate::proofs::ErrandFacts::sits_written))]
pub fn take_writing_back<S: Spawner>(core: &mut LinkCore<S>, how: SentEnd)
    requires lives { Lives core.old }
    requires room { 18 ≤ room_of core.old.records.scripts.log }
    requires sits { Sits (opened core.old.lcp) core.old }
    ensures does { Does (writing_come how) core.old core.new }
    ensures sits { Sits (opened core.new.lcp) core.new }
    ensures calm { Calm core.old → Calm core.new }
    ensures grows { Grows 18 core.old.records.scripts.log core.new.records.scripts.log }
    ensures lives { Lives core.new }
{
    put_writing_in(core);
    follow_writing(core, how);
}
