ghost use Rattle.std.specs.Prelude.{◌≡◌, ℕ, ◌<◌, ◌≤◌, [], List, Some, slice_get, length, IfSome};
ghost use Rattle.ppp_chat.specs.Course.{obeyed};
ghost use Rattle.ppp_chat.specs.Ending.{abort_found, is_found};
ghost use Rattle.ppp_chat.specs.Room.{HasRoom};
ghost use Rattle.ppp_chat.specs.Settings.{settings_after};
ghost use Rattle.ppp_chat.specs.Texts.{AreBelow, abort_at, kept_settings};
ghost use Rattle.std.specs.List.{position};
ghost use Rattle.ppp_chat.specs.declared.step.Step.{Step};

use crate::directive::Directive;
use crate::step::Step;
use arrayvec::ArrayVec;

/// The most abort strings that are set at once.
pub(crate) const MOST_ABORTS: usize = 50;

/// What the directives of a script have set so far.
#[derive(Drop)]
pub(crate) struct Directives {
    /// The places of the steps that set an abort string, in that order.
    pub aborts: ArrayVec<usize, 50>,
    /// After so many milliseconds an expect is late.
    pub timeout_ms: u64,
}

// The abort string of the step at a place.
fn abort_at(steps: &[Step], place: usize) -> &[u8]
    ensures { result.now ≡ abort_at steps.now place }
{
    match steps.get(place) {
        Some(Step::Direct(Directive::Abort(text))) => text.as_slice(),
        _ => &[],
    }
}

impl Directives {
    /// Before any directive.
    pub fn new(timeout_s: u32) -> Directives
        ensures settings { (steps : List Step) → kept_settings steps result ≡ settings_after timeout_s [] }
        ensures none { result.aborts.items ≡ [] }
    {
        Directives {
            aborts: ArrayVec::new(),
            timeout_ms: u64::from(timeout_s) * 1000,
        }
    }

    // Each abort string that equals this one is none any more.
    fn clear_abort(&mut self, steps: &[Step], text: &[u8])
        ensures set { kept_settings steps.now self.new ≡ obeyed (Directive.ClearAbort text.now) (kept_settings steps.now self.old) }
        ensures below { (end : ℕ) → AreBelow end self.old.aborts.items → AreBelow end self.new.aborts.items }
        ensures fewer { length self.new.aborts.items ≤ length self.old.aborts.items }
    {
        let mut kept = ArrayVec::new();
        for place in self.aborts.as_slice() {
            if abort_at(steps, *place) != text {
                kept.push(*place);
            }
        }
        self.aborts = kept;
    }

    /// Does what the directive of a step, which stands at this place, says.
    pub fn obey(&mut self, steps: &[Step], place: usize, directive: &Directive)
        requires at { slice_get steps.now place ≡ Some (Step.Direct directive.now) }
        requires room { HasRoom (Step.Direct directive.now) (length self.old.aborts.items) }
        ensures set { kept_settings steps.now self.new ≡ obeyed directive.now (kept_settings steps.now self.old) }
        ensures below { (end : ℕ) → place < end → AreBelow end self.old.aborts.items → AreBelow end self.new.aborts.items }
        ensures few { length self.old.aborts.items ≤ MOST_ABORTS → length self.new.aborts.items ≤ MOST_ABORTS }
    {
        match directive {
            Directive::Abort(_) => self.aborts.push(place),
            Directive::ClearAbort(text) => self.clear_abort(steps, text.as_slice()),
            Directive::Timeout(seconds) => self.timeout_ms = u64::from(*seconds) * 1000,
        }
    }

    /// The same again. It takes no memory.
    pub fn copy(&self) -> Directives
        ensures places { result.aborts.items ≡ self.now.aborts.items }
        ensures timeout { result.timeout_ms ≡ self.now.timeout_ms }
    {
        let mut aborts = ArrayVec::new();
        let _ = aborts.try_extend_from_slice(self.aborts.as_slice());
        Directives {
            aborts,
            timeout_ms: self.timeout_ms,
        }
    }

    // The first place among the abort strings of one that the octets end with.
    fn first_found(&self, steps: &[Step], octets: &[u8]) -> Option<usize>
        ensures place { result ≡ position (λ place. is_found octets.now (abort_at steps.now place)) self.now.aborts.items }
        ensures within { IfSome result (λ place. place < MOST_ABORTS) }
    {
        self.aborts
            .iter()
            .position(|place| octets.ends_with(abort_at(steps, *place)))
    }

    /// Which abort string the octets end with, counted from 1.
    pub fn abort_found(&self, steps: &[Step], octets: &[u8]) -> Option<u8>
        ensures { result ≡ abort_found octets.now (kept_settings steps.now self.now).aborts }
    {
        let place = self.first_found(steps, octets)?;
        Some(place as u8 + 1)
    }
}
