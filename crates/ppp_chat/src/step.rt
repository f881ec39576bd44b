ghost use Rattle.std.specs.Prelude.{◌≡◌, IfOk};

use crate::directive::Directive;
use crate::text::Text;
use ppp_base::NoMemory;
use std::alloc::Global;

/// A step of a script. A word that is expected is its parts and `Met`: what follows a string that is met is what
/// stands behind `Met`, and what follows a timeout is what stands directly behind the string.
#[derive(Drop)]
pub(crate) enum Step {
    /// A directive is met.
    Direct(Directive),
    /// The string is waited for.
    Expect(Text),
    /// The end of a word that is expected.
    Met,
    /// The octets are sent.
    Send(Text),
    /// So many milliseconds pass.
    Pause(u16),
}

impl Step {
    /// The same step again.
    pub fn copy(&self, alloc: Global) -> Result<Step, NoMemory>
        ensures { IfOk result (λ step. step ≡ self.now) }
    {
        match self {
            Step::Direct(directive) => Ok(Step::Direct(directive.copy(alloc)?)),
            Step::Expect(text) => Ok(Step::Expect(text.copy(alloc)?)),
            Step::Met => Ok(Step::Met),
            Step::Send(text) => Ok(Step::Send(text.copy(alloc)?)),
            Step::Pause(milliseconds) => Ok(Step::Pause(*milliseconds)),
        }
    }
}
