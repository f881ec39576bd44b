ghost use Rattle.std.specs.Prelude.{◌≡◌, IfOk};

use crate::text::Text;
use ppp_base::NoMemory;
use std::alloc::Global;

/// A directive of a script, met in its turn (chat(8), "Abort strings", "Timeout").
#[derive(Drop)]
pub(crate) enum Directive {
    /// The string is an abort string from now on.
    Abort(Text),
    /// Each abort string that equals this one is none any more.
    ClearAbort(Text),
    /// An expect that begins from now on is late after so many seconds.
    Timeout(u16),
}

impl Directive {
    /// The same directive again.
    pub fn copy(&self, alloc: Global) -> Result<Directive, NoMemory>
        ensures { IfOk result (λ directive. directive ≡ self.now) }
    {
        match self {
            Directive::Abort(text) => Ok(Directive::Abort(text.copy(alloc)?)),
            Directive::ClearAbort(text) => Ok(Directive::ClearAbort(text.copy(alloc)?)),
            Directive::Timeout(seconds) => Ok(Directive::Timeout(*seconds)),
        }
    }
}
