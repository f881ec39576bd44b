ghost use Rattle.std.specs.Prelude.{◌≡◌, [], ◌∷◌, ◌++◌, OnOk, IfOk, IfErr, length};
ghost use Rattle.ppp_chat.specs.Room.{AreFew, HasRoom};
ghost use Rattle.ppp_chat.specs.Settings.{aborts_of};
ghost use Rattle.ppp_chat.specs.Steps.{directives_in};
ghost use Rattle.ppp_chat.specs.Texts.{AreShort, IsShort};

use crate::directives::Directives;
use crate::fault::ScriptFault;
use crate::step::Step;
use ppp_base::NoMemory;
use std::alloc::Global;
use std::marker::Model;

/// The steps of a script, and the abort strings that they set. Contracts see them as the list of the steps.
#[derive(Drop)]
pub(crate) struct Steps {
    steps: Vec<Step>,
    directives: Directives,
}

impl Model for Steps {
    ghost use Rattle.std.specs.Prelude.{List};
    ghost use Rattle.ppp_chat.specs.declared.step.Step.{Step};
    ghost use Rattle.ppp_chat.specs.Obeyed.{AreObeyed};

    ghost Value = { List Step };

    ghost view = { λ steps. steps.steps.items };

    ghost invariant = { λ steps. AreObeyed steps.steps.items steps.directives };
}

impl Steps {
    /// No steps.
    pub fn new(alloc: Global) -> Steps
        ensures { result ≡ [] }
    {
        Steps {
            steps: Vec::new(alloc),
            directives: Directives::new(0),
        }
    }

    /// Adds a step at the end.
    pub fn push(&mut self, step: Step) -> Result<(), ScriptFault>
        requires short { IsShort step }
        requires room { HasRoom step (length (aborts_of (directives_in self.old))) }
        ensures pushed { OnOk result (self.new ≡ self.old ++ step ∷ []) }
        ensures memory { IfErr result (λ fault. fault ≡ ScriptFault.NoMemory) }
    {
        let place = self.steps.len();
        self.steps.push(step)?;
        let steps = self.steps.as_slice();
        if let Step::Direct(directive) = &steps[place] {
            self.directives.obey(steps, place, directive);
        }
        Ok(())
    }

    /// How many abort strings are set behind the steps.
    pub fn aborts_set(&self) -> usize
        ensures { result ≡ length (aborts_of (directives_in self.now)) }
    {
        self.directives.aborts.len()
    }

    /// The steps.
    pub fn as_slice(&self) -> &[Step]
        ensures steps { result.now ≡ self.now }
        ensures short { AreShort self.now }
        ensures few { AreFew self.now }
    {
        self.steps.as_slice()
    }

    /// The same steps again.
    pub fn copy(&self, alloc: Global) -> Result<Steps, NoMemory>
        ensures { IfOk result (λ steps. steps ≡ self.now) }
    {
        Ok(Steps {
            steps: copied(alloc, self.steps.as_slice())?,
            directives: self.directives.copy(),
        })
    }
}

// The same steps again.
fn copied(alloc: Global, steps: &[Step]) -> Result<Vec<Step>, NoMemory>
    ensures { IfOk result (λ copies. copies.items ≡ steps.now) }
{
    let mut copies = Vec::new(alloc);
    for step in steps {
        copies.push(step.copy(alloc)?)?;
    }
    Ok(copies)
}
