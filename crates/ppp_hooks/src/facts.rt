ghost use Rattle.std.specs.Prelude.{◌≡◌, [], ℕ, ◌+◌, ◌-◌, ◌^◌, ◌<◌, ◌≤◌, ◌∷◌, List, None, Some, option_map, if◌then◌else◌, nat_lt};
ghost use Rattle.ppp_hooks.specs.HookFacts.{settled, start_due, with_open, with_closed, with_end, up_of, down_of, start_key, opening_number, StandsFor, HasArgs, started, no_facts};
ghost use Rattle.ppp_hooks.specs.HookMark.{HookMark, Opened, Closed, Ended};
ghost use Rattle.ppp_hooks.specs.HookPast.{not_started_by, starts_in, ends_in, open_in, greatest_in, last_in, running_in};
ghost use Rattle.ppp_hooks.specs.HookRule.{due_after, with_due};
ghost use Rattle.ppp_hooks.specs.HookWords.{words_of_start, script_for};

use ppp_base::HookTarget;
use ppp_outside::{HookArgs, HookScript, HookWords, ScriptEnd};

/// An opening of the protocol, and what its scripts are told.
#[derive(Drop)]
pub(crate) struct Opening {
    pub(crate) number: u32,
    pub(crate) args: HookArgs,
}

impl Opening {
    fn copy(&self) -> Opening
        ensures { result ≡ self.now }
    {
        Opening {
            number: self.number,
            args: self.args.copy(),
        }
    }
}

/// A start of a script, for an opening.
#[derive(Drop)]
pub(crate) struct Start {
    pub(crate) up: bool,
    pub(crate) opening: Opening,
}

/// A start of a script: up or down, and the number of the opening that it is for.
#[derive(Clone, Copy, Debug, PartialEq, Eq)]
pub struct HookStart {
    pub up: bool,
    pub opening: u32,
}

/// What a machine knows of its openings and starts, without a spawner: logic that has none keeps these alone.
#[derive(Drop)]
pub struct HookFacts {
    pub(crate) now_open: Option<Opening>,
    pub(crate) last: Option<Start>,
    pub(crate) greatest: u32,
    pub(crate) starts: u32,
    pub(crate) ends: u32,
    pub(crate) not_started: u32,
}

// An up of the opening that is open.
fn up(now_open: &Option<Opening>) -> Option<Start>
    ensures { result ≡ up_of now_open.now }
{
    now_open.as_ref().map(|opening| Start {
        up: true,
        opening: opening.copy(),
    })
}

// The down of an up, unless its opening is open.
fn down(was: &Opening, now_open: &Option<Opening>) -> Option<Start>
    ensures { result ≡ down_of was.now now_open.now }
{
    if let Some(opening) = now_open
        && opening.number == was.number
    {
        return None;
    }
    Some(Start {
        up: false,
        opening: was.copy(),
    })
}

// The start that is due while no script runs.
fn due(last: &Option<Start>, now_open: &Option<Opening>) -> Option<Start>
    ensures { result ≡ start_due last.now now_open.now }
{
    match last {
        Some(start) if start.up => down(&start.opening, now_open),
        _ => up(now_open),
    }
}

// The script of a direction.
fn script(target: HookTarget, up: bool) -> HookScript
    ensures { result ≡ script_for target up }
{
    match (target, up) {
        (HookTarget::Link(_), true) => HookScript::AuthUp,
        (HookTarget::Link(_), false) => HookScript::AuthDown,
        (HookTarget::Unit(_), true) => HookScript::IpUp,
        (HookTarget::Unit(_), false) => HookScript::IpDown,
    }
}

// 1 for a script that was not started.
fn failures(answer: ScriptEnd) -> u32
    ensures count { result ≡ not_started_by answer }
    ensures bound { result ≤ 1 }
{
    match answer {
        ScriptEnd::Exit(_) | ScriptEnd::Killed => 0,
        ScriptEnd::NotStarted => 1,
    }
}

impl HookFacts {
    /// Those of a protocol that is closed, with no start so far.
    pub fn new() -> HookFacts
        ensures value { result ≡ no_facts }
        ensures stands { StandsFor result [] }
    {
        HookFacts {
            now_open: None,
            last: None,
            greatest: 0,
            starts: 0,
            ends: 0,
            not_started: 0,
        }
    }

    // Starts what is due, where no script runs.
    fn settle(&mut self)
        requires { self.old.starts < 2 ^ 32 - 1 }
        ensures { self.new ≡ settled self.old }
    {
        if self.ends == self.starts
            && let Some(start) = due(&self.last, &self.now_open)
        {
            self.last = Some(start);
            self.starts += 1;
        }
    }

    /// The protocol has opened, under this number. Its scripts are told these arguments.
    pub fn opened(&mut self, number: u32, args: HookArgs)
        requires closed { self.old.now_open ≡ None }
        requires above { self.old.greatest < number }
        requires room { self.old.starts < 2 ^ 32 - 1 }
        ensures now { self.new ≡ settled (with_open self.old number args) }
        ensures stands { (past : List HookMark) → StandsFor self.old past → StandsFor self.new (with_due (Opened number ∷ past)) }
        ensures due { (past : List HookMark) → StandsFor self.old past → due_after (Opened number ∷ past) ≡ started self.old self.new }
        ensures args { (given : ℕ → HookArgs) → HasArgs given self.old → given number ≡ args → HasArgs given self.new }
    {
        self.now_open = Some(Opening { number, args });
        self.greatest = number;
        self.settle();
    }

    /// The protocol has closed.
    pub fn closed(&mut self)
        requires { self.old.starts < 2 ^ 32 - 1 }
        ensures now { self.new ≡ settled (with_closed self.old) }
        ensures stands { (past : List HookMark) (n : ℕ) → StandsFor self.old past → opening_number self.old.now_open ≡ Some n
            → StandsFor self.new (with_due (Closed n ∷ past)) }
        ensures due { (past : List HookMark) (n : ℕ) → StandsFor self.old past → due_after (Closed n ∷ past) ≡ started self.old self.new }
        ensures args { (given : ℕ → HookArgs) → HasArgs given self.old → HasArgs given self.new }
    {
        self.now_open = None;
        self.settle();
    }

    /// The script that runs has ended.
    pub fn ended(&mut self, answer: ScriptEnd)
        requires room { self.old.starts < 2 ^ 32 - 1 }
        requires runs { self.old.ends < self.old.starts }
        requires failed { self.old.not_started ≤ self.old.ends }
        ensures now { self.new ≡ settled (with_end self.old answer) }
        ensures stands { (past : List HookMark) (job : ℕ) → StandsFor self.old past → job ≡ self.old.ends + 1
            → StandsFor self.new (with_due (Ended answer job ∷ past)) }
        ensures due { (past : List HookMark) (job : ℕ) → StandsFor self.old past → due_after (Ended answer job ∷ past) ≡ started self.old self.new }
        ensures args { (given : ℕ → HookArgs) → HasArgs given self.old → HasArgs given self.new }
    {
        self.ends += 1;
        self.not_started += failures(answer);
        self.settle();
    }

    /// The words of the last start.
    pub fn words(&self, target: HookTarget) -> Option<HookWords>
        ensures { result ≡ words_of_start target self.now.last }
    {
        self.last.as_ref().map(|start| HookWords {
            script: script(target, start.up),
            args: start.opening.args.copy(),
        })
    }

    /// The last start.
    pub fn last_start(&self) -> Option<HookStart>
        ensures value { option_map (λ (s : HookStart). (s.up, s.opening)) result ≡ option_map start_key self.now.last }
        ensures of_past { (past : List HookMark) → StandsFor self.now past → option_map (λ (s : HookStart). (s.up, s.opening)) result ≡ last_in past }
    {
        self.last.as_ref().map(|start| HookStart {
            up: start.up,
            opening: start.opening.number,
        })
    }

    /// The number of the opening that is open.
    pub fn open_number(&self) -> Option<u32>
        ensures value { result ≡ opening_number self.now.now_open }
        ensures of_past { (past : List HookMark) → StandsFor self.now past → result ≡ open_in past }
    {
        self.now_open.as_ref().map(|opening| opening.number)
    }

    /// The number of the job that runs.
    pub fn running(&self) -> Option<u32>
        ensures value { result ≡ (if nat_lt self.now.ends self.now.starts then Some self.now.starts else None) }
        ensures of_past { (past : List HookMark) → StandsFor self.now past
            → result ≡ running_in past }
    {
        if self.ends < self.starts {
            Some(self.starts)
        } else {
            None
        }
    }

    /// The greatest number of an opening so far, 0 where there was none.
    pub fn greatest(&self) -> u32
        ensures value { result ≡ self.now.greatest }
        ensures of_past { (past : List HookMark) → StandsFor self.now past → result ≡ greatest_in past }
    {
        self.greatest
    }

    /// How many scripts were started.
    pub fn starts(&self) -> u32
        ensures value { result ≡ self.now.starts }
        ensures of_past { (past : List HookMark) → StandsFor self.now past → result ≡ starts_in past }
    {
        self.starts
    }

    /// How many scripts have ended.
    pub fn ends(&self) -> u32
        ensures value { result ≡ self.now.ends }
        ensures of_past { (past : List HookMark) → StandsFor self.now past → result ≡ ends_in past }
    {
        self.ends
    }
}
