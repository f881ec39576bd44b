ghost use Rattle.std.specs.Prelude.{◌≡◌, ℕ, Bool, [], List, Some, IfSome, drop, slice_get, length};
ghost use Rattle.ppp_chat.specs.ChatState.{HasBegun, rest};
ghost use Rattle.ppp_chat.specs.Course.{course, sending};
ghost use Rattle.ppp_chat.specs.Event.{Event};
ghost use Rattle.ppp_chat.specs.Room.{AreFew, AreSetAt, HasRoom, settings_with};
ghost use Rattle.ppp_chat.specs.Texts.{kept_settings};
ghost use Rattle.ppp_chat.specs.Walking.{Takes, stage_at_end};

use crate::directives::Directives;
use crate::now::ChatEnd;
use crate::octets::SentOctets;
use crate::stage::Stage;
use crate::step::Step;
use crate::text::Text;

/// What a call has done so far.
#[derive(Drop)]
pub(crate) struct Turn {
    /// The expect of this word was met: what is left of the word is passed over.
    pub met: bool,
    /// What is to be sent.
    pub sent: SentOctets,
}

/// Where a call stops.
#[derive(Drop)]
pub(crate) struct Halt {
    pub place: usize,
    pub stage: Stage,
    pub sent: SentOctets,
}

impl Turn {
    // Waits for the string. An empty one is met at once.
    fn expect(&mut self, text: &Text, now: u64) -> Option<Stage>
        ensures takes { (steps : List Step) (d : Directives) → Takes steps (Step.Expect text.now) now d d self.old self.new result }
        ensures waits { IfSome result HasBegun }
    {
        if self.met {
            return None;
        }
        if text.is_empty() {
            self.met = true;
            return None;
        }
        Some(Stage::Expecting(now))
    }

    // Sends the octets, where there are some, or waits for the next call, where this one has sent others.
    fn send(&mut self, octets: &Text) -> Option<Stage>
        ensures takes { (steps : List Step) (now : ℕ) (d : Directives) → Takes steps (Step.Send octets.now) now d d self.old self.new result }
        ensures waits { IfSome result HasBegun }
    {
        if self.met {
            return None;
        }
        if octets.is_empty() {
            return None;
        }
        if !self.sent.is_empty() {
            return Some(Stage::Waiting);
        }
        self.sent.append(octets.as_slice());
        None
    }

    // Waits for the end of a delay.
    fn pause(&self, now: u64) -> Option<Stage>
        ensures takes { (milliseconds : ℕ) (steps : List Step) (d : Directives) → Takes steps (Step.Pause milliseconds) now d d self.now self.now result }
        ensures waits { IfSome result HasBegun }
    {
        if self.met {
            return None;
        }
        Some(Stage::Pausing(now))
    }
}

// Does the step at a place, or stops before it.
fn take(
    steps: &[Step],
    place: usize,
    step: &Step,
    now: u64,
    directives: &mut Directives,
    turn: &mut Turn,
) -> Option<Stage>
    requires place { slice_get steps.now place ≡ Some step.now }
    requires room { HasRoom step.now (length directives.old.aborts.items) }
    ensures takes { Takes steps.now step.now now directives.old directives.new turn.old turn.new result }
    ensures waits { IfSome result HasBegun }
    ensures set { kept_settings steps.now directives.new ≡ settings_with step.now (kept_settings steps.now directives.old) }
    ensures stops { IfSome result (λ _. directives.new ≡ directives.old) }
{
    match step {
        Step::Direct(directive) => {
            directives.obey(steps, place, directive);
            None
        }
        Step::Met => {
            turn.met = false;
            None
        }
        Step::Expect(text) => turn.expect(text, now),
        Step::Send(octets) => turn.send(octets),
        Step::Pause(_) => turn.pause(now),
    }
}

// What a call waits for where no step is left.
fn stage_at_end(sent: &SentOctets) -> Stage
    ensures value { result ≡ stage_at_end sent.now }
    ensures waits { HasBegun result }
{
    if sent.is_empty() {
        Stage::Over(ChatEnd::Done)
    } else {
        Stage::Waiting
    }
}

// Does what follows at once from a place on: up to a second send, a string to be waited for, a delay, or the end.
pub(crate) fn walk(
    steps: &[Step],
    from: usize,
    met: bool,
    now: u64,
    directives: &mut Directives,
) -> Halt
    requires few { AreFew steps.now }
    requires set { AreSetAt steps.now from (kept_settings steps.now directives.old).aborts }
    ensures goes { (later : List Event) → course (drop from steps.now) met (kept_settings steps.now directives.old) now Bool.false later
        ≡ sending result.sent (rest result.stage (drop result.place steps.now) (kept_settings steps.now directives.new) [] later) }
    ensures waits { HasBegun result.stage }
    ensures set { AreSetAt steps.now result.place (kept_settings steps.now directives.new).aborts }
{
    let mut turn = Turn {
        met,
        sent: SentOctets::new(),
    };
    let mut place = from;
    'walking: while let Some(step) = steps.get(place) {
        if let Some(stage) = take(steps, place, step, now, directives, &mut turn) {
            return Halt {
                place,
                stage,
                sent: turn.sent,
            };
        }
        place += 1;
    }
    Halt {
        place,
        stage: stage_at_end(&turn.sent),
        sent: turn.sent,
    }
}
