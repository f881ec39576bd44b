ghost use Rattle.std.specs.Prelude.{◌≡◌, Option, None, Some, List, ◌∷◌, ◌++◌, [], IfSome, IfNone, is_some, option_map};
ghost use Rattle.std.specs.Option.{option_copied};
ghost use Rattle.ppp_chat.specs.ChatState.{ChatState};
ghost use Rattle.ppp_chat.specs.Event.{octet_at, tick_at};
ghost use Rattle.ppp_chat.specs.declared.event.Event.{Event};
ghost use Rattle.ppp_link_parts.specs.declared.talk.Hears.TheVariants as hears;
ghost use Rattle.ppp_chat.specs.Script.{ChatScript};
ghost use Rattle.ppp_link_rules.specs.Ending.{given_up};
ghost use Rattle.ppp_link_rules.specs.Hearing.{chat_answer};
ghost use Rattle.ppp_link_rules.specs.LinkState.{Listener, Nobody, Chatting, Framing};
ghost use Rattle.ppp_link_parts.specs.Talk.{Listens};

use ppp_chat::laws::answers_are_listed;
use ppp_chat::{Chat, ChatNow, Script};
use std::marker::Model;

// Who hears the octets of a link's line.
#[derive(Clone, Copy, Debug, PartialEq, Eq)]
pub enum Hears {
    Nobody,
    Chat,
    Frames,
}

// A link's chat, and who hears the octets of its line.
#[derive(Drop)]
pub struct Talk {
    chat: Option<Chat>,
    who: Hears,
}

impl Model for Talk {
    ghost use Rattle.ppp_link_parts.specs.Talk.{IsTalking, TalkNow};

    ghost Value = { TalkNow };

    ghost view = { λ t. record { chat = t.chat; who = t.who } };

    ghost invariant = { λ t. IsTalking t.chat t.who };
}

impl Talk {
    /// Nobody hears them. The chat is by this script, if there is one.
    pub fn new(script: Option<Script>) -> Talk
        ensures { Listens script result Nobody }
    {
        let chat = match script {
            Some(script) => Some(Chat::new(script)),
            None => None,
        };
        Talk {
            chat,
            who: Hears::Nobody,
        }
    }

    /// Who hears them.
    pub fn who(&self) -> Hears
        ensures { result ≡ self.now.who }
    {
        self.who
    }

    /// Nobody hears them any more.
    pub fn end(&mut self)
        ensures { (script : Option ChatScript) (listener : Listener) → Listens script self.old listener → Listens script self.new Nobody }
    {
        self.who = Hears::Nobody;
    }

    /// A chat that runs is given up.
    pub fn give_up(&mut self)
        ensures { (script : Option ChatScript) (listener : Listener) → Listens script self.old listener → Listens script self.new (given_up listener) }
    {
        if self.who == Hears::Chat {
            self.who = Hears::Nobody;
        }
    }

    /// Frames are heard.
    pub fn hear_frames(&mut self)
        ensures { (script : Option ChatScript) (listener : Listener) → Listens script self.old listener → Listens script self.new Framing }
    {
        self.who = Hears::Frames;
    }

    /// Begins the chat. None: there is no script.
    pub fn begin(&mut self, now: u64) -> Option<ChatNow>
        ensures some { is_some result ≡ is_some self.old.chat }
        ensures stands { (script : Option ChatScript) (listener : Listener) → Listens script self.old listener
            → IfSome result (λ answer. Listens script self.new (Chatting (tick_at now ∷ [])) × (answer ≡ chat_answer script [] (tick_at now))) }
        ensures none { IfNone result (self.new ≡ self.old) }
    {
        match &mut self.chat {
            Some(chat) => {
                let answer = chat.begin(now);
                self.who = Hears::Chat;
                Some(answer)
            }
            None => None,
        }
    }

    /// An octet that the chat hears.
    pub fn octet(&mut self, octet: u8, now: u64) -> ChatNow
        requires { self.old.who ≡ hears.Chat }
        ensures stands { (script : Option ChatScript) (calls : List Event) → Listens script self.old (Chatting calls)
            → Listens script self.new (Chatting (calls ++ octet_at octet now ∷ [])) }
        ensures answer { (script : Option ChatScript) (calls : List Event) → Listens script self.old (Chatting calls)
            → result ≡ chat_answer script calls (octet_at octet now) }
        ensures who { self.new.who ≡ hears.Chat }
    {
        answers_are_listed();
        match &mut self.chat {
            Some(chat) => chat.octet(octet, now),
            None => unreachable!(),
        }
    }

    /// The chat looks at the time.
    pub fn tick(&mut self, now: u64) -> ChatNow
        requires { self.old.who ≡ hears.Chat }
        ensures stands { (script : Option ChatScript) (calls : List Event) → Listens script self.old (Chatting calls)
            → Listens script self.new (Chatting (calls ++ tick_at now ∷ [])) }
        ensures answer { (script : Option ChatScript) (calls : List Event) → Listens script self.old (Chatting calls)
            → result ≡ chat_answer script calls (tick_at now) }
        ensures who { self.new.who ≡ hears.Chat }
    {
        answers_are_listed();
        match &mut self.chat {
            Some(chat) => chat.tick(now),
            None => unreachable!(),
        }
    }
}
