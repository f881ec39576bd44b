ghost use Rattle.std.specs.Prelude.{◌≡◌, ◌≤◌, ◌+◌, false, [], length};
ghost use Rattle.ppp_packet.specs.OptionsOf.{item, laid};
ghost use Rattle.ppp_control.specs.Judging.{judgement_of, answer_of, IsShort};
ghost use Rattle.ppp_control.specs.Sorting.{sorted_with, renamed_with, sorted_answer};

use crate::judging::{Judged, Verdict};
use ppp_packet::{MOST_BODY, OptionList};

/// The options of a request as far as they have been judged.
#[derive(Drop)]
pub(crate) struct Sorting {
    /// Those that are rejected.
    pub(crate) rejected: OptionList,
    /// Those that are named, as they came.
    pub(crate) named: OptionList,
    /// Those with the data that they are named with, as far as they fit in a packet.
    pub(crate) renamed: OptionList,
    /// One of those didn't fit.
    pub(crate) is_full: bool,
}

impl Sorting {
    pub(crate) fn new() -> Sorting
        ensures { result ≡ record { rejected = []; named = []; renamed = []; is_full = false } }
    {
        Sorting {
            rejected: OptionList::new(),
            named: OptionList::new(),
            renamed: OptionList::new(),
            is_full: false,
        }
    }

    pub(crate) fn take(&mut self, kind: u8, body: &[u8], judged: Judged<'_>)
        requires short { length body.now ≤ 253 }
        requires value { IsShort judged }
        requires rejected { length (laid self.old.rejected) + (length body.now + 2) ≤ MOST_BODY }
        requires named { length (laid self.old.named) + (length body.now + 2) ≤ MOST_BODY }
        ensures { self.new ≡ sorted_with self.old (item kind body.now) (judgement_of judged.entry) }
    {
        match judged {
            Judged::Acked => {}
            Judged::Rejected => {
                self.rejected.push(kind, body);
            }
            Judged::Named(value) => {
                self.named.push(kind, body);
                self.rename(kind, value);
            }
        }
    }

    fn rename(&mut self, kind: u8, value: &[u8])
        requires short { length value.now ≤ 253 }
        ensures { self.new ≡ renamed_with self.old (item kind value.now) }
    {
        let room = MOST_BODY - self.renamed.size();
        if !self.is_full && value.len() + 2 <= room {
            self.renamed.push(kind, value);
        } else {
            self.is_full = true;
        }
    }

    pub(crate) fn verdict(self, is_spent: bool) -> Verdict
        ensures { answer_of result ≡ sorted_answer is_spent self }
    {
        let Sorting {
            rejected,
            named,
            renamed,
            is_full: _,
        } = self;
        if !rejected.is_empty() {
            return Verdict::Reject(rejected);
        }
        if named.is_empty() {
            return Verdict::Ack;
        }
        if is_spent {
            Verdict::Reject(named)
        } else {
            Verdict::Nak(renamed)
        }
    }
}
