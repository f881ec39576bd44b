ghost use Rattle.std.specs.Prelude.{◌≡◌, ◌↔◌, true};

use crate::link::Link;
use crate::takes::give_post;
use crate::telling::take_post;
use ppp_base::{Ends, LinkId, Post, Stepped, UpPost};
use ppp_outside::{Dialer, Spawner};

impl<D: Dialer, S: Spawner> Ends for Link<D, S> {
    ghost use Rattle.ppp_link_parts.specs.Records.{told};
    ghost use Rattle.ppp_link_rules.specs.Errands.{with_post_taken};
    ghost use Rattle.ppp_link_rules.specs.LinkEvent.{FromTable};
    ghost use Rattle.ppp_link_rules.specs.Posts.{names_present, stay_of};
    ghost use Rattle.ppp_link.specs.Steps.{PostTaken, Posted};

    ghost number = { λ l. l.core.id };

    ghost is_present = { λ l post. names_present (stay_of post) (told l.core.records).stay };

    ghost Takes = { λ l post new. PostTaken post l new };

    ghost waiting = { λ l. l.core.up.waiting };

    ghost Posted = { λ l new. Posted l new };

    fn id(&self) -> LinkId {
        self.body.core.id
    }

    fn take_up(&mut self) -> Option<UpPost> {
        give_post(&mut self.body)
    }

    fn from_table(&mut self, post: Post) -> Stepped<Post> {
        take_post(&mut self.body, post)
    }
}
