ghost use Rattle.std.specs.Prelude.{◌≡◌, ◌↔◌, ℕ, Bool, true, [], ◌++◌, List, IfNone, OnSome, option_to_list};
ghost use Rattle.ppp_base.specs.Stepped.{IsTaken, OnTaken, IfStale};

use crate::link_id::LinkId;
use crate::posts::{Post, UpPost};
use crate::stepped::Stepped;

/// A link as the table sees it: the end of the posts from it and to it.
pub trait Ends {
    ghost use Rattle.ppp_base.specs.declared.posts.UpPost.{UpPost};
    ghost use Rattle.ppp_base.specs.declared.posts.Post.{Post};

    /// Its number.
    ghost number: { Self → ℕ };

    /// Whether it takes a post of the table: it names the present stay, or none.
    ghost is_present: { Self → Post → Bool };

    /// What it becomes with a post that it takes.
    ghost Takes: { Self → Post → Self → Type 0 };

    /// The posts to the table that wait, the oldest first.
    ghost waiting: { Self → List UpPost };

    /// What it becomes when the oldest of them is taken.
    ghost Posted: { Self → Self → Type 0 };

    /// Its number.
    fn id(&self) -> LinkId
        ensures { result ≡ number self.now };

    /// Takes the oldest post to the table that waits.
    fn take_up(&mut self) -> Option<UpPost>
        ensures first { waiting self.old ≡ option_to_list result ++ waiting self.new }
        ensures none { IfNone result (waiting self.old ≡ []) }
        ensures posted { OnSome result (Posted self.old self.new) }
        ensures none_left { IfNone result (self.new ≡ self.old) }
        ensures same { number self.new ≡ number self.old };

    /// Hands it a post of the table. One that comes back is of another stay, and has changed nothing.
    fn from_table(&mut self, post: Post) -> Stepped<Post>
        ensures present { IsTaken result ↔ (is_present self.old post ≡ true) }
        ensures taken { OnTaken result (Takes self.old post self.new) }
        ensures back { IfStale result (λ back. back ≡ post) }
        ensures unchanged { IfStale result (λ back. self.new ≡ self.old) }
        ensures same { number self.new ≡ number self.old };
}
