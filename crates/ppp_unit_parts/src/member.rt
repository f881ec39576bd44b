ghost use Rattle.std.specs.Prelude.{◌≡◌, ◌≤◌, ◌==◌, [], ◌∷◌, false, length, slice_get};
ghost use Rattle.ppp_unit_parts.specs.Member.{AreInOrder, below, has_link, views_of, with_member, without};

use arrayvec::ArrayVec;
use ppp_base::LinkId;
use ppp_mp::{MemberView, Members};
use std::marker::Model;

/// A member of a bundle: its link, the number of its stay, and the most octets of information that its peer takes.
#[derive(Clone, Copy, Debug, PartialEq, Eq)]
pub struct Member {
    pub link: LinkId,
    pub stay: u32,
    pub mru: u16,
}

impl Default for Member {
    ghost is_default = { λ member. member ≡ record { link = 1; stay = 0; mru = 128 } };

    fn default() -> Member {
        Member {
            link: LinkId::new(1).unwrap(),
            stay: 0,
            mru: 128,
        }
    }
}

/// The members of a bundle in link order, at most 16. Contracts see them as their list.
#[derive(Drop)]
pub struct MemberList {
    list: ArrayVec<Member, 16>,
}

impl Model for MemberList {
    ghost use Rattle.std.specs.Prelude.{List, length, ◌≤◌};
    ghost use Rattle.ppp_unit_parts.specs.declared.member.Member.{Member};

    ghost Value = { List Member };

    ghost view = { λ m. m.list.items };

    ghost invariant = { λ m. length m.list.items ≤ 16 };
}

impl MemberList {
    /// No member.
    pub fn new() -> MemberList
        ensures { result ≡ [] }
    {
        MemberList {
            list: ArrayVec::new(),
        }
    }

    /// Whether a link is a member.
    pub fn has(&self, link: LinkId) -> bool
        ensures { result ≡ has_link link self.now }
    {
        self.list
            .as_slice()
            .iter()
            .any(|member| member.link == link)
    }

    /// The least member.
    pub fn first(&self) -> Option<Member>
        ensures { result ≡ slice_get self.now 0 }
    {
        self.list.as_slice().get(0).copied()
    }

    /// The members in link order.
    pub fn as_slice(&self) -> &[Member]
        ensures list { result.now ≡ self.now }
        ensures few { length result.now ≤ 16 }
    {
        self.list.as_slice()
    }

    // How many members have lesser links.
    fn place(&self, link: LinkId) -> usize
        ensures place { result ≡ below link self.now }
        ensures within { result ≤ length self.now }
        ensures few { length self.now ≤ 16 }
    {
        let mut place = 0;
        let members = self.list.as_slice();
        'placing: for member in members {
            if member.link.number() < link.number() {
                place += 1;
            }
        }
        place
    }

    /// A link comes in, at its place in link order.
    #[tactic(auto, using(crate::proofs::MemberFacts::has_room, crate::proofs::MemberFacts::insert_is))]
    pub fn insert(&mut self, member: Member)
        requires order { AreInOrder 0 self.old }
        requires other { has_link member.link self.old ≡ false }
        ensures { self.new ≡ with_member member self.old }
    {
        let _number = member.link.number();
        let place = self.place(member.link);
        self.list.insert(place, member);
    }

    /// The members without a link.
    pub fn without(&self, link: LinkId) -> MemberList
        ensures { result ≡ without link self.now }
    {
        let mut list = ArrayVec::new();
        let members = self.list.as_slice();
        'leaving: for member in members {
            if member.link != link {
                list.push(*member);
            }
        }
        MemberList { list }
    }

    /// Whether there is none.
    pub fn is_empty(&self) -> bool
        ensures { result ≡ (length self.now == 0) }
    {
        self.list.is_empty()
    }

    /// As packets are cut over them.
    #[tactic(auto, using(crate::proofs::MemberFacts::lawful_views))]
    pub fn views(&self) -> Members
        requires { AreInOrder 0 self.now }
        ensures { result ≡ views_of self.now }
    {
        match Members::from_views(self.each_view()) {
            Some(members) => members,
            None => Members::new(),
        }
    }

    // Each as packets are cut over it.
    fn each_view(&self) -> ArrayVec<MemberView, 16>
        ensures { result.items ≡ views_of self.now }
    {
        let mut views = ArrayVec::new();
        let members = self.list.as_slice();
        'viewing: for member in members {
            views.push(MemberView {
                link: member.link,
                mru: member.mru,
            });
        }
        views
    }
}
