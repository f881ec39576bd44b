ghost use Rattle.std.specs.Prelude.{◌≡◌, ◌+◌, ◌<◌, ◌≤◌, ◌↔◌, [], ◌∷◌, ◌++◌, length, IsTrue, IsSome, IfSome};
ghost use Rattle.ppp_base.specs.declared.mrru.TheConstants.{LEAST_MRU, DEFAULT_MRU};
ghost use Rattle.std.specs.Bool.{OnTrue, OnFalse};
ghost use Rattle.ppp_mp.specs.Members.{AreMembers, last_link};

use arrayvec::ArrayVec;
use ppp_base::{DEFAULT_MRU, LEAST_MRU, LinkId};
use std::marker::Model;

/// A member of a bundle: its link, and the most octets of an information that its peer takes.
#[derive(Clone, Copy, Debug, PartialEq, Eq)]
pub struct MemberView {
    pub link: LinkId,
    pub mru: u16,
}

impl Default for MemberView {
    ghost is_default = { λ member. member ≡ record { link = 1; mru = 128 } };

    fn default() -> MemberView {
        MemberView {
            link: LinkId::new(1).unwrap(),
            mru: LEAST_MRU,
        }
    }
}

/// The members of a bundle, at most 16, in link order. Contracts see them as their list.
#[derive(Debug, Drop)]
pub struct Members {
    members: ArrayVec<MemberView, 16>,
}

impl Model for Members {
    ghost use Rattle.std.specs.Prelude.{List};
    ghost use Rattle.ppp_mp.specs.declared.members.MemberView.{MemberView};
    ghost use Rattle.ppp_mp.specs.Members.{AreMembers};

    ghost Value = { List MemberView };

    ghost view = { λ members. members.members.items };

    ghost invariant = { λ members. AreMembers 0 members.members.items };
}

impl Members {
    /// No member.
    pub fn new() -> Members
        ensures { result ≡ [] }
    {
        Members {
            members: ArrayVec::new(),
        }
    }

    /// These members. None where a link isn't above the one before it, or a peer doesn't take 128 to 1,500 octets.
    pub fn from_views(views: ArrayVec<MemberView, 16>) -> Option<Members>
        ensures lawful { IsSome result ↔ AreMembers 0 views.items }
        ensures value { IfSome result (λ members. members ≡ views.items) }
    {
        if are_members(views.as_slice()) {
            Some(Members { members: views })
        } else {
            None
        }
    }

    /// Adds a member at the end. False, and nothing changes, where its link isn't above all others or its peer doesn't
    /// take 128 to 1,500 octets.
    pub fn add(&mut self, member: MemberView) -> bool
        ensures fits { IsTrue result ↔ ((last_link 0 self.old < member.link) × (LEAST_MRU ≤ member.mru) × (member.mru ≤ DEFAULT_MRU)) }
        ensures added { OnTrue result (self.new ≡ self.old ++ member ∷ []) }
        ensures unchanged { OnFalse result (self.new ≡ self.old) }
    {
        if member.link.number() <= last_link(self.members.as_slice()) || !is_lawful(member.mru) {
            return false;
        }
        self.members.push(member);
        true
    }

    /// How many members there are, at most 16.
    pub fn len(&self) -> usize
        ensures len { result ≡ length self.now }
        ensures within { result ≤ 16 }
    {
        self.members.len()
    }

    /// Whether there are none.
    pub fn is_empty(&self) -> bool
        ensures { IsTrue result ↔ (length self.now ≡ 0) }
    {
        self.members.is_empty()
    }

    /// The members in link order.
    pub fn as_slice(&self) -> &[MemberView]
        ensures members { result.now ≡ self.now }
        ensures within { length result.now ≤ 16 }
        ensures lawful { AreMembers 0 self.now }
    {
        self.members.as_slice()
    }
}

impl From<Members> for ArrayVec<MemberView, 16> {
    ghost from_gives = { λ members views. views.items ≡ members };

    fn from(members: Members) -> ArrayVec<MemberView, 16> {
        members.members
    }
}

// Whether every link is above the one before it, and each peer takes 128 to 1,500 octets.
fn are_members(views: &[MemberView]) -> bool
    ensures { IsTrue result ↔ AreMembers 0 views.now }
{
    let mut left = views;
    let mut low = 0;
    while let [view, rest @ ..] = left {
        let link = view.link.number();
        if link <= low || !is_lawful(view.mru) {
            return false;
        }
        low = link;
        left = rest;
    }
    true
}

// Whether a peer takes 128 to 1,500 octets.
fn is_lawful(mru: u16) -> bool
    ensures { IsTrue result ↔ ((LEAST_MRU ≤ mru) × (mru ≤ DEFAULT_MRU)) }
{
    (LEAST_MRU..=DEFAULT_MRU).contains(&mru)
}

// The greatest link, 0 where there is none.
fn last_link(members: &[MemberView]) -> u8
    ensures { result ≡ last_link 0 members.now }
{
    members.iter().fold(0, |_last, member| member.link.number())
}
