//! What follows from the definitions alone: worked rows of a unit.

ghost use Rattle.std.specs.List.{AllByRecursion};
ghost use Rattle.std.specs.Prelude.{◌≡◌, ◌++◌, ℕ, Some, None, List, [], ◌∷◌, true, false, length, replicate, take};
ghost use Rattle.ppp_base.specs.declared.posts.CloseCause.TheVariants.{Idle, IpcpFailed, EndedByPeer, TooManyChanges};
ghost use Rattle.ppp_base.specs.declared.protocol.TheConstants.{IP, IPCP};
ghost use Rattle.ppp_fsm.specs.declared.fsm.Limits.{Limits};
ghost use Rattle.ppp_mark.specs.Marks.{close_mark, ended_mark, in_mark, ip_closed_mark, out_mark, started_mark, unmade_mark};
ghost use Rattle.ppp_base.specs.Mrru.{MrruPair};
ghost use Rattle.ppp_mark.specs.declared.mark.Mark.{Mark};
ghost use Rattle.ppp_mp.specs.Header.{long_space};
ghost use Rattle.ppp_mp.specs.Membership.{IsLink};
ghost use Rattle.ppp_mp.specs.Reached.{HasReached, Reached, Whole};
ghost use Rattle.ppp_mp.specs.StandsFor.{GatherNow};
ghost use Rattle.ppp_bundle.specs.Closing.{crowded_end};
ghost use Rattle.ppp_bundle.specs.History.{CameIn, Moment, Terms, entries_in, gathered_in, given_in};
ghost use Rattle.ppp_bundle.specs.Lives.{GathersAll};
ghost use Rattle.ppp_bundle.specs.Replay.{since_made};
ghost use Rattle.ppp_outside.specs.declared.spawner.ScriptEnd.TheVariants.{Exit};
ghost use Rattle.ppp_bundle.specs.declared.event.BundleEvent.TheVariants.{Datagram, Frame, Out, Tick};
ghost use Rattle.ppp_unit_parts.specs.Pieces.{packet_of, pieces_of};
ghost use Rattle.ppp_bundle.specs.Rows.{Lawful, address, all_of, at_open, begins, begins_with_two, code_reject, first_marks, fresh, marks_in, negotiates, peer_ends, piece, script_ends};

/// A bundle is made and link 1 comes in: the first request goes out. The peer's request and its ack open IP, and the start stands behind
/// it, before the two addresses.
pub fn opens()
    ensures asks { (lawful : Lawful) (limits : Limits) (gather : GatherNow) → (all_of (begins lawful limits 0 0) (fresh gather)).sent
        ≡ record { link = 1; protocol = IPCP; information = 1 ∷ 1 ∷ 0 ∷ 10 ∷ address 1; rejected = false } ∷ [] }
    ensures marks { (lawful : Lawful) (limits : Limits) (gather : GatherNow) → marks_in (all_of (begins lawful limits 0 0 ++ negotiates) (fresh gather)) ≡ first_marks ++ at_open 0 }
{}

/// The peer's Terminate-Request closes IP at once; as its restart time has passed, the bundle ends by the peer.
pub fn ends_by_the_peer()
    ensures shut { (lawful : Lawful) (limits : Limits) (gather : GatherNow) → marks_in (all_of (begins lawful limits 0 0 ++ negotiates ++ script_ends 1 ∷ peer_ends ∷ []) (fresh gather))
        ≡ first_marks ++ at_open 0 ++ ended_mark 0 (Exit 0) 1 ∷ ip_closed_mark 0 1 ∷ started_mark 0 false 1 ∷ [] }
    ensures ends { (lawful : Lawful) (limits : Limits) (gather : GatherNow) → (all_of (begins lawful limits 0 0 ++ negotiates ++ peer_ends ∷ Tick 2999 ∷ []) (fresh gather)).ended ≡ None }
    ensures ended { (lawful : Lawful) (limits : Limits) (gather : GatherNow) → (all_of (begins lawful limits 0 0 ++ negotiates ++ peer_ends ∷ Tick 3000 ∷ []) (fresh gather)).ended
        ≡ Some (record { cause = 15; y = 1; elapsed_ms = 0; live = true }) }
    ensures marks { (lawful : Lawful) (limits : Limits) (gather : GatherNow) → marks_in (all_of (begins lawful limits 0 0 ++ negotiates ++ peer_ends ∷ Tick 3000 ∷ []) (fresh gather))
        ≡ first_marks ++ at_open 0 ++ ip_closed_mark 0 1 ∷ close_mark 3000 EndedByPeer 0 ∷ out_mark 3000 1 1 ∷ unmade_mark 3000 1 ∷ [] }
{}

/// With `idle 5`, no datagram passed from Opened at 1,000 until 6,000: the bundle is closed then, and not before.
pub fn idles()
    ensures before { (lawful : Lawful) (limits : Limits) (gather : GatherNow) → (all_of (begins lawful limits 5 0 ++ Tick 1000 ∷ negotiates ++ Tick 5999 ∷ []) (fresh gather)).ended ≡ None }
    ensures ended { (lawful : Lawful) (limits : Limits) (gather : GatherNow) → (all_of (begins lawful limits 5 0 ++ Tick 1000 ∷ negotiates ++ Tick 6000 ∷ []) (fresh gather)).ended
        ≡ Some (record { cause = 12; y = 0; elapsed_ms = 5000; live = true }) }
    ensures marks { (lawful : Lawful) (limits : Limits) (gather : GatherNow) → marks_in (all_of (begins lawful limits 5 0 ++ Tick 1000 ∷ negotiates ++ Tick 6000 ∷ []) (fresh gather))
        ≡ first_marks ++ at_open 1000 ++ close_mark 6000 Idle 5000 ∷ ip_closed_mark 6000 1 ∷ out_mark 6000 1 1 ∷ unmade_mark 6000 1 ∷ [] }
    ensures received { (lawful : Lawful) (limits : Limits) (gather : GatherNow) → (all_of (begins lawful limits 5 0 ++ Tick 1000 ∷ negotiates ++ Tick 2000 ∷ Frame 1 IP (69 ∷ []) ∷ Tick 6999 ∷ []) (fresh gather)).ended ≡ None }
    ensures sent { (lawful : Lawful) (limits : Limits) (gather : GatherNow) → (all_of (begins lawful limits 5 0 ++ Tick 1000 ∷ negotiates ++ Tick 2000 ∷ Datagram (69 ∷ []) ∷ Tick 6999 ∷ []) (fresh gather)).ended ≡ None }
{}

/// With `maxconnect 5` the bundle is closed five seconds after IP opened, whatever passed.
pub fn stays_no_longer()
    ensures before { (lawful : Lawful) (limits : Limits) (gather : GatherNow) → (all_of (begins lawful limits 0 5 ++ negotiates ++ Tick 4999 ∷ Datagram (69 ∷ []) ∷ []) (fresh gather)).ended ≡ None }
    ensures ended { (lawful : Lawful) (limits : Limits) (gather : GatherNow) → (all_of (begins lawful limits 0 5 ++ negotiates ++ Tick 4999 ∷ Datagram (69 ∷ []) ∷ Tick 5000 ∷ []) (fresh gather)).ended
        ≡ Some (record { cause = 13; y = 0; elapsed_ms = 5000; live = true }) }
{}

/// A datagram for a unit that isn't Opened is dropped and counted, as is one of a member; in Opened both pass.
pub fn passes_in_opened_alone()
    ensures dropped { (lawful : Lawful) (limits : Limits) (gather : GatherNow) → (all_of (begins lawful limits 0 0 ++ Datagram (69 ∷ []) ∷ Frame 1 IP (69 ∷ []) ∷ []) (fresh gather)).counts
        ≡ record { not_open = 2; stranger = 0; too_big = 0; bad_inner = 0 } }
    ensures given { (lawful : Lawful) (limits : Limits) (gather : GatherNow) → (all_of (begins lawful limits 0 0 ++ negotiates ++ Frame 1 IP (69 ∷ []) ∷ []) (fresh gather)).given ≡ (69 ∷ []) ∷ [] }
    ensures sent { (lawful : Lawful) (limits : Limits) (gather : GatherNow) → (all_of (begins lawful limits 0 0 ++ negotiates ++ Datagram (69 ∷ []) ∷ []) (fresh gather)).sent
        ≡ record { link = 1; protocol = IP; information = 69 ∷ []; rejected = false } ∷ [] }
    ensures stranger { (lawful : Lawful) (limits : Limits) (gather : GatherNow) → (all_of (begins lawful limits 0 0 ++ negotiates ++ Frame 2 IP (69 ∷ []) ∷ []) (fresh gather)).counts.stranger ≡ 1 }
    ensures too_big { (lawful : Lawful) (limits : Limits) (gather : GatherNow) → (all_of (begins lawful limits 0 0 ++ negotiates ++ Datagram (replicate 1501 69) ∷ []) (fresh gather)).counts.too_big ≡ 1 }
{}

/// The one member goes out: IP is closed, and the bundle is unmade without a cause.
pub fn leaves()
    ensures marks { (lawful : Lawful) (limits : Limits) (gather : GatherNow) → marks_in (all_of (begins lawful limits 0 0 ++ negotiates ++ Out 1 1 ∷ []) (fresh gather))
        ≡ first_marks ++ at_open 0 ++ ip_closed_mark 0 1 ∷ out_mark 0 1 1 ∷ unmade_mark 0 1 ∷ [] }
    ensures ended { (lawful : Lawful) (limits : Limits) (gather : GatherNow) → (all_of (begins lawful limits 0 0 ++ negotiates ++ Out 1 1 ∷ []) (fresh gather)).ended ≡ None }
{}

/// A multilink bundle with two members whose peers take 1,500 octets sends all as pieces, numbered from 0: our request and our ack, each
/// of them whole, to one member and then to the other, and a datagram of 299 octets in two pieces of 150 octets.
pub fn sends_pieces()
    ensures asks { (lawful : Lawful) (limits : Limits) (gather : GatherNow) → (all_of (take 2 (begins_with_two lawful limits)) (fresh gather)).sent ≡ piece 1 0xc0 0 (0x80 ∷ 0x21 ∷ 1 ∷ 1 ∷ 0 ∷ 10 ∷ address 1) ∷ [] }
    ensures acks { (lawful : Lawful) (limits : Limits) (gather : GatherNow) → (all_of (begins_with_two lawful limits ++ take 1 negotiates) (fresh gather)).sent
        ≡ piece 2 0xc0 1 (0x80 ∷ 0x21 ∷ 2 ∷ 7 ∷ 0 ∷ 10 ∷ address 2) ∷ [] }
    ensures datagram { (lawful : Lawful) (limits : Limits) (gather : GatherNow) → (all_of (begins_with_two lawful limits ++ negotiates ++ Datagram (replicate 299 69) ∷ []) (fresh gather)).sent
        ≡ piece 1 0x80 2 (0x21 ∷ replicate 149 69) ∷ piece 2 0x40 3 (replicate 150 69) ∷ [] }
    ensures first { pieces_of (record { number = 0; turn = 0 }) (record { link = 1; mru = 1500 } ∷ record { link = 2; mru = 1500 } ∷ []) (packet_of IP (replicate 299 69))
        ≡ piece 1 0x80 0 (0x21 ∷ replicate 149 69) ∷ piece 2 0x40 1 (replicate 150 69) ∷ [] }
{}

/// A member of a multilink bundle goes out while another stays: the bundle lives on.
pub fn leaves_another()
    ensures marks { (lawful : Lawful) (limits : Limits) (gather : GatherNow) → marks_in (all_of (begins_with_two lawful limits ++ Out 1 1 ∷ []) (fresh gather)) ≡ first_marks ++ in_mark 0 2 1 ∷ out_mark 0 1 1 ∷ [] }
    ensures ended { (lawful : Lawful) (limits : Limits) (gather : GatherNow) → (all_of (begins_with_two lawful limits ++ Out 1 1 ∷ []) (fresh gather)).ended ≡ None }
{}

/// A Code-Reject of our request: the negotiation has failed, and the bundle ends, in which IP was never open.
pub fn fails()
    ensures ended { (lawful : Lawful) (limits : Limits) (gather : GatherNow) → (all_of (begins lawful limits 0 0 ++ code_reject ∷ []) (fresh gather)).ended
        ≡ Some (record { cause = 14; y = 0; elapsed_ms = 0; live = false }) }
    ensures marks { (lawful : Lawful) (limits : Limits) (gather : GatherNow) → marks_in (all_of (begins lawful limits 0 0 ++ code_reject ∷ []) (fresh gather))
        ≡ first_marks ++ close_mark 0 IpcpFailed 0 ∷ out_mark 0 1 1 ∷ unmade_mark 0 1 ∷ [] }
{}

/// With 900 marks since a bundle was made it is closed, with one less it isn't.
pub fn changes_too_often()
    ensures closes { (past : List Mark) → since_made past ≡ 900 → crowded_end past ≡ Some (record { cause = TooManyChanges; elapsed_ms = 0 }) }
    ensures stays { (past : List Mark) → since_made past ≡ 899 → crowded_end past ≡ None }
{}

/// Whatever history a bundle has: each datagram that was given came in a frame of a link that was a member then, or in a packet that was
/// gathered; and each of these packets is whole: made of pieces with consecutive numbers that came over links that were members then.
pub fn datagrams_are_whole()
    ensures came { (terms : Terms) (past : List Moment) → AllByRecursion (CameIn terms past) (given_in terms past) }
    ensures whole { (mrru : MrruPair) (gather : GatherNow) (past : List Moment) (left : List (List ℕ)) (reached : List Reached) → GathersAll (Some mrru) gather past left
        → AllByRecursion IsLink (entries_in past) → HasReached long_space gather.mrru (entries_in past) reached → AllByRecursion (Whole reached) (gathered_in past) }
    ensures some { (mrru : ℕ) (past : List Moment) → (reached : List Reached) × HasReached long_space mrru (entries_in past) reached }
{}
