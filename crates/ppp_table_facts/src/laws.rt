//! What the calls of a table keep.

ghost use Rattle.std.specs.Prelude.{◌≡◌, ℕ, ◌≤◌, [], None, IfSome, List, Option, length, slice_get};
ghost use Rattle.ppp_base.specs.declared.posts.UpPost.{UpPost};
ghost use Rattle.ppp_hooks.specs.HookState.{JobState};
ghost use Rattle.ppp_option_words.specs.ConfigValues.{ConfigValues};
ghost use Rattle.ppp_ring.specs.Pieces.{Piece};
ghost use Rattle.ppp_secrets.specs.declared.secrets.SecretsPair.{SecretsPair};
ghost use Rattle.ppp_mark.specs.Scripts.{LogLaw};
ghost use Rattle.ppp_bundle.specs.declared.event.BundleEvent.{BundleEvent};
ghost use Rattle.ppp_bundle.specs.History.{Moment, Terms};
ghost use Rattle.ppp_bundle.specs.Lives.{HasItsHistory, Lives};
ghost use Rattle.ppp_bundle.specs.Replay.{since_made};
ghost use Rattle.ppp_table_parts.specs.Deliveries.{with_deliveries};
ghost use Rattle.ppp_table_parts.specs.Side.{after_first, emptied};
ghost use Rattle.ppp_table_parts.specs.Sides.{at_link};
ghost use Rattle.ppp_table.specs.declared.event.TableEvent.{TableEvent};
ghost use Rattle.ppp_table.specs.Begins.{IsNew};
ghost use Rattle.ppp_table.specs.Fits.{AllFit, AreApart, AreTogether, IsItself};
ghost use Rattle.ppp_table.specs.Jobs.{TakesJobOf};
ghost use Rattle.ppp_table.specs.PostPart.{PostPart};
ghost use Rattle.ppp_table.specs.TablePart.{IsFreshAt, TablePart};
ghost use Rattle.ppp_table.specs.TableState.{TableState};
ghost use Rattle.ppp_table.specs.UnitStep.{UnitStep};
ghost use Rattle.ppp_table_facts.specs.Came.{GivesWhatCame};
ghost use Rattle.ppp_table_facts.specs.TableStands.{IsPost, TableStands};

use ppp_outside::Spawner;

/// It is so of a table that was just made, and each event, each post, each job that is taken and all else that is taken out
/// keep it; and by it each unit's log keeps the law of scripts and says what the unit is.
pub fn each_table_stands<S: Spawner>()
    ensures new { (config : ConfigValues) (secrets : SecretsPair) (spawners : List S) (t : TableState S) → length spawners ≡ 16 → 4096 ≤ config.loglimit → config.loglimit ≤ 1048576
        → IsNew config secrets spawners t → TableStands t }
    ensures event { (event : TableEvent S) (old new : TableState S) → TablePart event old new → IsFreshAt event old → TableStands old → TableStands new }
    ensures post { (link : ℕ) (post : UpPost) (old new : TableState S) → PostPart link post old new → 1 ≤ link → link ≤ 16 → IsPost post → TableStands old → TableStands new }
    ensures job { (unit : ℕ) (job : Option (JobState S)) (old new : TableState S) → TakesJobOf unit job old new → TableStands old → TableStands new }
    ensures first { (link : ℕ) (t : TableState S) → TableStands t → TableStands (record t { sides = at_link link after_first t.sides }) }
    ensures emptied { (link : ℕ) (t : TableState S) → TableStands t → TableStands (record t { sides = at_link link emptied t.sides }) }
    ensures given { (waiting : List (Piece ℕ)) (taken : ℕ) (t : TableState S) → TableStands t → TableStands (record t { deliveries = record t.deliveries { waiting = waiting }; taken = taken }) }
    ensures law { (unit : ℕ) (t : TableState S) → TableStands t → IfSome (slice_get t.units unit) (λ u. LogLaw 0 u.scripts.log.past) }
    ensures settled { (unit : ℕ) (t : TableState S) → TableStands t → IfSome (slice_get t.units unit) IsItself }
    ensures apart { (t : TableState S) → TableStands t → AreApart t.units }
    ensures fit { (t : TableState S) → TableStands t → AllFit t.sides t.units }
    ensures together { (t : TableState S) → TableStands t → AreTogether t.sides t.units }
{}

/// Each datagram that a step of a unit of a table that stands gives came in a frame of a link that was a member of its bundle
/// then, or in a packet that was gathered, whole, of pieces that came over links that were members then.
pub fn deliveries_come_from_members<S: Spawner>()
    ensures added { (unit : ℕ) (event : BundleEvent S) (old new : TableState S) → (s : UnitStep unit event old new) → new.deliveries ≡ with_deliveries unit s.goes.is.given old.deliveries }
    ensures came { (unit : ℕ) (event : BundleEvent S) (old new : TableState S) → (s : UnitStep unit event old new) → TableStands old → (terms : Terms) (past : List Moment)
        → IfSome s.was.live (λ l. Lives terms (since_made s.was.scripts.log.past) s.was.time s.was.gather l past → GivesWhatCame old.secrets terms past event s.was s.goes.is) }
    ensures none { (unit : ℕ) (event : BundleEvent S) (old new : TableState S) → (s : UnitStep unit event old new) → TableStands old → s.was.live ≡ None → s.goes.is.given ≡ [] }
    ensures has_past { (unit : ℕ) (event : BundleEvent S) (old new : TableState S) → (s : UnitStep unit event old new) → TableStands old → HasItsHistory s.was }
{}
