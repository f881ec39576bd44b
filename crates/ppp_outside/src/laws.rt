//! What follows from the definitions, for a reader and for the layers above.

ghost use Rattle.std.specs.Prelude.{ℕ, List, [], ◌∷◌, Option};
ghost use Rattle.ppp_outside.specs.Kit.{AskedAfter, TellsOf};
ghost use Rattle.ppp_outside.specs.declared.asked.Asked.{Asked};
ghost use Rattle.ppp_outside.specs.declared.asked.Asked.TheVariants.{NotYet};
ghost use Rattle.ppp_outside.specs.declared.hook_paths.HookPaths.{HookPaths};

/// After any list of calls, the newest first, an `Asked` says what all of them were given: paths, or a name or none.
pub fn tells_of_all_calls()
    ensures no_paths { TellsOf {A = HookPaths} NotYet [] }
    ensures paths { (before now : Asked HookPaths) (value : HookPaths) (values : List HookPaths) → TellsOf before values → AskedAfter before value now
        → TellsOf now (value ∷ values) }
    ensures no_name { TellsOf {A = Option (List ℕ)} NotYet [] }
    ensures names { (before now : Asked (Option (List ℕ))) (value : Option (List ℕ)) (values : List (Option (List ℕ))) → TellsOf before values
        → AskedAfter before value now → TellsOf now (value ∷ values) }
{}
