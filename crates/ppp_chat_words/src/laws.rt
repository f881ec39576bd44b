ghost use Rattle.std.specs.Prelude.{◌≡◌, ◌++◌, ◌∷◌, [], ℕ, Bool, true, false, List, length, None, Some, unwrap_or};
ghost use Rattle.std.specs.List.{flat_map};
ghost use Rattle.ppp_chat_words.specs.Said.{AreOptions, IsScript, Said, counted, is_dials, is_from, last_seconds, said_spelled, value_place};
ghost use Rattle.ppp_chat_words.specs.Told.{told};

/// What options say that stand in front of a script: the timeout is that of the last `-t`, and the script stands behind
/// all of them. Where `-f` is among them, there is no script.
pub fn options_tell()
    ensures script { (dials : Bool) (options : List Said) (script : List (List ℕ)) → AreOptions dials options → IsScript script
        → counted is_from options ≡ 0
        → told dials (flat_map said_spelled options ++ script) ≡ record {
          timeout_s = unwrap_or (last_seconds options) 45;
          file = None;
          line = value_place is_dials 0 options;
          script = length (flat_map said_spelled options);
          wrong = None;
        } }
    ensures file { (dials : Bool) (options : List Said) → AreOptions dials options
        → told dials (flat_map said_spelled options) ≡ record {
          timeout_s = unwrap_or (last_seconds options) 45;
          file = value_place is_from 0 options;
          line = value_place is_dials 0 options;
          script = length (flat_map said_spelled options);
          wrong = None;
        } }
{}
