ghost use Rattle.std.specs.Prelude.{◌≡◌};
ghost use Rattle.ppp_replay.specs.ActNames.{name_of};

use ppp_fsm::Act;

/// The name of an act.
#[tactic(auto, unfolding(crate::specs::ActNames::name_of))]
pub fn name(act: Act) -> &'static str
    ensures { result.now ≡ name_of act }
{
    match act {
        Act::Tlu => "tlu",
        Act::Tld => "tld",
        Act::Tls => "tls",
        Act::Tlf => "tlf",
        Act::Irc => "irc",
        Act::Zrc => "zrc",
        Act::Scr => "scr",
        Act::Sca => "sca",
        Act::Scn => "scn",
        Act::Str => "str",
        Act::Sta => "sta",
        Act::Scj => "scj",
        Act::Ser => "ser",
    }
}
