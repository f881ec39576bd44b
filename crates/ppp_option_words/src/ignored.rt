ghost use Rattle.std.specs.Prelude.{◌≡◌};
ghost use Rattle.ppp_option_words.specs.Table.{ignored_spelled};

/// A word of pppd's that is accepted without effect.
#[derive(Clone, Copy)]
pub enum Ignored {
    Crtscts,
    Nocrtscts,
    Lock,
    Modem,
    Local,
    Noccp,
    Novj,
    Nobsdcomp,
    Nodeflate,
    Nodetach,
    Noipdefault,
    Defaultroute,
    Usepeerdns,
    Debug,
}

/// How the word is spelled.
pub fn ignored_spelling(ignored: Ignored) -> &'static [u8]
    ensures { result.now ≡ ignored_spelled ignored }
{
    match ignored {
        Ignored::Crtscts => b"crtscts",
        Ignored::Nocrtscts => b"nocrtscts",
        Ignored::Lock => b"lock",
        Ignored::Modem => b"modem",
        Ignored::Local => b"local",
        Ignored::Noccp => b"noccp",
        Ignored::Novj => b"novj",
        Ignored::Nobsdcomp => b"nobsdcomp",
        Ignored::Nodeflate => b"nodeflate",
        Ignored::Nodetach => b"nodetach",
        Ignored::Noipdefault => b"noipdefault",
        Ignored::Defaultroute => b"defaultroute",
        Ignored::Usepeerdns => b"usepeerdns",
        Ignored::Debug => b"debug",
    }
}
