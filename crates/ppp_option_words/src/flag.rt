ghost use Rattle.std.specs.Prelude.{◌≡◌};
ghost use Rattle.ppp_option_words.specs.Table.{flag_spelled};

/// A word without a value that sets or clears something of a link (pppd(8), "Options").
#[derive(Clone, Copy, PartialEq, Eq)]
pub enum Flag {
    DefaultAsyncmap,
    Nomagic,
    Nopcomp,
    Noaccomp,
    Multilink,
    Mp,
    Nomultilink,
    Auth,
    Noauth,
    RequirePap,
    RequireChap,
    RefusePap,
    RefuseChap,
    IpcpAcceptLocal,
    IpcpAcceptRemote,
    Persist,
    Nopersist,
    Demand,
}

/// How the word is spelled.
pub fn flag_spelling(flag: Flag) -> &'static [u8]
    ensures { result.now ≡ flag_spelled flag }
{
    match flag {
        Flag::DefaultAsyncmap => b"default-asyncmap",
        Flag::Nomagic => b"nomagic",
        Flag::Nopcomp => b"nopcomp",
        Flag::Noaccomp => b"noaccomp",
        Flag::Multilink => b"multilink",
        Flag::Mp => b"mp",
        Flag::Nomultilink => b"nomultilink",
        Flag::Auth => b"auth",
        Flag::Noauth => b"noauth",
        Flag::RequirePap => b"require-pap",
        Flag::RequireChap => b"require-chap",
        Flag::RefusePap => b"refuse-pap",
        Flag::RefuseChap => b"refuse-chap",
        Flag::IpcpAcceptLocal => b"ipcp-accept-local",
        Flag::IpcpAcceptRemote => b"ipcp-accept-remote",
        Flag::Persist => b"persist",
        Flag::Nopersist => b"nopersist",
        Flag::Demand => b"demand",
    }
}
