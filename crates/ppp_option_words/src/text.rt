ghost use Rattle.std.specs.Prelude.{◌≡◌};
ghost use Rattle.ppp_option_words.specs.Table.{text_spelled};

/// A word with a text of at most 255 octets behind it (pppd(8), "Options").
#[derive(Clone, Copy, PartialEq, Eq)]
pub enum Text {
    Socket,
    Name,
    User,
    Remotename,
    Password,
    Ipparam,
    PapSecrets,
    ChapSecrets,
    HookIpUp,
    HookIpDown,
    HookAuthUp,
    HookAuthDown,
    Control,
    Packets,
}

/// How the word is spelled.
pub fn text_spelling(text: Text) -> &'static [u8]
    ensures { result.now ≡ text_spelled text }
{
    match text {
        Text::Socket => b"socket",
        Text::Name => b"name",
        Text::User => b"user",
        Text::Remotename => b"remotename",
        Text::Password => b"password",
        Text::Ipparam => b"ipparam",
        Text::PapSecrets => b"pap-secrets",
        Text::ChapSecrets => b"chap-secrets",
        Text::HookIpUp => b"hook-ip-up",
        Text::HookIpDown => b"hook-ip-down",
        Text::HookAuthUp => b"hook-auth-up",
        Text::HookAuthDown => b"hook-auth-down",
        Text::Control => b"control",
        Text::Packets => b"packets",
    }
}
