ghost use Rattle.std.specs.Prelude.{◌≡◌, IfNone, IfSome};
ghost use Rattle.ppp_option_words.specs.Table.{IsWithin, default_of, least_of, most_of, number_spelled};

/// A word with a number behind it (pppd(8), "Options").
#[derive(Clone, Copy, PartialEq, Eq)]
pub enum Number {
    Mru,
    Mrru,
    Unit,
    LcpEchoInterval,
    LcpEchoFailure,
    LcpRestart,
    IpcpRestart,
    LcpMaxConfigure,
    IpcpMaxConfigure,
    LcpMaxTerminate,
    IpcpMaxTerminate,
    LcpMaxFailure,
    IpcpMaxFailure,
    Holdoff,
    Maxfail,
    Idle,
    Maxconnect,
    Loglimit,
}

/// How the word is spelled.
pub fn number_spelling(number: Number) -> &'static [u8]
    ensures { result.now ≡ number_spelled number }
{
    match number {
        Number::Mru => b"mru",
        Number::Mrru => b"mrru",
        Number::Unit => b"unit",
        Number::LcpEchoInterval => b"lcp-echo-interval",
        Number::LcpEchoFailure => b"lcp-echo-failure",
        Number::LcpRestart => b"lcp-restart",
        Number::IpcpRestart => b"ipcp-restart",
        Number::LcpMaxConfigure => b"lcp-max-configure",
        Number::IpcpMaxConfigure => b"ipcp-max-configure",
        Number::LcpMaxTerminate => b"lcp-max-terminate",
        Number::IpcpMaxTerminate => b"ipcp-max-terminate",
        Number::LcpMaxFailure => b"lcp-max-failure",
        Number::IpcpMaxFailure => b"ipcp-max-failure",
        Number::Holdoff => b"holdoff",
        Number::Maxfail => b"maxfail",
        Number::Idle => b"idle",
        Number::Maxconnect => b"maxconnect",
        Number::Loglimit => b"loglimit",
    }
}

/// The least that it may be.
pub fn least(number: Number) -> u32
    ensures { result ≡ least_of number }
{
    match number {
        Number::Mru => 128,
        Number::Mrru => 1500,
        Number::Unit
        | Number::LcpEchoInterval
        | Number::LcpEchoFailure
        | Number::Holdoff
        | Number::Maxfail
        | Number::Idle
        | Number::Maxconnect => 0,
        Number::LcpRestart
        | Number::IpcpRestart
        | Number::LcpMaxConfigure
        | Number::IpcpMaxConfigure
        | Number::LcpMaxTerminate
        | Number::IpcpMaxTerminate
        | Number::LcpMaxFailure
        | Number::IpcpMaxFailure => 1,
        Number::Loglimit => 4096,
    }
}

/// The most that it may be.
pub fn most(number: Number) -> u32
    ensures { result ≡ most_of number }
{
    match number {
        Number::Mru => 1500,
        Number::Mrru => 2048,
        Number::Unit => 15,
        Number::LcpEchoInterval
        | Number::Holdoff
        | Number::Maxfail
        | Number::Idle
        | Number::Maxconnect => 65535,
        Number::LcpEchoFailure
        | Number::LcpRestart
        | Number::IpcpRestart
        | Number::LcpMaxConfigure
        | Number::IpcpMaxConfigure
        | Number::LcpMaxTerminate
        | Number::IpcpMaxTerminate
        | Number::LcpMaxFailure
        | Number::IpcpMaxFailure => 255,
        Number::Loglimit => 1048576,
    }
}

/// What it is where no word says it. A link without `unit` has no unit of its own.
pub fn default(number: Number) -> Option<u32>
    ensures value { result ≡ default_of number }
    ensures range { IfSome result (IsWithin number) }
    ensures zero { IfNone result (IsWithin number 0) }
{
    match number {
        Number::Mru | Number::Mrru => Some(1500),
        Number::Unit => None,
        Number::LcpEchoInterval | Number::LcpEchoFailure | Number::Idle | Number::Maxconnect =>
            Some(0),
        Number::LcpRestart
        | Number::IpcpRestart
        | Number::LcpMaxTerminate
        | Number::IpcpMaxTerminate => Some(3),
        Number::LcpMaxConfigure
        | Number::IpcpMaxConfigure
        | Number::LcpMaxFailure
        | Number::IpcpMaxFailure
        | Number::Maxfail => Some(10),
        Number::Holdoff => Some(30),
        Number::Loglimit => Some(65536),
    }
}
