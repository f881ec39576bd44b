ghost use Rattle.std.specs.Prelude.{◌≡◌, ◌++◌};
ghost use Rattle.std.specs.Option.{option_copied};
ghost use Rattle.ppp_options.specs.Last.{last_of};
ghost use Rattle.ppp_options.specs.LinkOf.{link_of};
ghost use Rattle.ppp_option_words.specs.Picks.{script_in};

use crate::scope::Scope;
use ppp_chat::Script;
use ppp_option_words::{Flag, LinkConfig, Number, Text, copied_disc, copied_name};

// What the words of a link say. The script is that of its `connect`.
pub(crate) fn link_of(scope: &Scope, script: Option<Script>) -> LinkConfig
    requires { script ≡ last_of script_in (scope.now.shared.now ++ scope.now.own.now) }
    ensures { result ≡ link_of (scope.now.shared.now ++ scope.now.own.now) }
{
    LinkConfig {
        line: scope.line(),
        script,
        mru: scope.number(Number::Mru) as u16,
        asyncmap: scope.asyncmap(),
        default_asyncmap: scope.has(Flag::DefaultAsyncmap),
        nomagic: scope.has(Flag::Nomagic),
        nopcomp: scope.has(Flag::Nopcomp),
        noaccomp: scope.has(Flag::Noaccomp),
        multilink: scope.switched(&[Flag::Multilink, Flag::Mp], &[Flag::Nomultilink]),
        mrru: scope.number(Number::Mrru) as u16,
        endpoint: copied_disc(scope.endpoint()),
        auth: scope.switched(
            &[Flag::Auth, Flag::RequirePap, Flag::RequireChap],
            &[Flag::Noauth],
        ),
        require_pap: scope.has(Flag::RequirePap),
        require_chap: scope.has(Flag::RequireChap),
        refuse_pap: scope.has(Flag::RefusePap),
        refuse_chap: scope.has(Flag::RefuseChap),
        name: scope.name(),
        user: scope.user(),
        remotename: copied_name(scope.text(Text::Remotename)),
        password: copied_name(scope.text(Text::Password)),
        local: scope.local(),
        remote: scope.remote(),
        ipcp_accept_local: scope.has(Flag::IpcpAcceptLocal),
        ipcp_accept_remote: scope.has(Flag::IpcpAcceptRemote),
        ipparam: scope.text_or_empty(Text::Ipparam),
        unit: scope.unit(),
        lcp_echo_interval: scope.number(Number::LcpEchoInterval) as u16,
        lcp_echo_failure: scope.number(Number::LcpEchoFailure) as u8,
        lcp_restart: scope.number(Number::LcpRestart) as u8,
        lcp_max_configure: scope.number(Number::LcpMaxConfigure) as u8,
        lcp_max_terminate: scope.number(Number::LcpMaxTerminate) as u8,
        lcp_max_failure: scope.number(Number::LcpMaxFailure) as u8,
        ipcp_restart: scope.number(Number::IpcpRestart) as u8,
        ipcp_max_configure: scope.number(Number::IpcpMaxConfigure) as u8,
        ipcp_max_terminate: scope.number(Number::IpcpMaxTerminate) as u8,
        ipcp_max_failure: scope.number(Number::IpcpMaxFailure) as u8,
        persist: scope.switched(&[Flag::Persist, Flag::Demand], &[Flag::Nopersist]),
        demand: scope.has(Flag::Demand),
        holdoff: scope.number(Number::Holdoff) as u16,
        maxfail: scope.number(Number::Maxfail) as u16,
        idle: scope.number(Number::Idle) as u16,
        maxconnect: scope.number(Number::Maxconnect) as u16,
    }
}
