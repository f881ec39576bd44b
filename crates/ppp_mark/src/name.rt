ghost use Rattle.std.specs.Prelude.{◌≡◌, true};
ghost use Rattle.ppp_mark.specs.Table.{is_kind, name_of};

use crate::kind;

/// The name of a kind of marks, as reports have it.
pub fn name(mark: u8) -> &'static [u8]
    requires { is_kind mark ≡ true }
    ensures { result.now ≡ name_of mark }
{
    match mark {
        kind::ATTEMPT => b"attempt",
        kind::LINE => b"line",
        kind::LCP_OPEN => b"lcp-open",
        kind::LCP_CLOSED => b"lcp-closed",
        kind::AUTH_OPEN => b"auth-open",
        kind::AUTH_CLOSED => b"auth-closed",
        kind::START => b"start",
        kind::ENDED => b"ended",
        kind::ASKED => b"asked",
        kind::LEFT => b"left",
        kind::MEMBER => b"member",
        kind::LIVE => b"live",
        kind::REFUSED => b"refused",
        kind::SIGNAL => b"signal",
        kind::CAUSE => b"cause",
        kind::OVER => b"over",
        kind::HOLD => b"hold",
        kind::WAIT => b"wait",
        kind::FINISHED => b"finished",
        kind::MADE => b"made",
        kind::IN => b"in",
        kind::OUT => b"out",
        kind::IP_OPEN => b"ip-open",
        kind::LOCAL => b"local",
        kind::REMOTE => b"remote",
        kind::IP_CLOSED => b"ip-closed",
        kind::CLOSE => b"close",
        _ => b"unmade",
    }
}
