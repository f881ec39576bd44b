ghost use Rattle.std.specs.Prelude.{◌≡◌};
ghost use Rattle.ppp_outside.specs.SignalNames.{signal_of};

use ppp_base::SignalWord;

/// The signal that a word of a control names: `HUP`, `INT`, `TERM`, `USR1` or `USR2`. None: another word.
pub fn signal_named(text: &[u8]) -> Option<SignalWord>
    ensures { result ≡ signal_of text.now }
{
    if text == b"HUP".as_slice() {
        Some(SignalWord::Hup)
    } else if text == b"INT".as_slice() {
        Some(SignalWord::Int)
    } else if text == b"TERM".as_slice() {
        Some(SignalWord::Term)
    } else if text == b"USR1".as_slice() {
        Some(SignalWord::Usr1)
    } else if text == b"USR2".as_slice() {
        Some(SignalWord::Usr2)
    } else {
        None
    }
}
