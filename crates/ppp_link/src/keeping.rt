// What an event leaves of the objects.
ghost use Rattle.std.specs.Prelude.{◌≡◌};
ghost use Rattle.ppp_link_rules.specs.LinkState.{is_waiting};
ghost use Rattle.ppp_link.specs.Link.{halves_kept, kept_if};

use crate::body::LinkBody;
use ppp_link_rules::errand::Errand;
use ppp_outside::Spawner;

// Whether an errand waits to be taken.
pub(crate) fn waits(errand: Errand) -> bool
    ensures { result ≡ is_waiting errand }
{
    match errand {
        Errand::Absent => false,
        Errand::Waiting => true,
        Errand::Out => false,
    }
}

// An object is dropped, unless its errand waits.
fn keep_if<T: Drop>(object: &mut Option<T>, waits: bool)
    ensures { object.new ≡ kept_if waits object.old }
{
    if !waits {
        *object = None;
    }
}

// The halves of the line are dropped, but where they wait to be taken.
pub(crate) fn keep_halves<D: Drop, I: Drop, O: Drop, S: Spawner>(body: &mut LinkBody<D, I, O, S>)
    ensures { body.new ≡ halves_kept body.old }
{
    let reads = waits(body.core.reading);
    let writes = waits(body.core.writing);
    keep_if(&mut body.input, reads);
    keep_if(&mut body.output, writes);
}
