ghost use Rattle.std.specs.Prelude.{◌≡◌, [], length};
ghost use Rattle.ppp_table.specs.Told.{posted};
ghost use Rattle.ppp_table_parts.specs.Deliveries.{with_deliveries};

use ppp_base::Unit;
use ppp_bundle::Bundle;
use ppp_outside::Spawner;
use ppp_table_parts::deliveries::Deliveries;
use ppp_table_parts::head::FrameHead;
use ppp_table_parts::sides::Sides;

// What a unit sent goes to the rings of its links.
pub(crate) fn drain_sent<S: Spawner>(unit: &mut Bundle<S>, sides: &mut Sides)
    ensures sides { sides.new ≡ posted unit.old.sent sides.old }
    ensures unit { unit.new ≡ record unit.old { sent = [] } }
{
    'draining: while let Some(sending) = unit.take_sent() {
        let head = FrameHead {
            protocol: sending.protocol,
            rejected: sending.rejected,
        };
        sides.put_frame(sending.link, head, sending.information.as_slice());
    }
}

// What a unit gave goes to the deliveries.
pub(crate) fn drain_given<S: Spawner>(
    number: Unit,
    unit: &mut Bundle<S>,
    deliveries: &mut Deliveries,
)
    ensures deliveries { deliveries.new ≡ with_deliveries number unit.old.given deliveries.old }
    ensures unit { unit.new ≡ record unit.old { given = [] } }
{
    'draining: while let Some(datagram) = unit.take_given() {
        deliveries.put(number, datagram.as_slice());
    }
}
