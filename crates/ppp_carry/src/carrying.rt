ghost use Rattle.std.specs.Prelude.{◌≡◌, []};
ghost use Rattle.ppp_table_parts.specs.Side.{emptied, posts_of};
ghost use Rattle.ppp_table_parts.specs.Sides.{at_link, side_of};
ghost use Rattle.ppp_table.specs.Counts.{CountsKept};
ghost use Rattle.ppp_carry.specs.CarryPart.{AllGiven, AllPosted, AllTaken, CarryPart, TakesIf};

use ppp_base::{Ends, Post, Stepped};
use ppp_outside::Spawner;
use ppp_table::Table;

// Hands a link one post of the table. One of another stay is dropped.
#[tactic(auto, using(crate::proofs::Carryings::given_by))]
fn give_one<E: Ends>(link: &mut E, post: Post)
    ensures given { TakesIf (E.is_present link.old post) E.Takes post link.old link.new }
    ensures same { E.number link.new ≡ E.number link.old }
{
    let _ = link.from_table(post);
}

// Every post of a link that waits comes to the table.
fn carry_up<E: Ends, S: Spawner>(link: &mut E, table: &mut Table<S>)
    ensures up { AllPosted (E.number link.old) (E.waiting link.old) table.old table.new }
    ensures link { AllTaken E.Posted (E.waiting link.old) link.old link.new }
    ensures same { E.number link.new ≡ E.number link.old }
    ensures counts { CountsKept table.old table.new }
{
    let number = link.id();
    'posting: while let Some(post) = link.take_up() {
        table.post(number, post);
    }
}

// Every post of the table that waits for a link is given to it.
fn carry_down<E: Ends, S: Spawner>(link: &mut E, table: &mut Table<S>)
    ensures down { AllGiven E.is_present E.Takes (posts_of (side_of (E.number link.old) table.old.sides)) link.old link.new }
    ensures after { table.new ≡ record table.old { sides = at_link (E.number link.old) emptied table.old.sides } }
    ensures empty { posts_of (side_of (E.number link.old) table.new.sides) ≡ [] }
    ensures same { E.number link.new ≡ E.number link.old }
{
    let number = link.id();
    'giving: while let Some(post) = table.take_post(number) {
        give_one(link, post);
    }
}

/// Every post of the link that waits comes to the table, in order; then every post of the table that waits for this link is given
/// to it, in order, and one of another stay is dropped. What the link posts by that waits for the next carrying. It takes no
/// memory.
pub fn carry<E: Ends, S: Spawner>(link: &mut E, table: &mut Table<S>)
    ensures part { CarryPart E.is_present E.Takes E.Posted (E.number link.old) (E.waiting link.old) link.old link.new table.old table.new }
    ensures empty { posts_of (side_of (E.number link.old) table.new.sides) ≡ [] }
    ensures same { E.number link.new ≡ E.number link.old }
    ensures counts { CountsKept table.old table.new }
{
    carry_up(link, table);
    carry_down(link, table);
}
