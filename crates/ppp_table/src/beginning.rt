ghost use Rattle.std.specs.Prelude.{◌≡◌, ◌≤◌, ◌<◌, ◌^◌, [], ◌∷◌, IfOk, length, vec_capacity, vec_len};
ghost use Rattle.ppp_table.specs.Begins.{AreNewUnits, AreYoung, IsNewUnit};

use ppp_base::{NoMemory, Unit};
use ppp_bundle::Bundle;
use ppp_option_words::{Config, LinkConfig};
use ppp_outside::Spawner;
use std::alloc::Global;

// The options of the links again.
pub(crate) fn links_of(alloc: Global, config: &Config) -> Result<Vec<LinkConfig>, NoMemory>
    ensures { IfOk result (λ links. links.items ≡ config.now.links) }
{
    let all = config.links.as_slice();
    let mut links = Vec::with_capacity(alloc, all.len()).map_err(|_| NoMemory)?;
    'copying: for link in all {
        links.push_reserved(link.copy(alloc)?);
    }
    Ok(links)
}

// A unit without a bundle.
fn new_unit<S: Spawner>(
    alloc: Global,
    number: Unit,
    spawner: S,
    limit: u32,
) -> Result<Bundle<S>, NoMemory>
    requires limit { (4096 ≤ limit) × (limit ≤ 1048576) }
    requires tries { S.tries spawner < 2 ^ 63 }
    requires faults { S.faults spawner < 2 ^ 63 }
    ensures { IfOk result (IsNewUnit number limit spawner) }
{
    Bundle::new(alloc, number, spawner, limit)
}

// Takes the first.
fn take_first<S: Spawner>(spawners: &mut Vec<S>) -> S
    requires { 0 < length spawners.old.items }
    ensures { spawners.old.items ≡ result ∷ spawners.new.items }
{
    spawners.remove(0)
}

// An empty list with room for sixteen units.
fn room_for<S: Spawner>(alloc: Global) -> Result<Vec<Bundle<S>>, NoMemory>
    ensures items { IfOk result (λ units. units.items ≡ []) }
    ensures count { IfOk result (λ units. vec_len units ≡ 0) }
    ensures room { IfOk result (λ units. 16 ≤ vec_capacity units) }
{
    Vec::with_capacity(alloc, 16).map_err(|_| NoMemory)
}

// A unit for each spawner.
pub(crate) fn units_of<S: Spawner>(
    alloc: Global,
    spawners: Vec<S>,
    limit: u32,
) -> Result<Vec<Bundle<S>>, NoMemory>
    requires sixteen { length spawners.items ≡ 16 }
    requires young { AreYoung S.tries S.faults (2 ^ 63) spawners.items }
    requires limit { (4096 ≤ limit) × (limit ≤ 1048576) }
    ensures { IfOk result (λ units. AreNewUnits 0 limit spawners.items units.items) }
{
    let mut spawners = spawners;
    let mut units = room_for(alloc)?;
    for number in 0..16u8 {
        let spawner = take_first(&mut spawners);
        let unit = Unit::new(number).unwrap();
        units.push_reserved(new_unit(alloc, unit, spawner, limit)?);
    }
    Ok(units)
}
