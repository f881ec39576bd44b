ghost use Rattle.std.specs.Prelude.{◌≡◌, ◌↔◌, IsTrue, option_map};
ghost use Rattle.ppp_outside.specs.Kit.{AskedAfter};

use crate::hook_paths::HookPaths;
use ppp_base::Name;

/// What all calls so far were given.
#[derive(Debug, Drop)]
pub enum Asked<T> {
    /// There was no call yet.
    NotYet,
    /// Each call was given this.
    Always(T),
    /// Two calls were given different values.
    Mixed,
}

// Whether they are the same octets.
fn is_same(one: &Name, other: &Name) -> bool
    ensures { IsTrue result ↔ (one.now ≡ other.now) }
{
    one == other
}

// Whether they are the same paths.
fn are_same(one: &HookPaths, other: &HookPaths) -> bool
    ensures { IsTrue result ↔ (one.now ≡ other.now) }
{
    is_same(&one.ip_up, &other.ip_up)
        && is_same(&one.ip_down, &other.ip_down)
        && is_same(&one.auth_up, &other.auth_up)
        && is_same(&one.auth_down, &other.auth_down)
}

impl Asked<HookPaths> {
    /// One more call was given these paths.
    pub fn ask_hooks(&mut self, hooks: &HookPaths)
        ensures { AskedAfter self.old hooks.now self.new }
    {
        let differs = match self {
            Asked::NotYet => {
                *self = Asked::Always(hooks.copy());
                return;
            }
            Asked::Always(first) => !are_same(first, hooks),
            Asked::Mixed => false,
        };
        if differs {
            *self = Asked::Mixed;
        }
    }
}

impl Asked<Option<Name>> {
    /// One more call was given this name, or none.
    pub fn ask_name(&mut self, name: Option<&Name>)
        ensures { AskedAfter self.old (option_map (λ name. name.now) name.entry) self.new }
    {
        let differs = match self {
            Asked::NotYet => {
                *self = Asked::Always(match name {
                    Some(name) => Some(name.copy()),
                    None => None,
                });
                return;
            }
            Asked::Always(first) => match (first, name) {
                (Some(first), Some(name)) => !is_same(first, name),
                (None, None) => false,
                (Some(_), None) | (None, Some(_)) => true,
            },
            Asked::Mixed => false,
        };
        if differs {
            *self = Asked::Mixed;
        }
    }
}
