ghost use Rattle.std.specs.Prelude.{◌≡◌, ◌<◌, ◌++◌, [], ◌∷◌, length, IfSome, position};
ghost use Rattle.std.specs.List.{slice_split};
ghost use Rattle.std.specs.Option.{option_copied};
ghost use Rattle.ppp_option_words.specs.Answers.{Gives};
ghost use Rattle.ppp_option_words.specs.Picks.{is_link};
ghost use Rattle.ppp_options.specs.Scopes.{link_read, links_read, parts_behind, scopes_of, shared_with};

use crate::last::{has_pty, has_socket};
use crate::link::link_of;
use crate::scope::Scope;
use ppp_option_words::{FaultWord, Item, LinkConfig, OptionsFault, copied_script};
use std::alloc::Global;

// The place of the first `link`.
fn first_link(items: &[Item]) -> Option<usize>
    ensures place { result ≡ position is_link items.now }
    ensures within { IfSome result (λ place. place < length items.now) }
{
    items.iter().position(|item| item.is_link())
}

// The words before the first `link`, and those behind it, if there is one.
#[tactic(auto, using(crate::proofs::LinkLemmas::section_some, crate::proofs::LinkLemmas::section_none))]
fn first_section(items: &[Item]) -> (&[Item], Option<&[Item]>)
    ensures parts { slice_split is_link items.now ≡ result.0.now ∷ parts_behind (option_copied result.1) }
    ensures shorter { IfSome result.1 (λ rest. length rest.now < length items.now) }
{
    match first_link(items) {
        Some(place) => (&items[..place], Some(&items[place + 1..])),
        None => (items, None),
    }
}

// What the words of a link say, or its fault.
#[tactic(auto, using(crate::proofs::LinkLemmas::any_append))]
fn read_link(alloc: Global, scope: &Scope) -> Result<LinkConfig, OptionsFault>
    ensures { Gives (λ link. link) result (link_read (scope.now.shared.now ++ scope.now.own.now)) }
{
    let socket = has_socket(scope.shared) || has_socket(scope.own);
    let pty = has_pty(scope.shared) || has_pty(scope.own);
    if socket && pty {
        return Err(OptionsFault::Clash(
            FaultWord::copied(alloc, b"socket")?,
            FaultWord::copied(alloc, b"pty")?,
        ));
    }
    if !socket && !pty {
        return Err(OptionsFault::Missing(FaultWord::copied(alloc, b"socket")?));
    }
    let script = copied_script(alloc, scope.script())?;
    Ok(link_of(scope, script))
}

// What the words of each link say in order, or the fault of the least link that has one.
pub(crate) fn read_links(alloc: Global, items: &[Item]) -> Result<Vec<LinkConfig>, OptionsFault>
    ensures { Gives (λ links. links.items) result (links_read (scopes_of items.now)) }
{
    let (shared, rest) = first_section(items);
    match rest {
        None => read_only(alloc, shared),
        Some(rest) => read_each(alloc, shared, rest),
    }
}

// What the words of the only link say.
fn read_only(alloc: Global, items: &[Item]) -> Result<Vec<LinkConfig>, OptionsFault>
    ensures { Gives (λ links. links.items) result (links_read (items.now ∷ [])) }
{
    let scope = Scope {
        shared: items,
        own: &[],
    };
    let link = read_link(alloc, &scope)?;
    let mut links = Vec::new(alloc);
    links.push(link)?;
    Ok(links)
}

// What the words of each link say, behind those that count for every link.
fn read_each(
    alloc: Global,
    shared: &[Item],
    items: &[Item],
) -> Result<Vec<LinkConfig>, OptionsFault>
    ensures { Gives (λ links. links.items) result (links_read (shared_with shared.now (slice_split is_link items.now))) }
{
    let mut links = Vec::new(alloc);
    let mut left = Some(items);
    'reading: while let Some(items) = left {
        let (own, others) = first_section(items);
        let scope = Scope { shared, own };
        let link = read_link(alloc, &scope)?;
        links.push(link)?;
        left = others;
    }
    Ok(links)
}
