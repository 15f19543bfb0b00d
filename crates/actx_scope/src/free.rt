//! The names that a function takes from outside: those of `() => a(b, a)` are `a` and `b`.

ghost use Rattle.std.specs.Prelude.{◌≡◌, ◌∷◌, [], IfOk, OnOk};
ghost use Rattle.actx_ast.specs.View.{function_view};
ghost use Rattle.actx_scope.specs.Links as spec;
ghost use Rattle.actx_scope.specs.Machine as m;
ghost use Rattle.actx_scope.specs.States.{state};

use super::link::Link;
use super::walk::{Walk, walk_function};
use actx_ast::tree::Function;
use actx_data::{NoMemory, Twin};
use actx_grammar::name::Name;
use indexmap::IndexSet;
use std::alloc::Global;

/// Adds the name of a use without a declaration to others.
fn add(alloc: Global, names: &mut IndexSet<Name>, link: &Link) -> Result<(), NoMemory>
    ensures { OnOk result (names.new.keys ≡ spec.with_names names.old.keys (spec.free_of (link.now ∷ []))) }
{
    match link {
        Link::Nothing => Ok(()),
        Link::To(_) => Ok(()),
        Link::Free(name) => {
            names.insert(name.copy(alloc)?)?;
            Ok(())
        }
    }
}

/// The names of all uses without a declaration.
fn gather(alloc: Global, links: &Vec<Link>) -> Result<IndexSet<Name>, NoMemory>
    ensures { IfOk result (λ names. names.keys ≡ spec.with_names [] (spec.free_of links.now.items)) }
{
    let mut names = IndexSet::new(alloc);
    for link in links {
        add(alloc, &mut names, link)?;
    }
    Ok(names)
}

/// The names of a set, in its order.
fn listed(alloc: Global, names: &IndexSet<Name>) -> Result<Vec<Name>, NoMemory>
    ensures { IfOk result (λ list. list.items ≡ names.now.keys) }
{
    let mut list = Vec::new(alloc);
    for name in names.as_slice() {
        list.push(name.copy(alloc)?)?;
    }
    Ok(list)
}

/// What the nodes of a function refer to, where nothing round it is declared.
fn links(alloc: Global, function: &Function) -> Result<Vec<Link>, NoMemory>
    ensures { IfOk result (λ links. links.items ≡ spec.function_links [] 0 (function_view function.now)) }
{
    let mut walk = Walk::new(alloc);
    walk_function(alloc, &mut walk, function)?;
    Ok(walk.links)
}

/// The names that a function uses and doesn't declare, each once, in the order of their first uses. Its own name, its
/// parameters and the names of its body are declared by it (ECMA-262, 10.2.11 and 15.2.5). Errors: `NoMemory`.
pub fn free_names(alloc: Global, function: &Function) -> Result<Vec<Name>, NoMemory>
    ensures { IfOk result (λ names. names.items ≡ spec.free_names (function_view function.now)) }
{
    let links = links(alloc, function)?;
    let names = gather(alloc, &links)?;
    Ok(listed(alloc, &names)?)
}
