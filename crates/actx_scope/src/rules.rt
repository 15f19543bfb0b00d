//! Whether a program keeps the static rules, and which declarations its names refer to: `f(a);` uses two names that nothing
//! declares, and `let a; let a;` declares one twice.

ghost use Rattle.std.specs.Prelude.{◌≡◌, ℕ, [], Some, IfOk, OnOk, IsErrOf};
ghost use Rattle.actx_grammar.specs.Static as spec;
ghost use Rattle.actx_ast.specs.View.{program_view};
ghost use Rattle.actx_scope.specs.Links.{links, link_at, free_of};
ghost use Rattle.actx_scope.specs.Machine as m;
ghost use Rattle.actx_scope.specs.States.{state};

use super::fault::CheckFault;
use super::link::Link;
use super::walk::{Walk, walk_block};
use actx_ast::tree::Program;
use actx_data::NoMemory;
use std::alloc::Global;
use std::marker::Model;

/// What the names of a program refer to, seen as the list of what each node refers to.
#[derive(Drop)]
pub struct Scopes {
    nodes: Vec<Link>,
}

impl Model for Scopes {
    ghost use Rattle.std.specs.Prelude.{List};
    ghost use Rattle.actx_scope.specs.declared.link.Link.{Link};

    ghost Value = { List Link };

    ghost view = { λ s. s.nodes.items };
}

impl Scopes {
    /// The node that declares the name that a node reads or writes, both numbered from 0 as they stand in the text; `None`
    /// where the node is no use of a name (ECMA-262, 9.4.2).
    pub fn declared_by(&self, node: u64) -> Option<u64>
        ensures { result ≡ link_at self.now node }
    {
        match self.nodes.get(node as usize) {
            Some(Link::To(declaration)) => Some(*declaration),
            _ => None,
        }
    }
}

/// The walk over a whole program.
fn walked(alloc: Global, program: &Program) -> Result<Walk, NoMemory>
    ensures { IfOk result (λ walk. state walk ≡ m.block_walk (program_view program.now) m.start) }
{
    let mut walk = Walk::new(alloc);
    walk_block(alloc, &mut walk, &program.body)?;
    Ok(walk)
}

/// Checks the static rules (ECMA-262, 8.6.1, 13.1.1, 14.2.1, 14.3.1.1, 14.9.1, 14.10.1, 14.15.1, 15.1.1 and 16.1.1,
/// restricted), and answers what each name of the program refers to. Every use of a name then has a declaration. It takes
/// stack for each level of nesting, of which source programs have 200 at most.
///
/// Errors: of all places that break a rule the first, as they stand in the text, by the number of its node: `Undeclared` for a
/// use of a name that isn't declared in scope, `Twice` for a second binding of a name in its scope, `Reserved` for a name or a
/// key that no program has, `Misplaced` for what stands outside of what it belongs to; and `NoMemory`.
pub fn check(alloc: Global, program: &Program) -> Result<Scopes, CheckFault>
    ensures clean { OnOk result (spec.Clean (program_view program.now)) }
    ensures uses { IfOk result (λ scopes. scopes ≡ links (program_view program.now)) }
    ensures declared { OnOk result (free_of (links (program_view program.now)) ≡ []) }
    ensures undeclared { (n : ℕ) → IsErrOf result (CheckFault.Undeclared n) → spec.first_offence (program_view program.now) ≡ Some (record { node = n; kind = spec.undeclared }) }
    ensures twice { (n : ℕ) → IsErrOf result (CheckFault.Twice n) → spec.first_offence (program_view program.now) ≡ Some (record { node = n; kind = spec.twice }) }
    ensures reserved { (n : ℕ) → IsErrOf result (CheckFault.Reserved n) → spec.first_offence (program_view program.now) ≡ Some (record { node = n; kind = spec.reserved }) }
    ensures misplaced { (n : ℕ) → IsErrOf result (CheckFault.Misplaced n) → spec.first_offence (program_view program.now) ≡ Some (record { node = n; kind = spec.misplaced }) }
{
    let walk = walked(alloc, program)?;
    match walk.fault {
        Some(fault) => Err(fault),
        None => Ok(Scopes { nodes: walk.links }),
    }
}
