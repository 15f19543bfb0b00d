//! The stack of all that is open, as the call and the `const` in `const a = f ( 1`.

ghost use Rattle.std.specs.Prelude.{◌≡◌, ◌∷◌, [], ℕ, List, MatchOption, OnOk};
ghost use Rattle.actx_grammar.specs.ParserState.{frame_levels, function_head, here, in_list, role_levels};
ghost use Rattle.actx_grammar.specs.Tree.{Stmts};
ghost use Rattle.actx_frames.specs.ParserView.{frame_view, head_view, owner_view, role_view, stack_view};

use super::state::{Frame, Head, ListOwner, Role};
use actx_data::NoMemory;
use actx_grammar::name::Name;
use actx_grammar::operators::FunctionKind;
use std::alloc::Global;
use std::marker::Model;

/// The frames, the innermost last; they are seen with the innermost first.
#[derive(Drop)]
pub struct Stack {
    frames: Vec<Frame>,
    /// How many levels of the depth they make.
    levels: usize,
}

impl Model for Stack {
    ghost use Rattle.std.specs.Prelude.{◌≡◌, List, []};
    ghost use Rattle.std.specs.Coded.{codes};
    ghost use Rattle.actx_ast.specs.contracts.tree.Catcher as catcher;
    ghost use Rattle.actx_ast.specs.contracts.tree.Clause as clause;
    ghost use Rattle.actx_ast.specs.contracts.tree.ConstItem as const_item;
    ghost use Rattle.actx_ast.specs.contracts.tree.Expr as expr;
    ghost use Rattle.actx_ast.specs.contracts.tree.ForInit as init;
    ghost use Rattle.actx_ast.specs.contracts.tree.Key as key;
    ghost use Rattle.actx_ast.specs.contracts.tree.LetItem as let_item;
    ghost use Rattle.actx_ast.specs.contracts.tree.Property as property;
    ghost use Rattle.actx_ast.specs.contracts.tree.PropKey as prop_key;
    ghost use Rattle.actx_ast.specs.contracts.tree.Stmt as stmt;
    ghost use Rattle.actx_frames.specs.declared.state.Frame.{Frame};

    ghost Value = { List Frame };

    ghost coded = { Prim.hlevel (codes, key.the_row.coded, prop_key.the_row.coded, init.the_row.coded, catcher.the_row.coded, expr.the_row.coded, stmt.the_row.coded, const_item.the_row.coded, let_item.the_row.coded, clause.the_row.coded, property.the_row.coded) };

    ghost use Rattle.actx_grammar.specs.ParserState as machine;
    ghost use Rattle.actx_frames.specs.ParserView.{onto, stack_view};

    ghost view = { λ s. onto s.frames.items [] };

    ghost invariant = { λ s. s.levels ≡ machine.levels (stack_view (onto s.frames.items [])) };
}

fn role_levels(role: &Role, kind: FunctionKind, name: &Option<Name>) -> usize
    ensures { result ≡ role_levels (function_head (role_view role.now) kind name.now) }
{
    match role {
        Role::Method(_, _, _) => 2,
        _ => 1,
    }
}

/// How many levels of the depth a function makes; of a method also its object.
fn head_levels(head: &Head) -> usize
    ensures { result ≡ role_levels (head_view head.now) }
{
    match head {
        Head::Function(role, kind, name) => role_levels(role, *kind, name),
        Head::Arrow(_) => 1,
    }
}

/// How many levels of the depth a list of statements makes.
fn owner_levels(owner: &ListOwner) -> usize
    ensures { (ss : Stmts) (r : ℕ) → result ≡ frame_levels (in_list (owner_view owner.now) ss r) }
{
    match owner {
        ListOwner::Program => 0,
        ListOwner::Body(head, _) => head_levels(head),
        _ => 1,
    }
}

/// How many levels of the depth a frame makes.
fn frame_levels(frame: &Frame) -> usize
    ensures { result ≡ frame_levels (frame_view frame.now) }
{
    match frame {
        Frame::Arrow(_, _) => 2,
        Frame::List(owner, _, _) => owner_levels(owner),
        _ => 1,
    }
}

impl Stack {
    /// No frame.
    pub fn new(alloc: Global) -> Stack
        ensures { result ≡ [] }
    {
        Stack {
            frames: Vec::new(alloc),
            levels: 0,
        }
    }

    /// Puts a frame on top.
    #[tactic(auto, using(crate::proofs::ParseStack::onto_last, crate::proofs::ParseStack::levels_most))]
    pub fn push(&mut self, frame: Frame) -> Result<(), NoMemory>
        ensures { OnOk result (self.new ≡ frame ∷ self.old) }
    {
        let more = frame_levels(&frame);
        self.frames.push(frame)?;
        self.levels += more;
        Ok(())
    }

    /// Takes the frame on top.
    #[tactic(auto, using(crate::proofs::ParseStack::onto_last))]
    pub fn pop(&mut self) -> Option<Frame>
        ensures { MatchOption result ((self.old ≡ []) × (self.new ≡ [])) (λ f. self.old ≡ f ∷ self.new) }
    {
        let frame = self.frames.pop()?;
        self.levels -= frame_levels(&frame);
        Some(frame)
    }

    /// The innermost frame.
    #[tactic(auto, using(crate::proofs::ParseStack::top_last, crate::proofs::ParseStack::no_last))]
    pub fn top(&self) -> Option<&Frame>
        ensures { MatchOption result (self.now ≡ []) (λ f. (rest : List Frame) × (self.now ≡ f.now ∷ rest)) }
    {
        match self.frames.last() {
            Some(frame) => Some(frame),
            None => None,
        }
    }

    /// The depth of a node that stands here.
    #[tactic(auto, using(crate::proofs::ParseStack::levels_most))]
    pub fn here(&self) -> usize
        ensures { result ≡ here (stack_view self.now) }
    {
        let _frames = self.frames.len(); // this bounds the levels
        self.levels + 1
    }
}
