//! Expressions and what stands in them, taken apart.

ghost use Rattle.std.specs.Prelude.{◌≡◌, ◌≤◌, ◌<◌, ◌+◌, ℕ, IfSome, option_map};
ghost use Rattle.std.specs.Vec.{vec_capacity, vec_len};
ghost use Rattle.actx_ast.specs.Apart.{AllBelow, boxed_work, expr_work, function_work, init_work, key_work, property_work, weigh, weight};
ghost use Rattle.actx_ast.specs.declared.tree.Expr.{size-Expr};
ghost use Rattle.actx_ast.specs.declared.tree.ForInit.{size-ForInit};
ghost use Rattle.actx_ast.specs.declared.tree.Function.{size-Function};
ghost use Rattle.actx_ast.specs.declared.tree.Key.{size-Key};
ghost use Rattle.actx_ast.specs.declared.tree.Property.{size-Property};

use super::super::{Expr, ForInit, Function, Key, PropKey, Property};
use super::{Part, ROOM, put};
use std::alloc::Global;

impl Expr {
    /// The allocator of the parts, where there are any.
    pub(super) fn allocator(&self) -> Option<Global> {
        match self {
            Expr::Unary(_, e)
            | Expr::Binary(_, e, _)
            | Expr::Logic(_, e, _)
            | Expr::Choice(e, _, _)
            | Expr::SetName(_, e)
            | Expr::SetMember(e, _, _)
            | Expr::Change(_, _, e)
            | Expr::Member(e, _)
            | Expr::Call(e, _)
            | Expr::Yield(Some(e))
            | Expr::YieldAll(e)
            | Expr::Await(e) => Some(*Box::allocator(e)),
            Expr::Object(properties) => Some(*properties.allocator()),
            Expr::Function(f) => Some(*Box::allocator(f)),
            Expr::Form(_, parts) => Some(*parts.allocator()),
            _ => None,
        }
    }

    /// An empty list with room for the parts, where there are any and there is memory.
    #[tactic(auto, using(crate::proofs::Parts::AllBelow_none))]
    pub(in crate::tree) fn room(&self) -> Option<Vec<Part>>
        ensures below { (n : ℕ) → IfSome result (λ v. AllBelow n v.items) }
        ensures room { IfSome result (λ v. 5 ≤ vec_capacity v) }
        ensures length { IfSome result (λ v. vec_len v ≡ 0) }
    {
        let alloc = self.allocator()?;
        Vec::with_capacity(alloc, ROOM).ok()
    }

    /// Destructures an expression, and keeps its parts.
    pub(in crate::tree) fn open(self, parts: &mut Vec<Part>)
        requires { vec_len parts.old + 3 ≤ vec_capacity parts.old }
        ensures below { (n : ℕ) → size-Expr self ≤ n → AllBelow n parts.old.items → AllBelow n parts.new.items }
        ensures weight { weigh parts.new.items ≤ weigh parts.old.items + expr_work self }
        ensures length { vec_len parts.new ≤ vec_len parts.old + 3 }
        ensures capacity { vec_capacity parts.new ≡ vec_capacity parts.old }
    {
        match self {
            Expr::Num(_) => {}
            Expr::Text(_) => {}
            Expr::Truth(_) => {}
            Expr::Null => {}
            Expr::Undefined => {}
            Expr::This => {}
            Expr::Named(_) => {}
            Expr::Unary(_, e) => put(parts, Part::Expr(e)),
            Expr::Binary(_, left, right) => put_two(parts, left, right),
            Expr::Logic(_, left, right) => put_two(parts, left, right),
            Expr::Choice(test, yes, no) => {
                put(parts, Part::Expr(test));
                put_two(parts, yes, no);
            }
            Expr::SetName(_, value) => put(parts, Part::Expr(value)),
            Expr::SetMember(base, key, value) => {
                put_two(parts, base, value);
                key.open(parts);
            }
            Expr::Change(_, _, value) => put(parts, Part::Expr(value)),
            Expr::Bump {
                name: _,
                up: _,
                before: _,
            } => {}
            Expr::Member(base, key) => {
                put(parts, Part::Expr(base));
                key.open(parts);
            }
            Expr::Call(callee, args) => {
                put(parts, Part::Expr(callee));
                put(parts, Part::Exprs(args));
            }
            Expr::Object(properties) => put(parts, Part::Properties(properties)),
            Expr::Function(f) => put(parts, Part::Function(f)),
            Expr::Yield(value) => put_maybe_expr(value, parts),
            Expr::YieldAll(value) => put(parts, Part::Expr(value)),
            Expr::Await(value) => put(parts, Part::Expr(value)),
            Expr::Form(_, items) => put(parts, Part::Exprs(items)),
        }
    }
}

fn put_two(parts: &mut Vec<Part>, left: Box<Expr>, right: Box<Expr>)
    requires { vec_len parts.old + 2 ≤ vec_capacity parts.old }
    ensures below { (n : ℕ) → size-Expr left.value < n → size-Expr right.value < n → AllBelow n parts.old.items → AllBelow n parts.new.items }
    ensures weight { weigh parts.new.items ≡ weigh parts.old.items + (2 + expr_work left.value + expr_work right.value) }
    ensures length { vec_len parts.new ≡ vec_len parts.old + 2 }
    ensures capacity { vec_capacity parts.new ≡ vec_capacity parts.old }
{
    put(parts, Part::Expr(left));
    put(parts, Part::Expr(right));
}

impl Key {
    pub(in crate::tree) fn open(self, parts: &mut Vec<Part>)
        requires { vec_len parts.old + 1 ≤ vec_capacity parts.old }
        ensures below { (n : ℕ) → size-Key self ≤ n → AllBelow n parts.old.items → AllBelow n parts.new.items }
        ensures weight { weigh parts.new.items ≤ weigh parts.old.items + key_work self }
        ensures length { vec_len parts.new ≤ vec_len parts.old + 1 }
        ensures capacity { vec_capacity parts.new ≡ vec_capacity parts.old }
    {
        match self {
            Key::Dot(_) => {}
            Key::Index(e) => put(parts, Part::Expr(e)),
        }
    }
}

impl Property {
    pub(in crate::tree) fn open(self, parts: &mut Vec<Part>)
        requires { vec_len parts.old + 4 ≤ vec_capacity parts.old }
        ensures below { (n : ℕ) → size-Property self ≤ n → AllBelow n parts.old.items → AllBelow n parts.new.items }
        ensures weight { weigh parts.new.items ≤ weigh parts.old.items + property_work self }
        ensures length { vec_len parts.new ≤ vec_len parts.old + 4 }
        ensures capacity { vec_capacity parts.new ≡ vec_capacity parts.old }
    {
        let Property { key, value } = self;
        match key {
            PropKey::Fixed(_) => value.open(parts),
            PropKey::Computed(e) => {
                put(parts, Part::Expr(e));
                value.open(parts);
            }
        }
    }
}

impl Function {
    pub(in crate::tree) fn open(self, parts: &mut Vec<Part>)
        requires { vec_len parts.old + 1 ≤ vec_capacity parts.old }
        ensures below { (n : ℕ) → size-Function self ≤ n → AllBelow n parts.old.items → AllBelow n parts.new.items }
        ensures weight { weigh parts.new.items ≤ weigh parts.old.items + function_work self }
        ensures length { vec_len parts.new ≤ vec_len parts.old + 1 }
        ensures capacity { vec_capacity parts.new ≡ vec_capacity parts.old }
    {
        let Function {
            name: _,
            kind: _,
            params: _,
            body,
        } = self;
        put(parts, Part::Stmts(body));
    }
}

impl ForInit {
    pub(in crate::tree) fn open(self, parts: &mut Vec<Part>)
        requires { vec_len parts.old + 1 ≤ vec_capacity parts.old }
        ensures below { (n : ℕ) → size-ForInit self ≤ n → AllBelow n parts.old.items → AllBelow n parts.new.items }
        ensures weight { weigh parts.new.items ≤ weigh parts.old.items + init_work self }
        ensures length { vec_len parts.new ≤ vec_len parts.old + 1 }
        ensures capacity { vec_capacity parts.new ≡ vec_capacity parts.old }
    {
        match self {
            ForInit::Nothing => {}
            ForInit::Let(items) => put(parts, Part::Lets(items)),
            ForInit::Const(items) => put(parts, Part::Consts(items)),
            ForInit::Value(e) => put(parts, Part::Expr(e)),
        }
    }
}

pub(super) fn put_maybe_expr(e: Option<Box<Expr>>, parts: &mut Vec<Part>)
    requires { vec_len parts.old + 1 ≤ vec_capacity parts.old }
    ensures below { (n : ℕ) → IfSome e (λ x. size-Expr x.value < n) → AllBelow n parts.old.items → AllBelow n parts.new.items }
    ensures weight { weigh parts.new.items ≤ weigh parts.old.items + boxed_work (option_map (λ b. expr_work b.value) e) }
    ensures length { vec_len parts.new ≤ vec_len parts.old + 1 }
    ensures capacity { vec_capacity parts.new ≡ vec_capacity parts.old }
{
    match e {
        Some(e) => put(parts, Part::Expr(e)),
        None => {}
    }
}
