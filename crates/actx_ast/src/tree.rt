//! Trees of programs.
//!
//! An expression or a statement that stands in another by itself is in a box: what is proved of a function that moves a value
//! grows with all that the value holds outside of boxes and lists.

mod drop;

use actx_data::Units;
use actx_grammar::name::Name;
use actx_grammar::operators::{BinaryOp, Form, FunctionKind, LogicOp, UnaryOp};
use drop::{Part, run};

/// An expression (ECMA-262, 13).
#[cycle(tree)]
pub enum Expr {
    Num(u64),
    Text(Units),
    Truth(bool),
    Null,
    Undefined,
    This,
    Named(Name),
    Unary(UnaryOp, Box<Expr>),
    Binary(BinaryOp, Box<Expr>, Box<Expr>),
    Logic(LogicOp, Box<Expr>, Box<Expr>),
    /// A test, and what is evaluated where it holds and where it doesn't.
    Choice(Box<Expr>, Box<Expr>, Box<Expr>),
    /// `a = e`
    SetName(Name, Box<Expr>),
    /// `a.b = e` and `a[b] = e`
    SetMember(Box<Expr>, Key, Box<Expr>),
    /// `a += e` and its like
    Change(Name, BinaryOp, Box<Expr>),
    /// `++a`, `a--` and their like
    Bump { name: Name, up: bool, before: bool },
    Member(Box<Expr>, Key),
    Call(Box<Expr>, Vec<Expr>),
    /// An object literal.
    Object(Vec<Property>),
    Function(Box<Function>),
    Yield(Option<Box<Expr>>),
    /// `yield*`
    YieldAll(Box<Expr>),
    Await(Box<Expr>),
    /// A built-in form with its parts.
    Form(Form, Vec<Expr>),
}

/// The key of a member: the name after a dot, or the expression in brackets.
#[cycle(tree)]
#[derive(Drop)]
pub enum Key {
    Dot(Name),
    Index(Box<Expr>),
}

/// The key of a property in an object literal.
#[cycle(tree)]
#[derive(Drop)]
pub enum PropKey {
    Fixed(Units),
    Computed(Box<Expr>),
}

/// A property of an object literal.
#[cycle(tree)]
#[derive(Drop)]
pub struct Property {
    pub key: PropKey,
    pub value: Expr,
}

/// A function (ECMA-262, 15): of a declaration, an expression, an arrow or a method.
#[cycle(tree)]
#[derive(Drop)]
pub struct Function {
    pub name: Option<Name>,
    pub kind: FunctionKind,
    pub params: Vec<Name>,
    pub body: Vec<Stmt>,
}

/// An item of a `let`.
#[cycle(tree)]
#[derive(Drop)]
pub struct LetItem {
    pub name: Name,
    pub value: Option<Box<Expr>>,
}

/// An item of a `const`.
#[cycle(tree)]
#[derive(Drop)]
pub struct ConstItem {
    pub name: Name,
    pub value: Expr,
}

/// What a `for` begins with.
#[cycle(tree)]
#[derive(Drop)]
pub enum ForInit {
    Nothing,
    Let(Vec<LetItem>),
    Const(Vec<ConstItem>),
    Value(Box<Expr>),
}

/// The `catch` part of a `try`, with the name of what was thrown or without.
#[cycle(tree)]
#[derive(Drop)]
pub struct Catcher {
    pub name: Option<Name>,
    pub body: Vec<Stmt>,
}

/// A clause of a `switch`: its number, or none of the `default`.
#[cycle(tree)]
#[derive(Drop)]
pub struct Clause {
    pub number: Option<u64>,
    pub body: Vec<Stmt>,
}

/// A statement (ECMA-262, 14).
#[cycle(tree)]
pub enum Stmt {
    Let(Vec<LetItem>),
    Const(Vec<ConstItem>),
    Fun(Function),
    Block(Vec<Stmt>),
    If(Box<Expr>, Box<Stmt>, Option<Box<Stmt>>),
    While(Box<Expr>, Box<Stmt>),
    DoWhile(Box<Stmt>, Box<Expr>),
    /// What it begins with, its test, its update and its body.
    For(ForInit, Option<Box<Expr>>, Option<Box<Expr>>, Box<Stmt>),
    ForOf {
        constant: bool,
        name: Name,
        over: Box<Expr>,
        body: Box<Stmt>,
    },
    ForAwait {
        constant: bool,
        name: Name,
        over: Box<Expr>,
        body: Box<Stmt>,
    },
    Break,
    Continue,
    Return(Option<Box<Expr>>),
    Throw(Box<Expr>),
    Try {
        block: Vec<Stmt>,
        catcher: Option<Catcher>,
        last: Option<Vec<Stmt>>,
    },
    Value(Box<Expr>),
    Empty,
    Switch(Box<Expr>, Vec<Clause>),
}

/// A program: its list of statements.
#[derive(Drop)]
pub struct Program {
    pub body: Vec<Stmt>,
}

/// What there is no memory to keep is dropped by recursion.
impl Drop for Expr {
    #[tactic(auto, using(crate::proofs::Deep::most_below, crate::proofs::Deep::some_expr))]
    #[cycle(tree)]
    fn drop(self) {
        let room = self.room();
        match room {
            Some(mut parts) => {
                self.open(&mut parts);
                while let Some(part) = run(&mut parts) {
                    match part {
                        Part::Expr(_) => {}
                        Part::Stmt(_) => {}
                        Part::Function(_) => {}
                        Part::Exprs(_) => {}
                        Part::Stmts(_) => {}
                        Part::Properties(_) => {}
                        Part::Lets(_) => {}
                        Part::Consts(_) => {}
                        Part::Clauses(_) => {}
                    }
                }
                parts.destroy_empty();
            }
            None => match self {
                Expr::Num(_) => {}
                Expr::Text(_) => {}
                Expr::Truth(_) => {}
                Expr::Null => {}
                Expr::Undefined => {}
                Expr::This => {}
                Expr::Named(_) => {}
                Expr::Unary(_, _) => {}
                Expr::Binary(_, _, _) => {}
                Expr::Logic(_, _, _) => {}
                Expr::Choice(_, _, _) => {}
                Expr::SetName(_, _) => {}
                Expr::SetMember(_, _, _) => {}
                Expr::Change(_, _, _) => {}
                Expr::Bump {
                    name: _,
                    up: _,
                    before: _,
                } => {}
                Expr::Member(_, _) => {}
                Expr::Call(_, _) => {}
                Expr::Object(_) => {}
                Expr::Function(_) => {}
                Expr::Yield(_) => {}
                Expr::YieldAll(_) => {}
                Expr::Await(_) => {}
                Expr::Form(_, _) => {}
            },
        }
    }
}

/// What there is no memory to keep is dropped by recursion.
impl Drop for Stmt {
    #[tactic(auto, using(crate::proofs::Deep::most_below, crate::proofs::Deep::some_stmt))]
    #[cycle(tree)]
    fn drop(self) {
        let room = self.room();
        match room {
            Some(mut parts) => {
                self.open(&mut parts);
                while let Some(part) = run(&mut parts) {
                    match part {
                        Part::Expr(_) => {}
                        Part::Stmt(_) => {}
                        Part::Function(_) => {}
                        Part::Exprs(_) => {}
                        Part::Stmts(_) => {}
                        Part::Properties(_) => {}
                        Part::Lets(_) => {}
                        Part::Consts(_) => {}
                        Part::Clauses(_) => {}
                    }
                }
                parts.destroy_empty();
            }
            None => match self {
                Stmt::Let(_) => {}
                Stmt::Const(_) => {}
                Stmt::Fun(_) => {}
                Stmt::Block(_) => {}
                Stmt::If(_, _, _) => {}
                Stmt::While(_, _) => {}
                Stmt::DoWhile(_, _) => {}
                Stmt::For(_, _, _, _) => {}
                Stmt::ForOf {
                    constant: _,
                    name: _,
                    over: _,
                    body: _,
                } => {}
                Stmt::ForAwait {
                    constant: _,
                    name: _,
                    over: _,
                    body: _,
                } => {}
                Stmt::Break => {}
                Stmt::Continue => {}
                Stmt::Return(_) => {}
                Stmt::Throw(_) => {}
                Stmt::Try {
                    block: _,
                    catcher: _,
                    last: _,
                } => {}
                Stmt::Value(_) => {}
                Stmt::Empty => {}
                Stmt::Switch(_, _) => {}
            },
        }
    }
}
