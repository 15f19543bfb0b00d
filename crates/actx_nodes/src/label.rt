//! What a node is, apart from its parts.

ghost use Rattle.std.specs.Prelude.{◌≡◌};

use actx_data::Units;
use actx_grammar::name::Name;
use actx_grammar::operators::{BinaryOp, Form, FunctionKind, LogicOp, UnaryOp};
use std::marker::Model;

/// What a node is, apart from its parts, which are nodes of their own.
#[derive(Drop)]
pub enum Label {
    Expr(ExprLabel),
    Stmt(StmtLabel),
    /// A name that is bound, or the key after a dot.
    Name(Name),
    /// The fixed key of a property.
    Key(Units),
    /// An item of a `let`; its part is its value, where it has one.
    LetItem(Name),
    /// An item of a `const`; its part is its value.
    ConstItem(Name),
}

/// What an expression is (ECMA-262, 13). Its parts stand in text order: operands, keys and values, arguments.
#[derive(Drop)]
pub enum ExprLabel {
    Num(u64),
    Text(Units),
    Truth(bool),
    Null,
    Undefined,
    This,
    Named(Name),
    Unary(UnaryOp),
    Binary(BinaryOp),
    Logic(LogicOp),
    Choice,
    SetName(Name),
    /// Base, key and value.
    SetMember,
    Change(Name, BinaryOp),
    Bump { name: Name, up: bool, before: bool },
    /// Base and key.
    Member,
    /// The callee and the arguments.
    Call,
    /// Key and value of each property.
    Object,
    Function(FunctionLabel),
    Yield,
    YieldAll,
    Await,
    Form(Form),
}

/// What a function is; its parts are its own name, where it has one, its parameters and the statements of its body.
#[derive(Clone, Copy, Drop)]
pub struct FunctionLabel {
    pub kind: FunctionKind,
    pub named: bool,
    /// How many parameters it has.
    pub params: usize,
}

/// What a statement is (ECMA-262, 14). Its parts stand in text order.
#[derive(Drop)]
pub enum StmtLabel {
    Let,
    Const,
    Fun(FunctionLabel),
    Block,
    /// The test, a branch, and the other one where there is one.
    If,
    While,
    DoWhile,
    For(ForLabel),
    /// The name, the operand and the body; whether the name is a constant.
    ForOf(bool),
    ForAwait(bool),
    Break,
    Continue,
    Return,
    Throw,
    Try(TryLabel),
    Value,
    Empty,
    /// The value, and the statements of all clauses.
    Switch(Clauses),
}

/// What a `for` is: its parts are those of its beginning, its test and its update where it has them, and its body.
#[derive(Clone, Copy, Drop)]
pub struct ForLabel {
    pub init: InitLabel,
    pub test: bool,
    pub update: bool,
}

/// What a `for` begins with, and how many items a `let` or `const` has.
#[derive(Clone, Copy, Drop)]
pub enum InitLabel {
    Nothing,
    Let(usize),
    Const(usize),
    Value,
}

/// What a `try` is: its parts are the statements of its block, those of its `catch`, with the name before them, and those of
/// its `finally`.
#[derive(Clone, Copy, Drop)]
pub struct TryLabel {
    /// How many statements its block has.
    pub block: usize,
    pub catcher: Option<CatchLabel>,
    pub last: bool,
}

/// Whether a `catch` has a name, and how many statements.
#[derive(Clone, Copy, Drop)]
pub struct CatchLabel {
    pub named: bool,
    pub body: usize,
}

/// A clause of a `switch`: its number, or none of the `default`, and which parts of the `switch` are its statements.
#[derive(Clone, Copy, Drop)]
pub struct ClauseLabel {
    pub number: Option<u64>,
    pub start: usize,
    pub body: usize,
}

/// The clauses of a `switch`, seen as their list.
#[derive(Drop)]
pub struct Clauses {
    rows: Vec<ClauseLabel>,
}

impl Model for Clauses {
    ghost use Rattle.std.specs.Prelude.{List};
    ghost use Rattle.actx_nodes.specs.declared.label.ClauseLabel.{ClauseLabel as Row};

    ghost Value = { List Row };

    ghost view = { λ c. c.rows.items };
}

impl Clauses {
    /// The clauses of a list that is handed over.
    pub fn from_vec(rows: Vec<ClauseLabel>) -> Clauses
        ensures { result ≡ rows.items }
    {
        Clauses { rows }
    }

    /// All clauses, in order.
    pub fn as_slice(&self) -> &[ClauseLabel]
        ensures { result.now ≡ self.now }
    {
        self.rows.as_slice()
    }
}

/// A node's label, and how many parts the node has.
#[derive(Drop)]
pub struct Head {
    pub label: Label,
    pub parts: usize,
}
