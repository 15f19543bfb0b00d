//! What the parser holds between two tokens, as a `const` whose items are read so far.

use actx_ast::tree::{
    Catcher, Clause, ConstItem, Expr, ForInit, Key, LetItem, PropKey, Property, Stmt,
};
use actx_grammar::name::Name;
use actx_grammar::operators::{BinaryOp, Form, FunctionKind, LogicOp, UnaryOp};
use actx_grammar::token::TokenKind;

/// An expression, and the depth of its deepest part in the whole text.
#[derive(Drop)]
pub struct Operand {
    pub expr: Box<Expr>,
    pub reach: usize,
}

/// What a function that is read is.
#[derive(Drop)]
pub enum Role {
    Expression,
    Declaration,
    /// The method of a key behind some properties.
    Method(Vec<Property>, PropKey, usize),
}

/// What stands before the parameters of a function; an arrow has neither name nor role.
#[derive(Drop)]
pub enum Head {
    Arrow(FunctionKind),
    Function(Role, FunctionKind, Option<Name>),
}

/// Whose items a `let` or `const` has.
#[derive(Clone, Copy, Drop)]
pub enum ItemsOf {
    Statement,
    For,
}

/// Whose list of statements is open.
#[derive(Drop)]
pub enum ListOwner {
    Program,
    Body(Head, Vec<Name>),
    Block,
    /// The block of a `try`.
    Tried,
    /// The `catch` part behind a block.
    Caught(Vec<Stmt>, Option<Name>),
    /// The `finally` part behind a block and its `catch` part.
    Finally(Vec<Stmt>, Option<Catcher>),
    /// A clause of a `switch`, behind others.
    Clause(Box<Expr>, Vec<Clause>, Option<u64>),
}

/// What is open; the numbers are the reach of all that is held.
#[derive(Drop)]
pub enum Frame {
    Unary(UnaryOp),
    Await,
    /// An operator behind its left operand.
    Binary(BinaryOp, Operand),
    Logic(LogicOp, Operand),
    /// A test, behind which `?` stands.
    Choice(Operand),
    /// A test and what stands before `:`.
    Other(Box<Expr>, Operand),
    Paren,
    /// What is called, and the arguments so far.
    Call(Box<Expr>, Vec<Expr>, usize),
    Form(Form, Vec<Expr>, usize),
    /// What is set to the value that follows.
    SetName(Name),
    Set(Box<Expr>, Key, usize),
    Change(Name, BinaryOp),
    /// What a key in brackets is read of.
    Index(Operand),
    /// A key in brackets, of a property or a method behind some properties.
    Computed(Vec<Property>, Option<FunctionKind>, usize),
    /// A key behind some properties, whose value follows.
    Property(Vec<Property>, PropKey, usize),
    /// The parameters of an arrow whose body is an expression.
    Arrow(FunctionKind, Vec<Name>),
    Yield,
    YieldAll,
    /// An expression statement.
    Value,
    /// The name of an item behind others.
    Let(ItemsOf, Vec<LetItem>, Name, usize),
    Const(ItemsOf, Vec<ConstItem>, Name, usize),
    Return,
    Throw,
    If,
    While,
    /// The test of a `do` with this body.
    DoTest(Box<Stmt>, usize),
    ForInit,
    ForTest(ForInit, usize),
    ForUpdate(ForInit, Option<Box<Expr>>, usize),
    /// What a `for` goes over: whether its name is constant, and that name.
    ForOver(bool, Name),
    Switch,
    /// The statement behind the test of an `if`.
    YesOf(Operand),
    /// The statement behind `else`.
    NoOf(Box<Expr>, Box<Stmt>, usize),
    WhileOf(Operand),
    DoOf,
    ForBody(ForInit, Option<Box<Expr>>, Option<Box<Expr>>, usize),
    ForOfBody(bool, Name, Operand),
    /// The statements of a list so far.
    List(ListOwner, Vec<Stmt>, usize),
}

/// What is wanted next.
#[derive(Drop)]
pub enum Mode {
    /// A statement, or the end of the list.
    Start,
    /// A statement that is no declaration.
    BodyStart,
    /// What may stand behind a statement.
    HaveStmt(Box<Stmt>, usize),
    /// An operand.
    Need,
    /// Something behind an operand.
    Have(Operand),
    /// Something behind a member, which might be set.
    HaveMember(Box<Expr>, Key, usize),
    /// Something behind a name, which might be a parameter.
    HaveName(Name),
    /// Something behind `++` and `--` with their name.
    HaveBump(Box<Expr>),
    /// Something behind an expression that no operator goes on.
    Whole(Operand),
    /// Something behind a parenthesis where an operand begins.
    Opened,
    /// Something behind a name behind that parenthesis.
    FirstName(Name),
    /// Something behind a name in parentheses.
    ClosedName(Name),
    /// The name behind `++` or `--`.
    BumpName(bool),
    YieldNext,
    /// Something behind `async`, in an expression or where a statement begins.
    AsyncNext,
    AsyncStart,
    /// Something behind `function`, and a function's name.
    FunctionNext(Role),
    NameNext(Role, FunctionKind),
    ParamsOpen(Head),
    /// A parameter, or the end of the list.
    ParamNext(Head, Vec<Name>),
    ParamBehind(Head, Vec<Name>),
    /// The sign `=>` behind parameters.
    ArrowSign(FunctionKind, Vec<Name>),
    ArrowBody(FunctionKind, Vec<Name>),
    BodyOpen(Head, Vec<Name>),
    /// A key, or the end of a literal.
    KeyNext(Vec<Property>, usize),
    KeyBehind(Vec<Property>, PropKey, usize),
    /// Something behind a name, which might be the whole property.
    KeyName(Vec<Property>, Name, usize),
    /// Something behind `async`, which might be a key.
    KeyAsync(Vec<Property>, usize),
    /// Something behind a method.
    KeyEnd(Vec<Property>, usize),
    MethodKey(Vec<Property>, FunctionKind, usize),
    MethodOpen(Vec<Property>, FunctionKind, PropKey, usize),
    /// The word behind a dot.
    MemberName(Operand),
    /// The parenthesis behind `.call`.
    CallOpen(Operand),
    /// Something behind some words of a form.
    WordsNext(Vec<TokenKind>),
    LetName(ItemsOf, Vec<LetItem>, usize),
    LetBehind(ItemsOf, Vec<LetItem>, Name, usize),
    ConstName(ItemsOf, Vec<ConstItem>, usize),
    ConstBehind(ItemsOf, Vec<ConstItem>, Name, usize),
    /// The semicolon behind `break` and its like.
    JumpEnd(Box<Stmt>),
    ReturnNext,
    ThrowNext,
    IfOpen,
    WhileOpen,
    /// `while` behind the body of a `do`.
    DoWhile(Box<Stmt>, usize),
    DoEnd(Box<Stmt>, Box<Expr>, usize),
    ForOpen,
    ForNext,
    ForTest(ForInit, usize),
    ForUpdate(ForInit, Option<Box<Expr>>, usize),
    TryOpen,
    CatchNext(Vec<Stmt>, usize),
    CatchOpen(Vec<Stmt>, usize),
    CatchName(Vec<Stmt>, usize),
    CatchClose(Vec<Stmt>, Name, usize),
    CatchBlock(Vec<Stmt>, Name, usize),
    FinallyNext(Vec<Stmt>, Option<Catcher>, usize),
    FinallyOpen(Vec<Stmt>, Option<Catcher>, usize),
    SwitchOpen,
    SwitchBrace(Operand),
    ClauseNext(Box<Expr>, Vec<Clause>, usize),
    CaseNumber(Box<Expr>, Vec<Clause>, usize),
    CaseColon(Box<Expr>, Vec<Clause>, Option<u64>, usize),
}

/// What a token leads to.
#[derive(Drop)]
pub enum Step {
    Go(Mode),
    Refused,
}
