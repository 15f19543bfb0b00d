//! Tables of nodes: what each node of a small program is, and which nodes its parts are.

use actx_ast::tree::Program;
use actx_grammar::operators::FunctionKind;
use actx_grammar::side::Side;
use actx_lex::lex::lex;
use actx_nodes::label::{ExprLabel, InitLabel, Label, StmtLabel};
use actx_nodes::nodes::Nodes;
use actx_parse::parse::{parse_plain, parse_source};
use std::alloc::{AllocError, Global};
use std::process::Abort;
use std::test::Fail;

fn program_of(alloc: Global, side: Side, text: &str) -> Result<Program, Fail> {
    let tokens = lex(alloc, text.as_bytes(), side)?;
    match side {
        Side::Source => Ok(parse_source(alloc, &tokens)?.program),
        Side::Plain => Ok(parse_plain(alloc, &tokens)?.program),
    }
}

/// A word for what an expression is.
fn expr_word(label: &ExprLabel) -> &'static str {
    match label {
        ExprLabel::Num(_) => "number",
        ExprLabel::Text(_) => "text",
        ExprLabel::Truth(_) => "truth",
        ExprLabel::Null => "null",
        ExprLabel::Undefined => "undefined",
        ExprLabel::This => "this",
        ExprLabel::Named(_) => "name",
        ExprLabel::Unary(_) => "unary",
        ExprLabel::Binary(_) => "binary",
        ExprLabel::Logic(_) => "logic",
        ExprLabel::Choice => "choice",
        ExprLabel::SetName(_) => "set",
        ExprLabel::SetMember => "set member",
        ExprLabel::Change(_, _) => "change",
        ExprLabel::Bump { .. } => "bump",
        ExprLabel::Member => "member",
        ExprLabel::Call => "call",
        ExprLabel::Object => "object",
        ExprLabel::Function(_) => "function",
        ExprLabel::Yield => "yield",
        ExprLabel::YieldAll => "yield all",
        ExprLabel::Await => "await",
        ExprLabel::Form(_) => "form",
    }
}

/// A word for what a statement is.
fn stmt_word(label: &StmtLabel) -> &'static str {
    match label {
        StmtLabel::Let => "let",
        StmtLabel::Const => "const",
        StmtLabel::Fun(_) => "declaration",
        StmtLabel::Block => "block",
        StmtLabel::If => "if",
        StmtLabel::While => "while",
        StmtLabel::DoWhile => "do",
        StmtLabel::For(_) => "for",
        StmtLabel::ForOf(_) => "for of",
        StmtLabel::ForAwait(_) => "for await",
        StmtLabel::Break => "break",
        StmtLabel::Continue => "continue",
        StmtLabel::Return => "return",
        StmtLabel::Throw => "throw",
        StmtLabel::Try(_) => "try",
        StmtLabel::Value => "value",
        StmtLabel::Empty => "empty",
        StmtLabel::Switch(_) => "switch",
    }
}

fn word(label: &Label) -> &'static str {
    match label {
        Label::Expr(label) => expr_word(label),
        Label::Stmt(label) => stmt_word(label),
        Label::Name(_) => "binding",
        Label::Key(_) => "key",
        Label::LetItem(_) => "let item",
        Label::ConstItem(_) => "const item",
    }
}

/// Each node is this, and has these parts and no more.
fn compare(
    rt: &impl Abort,
    alloc: Global,
    side: Side,
    text: &str,
    roots: &[u64],
    rows: &[(&str, &[u64])],
) -> Result<(), Fail> {
    let nodes = Nodes::new(alloc, program_of(alloc, side, text)?)?;
    assert_eq!(rt; nodes.roots(), roots.len() as u64, "in {text}");
    for (at, root) in roots.iter().enumerate() {
        assert_eq!(rt; nodes.root(at as u64), *root, "in {text}");
    }
    for (n, (wanted, parts)) in rows.iter().enumerate() {
        let n = n as u64;
        assert_eq!(rt; word(nodes.label(n)), *wanted, "node {n} of {text}");
        assert_eq!(rt; nodes.count(n), parts.len() as u64, "node {n} of {text}");
        for (at, part) in parts.iter().enumerate() {
            assert_eq!(rt; nodes.part(n, at as u64), *part, "node {n} of {text}");
        }
        assert_eq!(rt;
            nodes.part(n, parts.len() as u64),
            u64::MAX,
            "node {n} of {text}"
        );
    }
    assert_eq!(rt;
        word(nodes.label(rows.len() as u64)),
        "undefined",
        "behind {text}"
    );
    assert_eq!(rt; nodes.root(roots.len() as u64), u64::MAX, "behind {text}");
    Ok(())
}

#[test]
fn nodes_are_numbered_as_they_stand_in_the_text(rt: HostRuntime) -> Result<(), Fail> {
    let source: &[(&str, &[u64], &[(&str, &[u64])])] = &[
        ("", &[], &[]),
        (
            "let a = 1, b; a = b;",
            &[0, 4],
            &[
                ("let", &[1, 3]),
                ("let item", &[2]),
                ("number", &[]),
                ("let item", &[]),
                ("value", &[5]),
                ("set", &[6]),
                ("name", &[]),
            ],
        ),
        (
            "if (a) { } else b.c[d] = f(1, this);",
            &[0],
            &[
                ("if", &[1, 2, 3]),
                ("name", &[]),
                ("block", &[]),
                ("value", &[4]),
                ("set member", &[5, 8, 9]),
                ("member", &[6, 7]),
                ("name", &[]),
                ("binding", &[]),
                ("name", &[]),
                ("call", &[10, 11, 12]),
                ("name", &[]),
                ("number", &[]),
                ("this", &[]),
            ],
        ),
        (
            "function* f(x, y) { yield { k: x, [y]: null }; return; }",
            &[0],
            &[
                ("declaration", &[1, 2, 3, 4, 11]),
                ("binding", &[]),
                ("binding", &[]),
                ("binding", &[]),
                ("value", &[5]),
                ("yield", &[6]),
                ("object", &[7, 8, 9, 10]),
                ("key", &[]),
                ("name", &[]),
                ("name", &[]),
                ("null", &[]),
                ("return", &[]),
            ],
        ),
        (
            "for (const a of b) for (let i = 0; ; i++) ;",
            &[0],
            &[
                ("for of", &[1, 2, 3]),
                ("binding", &[]),
                ("name", &[]),
                ("for", &[4, 6, 7]),
                ("let item", &[5]),
                ("number", &[]),
                ("bump", &[]),
                ("empty", &[]),
            ],
        ),
        (
            "try { a; b; } catch (e) { throw e; } finally { ; }",
            &[0],
            &[
                ("try", &[1, 3, 5, 6, 8]),
                ("value", &[2]),
                ("name", &[]),
                ("value", &[4]),
                ("name", &[]),
                ("binding", &[]),
                ("throw", &[7]),
                ("name", &[]),
                ("empty", &[]),
            ],
        ),
    ];
    for (text, roots, rows) in source {
        compare(&rt, rt.alloc(), Side::Source, text, roots, rows)?;
    }
    Ok(())
}

/// The clauses of a `switch`: the number, and the first and the count of its statements.
fn clauses_of(
    alloc: Global,
    label: &Label,
) -> Result<Vec<(Option<u64>, usize, usize)>, AllocError> {
    let mut rows = Vec::new(alloc);
    if let Label::Stmt(StmtLabel::Switch(clauses)) = label {
        for row in clauses.as_slice() {
            rows.push((row.number, row.start, row.body))?;
        }
    }
    Ok(rows)
}

#[test]
fn clauses_know_their_statements(rt: HostRuntime) -> Result<(), Fail> {
    let alloc = rt.alloc();
    let text = "switch (a) { case 1: ; ; case 2: default: ; }";
    let rows: &[(&str, &[u64])] = &[
        ("switch", &[1, 2, 3, 4]),
        ("name", &[]),
        ("empty", &[]),
        ("empty", &[]),
        ("empty", &[]),
    ];
    compare(&rt, alloc, Side::Plain, text, &[0], rows)?;
    let nodes = Nodes::new(alloc, program_of(alloc, Side::Plain, text)?)?;
    let clauses = clauses_of(alloc, nodes.label(0))?;
    let wanted = [(Some(1), 1, 2), (Some(2), 3, 0), (None, 3, 1)];
    assert_eq!(rt; clauses.as_slice(), wanted.as_slice());
    Ok(())
}

/// A `for` of a `const` with one item, with a test and no update.
fn is_short_for(label: &Label) -> bool {
    match label {
        Label::Stmt(StmtLabel::For(label)) => {
            matches!(label.init, InitLabel::Const(1)) && label.test && !label.update
        }
        _ => false,
    }
}

/// A `try` without statements, with a `catch` without a name.
fn is_bare_try(label: &Label) -> bool {
    match label {
        Label::Stmt(StmtLabel::Try(label)) => match label.catcher {
            Some(catcher) => {
                label.block == 0 && !catcher.named && catcher.body == 0 && !label.last
            }
            None => false,
        },
        _ => false,
    }
}

/// An arrow of two parameters.
fn is_arrow(label: &Label) -> bool {
    match label {
        Label::Expr(ExprLabel::Function(label)) => {
            label.kind == FunctionKind::Arrow && !label.named && label.params == 2
        }
        _ => false,
    }
}

#[test]
fn labels_tell_what_has_parts(rt: HostRuntime) -> Result<(), Fail> {
    let alloc = rt.alloc();
    let text = "for (const a = 1; a; ) { } try { } catch { } ((x, y) => 1);";
    let nodes = Nodes::new(alloc, program_of(alloc, Side::Source, text)?)?;
    assert!(rt; is_short_for(nodes.label(nodes.root(0))));
    assert!(rt; is_bare_try(nodes.label(nodes.root(1))));
    assert!(rt; is_arrow(nodes.label(nodes.part(nodes.root(2), 0))));
    Ok(())
}
