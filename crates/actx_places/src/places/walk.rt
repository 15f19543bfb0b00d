//! A walk along tokens that notes where nodes begin: how far it is, and which parentheses are open.

ghost use Rattle.std.specs.Prelude.{◌≡◌, OnOk, length, []};
ghost use Rattle.actx_lex.specs.Lexemes.{lexemes};
ghost use Rattle.actx_places.specs.Walk as spec;

use super::groups::{Group, Groups};
use actx_data::NoMemory;
use actx_grammar::name::Name;
use actx_grammar::operators::FunctionKind;
use actx_grammar::token::{Keyword, Sign, TokenKind};
use actx_lex::token::Token;
use std::alloc::Global;
use std::marker::Model;

/// How far a walk is.
#[derive(Drop)]
pub struct Walk<'a> {
    /// The number of the next token.
    at: usize,
    rest: &'a [Token],
    /// The places so far.
    places: Vec<usize>,
    groups: Groups,
}

impl<'a> Model for Walk<'a> {
    ghost use Rattle.std.specs.Prelude.{◌+◌, ◌<◌, ◌^◌, [], length};
    ghost use Rattle.actx_lex.specs.Lexemes.{lexemes};
    ghost use Rattle.actx_places.specs.Walk as spec;
    ghost use Rattle.actx_places.specs.WalkView.{groups_of};

    ghost Value = { spec.Walk };

    ghost view = { λ w. spec.walk w.at (lexemes w.rest.now) w.places.items (groups_of w.groups) };

    ghost invariant = { λ w. w.at + length w.rest.now < 2 ^ 64 };
}

/// Whether a token is one of the signs that a walk looks for.
fn is_sign(sign: Sign, kind: &TokenKind) -> bool
    ensures { result ≡ spec.is_sign sign kind.now }
{
    match (sign, kind) {
        (Sign::OpenParen, TokenKind::Sign(Sign::OpenParen)) => true,
        (Sign::CloseParen, TokenKind::Sign(Sign::CloseParen)) => true,
        (Sign::OpenBrace, TokenKind::Sign(Sign::OpenBrace)) => true,
        (Sign::Comma, TokenKind::Sign(Sign::Comma)) => true,
        (Sign::Colon, TokenKind::Sign(Sign::Colon)) => true,
        (Sign::Star, TokenKind::Sign(Sign::Star)) => true,
        _ => false,
    }
}

/// Whether the tokens begin with a sign.
pub fn starts_with(sign: Sign, tokens: &[Token]) -> bool
    ensures { result ≡ spec.starts_with sign (lexemes tokens.now) }
{
    match tokens {
        [] => false,
        [first, ..] => is_sign(sign, &first.kind),
    }
}

/// Whether parameters begin so, behind their parenthesis.
fn begins_params(tokens: &[Token]) -> bool
    ensures { result ≡ spec.begins_params (lexemes tokens.now) }
{
    match tokens {
        [] => false,
        [first, rest @ ..] => {
            is_sign(Sign::CloseParen, &first.kind)
                || (is_name(&first.kind)
                    && (starts_with(Sign::Comma, rest) || starts_with(Sign::CloseParen, rest)))
        }
    }
}

fn is_name(kind: &TokenKind) -> bool
    ensures { result ≡ spec.is_name kind.now }
{
    matches!(kind, TokenKind::Name(_))
}

fn is_async(kind: &TokenKind) -> bool
    ensures { result ≡ spec.is_async kind.now }
{
    matches!(kind, TokenKind::Keyword(Keyword::Async))
}

/// Whether a parenthesis round an arrow function begins here, and not that of its parameters.
fn opens_round(tokens: &[Token]) -> bool
    ensures { result ≡ spec.opens_round (lexemes tokens.now) }
{
    match tokens {
        [] => false,
        [first, rest @ ..] => is_sign(Sign::OpenParen, &first.kind) && !begins_params(rest),
    }
}

impl<'a> Walk<'a> {
    /// Before the first of some tokens.
    pub fn new(alloc: Global, tokens: &'a [Token]) -> Walk<'a>
        ensures { result ≡ spec.walk 0 (lexemes tokens.now) [] [] }
    {
        let _bound = tokens.len();
        Walk {
            at: 0,
            rest: tokens,
            places: Vec::new(alloc),
            groups: Groups::new(alloc),
        }
    }

    /// The number of the next token.
    pub fn at(&self) -> usize
        ensures { result ≡ spec.at self.now }
    {
        self.at
    }

    /// How many places are noted.
    pub fn count(&self) -> usize
        ensures { result ≡ length (spec.places self.now) }
    {
        self.places.len()
    }

    /// All places.
    pub fn into_places(self) -> Vec<usize>
        ensures { result.items ≡ spec.places self.entry }
    {
        self.places
    }

    /// Whether the next token is a sign.
    pub fn is_at(&self, sign: Sign) -> bool
        ensures { result ≡ spec.starts_with sign (spec.rest self.now) }
    {
        starts_with(sign, self.rest)
    }

    /// Whether the next token is the word `async`, and no key.
    pub fn is_at_async(&self) -> bool
        ensures { result ≡ spec.begins_async (spec.rest self.now) }
    {
        match self.rest {
            [] => false,
            [first, rest @ ..] => is_async(&first.kind) && !starts_with(Sign::Colon, rest),
        }
    }

    /// Behind the next token, where there is one.
    pub fn step(&mut self)
        ensures { self.new ≡ spec.step self.old }
    {
        match self.rest {
            [] => {}
            [_, rest @ ..] => {
                self.at += 1;
                self.rest = rest;
            }
        }
    }

    /// Behind so many tokens.
    pub fn pass(&mut self, count: usize)
        ensures { self.new ≡ spec.pass count self.old }
    {
        let mut left = count;
        while left > 0 {
            self.step();
            left -= 1;
        }
    }

    /// Behind a comma, where there is one.
    pub fn comma(&mut self)
        ensures { self.new ≡ spec.comma self.old }
    {
        if self.is_at(Sign::Comma) {
            self.step();
        }
    }

    /// A node begins at a token.
    pub fn mark_at(&mut self, at: usize) -> Result<(), NoMemory>
        ensures { OnOk result (self.new ≡ spec.mark_at at self.old) }
    {
        self.places.push(at)?;
        Ok(())
    }

    /// A node begins here.
    pub fn mark(&mut self) -> Result<(), NoMemory>
        ensures { OnOk result (self.new ≡ spec.mark self.old) }
    {
        self.mark_at(self.at)
    }

    /// A node begins somewhere among the parentheses here.
    pub fn later(&mut self) -> Result<(), NoMemory>
        ensures { OnOk result (self.new ≡ spec.later self.old) }
    {
        self.mark_at(0)
    }

    /// The node with a number begins behind the parentheses that are still open.
    #[tactic(auto, using(crate::proofs::WalkGroups::beyond))]
    pub fn settle(&mut self, node: usize) -> Result<(), NoMemory>
        ensures { OnOk result (self.new ≡ spec.settle node self.old) }
    {
        if let Some(group) = self.groups.pop() {
            if node < self.places.len() {
                self.places[node] = group.inner;
            }
            self.groups.push(group)?;
        }
        Ok(())
    }

    /// An expression begins.
    pub fn begin(&mut self) -> Result<(), NoMemory>
        ensures { OnOk result (self.new ≡ spec.begin self.old) }
    {
        self.groups.push(Group {
            start: self.at,
            inner: self.at,
        })
    }

    /// The innermost expression has ended.
    pub fn leave(&mut self)
        ensures { self.new ≡ spec.leave self.old }
    {
        self.groups.pop();
    }

    /// Behind a parenthesis that begins here.
    fn open_more(&mut self) -> Result<(), NoMemory>
        ensures { OnOk result (self.new ≡ spec.open_more self.old) }
    {
        if self.rest.is_empty() {
            return Ok(());
        }
        self.step();
        if let Some(group) = self.groups.pop() {
            self.groups.push(Group {
                start: group.start,
                inner: self.at,
            })?;
        }
        Ok(())
    }

    /// Behind all parentheses that begin here.
    fn open_all(&mut self) -> Result<(), NoMemory>
        ensures { OnOk result (self.new ≡ spec.open_all (spec.rest self.old) self.old) }
    {
        while self.is_at(Sign::OpenParen) {
            self.open_more()?;
        }
        Ok(())
    }

    /// An expression that begins with no other begins behind all parentheses.
    pub fn own(&mut self) -> Result<(), NoMemory>
        ensures { OnOk result (self.new ≡ spec.own self.old) }
    {
        self.open_all()?;
        self.mark()
    }

    /// Behind the parentheses that end here.
    #[tactic(auto, using(crate::proofs::WalkGroups::close_on, crate::proofs::WalkGroups::close_all, crate::proofs::WalkGroups::close_off))]
    pub fn close(&mut self) -> Result<(), NoMemory>
        ensures { OnOk result (self.new ≡ spec.close self.old) }
    {
        if let Some(group) = self.groups.pop() {
            let start = group.start;
            let mut inner = group.inner;
            while start < inner && self.is_at(Sign::CloseParen) {
                self.step();
                inner -= 1;
            }
            self.groups.push(Group { start, inner })?;
        }
        Ok(())
    }

    /// Behind all parentheses before an arrow's own.
    fn open_arrow(&mut self) -> Result<(), NoMemory>
        ensures { OnOk result (self.new ≡ spec.open_arrow (spec.rest self.old) self.old) }
    {
        while opens_round(self.rest) {
            self.open_more()?;
        }
        Ok(())
    }

    /// An arrow function begins behind the parentheses round it.
    pub fn own_arrow(&mut self, kind: FunctionKind) -> Result<(), NoMemory>
        ensures { OnOk result (self.new ≡ spec.own_arrow kind self.old) }
    {
        if kind == FunctionKind::Arrow {
            self.open_arrow()?;
            self.mark()
        } else {
            self.own()
        }
    }

    /// Behind names, each with a comma before it.
    fn more_names(&mut self, names: &[Name]) -> Result<(), NoMemory>
        ensures { OnOk result (self.new ≡ spec.more_names names.now self.old) }
    {
        for _name in names {
            self.step();
            self.mark()?;
            self.step();
        }
        Ok(())
    }

    /// Behind names with a comma between two.
    fn names(&mut self, names: &[Name]) -> Result<(), NoMemory>
        ensures { OnOk result (self.new ≡ spec.names names.now self.old) }
    {
        match names {
            [] => Ok(()),
            [_, rest @ ..] => {
                self.mark()?;
                self.step();
                self.more_names(rest)
            }
        }
    }

    /// Behind parameters in parentheses.
    pub fn params(&mut self, names: &[Name]) -> Result<(), NoMemory>
        ensures { OnOk result (self.new ≡ spec.params names.now self.old) }
    {
        self.step();
        self.names(names)?;
        self.comma();
        self.step();
        Ok(())
    }

    /// Behind the parameters of an arrow: in parentheses, or one name.
    pub fn arrow_params(&mut self, names: &[Name]) -> Result<(), NoMemory>
        ensures { OnOk result (self.new ≡ spec.arrow_params names.now self.old) }
    {
        if self.is_at(Sign::OpenParen) {
            self.params(names)
        } else {
            self.names(names)
        }
    }

    /// Behind a function's own name, where it has one.
    pub fn own_name(&mut self, name: &Option<Name>) -> Result<(), NoMemory>
        ensures { OnOk result (self.new ≡ spec.own_name name.now self.old) }
    {
        if name.is_some() {
            self.mark()?;
            self.step();
        }
        Ok(())
    }
}
