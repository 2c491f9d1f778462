//! What a name in a text stands for, and where else it stands for the same.
ghost use Rattle.std.specs.Bool.{Decides};
ghost use Rattle.std.specs.Prelude.{◌≡◌, ◌<◌, ◌+◌, ◌++◌, IfOk, MatchOption, OnOk, drop, length, slice_get};
ghost use Rattle.fmp_lex.specs.Reading.{kinds_of};
ghost use Rattle.fmp_server.specs.Roles as spec;
ghost use Rattle.fmp_server.specs.Roles.{AreBegunAt, AreInOrder, HasNoWordAt, IsBegunAt, IsLastWordAt};
ghost use Rattle.fmp_server.specs.Roles.{IsWordAt, named_positions, start_of, walked};

use fmp_base::Name;
use fmp_lex::{Api, Keyword, Symbol, TextFile, TokenKind, TokenPosition, Tokens};
use std::alloc::{AllocError, Global};

/// What a name stands for.
#[derive(Clone, Copy)]
pub enum Role {
    /// An object of the configuration.
    Object,
    /// A body of the task text.
    Body,
    /// A class of the configuration.
    Class,
    /// A variable of the body of this number, from 1 in order of text.
    Variable(u32),
}

/// What stands before a token.
#[derive(Clone, Copy)]
enum Before {
    /// A static API that makes an object.
    Maker,
    /// The parenthesis after that: the name of the object follows.
    Object,
    /// `CLASS`.
    Class,
    /// The parenthesis after that: the name of the class follows.
    ClassName,
    /// `task` or `handler`: the name of the body follows.
    Heading,
    /// `var`: the name of a variable follows.
    Variable,
    Other,
}

/// A walk over the tokens of a text that follows what one name stands for.
#[derive(Clone, Copy)]
pub struct RoleWalk {
    file: TextFile,
    name: Name,
    before: Before,
    /// Whether the name is a variable of the body that was begun last.
    is_variable: bool,
    /// How many bodies were begun.
    bodies: u32,
}

/// A name that stands for something, which text it was found in.
#[derive(Clone, Copy)]
pub struct Named {
    pub name: Name,
    pub role: Role,
    pub file: TextFile,
}

/// Where a name stands.
#[derive(Clone, Copy)]
pub struct NamePosition {
    pub position: TokenPosition,
    /// Whether what it stands for is made or declared here.
    pub declares: bool,
}

impl Role {
    /// Whether it is the same as another.
    fn is_same(self, other: Role) -> bool
        ensures { result ≡ spec.same_role self other }
    {
        match (self, other) {
            (Role::Object, Role::Object) => true,
            (Role::Body, Role::Body) => true,
            (Role::Class, Role::Class) => true,
            (Role::Variable(one), Role::Variable(two)) => one == two,
            _ => false,
        }
    }
}

/// Whether two texts of a system are one.
pub fn is_same_file(one: TextFile, other: TextFile) -> bool
    ensures { result ≡ spec.same_file one other }
{
    match (one, other) {
        (TextFile::Configuration, TextFile::Configuration) => true,
        (TextFile::Source, TextFile::Source) => true,
        _ => false,
    }
}

/// Whether a token is this name.
pub fn is_name(kind: TokenKind, name: Name) -> bool
    ensures { result ≡ spec.is_name kind name }
{
    match kind {
        TokenKind::Name(found) => found.as_bytes() == name.as_bytes(),
        _ => false,
    }
}

/// The name that each body has for its extended information.
pub fn is_exinf(name: Name) -> bool
    ensures { result ≡ spec.is_exinf name }
{
    name.as_bytes() == b"exinf".as_slice()
}

fn after_api(api: Api) -> Before
    ensures { result ≡ spec.after_api api }
{
    match api {
        Api::DefInh => Before::Other,
        _ => Before::Maker,
    }
}

fn after_keyword(keyword: Keyword) -> Before
    ensures { result ≡ spec.after_keyword keyword }
{
    match keyword {
        Keyword::Class => Before::Class,
        Keyword::Task | Keyword::Handler => Before::Heading,
        Keyword::Var => Before::Variable,
        _ => Before::Other,
    }
}

fn after_symbol(before: Before, symbol: Symbol) -> Before
    ensures { result ≡ spec.after_symbol before symbol }
{
    match (before, symbol) {
        (Before::Maker, Symbol::LeftParen) => Before::Object,
        (Before::Class, Symbol::LeftParen) => Before::ClassName,
        _ => Before::Other,
    }
}

/// What stands before the token after this one.
fn before_next(before: Before, kind: TokenKind) -> Before
    ensures { result ≡ spec.before_next before kind }
{
    match kind {
        TokenKind::Api(api) => after_api(api),
        TokenKind::Keyword(keyword) => after_keyword(keyword),
        TokenKind::Symbol(symbol) => after_symbol(before, symbol),
        _ => Before::Other,
    }
}

impl RoleWalk {
    /// The beginning of a text.
    pub fn new(file: TextFile, name: Name) -> RoleWalk
        ensures { result ≡ start_of file name }
    {
        RoleWalk {
            file,
            name,
            before: Before::Other,
            is_variable: false,
            bodies: 0,
        }
    }

    /// What the name stands for if it is the next token, and no word before it says more.
    fn other_role(&self) -> Role
        ensures { result ≡ spec.other_role self.now self.now.file }
    {
        match self.file {
            TextFile::Configuration => Role::Body,
            TextFile::Source if self.is_variable => Role::Variable(self.bodies),
            TextFile::Source => Role::Object,
        }
    }

    /// What the name stands for if it is the next token.
    pub fn role(&self) -> Role
        ensures { result ≡ spec.role_of self.now }
    {
        match self.before {
            Before::Object => Role::Object,
            Before::ClassName => Role::Class,
            Before::Heading => Role::Body,
            Before::Variable => Role::Variable(self.bodies),
            Before::Maker | Before::Class | Before::Other => self.other_role(),
        }
    }

    /// Whether the name, if it is the next token, makes or declares what it stands for.
    fn declares(&self) -> bool
        ensures { result ≡ spec.declares self.now.before }
    {
        matches!(
            self.before,
            Before::Object | Before::Heading | Before::Variable
        )
    }

    /// Takes the word with which a body begins.
    fn begin(&mut self)
        ensures { self.new ≡ spec.begun self.old }
    {
        self.before = Before::Heading;
        self.is_variable = is_exinf(self.name);
        self.bodies = self.bodies.saturating_add(1);
    }

    /// Takes another token.
    fn go_on(&mut self, kind: TokenKind)
        ensures { self.new ≡ spec.gone_on self.old kind }
    {
        let is_declared = match self.before {
            Before::Variable => is_name(kind, self.name),
            _ => false,
        };
        self.is_variable = self.is_variable || is_declared;
        self.before = before_next(self.before, kind);
    }

    /// Takes the next token.
    pub fn take(&mut self, kind: TokenKind)
        ensures { self.new ≡ walked self.old kind }
    {
        match before_next(self.before, kind) {
            Before::Heading => self.begin(),
            _ => self.go_on(kind),
        }
    }

    /// Whether the token is the name.
    pub fn is_at(&self, kind: TokenKind) -> bool
        ensures { result ≡ spec.is_name kind self.now.name }
    {
        is_name(kind, self.name)
    }

    /// Whether the token is the name, and stands for this.
    fn stands_for(&self, role: Role, kind: TokenKind) -> bool
        ensures { result ≡ spec.stands_for self.now role kind }
    {
        self.is_at(kind) && self.role().is_same(role)
    }
}

/// What the name at a place of the tokens stands for.
pub fn named_at(tokens: &Tokens<'_>, file: TextFile, at: usize) -> Option<Named>
    ensures { result ≡ spec.named_at file (kinds_of tokens.now) at }
{
    let TokenKind::Name(name) = tokens.kind(at)? else {
        return None;
    };
    let mut walk = RoleWalk::new(file, name);
    for before in 0..at {
        match tokens.kind(before) {
            Some(kind) => walk.take(kind),
            None => {}
        }
    }
    Some(Named {
        name,
        role: walk.role(),
        file,
    })
}

/// Whether what a name stands for may be named in a text: variables and classes are named in one text alone.
fn may_stand_in(named: Named, file: TextFile) -> bool
    ensures { result ≡ spec.may_stand_in named file }
{
    match named.role {
        Role::Object | Role::Body => true,
        Role::Class | Role::Variable(_) => is_same_file(named.file, file),
    }
}

/// Adds the position of the next token of a walk.
fn add_position(
    tokens: &Tokens<'_>,
    at: usize,
    walk: &RoleWalk,
    positions: &mut Vec<NamePosition>,
) -> Result<(), AllocError>
    ensures { OnOk result (positions.new.items
        ≡ positions.old.items ++ spec.positions_at walk.now (slice_get tokens.now at)) }
{
    if let Some(position) = tokens.position(at) {
        let declares = walk.declares();
        positions.push(NamePosition { position, declares })?;
    }
    Ok(())
}

/// Takes the next token: adds its position if the name stands for this there, and moves the walk after it.
#[tactic(auto, using(crate::proofs::Naming::kind_held, crate::proofs::Naming::passed, crate::proofs::Naming::named))]
fn take_token(
    tokens: &Tokens<'_>,
    at: usize,
    walk: &mut RoleWalk,
    role: Role,
    positions: &mut Vec<NamePosition>,
) -> Result<(), AllocError>
    requires { at < length tokens.now }
    ensures { OnOk result (positions.new.items ++ named_positions walk.new role (drop (at + 1) tokens.now)
        ≡ positions.old.items ++ named_positions walk.old role (drop at tokens.now)) }
{
    match tokens.kind(at) {
        Some(kind) => {
            if walk.stands_for(role, kind) {
                add_position(tokens, at, walk, positions)?;
            }
            walk.take(kind);
            Ok(())
        }
        None => Ok(()),
    }
}

/// The positions of a text at which a name stands for this, in order.
fn all_positions(
    alloc: Global,
    tokens: &Tokens<'_>,
    start: RoleWalk,
    role: Role,
) -> Result<Vec<NamePosition>, AllocError>
    ensures { IfOk result (λ v. v.items ≡ named_positions start role tokens.now) }
{
    let mut positions = Vec::new(alloc);
    let mut walk = start;
    for at in 0..tokens.len() {
        take_token(tokens, at, &mut walk, role, &mut positions)?;
    }
    Ok(positions)
}

/// The positions of a text at which a name stands for the same, in order. `AllocError` if memory runs out.
pub fn positions_in(
    alloc: Global,
    tokens: &Tokens<'_>,
    file: TextFile,
    named: Named,
) -> Result<Vec<NamePosition>, AllocError>
    ensures { IfOk result (λ v. v.items ≡ spec.uses named file tokens.now) }
{
    if !may_stand_in(named, file) {
        return Ok(Vec::new(alloc));
    }
    all_positions(alloc, tokens, RoleWalk::new(file, named.name), named.role)
}

/// Whether a token begins before a byte, or at it.
fn is_begun_at(tokens: &Tokens<'_>, at: usize, offset: usize) -> bool
    ensures { Decides result (IsBegunAt tokens.now offset at) }
{
    match tokens.position(at) {
        Some(position) => position.start as usize <= offset,
        None => false,
    }
}

/// How many tokens begin before a byte, or at it.
pub fn begun_at(tokens: &Tokens<'_>, offset: usize) -> usize
    requires { AreInOrder tokens.now }
    ensures { AreBegunAt tokens.now offset result }
{
    let mut low = 0;
    let mut high = tokens.len();
    'halves: while low < high {
        let middle = low + (high - low) / 2;
        if is_begun_at(tokens, middle, offset) {
            low = middle + 1;
        } else {
            high = middle;
        }
    }
    low
}

/// Whether a token is a word, and a byte is one of it or that after it.
fn is_word_at(tokens: &Tokens<'_>, at: usize, offset: usize) -> bool
    ensures { Decides result (IsWordAt tokens.now offset at) }
{
    if let Some(TokenKind::Symbol(_) | TokenKind::Bad(_)) = tokens.kind(at) {
        return false;
    }
    match tokens.position(at) {
        Some(position) => position.start as usize <= offset && offset <= position.end as usize,
        None => false,
    }
}

/// The place among the tokens of the word that has a byte, or ends before it.
pub fn word_at(tokens: &Tokens<'_>, offset: usize) -> Option<usize>
    requires { AreInOrder tokens.now }
    ensures { MatchOption result (HasNoWordAt tokens.now offset) (IsLastWordAt tokens.now offset) }
{
    let begun = begun_at(tokens, offset);
    let last = begun.checked_sub(1)?;
    if is_word_at(tokens, last, offset) {
        return Some(last);
    }
    let before = last.checked_sub(1)?;
    if is_word_at(tokens, before, offset) {
        Some(before)
    } else {
        None
    }
}
