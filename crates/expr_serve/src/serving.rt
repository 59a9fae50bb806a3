// Serving an expression: its names and tags are asked for, and then its text is made.

ghost use Rattle.std.specs.Prelude.{◌≡◌, ◌≤◌, ◌++◌, ◌∷◌, [], ℕ, length, List, map, take, option_map, IfOk, OnOk, OnErr, Ok, Err};
ghost use Rattle.std.specs.List.{list_any};
ghost use Rattle.std.specs.Result.{IfErr};
ghost use Rattle.c_lex.specs.declared.token.Token.{Token as Piece};
ghost use Rattle.c_lex.specs.Grammar.{HasTokens};
ghost use Rattle.c_symbol.specs.Terminals.{terminals};
ghost use Rattle.c_expr.specs.Grammar.{Spells};
ghost use Rattle.c_tree.specs.Types.{type_of};
ghost use Rattle.c_typing.specs.Plain.{plain};
ghost use Rattle.expr_serve.specs.declared.fault.Refuse.TheVariants.{Syntax as NoExpression};
ghost use Rattle.expr_serve.specs.Texts.{AreExpression};
ghost use Rattle.expr_serve.specs.Codes.{text_of as text_in};
ghost use Rattle.expr_serve.specs.Serving.{IsByGrammar, IsParsed, IsChecked, refusal_of, IsTold, IsTurn, is_tagged, is_named, is_known as known, asked as asks, AreMentions, IsUnread, IsBegun, member_as, struct_as, IsLonger, Stays, TakesName, TakesTag, given_type as type_given};

use crate::coder::text_of;
use crate::fault::Refuse;
use c_expr::{SynFault, parse_expr};
use c_judge::{ExprFault, Mode, Symbol, check_expr, copied, head_of, value_type};
use c_lex::{LexFault, Token, tokens};
use c_names::{Mention, mentions};
use c_tree::{CType, Member, StructDef, Typed};
use c_trees::expression::Expr;
use ldb_words::{Many, Text};
use std::alloc::{AllocError, Global};

/// The most bytes of a text.
const MOST_BYTES: usize = 1_000;

/// The most names or structs of an expression.
const MOST_ROWS: usize = 4_294_967_295;

/// An expression whose names and tags are asked for.
#[derive(Drop)]
pub struct Server {
    alloc: Global,
    text: Text,
    mode: Mode,
    mentions: Vec<Mention>,
    symbols: Vec<Symbol>,
    defs: Vec<StructDef>,
    /// Whether a name was answered to be none.
    is_unknown: bool,
}

/// What a server does next.
pub enum Turn {
    /// It asks for a name.
    Ask { name: Text, server: Server },
    /// It asks for a struct's tag.
    AskTag { tag: Text, server: Server },
    /// The text of PostScript, without LF, and the type of the value, or of what is assigned to.
    Done { postscript: Text, ctype: CType },
}

/// The tokens of a text of at most 1,000 bytes.
#[tactic(auto, using(crate::proofs::Texts::none_with_fault, crate::proofs::Texts::none_too_many))]
fn tokens_of(alloc: Global, text: &[u8]) -> Result<Vec<Token>, Refuse>
    ensures tokens { IfOk result (λ found. HasTokens text.now found.items) }
    ensures none { result ≡ Err NoExpression → length text.now ≤ 1000 → (ts : List Piece) → HasTokens text.now ts → ⊥ }
    ensures reasons { IsByGrammar result }
{
    if text.len() > MOST_BYTES {
        return Err(Refuse::Syntax);
    }
    match tokens(alloc, text) {
        Ok(found) => Ok(found),
        Err(LexFault::NoMemory) => Err(Refuse::NoMemory),
        Err(LexFault::Bad { .. }) => Err(Refuse::Syntax),
        Err(LexFault::TooMany) => Err(Refuse::Syntax),
    }
}

/// The tree of a text with these tokens.
fn tree_of(alloc: Global, text: &[u8], tokens: &[Token]) -> Result<Expr, Refuse>
    ensures read { IfOk result (λ e. (h : ℕ) × (h ≤ 64) × Spells (terminals text.now tokens.now) e h) }
    ensures tree { OnOk result (AreExpression (terminals text.now tokens.now)) }
    ensures none { result ≡ Err NoExpression → AreExpression (terminals text.now tokens.now) → ⊥ }
    ensures reasons { IsByGrammar result }
{
    match parse_expr(alloc, text, tokens) {
        Ok(expr) => Ok(expr),
        Err(SynFault::NoMemory) => Err(Refuse::NoMemory),
        Err(SynFault::Syntax(_)) => Err(Refuse::Syntax),
        Err(SynFault::Deep(_)) => Err(Refuse::Syntax),
    }
}

/// The tree of a text.
fn parsed(alloc: Global, text: &[u8]) -> Result<Expr, Refuse>
    ensures { IsParsed text.now result }
{
    match tokens_of(alloc, text) {
        Err(refused) => Err(refused),
        Ok(found) => tree_of(alloc, text, found.as_slice()),
    }
}

/// The names and tags that a text mentions.
fn mentions_of(alloc: Global, text: &[u8]) -> Result<Vec<Mention>, Refuse>
    ensures told { IfOk result (λ found. AreMentions text.now found.items) }
    ensures unread { IfErr result (IsUnread text.now) }
{
    match parsed(alloc, text) {
        Err(refused) => Err(refused),
        Ok(expr) => {
            let result = mentions(alloc, &expr);
            drop(expr);
            match result {
                Ok(found) => Ok(found),
                Err(_) => Err(Refuse::NoMemory),
            }
        }
    }
}

/// Why the checker refused.
fn refused_by(fault: &ExprFault) -> Refuse
    ensures { result ≡ refusal_of fault.now }
{
    match fault {
        ExprFault::Scope { .. } => Refuse::Scope,
        ExprFault::Rule { .. } | ExprFault::Forbidden { .. } => Refuse::Rule,
        ExprFault::NoMemory => Refuse::NoMemory,
    }
}

/// The checked tree of a text among these names and structs.
fn checked(
    alloc: Global,
    text: &[u8],
    mode: Mode,
    symbols: &[Symbol],
    defs: &[StructDef],
) -> Result<Typed, Refuse>
    ensures { IsChecked text.now mode symbols.now defs.now result }
{
    if symbols.len() > MOST_ROWS || defs.len() > MOST_ROWS {
        return Err(Refuse::NoMemory);
    }
    match parsed(alloc, text) {
        Err(refused) => Err(refused),
        Ok(expr) => {
            let result = check_expr(alloc, &expr, symbols, defs, mode);
            drop(expr);
            match result {
                Ok(typed) => Ok(typed),
                Err(fault) => Err(refused_by(&fault)),
            }
        }
    }
}

/// The type of the value of a checked expression: an array is a pointer.
fn given_type(typed: &Typed, mode: Mode) -> Result<CType, AllocError>
    ensures { IfOk result (λ t. plain t ≡ type_given mode (type_of typed.now)) }
{
    let t = &head_of(typed).ctype;
    match mode {
        Mode::Value => value_type(t),
        Mode::Assign => copied(t),
    }
}

/// The text of a checked expression, and its type.
fn told(
    alloc: Global,
    typed: &Typed,
    mode: Mode,
    symbols: &[Symbol],
    defs: &[StructDef],
) -> Result<(Text, CType), AllocError>
    ensures text { IfOk result (λ told. told.0 ≡ text_in symbols.now defs.now mode typed.now) }
    ensures ctype { IfOk result (λ told. plain told.1 ≡ type_given mode (type_of typed.now)) }
{
    let ctype = given_type(typed, mode)?;
    let postscript = text_of(alloc, typed, mode, symbols, defs)?;
    Ok((postscript, ctype))
}

/// A copy of a struct's members.
fn copied_members(alloc: Global, members: &[Member]) -> Result<Many<Member>, AllocError>
    ensures { IfOk result (λ r. map member_as r ≡ map member_as members.now) }
{
    let mut copies = Many::new(alloc);
    for member in members {
        let name = Text::from_slice(alloc, member.name.as_bytes())?;
        let ctype = copied(&member.ctype)?;
        copies.push(Member {
            name,
            at: member.at,
            ctype,
        })?;
    }
    Ok(copies)
}

/// A copy of a struct.
fn copied_def(alloc: Global, def: &StructDef) -> Result<StructDef, AllocError>
    ensures { IfOk result (λ r. struct_as r ≡ struct_as def.now) }
{
    let tag = Text::from_slice(alloc, def.tag.as_bytes())?;
    let members = copied_members(alloc, def.members.as_slice())?;
    Ok(StructDef {
        tag,
        size: def.size,
        members,
    })
}

/// Adds copies of structs. Those that were there stay, also where memory runs out.
#[tactic(auto, using(crate::proofs::Keeping::front))]
fn add_copies(
    alloc: Global,
    defs: &mut Vec<StructDef>,
    more: &[StructDef],
) -> Result<(), AllocError>
    ensures longer { OnOk result (map struct_as defs.new.items ≡ map struct_as (defs.old.items ++ more.now)) }
    ensures front { map struct_as (take (length defs.old.items) defs.new.items) ≡ map struct_as defs.old.items }
{
    for def in more {
        let copy = copied_def(alloc, def)?;
        defs.push(copy)?;
    }
    Ok(())
}

/// Adds copies of the structs behind those that are there. Without memory they are as before.
fn add_defs(alloc: Global, defs: &mut Vec<StructDef>, all: &[StructDef]) -> Result<(), AllocError>
    ensures longer { OnOk result (IsLonger defs.old.items all.now defs.new.items) }
    ensures same { OnErr result (map struct_as defs.new.items ≡ map struct_as defs.old.items) }
{
    let known = defs.len();
    let Some(more) = all.get(known..) else {
        return Ok(());
    };
    match add_copies(alloc, defs, more) {
        Ok(()) => Ok(()),
        Err(fault) => {
            defs.truncate(known);
            Err(fault)
        }
    }
}

/// Adds a name. Without memory they are as before.
fn add_symbol(symbols: &mut Vec<Symbol>, symbol: Symbol) -> Result<(), AllocError>
    ensures longer { OnOk result (symbols.new.items ≡ symbols.old.items ++ symbol ∷ []) }
    ensures same { OnErr result (symbols.new.items ≡ symbols.old.items) }
{
    symbols.push(symbol)?;
    Ok(())
}

/// Whether a struct has this tag.
fn has_tag(defs: &[StructDef], tag: &[u8]) -> bool
    ensures { result ≡ list_any (is_tagged tag.now) defs.now }
{
    for def in defs {
        if def.tag.as_bytes() == tag {
            return true;
        }
    }
    false
}

/// Whether a symbol has this name.
fn has_name(symbols: &[Symbol], name: &[u8]) -> bool
    ensures { result ≡ list_any (is_named name.now) symbols.now }
{
    for symbol in symbols {
        if symbol.name.as_bytes() == name {
            return true;
        }
    }
    false
}

/// Whether a name or a tag was answered already.
fn is_known(mention: &Mention, symbols: &[Symbol], defs: &[StructDef]) -> bool
    ensures { result ≡ known mention.now symbols.now defs.now }
{
    match mention {
        Mention::Name(name) => has_name(symbols, name.as_bytes()),
        Mention::Tag(tag) => has_tag(defs, tag.as_bytes()),
    }
}

/// A copy of a name or a tag.
fn copied_mention(alloc: Global, mention: &Mention) -> Result<Mention, AllocError>
    ensures { IfOk result (λ copy. copy ≡ mention.now) }
{
    match mention {
        Mention::Name(name) => Ok(Mention::Name(Text::from_slice(alloc, name.as_bytes())?)),
        Mention::Tag(tag) => Ok(Mention::Tag(Text::from_slice(alloc, tag.as_bytes())?)),
    }
}

impl Server {
    /// Begins to serve a text. Syntax comes where it has more than 1,000 bytes or is no expression with a nesting of at most 64.
    pub fn start(alloc: Global, text: &[u8], mode: Mode) -> Result<Server, Refuse>
        ensures { IsBegun text.now mode result }
    {
        let mentions = match mentions_of(alloc, text) {
            Ok(mentions) => mentions,
            Err(refused) => return Err(refused),
        };
        match Text::from_slice(alloc, text) {
            Err(_) => Err(Refuse::NoMemory),
            Ok(text) => Ok(Server {
                alloc,
                text,
                mode,
                mentions,
                symbols: Vec::new(alloc),
                defs: Vec::new(alloc),
                is_unknown: false,
            }),
        }
    }

    /// The next name or tag that was not answered, if there is one.
    fn next_open(&self) -> Option<&Mention>
        ensures { option_map (λ m. m.now) result ≡ asks self.now }
    {
        for mention in self.mentions.as_slice() {
            if !is_known(mention, self.symbols.as_slice(), self.defs.as_slice()) {
                return Some(mention);
            }
        }
        None
    }

    /// What is asked for next.
    fn asked(&self) -> Result<Option<Mention>, AllocError>
        ensures { IfOk result (λ found. found ≡ asks self.now) }
    {
        match self.next_open() {
            None => Ok(None),
            Some(mention) => Ok(Some(copied_mention(self.alloc, mention)?)),
        }
    }

    /// The text of the expression, once all names and tags were answered, and its type.
    fn finished(&self) -> Result<(Text, CType), Refuse>
        ensures { IsTold self.now result }
    {
        let symbols = self.symbols.as_slice();
        let defs = self.defs.as_slice();
        match checked(self.alloc, self.text.as_bytes(), self.mode, symbols, defs) {
            Err(refused) => Err(refused),
            Ok(typed) => {
                let result = told(self.alloc, &typed, self.mode, symbols, defs);
                drop(typed);
                match result {
                    Ok(told) => Ok(told),
                    Err(_) => Err(Refuse::NoMemory),
                }
            }
        }
    }

    /// Asks for the next name or tag, each once and in the order of the text, or gives the text of PostScript. Scope comes only
    /// where a name was answered to be none, Rule where a typing rule is broken or a form stands in the text that is forbidden.
    #[tactic(auto, using(crate::proofs::Refusing::out_of_scope, crate::proofs::Refusing::refused_turn, crate::proofs::Refusing::wanting_turn))]
    pub fn advance(self) -> Result<Turn, Refuse>
        ensures { IsTurn self result }
    {
        if self.is_unknown {
            return Err(Refuse::Scope);
        }
        let server = self;
        match server.asked() {
            Err(_) => Err(Refuse::NoMemory),
            Ok(Some(Mention::Tag(tag))) => Ok(Turn::AskTag { tag, server }),
            Ok(Some(Mention::Name(name))) => Ok(Turn::Ask { name, server }),
            Ok(None) => match server.finished() {
                Err(refused) => Err(refused),
                Ok((postscript, ctype)) => Ok(Turn::Done { postscript, ctype }),
            },
        }
    }

    /// Answers the name that was asked for, with all structs so far; those of the answer before come first. Without memory all is as before.
    #[tactic(auto, using(crate::proofs::Keeping::front))]
    pub fn answer(&mut self, symbol: Option<Symbol>, defs: &[StructDef]) -> Result<(), Refuse>
        ensures text { Stays self.old self.new }
        ensures answered { TakesName self.old symbol defs.now self.new result }
    {
        match symbol {
            None => {
                self.is_unknown = true;
                Err(Refuse::Scope)
            }
            Some(symbol) => {
                let known = self.defs.len();
                add_defs(self.alloc, &mut self.defs, defs)?;
                match add_symbol(&mut self.symbols, symbol) {
                    Ok(()) => Ok(()),
                    Err(_) => {
                        self.defs.truncate(known);
                        Err(Refuse::NoMemory)
                    }
                }
            }
        }
    }

    /// Answers the tag that was asked for, with all structs so far; those of the answer before come first. Without memory all is as before.
    pub fn answer_tag(&mut self, defs: &[StructDef]) -> Result<(), Refuse>
        ensures text { Stays self.old self.new }
        ensures answered { TakesTag self.old defs.now self.new result }
    {
        add_defs(self.alloc, &mut self.defs, defs)?;
        Ok(())
    }
}
