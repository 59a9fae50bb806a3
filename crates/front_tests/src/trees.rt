// Trees of texts, and where texts have none.

use crate::lexing::tokens_of;
use c_declaration::{
    FileParser, FileStep, LocalParser, LocalStep, ReadHead, ReadLocal, Step, file_offer,
    local_offer,
};
use c_discard::{
    discard_expr, discard_file_parser, discard_head, discard_local, discard_local_parser,
    discard_unit,
};
use c_expr::{SynFault, parse_expr};
use c_lex::Token;
use c_symbol::{BinaryOp, Joiner, Symbol, terminal_of};
use c_syntax::{External, Unit, parse_unit};
use c_trees::declaration::{Declarator, DeclaratorNode, Head, InitialNode, ParameterNode};
use c_trees::expression::{Expr, Node};
use std::alloc::{AllocError, Global};
use test_rows::append;

/// How reading ends, and at which offset.
#[derive(Clone, Copy)]
enum End {
    Tree,
    Whole(u32),
    Body(u32),
    Syntax(u32),
    Deep(u32),
    Open,
}

/// How reading ended at a fault.
fn of_fault(fault: SynFault) -> Result<End, AllocError> {
    match fault {
        SynFault::Syntax(place) => Ok(End::Syntax(place.at)),
        SynFault::Deep(place) => Ok(End::Deep(place.at)),
        SynFault::NoMemory => Err(AllocError),
    }
}

/// One token more of a declaration in a block.
fn next_local(
    alloc: Global,
    parser: LocalParser,
    text: &[u8],
    token: Token,
) -> Result<LocalStep, SynFault> {
    match terminal_of(alloc, text, token) {
        Ok(next) => local_offer(alloc, parser, next),
        Err(_) => {
            discard_local_parser(parser);
            Err(SynFault::NoMemory)
        }
    }
}

/// How a declaration in a block ends that was read up to an offset.
fn local_end(read: ReadLocal, at: u32) -> End {
    let end = match &read.local {
        Some(_) => End::Whole(at),
        None => End::Deep(read.place.at),
    };
    discard_local(read);
    end
}

/// How a declaration in a block ends.
fn local(alloc: Global, text: &[u8], found: &[Token]) -> Result<End, AllocError> {
    let mut parser = LocalParser::Begin;
    for token in found {
        match next_local(alloc, parser, text, *token) {
            Ok(Step::Goes(after)) => parser = after,
            Ok(Step::Ends(read)) => return Ok(local_end(read, token.at)),
            Err(fault) => return of_fault(fault),
        }
    }
    discard_local_parser(parser);
    Ok(End::Open)
}

/// One token more of a declaration at file scope.
fn next_of_file(
    alloc: Global,
    parser: FileParser,
    text: &[u8],
    token: Token,
) -> Result<FileStep, SynFault> {
    match terminal_of(alloc, text, token) {
        Ok(next) => file_offer(alloc, parser, next),
        Err(_) => {
            discard_file_parser(parser);
            Err(SynFault::NoMemory)
        }
    }
}

/// How a declaration at file scope ends that was read up to an offset.
fn head_end(read: &ReadHead, at: u32) -> End {
    match read {
        ReadHead::Declaration(_, Some(_)) => End::Whole(at),
        ReadHead::Function(_, Some(_)) => End::Body(at),
        ReadHead::Declaration(place, None) | ReadHead::Function(place, None) => End::Deep(place.at),
    }
}

/// How a declaration at file scope ends, and what it is.
fn file(
    alloc: Global,
    text: &[u8],
    found: &[Token],
) -> Result<(End, Option<ReadHead>), AllocError> {
    let mut parser = FileParser::Begin;
    for token in found {
        match next_of_file(alloc, parser, text, *token) {
            Ok(Step::Goes(after)) => parser = after,
            Ok(Step::Ends(read)) => return Ok((head_end(&read, token.at), Some(read))),
            Err(fault) => return Ok((of_fault(fault)?, None)),
        }
    }
    discard_file_parser(parser);
    Ok((End::Open, None))
}

/// How a declaration at file scope ends.
fn file_end(alloc: Global, text: &[u8], found: &[Token]) -> Result<End, AllocError> {
    let (end, read) = file(alloc, text, found)?;
    if let Some(read) = read {
        discard_head(read);
    }
    Ok(end)
}

/// How an expression ends.
fn expr_end(alloc: Global, text: &[u8], found: &[Token]) -> Result<End, AllocError> {
    match parse_expr(alloc, text, found) {
        Ok(e) => {
            discard_expr(e);
            Ok(End::Tree)
        }
        Err(fault) => of_fault(fault),
    }
}

/// How a file ends.
fn unit_end(alloc: Global, text: &[u8], found: &[Token]) -> Result<End, AllocError> {
    match parse_unit(alloc, text, found) {
        Ok(unit) => {
            discard_unit(unit);
            Ok(End::Tree)
        }
        Err(fault) => of_fault(fault),
    }
}

/// How reading a text ends, as an expression, a declaration in a block or at file scope, or a file.
pub fn read_tree(alloc: Global, kind: &str, text: &[u8]) -> Result<String, AllocError> {
    let Ok(found) = tokens_of(alloc, text) else {
        return String::from_str(alloc, "no tokens");
    };
    let end = match kind {
        "expr" => expr_end(alloc, text, &found)?,
        "local" => local(alloc, text, &found)?,
        "file" => file_end(alloc, text, &found)?,
        _ => unit_end(alloc, text, &found)?,
    };
    match end {
        End::Tree => String::from_str(alloc, "tree"),
        End::Whole(at) => format!(in alloc; "whole {at}"),
        End::Body(at) => format!(in alloc; "body {at}"),
        End::Syntax(at) => format!(in alloc; "syntax {at}"),
        End::Deep(at) => format!(in alloc; "deep {at}"),
        End::Open => String::from_str(alloc, "open"),
    }
}

/// How many parameters a function has, and how many of them have no name.
fn parameters_of(d: &Declarator) -> (usize, u32) {
    match &d.node {
        DeclaratorNode::Function(_, _, parameters) => {
            let mut unnamed: u32 = 0;
            for parameter in parameters.iter() {
                if let ParameterNode::Unnamed(_, _, _) = &parameter.node {
                    unnamed = unnamed.wrapping_add(1);
                }
            }
            (parameters.len(), unnamed)
        }
        _ => (0, 0),
    }
}

/// Appends the numbers of parameters and of those without a name of each declared name, and of the items of its initializer.
fn append_names(alloc: Global, head: &Head, out: &mut Vec<u8>) -> Result<(), AllocError> {
    for name in head.names.as_slice() {
        let (all, unnamed) = parameters_of(&name.declarator);
        append(out, format!(in alloc; "{all} {unnamed}")?.as_str())?;
        if let Some(initial) = &name.initial {
            if let InitialNode::Braces(_, list) = &initial.node {
                let items = list.len();
                append(out, format!(in alloc; " of {items}")?.as_str())?;
            }
        }
        append(out, ";")?;
    }
    Ok(())
}

/// Appends the same of a text that is a declaration.
fn append_parameters(
    alloc: Global,
    text: &[u8],
    found: &[Token],
    out: &mut Vec<u8>,
) -> Result<(), AllocError> {
    let (_, Some(read)) = file(alloc, text, found)? else {
        return append(out, "none");
    };
    let appended = match &read {
        ReadHead::Declaration(_, Some(head)) => append_names(alloc, head, out),
        _ => append(out, "none"),
    };
    discard_head(read);
    appended
}

/// The name of what a token is to the grammar.
fn role_of(symbol: Symbol) -> &'static str {
    match symbol {
        Symbol::Binary(BinaryOp::Multiply) => "multiply ",
        Symbol::Access(_) => "access ",
        Symbol::Word(_) => "word ",
        Symbol::Keyword(_) => "keyword ",
        Symbol::Sizeof => "sizeof ",
        _ => "other ",
    }
}

/// How many terminals a text has, and how many bytes their texts have in all.
fn joined(alloc: Global, text: &[u8], found: &[Token]) -> Result<(u32, usize), AllocError> {
    let mut joiner = Joiner { last: None };
    let mut many: u32 = 0;
    let mut bytes: usize = 0;
    for token in found {
        let next = terminal_of(alloc, text, *token)?;
        if let Some(whole) = joiner.push(next)? {
            many = many.wrapping_add(1);
            bytes = bytes.wrapping_add(whole.text.len());
        }
    }
    if let Some(whole) = joiner.last {
        many = many.wrapping_add(1);
        bytes = bytes.wrapping_add(whole.text.len());
    }
    Ok((many, bytes))
}

/// Appends what a tree or the terminals of a text are made of.
pub fn append_shape(
    alloc: Global,
    kind: &str,
    text: &[u8],
    out: &mut Vec<u8>,
) -> Result<(), AllocError> {
    let Ok(found) = tokens_of(alloc, text) else {
        return append(out, "no tokens");
    };
    match kind {
        "joined" => {
            let (many, bytes) = joined(alloc, text, &found)?;
            append(out, format!(in alloc; "{many} {bytes}")?.as_str())
        }
        "symbols" => {
            for token in &found {
                append(out, role_of(terminal_of(alloc, text, *token)?.symbol))?;
            }
            Ok(())
        }
        "parameters" => append_parameters(alloc, text, &found, out),
        "arguments" => append_arguments(alloc, text, &found, out),
        _ => append_externals(alloc, text, &found, out),
    }
}

/// How many arguments a call has.
fn arguments_of(e: Expr) -> usize {
    let count = match &e.node {
        Node::Call(_, _, arguments) => arguments.len(),
        _ => 0,
    };
    discard_expr(e);
    count
}

/// Appends how many arguments a call has.
fn append_arguments(
    alloc: Global,
    text: &[u8],
    found: &[Token],
    out: &mut Vec<u8>,
) -> Result<(), AllocError> {
    match parse_expr(alloc, text, found) {
        Ok(e) => {
            let count = arguments_of(e);
            append(out, format!(in alloc; "{count}")?.as_str())
        }
        Err(_) => append(out, "no tree"),
    }
}

/// How many external declarations a file has, and how many of them are definitions.
fn externals_of(unit: Unit) -> (usize, u32) {
    let mut definitions: u32 = 0;
    for external in unit.externals.as_slice() {
        if let External::Definition(_, _) = external {
            definitions = definitions.wrapping_add(1);
        }
    }
    let all = unit.externals.len();
    discard_unit(unit);
    (all, definitions)
}

/// Appends how many external declarations a file has, and how many of them are definitions.
fn append_externals(
    alloc: Global,
    text: &[u8],
    found: &[Token],
    out: &mut Vec<u8>,
) -> Result<(), AllocError> {
    match parse_unit(alloc, text, found) {
        Ok(unit) => {
            let (all, definitions) = externals_of(unit);
            append(out, format!(in alloc; "{all} {definitions}")?.as_str())
        }
        Err(_) => append(out, "no tree"),
    }
}
