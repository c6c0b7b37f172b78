//! Parsing commands.
ghost use Rattle.std.specs.Prelude.{◌≡◌, IfOk, IfErr};
ghost use Rattle.lam_token.specs.Lexeme.{text_of, span_of};
ghost use Rattle.lam_syntax.specs.Trees.{CommandTree, word};
ghost use Rattle.lam_syntax.specs.Views.{command_of, Accepts};
ghost use Rattle.lam_syntax.specs.Grammar.{Spells};
ghost use Rattle.lam_syntax.specs.inner.Run.{need_command, need_term, need_type, after_type_name, of_evaluation, of_definition, of_declaration, fault, run};
ghost use Rattle.lam_syntax.specs.inner.Reads.{ReadsAll, EndsAll};
ghost use Rattle.lam_syntax.specs.Answers.{is_bad, has_bad, IsLexed, IsFaultOf};

use crate::fault::ParseFault;
use crate::parse_terms::parse_term;
use crate::parse_types::parse_type;
use crate::stop::Stop;
use crate::terms::Command;
use crate::tokens::{expect, identifier_of, take};
use lam_token::{Kind, Token};
use std::alloc::Global;

/// The maximum number of tokens in a command.
const MAX_TOKENS: usize = 2_000;

/// Parses the tokens as a command. The grammar derives no other tree, with other spans or grouping, from them.
pub fn parse(alloc: Global, tokens: &[Token<'_>]) -> Result<Command, ParseFault>
    ensures taken { IfOk result (λ c. IsLexed tokens.now) }
    ensures spelled { IfOk result (λ c. Spells tokens.now (command_of c)) }
    ensures only { IfOk result (λ c. (d : CommandTree) → Spells tokens.now d → d ≡ command_of c) }
    ensures fault { IfErr result (IsFaultOf tokens.now) }
    ensures accepts { (c : CommandTree) → IsLexed tokens.now → Spells tokens.now c → Accepts c result }
{
    if tokens.len() > MAX_TOKENS {
        return Err(ParseFault::TooManyTokens);
    }
    if has_bad(tokens) {
        return Err(ParseFault::BadToken);
    }
    match parse_command(alloc, tokens) {
        Ok(command) => Ok(command),
        Err(Stop::At(left)) => Err(fault_at(tokens, left)),
        Err(Stop::Memory) => Err(ParseFault::Memory),
    }
}

/// The error for a parser that stopped with these tokens left.
fn fault_at(tokens: &[Token<'_>], left: &[Token<'_>]) -> ParseFault
    requires taken { IsLexed tokens.now }
    requires stopped { run tokens.now need_command ≡ fault left.now }
    ensures { IsFaultOf tokens.now result }
{
    if left.is_empty() {
        ParseFault::WrongEnd
    } else {
        ParseFault::WrongToken(tokens.len() - left.len())
    }
}

/// Whether some token is a stray character or an unclosed comment.
fn has_bad(tokens: &[Token<'_>]) -> bool
    ensures { result ≡ has_bad tokens.now }
{
    tokens.iter().any(|token| is_bad(token.kind()))
}

fn is_bad(kind: Kind) -> bool
    ensures { result ≡ is_bad kind }
{
    match kind {
        Kind::BadCharacter => true,
        Kind::BadComment => true,
        _ => false,
    }
}

/// Parses a command, which must extend to the end of the tokens.
fn parse_command<'a, 'b>(alloc: Global, tokens: &'a [Token<'b>]) -> Result<Command, Stop<'a, 'b>>
    ensures { ReadsAll result (run tokens.now need_command) }
{
    let Some((first, rest)) = tokens.split_first() else {
        return Err(Stop::At(tokens));
    };
    match first.kind() {
        Kind::TypeName => parse_abbreviation(alloc, first, rest),
        Kind::Name => {
            if let Some((_, body)) = take(rest, Kind::Equals) {
                return parse_definition(alloc, first, body);
            }
            if let Some((_, body)) = take(rest, Kind::Colon) {
                return parse_declaration(alloc, first, body);
            }
            parse_evaluation(alloc, tokens)
        }
        _ => parse_evaluation(alloc, tokens),
    }
}

/// Parses `name = term`, from the term on.
fn parse_definition<'a, 'b>(
    alloc: Global,
    name: &Token<'b>,
    tokens: &'a [Token<'b>],
) -> Result<Command, Stop<'a, 'b>>
    ensures { ReadsAll result (run tokens.now (need_term (of_definition (word (text_of name.now) (span_of name.now))))) }
{
    let (term, rest) = parse_term(alloc, tokens)?;
    expect_end(rest)?;
    let name = identifier_of(alloc, name)?;
    Ok(Command::Definition(name, term))
}

/// Parses `name : type`, from the type on.
fn parse_declaration<'a, 'b>(
    alloc: Global,
    name: &Token<'b>,
    tokens: &'a [Token<'b>],
) -> Result<Command, Stop<'a, 'b>>
    ensures { ReadsAll result (run tokens.now (need_type (of_declaration (word (text_of name.now) (span_of name.now))))) }
{
    let (ty, rest) = parse_type(alloc, tokens)?;
    expect_end(rest)?;
    let name = identifier_of(alloc, name)?;
    Ok(Command::Declaration(name, ty))
}

/// Parses `TypeName = type`, from the equals sign on.
fn parse_abbreviation<'a, 'b>(
    alloc: Global,
    name: &Token<'b>,
    tokens: &'a [Token<'b>],
) -> Result<Command, Stop<'a, 'b>>
    ensures { ReadsAll result (run tokens.now (after_type_name (word (text_of name.now) (span_of name.now)))) }
{
    let (_, rest) = expect(tokens, Kind::Equals)?;
    let (ty, rest) = parse_type(alloc, rest)?;
    expect_end(rest)?;
    let name = identifier_of(alloc, name)?;
    Ok(Command::Abbreviation(name, ty))
}

/// Parses a term on its own.
fn parse_evaluation<'a, 'b>(alloc: Global, tokens: &'a [Token<'b>]) -> Result<Command, Stop<'a, 'b>>
    ensures { ReadsAll result (run tokens.now (need_term of_evaluation)) }
{
    let (term, rest) = parse_term(alloc, tokens)?;
    expect_end(rest)?;
    Ok(Command::Evaluation(term))
}

/// Stops unless there are no more tokens.
fn expect_end<'a, 'b>(tokens: &'a [Token<'b>]) -> Result<(), Stop<'a, 'b>>
    ensures { EndsAll tokens.now result }
{
    match tokens.split_first() {
        None => Ok(()),
        Some(_) => Err(Stop::At(tokens)),
    }
}
