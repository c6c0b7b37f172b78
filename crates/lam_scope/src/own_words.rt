//! The search for a variable or a projection by the byte offset of its token.
ghost use Rattle.std.specs.Prelude.{◌≡◌, length, map, position, false};
ghost use Rattle.lam_syntax.specs.Views.{term_of, fields_of, command_of};
ghost use Rattle.lam_scope.specs.PlacedTerms.{name_at, label_at, document_terms, term_of as placed_of};
ghost use Rattle.lam_scope.specs.inner.OwnWords.{words_in, words_in_fields, command_words, commands_words, is_target, at_word, seek_on, number_of};

use lam_syntax::{Command, Tm, TmField, TmNode};
use lam_token::Span;

/// What is searched for: the variable whose token begins at a byte offset, or the projection whose label's does.
#[derive(Clone, Copy)]
pub(crate) enum Target {
    Variable(usize),
    Projection(usize),
}

/// The state of a search: the number of subterms left, from the one found on, or after all those searched.
#[derive(Clone, Copy)]
pub(crate) enum Reached {
    Here(usize),
    Behind(usize),
}

/// Returns the index of the subterm that is searched for. `places` is the number of subterms of the commands.
pub(crate) fn find_number(target: Target, commands: &[Command], places: usize) -> Option<usize>
    requires { places ≡ length (document_terms (map command_of commands.now)) }
    ensures { result ≡ position (λ t. is_target target (placed_of t).own) (document_terms (map command_of commands.now)) }
{
    number_of(places, find_in_commands(target, commands, places))
}

/// Returns the index of the subterm that a search found, out of `places` subterms.
fn number_of(places: usize, reached: Reached) -> Option<usize>
    ensures { result ≡ number_of places reached }
{
    match reached {
        Reached::Here(left) => Some(places.saturating_sub(left)),
        Reached::Behind(_) => None,
    }
}

#[tactic(auto, using(crate::proofs::OwnWords::seeking))]
fn find_in_commands(target: Target, commands: &[Command], places: usize) -> Reached
    ensures { result ≡ seek_on target (Reached.Behind places) (commands_words (map command_of commands.now)) }
{
    let mut reached = Reached::Behind(places);
    for i in 0..commands.len() {
        let command = &commands[i];
        reached = find_in_command(target, reached, command);
    }
    reached
}

#[tactic(auto, using(crate::proofs::OwnWords::seeking))]
fn find_in_command(target: Target, reached: Reached, command: &Command) -> Reached
    ensures { result ≡ seek_on target reached (command_words (command_of command.now)) }
{
    match command {
        Command::Definition(_, term) => find_word(target, reached, term),
        Command::Declaration(..) => reached,
        Command::Abbreviation(..) => reached,
        Command::Evaluation(term) => find_word(target, reached, term),
    }
}

/// Continues the search in a term: in its parts, from left to right, and then at its own token.
#[cycle(words)]
#[tactic(auto, using(crate::proofs::OwnWords::seeking))]
fn find_word(target: Target, reached: Reached, term: &Tm) -> Reached
    ensures { result ≡ seek_on target reached (words_in (term_of term.now)) }
{
    let Reached::Behind(_) = reached else {
        return reached;
    };
    match &term.node {
        TmNode::True => past(reached),
        TmNode::False => past(reached),
        TmNode::Unit => past(reached),
        TmNode::Numeral(_) => past(reached),
        TmNode::Variable(name) => at_word(reached, is_variable(target, name.span)),
        TmNode::Lambda(lambda) => past(find_word(target, reached, &lambda.body)),
        TmNode::If(conditional) => {
            let first = find_word(target, reached, &conditional.condition);
            let second = find_word(target, first, &conditional.then_term);
            past(find_word(target, second, &conditional.else_term))
        }
        TmNode::Let(parts) => {
            let first = find_word(target, reached, &parts.bound);
            past(find_word(target, first, &parts.body))
        }
        TmNode::Letrec(parts) => {
            let first = find_word(target, reached, &parts.bound);
            let function = past(first);
            let fixed = past(function);
            past(find_word(target, fixed, &parts.body))
        }
        TmNode::Prefixed(_, operand) => past(find_word(target, reached, operand)),
        TmNode::Apply(application) => {
            let first = find_word(target, reached, &application.function);
            past(find_word(target, first, &application.argument))
        }
        TmNode::Project(projection) => {
            let record = find_word(target, reached, &projection.record);
            at_word(record, is_projection(target, projection.label.span))
        }
        TmNode::Ascribe(ascription) => past(find_word(target, reached, &ascription.operand)),
        TmNode::Record(fields) => past(find_in_fields(target, reached, fields)),
    }
}

#[cycle(words)]
#[tactic(auto, using(crate::proofs::OwnWords::seeking))]
fn find_in_fields(target: Target, reached: Reached, fields: &[TmField]) -> Reached
    ensures { result ≡ seek_on target reached (words_in_fields (fields_of fields.now)) }
{
    let mut after = reached;
    for i in 0..fields.len() {
        let field = &fields[i];
        after = find_word(target, after, &field.term);
    }
    after
}

/// Passes a term without a token of its own.
fn past(reached: Reached) -> Reached
    ensures { result ≡ at_word reached false }
{
    at_word(reached, false)
}

/// Passes a term's own token, which may be the one searched for.
fn at_word(reached: Reached, is_sought: bool) -> Reached
    ensures { result ≡ at_word reached is_sought }
{
    match reached {
        Reached::Here(left) => Reached::Here(left),
        Reached::Behind(left) => {
            if is_sought {
                Reached::Here(left)
            } else {
                Reached::Behind(left.saturating_sub(1))
            }
        }
    }
}

fn is_variable(target: Target, token: Span) -> bool
    ensures { result ≡ is_target target (name_at token) }
{
    match target {
        Target::Variable(offset) => token.start == offset,
        Target::Projection(_) => false,
    }
}

fn is_projection(target: Target, token: Span) -> bool
    ensures { result ≡ is_target target (label_at token) }
{
    match target {
        Target::Variable(_) => false,
        Target::Projection(offset) => token.start == offset,
    }
}
