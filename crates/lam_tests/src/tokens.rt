//! The tokens and the pieces of texts, on one line for each text.

use crate::written::check_rows;
use lam_syntax::pieces;
use lam_token::{Span, Token, lex};
use std::alloc::{AllocError, Global};

/// The tokens of a text, each as `Name x 0..1; `: its kind, its text, and its span.
fn shown(alloc: Global, text: &str) -> Result<String, AllocError> {
    let mut line = String::new(alloc);
    for token in &lex(alloc, text)? {
        push_token(&mut line, token)?;
    }
    Ok(line)
}

fn push_token(line: &mut String, token: &Token<'_>) -> Result<(), AllocError> {
    let Span { start, end } = token.span();
    write!(line, "{:?} {} {start}..{end}; ", token.kind(), token.text())
}

/// Texts and their tokens.
static TEXTS: [(&str, &str); 36] = [
    // The longest prefix is a token.
    ("", ""),
    (" \t\r\n", ""),
    (
        "0x _ _a x' lambda_",
        "Numeral 0 0..1; Name x 1..2; Underscore _ 3..4; Name _a 5..7; Name x' 8..10; Name lambda_ 11..18; ",
    ),
    (
        "Nat->Bool",
        "NatType Nat 0..3; Arrow -> 3..5; BoolType Bool 5..9; ",
    ),
    (
        "-->0.1",
        "BadCharacter - 0..1; Arrow -> 1..3; Numeral 0 3..4; Dot . 4..5; Numeral 1 5..6; ",
    ),
    (
        ";=:,(){}",
        "Semicolon ; 0..1; Equals = 1..2; Colon : 2..3; Comma , 3..4; OpenParen ( 4..5; CloseParen ) 5..6; OpenBrace { 6..7; CloseBrace } 7..8; ",
    ),
    // Keywords.
    ("lambda", "Lambda lambda 0..6; "),
    ("if", "If if 0..2; "),
    ("then", "Then then 0..4; "),
    ("else", "Else else 0..4; "),
    ("let", "Let let 0..3; "),
    ("letrec", "Letrec letrec 0..6; "),
    ("in", "In in 0..2; "),
    ("fix", "Fix fix 0..3; "),
    ("succ", "Succ succ 0..4; "),
    ("pred", "Pred pred 0..4; "),
    ("iszero", "IsZero iszero 0..6; "),
    ("true", "True true 0..4; "),
    ("false", "False false 0..5; "),
    ("unit", "UnitTerm unit 0..4; "),
    ("as", "As as 0..2; "),
    ("Bool", "BoolType Bool 0..4; "),
    ("Nat", "NatType Nat 0..3; "),
    ("Unit", "UnitType Unit 0..4; "),
    ("Top", "TopType Top 0..3; "),
    // Comments, which nest, and characters that start no token.
    ("/* a /* b */ */ 0", "Numeral 0 16..17; "),
    ("/**/ /***/", ""),
    ("/*/", "BadComment /*/ 0..3; "),
    ("/* a", "BadComment /* a 0..4; "),
    ("/*/*/", "BadComment /*/*/ 0..5; "),
    ("/* /* */", "BadComment /* /* */ 0..8; "),
    ("-", "BadCharacter - 0..1; "),
    (
        "*/ 1'",
        "BadCharacter * 0..1; BadCharacter / 1..2; Numeral 1 3..4; BadCharacter ' 4..5; ",
    ),
    ("/*😀*/ x", "Name x 9..10; "),
    // Letters beyond ASCII.
    (
        "é Éa Aé x٣ ٣ 😀",
        "Name é 0..2; Name Éa 3..6; TypeName Aé 7..10; Name x٣ 11..14; BadCharacter ٣ 15..17; BadCharacter 😀 18..22; ",
    ),
    ("x;y", "Name x 0..1; Semicolon ; 1..2; Name y 2..3; "),
];

#[test]
fn tokens_of_texts(rt: HostRuntime) -> Result<(), AllocError> {
    check_rows(&rt, rt.alloc(), shown, &TEXTS)
}

/// The pieces of a text, with a bar after each and a dot after each of its tokens.
fn divided(alloc: Global, text: &str) -> Result<String, AllocError> {
    let tokens = lex(alloc, text)?;
    let mut line = String::new(alloc);
    for piece in pieces(alloc, &tokens)? {
        push_piece(&mut line, piece)?;
    }
    Ok(line)
}

fn push_piece(line: &mut String, piece: &[Token<'_>]) -> Result<(), AllocError> {
    for token in piece {
        write!(line, "{}.", token.text())?;
    }
    line.push_str("|")
}

static DIVIDED: [(&str, &str); 5] = [
    ("", ""),
    (" ;; /* ; */ ;", ""),
    ("0", "0.|"),
    ("x = 0; ; succ x", "x.=.0.|succ.x.|"),
    ("-;/* 0; 1", "-.|/* 0; 1.|"),
];

#[test]
fn pieces_of_texts(rt: HostRuntime) -> Result<(), AllocError> {
    check_rows(&rt, rt.alloc(), divided, &DIVIDED)
}

#[test]
fn ranges_are_ordered_by_their_starts_and_then_their_ends(rt: HostRuntime) {
    let rows = [((0, 9), (1, 2)), ((1, 2), (1, 3)), ((1, 3), (2, 2))];
    for ((start, end), (next_start, next_end)) in rows {
        let next = Span {
            start: next_start,
            end: next_end,
        };
        assert!(rt; Span { start, end } < next);
    }
}
