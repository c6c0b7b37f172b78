//! Reads a text into commands, and the diagnostics of what is not a command.
ghost use Rattle.std.specs.Prelude.{true, false, ◌≡◌, ◌∷◌, ◌++◌, ◌+◌, ◌<◌, ◌^◌, ℕ, List, [], map, codes, length, IfOk, OnOk};
ghost use Rattle.std.specs.Option.{option_map};
ghost use Rattle.lam_token.specs.Lexeme.{Lexeme, start_of};
ghost use Rattle.lam_syntax.specs.Trees.{CommandTree};
ghost use Rattle.lam_syntax.specs.Answers.{is_semicolon};
ghost use Rattle.lam_syntax.specs.Views.{command_of};
ghost use Rattle.lam_scope.specs.Nesting.{TokensStand};
ghost use Rattle.lam_query.specs.Completions.{with_label};
ghost use Rattle.lam_query.specs.SyntaxFaults.{fault_of_token, PieceFault};
ghost use Rattle.lam_query.specs.inner.OnePiece.{HaveNoSemicolon, IsOwnOf, ArePieceTokens};
ghost use Rattle.lam_query.specs.inner.Reading.{IsCommandRead, fault_read, own_of, AreRead, AreAllRead, IsNoted, AreCollected, AreHeldAround, IsRead, IsNextPiece};
ghost use Rattle.lam_query.specs.Views.{fault_of};

use crate::answers::Fault;
use crate::cursor::{is_behind, is_in_front};
use lam_syntax::{Command, ParseFault, is_semicolon, parse};
use lam_token::{Kind, Span, Token, first_token, placeholder};
use std::alloc::{AllocError, Global};
use std::mem;

/// The result of reading a text.
#[derive(Drop)]
pub(crate) struct Parsed {
    /// In text order. A piece that is not a command is skipped.
    pub(crate) commands: Vec<Command>,
    /// The diagnostics of tokens, then those of pieces.
    pub(crate) faults: Vec<Fault>,
}

/// The result of reading a piece.
#[derive(Drop)]
enum Piece {
    Command(Command),
    Fault(Fault),
    /// No command, because a token in it is itself a lexical error.
    Spoiled,
}

/// Where a piece ends.
#[derive(Clone, Copy)]
pub(crate) struct PieceEnd {
    /// The length of the piece in bytes, including the semicolon that ends it.
    pub(crate) bytes: usize,
    /// Whether it ends with a semicolon, not at the end of the text.
    pub(crate) semicolon: bool,
}

/// Reads tokens one by one, and keeps them only until their piece ends.
#[derive(Drop)]
pub(crate) struct Reader<'t> {
    alloc: Global,
    /// The tokens after the last semicolon.
    piece: Vec<Token<'t>>,
    token_faults: Vec<Fault>,
    piece_faults: Vec<Fault>,
}

/// A reader, and the commands that it has returned.
#[derive(Drop)]
struct Collector<'t> {
    reader: Reader<'t>,
    commands: Vec<Command>,
}

/// Returns the commands of a text, and its lexical and syntactic diagnostics.
pub(crate) fn read(alloc: Global, text: &str) -> Result<Parsed, AllocError>
    ensures { IfOk result (IsRead text.now) }
{
    let mut collector = Collector::new(alloc);
    let mut rest = text;
    let mut start = 0;
    while let Some((token, after)) = first_token(rest, start) {
        rest = after;
        start = token.end();
        collector.take(token)?;
    }
    collector.end_piece()?;
    // The commands live as long as what is made from them.
    collector.commands.shrink_to_fit();
    Ok(Parsed {
        commands: collector.commands,
        faults: collector.reader.take_faults()?,
    })
}

/// Returns the command that a piece is, if it is one. The piece starts at byte `start`, and has no semicolon except at its end.
pub(crate) fn command_in(
    alloc: Global,
    piece: &str,
    start: usize,
) -> Result<Option<Command>, AllocError>
    requires { start + length piece.now < 2 ^ 64 }
    ensures { IfOk result (λ command. (rest : List ℕ) (tokens : List Lexeme) → ArePieceTokens start piece.now rest tokens → HaveNoSemicolon tokens → IsOwnOf tokens (own_of command)) }
{
    let mut reader = Reader::new(alloc);
    let mut rest = piece;
    let mut place = start;
    while let Some((token, after)) = first_token(rest, place) {
        rest = after;
        place = token.end();
        if is_semicolon(&token) {
            return reader.end_piece();
        }
        reader.push(token)?;
    }
    reader.end_piece()
}

/// Returns the command that a piece is, if it is one, with a name in place of the word that the cursor touches, after the dot at
/// byte `dot`. The piece starts at byte `start`, and has no semicolon except at its end.
pub(crate) fn command_with_label(
    alloc: Global,
    piece: &str,
    start: usize,
    offset: usize,
    dot: usize,
) -> Result<Option<Command>, AllocError>
    requires piece { start + length piece.now < 2 ^ 64 }
    requires dot { dot + 1 < 2 ^ 64 }
    ensures { IfOk result (λ command. (rest : List ℕ) (tokens : List Lexeme) (t : Lexeme) → ArePieceTokens start piece.now rest tokens → HaveNoSemicolon tokens → dot ≡ start_of t → IsOwnOf (with_label offset t (codes "a") tokens) (own_of command)) }
{
    let mut reader = Reader::new(alloc);
    let mut taken = false;
    let mut rest = piece;
    let mut place = start;
    while let Some((token, after)) = first_token(rest, place) {
        rest = after;
        place = token.end();
        if is_semicolon(&token) {
            break;
        }
        taken = reader.push_around(token, offset, dot, taken)?;
    }
    if !taken {
        reader.push(placeholder(dot))?;
    }
    reader.end_piece()
}

impl<'t> Reader<'t> {
    /// A reader that has read nothing yet.
    pub(crate) fn new(alloc: Global) -> Reader<'t>
        ensures read { AreRead [] [] result }
        ensures no_piece { result.piece.items ≡ [] }
    {
        Reader {
            alloc,
            piece: Vec::new(alloc),
            token_faults: Vec::new(alloc),
            piece_faults: Vec::new(alloc),
        }
    }

    /// Reads the tokens of the next piece from the rest of a text. Their offsets are relative to the start of the rest.
    pub(crate) fn read_piece(&mut self, text: &'t str) -> Result<PieceEnd, AllocError>
        requires read { AreRead [] [] self.old }
        requires no_piece { self.old.piece.items ≡ [] }
        ensures read { OnOk result (AreRead [] [] self.new) }
        ensures next { IfOk result (λ end. IsNextPiece text.now end self.new.piece.items) }
    {
        let mut left = text;
        let mut place = 0;
        while let Some((token, after)) = first_token(left, place) {
            left = after;
            place = token.end();
            if is_semicolon(&token) {
                return Ok(PieceEnd {
                    bytes: place,
                    semicolon: true,
                });
            }
            self.push(token)?;
        }
        Ok(PieceEnd {
            bytes: text.len(),
            semicolon: false,
        })
    }

    /// Adds the next token of the text, which is not a semicolon.
    pub(crate) fn push(&mut self, token: Token<'t>) -> Result<(), AllocError>
        requires { is_semicolon token ≡ false }
        ensures read { OnOk result ((front : List Lexeme) (done : List CommandTree) → AreRead front done self.old → AreRead front done self.new) }
        ensures pushed { OnOk result (self.new.piece.items ≡ self.old.piece.items ++ token.entry ∷ []) }
    {
        self.note(&token)?;
        self.piece.push(token)?;
        Ok(())
    }

    /// Adds the next token of the piece, unless it is a word that the cursor touches or has the cursor inside. Adds the name
    /// that stands for a label before the first token after the cursor, and returns whether it has been added by now.
    fn push_around(
        &mut self,
        token: Token<'t>,
        offset: usize,
        dot: usize,
        taken: bool,
    ) -> Result<bool, AllocError>
        requires semicolon { is_semicolon token ≡ false }
        requires dot { dot + 1 < 2 ^ 64 }
        ensures { IfOk result (λ now. (all left : List Lexeme) (low high : ℕ) → TokensStand low (token.entry ∷ left) high → AreHeldAround all offset dot taken self.old.piece.items (token.entry ∷ left) → AreHeldAround all offset dot now self.new.piece.items left) }
    {
        if is_in_front(&token, offset) {
            self.push(token)?;
            return Ok(taken);
        }
        if !is_behind(&token, offset) {
            return Ok(taken);
        }
        if !taken {
            self.push(placeholder(dot))?;
        }
        self.push(token)?;
        Ok(true)
    }

    /// Records the lexical error that the token is, if it is one.
    fn note(&mut self, token: &Token<'_>) -> Result<(), AllocError>
        ensures { OnOk result (IsNoted token.now self.old self.new) }
    {
        if let Some(fault) = fault_of_token(token) {
            self.token_faults.push(fault)?;
        }
        Ok(())
    }

    /// Ends the piece, at a semicolon or at the end of the text, and returns the command that it is, if it is one.
    pub(crate) fn end_piece(&mut self) -> Result<Option<Command>, AllocError>
        ensures all { IfOk result (λ command. (front : List Lexeme) (done : List CommandTree) → AreRead front done self.old → AreAllRead (front ++ self.old.piece.items) (done ++ own_of command) self.new) }
        ensures read { IfOk result (λ command. (front : List Lexeme) (done : List CommandTree) (t : Lexeme) → is_semicolon t ≡ true → AreRead front done self.old → AreRead (front ++ (self.old.piece.items ++ t ∷ [])) (done ++ own_of command) self.new) }
        ensures own { IfOk result (λ command. IsOwnOf self.old.piece.items (own_of command)) }
        ensures none_left { OnOk result (self.new.piece.items ≡ []) }
    {
        if self.piece.is_empty() {
            return Ok(None);
        }
        let found = match read_piece(self.alloc, &self.piece)? {
            Piece::Command(command) => Some(command),
            Piece::Fault(fault) => {
                self.piece_faults.push(fault)?;
                None
            }
            Piece::Spoiled => None,
        };
        self.piece.clear();
        Ok(found)
    }

    /// Takes out the diagnostics of all tokens, followed by those of pieces.
    pub(crate) fn take_faults(&mut self) -> Result<Vec<Fault>, AllocError>
        ensures faults { IfOk result (λ faults. map fault_of faults.items ≡ map fault_of self.old.token_faults.items ++ map fault_of self.old.piece_faults.items) }
        ensures none_left { OnOk result ((self.new.token_faults.items ≡ []) × (self.new.piece_faults.items ≡ [])) }
        ensures piece { self.new.piece ≡ self.old.piece }
    {
        let mut faults = mem::replace(&mut self.token_faults, Vec::new(self.alloc));
        faults.append(&mut self.piece_faults)?;
        Ok(faults)
    }
}

impl<'t> Collector<'t> {
    fn new(alloc: Global) -> Collector<'t>
        ensures { (all : List Lexeme) → AreCollected all result all }
    {
        Collector {
            reader: Reader::new(alloc),
            commands: Vec::new(alloc),
        }
    }

    /// Reads the next token of the text.
    fn take(&mut self, token: Token<'t>) -> Result<(), AllocError>
        ensures { OnOk result ((all left : List Lexeme) → AreCollected all self.old (token.entry ∷ left) → AreCollected all self.new left) }
    {
        if is_semicolon(&token) {
            let command = self.reader.end_piece()?;
            return self.keep(command);
        }
        self.reader.push(token)
    }

    /// Ends the last piece of the text.
    fn end_piece(&mut self) -> Result<(), AllocError>
        ensures { OnOk result ((all : List Lexeme) → AreCollected all self.old [] → AreAllRead all (map command_of self.new.commands.items) self.new.reader) }
    {
        let command = self.reader.end_piece()?;
        self.keep(command)
    }

    /// Keeps the command of a piece, if it is one.
    fn keep(&mut self, command: Option<Command>) -> Result<(), AllocError>
        ensures reader { self.new.reader ≡ self.old.reader }
        ensures kept { OnOk result (map command_of self.new.commands.items ≡ map command_of self.old.commands.items ++ own_of command) }
    {
        if let Some(command) = command {
            self.commands.push(command)?;
        }
        Ok(())
    }
}

fn read_piece(alloc: Global, piece: &[Token<'_>]) -> Result<Piece, AllocError>
    requires { 0 < length piece.now }
    ensures command { IfOk result (IsCommandRead piece.now) }
    ensures fault { IfOk result (λ p. PieceFault piece.now (fault_read p)) }
{
    let first = piece[0].span();
    let last = piece[piece.len() - 1].span();
    match parse(alloc, piece) {
        Ok(command) => Ok(Piece::Command(command)),
        Err(ParseFault::TooManyTokens) => Ok(Piece::Fault(Fault {
            code: "L2",
            span: Span {
                start: first.start,
                end: last.end,
            },
        })),
        Err(ParseFault::BadToken) => Ok(Piece::Spoiled),
        Err(ParseFault::WrongToken(k)) => Ok(Piece::Fault(Fault {
            code: "P1",
            span: piece[k].span(),
        })),
        Err(ParseFault::WrongEnd) => Ok(Piece::Fault(Fault {
            code: "P2",
            span: last,
        })),
        Err(ParseFault::Memory) => Err(AllocError),
    }
}

/// Returns the lexical error that a token is, if it is one.
fn fault_of_token(token: &Token<'_>) -> Option<Fault>
    ensures { option_map fault_of result ≡ fault_of_token token.now }
{
    let span = token.span();
    match token.kind() {
        Kind::BadCharacter => Some(Fault { code: "B1", span }),
        Kind::BadComment => Some(Fault { code: "B2", span }),
        _ => None,
    }
}
