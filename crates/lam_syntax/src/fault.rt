//! Why a list of tokens cannot be parsed.

/// Why a list of tokens cannot be parsed as a command.
#[derive(Clone, Copy, Debug, PartialEq, Eq)]
pub enum ParseFault {
    /// There are more than 2,000 tokens. This is checked first.
    TooManyTokens,
    /// Some token is a stray character or an unclosed comment. This is checked next.
    BadToken,
    /// The token at this index does not fit: some command starts with the tokens before it, but none starts with the
    /// tokens up to and including it.
    WrongToken(usize),
    /// Some command starts with these tokens, but they are not a complete one.
    WrongEnd,
    /// Allocation failed. The tokens are not too many, and none is bad, since those checks do not allocate.
    Memory,
}
