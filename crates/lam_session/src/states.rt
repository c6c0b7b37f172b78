//! The lifecycle and the configuration of a session.
ghost use Rattle.std.specs.Prelude.{◌≡◌};
ghost use Rattle.lam_session.specs.State.{dialect_of, ended_status};

use lam_rules::Dialect;

/// The lifecycle state of a session (LSP 3.17, Server lifecycle).
#[derive(Clone, Copy)]
pub enum Lifecycle {
    /// Before `initialize`.
    Fresh,
    /// Between `initialize` and `shutdown`.
    Running,
    /// After `shutdown`.
    Down,
    /// After `exit`, with the exit status of the program.
    Over(u8),
}

impl Lifecycle {
    /// Returns the exit status of the program, after `exit`.
    pub fn ended(self) -> Option<u8>
        ensures { result ≡ ended_status self }
    {
        match self {
            Lifecycle::Over(status) => Some(status),
            _ => None,
        }
    }
}

/// The configuration of the program: the dialect of the subtyping rules.
#[derive(Clone, Copy)]
pub struct Config {
    dialect: Dialect,
}

impl Config {
    /// A configuration with this dialect.
    pub fn new(dialect: Dialect) -> Config
        ensures { dialect_of result ≡ dialect }
    {
        Config { dialect }
    }

    /// Returns the dialect.
    pub fn dialect(self) -> Dialect
        ensures { result ≡ dialect_of self }
    {
        self.dialect
    }
}
