//! Highlighting of printed text.
ghost use Rattle.std.specs.Prelude.{◌≡◌};
ghost use Rattle.lam_check.specs.Paints.{brush, rest};

/// Whether the output is coloured.
#[derive(Clone, Copy, Debug, PartialEq, Eq)]
pub enum Paint {
    Plain,
    /// With ANSI escape sequences.
    Colours,
}

impl Paint {
    /// The sequence that starts highlighted text.
    pub fn brush(self) -> &'static str
        ensures { result.now ≡ brush self }
    {
        match self {
            Paint::Plain => "",
            Paint::Colours => "\x1b[1;31m",
        }
    }

    /// The sequence that ends it.
    pub fn rest(self) -> &'static str
        ensures { result.now ≡ rest self }
    {
        match self {
            Paint::Plain => "",
            Paint::Colours => "\x1b[0m",
        }
    }
}
