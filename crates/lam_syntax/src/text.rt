//! The texts of names, labels and numerals.
ghost use Rattle.std.specs.Prelude.{◌≡◌, ◌≤◌, length, IfOk};
ghost use Rattle.lam_syntax.specs.Letters.{letters};

use std::alloc::{AllocError, Global};
use std::marker::Model;
use std::rc::RcStr;
use std::str;

/// The text of a name, a type name, a label or a numeral. Most are short, and a short text is stored inline, without an
/// allocation. Clones of a longer text share its memory.
pub struct Text {
    kept: Kept,
}

/// A separate function, so that code which drops a text calls it instead of handling both representations itself.
impl Drop for Text {
    fn drop(self) {
        let Text { kept: _ } = self;
    }
}

#[derive(Drop)]
enum Kept {
    Short(Short),
    Long(RcStr<Global>),
}

/// The largest length in bytes of a text that is stored inline.
const ROOM: usize = 15;

/// A short text, stored inline. Contracts see it as its bytes.
#[derive(Drop)]
struct Short {
    block: [u8; ROOM],
    used: u8,
}

impl Model for Short {
    ghost use Rattle.std.specs.Prelude.{◌≤◌, ℕ, List, take, IsUtf8};

    ghost Value = { List ℕ };

    ghost view = { λ s. take s.used s.block };

    ghost invariant = { λ s. (s.used ≤ 15) × ∥ IsUtf8 (take s.used s.block) ∥₁ };
}

impl Text {
    /// Creates a text with this content. Fails if allocation fails.
    pub fn new(alloc: Global, text: &str) -> Result<Text, AllocError>
        ensures { IfOk result (λ made. letters made ≡ text.now) }
    {
        if text.len() <= ROOM {
            let short = Short::new(text);
            return Ok(Text {
                kept: Kept::Short(short),
            });
        }
        let shared = RcStr::from_str(alloc, text)?;
        Ok(Text {
            kept: Kept::Long(shared),
        })
    }

    /// Returns the content of the text.
    pub fn as_str(&self) -> &str
        ensures { result.now ≡ letters self.now }
    {
        match &self.kept {
            Kept::Short(short) => short.as_str(),
            Kept::Long(shared) => shared.as_str(),
        }
    }

    /// Returns a copy of the text, which shares the memory of a long one.
    pub fn clone(&self) -> Result<Text, AllocError>
        ensures { IfOk result (λ same. letters same ≡ letters self.now) }
    {
        match &self.kept {
            Kept::Short(short) => Ok(Text {
                kept: Kept::Short(short.copied()),
            }),
            Kept::Long(shared) => {
                let other = shared.clone()?;
                Ok(Text {
                    kept: Kept::Long(other),
                })
            }
        }
    }
}

impl Short {
    fn new(text: &str) -> Short
        requires { length text.now ≤ 15 }
        ensures { result ≡ text.now }
    {
        let mut block = [0; ROOM];
        block[..text.len()].copy_from_slice(text.as_bytes());
        Short {
            block,
            used: text.len() as u8,
        }
    }

    fn copied(&self) -> Short
        ensures { result ≡ self.now }
    {
        Short {
            block: self.block,
            used: self.used,
        }
    }

    fn as_str(&self) -> &str
        ensures { result.now ≡ self.now }
    {
        let bytes = &self.block[..self.used as usize];
        // The invariant says that these bytes are UTF-8.
        unsafe { str::from_utf8_unchecked(bytes) }
    }
}
