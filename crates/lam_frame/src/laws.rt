//! Laws of frames for all inputs, each stated as the contract of a function that does nothing.

ghost use Rattle.std.specs.Prelude.{List, ℕ};
ghost use Rattle.lam_frame.specs.Laws.{HasReading, IsReadBack, OpenSettlesNothing, ReadsOneWay};

/// Every input splits into frames and a rest.
pub fn some_reading()
    ensures { (bytes : List ℕ) → HasReading bytes }
{}

/// An input splits into frames and a rest in only one way.
pub fn one_reading()
    ensures { (bytes : List ℕ) → ReadsOneWay bytes }
{}

/// A reader that pulls only while the bytes are open pulls only when it must.
pub fn open_settles_nothing()
    ensures { (bytes : List ℕ) → OpenSettlesNothing bytes }
{}

/// A reader returns what `write_frame` wrote.
pub fn written_is_read()
    ensures { (body : List ℕ) → IsReadBack body }
{}
