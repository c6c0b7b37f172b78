//! The piece of an analysed text that a request is about.
ghost use Rattle.lam_query.specs.Analyses.{IsAnalysisOf};
ghost use Rattle.lam_query.specs.inner.Around.{IsPieceAround};

use crate::analyses::Analysis;
use crate::rows::row_around;

/// A piece and its position in the text.
#[derive(Clone, Copy)]
pub(crate) struct PieceAt<'t> {
    /// The text of the piece, including the semicolon that ends it.
    pub(crate) text: &'t str,
    /// The byte offset at which it starts in the whole text.
    pub(crate) start: usize,
    /// The index of its row.
    pub(crate) number: usize,
}

impl Analysis {
    /// Returns the piece around a byte offset. The last piece covers every offset from its start on.
    pub(crate) fn piece_around<'t>(&self, text: &'t str, offset: usize) -> PieceAt<'t>
        requires { IsAnalysisOf text.now self.now }
        ensures { IsPieceAround text.now offset self.now result }
    {
        let Some(place) = row_around(&self.rows, offset) else {
            unreachable!();
        };
        let end = place.start + self.rows[place.number].end;
        PieceAt {
            text: &text[place.start..end],
            start: place.start,
            number: place.number,
        }
    }
}
