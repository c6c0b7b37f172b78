//! Lists of tokens, all stored in one vector.
ghost use Rattle.std.specs.Prelude.{◌≡◌, ◌+◌, ◌<◌, [], length, map, drop, slice_index_or, IfOk};
ghost use Rattle.lam_scope.specs.Slices.{first_start, AreInOrder, AreInOrder-prop};

use crate::rows::UseRow;
use crate::use_chains::{UseChains, push_tokens};
use lam_token::Span;
use std::alloc::{AllocError, Global};

/// Lists of tokens, with zero-based indices.
#[derive(Drop)]
pub(crate) struct TokenLists {
    /// The tokens of all lists, one list after another.
    tokens: Vec<Span>,
    /// Where each list starts in `tokens`. It ends where the next one starts, or at the end.
    starts: Vec<usize>,
    ghost starts_in_order: { AreInOrder (λ s. s) (length tokens.items) starts.items } by { AreInOrder-prop (λ s. s) (length tokens.items) starts.items },
}

impl TokenLists {
    ghost use Rattle.lam_scope.specs.TableViews.{text_use, list_start, lists_in};
    ghost use Rattle.lam_scope.specs.Tables.{tokens_by};
    ghost use Rattle.lam_scope.specs.inner.UseChains.{AreChains};

    /// Makes the list of the tokens of the uses of each binder that has a chain, in text order.
    pub(crate) fn of_chains(
        alloc: Global,
        chains: &UseChains,
        uses: &[UseRow],
    ) -> Result<TokenLists, AllocError>
        requires { AreChains chains.now.firsts.items chains.now.nexts.items uses.now uses.now }
        ensures { IfOk result (λ l. lists_in l ≡ tokens_by 0 (length chains.now.firsts.items) (map text_use uses.now)) }
    {
        let mut tokens = Vec::with_capacity(alloc, uses.len())?;
        let mut starts = Vec::with_capacity(alloc, chains.firsts.len())?;
        for binder in 0..chains.firsts.len() {
            starts.push(tokens.len())?;
            push_tokens(&mut tokens, chains, uses, binder)?;
        }
        Ok(TokenLists { tokens, starts })
    }

    /// Returns the list with that index.
    #[tactic(auto, using(crate::proofs::TokenLists::listing))]
    pub(crate) fn get(&self, number: usize) -> &[Span]
        ensures { result.now ≡ slice_index_or (lists_in self.now) number [] }
    {
        match self.starts.get(number) {
            Some(start) => &self.tokens[*start..self.end(number)],
            None => &[],
        }
    }

    /// Returns where the list with that index ends.
    #[tactic(auto, using(crate::proofs::TokenLists::listing))]
    fn end(&self, number: usize) -> usize
        requires { number < length self.now.starts.items }
        ensures { result ≡ first_start list_start (drop (number + 1) self.now.starts.items) (length self.now.tokens.items) }
    {
        match self.starts.get(number + 1) {
            Some(start) => *start,
            None => self.tokens.len(),
        }
    }
}
