//! The uses of each binder as a linked list, in text order.
ghost use Rattle.std.specs.Prelude.{◌≡◌, ◌+◌, ◌<◌, ◌++◌, length, map, drop, IfOk, OnOk};
ghost use Rattle.lam_scope.specs.Tables.{use_tokens};
ghost use Rattle.lam_scope.specs.TableViews.{text_use};
ghost use Rattle.lam_scope.specs.inner.UseChains.{AreChains};

use crate::rows::UseRow;
use lam_token::Span;
use std::alloc::{AllocError, Global};

/// The chains of the uses of some binders. A link is the number of uses from the target to the last use, both included, and 0 is
/// the end: so chains are built from the last use to the first, each use prepended, with no vector per binder.
#[derive(Drop)]
pub(crate) struct UseChains {
    /// The first use of each binder.
    pub(crate) firsts: Vec<usize>,
    /// The link from each use to the next in its chain, indexed from the last use.
    pub(crate) nexts: Vec<usize>,
}

/// Returns the chains of the uses of the first `binders` binders. Other uses are in no chain.
pub(crate) fn chains_of(
    alloc: Global,
    binders: usize,
    uses: &[UseRow],
) -> Result<UseChains, AllocError>
    ensures binders { IfOk result (λ c. length c.firsts.items ≡ binders) }
    ensures chains { IfOk result (λ c. AreChains c.firsts.items c.nexts.items uses.now uses.now) }
{
    let mut firsts = Vec::new(alloc);
    firsts.resize(binders, 0)?;
    let nexts = Vec::with_capacity(alloc, uses.len())?;
    let mut chains = UseChains { firsts, nexts };
    for i in 0..uses.len() {
        chain_use(&mut chains, uses, uses.len() - 1 - i)?;
    }
    Ok(chains)
}

/// Prepends the use at that index to the chain of its binder.
fn chain_use(chains: &mut UseChains, uses: &[UseRow], index: usize) -> Result<(), AllocError>
    requires index { length chains.old.nexts.items + index + 1 ≡ length uses.now }
    requires later { AreChains chains.old.firsts.items chains.old.nexts.items uses.now (drop (index + 1) uses.now) }
    ensures binders { OnOk result (length chains.new.firsts.items ≡ length chains.old.firsts.items) }
    ensures uses { OnOk result (length chains.new.nexts.items ≡ length chains.old.nexts.items + 1) }
    ensures chains { OnOk result (AreChains chains.new.firsts.items chains.new.nexts.items uses.now (drop index uses.now)) }
{
    let used = &uses[index];
    let Some(bound) = used.bound else {
        chains.nexts.push(0)?;
        return Ok(());
    };
    let binder = bound.binder;
    if binder.0 < chains.firsts.len() {
        chains.nexts.push(chains.firsts[binder.0])?;
        chains.firsts[binder.0] = chains.nexts.len();
    } else {
        chains.nexts.push(0)?;
    }
    Ok(())
}

/// Appends the tokens of the uses of a binder.
pub(crate) fn push_tokens(
    tokens: &mut Vec<Span>,
    chains: &UseChains,
    uses: &[UseRow],
    binder: usize,
) -> Result<(), AllocError>
    requires binder { binder < length chains.now.firsts.items }
    requires chains { AreChains chains.now.firsts.items chains.now.nexts.items uses.now uses.now }
    ensures { OnOk result (tokens.new.items ≡ tokens.old.items ++ use_tokens binder (map text_use uses.now)) }
{
    let mut left = chains.firsts[binder];
    while left > 0 {
        let used = &uses[uses.len() - left];
        tokens.push(used.token)?;
        left = chains.nexts[left - 1];
    }
    Ok(())
}
