//! Replies to `fullsub/derivation`.
ghost use Rattle.std.specs.Prelude.{◌≡◌, true, IfOk};
ghost use Rattle.serde_json.specs.View.{view};
ghost use Rattle.lam_text.specs.Positions.{offset_of};
ghost use Rattle.lam_session.specs.Derivations.{IsDerivationReply};
ghost use Rattle.lam_session.specs.Outgoing.{data_of};

use crate::document::Document;
use crate::outgoing::{Outgoing, replied};
use crate::values::derivation_value;
use lam_text::Position;
use serde_json::Value;
use std::alloc::{AllocError, Global};

/// Returns the reply to the request with this id: a derivation of the type of the innermost term around a position.
pub fn derivation_reply(
    alloc: Global,
    id: Value,
    document: &Document,
    position: Position,
) -> Result<Outgoing, AllocError>
    requires { document.now.analysed ≡ true }
    ensures { IfOk result (λ reply. IsDerivationReply document.now.encoding document.now.dialect document.now.text
        (offset_of document.now.encoding document.now.text position) (view id) (data_of reply)) }
{
    let derived = document.derivation(alloc, position)?;
    let value = derivation_value(alloc, document.doc(), derived)?;
    replied(alloc, id, value)
}
