//! Laws of all runs of a session. Each is a theorem, which the toolchain needs as the contract of an empty function.
ghost use Rattle.std.specs.Prelude.{◌≡◌, ◌≢◌, ℕ, List, [], map, reverse, false, All, Some, Ok};
ghost use Rattle.std.specs.Str.{IsUtf8};
ghost use Rattle.serde_json.specs.Data.{Data};
ghost use Rattle.serde_json.specs.Written.{has_float};
ghost use Rattle.lam_rpc.specs.Kind.{Message, IsKindOf, HasPlainId};
ghost use Rattle.lam_text.specs.declared.units.Encoding.{Encoding};
ghost use Rattle.lam_text.specs.Edits.{text_after};
ghost use Rattle.lam_token.specs.declared.span.Span.{Span};
ghost use Rattle.lam_token.specs.Edits.{edited};
ghost use Rattle.lam_rules.specs.declared.rules.Dialect.{Dialect};
ghost use Rattle.lam_query.specs.Faults.{Fault};
ghost use Rattle.lam_query.specs.TextFaults.{AreFaults};
ghost use Rattle.lam_query.specs.Renames.{IsRenameIn};
ghost use Rattle.lam_session.specs.Diagnostics.{message_of};
ghost use Rattle.lam_session.specs.Renames.{edit_value, change_of, change_in};
ghost use Rattle.lam_session.specs.Runs.{Exchange, messages_of, AreExchanges, concerns, concerning, IsAlone, AnswerAlike, AgreeAbout, SaysNothing};
ghost use Rattle.lam_session.specs.State.{State, fresh};
ghost use Rattle.lam_session.specs.Step.{Steps};

/// Other messages do not affect the answers about a document. If all messages are left out of a run except the lifecycle messages
/// and those that name the document, the answers to these stay the same, and the document ends with the same text and version; and
/// no message that is left out publishes anything about it. So two sessions that receive the same lifecycle messages and the same
/// messages about the document answer these alike, except for which derivations are given, and leave it with the same text and
/// version.
pub fn isolation()
    ensures alone { (dialect : Dialect) (uri : List ℕ) (exchanges : List Exchange) (end : State)
        → AreExchanges (fresh dialect) exchanges end → IsAlone dialect uri exchanges end }
    ensures untold { (uri : List ℕ) (s : State) (m : Message) (sent : List Data) (next : State)
        → Steps s m sent next → concerns uri m ≡ false → SaysNothing uri sent }
    ensures both { (dialect : Dialect) (uri : List ℕ) (exchanges others : List Exchange) (end later : State)
        → messages_of (concerning uri others) ≡ messages_of (concerning uri exchanges) → AreExchanges (fresh dialect) exchanges end → AreExchanges (fresh dialect) others later
        → AgreeAbout dialect uri exchanges others end later }
{}

/// Two sessions that receive the same messages reach the same state and have sent the same values, except for which derivation of
/// a shown type was given.
pub fn one_run()
    ensures { (s end later : State) (exchanges others : List Exchange)
        → messages_of others ≡ messages_of exchanges → AreExchanges s exchanges end → AreExchanges s others later
        → AnswerAlike s exchanges others × (end ≡ later) }
{}

/// No value that is sent contains a float. The definition of compact JSON gives a float no text, so without this a frame with a
/// gap in place of the number would be allowed. The only client value that is sent back unchanged is the id of a request, and the
/// id of a request that is read from a body contains no float.
pub fn answers_have_no_floats()
    ensures sent { (s : State) (m : Message) (values : List Data) (next : State)
        → HasPlainId m → Steps s m values next → All (λ (d : Data). has_float d ≡ false) values }
    ensures ids { (body : List ℕ) (m : Message) → IsKindOf body m → HasPlainId m }
{}

/// Every diagnostic that a text can have has a message.
pub fn each_fault_has_a_message()
    ensures { (text : List ℕ) (found : List Fault) (d : Dialect) → AreFaults text found d → All (λ (f : Fault). message_of f.code ≢ []) found }
{}

/// A client that applies the edits of a rename, from the last to the first, gets the text with the old name replaced by the new
/// one: the ranges in the reply are those of the names, even after the later edits are applied.
pub fn rename_edits_apply()
    ensures made { (encoding : Encoding) (text new : List ℕ) (offset : ℕ) (spans : List Span) → IsUtf8 text → IsRenameIn text offset new (Ok spans)
        → text_after encoding text (reverse (map (change_of encoding text new) spans)) ≡ edited text spans new }
    ensures told { (encoding : Encoding) (text new : List ℕ) (span : Span) → change_in (edit_value encoding text new span) ≡ Some (change_of encoding text new span) }
{}
