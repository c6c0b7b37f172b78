//! JSON objects, built member by member.
ghost use Rattle.std.specs.Prelude.{◌≡◌, IfOk};
ghost use Rattle.serde_json.specs.Data.{Data, Members, no_members, string, object, put as with_member};
ghost use Rattle.serde_json.specs.View.{view, members_view};
ghost use Rattle.lam_session.specs.Objects.{Has};

use serde_json::{Map, Value, put};
use std::alloc::{AllocError, Global};

/// A JSON object under construction. A failed allocation is reported by `finish`.
#[derive(Drop)]
pub struct Object {
    alloc: Global,
    members: Result<Map<String, Value>, AllocError>,
}

impl Object {
    /// An object without members.
    pub fn new(alloc: Global) -> Object
        ensures { Has result no_members }
    {
        Object {
            alloc,
            members: Ok(Map::new(alloc)),
        }
    }

    /// Adds a member.
    pub fn value(self, name: &str, value: Result<Value, AllocError>) -> Object
        ensures { (members : Members) (member : Data) → Has self members → IfOk value (λ v. view v ≡ member) → Has result (with_member name.now member members) }
    {
        Object {
            alloc: self.alloc,
            members: with_member(self.alloc, self.members, name, value),
        }
    }

    /// Adds a member that is a string.
    pub fn text(self, name: &str, text: &str) -> Object
        ensures { (members : Members) → Has self members → Has result (with_member name.now (string text.now) members) }
    {
        let value = Value::try_from_str(self.alloc, text);
        self.value(name, value)
    }

    /// Returns the object, or an error if an allocation failed.
    pub fn finish(self) -> Result<Value, AllocError>
        ensures { (members : Members) → Has self members → IfOk result (λ value. view value ≡ object members) }
    {
        Ok(Value::Object(self.members?))
    }
}

fn with_member(
    alloc: Global,
    members: Result<Map<String, Value>, AllocError>,
    name: &str,
    value: Result<Value, AllocError>,
) -> Result<Map<String, Value>, AllocError>
    ensures { (all : Members) (member : Data) → IfOk members (λ map. members_view map.entries ≡ all) → IfOk value (λ v. view v ≡ member)
        → IfOk result (λ map. members_view map.entries ≡ with_member name.now member all) }
{
    let value = value?;
    let mut members = members?;
    put(&mut members, alloc, name, value)?;
    Ok(members)
}
