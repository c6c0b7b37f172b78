//! Access to the members of JSON objects by name.
ghost use Rattle.std.specs.Prelude.{◌≡◌, IfSome, IfNone};
ghost use Rattle.serde_json.specs.Data.{Data, Members, object, member, no_members};
ghost use Rattle.serde_json.specs.View.{view, members_view};

use serde_json::Value;
use std::collections::btree_map::Iter;

/// Returns the members of an object that has exactly the two with these names, which are given in byte order.
pub fn two_members<'v>(
    value: &'v Value,
    first: &str,
    second: &str,
) -> Option<(&'v Value, &'v Value)>
    ensures some { IfSome result (λ m. view value.now ≡ object (member first.now (view m.0.now) (member second.now (view m.1.now) no_members))) }
    ensures none { IfNone result ((x y : Data) → view value.now ≡ object (member first.now x (member second.now y no_members)) → ⊥) }
{
    let Value::Object(map) = value else {
        return None;
    };
    let mut entries = map.iter();
    let one = next_member(&mut entries, first)?;
    let other = next_member(&mut entries, second)?;
    if entries.next().is_some() {
        return None;
    }
    Some((one, other))
}

/// Returns the members of an object that has exactly the four with these names, which are given in byte order.
pub fn four_members<'v>(
    value: &'v Value,
    first: &str,
    second: &str,
    third: &str,
    fourth: &str,
) -> Option<(&'v Value, &'v Value, &'v Value, &'v Value)>
    ensures some { IfSome result (λ m. view value.now ≡ object (member first.now (view m.0.now) (member second.now (view m.1.now)
        (member third.now (view m.2.now) (member fourth.now (view m.3.now) no_members))))) }
    ensures none { IfNone result ((w x y z : Data)
        → view value.now ≡ object (member first.now w (member second.now x (member third.now y (member fourth.now z no_members)))) → ⊥) }
{
    let Value::Object(map) = value else {
        return None;
    };
    let mut entries = map.iter();
    let one = next_member(&mut entries, first)?;
    let two = next_member(&mut entries, second)?;
    let three = next_member(&mut entries, third)?;
    let four = next_member(&mut entries, fourth)?;
    if entries.next().is_some() {
        return None;
    }
    Some((one, two, three, four))
}

/// The next member, if it has this name.
fn next_member<'v>(entries: &mut Iter<'v, String, Value>, name: &str) -> Option<&'v Value>
    ensures some { IfSome result (λ v. members_view entries.old ≡ member name.now (view v.now) (members_view entries.new)) }
    ensures none { IfNone result ((x : Data) (others : Members) → members_view entries.old ≡ member name.now x others → ⊥) }
{
    let (key, value) = entries.next()?;
    if key.as_str() == name {
        Some(value)
    } else {
        None
    }
}
