//! Lists whose elements become JSON values one at a time.
ghost use Rattle.std.specs.Prelude.{◌≡◌, ◌++◌, map, false, string_bytes, IfOk, OnOk};
ghost use Rattle.serde_json.specs.View.{view, items_of};
ghost use Rattle.serde_json.specs.Written.{has_float, compact_text, items_text};

use serde_json::Value;
use std::alloc::{AllocError, Global};

/// How each element of a list is sent.
pub(crate) trait Shape {
    ghost use Rattle.std.specs.Prelude.{◌≡◌, false};
    ghost use Rattle.serde_json.specs.Data.{Data};
    ghost use Rattle.serde_json.specs.Written.{has_float};

    type Element;

    ghost shown: { Self → Self.Element → Data };

    /// Returns an element as a value.
    fn value_of(&self, alloc: Global, element: &Self::Element) -> Result<Value, AllocError>
        ensures { IfOk result (λ value. view value ≡ shown self.now element.now) };

    // The text of a value is known only if no number in it is a float.
    ghost plain: { (shape : Self) (element : Self.Element) → has_float (shown shape element) ≡ false };
}

/// Returns a value for each element, in order.
pub(crate) fn values_of<S: Shape>(
    alloc: Global,
    shape: &S,
    elements: &[S::Element],
) -> Result<Vec<Value>, AllocError>
    ensures { IfOk result (λ values. map view values.items ≡ map (S.shown shape.now) elements.now) }
{
    let mut values = Vec::new(alloc);
    for element in elements {
        values.push(shape.value_of(alloc, element)?)?;
    }
    Ok(values)
}

/// Appends the elements as compact JSON, with commas between them, and then the closing bracket.
pub(crate) fn write_items<S: Shape>(
    alloc: Global,
    text: &mut String,
    shape: &S,
    elements: &[S::Element],
) -> Result<(), AllocError>
    ensures { OnOk result (string_bytes text.new ≡ string_bytes text.old ++ items_text false (items_of (map (S.shown shape.now) elements.now))) }
{
    let mut separator = "";
    for element in elements {
        text.push_str(separator)?;
        let value = shape.value_of(alloc, element)?;
        write_value(alloc, text, &value)?;
        separator = ",";
    }
    text.push_str("]")
}

/// Appends a value as compact JSON.
pub(crate) fn write_value(alloc: Global, text: &mut String, value: &Value) -> Result<(), AllocError>
    requires { has_float (view value.now) ≡ false }
    ensures { OnOk result (string_bytes text.new ≡ string_bytes text.old ++ compact_text (view value.now)) }
{
    let written = value.to_string(alloc)?;
    text.push_str(&written)
}
