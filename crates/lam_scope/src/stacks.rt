//! Stacks: lists that grow at their end.
ghost use Rattle.std.specs.Prelude.{◌≡◌, ◌<◌, ◌-◌, length, slice_index_or};

/// Returns the item with this index, counted from the top.
pub(crate) fn item_under<'s, T>(stack: &'s [T], index: usize) -> &'s T
    requires { index < length stack.now }
    ensures { (d : T) → result.now ≡ slice_index_or stack.now (length stack.now - 1 - index) d }
{
    &stack[stack.len() - 1 - index]
}
