//! The text of a list of nodes.
ghost use Rattle.std.specs.Fmt.{DisplaysOnOk};
ghost use Rattle.indexset_core.specs.Text.{node_shown};

use std::fmt;

/// Writes the items of a node in brackets, as in `[0, 2]`.
///
/// A space precedes the bracket unless the node is the first.
pub fn write_node<T: fmt::Display, W: fmt::Write>(
    f: &mut fmt::Formatter<W>,
    is_first: bool,
    items: &[T],
) -> fmt::Result
    ensures { DisplaysOnOk W.write_str_gives f.old result
        (node_shown T.output is_first items.now) f.new }
{
    f.write_str(if is_first { "[" } else { " [" })?;
    let mut is_first_item = true;
    for item in items {
        if !is_first_item {
            f.write_str(", ")?;
        }
        is_first_item = false;
        fmt::Display::fmt(item, f)?;
    }
    f.write_str("]")
}
