//! What holds of every layout.

ghost use Rattle.qe_layout.specs.Laws.{LayoutLaws};
ghost use Rattle.qe_layout.specs.Layouts.{Knows};

use crate::layout::Layout;

/// A document is read under a layout exactly where it is laid out so, and what is written in the rows' order is read
/// again.
pub fn laid_out_is_read<L: Layout>(layout: &L)
    requires { Knows (L.reads layout.now) (L.rows layout.now) }
    ensures { LayoutLaws (L.reads layout.now) (L.rows layout.now) }
{
    let _ = layout;
}
