// The order in force (request W-207), in the table.
ghost use Rattle.std.specs.Prelude.{◌≡◌};
ghost use Rattle.table_builder.specs.Orders.{put_order};

use memory::put;
use node_table::layout;

// 0 for the default order, 1 for `O latest`: a number, since it lies in lent memory.
pub fn put_order(t: &mut [u32], number: u32)
    ensures { t.new ≡ put_order t.old number }
{
    put(t, layout::ORDER, number);
}
