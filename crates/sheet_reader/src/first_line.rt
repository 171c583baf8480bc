// The first line of a sheet, which may give the order (request W-207).
ghost use Rattle.std.specs.Prelude.{◌≡◌};
ghost use Rattle.sheet_reader.specs.FirstLine.{begins_with_order, started, read_order};

use node_table::layout;
use table_builder::orders::put_order;

// How many bytes the line `O latest` has, with its LF.
const ORDER_LINE_BYTES: usize = 9;

// Where the lines to be read begin, and the number of the first of them.
#[derive(Clone, Copy)]
pub struct Start {
    pub at: usize,
    pub line: u32,
}

// Whether the sheet begins with the line `O latest`.
pub fn begins_with_order(sheet: &[u8]) -> bool
    ensures { result ≡ begins_with_order sheet.now }
{
    sheet.starts_with(b"O\tlatest\n")
}

// The order in force goes into the table, and the lines to be read begin behind the line that gives it.
pub fn read_order(sheet: &[u8], t: &mut [u32]) -> Start
    ensures { started t.new result ≡ read_order sheet.now t.old }
{
    if begins_with_order(sheet) {
        put_order(t, layout::FORMER_ORDER);
        return Start {
            at: ORDER_LINE_BYTES,
            line: 2,
        };
    }
    put_order(t, layout::DEFAULT_ORDER);
    Start { at: 0, line: 1 }
}
