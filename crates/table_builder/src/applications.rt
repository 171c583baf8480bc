// Applying a symbol: A lines.
ghost use Rattle.std.specs.Prelude.{◌≡◌, ◌+◌, ◌*◌, ◌<◌, ◌≤◌};
ghost use Rattle.table_builder.specs.Nodes.{made};
ghost use Rattle.table_builder.specs.Symbols.{insert_application};

use super::arguments::{all_there, application_info, applied_kind};
use super::node_info::{Counts, NodeRecord};
use super::nodes::add_node;
use line_parser::lines::Nodes;
use memory::widen;
use node_table::layout;
use outcomes::refusals::Reason;
use sheet_format::limits;

// A symbol and its arguments: the first `count` of the four nodes.
pub fn insert_application(t: &mut [u32], k: Counts, f: u32, ns: Nodes) -> Result<Counts, Reason>
    requires { ns.count ≤ 4 }
    ensures { made t.new result ≡ insert_application t.old k f ns.count ns.a ns.b ns.c ns.d }
{
    if limits::MAX_NODES <= k.nodes {
        return Err(Reason::TooMany);
    }
    if k.symbols <= f {
        return Err(Reason::Unknown);
    }
    let args = [ns.a, ns.b, ns.c, ns.d];
    let n = widen(ns.count);
    if all_there(k.nodes, &args[..n]) {
        let info = application_info(t, f, &args[..n]);
        let head = applied_kind(t, f) + layout::CHILD_UNIT * ns.count;
        return add_node(
            t,
            k,
            NodeRecord {
                head,
                label: f,
                first: ns.a,
                second: ns.b,
                third: ns.c,
                fourth: ns.d,
                info,
            },
        );
    }
    Err(Reason::Unknown)
}
