// The solver, into slices that hold what every place holds before a call.
use super::Held;
use crate::graphs::{EDGES, NODES};
use crate::numbers::{Lent, Rest};
use crate::show::Out;
use graph::LentGraph;
use solver::SetPlaces;

// What the first two slices hold after this is lent to the calls that follow.
pub(crate) fn solve(out: &mut Out, held: &mut Held, rest: &mut Rest, graph: &LentGraph) {
    let a = rest.next();
    let b = rest.next();
    let c = rest.next();
    let d = rest.next();
    let mut denied: Lent<u64, NODES> = Lent::blank(a);
    let mut granted: Lent<u64, NODES> = Lent::blank(b);
    let mut may: Lent<u64, EDGES> = Lent::blank(c);
    let mut sure: Lent<u64, EDGES> = Lent::blank(d);
    let solved = solver::solve(
        graph,
        &mut SetPlaces {
            denied: &mut denied.places[..a.min(NODES)],
            granted: &mut granted.places[..b.min(NODES)],
            may: &mut may.places[..c.min(EDGES)],
            sure: &mut sure.places[..d.min(EDGES)],
        },
    );
    match solved {
        Ok(()) => {
            out.print(b"solved\n");
            out.print_entries(denied.slice());
            out.print_entries(granted.slice());
            out.print_entries(may.slice());
            out.print_entries(sure.slice());
        }
        Err(why) => {
            out.print_refusal(why);
            let kept = denied.is_kept(0) && granted.is_kept(0) && may.is_kept(0) && sure.is_kept(0);
            out.print_unless_kept(kept);
        }
    }
    held.denied = denied;
    held.granted = granted;
}
