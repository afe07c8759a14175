// A step on the stack that was lent.
use super::Held;
use crate::show::Out;
use graph::LentGraph;

// Answers the new height, and prints it and then the stack. A refusal leaves the height as it was.
fn step_on(
    out: &mut Out,
    stack: &mut [u16],
    height: usize,
    next: usize,
    graph: &LentGraph,
) -> usize {
    let answer = machine::step(graph, stack, height, next);
    let height = match answer {
        Ok(new) => {
            out.print_line(b"height ", new);
            new
        }
        Err(why) => {
            out.print_refusal(why);
            height
        }
    };
    out.print_entries(stack);
    height
}

// The prover covers no part of an array that lies in a struct behind a reference, so that the array is handed here whole.
fn step_lent(
    out: &mut Out,
    places: &mut [u16],
    long: usize,
    height: usize,
    next: usize,
    graph: &LentGraph,
) -> usize {
    let n = long.min(places.len());
    step_on(out, &mut places[..n], height, next, graph)
}

// The new height is kept.
pub(crate) fn step(out: &mut Out, held: &mut Held, next: usize, graph: &LentGraph) {
    let long = held.stack.long;
    let height = held.height;
    let stack = &mut held.stack;
    held.height = step_lent(out, &mut stack.places, long, height, next, graph);
}
