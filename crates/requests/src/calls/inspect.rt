// The two inspections.
use super::Held;
use crate::show::Out;
use graph::{LentGraph, Refusal};
use machine::Inspection;

fn print_inspection(out: &mut Out, answer: Result<Inspection, Refusal>) {
    match answer {
        Ok(Inspection::Passes(looked)) => out.print_line(b"passes ", looked),
        Ok(Inspection::Fails(looked)) => out.print_line(b"fails ", looked),
        Err(why) => out.print_refusal(why),
    }
}

pub(crate) fn full(out: &mut Out, held: &Held, p: usize, graph: &LentGraph) {
    let answer = machine::full(graph, held.stack.slice(), held.height, p);
    print_inspection(out, answer);
}

pub(crate) fn quick(out: &mut Out, held: &Held, p: usize, graph: &LentGraph) {
    let answer = machine::quick(graph, &held.sets(), held.stack.slice(), held.height, p);
    print_inspection(out, answer);
}
