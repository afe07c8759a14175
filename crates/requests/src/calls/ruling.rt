// The graph's check, and the verdict at a node.
use super::Held;
use crate::show::Out;
use graph::LentGraph;

pub(crate) fn check(out: &mut Out, graph: &LentGraph) {
    match judge::check(graph) {
        Ok(()) => out.print(b"accepted\n"),
        Err(why) => out.print_refusal(why),
    }
}

pub(crate) fn verdict(out: &mut Out, held: &Held, node: usize, graph: &LentGraph) {
    match verdict::verdict(graph, &held.sets(), node) {
        Ok(finding) => out.print_line(b"verdict ", finding.number()),
        Err(why) => out.print_refusal(why),
    }
}
