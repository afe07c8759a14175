// The reader's answers: the graph as rows of the text, or the refusal.
ghost use Rattle.std.specs.Prelude.{◌<◌};

use super::graphs::{EDGES, NODES, Slices};
use super::numbers::read_numbers;
use super::show::Out;
use graph::{Edge, EdgePlaces, GraphPlaces, Node, NodePlaces, Size};

// By hand and no Display, since only rows of this program show a set so.
fn print_set(out: &mut Out, bits: u64) {
    let mut some = false;
    for p in 0..64u64 {
        if (bits >> p) % 2 == 1 {
            if some {
                out.print(b" ");
            }
            out.print_number(p);
            some = true;
        }
    }
}

fn print_node(out: &mut Out, i: usize, node: Node) {
    out.print(b"N");
    out.print_after_comma(i);
    match node.kind {
        graph::KIND_CALL => out.print(b",C,"),
        graph::KIND_RETURN => out.print(b",R,"),
        _ => out.print(b",K,"),
    }
    if node.kind == graph::KIND_CHECK {
        out.print_number(node.check as u64);
    }
    out.print(b",");
    if node.privileged == graph::MARKED {
        out.print(b"P");
    }
    if node.entry == graph::MARKED {
        out.print(b"E");
    }
    out.print(b",");
    print_set(out, node.grants);
    out.print(b"\r\n");
}

fn print_edge(out: &mut Out, edge: Edge) {
    out.print(b"E");
    out.print_after_comma(edge.from as usize);
    out.print_after_comma(edge.to as usize);
    match edge.way {
        graph::CALL => out.print(b",C,,\r\n"),
        _ => out.print(b",T,,\r\n"),
    }
}

fn print_graph(out: &mut Out, size: Size, slices: &Slices) {
    out.print(b"G");
    out.print_after_comma(size.k);
    out.print_after_comma(size.n);
    out.print_after_comma(size.m);
    out.print(b",,\r\n");
    for i in 0..size.n.min(NODES) {
        print_node(out, i, slices.node(i));
    }
    for e in 0..size.m.min(EDGES) {
        print_edge(out, slices.edge(e));
    }
}

// Reads a text into slices of these lengths, in the order of the call.
fn answer_lent(out: &mut Out, text: &[u8], long: [usize; 8]) {
    let mut slices = Slices::blank();
    let reading = text::read(
        text,
        &mut GraphPlaces {
            nodes: NodePlaces {
                kinds: &mut slices.kinds.places[..long[0].min(NODES)],
                checks: &mut slices.checks.places[..long[1].min(NODES)],
                privileged: &mut slices.privileged.places[..long[2].min(NODES)],
                entries: &mut slices.entries.places[..long[3].min(NODES)],
                grants: &mut slices.grants.places[..long[4].min(NODES)],
            },
            edges: EdgePlaces {
                froms: &mut slices.froms.places[..long[5].min(EDGES)],
                tos: &mut slices.tos.places[..long[6].min(EDGES)],
                ways: &mut slices.ways.places[..long[7].min(EDGES)],
            },
        },
    );
    let (n, m) = match reading {
        Ok(size) => {
            print_graph(out, size, &slices);
            (size.n, size.m)
        }
        Err(why) => {
            out.print_refusal(why);
            (0, 0)
        }
    };
    out.print_unless_kept(slices.are_kept(n, m));
}

// Answers T.
pub(crate) fn answer_text(out: &mut Out, text: &[u8]) {
    let n = graph::MOST_NODES;
    let m = graph::MOST_EDGES;
    answer_lent(out, text, [n, n, n, n, n, m, m, m]);
}

// What stands after so many spaces.
fn after_spaces(bytes: &[u8], spaces: usize) -> &[u8] {
    let mut rest = bytes;
    for _ in 0..spaces {
        let Some(space) = rest.iter().position(|&b| b == b' ') else {
            return &[];
        };
        rest = &rest[space + 1..];
    }
    rest
}

// Answers L.
pub(crate) fn answer_lengths(out: &mut Out, bytes: &[u8]) {
    let mut long = [0usize; 8];
    read_numbers(&mut long, bytes);
    answer_lent(out, after_spaces(bytes, 8), long);
}
