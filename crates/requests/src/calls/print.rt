// The result, or a refusal, as the bytes that the rows' printer stores in a lent buffer.
use super::Held;
use crate::numbers::{Entry, Rest, keeps};
use crate::show::Out;
use graph::{LentGraph, Refusal};

// How many places a buffer may have.
const MOST_PLACES: usize = 400000;

// Prints the bytes that were written to a buffer, and says so if another place was.
fn print_written(out: &mut Out, written: Result<usize, Refusal>, buffer: &[u8]) {
    let kept_from = match written {
        Ok(count) => {
            let count = count.min(buffer.len());
            out.print(&buffer[..count]);
            count
        }
        Err(why) => {
            out.print_refusal(why);
            0
        }
    };
    out.print_unless_kept(keeps(buffer, kept_from));
}

// Prints the result by the first `long` places of a buffer.
fn result_to(out: &mut Out, buffer: &mut [u8], long: usize, held: &Held, graph: &LentGraph) {
    let n = long.min(buffer.len());
    let lent = &mut buffer[..n];
    let nodes = &graph.nodes;
    let sets = held.sets();
    let written = rows::write_result(lent, graph.size.n, nodes.kinds, nodes.checks, &sets);
    print_written(out, written, lent);
}

pub(crate) fn print_result(out: &mut Out, held: &Held, long: usize, graph: &LentGraph) {
    let mut buffer = [u8::BLANK; MOST_PLACES];
    result_to(out, &mut buffer, long, held, graph);
}

// The refusal of a number, with the place where it names one. A match, as `Refusal::number` is: a case with a place in it has no discriminant.
fn numbered(number: usize, place: usize) -> Refusal {
    match number {
        1 => Refusal::Shape,
        2 => Refusal::Node(place),
        3 => Refusal::Edge(place),
        4 => Refusal::NoEntry,
        5 => Refusal::Asked,
        6 => Refusal::Stack,
        7 => Refusal::NotACheck,
        8 => Refusal::NoRule,
        9 => Refusal::Denied,
        10 => Refusal::NoRoom,
        11 => Refusal::Row(place),
        _ => Refusal::TooLong,
    }
}

fn refusal_to(out: &mut Out, buffer: &mut [u8], long: usize, why: Refusal) {
    let n = long.min(buffer.len());
    let lent = &mut buffer[..n];
    let written = refusals::write_refusal(lent, why);
    print_written(out, written, lent);
}

pub(crate) fn print_refusal(out: &mut Out, rest: &mut Rest) {
    let why = numbered(rest.next(), rest.next());
    let long = rest.next();
    let mut buffer = [u8::BLANK; MOST_PLACES];
    refusal_to(out, &mut buffer, long, why);
}
