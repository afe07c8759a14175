// Calls on a graph, by numbers. What a call lends or writes is kept for those after it.
mod inspect;
mod lend;
mod print;
mod ruling;
mod solve;
mod step;

use super::graphs::{NODES, Slices};
use super::numbers::{Lent, Rest, read_numbers};
use super::show::Out;
use graph::{LentGraph, Size};
use verdict::LentSets;

// What was last lent: the two sets of every node, and the stack with its height.
#[derive(Drop)]
pub(crate) struct Held {
    denied: Lent<u64, NODES>,
    granted: Lent<u64, NODES>,
    stack: Lent<u16, NODES>,
    height: usize,
}

impl Held {
    fn nothing() -> Held {
        Held {
            denied: Lent::blank(0),
            granted: Lent::blank(0),
            stack: Lent::blank(0),
            height: 0,
        }
    }

    fn sets(&self) -> LentSets<'_> {
        LentSets {
            denied: self.denied.slice(),
            granted: self.granted.slice(),
        }
    }
}

// Calls are numbers in a request, and an enum of them would be made here to be matched here. What is no call is passed over.
fn answer_call(out: &mut Out, held: &mut Held, rest: &mut Rest, graph: &LentGraph) {
    match rest.next() {
        0 => ruling::check(out, graph),
        1 => solve::solve(out, held, rest, graph),
        2 => ruling::verdict(out, held, rest.next(), graph),
        3 => inspect::full(out, held, rest.next(), graph),
        4 => inspect::quick(out, held, rest.next(), graph),
        5 => step::step(out, held, rest.next(), graph),
        6 => lend::lend_sets(held, rest),
        7 => lend::lend_stack(held, rest),
        8 => print::print_result(out, held, rest.next(), graph),
        9 => print::print_refusal(out, rest),
        _ => {}
    }
}

// Each call takes a number at least, so that there are no more calls than numbers.
fn answer_all(out: &mut Out, rest: &mut Rest, graph: &LentGraph) {
    let mut held = Held::nothing();
    for _ in 0..rest.numbers.len() {
        if rest.numbers.is_empty() {
            return;
        }
        answer_call(out, &mut held, rest, graph);
    }
}

// A request's 99,999 bytes hold at most so many numbers.
const MOST_NUMBERS: usize = 50000;

// Answers C.
pub(crate) fn answer_calls(out: &mut Out, bytes: &[u8]) {
    let mut numbers = [0usize; MOST_NUMBERS];
    let count = read_numbers(&mut numbers, bytes).min(MOST_NUMBERS);
    let mut rest = Rest {
        numbers: &numbers[..count],
    };
    let size = Size {
        k: rest.next(),
        n: rest.next(),
        m: rest.next(),
    };
    let slices = Slices::take(&mut rest);
    answer_all(out, &mut rest, &slices.graph(size));
}
