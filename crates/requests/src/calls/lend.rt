// What is lent to the calls that follow.
use super::Held;
use crate::numbers::{Lent, Rest};

pub(crate) fn lend_sets(held: &mut Held, rest: &mut Rest) {
    held.denied = Lent::of(&rest.take_list());
    held.granted = Lent::of(&rest.take_list());
}

pub(crate) fn lend_stack(held: &mut Held, rest: &mut Rest) {
    held.height = rest.next();
    held.stack = Lent::of(&rest.take_list());
}
