// What the rows show.
ghost use Rattle.std.specs.Prelude.{length};
ghost use Rattle.rows.specs.Result.{Long};

use verdict::LentSets;

// The slices of n nodes that the rows show, an entry in each for each node.
#[derive(Clone, Copy)]
pub(crate) struct Shown<'a> {
    pub(crate) n: usize,
    pub(crate) kinds: &'a [u8],
    pub(crate) checks: &'a [u16],
    pub(crate) sets: LentSets<'a>,
    pub ghost long: { Long n (length kinds.now) (length checks.now) (length sets.denied.now) (length sets.granted.now) },
}
