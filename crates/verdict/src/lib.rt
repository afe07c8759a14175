// What the denied and granted sets say of a check: it is needed, always passes, always fails, or is never reached.
#![tactic(auto)]

ghost use Rattle.std.specs.Prelude.{◌≡◌, ◌<◌, length, get_or};
ghost use Rattle.truth.specs.Truth.{Says};
ghost use Rattle.sets.specs.Sets.{has};
ghost use Rattle.graph.specs.Graph.{verdict_of};
ghost use Rattle.graph.specs.Lent.{lent};
ghost use Rattle.verdict.specs.Verdict.{verdict_number, SetsLong, Rules};

use graph::{LentGraph, Refusal};
use sets::Set;

// What the two sets say of a check, by the verdict's number in the rules.
#[derive(Clone, Copy, PartialEq, Eq)]
pub enum Finding {
    Needed = 0,
    AlwaysPasses = 1,
    AlwaysFails = 2,
    NeverReached = 3,
}

impl Finding {
    pub fn number(self) -> usize
        ensures { result ≡ verdict_number self }
    {
        self as usize
    }
}

// The slices of denied and granted sets that a caller lends to be read: one set in each for a node.
#[derive(Clone, Copy)]
pub struct LentSets<'a> {
    pub denied: &'a [u64],
    pub granted: &'a [u64],
}

// The verdict where the check's permission is in the denied set or not, and in the granted set or not.
pub fn judge_check(denied: bool, granted: bool) -> Finding
    ensures { verdict_number result ≡ verdict_of denied granted }
{
    match (denied, granted) {
        (false, false) => Finding::Needed,
        (false, true) => Finding::AlwaysPasses,
        (true, false) => Finding::AlwaysFails,
        (true, true) => Finding::NeverReached,
    }
}

// Whether the denied and granted slices are as long as they have to be, by their lengths.
pub fn sets_long(n: usize, denied: usize, granted: usize) -> bool
    ensures { Says (SetsLong n denied granted) result }
{
    denied == n && granted == n
}

// The verdict at a check of an accepted graph.
fn rule(sets: &LentSets, check: u16, node: usize) -> Finding
    requires { (node < length sets.now.denied.now) × (node < length sets.now.granted.now) }
    ensures { verdict_number result ≡ verdict_of (has (get_or sets.now.denied.now node 0) check) (has (get_or sets.now.granted.now node 0) check) }
{
    let p = check as usize;
    let fails = Set {
        bits: sets.denied[node],
    };
    let passes = Set {
        bits: sets.granted[node],
    };
    judge_check(fails.has(p), passes.has(p))
}

// What the denied and granted sets, taken as they are, say of the check at a node.
pub fn verdict(graph: &LentGraph, sets: &LentSets, node: usize) -> Result<Finding, Refusal>
    ensures { Rules (lent graph.now) sets.now.denied.now sets.now.granted.now node result }
{
    let n = graph.size.n;
    if !sets_long(n, sets.denied.len(), sets.granted.len()) {
        return Err(Refusal::Shape);
    }
    judge::check(graph)?;
    if n <= node {
        return Err(Refusal::Asked);
    }
    let is_check = graph.nodes.kinds[node] == graph::KIND_CHECK;
    if !is_check {
        return Err(Refusal::NotACheck);
    }
    Ok(rule(sets, graph.nodes.checks[node], node))
}
