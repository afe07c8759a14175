// The inspections of a stack, and its steps.
// A stack's slice and its height stay two parameters: a height above the slice is a question, and is refused with 6.
#![tactic(auto)]

ghost use Rattle.std.specs.Prelude.{◌≡◌, ◌<◌, ◌≤◌, ℕ, List, length};
ghost use Rattle.truth.specs.Truth.{Says};
ghost use Rattle.graph.specs.Graph.{Acceptable};
ghost use Rattle.graph.specs.Lent.{lent};
ghost use Rattle.frames.specs.Frames.{StackFits};
ghost use Rattle.stacks.specs.Machine.{Inspected, stack_of, rights, rights_of, full, quick};
ghost use Rattle.machine.specs.Inspect.{SaysSo, Asks, JudgesAsked, FullAnswers, QuickAnswers};
ghost use Rattle.machine.specs.Inspect.Looking.{AtFrame, Decides};
ghost use Rattle.machine.specs.Steps.{DeniedOf, Steps};
ghost use Rattle.machine.specs.Steps.Parts.{Placed};

use graph::{LentGraph, LentNodes, Refusal};
use sets::Set;
use verdict::LentSets;

// Whether the permission passes, with how many frames were looked at, the deciding one included. No Result, since a permission that fails is an answer.
#[derive(Clone, Copy, PartialEq, Eq)]
pub enum Inspection {
    Passes(usize),
    Fails(usize),
}

// What a frame of this node says of the permission by the full rule: it passes, it fails, or the frames below decide.
fn by_rights(nodes: &LentNodes, p: usize, node: usize) -> Option<bool>
    requires long { length nodes.now.privileged.now ≡ length nodes.now.grants.now }
    requires node { node < length nodes.now.grants.now }
    ensures { AtFrame (full (rights nodes.now.privileged.now nodes.now.grants.now) p) node result }
{
    let own = Set {
        bits: nodes.grants[node],
    };
    let granted = own.has(p);
    if !granted {
        return Some(false);
    }
    rules::is_privileged(nodes.privileged[node], p).then_some(true)
}

// The same by the denied and granted sets.
fn by_sets(sets: &LentSets, p: usize, node: usize) -> Option<bool>
    requires long { length sets.now.granted.now ≡ length sets.now.denied.now }
    requires node { node < length sets.now.denied.now }
    ensures { AtFrame (quick sets.now.denied.now sets.now.granted.now p) node result }
{
    let denied = Set {
        bits: sets.denied[node],
    };
    let fails = denied.has(p);
    if fails {
        return Some(false);
    }
    let granted = Set {
        bits: sets.granted[node],
    };
    granted.has(p).then_some(true)
}

// Goes down from the top frame, until the node of one decides.
fn look<F: Fn(usize) -> Option<bool>>(stack: &[u16], height: usize, decide: F) -> Inspection
    ghost rule: { List ℕ → Inspected }
    requires held { height ≤ length stack.now }
    requires decides { Decides (F.pre decide) (F.post decide) rule stack.now height }
    ensures { SaysSo result (rule (stack_of stack.now height)) }
{
    for i in (0..height).rev() {
        match decide(stack[i] as usize) {
            Some(true) => return Inspection::Passes(height - i),
            Some(false) => return Inspection::Fails(height - i),
            None => {}
        }
    }
    Inspection::Passes(height)
}

// Full inspection of a stack that fits.
fn look_full(graph: &LentGraph, stack: &[u16], height: usize, p: usize) -> Inspection
    requires accepted { Acceptable (lent graph.now) }
    requires fits { StackFits graph.now.size.n stack.now height }
    ensures { SaysSo result (full (rights_of (lent graph.now)) p (stack_of stack.now height)) }
{
    let nodes = &graph.nodes;
    look(stack, height, |node| by_rights(nodes, p, node))
}

// Whether an accepted graph is lent, what is asked for is below its limit, and the stack fits.
fn judge_asked(
    graph: &LentGraph,
    asked: usize,
    limit: usize,
    stack: &[u16],
    height: usize,
) -> Result<(), Refusal>
    ensures { JudgesAsked (lent graph.now) (asked < limit) stack.now height result }
{
    judge::check(graph)?;
    if limit <= asked {
        return Err(Refusal::Asked);
    }
    if !frames::stack_fits(graph.size.n, stack, height) {
        return Err(Refusal::Stack);
    }
    Ok(())
}

// Whether full inspection of the stack passes the permission.
pub fn full(
    graph: &LentGraph,
    stack: &[u16],
    height: usize,
    p: usize,
) -> Result<Inspection, Refusal>
    ensures { FullAnswers (lent graph.now) stack.now height p result }
{
    judge_asked(graph, p, graph.size.k, stack, height)?;
    Ok(look_full(graph, stack, height, p))
}

// Whether quick inspection of the stack, by the denied and granted sets as they are, passes the permission.
pub fn quick(
    graph: &LentGraph,
    sets: &LentSets,
    stack: &[u16],
    height: usize,
    p: usize,
) -> Result<Inspection, Refusal>
    ensures { QuickAnswers (lent graph.now) sets.now.denied.now sets.now.granted.now stack.now height p result }
{
    if !verdict::sets_long(graph.size.n, sets.denied.len(), sets.granted.len()) {
        return Err(Refusal::Shape);
    }
    judge_asked(graph, p, graph.size.k, stack, height)?;
    Ok(look(stack, height, |node| by_sets(sets, p, node)))
}

// Where a rule writes the next node, inspection set aside.
fn find_place(graph: &LentGraph, stack: &[u16], height: usize, next: usize) -> Option<usize>
    requires { Asks (lent graph.now) (next < graph.now.size.n) stack.now height }
    ensures { Placed (lent graph.now) stack.now height next result }
{
    if height == 0 {
        return (graph.nodes.entries[next] == graph::MARKED).then_some(0);
    }
    let leads = |kind: u8, from: usize| edges::lead(graph.size.m, &graph.edges, kind, from, next);
    let top = stack[height - 1] as usize;
    match graph.nodes.kinds[top] {
        graph::KIND_CALL => leads(graph::CALL, top).then_some(height),
        graph::KIND_CHECK => leads(graph::TRANSFER, top).then_some(height - 1),
        graph::KIND_RETURN if 2 <= height => {
            leads(graph::TRANSFER, stack[height - 2] as usize).then_some(height - 2)
        }
        _ => None,
    }
}

// Whether the check on top is denied.
fn top_denied(graph: &LentGraph, stack: &[u16], height: usize) -> bool
    requires accepted { Acceptable (lent graph.now) }
    requires fits { StackFits graph.now.size.n stack.now height }
    ensures { Says (DeniedOf (lent graph.now) stack.now height) result }
{
    if height == 0 {
        return false;
    }
    let nodes = &graph.nodes;
    let top = stack[height - 1] as usize;
    nodes.kinds[top] == graph::KIND_CHECK
        && matches!(
            look_full(graph, stack, height, nodes.checks[top] as usize),
            Inspection::Fails(_)
        )
}

// Takes the step that names the next node, or refuses.
pub fn step(
    graph: &LentGraph,
    stack: &mut [u16],
    height: usize,
    next: usize,
) -> Result<usize, Refusal>
    ensures { Steps (lent graph.now) stack.old height next result stack.new }
{
    judge_asked(graph, next, graph.size.n, stack, height)?;
    let place = find_place(graph, stack, height, next).ok_or(Refusal::NoRule)?;
    if top_denied(graph, stack, height) {
        return Err(Refusal::Denied);
    }
    if stack.len() <= place {
        return Err(Refusal::NoRoom);
    }
    stack[place] = next as u16;
    Ok(place + 1)
}
