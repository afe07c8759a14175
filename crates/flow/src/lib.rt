// What a node and an edge pass on, by their numbers: the rules that the solver's walk applies. Every call takes any numbers.
#![tactic(auto)]

ghost use Rattle.std.specs.Prelude.{◌≡◌};
ghost use Rattle.sets.specs.Sets.{has};
ghost use Rattle.flow.specs.Walk.{system_of, start, merge, call_num, denied_num, past_num, trans_num, Leaves, edge_num, judged_num, counts_num, start_ins, start_past};

use graph::Node;
use sets::Set;

// The two systems of equations: what may be held, and what surely is.
#[derive(Clone, Copy, PartialEq, Eq)]
pub enum System {
    May,
    Sure,
}

// One set more arrives: MAY joins it, SURE takes the common part.
pub fn merge(system: System, sum: u64, more: u64) -> u64
    ensures { result ≡ merge (system_of system) sum more }
{
    let sum = Set { bits: sum };
    let more = Set { bits: more };
    match system {
        System::May => sum.join(more).bits,
        System::Sure => sum.common(more).bits,
    }
}

// A sum before anything arrives.
fn start(system: System, k: usize) -> u64
    ensures { result ≡ start (system_of system) k }
{
    match system {
        System::May => Set::EMPTY.bits,
        System::Sure => Set::all(k).bits,
    }
}

// The call set of a node with the sum `arrived`.
pub fn called(privileged: u8, grants: u64, arrived: u64) -> u64
    ensures { result ≡ call_num privileged grants arrived }
{
    match privileged {
        graph::MARKED => grants,
        _ => arrived,
    }
}

// The sums of a node: of all that arrives, and of what arrives and passes its check; and MAY's sum of what passes, which tells SURE
// whether anything does.
#[derive(Clone, Copy)]
pub struct Arrived {
    pub all: u64,
    pub past: u64,
    pub any: u64,
}

// What is past an unprivileged check.
fn passed(system: System, check: u16, arrived: Arrived) -> u64
    ensures { result ≡ past_num (system_of system) check arrived.past (has arrived.any check) }
{
    let p = check as usize;
    let any = Set { bits: arrived.any };
    let past = Set { bits: arrived.past };
    match system {
        System::May => past.bits,
        System::Sure if any.has(p) => past.add(p).bits,
        System::Sure => Set::EMPTY.bits,
    }
}

// The trans set of a node, from its sum and what is past its check.
fn moved(node: Node, arrived: u64, past: u64) -> u64
    ensures { result ≡ trans_num node.kind node.check node.privileged node.grants arrived past }
{
    if node.kind != graph::KIND_CHECK {
        return arrived;
    }
    let p = node.check as usize;
    if !rules::is_privileged(node.privileged, p) {
        return past;
    }
    let own = Set { bits: node.grants };
    if own.has(p) { arrived } else { Set::EMPTY.bits }
}

// The trans set of a node. Most nodes are no checks, and there nothing else is looked at.
fn beyond(system: System, node: Node, arrived: Arrived) -> u64
    ensures { result ≡ trans_num node.kind node.check node.privileged node.grants arrived.all (past_num (system_of system) node.check arrived.past (has arrived.any node.check)) }
{
    if node.kind != graph::KIND_CHECK {
        return arrived.all;
    }
    moved(node, arrived.all, passed(system, node.check, arrived))
}

// What leaves a node: its call set and its trans set.
#[derive(Clone, Copy)]
pub struct Leaving {
    pub call: u64,
    pub trans: u64,
}

pub fn leave(system: System, node: Node, arrived: Arrived) -> Leaving
    ensures { Leaves (system_of system) node.kind node.check node.privileged node.grants arrived.all arrived.past arrived.any result.call result.trans }
{
    Leaving {
        call: called(node.privileged, node.grants, arrived.all),
        trans: beyond(system, node, arrived),
    }
}

// The out set of an edge, from what leaves its from node and its to node's grants.
pub fn carry(way: u8, leaving: Leaving, into: u64) -> u64
    ensures { result ≡ edge_num way leaving.call leaving.trans into }
{
    let call = Set { bits: leaving.call };
    let cut = call.common(Set { bits: into }).bits;
    match way {
        graph::CALL => cut,
        _ => leaving.trans,
    }
}

// The denied set of a node with MAY's sum `arrived`.
pub fn deny(k: usize, privileged: u8, grants: u64, arrived: u64) -> u64
    ensures { result ≡ denied_num k privileged grants arrived }
{
    let may = Set {
        bits: called(privileged, grants, arrived),
    };
    Set::all(k).without(may).bits
}

// The set by which the set v of an edge is judged: SURE's by `wide`, MAY's out set of the same edge.
fn judged(system: System, wide: u64, v: u64) -> u64
    ensures { result ≡ judged_num (system_of system) wide v }
{
    match system {
        System::May => v,
        System::Sure => wide,
    }
}

// Whether the set v of an edge counts at the check of the node that it arrives at.
pub fn counts(system: System, kind: u8, check: u16, wide: u64, v: u64) -> bool
    ensures { result ≡ counts_num (system_of system) kind check wide v }
{
    let by = Set {
        bits: judged(system, wide, v),
    };
    kind == graph::KIND_CHECK && by.has(check as usize)
}

// What begins a node's sums: its entry mark, and the grants and the check that go with it.
#[derive(Clone, Copy)]
pub struct Entry {
    pub mark: u8,
    pub grants: u64,
    pub check: u16,
}

// A node's sum of all that arrives, before anything but its entry mark does.
pub fn first_sum(system: System, k: usize, entry: Entry) -> u64
    ensures { result ≡ start_ins (system_of system) k entry.mark entry.grants }
{
    match entry.mark {
        graph::MARKED => entry.grants,
        _ => start(system, k),
    }
}

// And its sum of what passes its check.
pub fn first_passing(system: System, k: usize, entry: Entry) -> u64
    ensures { result ≡ start_past (system_of system) k entry.mark entry.grants entry.check }
{
    let own = Set { bits: entry.grants };
    if entry.mark == graph::MARKED && own.has(entry.check as usize) {
        entry.grants
    } else {
        start(system, k)
    }
}
