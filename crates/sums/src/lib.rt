// The running sums of the nodes: of all that arrives at a node, and of what arrives and passes its check. Every call takes all inputs.
#![tactic(auto)]

ghost use Rattle.std.specs.Prelude.{◌≡◌, length};
ghost use Rattle.truth.specs.Truth.{Says};
ghost use Rattle.graph.specs.Lent.{nodes_lent};
ghost use Rattle.flow.specs.Walk.{system_of};
ghost use Rattle.sums.specs.Sums.{Merges, Delivers, Room, Begins, BegunAll, SameSums};

use flow::{Entry, System};
use graph::LentNodes;

// A set arrives in a sum of node b. Whether that changed the sum.
fn merge_at(sums: &mut [u64], system: System, b: usize, v: u64) -> bool
    ensures { Merges (system_of system) sums.old b v sums.new result }
{
    if sums.len() <= b {
        return false;
    }
    let sum = sums[b];
    let more = flow::merge(system, sum, v);
    if more == sum {
        return false;
    }
    sums[b] = more;
    true
}

// For each node the sum of all that arrives, and of what arrives and passes its check.
#[derive(Drop)]
pub struct Sums<'a> {
    pub ins: &'a mut [u64],
    pub past: &'a mut [u64],
}

impl Sums<'_> {
    // A set arrives at node b, and counts there or not. Whether a sum of the node changed: none does where the slices end before it.
    pub fn deliver(&mut self, system: System, b: usize, v: u64, counted: bool) -> bool
        ensures delivered { Delivers (system_of system) self.old.ins.now self.old.past.now b v counted self.new.ins.now self.new.past.now result }
        ensures slices { SameSums self.old self.new }
    {
        let more = merge_at(self.ins, system, b, v);
        if !counted {
            return more;
        }
        let passing = merge_at(self.past, system, b, v);
        more | passing
    }

    fn have_room(&self, n: usize, nodes: &LentNodes) -> bool
        ensures { Says (Room n (nodes_lent nodes.now) self.now.ins.now self.now.past.now) result }
    {
        n <= self.ins.len()
            && n <= self.past.len()
            && n <= nodes.checks.len()
            && n <= nodes.entries.len()
            && n <= nodes.grants.len()
    }

    // The solver's `store_nodes` is of this shape, and writes other slices from other numbers: one function of both would take a closure for
    // each number and what it asks of the slices, and be longer than the two.
    fn begin_all(&mut self, system: System, k: usize, n: usize, nodes: &LentNodes)
        requires { Room n (nodes_lent nodes.now) self.old.ins.now self.old.past.now }
        ensures begun { BegunAll (system_of system) k n (nodes_lent nodes.now) self.old.ins.now self.old.past.now self.new.ins.now self.new.past.now }
        ensures slices { SameSums self.old self.new }
    {
        for i in 0..n {
            let entry = Entry {
                mark: nodes.entries[i],
                grants: nodes.grants[i],
                check: nodes.checks[i],
            };
            self.ins[i] = flow::first_sum(system, k, entry);
            self.past[i] = flow::first_passing(system, k, entry);
        }
    }

    // The sums of the nodes below n before anything but the entry marks arrives. Whether they were stored: nothing is where a slice has no
    // place for each of the nodes.
    pub fn begin(&mut self, system: System, k: usize, n: usize, nodes: &LentNodes) -> bool
        ensures begun { Begins (system_of system) k n (nodes_lent nodes.now) self.old.ins.now self.old.past.now result self.new.ins.now self.new.past.now }
        ensures slices { SameSums self.old self.new }
    {
        let room = self.have_room(n, nodes);
        if room {
            self.begin_all(system, k, n, nodes);
        }
        room
    }
}
