// What a walk over nodes and edges keeps: lists of the edges that leave each node, and a stack of nodes with a mark for each that is on it.
#![tactic(auto)]

ghost use Rattle.std.specs.Prelude.{◌≡◌, ◌≤◌, ◌<◌, length, get_or};
ghost use Rattle.truth.specs.Truth.{Says, All};
ghost use Rattle.worklist.specs.Worklist.{Linkable, lists, link_to, Links, SameLists, holds, fresh, Put, Takes, SamePending, count_down, Fills};

// The largest number that a place of a list or of the stack holds.
pub const LARGEST: usize = 65535;

// The mark of a node that is on the stack, in a slice of bytes that a caller lends.
pub const MARKED: u8 = 1;

// Whether all numbers of a list are below n. The loop has no early end, so that it is compiled to steps of several places.
pub fn all_below(list: &[u16], n: usize) -> bool
    ensures { Says (All (λ i. get_or list.now i 0 < n) (length list.now)) result }
{
    if LARGEST < n {
        return true;
    }
    let bound = n as u16;
    let mut good = true;
    for &number in list {
        good &= number < bound;
    }
    good
}

// Lists of edges: a node's starts at `head`, and an edge's goes on at `prev`, from the last edge to the first. A place holds one more than
// an edge's number, and 0 at the end: memory is fixed, and a list for each node would need a heap.
#[derive(Drop)]
pub struct EdgeLists<'a> {
    pub head: &'a mut [u16],
    pub prev: &'a mut [u16],
}

impl EdgeLists<'_> {
    fn can_link(&self, froms: &[u16]) -> bool
        ensures { Says (Linkable froms.now (length self.now.head.now) (length self.now.prev.now)) result }
    {
        froms.len() <= LARGEST
            && froms.len() <= self.prev.len()
            && all_below(froms, self.head.len())
    }

    fn link_all(&mut self, froms: &[u16])
        requires { Linkable froms.now (length self.old.head.now) (length self.old.prev.now) }
        ensures linked { lists self.new.head.now self.new.prev.now ≡ link_to froms.now (length froms.now) (lists self.old.head.now self.old.prev.now) }
        ensures slices { SameLists self.old self.new }
    {
        for (e, &from) in froms.iter().enumerate() {
            let i = from as usize;
            self.prev[e] = self.head[i];
            self.head[i] = (e + 1) as u16;
        }
    }

    // The edges that leave each node. Whether they were stored: nothing is where the slices have no room for them. A truth value, as `Links` has it, since one
    // thing alone can refuse.
    pub fn link(&mut self, froms: &[u16]) -> bool
        ensures linked { Links froms.now self.old.head.now self.old.prev.now result (lists self.new.head.now self.new.prev.now) }
        ensures slices { SameLists self.old self.new }
    {
        let can = self.can_link(froms);
        if can {
            self.link_all(froms);
        }
        can
    }
}

// The nodes that a walk still has to take up: a stack, in use below `top`, and a mark for each node that is on it.
#[derive(Drop)]
pub struct Pending<'a> {
    pub marks: &'a mut [u8],
    pub stack: &'a mut [u16],
    pub top: usize,
}

impl Pending<'_> {
    // Whether node b has a mark, and there is a place that holds its number.
    fn holds(&self, b: usize) -> bool
        ensures { result ≡ holds self.now.marks.now self.now.stack.now self.now.top b }
    {
        self.top < self.stack.len() && b < self.marks.len() && b <= LARGEST
    }

    // Node b goes on the stack where it is wanted there, is not there, and has a mark and a place.
    pub fn put(&mut self, b: usize, wanted: bool)
        ensures put { Put self.old.marks.now self.old.stack.now self.old.top b (fresh self.old.marks.now self.old.stack.now self.old.top b wanted) self.new.marks.now self.new.stack.now self.new.top }
        ensures slices { SamePending self.old self.new }
    {
        if wanted && self.holds(b) && self.marks[b] == 0 {
            self.marks[b] = MARKED;
            self.stack[self.top] = b as u16;
            self.top += 1;
        }
    }

    // Takes the node on top, and its mark: none where the stack is empty, or ends below its top.
    pub fn take(&mut self) -> Option<usize>
        ensures taken { Takes self.old.marks.now self.old.stack.now self.old.top result self.new.marks.now self.new.stack.now self.new.top }
        ensures slices { SamePending self.old self.new }
    {
        let top = self.top.checked_sub(1)?;
        if self.stack.len() <= top {
            return None;
        }
        let node = self.stack[top] as usize;
        if node < self.marks.len() {
            self.marks[node] = 0;
        }
        self.top = top;
        Some(node)
    }
}

fn count_down(stack: &mut [u16], n: usize)
    requires { (n ≤ length stack.old) × (n ≤ 65535) }
    ensures { stack.new ≡ count_down n stack.old n }
{
    for i in 0..n {
        stack[i] = (n - 1 - i) as u16;
    }
}

// The nodes below n go on an empty stack, the first on top: what calls stands before what is called in most graphs, and is then taken up
// first. Nothing is stored where the stack has no room for them.
pub fn fill(stack: &mut [u16], n: usize)
    ensures { Fills n stack.old stack.new }
{
    let room = stack.len().min(LARGEST);
    if n <= room {
        count_down(stack, n);
    }
}
