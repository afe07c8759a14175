// Reads the graph of a text into the places that a caller lends.
#![tactic(auto)]

ghost use Rattle.std.specs.Prelude.{ℕ, List, Option, ◌≡◌, ◌+◌, ◌<◌, ◌≤◌};
ghost use Rattle.graph.specs.declared.Node.{Node};
ghost use Rattle.graph.specs.declared.Edge.{Edge};
ghost use Rattle.scan.specs.declared.At.{At};
ghost use Rattle.extent.specs.declared.NodeSlots.{NodeSlots};
ghost use Rattle.extent.specs.declared.EdgeSlots.{EdgeSlots};
ghost use Rattle.handover.specs.Handover.{places, SamePlaces, Room};
ghost use Rattle.text.specs.Text.{edge_row, on_meaning, text_at, reading_from, reading, Tells};
ghost use Rattle.text.specs.Text.Parts.{kept_row, node_put, edge_put, RowsRead, slots, Parses};

use extent::{EdgeSlots, NodeSlots, Slots};
use graph::{Edge, GraphPlaces, Node, Refusal, Size};
use scan::At;

// Places for rows of a kind, the first of which has number 0.
trait Rows {
    // What a row says.
    type Row: Copy;

    // How many there is room for.
    ghost most: { ℕ };

    // What row i says, read from a position on, and where the text goes on after it.
    ghost row_at: { List ℕ → (from i : ℕ) → Option (At Self.Row) };

    // What the places hold after it is put there.
    ghost with_row: { Self → (i : ℕ) → Self.Row → Self };

    fn read_row(s: &[u8], from: usize, i: usize) -> Option<At<Self::Row>>
        ensures { result ≡ row_at s.now from i };

    fn put_row(&mut self, i: usize, row: Self::Row)
        requires { i < most }
        ensures { self.new ≡ with_row self.old i row };
}

impl Rows for NodeSlots {
    type Row = Node;

    ghost most = { 1024 };

    ghost row_at = { kept_row };

    ghost with_row = { node_put };

    fn read_row(s: &[u8], from: usize, i: usize) -> Option<At<Node>> {
        shortcuts::read_node(s, from, i)
    }

    fn put_row(&mut self, i: usize, row: Node) {
        self.kinds[i] = row.kind;
        self.checks[i] = row.check;
        self.privileged[i] = row.privileged;
        self.entries[i] = row.entry;
        self.grants[i] = row.grants;
    }
}

impl Rows for EdgeSlots {
    type Row = Edge;

    ghost most = { 4096 };

    ghost row_at = { edge_row };

    ghost with_row = { edge_put };

    fn read_row(s: &[u8], from: usize, _i: usize) -> Option<At<Edge>> {
        shortcuts::read_edge(s, from)
    }

    fn put_row(&mut self, i: usize, row: Edge) {
        self.froms[i] = row.from;
        self.tos[i] = row.to;
        self.ways[i] = row.way;
    }
}

// Reads so many rows, the first of which has this number in the text, and puts what they say where it belongs.
fn read_rows<R: Rows>(
    rows: &mut R,
    s: &[u8],
    from: usize,
    first: usize,
    count: usize,
) -> Result<usize, Refusal>
    requires numbered { first + count ≤ usize.MAX }
    requires room { count ≤ R.most }
    ensures { RowsRead (R.row_at s.now) R.with_row from first count rows.old result rows.new }
{
    let mut at = from;
    for i in 0..count {
        let Some(row) = R::read_row(s, at, i) else {
            return Err(Refusal::Row(first + i));
        };
        rows.put_row(i, row.value);
        at = row.next;
    }
    Ok(at)
}

// The text from a position on, whose first row has this number.
fn parse(into: &mut Slots, s: &[u8], from: usize, row: usize) -> Result<Size, Refusal>
    requires { row < 4294967296 }
    ensures { Parses (slots into.old) s.now from row result (slots into.new) }
{
    let Some(header) = records::read_header(s, from) else {
        return Err(Refusal::Row(row));
    };
    let counts = header.value;
    let node = row + 1;
    let past = read_rows(&mut into.nodes, s, header.next, node, counts.n)?;
    let edge = node + counts.n;
    let ran = read_rows(&mut into.edges, s, past, edge, counts.m);
    let extra = edge + counts.m;
    extent::end_text(ran, s.len(), extra, counts)
}

// Reads a text into slices that have room.
fn read_sized(text: &[u8], from: usize, row: usize, into: &mut GraphPlaces) -> Result<Size, Refusal>
    requires { (row < 4294967296) × Room (places into.old) }
    ensures tells { Tells (on_meaning (text_at text.now from row)) (places into.old) result (places into.new) }
    ensures same_places { SamePlaces into.old into.new }
{
    let mut slots = Slots::new();
    let size = parse(&mut slots, text, from, row)?;
    handover::hand_over(&slots.lent(size), into)?;
    Ok(size)
}

// Reads the text from a position on, whose first row has this number, into slices of 1,024 and 4,096 places: stores the graph in their first places,
// or refuses and stores nothing.
pub fn read_from(
    text: &[u8],
    from: usize,
    row: u32,
    into: &mut GraphPlaces,
) -> Result<Size, Refusal>
    ensures tells { Tells (reading_from (places into.old) text.now from row) (places into.old) result (places into.new) }
    ensures same_places { SamePlaces into.old into.new }
{
    extent::judge_sizes(into.nodes.lengths(), into.edges.lengths(), text.len())?;
    read_sized(text, from, row as usize, into)
}

// Reads a whole text so.
pub fn read(text: &[u8], into: &mut GraphPlaces) -> Result<Size, Refusal>
    ensures tells { Tells (reading (places into.old) text.now) (places into.old) result (places into.new) }
    ensures same_places { SamePlaces into.old into.new }
{
    read_from(text, 0, 1, into)
}
