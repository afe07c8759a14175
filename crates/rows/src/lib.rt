// Writes a result's rows as bytes.
#![tactic(auto)]

ghost use Rattle.std.specs.Prelude.{◌≡◌, ◌∷◌, ◌≤◌, length};
ghost use Rattle.truth.specs.Truth.{Says};
ghost use Rattle.writer.specs.Writer.{Adds};
ghost use Rattle.members.specs.Members.{set_bytes};
ghost use Rattle.rows.specs.Result.{verdict_bytes, row_bytes, Long, WritesResult};
ghost use Rattle.rows.specs.Result.Shown.{shown_rows, shown_bytes};

mod shown;

use graph::Refusal;
use sets::Set;
use shown::Shown;
use verdict::LentSets;
use writer::Writer;

// No row is longer, its end included; and so long is the header.
const ROW_MOST: usize = 429;

const HEADER_LONG: usize = 29;

// What a row shows of its node.
#[derive(Clone, Copy)]
struct Row {
    kind: u8,
    check: u16,
    denied: u64,
    granted: u64,
}

// A comma and a set.
fn put_set_field(out: &mut Writer, set: u64)
    ensures { Adds (44 ∷ set_bytes set) out.old out.new }
{
    out.put(b',');
    members::put_set(out, set);
}

// The verdict of a check, and nothing at any other node.
fn put_verdict(out: &mut Writer, row: Row)
    ensures { Adds (verdict_bytes row.kind row.check row.denied row.granted) out.old out.new }
{
    // Both are numbers of 64 bits, which is known where they are read.
    prove!(out.at <= usize::MAX && out.out.len() <= usize::MAX);
    if row.kind == graph::KIND_CHECK {
        let p = row.check as usize;
        let fails = Set { bits: row.denied }.has(p);
        let passes = Set { bits: row.granted }.has(p);
        out.put_number(verdict::judge_check(fails, passes).number());
    }
}

fn put_row(out: &mut Writer, node: usize, row: Row)
    ensures { Adds (row_bytes node row.kind row.check row.denied row.granted) out.old out.new }
{
    out.put_number(node);
    put_set_field(out, row.denied);
    put_set_field(out, row.granted);
    out.put(b',');
    put_verdict(out, row);
    out.put_all(b"\r\n");
}

// The rows of all nodes.
fn put_rows(out: &mut Writer, shown: &Shown)
    ensures { Adds (shown_rows shown.now shown.now.n) out.old out.new }
{
    // As in `put_verdict`.
    prove!(out.at <= usize::MAX && out.out.len() <= usize::MAX);
    for node in 0..shown.n {
        let row = Row {
            kind: shown.kinds[node],
            check: shown.checks[node],
            denied: shown.sets.denied[node],
            granted: shown.sets.granted[node],
        };
        put_row(out, node, row);
    }
}

fn put_result(out: &mut Writer, shown: &Shown)
    ensures { Adds (shown_bytes shown.now) out.old out.new }
{
    out.put_all(b"node,denied,granted,verdict\r\n");
    put_rows(out, shown);
}

// Whether there is a node, there are not too many, and every slice has an entry for each of them, by their lengths.
fn is_long(n: usize, kinds: usize, checks: usize, denied: usize, granted: usize) -> bool
    ensures { Says (Long n kinds checks denied granted) result }
{
    0 < n && n <= graph::MOST_NODES && kinds == n && checks == n && denied == n && granted == n
}

// How many bytes the result takes. Counted and written by two calls, here and in `refusals`: a function over both would be handed what is put as a closure,
// and be no shorter.
fn count_result(shown: &Shown) -> usize
    ensures { result ≡ length (shown_bytes shown.now) }
{
    let mut rows = Writer {
        out: &mut [],
        at: 0,
    };
    put_result(&mut rows, shown);
    rows.at
}

// Whether a buffer of so many places is long enough. The rows are counted only where it may be too short.
fn has_room(places: usize, shown: &Shown) -> bool
    ensures { Says (length (shown_bytes shown.now) ≤ places) result }
{
    shown.n * ROW_MOST + HEADER_LONG <= places || count_result(shown) <= places
}

// Writes the result's rows at the start of a buffer.
pub fn write_result(
    out: &mut [u8],
    n: usize,
    kinds: &[u8],
    checks: &[u16],
    sets: &LentSets,
) -> Result<usize, Refusal>
    ensures { WritesResult n kinds.now checks.now sets.now.denied.now sets.now.granted.now out.old result out.new }
{
    if !is_long(
        n,
        kinds.len(),
        checks.len(),
        sets.denied.len(),
        sets.granted.len(),
    ) {
        return Err(Refusal::Shape);
    }
    let shown = Shown {
        n,
        kinds,
        checks,
        sets: *sets,
    };
    if !has_room(out.len(), &shown) {
        return Err(Refusal::NoRoom);
    }
    let mut rows = Writer { out, at: 0 };
    put_result(&mut rows, &shown);
    Ok(rows.at)
}
