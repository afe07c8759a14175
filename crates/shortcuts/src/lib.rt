// Reads a node's or an edge's row, and those whose fields are all short in one pass.
#![tactic(auto)]

ghost use Rattle.std.specs.Prelude.{◌≡◌, ◌+◌, ◌≤◌, length, get_or, slice_get, IfSome};
ghost use Rattle.truth.specs.Truth.{Says};
ghost use Rattle.scan.specs.Scan.{listed};
ghost use Rattle.fields.specs.declared.Form.{Form};
ghost use Rattle.records.specs.Records.{read_as, kept, grants_at, lead_at, node_at, edge_at};
ghost use Rattle.shortcuts.specs.Shortcuts.Short.{Quick, digit_of, Numeral, Stands, Short, TagsLetter, EndsRow};

use fields;
use fields::Form;
use graph::{Edge, Node};
use records;
use records::Lead;
use scan;
use scan::{At, Listed};

// Most fields are short and have no quotes. The functions below know such a field by its bytes, and say nothing of any other, which is left to
// `records`. A short field takes fewer bytes with its comma than this: they ask for so many more than they look at.
const FIELD_ROOM: usize = 8;

// Room for a grant and what follows it.
const GRANT_ROOM: usize = 2 * FIELD_ROOM;

// Room for a row of short fields, but for a node's grants.
const ROW_ROOM: usize = 5 * FIELD_ROOM;

// The letters of a node's kinds and of an edge's, each at its number.
const NODE_LETTERS: &[u8] = b"CRK";

const EDGE_LETTERS: &[u8] = b"CT";

fn has_room(s: &[u8], at: usize, count: usize) -> bool
    ensures { Says (at + count ≤ length s.now) result }
{
    count <= s.len() && at <= s.len() - count
}

// The digit that a byte is.
fn digit(b: u8) -> Option<usize>
    ensures { result ≡ digit_of b }
{
    b.is_ascii_digit().then(|| usize::from(b - b'0'))
}

// A number of one to four digits, whatever follows them.
fn short_number(s: &[u8], at: usize) -> Option<At<usize>>
    requires { at + FIELD_ROOM ≤ length s.now }
    ensures { IfSome result (Numeral s.now at) }
{
    let mut value = digit(s[at])?;
    for next in at + 1..at + fields::MOST_DIGITS {
        let Some(d) = digit(s[next]) else {
            return Some(At { value, next });
        };
        if value == 0 {
            return None;
        }
        value = value * 10 + d;
    }
    Some(At {
        value,
        next: at + fields::MOST_DIGITS,
    })
}

// One of some letters, by its place among them.
fn short_letter(s: &[u8], at: usize, letters: &[u8]) -> Option<At<usize>>
    requires { at + FIELD_ROOM ≤ length s.now }
    ensures { IfSome result (λ x. (slice_get letters.now x.value ≡ Some (get_or s.now at 0)) × (x.next ≡ at + 1)) }
{
    let value = letters.iter().position(|l| *l == s[at])?;
    Some(At {
        value,
        next: at + 1,
    })
}

// The marks of a node.
fn short_marks(s: &[u8], at: usize) -> At<usize>
    requires { at + FIELD_ROOM ≤ length s.now }
    ensures { Stands Form.Marks s.now at result }
{
    match (s[at], s[at + 1]) {
        (b'P', b'E') => At {
            value: fields::MARK_BOTH,
            next: at + 2,
        },
        (b'P', _) => At {
            value: fields::MARK_PRIVILEGED,
            next: at + 1,
        },
        (b'E', _) => At {
            value: fields::MARK_ENTRY,
            next: at + 1,
        },
        _ => At { value: 0, next: at },
    }
}

// A short field of a form, and where it ends if it is one. Inlined, so that the form is known where a field is read: a program that reads 65,536 bytes of
// rows then takes 500,974 instructions for them, and 1,102,603 where the compiler keeps one function of all forms.
#[inline(always)]
fn short_part(s: &[u8], at: usize, form: Form) -> Option<At<usize>>
    requires room { at + FIELD_ROOM ≤ length s.now }
    requires letter { TagsLetter form }
    ensures { IfSome result (Stands form s.now at) }
{
    match form {
        Form::Tag(letter) => short_letter(s, at, &[letter]),
        Form::Number => short_number(s, at),
        Form::Own(i) => {
            let own = short_number(s, at)?;
            (own.value == i).then_some(own)
        }
        Form::Kind => short_letter(s, at, NODE_LETTERS),
        Form::Check(kind) => {
            if kind == fields::CHECK_NODE {
                short_number(s, at)
            } else {
                Some(At { value: 0, next: at })
            }
        }
        Form::Marks => Some(short_marks(s, at)),
        Form::Way => short_letter(s, at, EDGE_LETTERS),
        Form::Empty => Some(At { value: 0, next: at }),
    }
}

// A short field of a form that a comma follows.
#[inline(always)]
fn short_field(s: &[u8], at: usize, form: Form) -> Option<At<usize>>
    requires room { at + FIELD_ROOM ≤ length s.now }
    requires letter { TagsLetter form }
    ensures { IfSome result (Short form s.now at) }
{
    let At { value, next: end } = short_part(s, at, form)?;
    (s[end] == b',').then_some(At {
        value,
        next: end + 1,
    })
}

fn ends_row(s: &[u8], at: usize) -> bool
    requires { at + 2 ≤ length s.now }
    ensures { Says (EndsRow s.now at) result }
{
    s[at] == b'\r' && s[at + 1] == b'\n'
}

// The front of a node row whose fields are all short. As `records::read_lead`, but by the bytes: quick ways stand beside the general function (CONTRIBUTING.md).
#[tactic(auto, unfolding(records::specs::Records::lead_at))]
fn quick_lead(s: &[u8], at: usize, i: usize) -> Option<At<Lead>>
    ensures { Quick (lead_at s.now at i) result }
{
    if !has_room(s, at, ROW_ROOM) {
        return None;
    }
    let tag = short_field(s, at, Form::Tag(b'N'))?;
    let own = short_field(s, tag.next, Form::Own(i))?;
    let kind = short_field(s, own.next, Form::Kind)?;
    let check = short_field(s, kind.next, Form::Check(kind.value))?;
    let marks = short_field(s, check.next, Form::Marks)?;
    Some(At {
        value: Lead {
            kind: kind.value,
            check: check.value,
            marks: marks.value,
        },
        next: marks.next,
    })
}

fn read_lead(s: &[u8], at: usize, i: usize) -> Option<At<Lead>>
    ensures { result ≡ lead_at s.now at i }
{
    quick_lead(s, at, i).or_else(|| records::read_lead(s, at, i))
}

// Grants that end a row, by their bytes, where each is below 64.
fn quick_grants(s: &[u8], at: usize) -> Option<At<Listed>>
    ensures { Quick (read_as listed (grants_at s.now at)) result }
{
    let mut bits: u64 = 0;
    let mut low: usize = 0;
    let mut i = at;
    // Each position follows from the grant before it, so that there is no range to go over.
    while has_room(s, i, GRANT_ROOM) {
        let grant = short_number(s, i)?;
        if grant.value < low || scan::SET_BITS <= grant.value {
            return None;
        }
        bits |= 1u64 << grant.value;
        low = grant.value + 1;
        if s[grant.next] != b' ' {
            return ends_row(s, grant.next).then_some(At {
                value: Listed::Held(bits),
                next: grant.next + 2,
            });
        }
        i = grant.next + 1;
    }
    None
}

fn read_grants(s: &[u8], at: usize) -> Option<At<Listed>>
    ensures { result ≡ read_as listed (grants_at s.now at) }
{
    quick_grants(s, at).or_else(|| records::read_grants(s, at))
}

// The node row of number i at a position. A node whose grants 64 bits can't hold has no kind.
#[tactic(auto, unfolding(records::specs::Records::node_at))]
pub fn read_node(s: &[u8], at: usize, i: usize) -> Option<At<Node>>
    ensures { result ≡ read_as kept (node_at s.now at i) }
{
    let At { value: lead, next } = read_lead(s, at, i)?;
    let At {
        value: grants,
        next,
    } = read_grants(s, next)?;
    let value = match grants {
        Listed::Held(grants) => Node {
            kind: lead.kind as u8,
            check: lead.check as u16,
            privileged: (lead.marks % 2) as u8,
            entry: (lead.marks / 2) as u8,
            grants,
        },
        Listed::Beyond => Node {
            kind: records::NO_KIND,
            check: 0,
            privileged: 0,
            entry: 0,
            grants: 0,
        },
    };
    Some(At { value, next })
}

// An edge row whose fields are all short.
#[tactic(auto, unfolding(records::specs::Records::edge_at, records::specs::Records::three_at))]
fn quick_edge(s: &[u8], at: usize) -> Option<At<Edge>>
    ensures { Quick (edge_at s.now at) result }
{
    if !has_room(s, at, ROW_ROOM) {
        return None;
    }
    let tag = short_field(s, at, Form::Tag(b'E'))?;
    let from = short_field(s, tag.next, Form::Number)?;
    let to = short_field(s, from.next, Form::Number)?;
    let way = short_field(s, to.next, Form::Way)?;
    let empty = short_field(s, way.next, Form::Empty)?;
    if !ends_row(s, empty.next) {
        return None;
    }
    Some(At {
        value: Edge {
            from: from.value as u16,
            to: to.value as u16,
            way: way.value as u8,
        },
        next: empty.next + 2,
    })
}

pub fn read_edge(s: &[u8], at: usize) -> Option<At<Edge>>
    ensures { result ≡ edge_at s.now at }
{
    quick_edge(s, at).or_else(|| records::read_edge(s, at))
}
