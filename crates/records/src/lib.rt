// Reads a row of a text by its fields: the first row, the parts of a node's, an edge's.
#![tactic(auto)]

ghost use Rattle.std.specs.Prelude.{◌≡◌};
ghost use Rattle.scan.specs.Scan.{listed};
ghost use Rattle.records.specs.Records.{read_as, grants_at, three_at, lead_at, header_at, edge_at};

use fields;
use fields::Form;
use graph::{Edge, Size};
use lex;
use lex::Mark;
use rules;
use scan;
use scan::{At, Listed};

// Grants that end a row.
#[tactic(auto, unfolding(crate::specs::Records::grants_at))]
pub fn read_grants(s: &[u8], at: usize) -> Option<At<Listed>>
    ensures { result ≡ read_as listed (grants_at s.now at) }
{
    let part = lex::part_before(s, at, Mark::RowEnd)?;
    let value = scan::list(scan::field(s, part.start, part.end), fields::MOST_DIGITS)?;
    Some(At {
        value,
        next: part.next,
    })
}

// What a node row says before its grants.
#[derive(Clone, Copy)]
pub struct Lead {
    pub kind: usize,
    pub check: usize,
    pub marks: usize,
}

// A node row before its grants, where its own number is i.
#[tactic(auto, unfolding(crate::specs::Records::lead_at))]
pub fn read_lead(s: &[u8], at: usize, i: usize) -> Option<At<Lead>>
    ensures { result ≡ lead_at s.now at i }
{
    let tag = fields::read_field(s, at, Form::Tag(b'N'), Mark::Comma)?;
    let own = fields::read_field(s, tag.next, Form::Own(i), Mark::Comma)?;
    let kind = fields::read_field(s, own.next, Form::Kind, Mark::Comma)?;
    let check = fields::read_field(s, kind.next, Form::Check(kind.value), Mark::Comma)?;
    let marks = fields::read_field(s, check.next, Form::Marks, Mark::Comma)?;
    Some(At {
        value: Lead {
            kind: kind.value,
            check: check.value,
            marks: marks.value,
        },
        next: marks.next,
    })
}

// The kind of a node whose grants 64 bits can't hold: none, so that it breaks the node's rule as its grants do.
pub const NO_KIND: u8 = 255;

// What a row of a letter and three fields says.
#[derive(Clone, Copy)]
struct Three {
    a: usize,
    b: usize,
    c: usize,
}

// A letter, two numbers, a field of a form and two empty fields.
#[tactic(auto, unfolding(crate::specs::Records::three_at))]
fn read_three(s: &[u8], at: usize, letter: u8, form: Form) -> Option<At<Three>>
    ensures { result ≡ three_at letter form s.now at }
{
    let tag = fields::read_field(s, at, Form::Tag(letter), Mark::Comma)?;
    let a = fields::read_field(s, tag.next, Form::Number, Mark::Comma)?;
    let b = fields::read_field(s, a.next, Form::Number, Mark::Comma)?;
    let c = fields::read_field(s, b.next, form, Mark::Comma)?;
    let empty = fields::read_field(s, c.next, Form::Empty, Mark::Comma)?;
    let last = fields::read_field(s, empty.next, Form::Empty, Mark::RowEnd)?;
    Some(At {
        value: Three {
            a: a.value,
            b: b.value,
            c: c.value,
        },
        next: last.next,
    })
}

#[tactic(auto, unfolding(crate::specs::Records::edge_at))]
pub fn read_edge(s: &[u8], at: usize) -> Option<At<Edge>>
    ensures { result ≡ edge_at s.now at }
{
    let At { value: three, next } = read_three(s, at, b'E', Form::Way)?;
    Some(At {
        value: Edge {
            from: three.a as u16,
            to: three.b as u16,
            way: three.c as u8,
        },
        next,
    })
}

// The first row.
#[tactic(auto, unfolding(crate::specs::Records::header_at))]
pub fn read_header(s: &[u8], at: usize) -> Option<At<Size>>
    ensures { result ≡ header_at s.now at }
{
    let At { value: three, next } = read_three(s, at, b'G', Form::Number)?;
    let value = Size {
        k: three.a,
        n: three.b,
        m: three.c,
    };
    rules::in_range(value).then_some(At { value, next })
}
