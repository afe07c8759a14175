// What a field of a row says.
#![tactic(auto, unfolding(crate::specs::Fields::says, crate::specs::Fields::said_at))]

ghost use Rattle.std.specs.Prelude.{◌≡◌};
ghost use Rattle.fields.specs.Fields.{letter_of, says, said_at};

use graph;
use lex;
use lex::Mark;
use scan;
use scan::At;

// A number in a field has at most so many digits.
pub const MOST_DIGITS: usize = 4;

// What a field says, by number: a node's kind, an edge's, a node's marks. The slices that a caller lends hold these numbers (docs/RULES.md).
const CALL_NODE: usize = graph::KIND_CALL as usize;

const RETURN_NODE: usize = graph::KIND_RETURN as usize;

pub const CHECK_NODE: usize = graph::KIND_CHECK as usize;

const CALL_EDGE: usize = graph::CALL as usize;

const TRANSFER_EDGE: usize = graph::TRANSFER as usize;

// Both marks of a node are one number, as `says` has them.
pub const MARK_PRIVILEGED: usize = 1;

pub const MARK_ENTRY: usize = 2;

pub const MARK_BOTH: usize = 3;

// What a field is to be.
#[derive(Clone, Copy, PartialEq, Eq)]
pub enum Form {
    Tag(u8),
    Number,
    Own(usize),
    Kind,
    Check(usize),
    Marks,
    Way,
    Empty,
}

// The byte of a field of one byte, or 0, as `letter_of` has it.
fn letter(l: &[u8]) -> u8
    ensures { result ≡ letter_of l.now }
{
    match l {
        [b] => *b,
        _ => 0,
    }
}

fn read_kind(l: &[u8]) -> Option<usize>
    ensures { result ≡ says Form.Kind l.now }
{
    match l {
        b"C" => Some(CALL_NODE),
        b"R" => Some(RETURN_NODE),
        b"K" => Some(CHECK_NODE),
        _ => None,
    }
}

fn read_marks(l: &[u8]) -> Option<usize>
    ensures { result ≡ says Form.Marks l.now }
{
    match l {
        [] => Some(0),
        b"P" => Some(MARK_PRIVILEGED),
        b"E" => Some(MARK_ENTRY),
        b"PE" => Some(MARK_BOTH),
        _ => None,
    }
}

fn read_way(l: &[u8]) -> Option<usize>
    ensures { result ≡ says Form.Way l.now }
{
    match l {
        b"C" => Some(CALL_EDGE),
        b"T" => Some(TRANSFER_EDGE),
        _ => None,
    }
}

// What a field says, as a number.
pub fn decode(form: Form, l: &[u8]) -> Option<usize>
    ensures { result ≡ says form l.now }
{
    match form {
        Form::Tag(b) => (letter(l) == b).then_some(0),
        Form::Number => scan::number(l, MOST_DIGITS),
        Form::Own(i) => scan::number(l, MOST_DIGITS).filter(|v| *v == i),
        Form::Kind => read_kind(l),
        Form::Check(kind) if kind == CHECK_NODE => scan::number(l, MOST_DIGITS),
        Form::Check(_) | Form::Empty => l.is_empty().then_some(0),
        Form::Marks => read_marks(l),
        Form::Way => read_way(l),
    }
}

// A field of a form that the mark follows.
pub fn read_field(s: &[u8], at: usize, form: Form, mark: Mark) -> Option<At<usize>>
    ensures { result ≡ said_at form mark s.now at }
{
    let part = lex::part_before(s, at, mark)?;
    let value = decode(form, scan::field(s, part.start, part.end))?;
    Some(At {
        value,
        next: part.next,
    })
}
