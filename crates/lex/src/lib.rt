// RFC 4180: the field at a position of a text, and what follows it. A cursor is a position by value.
#![tactic(auto, unfolding(crate::specs::Lex::followed, crate::specs::Lex::quoted_at, crate::specs::Lex::plain_at, crate::specs::Lex::field_at, crate::specs::Lex::before_at))]

ghost use Rattle.std.specs.Prelude.{◌≡◌};
ghost use Rattle.lex.specs.Lex.{followed, quoted_at, field_at, before_at};

use scan;
use scan::Class;

// A field from start up to end. Past it, and past what follows it, the text goes on at next.
#[derive(Clone, Copy, PartialEq, Eq)]
pub struct Part {
    pub start: usize,
    pub end: usize,
    pub next: usize,
}

// What follows a field.
#[derive(Clone, Copy, PartialEq, Eq)]
pub enum Mark {
    Comma,
    RowEnd,
}

#[derive(Clone, Copy, PartialEq, Eq)]
pub struct Lexed {
    pub part: Part,
    pub mark: Mark,
}

// A field from start up to end, where the text goes on at `a`.
// Inlined, as are `lex` and `part_before`: with calls here and in `writer` the stored run of `verdicts` takes 2,834,080 instructions, and 2,522,236 so.
#[inline(always)]
fn follow(s: &[u8], start: usize, end: usize, a: usize) -> Option<Lexed>
    ensures { result ≡ followed s.now start end a }
{
    let (next, mark) = match scan::field(s, a, s.len()) {
        [] => (a, Mark::RowEnd),
        [b',', ..] => (a + 1, Mark::Comma),
        [b'\r', b'\n', ..] => (a + 2, Mark::RowEnd),
        _ => return None,
    };
    let part = Part { start, end, next };
    Some(Lexed { part, mark })
}

// A field that a quote opened just before `b`.
fn lex_quoted(s: &[u8], b: usize) -> Option<Lexed>
    ensures { result ≡ quoted_at s.now b }
{
    let e = scan::run_end(s, b, Class::Inside);
    if e < s.len() {
        return follow(s, b, e, e + 1);
    }
    None
}

// The field at a position, and what follows it.
#[inline(always)]
pub fn lex(s: &[u8], at: usize) -> Option<Lexed>
    ensures { result ≡ field_at s.now at }
{
    if scan::peek(s, at) == b'"' {
        return lex_quoted(s, at + 1);
    }
    let e = scan::run_end(s, at, Class::Plain);
    follow(s, at, e, e)
}

// The field at a position, where the mark follows it.
#[inline(always)]
pub fn part_before(s: &[u8], at: usize, mark: Mark) -> Option<Part>
    ensures { result ≡ before_at mark s.now at }
{
    let lexed = lex(s, at)?;
    (lexed.mark == mark).then_some(lexed.part)
}
