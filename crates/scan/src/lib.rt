// What any reader of a text needs: a byte, a run of bytes of a class, a part of the text, a decimal number and an ascending list of them. A position is
// a number by value, and a part is handed on as a slice of the caller's text.
#![tactic(auto, unfolding(crate::specs::Scan::run, crate::specs::Scan::number_of))]

ghost use Rattle.std.specs.Prelude.{◌≡◌, ◌+◌, ◌≤◌, length, get_or, drop};
ghost use Rattle.scan.specs.Scan.{belongs, run, part_of, digits_from, number_of, members_of, held_of};
ghost use Rattle.scan.specs.Scan.Lists.{with_member};

// What was read, and the position past it.
#[derive(Clone, Copy, PartialEq, Eq)]
pub struct At<T> {
    pub value: T,
    pub next: usize,
}

// A class of bytes.
#[derive(Clone, Copy, PartialEq, Eq)]
pub enum Class {
    // What a field without quotes may hold: no quote, comma, CR or LF.
    Plain,
    // What stands between quotes: no quote.
    Inside,
    // What stands between the spaces of a list: no space.
    Word,
}

// Most bytes are above the comma, and settled by one test.
fn is_plain(b: u8) -> bool
    ensures { result ≡ belongs Class.Plain b }
{
    b',' < b || b != b',' && b != b'"' && b != b'\r' && b != b'\n'
}

impl Class {
    fn has(self, b: u8) -> bool
        ensures { result ≡ belongs self b }
    {
        match self {
            Class::Plain => is_plain(b),
            Class::Inside => b != b'"',
            Class::Word => b != b' ',
        }
    }
}

// How many bytes of a class the text begins with.
fn run_len(s: &[u8], class: Class) -> usize
    ensures { result ≡ run class s.now }
{
    s.iter().take_while(|b| class.has(**b)).count()
}

// Where the run of bytes of a class that starts at `at` ends.
pub fn run_end(s: &[u8], at: usize, class: Class) -> usize
    ensures { result ≡ at + run class (drop at s.now) }
{
    at + run_len(field(s, at, s.len()), class)
}

// The byte at a position, or 0 past the end: no Option, since the definitions read a text so (`get_or`).
pub fn peek(s: &[u8], at: usize) -> u8
    ensures { result ≡ get_or s.now at 0 }
{
    s.get(at).copied().unwrap_or(0)
}

// The part of the text from start up to end.
pub fn field(s: &[u8], start: usize, end: usize) -> &[u8]
    ensures { result.now ≡ part_of s.now start end }
{
    let end = end.min(s.len());
    let start = start.min(end);
    &s[start..end]
}

// Numbers of more digits are none, so that a `usize` holds every number.
pub const MOST_DIGITS: usize = 18;

// The digits of s as a number.
fn read_digits(s: &[u8]) -> Option<usize>
    requires { length s.now ≤ 18 }
    ensures { result ≡ digits_from 0 s.now }
{
    let mut v = 0;
    for &b in s {
        if !b.is_ascii_digit() {
            return None;
        }
        v = v * 10 + usize::from(b - b'0');
    }
    Some(v)
}

// A decimal number of at most so many digits, with no needless zeros.
pub fn number(s: &[u8], most: usize) -> Option<usize>
    ensures { result ≡ number_of most s.now }
{
    let n = s.len();
    let most = most.min(MOST_DIGITS);
    if n == 0 || most < n {
        return None;
    }
    if s[0] == b'0' {
        return (n == 1).then_some(0);
    }
    read_digits(s)
}

// A set is held in so many bits.
pub const SET_BITS: usize = 64;

// A set of numbers: its bits where they hold every member. No Option, since a list that goes beyond them is a list all the same.
#[derive(Clone, Copy, PartialEq, Eq)]
pub enum Listed {
    Held(u64),
    Beyond,
}

impl Listed {
    fn with(self, v: usize) -> Self
        ensures { result ≡ with_member self v }
    {
        match self {
            Listed::Held(bits) if v < SET_BITS => Listed::Held(bits | (1u64 << v)),
            _ => Listed::Beyond,
        }
    }
}

// Strictly ascending numbers of at most so many digits, one space between.
pub fn list(s: &[u8], most: usize) -> Option<Listed>
    ensures { result ≡ held_of (members_of most s.now) }
{
    let mut set = Listed::Held(0);
    if s.is_empty() {
        return Some(set);
    }
    let mut low = 0;
    for word in s.split(|b| *b == b' ') {
        let v = number(word, most)?;
        if v < low {
            return None;
        }
        set = set.with(v);
        low = v + 1;
    }
    Some(set)
}
