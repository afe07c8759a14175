// The members of a set as bytes.
#![tactic(auto)]

ghost use Rattle.std.specs.Prelude.{◌≡◌, length};
ghost use Rattle.writer.specs.Writer.{Adds, Puts};
ghost use Rattle.members.specs.Members.{members_from, after_first, spaced, set_bytes};

use sets::Set;
use writer::Writer;

// The members of a set, lowest first, and how many: in 64 places before they are written, as docs/DECISIONS.md has it (The rows).
fn list_members(list: &mut [u8], set: u64) -> usize
    requires { length list.old ≡ 64 }
    ensures { Puts (members_from set 0 64) list.old 0 result list.new }
{
    let mut count = 0;
    for p in 0..Set::LIMIT - set.leading_zeros() as usize {
        if (Set { bits: set }).has(p) {
            list[count] = p as u8;
            count += 1;
        }
    }
    count
}

// Numbers with a space before each.
fn put_rest(out: &mut Writer, list: &[u8])
    ensures { Adds (after_first list.now) out.old out.new }
{
    // Both are numbers of 64 bits, which is known where they are read.
    prove!(out.at <= usize::MAX && out.out.len() <= usize::MAX);
    for &p in list {
        out.put(b' ');
        out.put_number(p as usize);
    }
}

// Numbers with one space between.
fn put_list(out: &mut Writer, list: &[u8])
    ensures { Adds (spaced list.now) out.old out.new }
{
    // As in `put_rest`.
    prove!(out.at <= usize::MAX && out.out.len() <= usize::MAX);
    if let Some((first, rest)) = list.split_first() {
        out.put_number(*first as usize);
        put_rest(out, rest);
    }
}

// The members of a set, lowest first, with one space between.
pub fn put_set(out: &mut Writer, set: u64)
    ensures { Adds (set_bytes set) out.old out.new }
{
    let mut list = [0u8; Set::LIMIT];
    let count = list_members(&mut list, set);
    put_list(out, &list[..count]);
}
