// Writes a refusal's row as bytes.
#![tactic(auto)]

ghost use Rattle.std.specs.Prelude.{◌≡◌, length};
ghost use Rattle.writer.specs.Writer.{Adds};
ghost use Rattle.refusals.specs.Writes.{refusal_bytes, Writes};

use graph::Refusal;
use writer::Writer;

// Inlined: with a call, which keeps the place in memory, a refusal takes three times as long.
#[inline(always)]
fn put_refusal(row: &mut Writer, why: Refusal)
    ensures { Adds (refusal_bytes why) row.old row.new }
{
    row.put_all(b"refused,");
    row.put_number(why.number());
    row.put(b',');
    row.put_number(why.place());
    row.put_all(b"\r\n");
}

fn count_refusal(why: Refusal) -> usize
    ensures { result ≡ length (refusal_bytes why) }
{
    let mut row = Writer {
        out: &mut [],
        at: 0,
    };
    put_refusal(&mut row, why);
    row.at
}

// Writes a refusal's row at the start of a buffer.
pub fn write_refusal(out: &mut [u8], why: Refusal) -> Result<usize, Refusal>
    ensures { Writes (refusal_bytes why) out.old result out.new }
{
    let needed = count_refusal(why);
    if out.len() < needed {
        return Err(Refusal::NoRoom);
    }
    let mut row = Writer { out, at: 0 };
    put_refusal(&mut row, why);
    Ok(row.at)
}
