// Standard input, output and error.
ghost use Rattle.std.specs.Prelude.{◌≡◌, false, true, ℕ, ◌≤◌, ◌<◌, length, take, Ok, IfOk, IfSome};
ghost use Rattle.std.specs.Io.KnownBytes.{Appends, Consumes, IsAtEnd};

use std::io::{self, Read, Stderr, Write};
use std::process::ExitCode;

// What was read of the input: so many bytes, and its end was seen; or there is more than the buffer has places. No Option, since
// both are answered.
#[derive(Drop)]
pub(crate) enum Input {
    Whole(usize),
    TooLong,
}

// Reads until the buffer is full or nothing more comes, and answers how many bytes came. How many come at a time is the reader's choice, so there is
// nothing that a `for` could count.
fn read_full<R: Read>(input: &mut R, buffer: &mut [u8]) -> io::Result<usize>
    ensures fits { IfOk result (λ n. n ≤ length buffer.new) }
    ensures bytes { IfOk result (λ n. Consumes (R.remaining input.old) (R.remaining input.new) (take n buffer.new)) }
{
    let mut count: usize = 0;
    while count < buffer.len() {
        let more = input.read(&mut buffer[count..])?;
        if more == 0 {
            break;
        }
        count += more;
    }
    Ok(count)
}

// Tries one more byte: 0 at the end of the input, and 1 where there is one.
fn read_one_more<R: Read>(input: &mut R) -> io::Result<usize>
    ensures end { IfOk result (λ n. n ≡ 0 → IsAtEnd (R.remaining input.old)) }
    ensures more { IfOk result (λ n. 0 < n → IfSome (R.remaining input.old) (λ s. 0 < length s)) }
{
    let mut byte = [0u8; 1];
    input.read(&mut byte)
}

// Reads an input to its end. It is an error too where bytes follow what was its end.
pub(crate) fn read_input<R: Read>(input: &mut R, buffer: &mut [u8]) -> io::Result<Input>
    ensures fits { (n : ℕ) → result ≡ Ok (Input.Whole n) → n ≤ length buffer.new }
    ensures whole { (n : ℕ) → result ≡ Ok (Input.Whole n) → IfSome (R.remaining input.old) (λ s. s ≡ take n buffer.new) }
    ensures longer { result ≡ Ok Input.TooLong → IfSome (R.remaining input.old) (λ s. length buffer.new < length s) }
{
    let count = read_full(input, buffer)?;
    let more = read_one_more(input)?;
    if more == 0 {
        return Ok(Input::Whole(count));
    }
    if count < buffer.len() {
        return Err(io::ErrorKind::InvalidData.into());
    }
    Ok(Input::TooLong)
}

// Where the rows and the complaints go.
#[derive(Drop)]
pub(crate) struct Streams<W> {
    pub(crate) output: W,
    errors: Stderr,
    pub(crate) has_complained: bool,
}

impl<W: Write> Streams<W> {
    pub(crate) fn new(output: W, errors: Stderr) -> Streams<W>
        ensures output { result.output ≡ output }
        ensures quiet { result.has_complained ≡ false }
    {
        Streams {
            output,
            errors,
            has_complained: false,
        }
    }

    // A run that complained has failed.
    pub(crate) fn status(&self) -> ExitCode {
        if self.has_complained {
            ExitCode::FAILURE
        } else {
            ExitCode::SUCCESS
        }
    }
}

// A complaint that can't be written is still told by the exit status.
pub(crate) fn complain<W: Write>(streams: &mut Streams<W>, what: &[u8])
    ensures output_kept { streams.new.output ≡ streams.old.output }
    ensures told { streams.new.has_complained ≡ true }
{
    streams.has_complained = true;
    let _ = Write::write_all(&mut streams.errors, what);
}

// Writes to the output, and complains where not all of it could be written.
pub(crate) fn send<W: Write>(streams: &mut Streams<W>, out: &[u8], complaint: &[u8])
    ensures { streams.new.has_complained ≡ false → Appends (W.contents streams.old.output) (W.contents streams.new.output) out.now }
{
    if streams.output.write_all(out).is_err() {
        complain(streams, complaint);
    }
}
