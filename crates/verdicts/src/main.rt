// Reads a graph's text from standard input and writes the result's rows, or the refusal's, to standard output. Nothing is written there unless the end
// of the input was seen: a text that was cut short by a failed read may be a good text of another graph.
#![tactic(auto)]

ghost use Rattle.std.specs.Prelude.{◌≡◌, List, false, true, ℕ, ◌≤◌, ◌<◌, length, IfSome};
ghost use Rattle.std.specs.Io.KnownBytes.{Appends};
ghost use Rattle.answer.specs.Prints.{Prints, Answers};
ghost use Rattle.verdicts.specs.Answered.{Answered};

use extent::{MOST_BYTES, Slots};
use graph::Refusal;
use std::io::{Read, Write};
use std::process::ExitCode;
use stream::{Input, Streams};

mod stream;

// Texts up to this length seldom have an answer above 65,536 bytes.
const SHORT_TEXT: usize = 8192;

// What is printed for a text, at the start of the buffer, and how many bytes it is; or refusal 10 where the buffer is too short.
fn answer_text(out: &mut [u8], text: &[u8]) -> Result<usize, Refusal>
    ensures { Answers text.now out.old result out.new }
{
    let mut slots = Slots::new();
    let mut into = slots.places();
    answer::write_answer(out, &mut into, text)
}

fn send<W: Write>(streams: &mut Streams<W>, out: &[u8])
    ensures { streams.new.has_complained ≡ false → Appends (W.contents streams.old.output) (W.contents streams.new.output) out.now }
{
    stream::send(
        streams,
        out,
        b"verdicts: the rows could not be written to their end\n",
    );
}

// What is written for a text is what the text prints.
fn print<W: Write>(streams: &mut Streams<W>, text: &[u8], out: &[u8])
    requires { Prints text.now out.now }
    ensures { streams.new.has_complained ≡ false → Answered text.now (W.contents streams.old.output) (W.contents streams.new.output) }
{
    send(streams, out);
}

// The same for every text above 65,536 bytes.
fn print_for_long<W: Write>(streams: &mut Streams<W>, out: &[u8])
    requires { (s : List ℕ) → 65536 < length s → Prints s out.now }
    ensures { streams.new.has_complained ≡ false → (s : List ℕ) → 65536 < length s → Answered s (W.contents streams.old.output) (W.contents streams.new.output) }
{
    send(streams, out);
}

// Prints the answer where the buffer is long enough for it, and says whether it was. For every one 440,000 bytes are enough: 1,024 rows of at most
// 429 bytes and the header's 29.
fn print_from<W: Write>(streams: &mut Streams<W>, out: &mut [u8], text: &[u8]) -> bool
    ensures long_enough { 440000 ≤ length out.old → result ≡ true }
    ensures untouched { result ≡ false → streams.new ≡ streams.old }
    ensures answered { result ≡ true → streams.new.has_complained ≡ false → Answered text.now (W.contents streams.old.output) (W.contents streams.new.output) }
{
    let Ok(count) = answer_text(out, text) else {
        return false;
    };
    print(streams, text, &out[..count]);
    true
}

// A function of its own beside `print_long`, which promises more: there the buffer is long enough for every answer.
fn print_short<W: Write>(streams: &mut Streams<W>, text: &[u8]) -> bool
    ensures untouched { result ≡ false → streams.new ≡ streams.old }
    ensures answered { result ≡ true → streams.new.has_complained ≡ false → Answered text.now (W.contents streams.old.output) (W.contents streams.new.output) }
{
    let mut out = [0u8; 65536];
    print_from(streams, &mut out, text)
}

fn print_long<W: Write>(streams: &mut Streams<W>, text: &[u8])
    ensures { streams.new.has_complained ≡ false → Answered text.now (W.contents streams.old.output) (W.contents streams.new.output) }
{
    let mut out = [0u8; 440000];
    if !print_from(streams, &mut out, text) {
        unreachable!()
    }
}

// Short texts are spared the clearing of the long buffer.
fn print_answer<W: Write>(streams: &mut Streams<W>, text: &[u8])
    ensures { streams.new.has_complained ≡ false → Answered text.now (W.contents streams.old.output) (W.contents streams.new.output) }
{
    if SHORT_TEXT < text.len() || !print_short(streams, text) {
        print_long(streams, text);
    }
}

// A text above 65,536 bytes is refused, and none of it has to be seen.
fn print_too_long<W: Write>(streams: &mut Streams<W>)
    ensures { streams.new.has_complained ≡ false → (s : List ℕ) → 65536 < length s → Answered s (W.contents streams.old.output) (W.contents streams.new.output) }
{
    let mut out = [0u8; 64];
    let Ok(end) = refusals::write_refusal(&mut out, Refusal::TooLong) else {
        unreachable!()
    };
    print_for_long(streams, &out[..end]);
}

fn complain_unread<W: Write>(streams: &mut Streams<W>)
    ensures output_kept { streams.new.output ≡ streams.old.output }
    ensures told { streams.new.has_complained ≡ true }
{
    stream::complain(
        streams,
        b"verdicts: the text could not be read to its end\n",
    );
}

// Unless a complaint was made, the output has what the whole input prints.
fn answer_input<R: Read, W: Write>(input: &mut R, streams: &mut Streams<W>)
    ensures { streams.new.has_complained ≡ false → IfSome (R.remaining input.old) (λ s. Answered s (W.contents streams.old.output) (W.contents streams.new.output)) }
{
    let mut buffer = [0u8; MOST_BYTES];
    match stream::read_input(input, &mut buffer) {
        Ok(Input::Whole(count)) => print_answer(streams, &buffer[..count]),
        Ok(Input::TooLong) => print_too_long(streams),
        Err(_) => complain_unread(streams),
    }
}

fn main(rt: HostRuntime) -> ExitCode {
    let mut streams = Streams::new(rt.stdout(), rt.stderr());
    answer_input(&mut rt.stdin(), &mut streams);
    streams.status()
}
