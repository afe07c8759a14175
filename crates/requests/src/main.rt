// Answers requests from standard input, so that another implementation can be compared from outside. docs/REQUESTS.md says what each
// request asks for and how it is answered.
#![tactic(auto)]

mod calls;
mod graphs;
mod numbers;
mod show;
mod texts;

ghost use Rattle.std.specs.Prelude.{◌≤◌, length};

use numbers::read_numbers;
use show::Out;
use std::io::{self, Read, Stdin};
use std::process::ExitCode;

// The largest number of five digits.
const MOST_BYTES: usize = 99999;

// No more requests are answered.
const MOST_REQUESTS: usize = 1000000;

fn answer(out: &mut Out, letter: u8, bytes: &[u8]) {
    match letter {
        b'T' => texts::answer_text(out, bytes),
        b'L' => texts::answer_lengths(out, bytes),
        b'C' => calls::answer_calls(out, bytes),
        b'N' => {
            out.print(bytes);
            out.print(b"\n");
        }
        _ => {}
    }
}

// The five digits after the letter.
fn count(head: &[u8]) -> usize
    ensures { result ≤ 99999 }
{
    let mut one = [0usize];
    read_numbers(&mut one, head);
    one[0].min(MOST_BYTES)
}

// Reads and answers one request, if there is one that is whole.
fn serve(input: &mut Stdin, out: &mut Out, buffer: &mut [u8]) -> io::Result<()>
    requires { 99999 ≤ length buffer.old }
{
    let mut head = [0u8; 7];
    input.read_exact(&mut head)?;
    let n = count(&head[1..6]);
    input.read_exact(&mut buffer[..n])?;
    answer(out, head[0], &buffer[..n]);
    out.flush();
    Ok(())
}

fn main(rt: HostRuntime) -> io::Result<ExitCode> {
    let mut input = rt.stdin();
    let mut out = Out::new(rt.alloc(), rt.stdout())?;
    let mut buffer = [0u8; MOST_BYTES];
    for _ in 0..MOST_REQUESTS {
        if serve(&mut input, &mut out, &mut buffer).is_err() {
            break;
        }
    }
    Ok(out.status())
}
