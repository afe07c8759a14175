// The words, numbers and rows of answers.
use super::numbers::Entry;
use graph::Refusal;
use std::alloc::Global;
use std::io::{self, BufWriter, Stdout, Write};
use std::process::ExitCode;

// Where the answers go. After a write that fails nothing more is taken up, so that what was written is the start of the answers.
#[derive(Drop)]
pub(crate) struct Out {
    writer: BufWriter<Stdout, Global>,
    has_stopped: bool,
}

impl Out {
    pub(crate) fn new(alloc: Global, stdout: Stdout) -> io::Result<Out> {
        Ok(Out {
            writer: BufWriter::new(alloc, stdout)?,
            has_stopped: false,
        })
    }

    pub(crate) fn print(&mut self, bytes: &[u8]) {
        if !self.has_stopped {
            self.has_stopped = self.writer.write_all(bytes).is_err();
        }
    }

    pub(crate) fn print_number(&mut self, n: u64) {
        if !self.has_stopped {
            self.has_stopped = write!(self.writer, "{n}").is_err();
        }
    }

    // Writes what was printed so far, for a reader that waits for an answer before it asks again.
    pub(crate) fn flush(&mut self) {
        if !self.has_stopped {
            self.has_stopped = self.writer.flush().is_err();
        }
    }

    // Whether every answer was written.
    pub(crate) fn status(&self) -> ExitCode {
        if self.has_stopped {
            ExitCode::FAILURE
        } else {
            ExitCode::SUCCESS
        }
    }

    pub(crate) fn print_after_comma(&mut self, n: usize) {
        self.print(b",");
        self.print_number(n as u64);
    }

    pub(crate) fn print_refusal(&mut self, why: Refusal) {
        self.print(b"refused");
        self.print_after_comma(why.number());
        self.print_after_comma(why.place());
        self.print(b"\r\n");
    }

    // A line: a word that ends in a space, and a number.
    pub(crate) fn print_line(&mut self, word: &[u8], n: usize) {
        self.print(word);
        self.print_number(n as u64);
        self.print(b"\n");
    }

    pub(crate) fn print_entries<T: Entry>(&mut self, entries: &[T]) {
        for (i, &n) in entries.iter().enumerate() {
            if 0 < i {
                self.print(b" ");
            }
            self.print_number(n.into());
        }
        self.print(b"\n");
    }

    pub(crate) fn print_unless_kept(&mut self, kept: bool) {
        if !kept {
            self.print(b"written\n");
        }
    }
}
