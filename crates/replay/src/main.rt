// Replays a list of calls: reads them on standard input, a line each (crate replay_script), and writes what the
// controller answers, sends and enters. This crate reads the input and hands its lines on: it may not know what a line
// asks for, how an answer is printed, nor any rule of the paper.
#![tactic(auto)]

ghost use Rattle.std.specs.Prelude.{◌≤◌};

use replay_host::lines::Run;
use replay_print::out::Out;
use replay_text::{SIZE, Text, lines};
use std::io;
use std::io::{Input, Read, Write};

// The input, and how many characters are held of the line that it is in.
#[derive(Drop)]
struct Source<I> {
    input: I,
    text: Text,
    filled: usize,
}

impl<I: Read> Source<I> {
    // One read of the input: how many bytes. One that fails ends the input.
    fn fill(&mut self) -> usize {
        if self.text.len() < self.filled {
            return 0;
        }
        self.input.read(&mut self.text[self.filled..]).unwrap_or(0)
    }

    // How much is held after a read of so many bytes; at the input's end one more, the newline that ends the last line.
    fn held(&mut self, count: usize) -> usize
        ensures { result ≤ 65536 }
    {
        if count == 0 && self.filled < self.text.len() {
            self.text[self.filled] = b'\n';
            return self.filled + 1;
        }
        self.filled.saturating_add(count).min(self.text.len())
    }

    // One read of the input, and the lines that it ends: whether there may be more. What is held of the line after
    // these is moved to the start, to be read on.
    fn chunk<W: Write>(&mut self, run: &mut Run<W>) -> bool {
        let count = self.fill();
        let n = self.held(count);
        let last = lines::past_last(&self.text[..n]);
        run.carry_out_lines(&self.text, last);
        let begun = lines::moved(&mut self.text[..n], last);
        self.filled = lines::shortened(&mut self.text[..begun]);
        0 < count
    }
}

fn main(rt: HostRuntime) {
    let mut source = Source {
        input: rt.reader(),
        text: [0; SIZE],
        filled: 0,
    };
    let mut run = Run::start(Out::new(io::writer(&rt)));
    for _ in 0..u64::MAX {
        if !source.chunk(&mut run) {
            break;
        }
    }
    run.host.out.finish();
}
