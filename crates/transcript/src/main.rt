// Runs the commands that are the lines of standard input, and prints each line, what is said behind it, what is complained of
// behind a `!`, and the status. `bench < FILE` has the bytes of FILE as its input; behind `> full` nothing can be said.
#![tactic(auto)]

use commands::answering::bench;
use commands::inspection::inspect;
use std::fmt::Display;
use std::{fs, io};
use worlds::world::World;

// The files of this folder, with the words, the input and the output of one line.
#[derive(Clone, Copy)]
struct Shown<'a> {
    rt: &'a HostRuntime,
    words: &'a str,
    input: &'a str,
    full: bool,
}

impl World for Shown<'_> {
    fn arguments(&mut self) -> anyhow::Result<Vec<String>> {
        let heap = self.rt.alloc();
        let words = self.words.split_whitespace().skip(1);
        Ok(
            words
                .map(|word| String::from_str(heap, word))
                .try_collect(heap)?,
        )
    }

    fn input(&mut self) -> io::Result<Vec<u8>> {
        fs::read(self.rt, self.input)
    }

    fn read(&mut self, name: &str) -> io::Result<Vec<u8>> {
        fs::read(self.rt, name)
    }

    fn write(&mut self, name: &str, bytes: &[u8]) -> io::Result<()> {
        fs::write(self.rt, name, bytes)
    }

    fn say<D: Display + Drop>(&mut self, text: D) -> io::Result<()> {
        if self.full {
            return Err(io::Error::from(io::ErrorKind::StorageFull));
        }
        self.rt.print(text)
    }

    fn complain<D: Display + Drop>(&mut self, line: D) {
        let _ = println!(self.rt; "! {line}");
    }
}

fn show(rt: &HostRuntime, line: &str) -> io::Result<()> {
    println!(rt; "$ {line}")?;
    let (rest, full) = match line.strip_suffix(" > full") {
        Some(rest) => (rest, true),
        None => (line, false),
    };
    let (words, input) = rest.split_once(" < ").unwrap_or((rest, ""));
    let mut world = Shown {
        rt,
        words,
        input,
        full,
    };
    let ran = if words == "bench" {
        bench(rt.alloc(), &mut world)
    } else {
        inspect(rt.alloc(), &mut world)
    };
    let status = ran.status();
    println!(rt; "= {status}")
}

fn main(rt: HostRuntime) -> io::Result<()> {
    for line in rt.lines(rt.alloc()) {
        show(&rt, line?.as_str())?;
    }
    Ok(())
}
