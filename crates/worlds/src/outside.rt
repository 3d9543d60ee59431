use crate::world::World;
use anyhow::anyhow;
use std::env::Env;
use std::fmt::Display;
use std::io::Read;
use std::rt::Files;
use std::{env, fs, io};

// The world that a runtime reaches, of which nothing is known.
#[derive(Clone, Copy)]
pub struct Outside<'a, R> {
    pub rt: &'a R,
}

impl<R: Env + Files + Input + Print + Eprint + AllocGlobal> World for Outside<'_, R> {
    // The words of an error take memory too; where there is none, want of it is what is said.
    fn arguments(&mut self) -> anyhow::Result<Vec<String>> {
        let heap = self.rt.alloc();
        match env::args(self.rt) {
            Ok(words) => Ok(words.skip(1).collect(heap)?),
            Err(e) => Err(anyhow!(format!(in heap; "cannot read the arguments: {e}")?)),
        }
    }

    fn input(&mut self) -> io::Result<Vec<u8>> {
        let mut bytes = Vec::new(self.rt.alloc());
        self.rt.reader().read_to_end(&mut bytes)?;
        Ok(bytes)
    }

    fn read(&mut self, name: &str) -> io::Result<Vec<u8>> {
        fs::read(self.rt, name)
    }

    fn write(&mut self, name: &str, bytes: &[u8]) -> io::Result<()> {
        fs::write(self.rt, name, bytes)
    }

    fn say<D: Display + Drop>(&mut self, text: D) -> io::Result<()> {
        self.rt.print(text)
    }

    fn complain<D: Display + Drop>(&mut self, line: D) {
        let _ = self.rt.eprintln(line);
    }
}
