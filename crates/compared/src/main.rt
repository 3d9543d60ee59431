// `compared` reads a table of cases from standard input, and says in how many of them the answer is the one expected.
// A case is an input of the bench program, in lines `in`, or a store for the inspector, in a line `log P C L HEX`;
// then the lines expected in answer, each behind `out`, and an empty line.
#![tactic(auto)]

mod stores;

use crate::stores::store_of;
use anyhow::Context;
use comparing::cases::{Asked, Case, compare};
use std::alloc::{AllocError, Global};

// A case whose lines are being read.
#[derive(Drop)]
struct Reading {
    input: String,
    store: Option<Asked>,
    expected: String,
}

impl Reading {
    fn new(heap: Global) -> Reading {
        Reading {
            input: String::new(heap),
            store: None,
            expected: String::new(heap),
        }
    }

    fn take(&mut self, heap: Global, line: &str) -> anyhow::Result<()> {
        if let Some(text) = line.strip_prefix("in ") {
            self.input.push_str(text)?;
            self.input.push_str("\n")?;
        } else if let Some(words) = line.strip_prefix("log ") {
            self.store = Some(store_of(heap, words)?.context("a line `log` with other words")?);
        } else {
            let text = line.strip_prefix("out ").context("a line of no kind")?;
            self.expected.push_str(text)?;
            self.expected.push_str("\n")?;
        }
        Ok(())
    }

    fn case(self) -> Case {
        let input = self.input;
        Case {
            asked: self.store.unwrap_or(Asked::Bench { input }),
            expected: self.expected,
        }
    }
}

fn main(rt: HostRuntime) -> anyhow::Result<()> {
    let heap = rt.alloc();
    let mut cases = Vec::new(heap);
    let mut reading = Reading::new(heap);
    for line in rt.lines(heap) {
        let line = line?;
        if line.is_empty() {
            cases.push(reading.case())?;
            reading = Reading::new(heap);
        } else {
            reading.take(heap, line.as_str())?;
        }
    }
    let tally = compare(heap, cases.as_slice())?;
    let agreed = tally.agreed;
    let differed = tally.differed;
    println!(rt; "{agreed} cases agree, {differed} differ")?;
    Ok(())
}
