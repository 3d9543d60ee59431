ghost use Rattle.std.specs.Prelude.{map, None, Option, IfSome, MatchResult, string_bytes};
ghost use Rattle.std.specs.Fmt.{with_newline};
ghost use Rattle.worlds.specs.Worlds.{State, GivesArguments, GivesInput, InputRead, GivesFile, Stays, Writes, WritesPart, Says, SaysPart, Complains};

use std::fmt::Display;
use std::io;

pub trait World {
    // What is in the world, where that is known.
    ghost state: { Self → Option State } = { λ _. None };

    // The words behind the program's name.
    fn arguments(&mut self) -> anyhow::Result<Vec<String>>
        ensures { MatchResult result
            (λ words. GivesArguments (state self.old) (state self.new) (map string_bytes words.items))
            (λ _. Stays (state self.old) (state self.new)) };

    // Standard input, to its end.
    fn input(&mut self) -> io::Result<Vec<u8>>
        ensures { MatchResult result
            (λ bytes. GivesInput (state self.old) (state self.new) bytes.items)
            (λ _. InputRead (state self.old) (state self.new)) };

    // The bytes of a file.
    fn read(&mut self, name: &str) -> io::Result<Vec<u8>>
        ensures { MatchResult result
            (λ bytes. GivesFile (state self.old) (state self.new) name.now bytes.items)
            (λ _. Stays (state self.old) (state self.new)) };

    // Makes these bytes a file's.
    fn write(&mut self, name: &str, bytes: &[u8]) -> io::Result<()>
        ensures { MatchResult result
            (λ _. Writes (state self.old) (state self.new) name.now bytes.now)
            (λ _. WritesPart (state self.old) (state self.new) name.now) };

    // Says a text on standard output.
    fn say<D: Display + Drop>(&mut self, text: D) -> io::Result<()>
        ensures { MatchResult result
            (λ _. IfSome (D.output text) (Says (state self.old) (state self.new)))
            (λ _. SaysPart (state self.old) (state self.new)) };

    // Says a line on standard error. Where that is not heard, there is no one left to tell.
    fn complain<D: Display + Drop>(&mut self, line: D)
        ensures { IfSome (with_newline (D.output line)) (Complains (state self.old) (state self.new)) };
}
