// Answers the cases on standard input, one a line: prints each line again, with ` = ` and its answer behind it.
#![tactic(auto)]

mod comparisons;
mod keys;
mod lines;
mod listings;
mod numbers;
mod output;
mod records;
mod tasks;
mod texts;
mod words;

use std::io;

fn main(rt: HostRuntime) -> io::Result<()> {
    lines::run(&rt, &mut rt.reader())
}
