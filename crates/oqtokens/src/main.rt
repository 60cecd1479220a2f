// oqtokens [PROFILE]: prints the tokens of standard input, of any length, while it is read, as `oqlist` prints them and under the profile that
// it takes: each as soon as it is handed out, and at the end how many there were, or the refusal. It keeps one chunk at a time, and nothing of a
// token but its numbers, so that its memory does not grow.
//
// What keeps it from reading or writing goes to standard error. It ends with 0 whatever it says, and with 1 where memory or standard error
// fails: the launcher gives 0 for tokens, 1 for a refusal and 2 for all else.
#![tactic(auto)]

use arguments::check_asked;
use cutters::RECORD;
use parts::{Fed, Lexer};
use std::env::FillError;
use std::io::{Error, Read};
use std::rt::Env;
use std::{fmt, io};
use text::Answer;

// The most bytes that are read at once.
const CHUNK: usize = 4096;

// Room for all tokens that a chunk can hand out.
const LIST: usize = RECORD * (CHUNK + 5);

// What can't be read or written.
#[derive(Drop)]
enum Fault {
    Input(Error),
    Output(Error),
}

// The first records of a list, one a line. They are printed as one, so that not each number is a write of its own.
#[derive(Drop)]
struct Records<'a> {
    list: &'a [u32],
    count: usize,
}

impl fmt::Display for Records<'_> {
    fn fmt<W: fmt::Write>(&self, f: &mut fmt::Formatter<W>) -> fmt::Result {
        for record in self.list.as_chunks::<RECORD>().0.iter().take(self.count) {
            let [kind, len, suffix, start, misplaced] = *record;
            writeln!(f, "{kind} {len} {suffix} {start} {misplaced}")?;
        }
        Ok(())
    }
}

fn print_refusal(rt: &impl Print, given: impl Into<Answer>) -> io::Result<()> {
    let Answer { number, also } = given.into();
    println!(rt; "refused {number} {also}")
}

// The next chunk, or the end where there is none. No text is asked for, so that no carry is lent.
fn take(lexer: Lexer, chunk: &[u8], list: &mut [u32]) -> Fed {
    if chunk.is_empty() {
        return parts::finish(lexer, &mut [], list);
    }
    parts::feed(lexer, chunk, &mut [], list)
}

// Goes through the input. A proved loop has to end, and nothing says that the input does: no run uses up these turns.
fn list_input<R: Print + Input>(rt: &R, profile: u32) -> Result<(), Fault> {
    let mut chunk = [0u8; CHUNK];
    let mut list = [0u32; LIST];
    let mut input = rt.reader();
    let mut lexer = parts::start(profile);
    let mut sum = 0u64;
    for _ in 0..u64::MAX {
        let n = input.read(&mut chunk).map_err(Fault::Input)?;
        let fed = take(lexer, &chunk[..n], &mut list);
        lexer = fed.lexer;
        let count = fed.answer.also;
        if fed.answer.number != text::DONE {
            return print_refusal(rt, fed.answer).map_err(Fault::Output);
        }
        let records = Records {
            list: &list,
            count: count as usize,
        };
        rt.print(records).map_err(Fault::Output)?;
        sum = sum.wrapping_add(count);
        if n == 0 {
            break;
        }
    }
    println!(rt; "tokens {sum}").map_err(Fault::Output)
}

// The system's words for an error, without the number that std puts behind them. This, and what is told and counted below, stands in each program: in a
// library it would owe a promise, and of the system's words and the environment there is none to give.
fn words_of(whole: &str) -> &str {
    whole
        .rsplit_once(" (os error ")
        .map_or(whole, |(words, _)| words)
}

// Tells on standard error, by the system's words for it, what went wrong.
fn fail<R: Eprint + Alloc>(rt: &R, what: &str, error: Error) -> io::Result<()> {
    let whole = format!(in rt.alloc(); "{error}")?;
    let why = words_of(whole.as_str());
    eprintln!(rt; "oqtokens: standard {what}: {why}")
}

fn run<R: Print + Input>(rt: &R, words: usize, first: &[u8]) -> Result<(), Fault> {
    match check_asked(words, first) {
        Ok(profile) => list_input(rt, profile),
        Err(refusal) => print_refusal(rt, Err::<(), _>(refusal)).map_err(Fault::Output),
    }
}

// How many words stand behind the program's name.
fn words(rt: &impl Env) -> usize {
    (1..usize::MAX)
        .take_while(|i| !matches!(rt.arg(*i, &mut [0u8; 1]), Err(FillError::NotPresent)))
        .count()
}

// Reads the first word. One that is longer than a profile's name is answered as an empty one, which names none either.
fn main(rt: HostRuntime) -> io::Result<()> {
    let mut first = [0u8; 1];
    let len = rt.arg(1, &mut first).unwrap_or(0);
    match run(&rt, words(&rt), &first[..len]) {
        Ok(()) => Ok(()),
        Err(Fault::Input(e)) => fail(&rt, "input", e),
        Err(Fault::Output(e)) => fail(&rt, "output", e),
    }
}
