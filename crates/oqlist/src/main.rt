// oqlist [PROFILE]: prints the tokens of standard input, under profile 0 or 1, or under the default where no word names one: how
// many, and then kind, length, suffix start, start and misplaced underscore of each. Any other word, or a second one, is refused
// before the input is looked at.
//
// What keeps it from reading or writing goes to standard error. It ends with 0 whatever it says, and with 1 where memory or standard
// error fails: the launcher gives 0 for tokens, 1 for a refusal and 2 for all else.
#![tactic(auto)]

ghost use Rattle.std.specs.Prelude.{◌≤◌, length, IfOk};

use arguments::{MOST, check_asked, list_asked};
use cutters::RECORD;
use std::env::FillError;
use std::io::{Error, Read};
use std::rt::Env;
use std::{fmt, io};
use text::Answer;

// One byte more than the program takes, so that a longer input is seen.
const BUFFER: usize = MOST + 1;

// A record for each byte: room that cannot be short.
const LIST: usize = RECORD * MOST;

// What can't be read or written.
#[derive(Drop)]
enum Fault {
    Input(Error),
    Output(Error),
}

// The first records of a list, one a line.
#[derive(Drop)]
struct Records<'a> {
    list: &'a [u32],
    count: usize,
}

impl fmt::Display for Records<'_> {
    fn fmt<W: fmt::Write>(&self, f: &mut fmt::Formatter<W>) -> fmt::Result {
        for record in self.list.as_chunks::<RECORD>().0.iter().take(self.count) {
            let [kind, len, suffix, start, misplaced] = *record;
            writeln!(f, "{kind} {len} {suffix} {start} {misplaced}")?;
        }
        Ok(())
    }
}

fn print_refusal(rt: &impl Print, given: impl Into<Answer>) -> io::Result<()> {
    let Answer { number, also } = given.into();
    println!(rt; "refused {number} {also}")
}

fn list_tokens(rt: &impl Print, words: usize, first: &[u8], text: &[u8]) -> io::Result<()> {
    let mut list = [0u32; LIST];
    match list_asked(words, first, text, &mut list) {
        Ok(count) => {
            let records = Records { list: &list, count };
            print!(rt; "tokens {count}\n{records}")
        }
        refused => print_refusal(rt, refused),
    }
}

// Standard input to its end, or as much of it as there is room for: a read that went well and gave no byte has left none of it. The place moves by
// what a read gave, so that there is no `for`.
fn read_input<'a>(input: &mut impl Read, room: &'a mut [u8]) -> io::Result<&'a [u8]>
    ensures { IfOk result (λ text. length text.now ≤ length room.old) }
{
    let mut len = 0;
    while len < room.len() {
        let more = input.read(&mut room[len..])?;
        if more == 0 {
            break;
        }
        len += more;
    }
    Ok(&room[..len])
}

// The system's words for an error, without the number that std puts behind them. This, and what is told and counted below, stands in each program: in a
// library it would owe a promise, and of the system's words and the environment there is none to give.
fn words_of(whole: &str) -> &str {
    whole
        .rsplit_once(" (os error ")
        .map_or(whole, |(words, _)| words)
}

// Tells on standard error, by the system's words for it, what went wrong.
fn fail<R: Eprint + Alloc>(rt: &R, what: &str, error: Error) -> io::Result<()> {
    let whole = format!(in rt.alloc(); "{error}")?;
    let why = words_of(whole.as_str());
    eprintln!(rt; "oqlist: standard {what}: {why}")
}

fn run<R: Print + Input>(rt: &R, words: usize, first: &[u8]) -> Result<(), Fault> {
    let checked = check_asked(words, first).map(|_| ());
    if checked.is_err() {
        return print_refusal(rt, checked).map_err(Fault::Output);
    }
    let mut room = [0u8; BUFFER];
    let text = read_input(&mut rt.reader(), &mut room).map_err(Fault::Input)?;
    list_tokens(rt, words, first, text).map_err(Fault::Output)
}

// How many words stand behind the program's name.
fn words(rt: &impl Env) -> usize {
    (1..usize::MAX)
        .take_while(|i| !matches!(rt.arg(*i, &mut [0u8; 1]), Err(FillError::NotPresent)))
        .count()
}

// Reads the first word. One that is longer than a profile's name is answered as an empty one, which names none either.
fn main(rt: HostRuntime) -> io::Result<()> {
    let mut first = [0u8; 1];
    let len = rt.arg(1, &mut first).unwrap_or(0);
    match run(&rt, words(&rt), &first[..len]) {
        Ok(()) => Ok(()),
        Err(Fault::Input(e)) => fail(&rt, "input", e),
        Err(Fault::Output(e)) => fail(&rt, "output", e),
    }
}
