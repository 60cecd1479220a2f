// oqsame OLD NEW [PROFILE]: whether a file is the one that was there before, in all but white space and closed comments. It says so of
// the counted tokens under profile 0 or 1, or under the default where none is named: they are the same exactly when the files' renewal
// keys are.
//
// It writes to standard output
//     same
// or, on the line behind `different`, the first counted token that differs: its number from 1 and where it stands in each file
// (`end` where a file has no more; places and lengths in bytes, lines and columns from 1, a column being a character)
//     different
//     token NUMBER, old kind KIND (NAME OF THE KIND) start START length LENGTH line LINE column COLUMN, new end
// or the answer to a file that is refused, with its name
//     refused NUMBER ALSO NAME
// What keeps it from comparing or writing goes to standard error. It ends with 0 whatever it says, and with 1 where memory or standard
// error fails: the launcher gives 0 for same, 1 for different and 2 for all else.
#![tactic(auto)]

mod kinds;

ghost use Rattle.std.specs.Prelude.{◌≤◌, length, IfOk};

use cutters::Kind;
use kinds::Name;
use same::{Agreement, Comparison, Place, Sight};
use std::env::FillError;
use std::io::{Error, Read};
use std::rt::{Env, Files};
use std::{fs, io};
use text::{Answer, Refusal};

// The most bytes of a file: the program's own limit. Both files stand on the stack.
const MOST: usize = 1048576;

// The most bytes of a file's name that the program reads, one more than the system takes.
const NAME: usize = 4096;

// The system's numbers for errors that the program itself finds.
const EINVAL: i32 = 22;

const ENAMETOOLONG: i32 = 36;

const EILSEQ: i32 = 84;

// A file's name, which is what the system takes and need not be text, and what the file holds.
#[derive(Clone, Copy)]
struct Input<'a> {
    name: &'a [u8],
    text: &'a [u8],
}

// What went wrong, and with what: a file by its name, or what the program calls it.
#[derive(Drop)]
struct Trouble<'a> {
    what: &'a [u8],
    fault: Fault,
}

#[derive(Drop)]
enum Fault {
    System(Error),
    Interrupted,
    TooLong,
}

fn print_place(rt: &impl Print, text: &[u8], at: usize) -> io::Result<()> {
    let Place { line, column } = same::place_of(text, at);
    print!(rt; " line {line} column {column}")
}

fn print_sight(rt: &impl Print, label: &str, text: &[u8], sight: Sight) -> io::Result<()> {
    let Sight { kind, start, len } = sight;
    if len == 0 {
        return print!(rt; ", {label} end");
    }
    let name = Name(Kind::try_from(kind).unwrap_or(Kind::Unknown));
    print!(rt; ", {label} kind {kind} ({name}) start {start} length {len}")?;
    print_place(rt, text, start)
}

fn print_refusal(rt: &impl Print, name: &[u8], refusal: Refusal) -> io::Result<()> {
    let Answer { number, also } = Answer::from(Err::<usize, _>(refusal));
    print!(rt; "refused {number} {also} ")?;
    rt.write_all(name)?;
    println!(rt)
}

fn print_difference(rt: &impl Print, old: &[u8], new: &[u8], a: Agreement) -> io::Result<()> {
    let number = a.agreed.saturating_add(1);
    print!(rt; "different\ntoken {number}")?;
    print_sight(rt, "old", old, a.old)?;
    print_sight(rt, "new", new, a.new)?;
    println!(rt)
}

fn print_comparison(
    rt: &impl Print,
    profile: u32,
    old: Input<'_>,
    new: Input<'_>,
) -> io::Result<()> {
    match same::compare(old.text, new.text, profile) {
        Comparison::Same(_) => println!(rt; "same"),
        Comparison::Different(a) => print_difference(rt, old.text, new.text, a),
        Comparison::OldRefused(refusal) => print_refusal(rt, old.name, refusal),
        Comparison::NewRefused(refusal) => print_refusal(rt, new.name, refusal),
    }
}

// Opens a file for reading. The system's names are bytes, and std's are text: a name that is no text is refused here.
fn open<R: Files>(rt: &R, name: &[u8]) -> io::Result<R::File> {
    let path = str::from_utf8(name).map_err(|_| Error::from_raw_os_error(EILSEQ))?;
    fs::open(rt, path)
}

// Reads until the room is full, the file ends or a read fails, and answers how many bytes it put at the start of the room. The place moves by what a
// read gave, so that there is no `for`.
fn read_full(file: &mut impl Read, room: &mut [u8]) -> usize
    ensures { result ≤ length room.new }
{
    let mut done = 0;
    while done < room.len() {
        match file.read(&mut room[done..]) {
            Ok(0) | Err(_) => break,
            Ok(n) => done += n,
        }
    }
    done
}

// Reads all of a file: where reading stopped it has to end.
fn read_file<'a>(rt: &impl Files, name: &[u8], room: &'a mut [u8]) -> Result<&'a [u8], Fault>
    ensures { IfOk result (λ text. length text.now ≤ length room.old) }
{
    let mut file = open(rt, name).map_err(Fault::System)?;
    let n = read_full(&mut file, room);
    match file.read(&mut [0u8; 1]) {
        Ok(0) => Ok(&room[..n]),
        Ok(_) if n < MOST => Err(Fault::Interrupted),
        Ok(_) => Err(Fault::TooLong),
        Err(e) => Err(Fault::System(e)),
    }
}

fn read_input<'a>(
    rt: &impl Files,
    name: &'a [u8],
    room: &'a mut [u8],
) -> Result<Input<'a>, Trouble<'a>> {
    match read_file(rt, name, room) {
        Ok(text) => Ok(Input { name, text }),
        Err(fault) => Err(Trouble { what: name, fault }),
    }
}

// The word behind the program's own name, or the system's word for why it was not read.
fn read_name<'a>(
    rt: &impl Env,
    i: usize,
    what: &'a [u8],
    room: &'a mut [u8],
) -> Result<&'a [u8], Trouble<'a>> {
    let number = match rt.arg(i, room) {
        Ok(n) => return Ok(&room[..n]),
        Err(FillError::NotPresent) => EINVAL,
        Err(FillError::TooLong) => ENAMETOOLONG,
    };
    let fault = Fault::System(Error::from_raw_os_error(number));
    Err(Trouble { what, fault })
}

// Reads the two names, then the two files. It takes arrays: where `run` lends slices of its own, the check of their ends runs out of stack.
fn compare<'a, R: Print + Env + Files>(
    rt: &R,
    profile: u32,
    old_name: &'a mut [u8; NAME],
    old: &'a mut [u8; MOST],
    new_name: &'a mut [u8; NAME],
    new: &'a mut [u8; MOST],
) -> Result<(), Trouble<'a>> {
    let old_name = read_name(rt, 1, b"OLD", old_name)?;
    let new_name = read_name(rt, 2, b"NEW", new_name)?;
    let old = read_input(rt, old_name, old)?;
    let new = read_input(rt, new_name, new)?;
    print_comparison(rt, profile, old, new).map_err(|e| Trouble {
        what: b"standard output",
        fault: Fault::System(e),
    })
}

// The system's words for an error, without the number that std puts behind them. This, and what is told and counted below, stands in each program: in a
// library it would owe a promise, and of the system's words and the environment there is none to give.
fn words_of(whole: &str) -> &str {
    whole
        .rsplit_once(" (os error ")
        .map_or(whole, |(words, _)| words)
}

// Tells on standard error what went wrong, by the system's words for it where it has some.
fn tell(rt: &HostRuntime, trouble: Trouble<'_>) -> io::Result<()> {
    let Trouble { what, fault } = trouble;
    eprint!(rt; "oqsame: ")?;
    if let Fault::System(error) = fault {
        let whole = format!(in rt.alloc(); "{error}")?;
        let why = words_of(whole.as_str());
        rt.stderr().write_all(what)?;
        return eprintln!(rt; ": {why}");
    }
    rt.stderr().write_all(what)?;
    if let Fault::Interrupted = fault {
        return eprintln!(rt; ": reading was interrupted");
    }
    eprintln!(rt; ": longer than {MOST} bytes")
}

// Goes on where the words behind the two names, the first of which is lent, ask for a profile that is known.
fn run(rt: &HostRuntime, words: usize, first: &[u8]) -> io::Result<()> {
    let Ok(profile) = arguments::check_asked(words, first) else {
        return eprintln!(rt; "oqsame: the profile, behind the two names, must be 0 or 1");
    };
    let mut old_name = [0u8; NAME];
    let mut old = [0u8; MOST];
    let mut new_name = [0u8; NAME];
    let mut new = [0u8; MOST];
    compare(
        rt,
        profile,
        &mut old_name,
        &mut old,
        &mut new_name,
        &mut new,
    )
    .or_else(|trouble| tell(rt, trouble))
}

// How many words the program was called by, its own name among them.
fn words(rt: &impl Env) -> usize {
    (0..usize::MAX)
        .take_while(|i| !matches!(rt.arg(*i, &mut [0u8; 1]), Err(FillError::NotPresent)))
        .count()
}

// Reads the profile, if a word behind the two names is to name it. One that is longer than a profile's name is answered as an empty
// one, which names none either.
fn main(rt: HostRuntime) -> io::Result<()> {
    let mut first = [0u8; 1];
    let len = rt.arg(3, &mut first).unwrap_or(0);
    match words(&rt) {
        3 => run(&rt, 0, b""),
        4 => run(&rt, 1, &first[..len]),
        _ => eprintln!(rt; "usage: oqsame OLD NEW [PROFILE]"),
    }
}
