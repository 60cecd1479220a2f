// What is printed. A write that fails ends the program.
ghost use Rattle.std.specs.Prelude.{◌<◌};

use std::{fmt, io};
use text::{Answer, Refusal};

// Why a line is not answered by its task.
#[derive(Drop)]
pub enum Fault {
    Unknown,
    Unreadable,
    Refused(Refusal),
    Unwritten(io::Error),
}

pub type Result<T, E = Fault> = std::result::Result<T, E>;

impl From<io::Error> for Fault {
    fn from(error: io::Error) -> Fault {
        Fault::Unwritten(error)
    }
}

impl From<Refusal> for Fault {
    fn from(refusal: Refusal) -> Fault {
        Fault::Refused(refusal)
    }
}

pub fn print_answer(rt: &impl Print, given: impl Into<Answer>) -> io::Result<()> {
    let Answer { number, also } = given.into();
    print!(rt; "{number} {also}")
}

// What is printed in place of an answer.
pub fn print_fault(rt: &impl Print, fault: Fault) -> io::Result<()> {
    match fault {
        Fault::Unknown => print!(rt; "unknown"),
        Fault::Unreadable => print!(rt; "unreadable"),
        Fault::Refused(refusal) => print_answer(rt, Err::<usize, Refusal>(refusal)),
        Fault::Unwritten(error) => Err(error),
    }
}

// Words with a mark between them.
#[derive(Drop)]
pub struct Joined<'a> {
    pub words: &'a [u32],
    pub mark: &'a str,
}

impl fmt::Display for Joined<'_> {
    fn fmt<W: fmt::Write>(&self, f: &mut fmt::Formatter<W>) -> fmt::Result {
        let mark = self.mark;
        for (i, word) in self.words.iter().enumerate() {
            if 0 < i {
                write!(f, "{mark}")?;
            }
            write!(f, "{word}")?;
        }
        Ok(())
    }
}

// Two digits for each byte; a hyphen for none.
#[derive(Drop)]
pub struct Hex<'a>(pub &'a [u8]);

impl fmt::Display for Hex<'_> {
    fn fmt<W: fmt::Write>(&self, f: &mut fmt::Formatter<W>) -> fmt::Result {
        if self.0.is_empty() {
            return write!(f, "-");
        }
        for b in self.0 {
            write!(f, "{b:02x}")?;
        }
        Ok(())
    }
}

// The first records of a list, so many words each, with one mark before each record and another between its words.
pub fn print_records(
    rt: &impl Print,
    list: &[u32],
    width: usize,
    n: usize,
    before: &str,
    mark: &str,
) -> io::Result<()>
    requires { 0 < width }
{
    for words in list.chunks_exact(width).take(n) {
        let record = Joined { words, mark };
        print!(rt; "{before}{record}")?;
    }
    Ok(())
}
