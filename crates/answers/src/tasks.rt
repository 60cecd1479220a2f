// The tasks:
//     cp N, lowbyte N, mode M, fatal E
//     utf8 HEX, ident HEX, char HEX, byte HEX
//     tok PROFILE HEX, unescape MODE HEX, key PROFILE HEX
//     tokroom PROFILE WORDS HEX, itemroom MODE WORDS HEX, keyroom PROFILE BYTES HEX, rowroom PROFILE RECORDS HEX
//     body PROFILE INDEX MODE HEX, pair PROFILE HEX HEX
//     oqlist ARGUMENTS HEX, compare PROFILE HEX HEX
use crate::lines::Line;
use crate::output::{Fault, Result, print_answer, print_fault};
use crate::words::{TEXT, Words, bytes};
use crate::{comparisons, keys, listings, numbers, records, texts};
use cutters::RECORD;
use listing::tokenize;
use std::io;
use text::Answer;
use unescape::unescape_literal;

// What a call answers to a text.
fn text<A: Into<Answer>, F: Fn(&[u8]) -> A>(
    rt: &impl Print,
    words: Words<'_>,
    call: F,
) -> Result<()>
    requires { F.IsAlwaysCallable call }
{
    let mut room = [0u8; TEXT];
    let text = bytes(words.rest(), &mut room)?;
    print_answer(rt, call(text))?;
    Ok(())
}

// Answers a line by its task.
fn answer(rt: &impl Print, line: &Line) -> Result<()> {
    if line.is_too_long() {
        return Err(Fault::Unreadable);
    }
    let mut words = Words::of(line.bytes());
    match words.word() {
        b"cp" => numbers::cp(rt, words),
        b"lowbyte" => numbers::low_byte(rt, words),
        b"mode" => numbers::mode(rt, words),
        b"fatal" => numbers::fatal(rt, words),
        b"utf8" => text(rt, words, texts::utf8),
        b"ident" => text(rt, words, lexer::is_ident),
        b"char" => text(rt, words, texts::char),
        b"byte" => text(rt, words, texts::byte),
        b"tok" => records::listed(rt, words, RECORD, tokenize),
        b"unescape" => records::listed(rt, words, records::ITEM, unescape_literal),
        b"key" => keys::key(rt, words),
        b"tokroom" => records::room(rt, words, tokenize),
        b"itemroom" => records::room(rt, words, unescape_literal),
        b"keyroom" => keys::key_room(rt, words),
        b"rowroom" => records::row_room(rt, words),
        b"body" => records::body(rt, words),
        b"pair" => keys::pair(rt, words),
        b"oqlist" => listings::answer(rt, words),
        b"compare" => comparisons::answer(rt, words),
        _ => Err(Fault::Unknown),
    }
}

// Prints the line and its answer. Of a line too long there is the beginning.
pub fn answer_line(rt: &impl Print, line: &Line) -> io::Result<()> {
    rt.write_all(line.bytes())?;
    print!(rt; " = ")?;
    answer(rt, line).or_else(|fault| print_fault(rt, fault))?;
    println!(rt)
}
