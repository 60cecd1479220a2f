// oqlist ARGUMENTS HEX: what the program `oqlist` prints, its lines joined by slashes, for the words behind its name, joined by commas or a
// hyphen for none, and the text as its input.
use crate::output::{Result, print_answer, print_records};
use crate::records::{BLANK, LIST};
use crate::words::{TEXT, Words, bytes, cut};
use cutters::RECORD;

// How many words are joined, and the first of them; 2 for more too.
fn joined(words: &[u8]) -> (usize, &[u8]) {
    if words == b"-".as_slice() {
        return (0, words);
    }
    let (first, _) = cut(words, b',');
    let count = if first.len() == words.len() { 1 } else { 2 };
    (count, first)
}

pub fn answer(rt: &impl Print, mut words: Words<'_>) -> Result<()> {
    let mut room = [0u8; TEXT];
    let mut list = [BLANK; LIST];
    let (count, first) = joined(words.word());
    let text = bytes(words.rest(), &mut room)?;
    match arguments::list_asked(count, first, text, &mut list) {
        Ok(n) => {
            print!(rt; "tokens {n}")?;
            print_records(rt, &list, RECORD, n, " / ", " ")?;
        }
        refused => {
            print!(rt; "refused ")?;
            print_answer(rt, refused)?;
        }
    }
    Ok(())
}
