// The tasks on a text alone.
use text::{Refusal, check_text};
use unescape::{outcome, unescape_byte, unescape_char};

// The place moves by a character's width, so that there is no `for`.
fn characters(text: &[u8]) -> usize {
    let mut count = 0;
    let mut at = 0;
    while at < text.len() {
        at += characters::utf8::decode(text, at).wide;
        count += 1;
    }
    count
}

// utf8: 0 and the number of characters, or the refusal: 3 and the length of the longest well-formed beginning.
pub fn utf8(text: &[u8]) -> Result<usize, Refusal> {
    check_text(text)?;
    Ok(characters(text))
}

// char, byte: what the text stands for, or the refusal.
pub fn char(text: &[u8]) -> Result<usize, Refusal> {
    Ok(outcome(unescape_char(text)?) as usize)
}

pub fn byte(text: &[u8]) -> Result<usize, Refusal> {
    Ok(outcome(unescape_byte(text)?) as usize)
}
