// The tasks on a number alone.
use crate::output::{Joined, Result, print_answer};
use crate::words::{Words, number};

// cp: what the tests on characters say of a code point.
pub fn cp(rt: &impl Print, words: Words<'_>) -> Result<()> {
    let c = number(words.rest())?;
    let bits = [
        lexer::is_whitespace(c) as u32,
        lexer::is_id_start(c) as u32,
        lexer::is_id_continue(c) as u32,
        ucd::is_emoji(c) as u32,
        ucd::is_white_space(c) as u32,
    ];
    let bits = Joined {
        words: &bits,
        mark: " ",
    };
    print!(rt; "{bits}")?;
    Ok(())
}

// mode: the four tests on a mode.
pub fn mode(rt: &impl Print, words: Words<'_>) -> Result<()> {
    let m = number(words.rest())?;
    let quotes = unescape::in_double_quotes(m)? as u8;
    let ascii = unescape::characters_should_be_ascii(m)? as u8;
    let bare = unescape::is_unicode_escape_disallowed(m)? as u8;
    let prefix = unescape::prefix_noraw(m)?;
    print!(rt; "0 {quotes} {ascii} {bare} {prefix}")?;
    Ok(())
}

// fatal: whether an error is fatal.
pub fn fatal(rt: &impl Print, words: Words<'_>) -> Result<()> {
    let e = number(words.rest())?;
    print_answer(rt, unescape::is_fatal(e))?;
    Ok(())
}

// lowbyte: the low eight bits.
pub fn low_byte(rt: &impl Print, words: Words<'_>) -> Result<()> {
    let low = unescape::byte_from_char(number(words.rest())?);
    print!(rt; "{low}")?;
    Ok(())
}
