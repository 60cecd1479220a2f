// The tasks on keys.
use crate::output::{Fault, Hex, Result, print_answer};
use crate::words::{TEXT, Words, bytes, number};
use renewal::renewal_key;

// The most bytes of a key, eleven for each byte of the longest text.
const KEY: usize = 360448;

type Key = [u8; KEY];

// The key of a text.
fn make<'a>(text: &[u8], profile: u32, key: &'a mut Key) -> Result<&'a [u8]> {
    let n = renewal_key(text, profile, key)?;
    Ok(&key[..n.min(KEY)])
}

// What `renewal_key` answers, and the bytes. As the list of `records`, a key is made once the line is read.
fn print_key(rt: &impl Print, text: &[u8], profile: u32) -> Result<()> {
    let mut key = [0u8; KEY];
    let bytes = make(text, profile, &mut key)?;
    let n = bytes.len();
    let hex = Hex(bytes);
    print!(rt; "0 {n} {hex}")?;
    Ok(())
}

// key PROFILE HEX.
pub fn key(rt: &impl Print, mut words: Words<'_>) -> Result<()> {
    let mut room = [0u8; TEXT];
    let profile = number(words.word())?;
    let text = bytes(words.rest(), &mut room)?;
    print_key(rt, text, profile)
}

// What it answers where it is lent so many bytes, with A5 in each, and all of them after the call, so that what it doesn't write is seen.
fn print_room(rt: &impl Print, text: &[u8], profile: u32, n: usize) -> Result<()> {
    let mut key = [0xA5u8; KEY];
    let lent = key.get_mut(..n).ok_or(Fault::Unreadable)?;
    print_answer(rt, renewal_key(text, profile, lent))?;
    let hex = Hex(lent);
    print!(rt; " {hex}")?;
    Ok(())
}

// keyroom PROFILE BYTES HEX.
pub fn key_room(rt: &impl Print, mut words: Words<'_>) -> Result<()> {
    let mut room = [0u8; TEXT];
    let profile = number(words.word())?;
    let n = number(words.word())? as usize;
    let text = bytes(words.rest(), &mut room)?;
    print_room(rt, text, profile, n)
}

// pair PROFILE HEX HEX: whether two texts share a key, or what refuses the first text that has none.
pub fn pair(rt: &impl Print, mut words: Words<'_>) -> Result<()> {
    let profile = number(words.word())?;
    let mut room = [0u8; TEXT];
    let mut old = [0u8; KEY];
    let mut new = [0u8; KEY];
    let text = bytes(words.word(), &mut room)?;
    let old = make(text, profile, &mut old)?;
    let text = bytes(words.rest(), &mut room)?;
    let new = make(text, profile, &mut new)?;
    let verdict = if old == new { "same" } else { "differ" };
    print!(rt; "{verdict}")?;
    Ok(())
}
