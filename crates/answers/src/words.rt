// The words of a line, and the numbers and bytes that they write.
ghost use Rattle.std.specs.Prelude.{◌≤◌, length, IfSome, IfOk};

use crate::output::{Fault, Result};

// The most bytes that a line writes, at two digits a byte.
pub const TEXT: usize = 32768;

pub type Text = [u8; TEXT];

// What is left of a line, its words still to be read.
#[derive(Clone, Copy)]
pub struct Words<'a> {
    left: &'a [u8],
}

// What stands before the first mark, and what stands behind it: all and nothing where there is none.
pub fn cut(words: &[u8], mark: u8) -> (&[u8], &[u8]) {
    match words.iter().position(|b| *b == mark) {
        Some(at) => (&words[..at], &words[at + 1..]),
        None => (words, b""),
    }
}

// A hexadecimal digit's value.
fn digit(b: u8) -> Option<u8> {
    match b {
        b'0'..=b'9' => Some(b - b'0'),
        b'a'..=b'f' => Some(b - b'a' + 10),
        _ => None,
    }
}

fn decimal(word: &[u8]) -> Option<u32> {
    if word.is_empty() {
        return None;
    }
    let mut sum = 0u32;
    for b in word {
        let digit = char::from(*b).to_digit(10)?;
        sum = sum.checked_mul(10)?.checked_add(digit)?;
    }
    Some(sum)
}

// The number below 2^32 that a word writes.
pub fn number(word: &[u8]) -> Result<u32> {
    decimal(word).ok_or(Fault::Unreadable)
}

fn hex<'a>(word: &[u8], room: &'a mut Text) -> Option<&'a [u8]>
    ensures { IfSome result (λ bytes. length bytes.now ≤ 32768) }
{
    if word == b"-".as_slice() {
        return Some(b"");
    }
    let n = word.len() / 2;
    if n == 0 || TEXT < n || word.len() % 2 != 0 {
        return None;
    }
    for (pair, b) in word.chunks_exact(2).zip(room.iter_mut()) {
        *b = digit(pair[0])? << 4 | digit(pair[1])?;
    }
    Some(&room[..n])
}

// The bytes that a word writes, two digits each; a hyphen stands for none.
pub fn bytes<'a>(word: &[u8], room: &'a mut Text) -> Result<&'a [u8]>
    ensures { IfOk result (λ bytes. length bytes.now ≤ 32768) }
{
    hex(word, room).ok_or(Fault::Unreadable)
}

impl<'a> Words<'a> {
    pub fn of(line: &'a [u8]) -> Words<'a> {
        Words { left: line }
    }

    // The next word: all of what is left where no space stands in it, and empty where nothing is left.
    pub fn word(&mut self) -> &'a [u8] {
        let (word, left) = cut(self.left, b' ');
        self.left = left;
        word
    }

    pub fn rest(self) -> &'a [u8] {
        self.left
    }
}
