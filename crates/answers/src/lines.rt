// Standard input cut into lines.
use crate::tasks::answer_line;
use std::io;
use std::io::Read;

// The most bytes of a line that is answered.
const LINE: usize = 65536;

// A line that is being read: how long it is by now, and its first bytes.
#[derive(Drop)]
pub struct Line {
    bytes: [u8; LINE],
    len: usize,
}

impl Line {
    pub fn new() -> Line {
        Line {
            bytes: [0; LINE],
            len: 0,
        }
    }

    // As much of it as there is room for.
    pub fn bytes(&self) -> &[u8] {
        &self.bytes[..self.len.min(LINE)]
    }

    pub fn is_too_long(&self) -> bool {
        LINE < self.len
    }

    fn push(&mut self, b: u8) {
        if self.len < LINE {
            self.bytes[self.len] = b;
        }
        self.len = self.len.saturating_add(1);
    }

    // Takes the next byte, and answers the line that it ends.
    fn take(&mut self, rt: &impl Print, b: u8) -> io::Result<()> {
        if b != b'\n' {
            self.push(b);
            return Ok(());
        }
        answer_line(rt, self)?;
        self.len = 0;
        Ok(())
    }

    // Answers a last line that no LF ends.
    fn finish(&self, rt: &impl Print) -> io::Result<()> {
        if 0 < self.len {
            answer_line(rt, self)?;
        }
        Ok(())
    }
}

// Answers each line of the input. A proved loop has to end, and nothing says that the input does: no run uses up these turns.
pub fn run<P: Print, R: Read>(rt: &P, source: &mut R) -> io::Result<()> {
    let mut line = Line::new();
    let mut input = [0u8; LINE];
    for _ in 0..u64::MAX {
        let got = source.read(&mut input)?;
        if got == 0 {
            break;
        }
        for b in &input[..got] {
            line.take(rt, *b)?;
        }
    }
    line.finish(rt)
}
