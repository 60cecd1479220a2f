// The text of a span that lies in the tokens of the last accepted call.
ghost use Rattle.std.specs.Prelude.{◌≡◌, ◌&&◌, ◌+◌, leb, length};
ghost use Rattle.text.specs.Answer.{Answered};
ghost use Rattle.feeding.specs.Question.{asked};
ghost use Rattle.parts.specs.Coded.{meaning};
ghost use Rattle.parts.specs.Promises.{number_of, Placed, Texted};
ghost use Rattle.parts.specs.Refusals.{text_refused, Found};

use crate::Lexer;
use text::Answer;

// Why a text is not told: there is no such span, or it is asked of another chunk or carry; or some byte is not kept.
#[derive(Clone, Copy, Debug, PartialEq, Eq)]
pub enum TextRefusal {
    BadSpan,
    NotKept,
}

// In which of the two the text lies, and from where on.
#[derive(Clone, Copy)]
pub enum Spot {
    Chunk(usize),
    Carry(usize),
}

// Where the text is: in the chunk (1) or in the carry (2), from where on, and how many bytes; or why it is not there. A caller in C gets it.
#[repr(C)]
#[derive(Clone, Copy)]
pub struct Place {
    pub number: u32,
    pub which: u32,
    pub at: usize,
    pub len: usize,
}

impl TextRefusal {
    fn number(self) -> u32
        ensures { result ≡ text_refused self }
    {
        match self {
            TextRefusal::BadSpan => 1,
            TextRefusal::NotKept => 6,
        }
    }
}

fn is_inside(start: usize, len: usize, from: usize, until: usize) -> bool
    ensures { result ≡ (leb from start && leb (start + len) until) }
{
    from <= start && start <= until && len <= until - start
}

fn is_asked(x: Lexer, chunk: usize, carry: usize, start: usize, len: usize) -> bool
    ensures { result ≡ asked (meaning x) chunk carry start len }
{
    let last = x.last;
    let end = (last.until as usize).min(last.place as usize + last.chunk as usize);
    len != 0
        && chunk == last.chunk as usize
        && carry == last.carry
        && is_inside(start, len, last.from as usize, end)
}

// By the lengths of the chunk and the carry that are lent.
fn find(x: Lexer, chunk: usize, carry: usize, start: usize, len: usize) -> Result<Spot, TextRefusal>
    ensures { Found x chunk carry start len result }
{
    if !is_asked(x, chunk, carry, start, len) {
        return Err(TextRefusal::BadSpan);
    }
    let last = x.last;
    let place = last.place as usize;
    if place <= start {
        return Ok(Spot::Chunk(start - place));
    }
    let at = start - last.from as usize;
    let kept = (last.packed as usize)
        .min(last.kept as usize)
        .min(last.carry);
    if kept < at + len {
        return Err(TextRefusal::NotKept);
    }
    Ok(Spot::Carry(at))
}

// For a caller that can take no part of a slice, by the lengths of both.
pub fn text_place(lexer: Lexer, chunk: usize, carry: usize, start: usize, len: usize) -> Place
    ensures { Placed lexer chunk carry start len result.number result.which result.at result.len }
{
    let (which, at) = match find(lexer, chunk, carry, start, len) {
        Ok(Spot::Chunk(at)) => (1, at),
        Ok(Spot::Carry(at)) => (2, at),
        Err(refusal) => {
            return Place {
                number: refusal.number(),
                which: 0,
                at: 0,
                len: 0,
            };
        }
    };
    Place {
        number: text::DONE,
        which,
        at,
        len,
    }
}

// The number: 0, or 1 or 6.
pub fn text_number(lexer: Lexer, chunk: &[u8], carry: &[u8], start: usize, len: usize) -> Answer
    ensures { Answered (number_of lexer (length chunk.now) (length carry.now) start len, 0) result.number result.also }
{
    let number = match find(lexer, chunk.len(), carry.len(), start, len) {
        Ok(_) => text::DONE,
        Err(refusal) => refusal.number(),
    };
    Answer { number, also: 0 }
}

// The text: a part of the chunk or of the carry; where there is none, an empty part of the chunk.
#[tactic(auto, unfolding(feeding::specs::Question::text_of, feeding::specs::Question::number))]
pub fn text<'a>(
    lexer: Lexer,
    chunk: &'a [u8],
    carry: &'a [u8],
    start: usize,
    len: usize,
) -> &'a [u8]
    ensures { Texted lexer chunk.entry.ref_ptr carry.entry.ref_ptr chunk.now carry.now start len result.ref_ptr result.now }
{
    match find(lexer, chunk.len(), carry.len(), start, len) {
        Ok(Spot::Chunk(at)) => &chunk[at..at + len],
        Ok(Spot::Carry(at)) => &carry[at..at + len],
        Err(_) => &chunk[..0],
    }
}
