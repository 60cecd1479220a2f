// UTF-8 after the Unicode Standard, Table 3-7, "Well-Formed UTF-8 Byte Sequences", and where a text holds a direction mark.
ghost use Rattle.std.specs.Prelude.{◌≡◌, true, false, cond, [], ◌∷◌, ℕ, ◌+◌, ◌≤◌, ◌<◌, length, get_or, drop, IfSome};
ghost use Rattle.characters.specs.Ranges.{◌to◌, in_range};
ghost use Rattle.characters.specs.Utf8.{first, chars, follows, no_char, bytes_before, valid_up_to};
ghost use Rattle.characters.specs.Direction.{is_direction, clean_up_to};
ghost use Rattle.characters.specs.Steps.{Reads, low, high, two, three, four, free, may_stand, Stood, whole, second, spells, Clear, stops, Passed, Plain, begun};
ghost use Rattle.characters.specs.Text.{Decoded, left};
ghost use Rattle.characters.specs.Unfinished.{unfinished};

// Where the numbers begin that are no characters.
pub const NO_CHAR: u32 = 1114112;

// How many bytes are looked at together.
const BLOCK: usize = 32;

// A character, and how many bytes it takes. A byte that begins no well-formed sequence is read as no character: NO_CHAR
// more than the byte, one byte wide, as `Decoded` promises and C is told (`oq3_decode`).
#[repr(C)]
#[derive(Clone, Copy)]
pub struct Char {
    pub code: u32,
    pub wide: usize,
}

fn no_char(b: u8) -> Char
    ensures { Reads (no_char b, 1) result.code result.wide }
{
    Char {
        code: NO_CHAR + b as u32,
        wide: 1,
    }
}

// The byte at i, or 0 past the end, which the table allows nowhere behind a first byte.
fn byte(text: &[u8], i: usize) -> u8
    ensures { result ≡ get_or text.now i 0 }
{
    text.get(i).copied().unwrap_or(0)
}

// Whether b may stand second, behind the first byte a: by two bounds. Measured: with a range for each of the four first bytes, a block takes 4 to 5
// per cent more instructions.
#[tactic(auto, unfolding(crate::specs::Steps::low, crate::specs::Steps::high))]
fn is_second(a: u8, b: u8) -> bool
    ensures { result ≡ in_range b (low a to high a) }
{
    let low = match a {
        0xE0 => 0xA0,
        0xF0 => 0x90,
        _ => 0x80,
    };
    let high = match a {
        0xED => 0x9F,
        0xF4 => 0x8F,
        _ => 0xBF,
    };
    (low..=high).contains(&b)
}

// Whether b may stand third or fourth.
fn follows(b: u8) -> bool
    ensures { result ≡ follows b }
{
    matches!(b, 0x80..=0xBF)
}

#[tactic(auto, unfolding(crate::specs::Steps::two))]
fn two_bytes(a: u8, b: u8) -> Char
    ensures { Reads (two a b) result.code result.wide }
{
    if !follows(b) {
        return no_char(a);
    }
    let v = (a % 32) as u32 * 64 + (b % 64) as u32;
    Char { code: v, wide: 2 }
}

// Measured: with the tests here and in `four_bytes` joined in one, `decode` takes up to 6 per cent more instructions.
#[tactic(auto, unfolding(crate::specs::Steps::three))]
fn three_bytes(a: u8, b: u8, c: u8) -> Char
    ensures { Reads (three a b c) result.code result.wide }
{
    if !is_second(a, b) {
        return no_char(a);
    }
    if !follows(c) {
        return no_char(a);
    }
    let v = (a % 16) as u32 * 64 + (b % 64) as u32;
    Char {
        code: v * 64 + (c % 64) as u32,
        wide: 3,
    }
}

#[tactic(auto, unfolding(crate::specs::Steps::four))]
fn four_bytes(a: u8, b: u8, c: u8, d: u8) -> Char
    ensures { Reads (four a b c d) result.code result.wide }
{
    if !is_second(a, b) {
        return no_char(a);
    }
    if !follows(c) {
        return no_char(a);
    }
    if !follows(d) {
        return no_char(a);
    }
    let v = (a % 8) as u32 * 64 + (b % 64) as u32;
    Char {
        code: (v * 64 + (c % 64) as u32) * 64 + (d % 64) as u32,
        wide: 4,
    }
}

// A character that is not ASCII.
#[tactic(auto, using(crate::proofs::Reading::at_place))]
fn decode_wide(text: &[u8], at: usize) -> Char
    requires { (at < length text.now) × (0x80 ≤ get_or text.now at 0) }
    ensures { Decoded text.now at result.code result.wide }
{
    let a = text[at];
    match a {
        0xC2..=0xDF => two_bytes(a, byte(text, at + 1)),
        0xE0..=0xEF => three_bytes(a, byte(text, at + 1), byte(text, at + 2)),
        0xF0..=0xF4 => four_bytes(
            a,
            byte(text, at + 1),
            byte(text, at + 2),
            byte(text, at + 3),
        ),
        _ => no_char(a),
    }
}

// The character at a place; at or past the end, 0 and 0.
#[tactic(auto, using(crate::proofs::Reading::at_place))]
pub fn decode(text: &[u8], at: usize) -> Char
    ensures { Decoded text.now at result.code result.wide }
{
    match text.get(at) {
        None => Char { code: 0, wide: 0 },
        Some(&a) if a < 0x80 => Char {
            code: a as u32,
            wide: 1,
        },
        Some(_) => decode_wide(text, at),
    }
}

// The character at a place alone; at or past the end, 0.
#[tactic(auto, using(crate::proofs::Reading::code_past))]
pub fn code(text: &[u8], at: usize) -> u32
    ensures { result ≡ (first (drop at text.now)).0 }
{
    decode(text, at).code
}

// The character that four bytes begin with.
pub fn decode_four(a: u8, b: u8, c: u8, d: u8) -> Char
    ensures { Reads (first (a ∷ b ∷ c ∷ d ∷ [])) result.code result.wide }
{
    decode(&[a, b, c, d], 0)
}

// The largest of what the places of a block count for: a loop that compiles to vector instructions.
fn largest<F: Fn(usize) -> u8>(count: F) -> u8
    requires { (k : ℕ) → k < 32 → F.pre count k }
    ensures { (k : ℕ) → k < 32 → (v : ℕ) × F.post count k v × (v ≤ result) }
{
    let mut most = 0;
    for k in 0..BLOCK {
        most = most.max(count(k));
    }
    most
}

// The largest of the 32 bytes from a place on.
fn top(text: &[u8], at: usize) -> u8
    requires { at + 32 ≤ length text.now }
    ensures { (k : ℕ) → k < 32 → get_or text.now (at + k) 0 ≤ result }
{
    largest(|k| text[at + k])
}

// Past each block of 32 bytes that is all ASCII, from a place on. The place moves by blocks, and where it stops is what the walk goes on from.
fn skip_blocks(text: &[u8], from: usize) -> usize
    requires { from ≤ length text.now }
    ensures { Plain text.now from result }
{
    let mut at = from;
    while BLOCK <= text.len() - at {
        if 0x7F < top(text, at) {
            return at;
        }
        at = at + BLOCK;
    }
    at
}

// Whether no character that begins at one of these three bytes reaches past them.
fn is_free(a: u8, b: u8, c: u8) -> bool
    ensures { result ≡ free a b c }
{
    c < 0xC0 && b < 0xE0 && a < 0xF0
}

// Whether a byte d may stand behind a, b and c: where no character reaches there as the first of one, but that its size tells F5 to FF, and else as the
// next of one.
#[tactic(auto, unfolding(crate::specs::Steps::may_stand))]
fn fits(a: u8, b: u8, c: u8, d: u8) -> bool
    ensures { result ≡ may_stand a b c d }
{
    if is_free(a, b, c) {
        !matches!(d, 0x80..=0xC1)
    } else {
        is_second(c, d)
    }
}

// What a byte d counts for behind a, b and c: where it may not stand there, more than F4; and E2, which begins the direction marks, counts for F4, so
// that a smaller number tells that none is there. A number, and no enum, so that one maximum tells of a whole block.
#[tactic(auto, using(crate::proofs::Blocks::standing))]
fn stand(a: u8, b: u8, c: u8, d: u8) -> u8
    ensures { Stood a b c d result }
{
    if !fits(a, b, c, d) {
        0xFF
    } else if d == 0xE2 {
        0xF4
    } else {
        d
    }
}

// The largest of what the 32 bytes behind the first three from a place on count for, each behind the three before it.
fn stands(text: &[u8], at: usize) -> u8
    requires { at + 35 ≤ length text.now }
    ensures { (k : ℕ) → k < 32 → Stood (get_or text.now (at + k) 0) (get_or text.now (at + k + 1) 0) (get_or text.now (at + k + 2) 0) (get_or text.now (at + k + 3) 0) result }
{
    largest(|k| {
        stand(
            text[at + k],
            text[at + k + 1],
            text[at + k + 2],
            text[at + k + 3],
        )
    })
}

// How many of 32 bytes whole characters take, by the last three. Measured: as one chain of else, a block takes up to 2 per cent more instructions.
#[tactic(auto, unfolding(crate::specs::Steps::whole))]
fn whole_of(b: u8, c: u8, d: u8) -> usize
    ensures { (result ≡ whole b c d) × (1 ≤ result) × (result ≤ 32) }
{
    if 0xC0 <= d {
        return 31;
    }
    if 0xE0 <= c {
        return 30;
    }
    if 0xF0 <= b { 29 } else { 32 }
}

// The second byte of the direction mark whose third is c; 0, which stands second in no character, for no mark, as `second` says.
#[tactic(auto, unfolding(crate::specs::Steps::second))]
fn second_of(c: u8) -> u8
    ensures { result ≡ second c }
{
    match c {
        0xAA..=0xAE => 0x80,
        0xA6..=0xA9 => 0x81,
        _ => 0,
    }
}

// Whether three bytes, if they are well-formed, are a direction mark.
#[tactic(auto, unfolding(crate::specs::Steps::spells))]
fn is_mark(a: u8, b: u8, c: u8) -> bool
    ensures { result ≡ spells a b c }
{
    b == second_of(c) && a == 0xE2
}

// Whether a direction mark begins at one of the 32 bytes from a place on.
fn has_mark(text: &[u8], at: usize) -> bool
    requires { at + 34 ≤ length text.now }
    ensures { result ≡ false → (k : ℕ) → k < 32 → spells (get_or text.now (at + k) 0) (get_or text.now (at + k + 1) 0) (get_or text.now (at + k + 2) 0) ≡ false }
{
    let most = largest(|k| u8::from(is_mark(text[at + k], text[at + k + 1], text[at + k + 2])));
    0 < most
}

// Whether a direction mark stands in the 32 bytes behind the first three from a place on, and they are barred. `most` is the largest of what the 32 count
// for: they are looked through only where one of them may begin a mark.
fn has_barred(text: &[u8], at: usize, most: u8, barred: bool) -> bool
    requires { (at + 35 ≤ length text.now) × ((k : ℕ) → k < 32 → most < 0xF4 → get_or text.now (at + k + 3) 0 ≡ 0xE2 → ⊥) }
    ensures { result ≡ false → barred ≡ true → Clear text.now at }
{
    barred && 0xF4 <= most && has_mark(text, at + 1)
}

// Past a block of 32 bytes that is well-formed, to the end of its last whole character; no place where it is not, or where a direction mark stands in it
// and they are barred. The three bytes before it are asked first: no character may reach from there into the block.
fn skip_wide(text: &[u8], from: usize, barred: bool) -> Option<usize>
    requires { from ≤ length text.now }
    ensures { IfSome result (λ end. Passed (stops barred) text.now from end × (from < end)) }
{
    let at = from.checked_sub(3)?;
    if text.len() - from < BLOCK || !is_free(text[at], text[at + 1], text[at + 2]) {
        return None;
    }
    let most = stands(text, at);
    if 0xF4 < most || has_barred(text, at, most, barred) {
        return None;
    }
    Some(from + whole_of(text[at + 32], text[at + 33], text[at + 34]))
}

// Whether a character is one of the nine direction marks.
pub fn is_direction(c: u32) -> bool
    ensures { result ≡ is_direction c }
{
    matches!(c, 0x202A..=0x202E | 0x2066..=0x2069)
}

// Whether a character stops the walk: what is none, and a direction mark where they are barred.
#[tactic(auto, unfolding(crate::specs::Steps::stops))]
fn is_stop(c: u32, barred: bool) -> bool
    ensures { result ≡ stops barred c }
{
    (barred && is_direction(c)) || NO_CHAR <= c
}

// Character by character to `stop` or past it, or to the first that stops the walk. The place moves by a character's width.
fn skip_chars(text: &[u8], from: usize, stop: usize, barred: bool) -> usize
    requires { (from ≤ length text.now) × (stop ≤ length text.now) }
    ensures { (Passed (stops barred) text.now from result) × (result < stop → bytes_before (stops barred) (left text.now result) ≡ 0) }
{
    let mut at = from;
    while at < stop {
        if text[at] < 0x80 {
            at = at + 1;
        } else {
            let c = decode_wide(text, at);
            if is_stop(c.code, barred) {
                return at;
            }
            at = at + c.wide;
        }
    }
    at
}

// The bytes before the first character that stops the walk: by blocks of ASCII, by blocks of any characters where there is none, and where there is
// neither, by characters until blocks are tried again. `barred` is an argument of each step: as a const parameter it would be named in as many places.
fn walk(text: &[u8], barred: bool) -> usize
    ensures { result ≡ bytes_before (stops barred) (chars text.now) }
{
    let mut at = 0;
    while at < text.len() {
        let from = skip_blocks(text, at);
        at = match skip_wide(text, from, barred) {
            Some(to) => to,
            None => {
                let stop = from + BLOCK.min(text.len() - from);
                let end = skip_chars(text, from, stop, barred);
                if end < stop {
                    return end;
                }
                end
            }
        };
    }
    at
}

// The length of the longest well-formed beginning.
#[tactic(auto, unfolding(crate::specs::Utf8::valid_up_to, crate::specs::Steps::stops))]
pub fn valid_up_to(text: &[u8]) -> usize
    ensures { result ≡ valid_up_to text.now }
{
    walk(text, false)
}

// The bytes before the first fault: a byte that is not UTF-8, or one of the nine direction marks.
#[tactic(auto, unfolding(crate::specs::Direction::clean_up_to, crate::specs::Steps::stops))]
pub fn clean_up_to(text: &[u8]) -> usize
    ensures { result ≡ clean_up_to text.now }
{
    walk(text, true)
}

// Whether n bytes are the beginning of one character, by the first three of them, one by one: who holds them back has no slice of them.
#[tactic(auto, unfolding(crate::specs::Steps::begun))]
pub fn is_begun(n: usize, a: u8, b: u8, c: u8) -> bool
    ensures { result ≡ begun n a b c }
{
    match n {
        1 => matches!(a, 0xC2..=0xF4),
        2 => is_second(a, b) && matches!(a, 0xE0..=0xF4),
        3 => is_second(a, b) && matches!(a, 0xF0..=0xF4) && follows(c),
        _ => false,
    }
}

// Whether a text is the beginning of one character that more bytes could finish, or empty.
pub fn is_unfinished(text: &[u8]) -> bool
    ensures { result ≡ unfinished text.now }
{
    text.is_empty() || is_begun(text.len(), byte(text, 0), byte(text, 1), byte(text, 2))
}
