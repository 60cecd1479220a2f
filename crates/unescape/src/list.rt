// The list of items of a whole body, three words for each.
ghost use Rattle.std.specs.Prelude.{◌≡◌, ◌+◌, ◌*◌, ◌≤◌, ◌<◌, length};
ghost use Rattle.lists.specs.Steps.{PutIf};
ghost use Rattle.characters.specs.Utf8.{chars};
ghost use Rattle.text.specs.Answer.{longest};
ghost use Rattle.text.specs.Refusals.{given};
ghost use Rattle.modes.specs.Errors.{number};
ghost use Rattle.modes.specs.Numbers.{mode_number, outcome_of};
ghost use Rattle.unescape.specs.Bodies.{char_or_byte, one, turns, items_of, flat};
ghost use Rattle.unescape.specs.Steps.{ascii_only, item_words, writes, Walked, StoredItems};

use crate::bodies::{turn, unescape_char_or_byte};
use crate::chars::Chars;
use characters::utf8::NO_CHAR;
use modes::{EscapeError, Mode};
use text::Refusal;

// The number that stands for what was read: the code point, or 1,114,112 more than the error's.
pub fn outcome(read: Result<u32, EscapeError>) -> u32
    ensures { result ≡ number (outcome_of read) }
{
    match read {
        Ok(code) => code,
        Err(error) => NO_CHAR + error.number(),
    }
}

// The n-th item stored, but in an empty list, where it is only counted: how many there are then.
fn put(
    list: &mut [u32],
    n: usize,
    start: usize,
    end: usize,
    read: Result<u32, EscapeError>,
) -> usize
    requires { (n ≤ longest) × (start ≤ longest) × (end ≤ longest) × (0 < length list.old → 3 * n + 3 ≤ length list.old) }
    ensures { PutIf (writes list.old) list.old (3 * n) (item_words start end read) list.new (3 * result) }
{
    if list.is_empty() {
        return n + 1;
    }
    let k = 3 * n;
    list[k] = start as u32;
    list[k + 1] = end as u32;
    list[k + 2] = outcome(read);
    n + 1
}

// The one item of a body of Char or Byte.
fn walk_single(body: &[u8], mode: Mode, list: &mut [u32]) -> usize
    requires { (length body.now ≤ longest) × (0 < length list.old → 3 ≤ length list.old) }
    ensures { Walked (one (length body.now) (chars body.now) (char_or_byte (ascii_only mode) (chars body.now))).0 list.old result list.new }
{
    let mut one = Chars { text: body, at: 0 };
    let read = unescape_char_or_byte(&mut one, mode);
    put(list, 0, 0, one.at, read)
}

// The items of a body of any other mode.
fn walk_turns(body: &[u8], mode: Mode, list: &mut [u32]) -> usize
    requires { (length body.now ≤ longest) × (0 < length list.old → length (flat (turns (mode_number mode) (length body.now) (chars body.now))) ≤ length list.old) }
    ensures { Walked (turns (mode_number mode) (length body.now) (chars body.now)) list.old result list.new }
{
    let mut chars = Chars { text: body, at: 0 };
    let mut start = 0;
    let mut n = 0;
    while let Some(c) = chars.next() {
        let step = turn(&mut chars, c, mode);
        if let Some(read) = step.item {
            n = put(list, n, start, chars.at, read);
        }
        if let Some(past) = step.space {
            n = put(
                list,
                n,
                start,
                past,
                Err(EscapeError::UnskippedWhitespaceWarning),
            );
        }
        start = chars.at;
    }
    n
}

// The items of a body, which are stored, but in an empty list: how many there are. Body and mode, and list and n, stay parameters: they are handed on
// as they are, from each function to one other, and a struct of them would be made and taken apart once for every call.
fn walk(body: &[u8], mode: Mode, list: &mut [u32]) -> usize
    requires { (length body.now ≤ longest) × (0 < length list.old → length (flat (items_of (mode_number mode) body.now)) ≤ length list.old) }
    ensures { Walked (items_of (mode_number mode) body.now) list.old result list.new }
{
    if mode.is_single() {
        return walk_single(body, mode, list);
    }
    walk_turns(body, mode, list)
}

// For a body that passed the checks. There are no more items than bytes, but for the one of an empty body of Char or Byte; so a list
// that has room for more than that cannot be short, and nothing is counted first.
pub fn store(body: &[u8], mode: Mode, list: &mut [u32]) -> Result<usize, Refusal>
    requires { length body.now ≤ longest }
    ensures { StoredItems (items_of (mode_number mode) body.now) list.old (given result).0 (given result).1 list.new }
{
    if body.len() < list.len() / 3 {
        return Ok(walk(body, mode, list));
    }
    let need = walk(body, mode, &mut []);
    if list.len() / 3 < need {
        return Err(Refusal::RoomTooSmall(need));
    }
    Ok(walk(body, mode, list))
}
