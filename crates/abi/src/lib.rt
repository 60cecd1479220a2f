// The names that C and Rust link, one for each public function of the libraries that a caller there can use and that no other name serves: each is
// one call, under the promise of the function that it calls. include/oq3.h declares them.
#![tactic(auto)]

ghost use Rattle.std.specs.Prelude.{◌≡◌, true, false, [], ◌%◌, length};
ghost use Rattle.characters.specs.Utf8.{valid_up_to};
ghost use Rattle.characters.specs.Direction.{clean_up_to};
ghost use Rattle.characters.specs.Text.{Decoded};
ghost use Rattle.ucd.specs.Properties.{is_xid_start, is_xid_continue, is_emoji, is_white_space};
ghost use Rattle.text.specs.Answer.{Answered, default_profile, check_text, check_cut};
ghost use Rattle.letters.specs.Chars.{is_whitespace, is_id_start, is_id_continue};
ghost use Rattle.lexer.specs.Promises.{identified};
ghost use Rattle.listing.specs.Promises.{Listed};
ghost use Rattle.modes.specs.Modes.{tested_mode, in_double_quotes, characters_should_be_ascii, is_unicode_escape_disallowed, has_prefix, is_raw};
ghost use Rattle.modes.specs.Errors.{fatal};
ghost use Rattle.unescape.specs.Promises.{Unescaped, part, single};
ghost use Rattle.parts.specs.Promises.{Called, Placed as Located, start_of, number_of};
ghost use Rattle.renewal.specs.Promises.{Keyed};
ghost use Rattle.rows.specs.Rows.{Rowed};
ghost use Rattle.same.specs.Compare.{Compared, compared};
ghost use Rattle.same.specs.Places.{Placed, place_of};

use characters::utf8::{Char, clean_up_to, decode, valid_up_to};
use listing::tokenize;
use parts::{Fed, Lexer};
use renewal::renewal_key;
use rows::{Token, tokenize_rows};
use same::{ComparisonAnswer, Place, compare, place_of};
use text::{Answer, check_cut, check_text, default_profile};
use unescape::{outcome, unescape_literal, unescape_part};

// ---- tokens
#[unsafe(no_mangle)]
pub extern "C" fn oq3_tokenize(text: &[u8], profile: u32, list: &mut [u32]) -> Answer
    ensures { Listed text.now profile list.old result.number result.also list.new }
{
    Answer::from(tokenize(text, profile, list))
}

#[unsafe(no_mangle)]
pub extern "C" fn oq3_tokenize_rows(text: &[u8], profile: u32, row: &mut [Token]) -> Answer
    ensures { Rowed text.now profile row.old result.number result.also row.new }
{
    Answer::from(tokenize_rows(text, profile, row))
}

#[unsafe(no_mangle)]
pub extern "C" fn oq3_is_whitespace(c: u32) -> bool
    ensures { result ≡ is_whitespace c }
{
    lexer::is_whitespace(c)
}

#[unsafe(no_mangle)]
pub extern "C" fn oq3_is_id_start(c: u32) -> bool
    ensures { result ≡ is_id_start c }
{
    lexer::is_id_start(c)
}

#[unsafe(no_mangle)]
pub extern "C" fn oq3_is_id_continue(c: u32) -> bool
    ensures { result ≡ is_id_continue c }
{
    lexer::is_id_continue(c)
}

#[unsafe(no_mangle)]
pub extern "C" fn oq3_is_ident(text: &[u8]) -> Answer
    ensures { Answered (identified text.now) result.number result.also }
{
    Answer::from(lexer::is_ident(text))
}

// ---- texts that come in parts
#[unsafe(no_mangle)]
pub extern "C" fn oq3_start(profile: u32) -> Lexer
    ensures { result ≡ start_of profile }
{
    parts::start(profile)
}

#[unsafe(no_mangle)]
pub extern "C" fn oq3_feed(lexer: Lexer, chunk: &[u8], carry: &mut [u8], list: &mut [u32]) -> Fed
    ensures { Called lexer false chunk.now carry.old list.old result.answer.number result.answer.also result.lexer carry.new list.new }
{
    parts::feed(lexer, chunk, carry, list)
}

#[unsafe(no_mangle)]
pub extern "C" fn oq3_finish(lexer: Lexer, carry: &mut [u8], list: &mut [u32]) -> Fed
    ensures { Called lexer true [] carry.old list.old result.answer.number result.answer.also result.lexer carry.new list.new }
{
    parts::finish(lexer, carry, list)
}

// A part of a slice is no type of C's: it is told where it stands.
#[unsafe(no_mangle)]
pub extern "C" fn oq3_feed_text(
    lexer: Lexer,
    chunk_len: usize,
    carry_len: usize,
    start: usize,
    len: usize,
) -> parts::Place
    ensures { Located lexer chunk_len carry_len start len result.number result.which result.at result.len }
{
    parts::text_place(lexer, chunk_len, carry_len, start, len)
}

#[unsafe(no_mangle)]
pub extern "C" fn oq3_feed_text_number(
    lexer: Lexer,
    chunk: &[u8],
    carry: &[u8],
    start: usize,
    len: usize,
) -> Answer
    ensures { Answered (number_of lexer (length chunk.now) (length carry.now) start len, 0) result.number result.also }
{
    parts::text_number(lexer, chunk, carry, start, len)
}

// ---- the key
#[unsafe(no_mangle)]
pub extern "C" fn oq3_renewal_key(text: &[u8], profile: u32, key: &mut [u8]) -> Answer
    ensures { Keyed text.now profile key.old result.number result.also key.new }
{
    Answer::from(renewal_key(text, profile, key))
}

// ---- two texts compared
#[unsafe(no_mangle)]
pub extern "C" fn oq3_compare(old: &[u8], new: &[u8], profile: u32) -> ComparisonAnswer
    ensures { Compared (compared profile old.now new.now) result.verdict result.refusal.number result.refusal.also result.agreed result.old.kind result.old.start result.old.len result.new.kind result.new.start result.new.len }
{
    ComparisonAnswer::from(compare(old, new, profile))
}

#[unsafe(no_mangle)]
pub extern "C" fn oq3_place_of(text: &[u8], at: usize) -> Place
    ensures { Placed (place_of text.now at) result.line result.column }
{
    place_of(text, at)
}

// ---- the bodies of literals
#[unsafe(no_mangle)]
pub extern "C" fn oq3_unescape_literal(body: &[u8], mode: u32, list: &mut [u32]) -> Answer
    ensures { Unescaped body.now mode list.old result.number result.also list.new }
{
    Answer::from(unescape_literal(body, mode, list))
}

#[unsafe(no_mangle)]
pub extern "C" fn oq3_unescape_part(
    text: &[u8],
    from: usize,
    to: usize,
    mode: u32,
    list: &mut [u32],
) -> Answer
    ensures { Unescaped (part text.now from to) mode list.old result.number result.also list.new }
{
    Answer::from(unescape_part(text, from, to, mode, list))
}

#[unsafe(no_mangle)]
pub extern "C" fn oq3_unescape_char(text: &[u8]) -> Answer
    ensures { Answered (single false text.now) result.number result.also }
{
    Answer::from(unescape::unescape_char(text).map(|read| outcome(read) as usize))
}

#[unsafe(no_mangle)]
pub extern "C" fn oq3_unescape_byte(text: &[u8]) -> Answer
    ensures { Answered (single true text.now) result.number result.also }
{
    Answer::from(unescape::unescape_byte(text).map(|read| outcome(read) as usize))
}

#[unsafe(no_mangle)]
pub extern "C" fn oq3_byte_from_char(c: u32) -> u8
    ensures { result ≡ c % 256 }
{
    unescape::byte_from_char(c)
}

#[unsafe(no_mangle)]
pub extern "C" fn oq3_in_double_quotes(mode: u32) -> Answer
    ensures { Answered (tested_mode in_double_quotes mode) result.number result.also }
{
    Answer::from(unescape::in_double_quotes(mode))
}

#[unsafe(no_mangle)]
pub extern "C" fn oq3_characters_should_be_ascii(mode: u32) -> Answer
    ensures { Answered (tested_mode characters_should_be_ascii mode) result.number result.also }
{
    Answer::from(unescape::characters_should_be_ascii(mode))
}

#[unsafe(no_mangle)]
pub extern "C" fn oq3_is_unicode_escape_disallowed(mode: u32) -> Answer
    ensures { Answered (tested_mode is_unicode_escape_disallowed mode) result.number result.also }
{
    Answer::from(unescape::is_unicode_escape_disallowed(mode))
}

#[unsafe(no_mangle)]
pub extern "C" fn oq3_prefix_noraw(mode: u32) -> Answer
    ensures { Answered (tested_mode has_prefix mode) result.number result.also }
{
    Answer::from(unescape::prefix_noraw(mode))
}

#[unsafe(no_mangle)]
pub extern "C" fn oq3_is_raw(mode: u32) -> bool
    ensures { result ≡ is_raw mode }
{
    modes::is_raw(mode)
}

#[unsafe(no_mangle)]
pub extern "C" fn oq3_is_fatal(error: u32) -> Answer
    ensures { Answered (fatal error) result.number result.also }
{
    Answer::from(unescape::is_fatal(error))
}

// ---- texts and characters
#[unsafe(no_mangle)]
pub extern "C" fn oq3_default_profile() -> u32
    ensures { result ≡ default_profile }
{
    default_profile()
}

#[unsafe(no_mangle)]
pub extern "C" fn oq3_check_text(text: &[u8]) -> Answer
    ensures { Answered (check_text text.now) result.number result.also }
{
    Answer::from(check_text(text))
}

#[unsafe(no_mangle)]
pub extern "C" fn oq3_check_cut(text: &[u8], profile: u32) -> Answer
    ensures { Answered (check_cut text.now profile) result.number result.also }
{
    Answer::from(check_cut(text, profile))
}

#[unsafe(no_mangle)]
pub extern "C" fn oq3_valid_up_to(text: &[u8]) -> usize
    ensures { result ≡ valid_up_to text.now }
{
    valid_up_to(text)
}

#[unsafe(no_mangle)]
pub extern "C" fn oq3_clean_up_to(text: &[u8]) -> usize
    ensures { result ≡ clean_up_to text.now }
{
    clean_up_to(text)
}

#[unsafe(no_mangle)]
pub extern "C" fn oq3_decode(text: &[u8], at: usize) -> Char
    ensures { Decoded text.now at result.code result.wide }
{
    decode(text, at)
}

// ---- the properties of a character
#[unsafe(no_mangle)]
pub extern "C" fn oq3_is_xid_start(c: u32) -> bool
    ensures { result ≡ is_xid_start c }
{
    ucd::is_xid_start(c)
}

#[unsafe(no_mangle)]
pub extern "C" fn oq3_is_xid_continue(c: u32) -> bool
    ensures { result ≡ is_xid_continue c }
{
    ucd::is_xid_continue(c)
}

#[unsafe(no_mangle)]
pub extern "C" fn oq3_is_emoji(c: u32) -> bool
    ensures { result ≡ is_emoji c }
{
    ucd::is_emoji(c)
}

#[unsafe(no_mangle)]
pub extern "C" fn oq3_is_white_space(c: u32) -> bool
    ensures { result ≡ is_white_space c }
{
    ucd::is_white_space(c)
}
