// Which profile the words behind a program's name ask for, and what `oqlist` answers.
#![tactic(auto)]

ghost use Rattle.std.specs.Prelude.{◌≡◌, ◌<◌, IfSome, IfOk};
ghost use Rattle.text.specs.Answer.{check_profile};
ghost use Rattle.text.specs.Refusals.{given, checked};
ghost use Rattle.arguments.specs.Arguments.{named, asked, told, ListedAsked};

use listing::tokenize;
use text::{Refusal, check_cut, default_profile};

// The most bytes that `oqlist` takes: its own limit.
pub const MOST: usize = 2048;

// The profile that a word names.
fn named(word: &[u8]) -> Option<u32>
    ensures told { told result ≡ named word.now }
    ensures known { IfSome result (λ p. p < 2) }
{
    match word {
        b"0" => Some(0),
        b"1" => Some(1),
        _ => None,
    }
}

// The profile that so many words ask for, the first of which is lent: the default where there is none.
pub fn profile_asked(words: usize, first: &[u8]) -> Option<u32>
    ensures told { told result ≡ asked words first.now }
    ensures known { IfSome result (λ p. p < 2) }
{
    match words {
        0 => Some(default_profile()),
        1 => named(first),
        _ => None,
    }
}

// The profile that the words ask for, if it is a known one: what can be told before there is a text.
pub fn check_asked(words: usize, first: &[u8]) -> Result<u32, Refusal>
    ensures checked { checked result ≡ check_profile (asked words first.now) }
    ensures profile { IfOk result (λ p. p ≡ asked words first.now) }
{
    let profile = profile_asked(words, first).ok_or(Refusal::UnknownSelector)?;
    check_cut(b"", profile)?;
    Ok(profile)
}

// What `oqlist` answers, and the list that it prints: as `check_asked`, then refusal 2 for a text over its limit, then as `tokenize`.
pub fn list_asked(
    words: usize,
    first: &[u8],
    text: &[u8],
    list: &mut [u32],
) -> Result<usize, Refusal>
    ensures { ListedAsked words first.now text.now list.old (given result).0 (given result).1 list.new }
{
    let profile = check_asked(words, first)?;
    if MOST < text.len() {
        return Err(Refusal::TooLong);
    }
    tokenize(text, profile, list)
}
