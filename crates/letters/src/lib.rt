// The tests on single characters: white space, and what begins an identifier or goes on with it.
#![tactic(auto)]

ghost use Rattle.std.specs.Prelude.{◌≡◌, ◌<◌};
ghost use Rattle.letters.specs.Chars.{is_whitespace, is_id_start, is_id_continue};

use ucd::{is_xid_continue, is_xid_start};

// The bits 9 to 13 and 32 of a number: one test for all white space of ASCII. Measured: as two more ranges of the pattern below it takes
// twelve instructions for a letter, and so six.
fn is_low_space(c: u32) -> bool
    requires { c < 64 }
    ensures { result ≡ is_whitespace c }
{
    (0x100003E00u64 >> c) % 2 == 1
}

// Pattern_White_Space, which never changes.
#[tactic(auto, unfolding(crate::specs::Chars::whitespace, characters::specs::Ranges::in_table))]
pub fn is_whitespace(c: u32) -> bool
    ensures { result ≡ is_whitespace c }
{
    if c < 64 {
        is_low_space(c)
    } else {
        matches!(c, 0x85 | 0x200E..=0x200F | 0x2028..=0x2029)
    }
}

pub fn is_id_start(c: u32) -> bool
    ensures { result ≡ is_id_start c }
{
    c == 0x5F || is_xid_start(c)
}

pub fn is_id_continue(c: u32) -> bool
    ensures { result ≡ is_id_continue c }
{
    is_xid_continue(c)
}
