// The renewal key of a text: equal for two texts exactly when their counted tokens are.
#![tactic(auto)]

ghost use Rattle.text.specs.Refusals.{given};
ghost use Rattle.renewal.specs.Promises.{Keyed};

mod records;
mod table;
mod walk;

use lexer::Letters;
use text::{Refusal, check_cut};
use walk::store;

// Writes the key of a text, and answers how many bytes it has.
pub fn renewal_key(text: &[u8], profile: u32, key: &mut [u8]) -> Result<usize, Refusal>
    ensures { Keyed text.now profile key.old (given result).0 (given result).1 key.new }
{
    check_cut(text, profile)?;
    store(text, profile, key, &Letters::unicode())
}
