// compare: what `compare` answers for two texts. The verdict, the answer to a text that was refused, how many counted tokens agree, and the
// kind, start and length of what stands behind those in each text.
use crate::output::Result;
use crate::words::{TEXT, Words, bytes, number};
use same::{ComparisonAnswer, Sight};
use std::io;

fn print_sight(rt: &impl Print, sight: Sight) -> io::Result<()> {
    let Sight { kind, start, len } = sight;
    print!(rt; " {kind},{start},{len}")
}

fn print_comparison(rt: &impl Print, given: ComparisonAnswer) -> io::Result<()> {
    let verdict = given.verdict;
    let number = given.refusal.number;
    let also = given.refusal.also;
    let agreed = given.agreed;
    print!(rt; "{verdict} {number} {also} {agreed}")?;
    print_sight(rt, given.old)?;
    print_sight(rt, given.new)
}

pub fn answer(rt: &impl Print, mut words: Words<'_>) -> Result<()> {
    let profile = number(words.word())?;
    let mut old = [0u8; TEXT];
    let mut new = [0u8; TEXT];
    let old = bytes(words.word(), &mut old)?;
    let new = bytes(words.rest(), &mut new)?;
    let given = same::compare(old, new, profile);
    print_comparison(rt, ComparisonAnswer::from(given))?;
    Ok(())
}
