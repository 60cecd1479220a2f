// A part of a text fed to the machine: how many words its records take, and these stored where `write` says so. That stays a flag: a list that is lent or
// not would be asked at each record just so, and `PutIf` says of both what becomes of the list and of the count.
ghost use Rattle.std.specs.Prelude.{◌≡◌, true, ◌++◌, ◌+◌, ◌≤◌, length};
ghost use Rattle.lists.specs.Steps.{PutIf};
ghost use Rattle.characters.specs.Utf8.{chars};
ghost use Rattle.lexer.specs.Unicode.{letters_in};
ghost use Rattle.feeding.specs.Fed.{words, idle, feed, feeds, finish};
ghost use Rattle.feeding.specs.Lexer.{taken};
ghost use Rattle.parts.specs.Coded.{state_of};
ghost use Rattle.parts.specs.Steps.{most, recs_of, first_of, passed, StepReady, HeadReady, WordsReady, EndReady, PassReady, Gone};

use crate::state::{Point, Record, Rules};
use characters::utf8::decode;
use cutters::RECORD;

// The point behind a part, and the place behind the words of the records.
#[derive(Clone, Copy)]
pub struct Went {
    pub point: Point,
    pub words: usize,
}

// The words of a record, where there is one, of a token that starts at `at`: the place behind them.
fn put(list: &mut [u32], write: bool, k: usize, given: Option<Record>, at: u32) -> usize
    requires { (k ≤ most) × (write ≡ true → k + length (words (recs_of at given)) ≤ length list.old) }
    ensures { PutIf write list.old k (words (recs_of at given)) list.new result }
{
    let Some(record) = given else {
        return k;
    };
    if write {
        list[k..k + RECORD].copy_from_slice(&record.words(at));
    }
    k + RECORD
}

impl Went {
    // One character more.
    #[inline(always)]
    fn feed(self, c: u32, write: bool, list: &mut [u32], rules: Rules<'_>) -> Went
        requires { StepReady (letters_in rules.letters) rules.profile self c write list.old }
        ensures { Gone (feed (letters_in rules.entry.letters) rules.entry.profile self.point.begun (state_of self.point.state) c) write list.old self.words result list.new }
    {
        let turn = self.point.feed(c, rules);
        let words = put(list, write, self.words, turn.given, self.point.begun);
        Went {
            point: turn.point,
            words,
        }
    }

    // One character, where there is one.
    fn feed_head(self, head: Option<u32>, write: bool, list: &mut [u32], rules: Rules<'_>) -> Went
        requires { HeadReady (letters_in rules.letters) rules.profile self head write list.old }
        ensures { Gone (feeds (letters_in rules.entry.letters) rules.entry.profile self.point.begun (state_of self.point.state) (first_of head)) write list.old self.words result list.new }
    {
        match head {
            Some(c) => self.feed(c, write, list, rules),
            None => self,
        }
    }

    // The characters of some bytes. The place goes on by a character's width, and counts no index.
    fn feed_words(self, text: &[u8], write: bool, list: &mut [u32], rules: Rules<'_>) -> Went
        requires { WordsReady (letters_in rules.letters) rules.profile self text.now write list.old }
        ensures { Gone (feeds (letters_in rules.entry.letters) rules.entry.profile self.point.begun (state_of self.point.state) (chars text.now)) write list.old self.words result list.new }
    {
        let mut went = self;
        let mut at: usize = 0;
        while at < text.len() {
            let d = decode(text, at);
            went = went.feed(d.code, write, list, rules);
            at = at + d.wide;
        }
        went
    }

    // The end of the text.
    fn feed_end(self, write: bool, list: &mut [u32], rules: Rules<'_>) -> Went
        requires { EndReady (letters_in rules.letters) rules.profile self write list.old }
        ensures { Gone (finish (letters_in rules.entry.letters) rules.entry.profile self.point.begun (state_of self.point.state), (idle, self.point.begun + taken (state_of self.point.state))) write list.old self.words result list.new }
    {
        let freed = self.point.release(rules);
        let k = put(list, write, self.words, freed.given, self.point.begun);
        let last = freed.point.last();
        let words = put(list, write, k, last.given, freed.point.begun);
        Went {
            point: last.point,
            words,
        }
    }
}

// A character before them, some bytes, and the end of the text, each where it is there.
pub fn pass(
    point: Point,
    head: Option<u32>,
    text: &[u8],
    ends: bool,
    write: bool,
    list: &mut [u32],
    rules: Rules<'_>,
) -> Went
    requires { PassReady (letters_in rules.letters) rules.profile point.begun (state_of point.state) head text.now ends write list.old }
    ensures { Gone (passed (letters_in rules.entry.letters) rules.entry.profile point.begun (state_of point.state) (first_of head ++ chars text.now) ends) write list.old 0 result list.new }
{
    let start = Went { point, words: 0 };
    let behind = start.feed_head(head, write, list, rules);
    let went = behind.feed_words(text, write, list, rules);
    if ends {
        went.feed_end(write, list, rules)
    } else {
        went
    }
}
