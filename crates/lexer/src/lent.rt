// The tables of the letters, lent once for all that asks about characters.
ghost use Rattle.std.specs.Prelude.{◌≡◌};
ghost use Rattle.characters.specs.Ranges.{flat};
ghost use Rattle.ucd.specs.Ucd.{xid_start, xid_continue, emoji};
ghost use Rattle.lexer.specs.Cut.{wide_emoji, goes_on};
ghost use Rattle.lexer.specs.Unicode.{start_in, more_in, emoji_in, unicode, letters_in};

use ucd::{Emoji, Property, XidContinue, XidStart, is_in};

// What begins an identifier, what goes on with one, and what is an emoji: tables of ranges, whatever they hold. The profile stands beside them: any
// number is one, so that a struct of both would say no more of it.
#[derive(Clone, Copy)]
pub struct Letters<'t> {
    pub start: &'t [u32],
    pub more: &'t [u32],
    pub emoji: &'t [u32],
}

impl<'t> Letters<'t> {
    // Unicode's own.
    pub fn unicode() -> Letters<'static>
        ensures letters { letters_in result ≡ unicode }
        ensures tables { (result.start.now ≡ flat xid_start) × (result.more.now ≡ flat xid_continue) × (result.emoji.now ≡ flat emoji) }
    {
        Letters {
            start: XidStart::table(),
            more: XidContinue::table(),
            emoji: Emoji::table(),
        }
    }

    pub fn is_id_start(&self, c: u32) -> bool
        ensures { result ≡ start_in self.now.start.now c }
    {
        c == 0x5F || is_in::<XidStart>(self.start, c)
    }

    pub fn is_id_continue(&self, c: u32) -> bool
        ensures { result ≡ more_in self.now.more.now c }
    {
        is_in::<XidContinue>(self.more, c)
    }

    pub fn is_wide_emoji(&self, c: u32) -> bool
        ensures { result ≡ wide_emoji (emoji_in self.now.emoji.now) c }
    {
        0x80 <= c && is_in::<Emoji>(self.emoji, c)
    }

    // Whether an identifier that holds an emoji goes on with c.
    pub fn goes_on(&self, c: u32) -> bool
        ensures { result ≡ goes_on (more_in self.now.more.now) (emoji_in self.now.emoji.now) c }
    {
        self.is_id_continue(c) || self.is_wide_emoji(c) || c == 0x200D
    }
}
