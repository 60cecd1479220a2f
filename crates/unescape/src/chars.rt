// The characters of a text, one after the other.
ghost use Rattle.std.specs.Prelude.{◌≤◌, length};
ghost use Rattle.unescape.specs.Chars.{Next};

use characters::utf8::decode;

// A place in a text, with what stands behind it still to come. What moves it on is compiled into the loop over a body (`inline(always)`), so that the place
// stays in a register.
#[derive(Clone, Copy)]
pub struct Chars<'t> {
    pub text: &'t [u8],
    pub at: usize,
    ghost within: { at ≤ length text.now },
}

impl Chars<'_> {
    // The next character, if there is one.
    #[inline(always)]
    pub fn next(&mut self) -> Option<u32>
        ensures { Next self.old.text.now self.old.at result self.new.text.now self.new.at }
    {
        if self.text.len() <= self.at {
            return None;
        }
        let d = decode(self.text, self.at);
        self.at = self.at + d.wide;
        Some(d.code)
    }
}
