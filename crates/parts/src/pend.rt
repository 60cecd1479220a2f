// The bytes of a character that is not finished.
ghost use Rattle.std.specs.Prelude.{◌≡◌, true, ◌++◌, ◌≤◌, ◌<◌, length, get_or};
ghost use Rattle.characters.specs.Unfinished.{unfinished};
ghost use Rattle.text.specs.Answer.{longest};
ghost use Rattle.parts.specs.Coded.{pend_of, packed_pend};
ghost use Rattle.parts.specs.Steps.{HeadIs};

use characters::utf8::{NO_CHAR, decode_four, is_begun};

// At most three bytes, and how many; more than three stand for three. A caller in C holds it, and so it has a byte in each field and no slice.
#[repr(C)]
#[derive(Clone, Copy, Default)]
pub struct Pend {
    pub count: u32,
    pub one: u8,
    pub two: u8,
    pub three: u8,
}

// The first character of these bytes and a chunk behind them: whole, with the number of bytes of the chunk that it takes; not yet whole, with the bytes that
// are now there; or one that nothing can finish.
#[derive(Clone, Copy)]
pub enum Head {
    Whole { code: u32, from: usize },
    Short(Pend),
    Bad,
}

fn byte(text: &[u8], at: usize) -> u8
    ensures { result ≡ get_or text.now at 0 }
{
    text.get(at).map_or(0, |b| *b)
}

impl Pend {
    // The bytes of a text of at most three.
    pub fn holding(text: &[u8]) -> Pend
        requires { length text.now ≤ 3 }
        ensures { result ≡ packed_pend text.now }
    {
        Pend {
            count: text.len() as u32,
            one: byte(text, 0),
            two: byte(text, 1),
            three: byte(text, 2),
        }
    }

    pub fn len(self) -> usize
        ensures { result ≡ length (pend_of self) }
    {
        self.count.min(3) as usize
    }

    fn byte(self, i: usize) -> u8
        ensures { result ≡ get_or (pend_of self) i 0 }
    {
        if self.len() <= i {
            return 0;
        }
        match i {
            0 => self.one,
            1 => self.two,
            _ => self.three,
        }
    }

    // A byte of these and the chunk behind them.
    fn byte_before(self, chunk: &[u8], i: usize) -> u8
        ensures { result ≡ get_or (pend_of self ++ chunk.now) i 0 }
    {
        let n = self.len();
        if i < n {
            self.byte(i)
        } else {
            byte(chunk, i - n)
        }
    }

    pub fn head(self, chunk: &[u8]) -> Head
        requires { (unfinished (pend_of self) ≡ true) × (0 < length (pend_of self)) × (length chunk.now ≤ longest) }
        ensures { HeadIs (pend_of self) chunk.now result }
    {
        let a = self.byte_before(chunk, 0);
        let b = self.byte_before(chunk, 1);
        let c = self.byte_before(chunk, 2);
        let d = self.byte_before(chunk, 3);
        let x = decode_four(a, b, c, d);
        if x.code < NO_CHAR {
            return Head::Whole {
                code: x.code,
                from: x.wide - self.len(),
            };
        }
        let many = self.len() + chunk.len();
        if is_begun(many, a, b, c) {
            return Head::Short(Pend {
                count: many as u32,
                one: a,
                two: b,
                three: c,
            });
        }
        Head::Bad
    }

    // Whether these bytes could still become a character, or are none.
    #[tactic(auto, using(crate::proofs::Pending::opens))]
    pub fn is_open(self) -> bool
        ensures { result ≡ unfinished (pend_of self) }
    {
        let n = self.len();
        n == 0 || is_begun(n, self.byte(0), self.byte(1), self.byte(2))
    }
}
