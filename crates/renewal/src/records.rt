// The records of the key, written into lent bytes. Each function is lent the key and a place in it, and answers the place behind what it wrote: a
// struct that holds both would have to be lent and told in the same clauses.
ghost use Rattle.std.specs.Prelude.{◌≡◌, [], ◌∷◌, ◌++◌, ◌+◌, ◌*◌, ◌≤◌, length, take, drop};
ghost use Rattle.lists.specs.Steps.{Put, PutIf};
ghost use Rattle.text.specs.Answer.{longest};
ghost use Rattle.renewal.specs.Key.{word, texts, encode};
ghost use Rattle.renewal.specs.Steps.{size_by, member, entry, toks, entries, bodies, BodyFits, Writable, Ready, RunReady};

use crate::table::body_length;
use cutters::RECORD;

fn put_byte(key: &mut [u8], k: usize, b: u8) -> usize
    requires { k + 1 ≤ length key.old }
    ensures { Put key.old k (b ∷ []) key.new result }
{
    key[k] = b;
    k + 1
}

// Four bytes, the lowest first.
fn put_word(key: &mut [u8], k: usize, n: u32) -> usize
    requires { k + 4 ≤ length key.old }
    ensures { Put key.old k (word n) key.new result }
{
    key[k..k + 4].copy_from_slice(&n.to_le_bytes());
    k + 4
}

// Four bytes of a part, from its place i on: all are read before one is written, so that they compile to one load and one store.
// `copy_from_slice` compiles to a test for overlap and both ways of copying.
fn put_four(key: &mut [u8], k: usize, part: &[u8], i: usize) -> usize
    requires { (k + 4 ≤ length key.old) × (i + 4 ≤ length part.now) }
    ensures { Put key.old k (take 4 (drop i part.now)) key.new result }
{
    let a = part[i];
    let b = part[i + 1];
    let c = part[i + 2];
    let d = part[i + 3];
    key[k] = a;
    key[k + 1] = b;
    key[k + 2] = c;
    key[k + 3] = d;
    k + 4
}

// Four to eight bytes of a part, from its place i on: the first four and the last, which may overlap.
fn put_some(key: &mut [u8], k: usize, part: &[u8], i: usize, m: usize) -> usize
    requires { (4 ≤ m) × (m ≤ 8) × (k + m ≤ length key.old) × (i + m ≤ length part.now) }
    ensures { Put key.old k (take m (drop i part.now)) key.new result }
{
    let e = m - 4;
    put_four(key, k, part, i);
    put_four(key, k + e, part, i + e)
}

// One to three bytes: the first, the middle and the last, which may be one.
fn put_few(key: &mut [u8], k: usize, part: &[u8]) -> usize
    requires { (1 ≤ length part.now) × (length part.now ≤ 3) × (k + length part.now ≤ length key.old) }
    ensures { Put key.old k part.now key.new result }
{
    let n = part.len();
    let m = n / 2;
    let e = n - 1;
    key[k] = part[0];
    key[k + m] = part[m];
    key[k + e] = part[e];
    k + n
}

// Of four to sixteen bytes, how many are written at the front and how many at the end, so that together they are all.
fn half(n: usize) -> usize
    requires { (4 ≤ n) × (n ≤ 16) }
    ensures { (4 ≤ result) × (result ≤ 8) × (result ≤ n) × (n ≤ 2 * result) }
{
    if n < 8 { 4 } else { 8 }
}

// One to sixteen bytes, with no loop and no jump but one: how long a name is cannot be foreseen, and a wrong guess costs more than a store.
fn put_bytes(key: &mut [u8], k: usize, part: &[u8]) -> usize
    requires { (1 ≤ length part.now) × (length part.now ≤ 16) × (k + length part.now ≤ length key.old) }
    ensures { Put key.old k part.now key.new result }
{
    let n = part.len();
    if n < 4 {
        return put_few(key, k, part);
    }
    let m = half(n);
    let i = n - m;
    put_some(key, k, part, 0, m);
    put_some(key, k + i, part, i, m)
}

// A byte for each sixteen bytes or less, and then these.
fn put_texts(key: &mut [u8], k: usize, text: &[u8]) -> usize
    requires { k + length (texts text.now) ≤ length key.old }
    ensures { Put key.old k (texts text.now) key.new result }
{
    let mut at = k;
    for part in text.chunks(16) {
        at = put_byte(key, at, 128 + part.len() as u8);
        at = put_bytes(key, at, part);
    }
    at
}

// The length, and behind it the suffix start where the body has eight bytes.
fn put_body(key: &mut [u8], k: usize, body: u8, len: u32, suffix: u32) -> usize
    requires { BodyFits body k key.old }
    ensures { Put key.old k (take body (word len ++ word suffix)) key.new result }
{
    let a = put_word(key, k, len);
    if body == 4 {
        return a;
    }
    put_word(key, a, suffix)
}

// A kind that stands in the key, its body and its text records.
fn put_record(key: &mut [u8], k: usize, kind: u32, body: u8, suffix: u32, text: &[u8]) -> usize
    requires { Writable body k kind suffix text.now key.old }
    ensures { Put key.old k (encode (member kind suffix text.now)) key.new result }
{
    let a = put_byte(key, k, kind as u8);
    if body == 0 {
        return a;
    }
    let b = put_body(key, a, body, text.len() as u32, suffix);
    put_texts(key, b, text)
}

// How many bytes a record takes, by its body and the length of its text.
fn record_size(body: u8, len: usize) -> usize
    requires { len ≤ longest }
    ensures { result ≡ size_by body len }
{
    if body == 0 {
        return 1;
    }
    1 + body as usize + (len + (len + 15) / 16)
}

// Counts the bytes of a token in the key from place k on, and writes them where `write` says so.
fn put_member(key: &mut [u8], write: bool, k: usize, kind: u32, suffix: u32, text: &[u8]) -> usize
    requires { Ready bodies write k kind suffix text.now key.old }
    ensures { PutIf write key.old k (entry (member kind suffix text.now)) key.new result }
{
    let Some(body) = body_length(kind) else {
        return k;
    };
    if write {
        return put_record(key, k, kind, body, suffix, text);
    }
    k + record_size(body, text.len())
}

// The same of a run of tokens, whose words stand in a list, of a text from a place on.
pub fn put_members(
    key: &mut [u8],
    write: bool,
    k: usize,
    text: &[u8],
    from: usize,
    list: &[u32],
    count: usize,
) -> usize
    requires { RunReady bodies write k text.now from list.now count key.old }
    ensures { PutIf write key.old k (entries (drop from text.now) (toks list.now 0 count)) key.new result }
{
    let mut at = from;
    let mut n = k;
    for i in 0..count {
        let kind = list[RECORD * i];
        let end = at + list[RECORD * i + 1] as usize;
        let suffix = list[RECORD * i + 2];
        n = put_member(key, write, n, kind, suffix, &text[at..end]);
        at = end;
    }
    n
}
