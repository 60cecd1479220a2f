// The bytes that are kept for the caller.
ghost use Rattle.std.specs.Prelude.{◌≡◌, ◌-◌, ◌*◌, ◌≤◌, length, take, drop};
ghost use Rattle.lists.specs.Over.{over};
ghost use Rattle.cutters.specs.Records.{record_words};
ghost use Rattle.parts.specs.Steps.{end_in, Copied, kept_bytes, Kept};

use crate::Last;
use cutters::RECORD;

// The end of the last of so many records of a list that start before a place; `from`, where there is none.
pub fn end_before(list: &[u32], count: usize, place: u32, from: u32) -> usize
    requires { count * record_words ≤ length list.now }
    ensures { result ≡ end_in list.now place from 0 count }
{
    let mut end = from as usize;
    for i in 0..count {
        let k = i * RECORD;
        let at = list[k + 3];
        if place <= at {
            break;
        }
        end = at as usize + list[k + 1] as usize;
    }
    end
}

// n bytes from a place on, moved to the front, one by one, as below: `copy_within` and `copy_from_slice` call memmove, and the archive needs no function but
// memcpy and memset (oq3.h).
fn move_down(carry: &mut [u8], from: usize, n: usize)
    requires { n ≤ length carry.old - from }
    ensures { carry.new ≡ over (take n (drop from carry.old)) carry.old }
{
    for i in 0..n {
        carry[i] = carry[from + i];
    }
}

// Bytes stored from place k on, as many as there is room for: the place behind them.
fn copy_in(carry: &mut [u8], k: usize, bytes: &[u8]) -> usize
    requires { k ≤ length carry.old }
    ensures { Copied carry.old k bytes.now result carry.new }
{
    let n = bytes.len().min(carry.len() - k);
    for i in 0..n {
        carry[k + i] = bytes[i];
    }
    k + n
}

// `old` bytes were fed and not handed out before the chunk; as the last call left the carry, they stand there behind others. Behind them go the bytes of
// the chunk but those between `front` and `back`. How many are kept now.
pub fn keep(
    carry: &mut [u8],
    chunk: &[u8],
    last: Last,
    old: usize,
    front: usize,
    back: usize,
) -> usize
    requires { front ≤ length chunk.now }
    ensures { Kept (kept_bytes carry.old chunk.now old last.packed last.kept front back) carry.old result carry.new }
{
    let packed = last.packed as usize;
    let kept = last.kept as usize;
    let there = old.min(kept.min(carry.len()).saturating_sub(packed));
    move_down(carry, packed, there);
    if there < old {
        return there;
    }
    let n = copy_in(carry, old, &chunk[..front]);
    copy_in(carry, n, &chunk[back.min(chunk.len())..])
}
