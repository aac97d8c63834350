// The decoder of Punycode (L23 of SCOPE): a text becomes code points, or it stands for nothing. What it has of them stands at
// the beginning of the lent memory, and each number puts one code point in between.
#![tactic(auto)]

ghost use Rattle.std.specs.Prelude.{◌^◌, ◌+◌, ◌<◌, ◌≤◌, ◌≡◌, ◌∷◌, length, take, drop};
ghost use Rattle.octets.specs.Written.{put_at};
ghost use Rattle.utf8.specs.Utf8.{scalar};
ghost use Rattle.punycode.specs.Punycode.{runs, decode as decode_of};
ghost use Rattle.decoder.specs.Steps.{Front, behind_of, Lands, Landed, Steps, Stepped, Decodes};

// How far the decoder is: the last code point that was put in, and the place behind it; the bias; what the number comes to
// so far, what its next digit counts, and which digit that is; and how many code points there are.
#[derive(Clone, Copy)]
struct Decoder {
    n: u64,
    old: u64,
    bias: u64,
    i: u64,
    w: u64,
    k: u64,
    len: usize,
}

// How many octets stand before the last delimiter.
fn front(text: &[u8]) -> usize
    ensures { Front text.now result }
{
    text.iter().rposition(|&x| x == b'-').unwrap_or(0)
}

// Where the numbers begin, behind so many octets and the delimiter.
fn behind(b: usize) -> usize
    requires { b < 2 ^ 32 }
    ensures { result ≡ behind_of b }
{
    if b == 0 { 0 } else { b + 1 }
}

// Makes each octet a code point.
fn copy(text: &[u8], out: &mut [u32])
    requires { length text.now ≤ length out.old }
    ensures { out.new ≡ put_at out.old 0 text.now }
{
    for (i, &x) in text.iter().enumerate() {
        out[i] = u32::from(x);
    }
}

// Puts x at the place `at` of the first `len` code points, and moves those behind it on.
fn insert(out: &mut [u32], len: usize, at: usize, x: u32)
    requires { (at ≤ len) × (len < length out.old) }
    ensures { out.new ≡ put_at out.old at (x ∷ drop at (take len out.old)) }
{
    out.copy_within(at..len, at + 1);
    out[at] = x;
}

// Is it a code point, and no surrogate (L20)?
#[tactic(auto, unfolding(utf8::specs::Utf8::scalar))]
fn is_scalar(n: u64) -> bool
    ensures { result ≡ scalar n }
{
    matches!(n, 0..=0xD7FF | 0xE000..=0x10FFFF)
}

// A number has ended: the code point that it leads to is put in. Where it leads to none, the text stands for nothing,
// whatever follows.
#[tactic(auto, using(crate::proofs::Landing::landing))]
fn land(out: &mut [u32], sum: u64, s: Decoder) -> Option<Decoder>
    requires { Lands (length out.old) sum s }
    ensures { Landed out.old out.new sum s result }
{
    let slots = s.len as u64 + 1;
    let point = s.n + sum / slots;
    if !is_scalar(point) {
        return None;
    }
    let place = sum % slots;
    insert(out, s.len, place as usize, point as u32);
    Some(Decoder {
        n: point,
        old: place + 1,
        bias: punycode::adapt(sum - s.old, slots, s.old == 0),
        i: place + 1,
        w: 1,
        k: 36,
        len: s.len + 1,
    })
}

// One octet. A number is given up as soon as it leads beyond the last code point, for its further digits only add to it: so
// no sum grows too large for its width.
#[tactic(auto, using(crate::proofs::Stepping::stepping))]
fn read_one(out: &mut [u32], c: u8, s: Decoder) -> Option<Decoder>
    requires { Steps (length out.old) s }
    ensures { Stepped out.old out.new c s result }
{
    let Some(d) = punycode::value_of(c) else {
        return None;
    };
    let sum = s.i + d * s.w;
    if 0x110000 * (s.len as u64 + 1) <= sum {
        return None;
    }
    let t = punycode::threshold(s.k, s.bias);
    if d < t {
        return land(out, sum, s);
    }
    Some(Decoder {
        i: sum,
        w: s.w * (36 - t),
        k: s.k + 36,
        ..s
    })
}

// All numbers, behind b code points.
#[tactic(auto, using(crate::proofs::Resting::resting))]
fn read_rest(text: &[u8], out: &mut [u32], b: usize) -> Option<usize>
    requires { (b + length text.now ≤ length out.old) × (length out.old < 2 ^ 32) }
    ensures { Decodes out.old out.new (runs text.now (take b out.old)) result }
{
    let mut s = Decoder {
        n: 128,
        old: 0,
        bias: 72,
        i: 0,
        w: 1,
        k: 36,
        len: b,
    };
    for &c in text {
        s = read_one(&mut *out, c, s)?;
    }
    if s.k == 36 { Some(s.len) } else { None }
}

// The code points that a text stands for, at the beginning of `out` (L23). There are never more of them than octets.
#[tactic(auto, using(crate::proofs::Resting::decoding))]
pub fn decode(text: &[u8], out: &mut [u32]) -> Option<usize>
    requires { (length text.now ≤ length out.old) × (length out.old < 2 ^ 32) }
    ensures { Decodes out.old out.new (decode_of text.now) result }
{
    let b = front(text);
    let basic = &text[..b];
    if !basic.is_ascii() {
        return None;
    }
    copy(basic, &mut *out);
    read_rest(&text[behind(b)..], out, b)
}
