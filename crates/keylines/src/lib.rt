// Octets written as the Base64 lines of a field (SCOPE, W4). What they are is said by `lines` of specs/Lines.antt and
// `encode` of letters/specs/Base64.antt.
#![tactic(auto)]

ghost use Rattle.std.specs.Prelude.{◌+◌, ◌≤◌, ◌<◌, ◌≡◌, length};
ghost use Rattle.octets.specs.Written.{put_at};
ghost use Rattle.letters.specs.Base64.{encode};
ghost use Rattle.letters.specs.Tables.{Letters};
ghost use Rattle.keylines.specs.Lines.{lines};
ghost use Rattle.keylines.specs.Steps.{line_of};

// How long the lines of a key are: four characters for every three octets begun, and a space, a CR and
// an LF for every 76 characters begun.
#[tactic(auto, using(crate::proofs::Lengths::lines_ceiled))]
pub fn lines_length(key: &[u8]) -> usize
    ensures { result ≡ length (lines (encode key.now)) }
{
    let text = key.len().div_ceil(3) * 4;
    text + text.div_ceil(76) * 3
}

// The characters of a group: of three octets, or of the last one or two.
#[tactic(auto, unfolding(letters::specs::Base64::encode))]
fn four_of(letters: &[u8; 64], group: &[u8]) -> [u8; 4]
    requires { Letters letters.now × (0 < length group.now) × (length group.now ≤ 3) }
    ensures { result ≡ encode group.now }
{
    match group {
        &[a] => [
            letters::letter_of(letters, a / 4),
            letters::letter_of(letters, a % 4 * 16),
            b'=',
            b'=',
        ],
        &[a, b] => [
            letters::letter_of(letters, a / 4),
            letters::letter_of(letters, a % 4 * 16 + b / 16),
            letters::letter_of(letters, b % 16 * 4),
            b'=',
        ],
        &[a, b, c, ..] => [
            letters::letter_of(letters, a / 4),
            letters::letter_of(letters, a % 4 * 16 + b / 16),
            letters::letter_of(letters, b % 16 * 4 + c / 64),
            letters::letter_of(letters, c % 64),
        ],
        &[] => [b'='; 4],
    }
}

// Writes octets as one line from the place `at` on: a space, their characters, CR and LF. The answer is the place
// behind.
fn write_line(letters: &[u8; 64], octets: &[u8], out: &mut [u8], at: usize) -> usize
    requires { Letters letters.now × (at + length (line_of octets.now) ≤ length out.old) }
    ensures value { result ≡ at + length (line_of octets.now) }
    ensures out_after { out.new ≡ put_at out.old at (line_of octets.now) }
{
    out[at] = b' ';
    let mut o = at + 1;
    for group in octets.chunks(3) {
        octets::put(&mut *out, o, &four_of(letters, group));
        o += 4;
    }
    octets::put(out, o, b"\r\n");
    o + 2
}

// Writes a key as the lines of a field from the place `at` on, and answers the place behind them. A whole line has 57
// octets, which are 76 characters (W4).
pub fn write_lines(key: &[u8], out: &mut [u8], at: usize) -> usize
    requires { at + length (lines (encode key.now)) ≤ length out.old }
    ensures value { result ≡ at + length (lines (encode key.now)) }
    ensures out_after { out.new ≡ put_at out.old at (lines (encode key.now)) }
{
    let letters = letters::letters();
    let mut o = at;
    for octets in key.chunks(57) {
        o = write_line(&letters, octets, &mut *out, o);
    }
    o
}
