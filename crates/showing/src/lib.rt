// How an address is shown (SCOPE, W12). What is shown can be typed back: a coded label is shown in UTF-8 only where that is a label
// with just this form.
#![tactic(auto)]

ghost use Rattle.std.specs.Prelude.{◌<◌, ◌≤◌, ◌≡◌, true, ◌&&◌, length, drop};
ghost use Rattle.octets.specs.Puts.{Puts, PutsText};
ghost use Rattle.punycode.specs.Punycode.{decode as decode_of};
ghost use Rattle.pieces.specs.Pieces.{before};
ghost use Rattle.labels.specs.Labels.{label_form, label};
ghost use Rattle.address.specs.Address.{plain};
ghost use Rattle.address.specs.Answers.{written_of, onto_if_fits};
ghost use Rattle.showing.specs.Showing.{same_form, shown_by, shown, displayed};
ghost use Rattle.showing.specs.Answers.{text_of, either_of, shown_form};

// How many octets the form of a label may have (L7).
const LONGEST_LABEL: usize = 63;

// What the form of a label opens with that is not ASCII (L22).
const OPENING: [u8; 4] = *b"xn--";

// Writes a text from a place on, and answers the place behind it, where there is room.
#[tactic(auto, using(crate::proofs::Making::putting_text))]
fn put_text(text: &[u8], out: &mut [u8], at: usize) -> Option<usize>
    requires { at ≤ length out.old }
    ensures { Puts out.old out.new at text.now result }
{
    if out.len() - at < text.len() {
        return None;
    }
    octets::put(out, at, text);
    Some(at + text.len())
}

// Is the text a label with just this form?
#[tactic(auto, using(crate::proofs::Making::having_form))]
fn has_form(text: &[u8], form: &[u8]) -> bool
    ensures { result ≡ (label text.now && same_form form.now (label_form text.now)) }
{
    let mut own = [0u8; 63];
    match labels::put_label(text, &mut own, 0) {
        Some(n) => octets::same(&own[..n], form),
        None => false,
    }
}

// Writes the text that a code stands for, into room for the longest one: 59 code points of four octets.
#[tactic(auto, using(crate::proofs::Making::putting_decoded))]
fn put_decoded(code: &[u8], out: &mut [u8]) -> Option<usize>
    requires { length code.now ≤ 59 }
    ensures { PutsText out.old out.new 0 (text_of (decode_of code.now)) result }
{
    let mut points = [0u32; 59];
    let n = decoder::decode(code, &mut points)?;
    codepoints::write(&points[..n], out, 0)
}

// Writes the text where it is a label with just this form, and else the form.
#[tactic(auto, using(crate::proofs::Making::putting_either))]
fn put_either(text: &[u8], form: &[u8], out: &mut [u8], at: usize) -> Option<usize>
    requires { at ≤ length out.old }
    ensures { Puts out.old out.new at (either_of form.now text.now) result }
{
    if has_form(text, form) {
        return put_text(text, out, at);
    }
    put_text(form, out, at)
}

// Writes what is shown of a coded label.
#[tactic(auto, using(crate::proofs::Making::putting_opened))]
fn put_opened(s: &[u8], out: &mut [u8], at: usize) -> Option<usize>
    requires at_in_bounds { at ≤ length out.old }
    requires in_bounds { (4 ≤ length s.now) × (length s.now ≤ 63) }
    ensures { Puts out.old out.new at (shown_by s.now (decode_of (drop 4 s.now))) result }
{
    let mut text = [0u8; 236];
    match put_decoded(&s[4..], &mut text) {
        Some(n) => put_either(&text[..n], s, out, at),
        None => put_text(s, out, at),
    }
}

// Writes what is shown of a label's form. What is longer than any label is shown as it is.
#[tactic(auto, using(crate::proofs::Making::putting_shown))]
fn put_shown(s: &[u8], out: &mut [u8], at: usize) -> Option<usize>
    requires { at ≤ length out.old }
    ensures { Puts out.old out.new at (shown s.now) result }
{
    if LONGEST_LABEL < s.len() {
        return put_text(s, out, at);
    }
    if octets::goes_on(s, 0, &OPENING) {
        return put_opened(s, out, at);
    }
    put_text(s, out, at)
}

// Writes how a canonical address is shown: up to the `@` it stands as it is.
#[tactic(auto, using(crate::proofs::Laying::putting_address))]
fn put_address(s: &[u8], out: &mut [u8]) -> Option<usize>
    requires { (length (before 64 s.now) < length s.now) × (length s.now ≤ 254) }
    ensures { Puts out.old out.new 0 (shown_form s.now) result }
{
    let n = octets::find(s, 0, b'@');
    let to = put_text(&s[..n + 1], &mut *out, 0)?;
    address::put_labels(s, n + 1, out, to, put_shown)
}

// Writes a text to the front of `out`, where it fits.
#[tactic(auto, using(crate::proofs::Laying::putting_front))]
fn put_front(text: &[u8], out: &mut [u8]) -> Option<usize>
    ensures value { result ≡ written_of text.now (length out.old) }
    ensures out_after { out.new ≡ onto_if_fits text.now out.old }
{
    if out.len() < text.len() {
        return None;
    }
    octets::put(out, 0, text);
    Some(text.len())
}

// Writes how a canonical address is shown to the front of `out`, where it fits. It is made in room for every address shown.
#[tactic(auto, using(crate::proofs::Laying::showing_form))]
fn show_form(s: &[u8], out: &mut [u8]) -> Option<usize>
    requires s_in_bounds { (length (before 64 s.now) < length s.now) × (length s.now ≤ 254) }
    requires s_len_bound { length (shown_form s.now) ≤ 1016 }
    ensures value { result ≡ written_of (shown_form s.now) (length out.old) }
    ensures out_after { out.new ≡ onto_if_fits (shown_form s.now) out.old }
{
    let mut text = [0u8; 1016];
    let n = put_address(s, &mut text)?;
    put_front(&text[..n], out)
}

// Writes how a plain address is shown to the front of `out`, where it fits (W12).
#[tactic(auto, using(crate::proofs::Laying::showing_address))]
pub fn show(s: &[u8], out: &mut [u8]) -> Option<usize>
    requires { plain s.now ≡ true }
    ensures value { result ≡ written_of (displayed s.now) (length out.old) }
    ensures out_after { out.new ≡ onto_if_fits (displayed s.now) out.old }
{
    let mut form = [0u8; 254];
    let n = address::canonical(s, &mut form)?;
    show_form(&form[..n], out)
}
