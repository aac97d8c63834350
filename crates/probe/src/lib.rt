// The lower crates' functions under C names, for the differential tests and nothing else: never shipped. Each export
// is thin, takes any input, and tests here what a function below requires of its caller.
#![tactic(auto)]

ghost use Rattle.std.specs.Prelude.{◌+◌, ◌≤◌, ◌↔◌, IsTrue, length};

use slots::Slot;

#[repr(C)]
#[derive(Clone, Copy)]
pub struct Answer {
    pub kind: u64,
    pub value: u64,
}

// An answer of more than two numbers goes into lent numbers: a struct of more than 16 octets isn't answered alike on all
// machines. The export answers the kind alone, TOO_FEW where fewer numbers are lent; then, and where the kind has none, they
// are as they were.
const TOO_FEW: u64 = 9;

fn tell(numbers: &mut [u64], told: &[u64], kind: u64) -> u64 {
    if numbers.len() < told.len() {
        return TOO_FEW;
    }
    numbers[..told.len()].copy_from_slice(told);
    kind
}

// Are there so many octets from the place `at` on?
fn has_room(s: &[u8], at: usize, width: usize) -> bool
    ensures { IsTrue result ↔ (at + width ≤ length s.now) }
{
    width <= s.len() && at <= s.len() - width
}

#[unsafe(no_mangle)]
pub extern "C" fn probe_same(a: &[u8], b: &[u8]) -> bool {
    octets::same(a, b)
}

#[unsafe(no_mangle)]
pub extern "C" fn probe_same_name(a: &[u8], b: &[u8]) -> bool {
    octets::same_name(a, b)
}

#[unsafe(no_mangle)]
pub extern "C" fn probe_goes_on(s: &[u8], at: usize, text: &[u8]) -> bool {
    octets::goes_on(s, at, text)
}

#[unsafe(no_mangle)]
pub extern "C" fn probe_is_zero(s: &[u8]) -> bool {
    octets::is_zero(s)
}

#[unsafe(no_mangle)]
pub extern "C" fn probe_octet(s: &[u8], from: usize, x: u8) -> usize {
    octets::find(s, from, x)
}

#[unsafe(no_mangle)]
pub extern "C" fn probe_fill(out: &mut [u8], x: u8) {
    octets::fill(out, x);
}

#[unsafe(no_mangle)]
pub extern "C" fn probe_put(out: &mut [u8], at: usize, src: &[u8]) -> bool {
    if !has_room(out, at, src.len()) {
        return false;
    }
    octets::put(out, at, src);
    true
}

#[unsafe(no_mangle)]
pub extern "C" fn probe_put_lower(out: &mut [u8], at: usize, src: &[u8]) -> bool {
    if !has_room(out, at, src.len()) {
        return false;
    }
    octets::put_lower(out, at, src);
    true
}

#[unsafe(no_mangle)]
pub extern "C" fn probe_number_at(s: &[u8], at: usize, width: usize) -> Answer {
    if 8 < width || !has_room(s, at, width) {
        return Answer { kind: 1, value: 0 };
    }
    Answer {
        kind: 0,
        value: octets::number_at(s, at, width),
    }
}

#[unsafe(no_mangle)]
pub extern "C" fn probe_put_number(out: &mut [u8], at: usize, width: usize, n: u64) -> bool {
    if !has_room(out, at, width) {
        return false;
    }
    octets::put_number(out, at, width, n);
    true
}

// kind 0: the octets decoded; 1: no Base64, or too little room
#[unsafe(no_mangle)]
pub extern "C" fn probe_decode(text: &[u8], out: &mut [u8]) -> Answer {
    match keydata::decode(text, out) {
        Some(n) => Answer {
            kind: 0,
            value: n as u64,
        },
        None => Answer { kind: 1, value: 0 },
    }
}

// kind 0: the place behind the lines; 2: too little room
#[unsafe(no_mangle)]
pub extern "C" fn probe_lines(key: &[u8], out: &mut [u8], at: usize) -> Answer {
    if !has_room(out, at, keylines::lines_length(key)) {
        return Answer { kind: 2, value: 0 };
    }
    let end = keylines::write_lines(key, out, at);
    Answer {
        kind: 0,
        value: end as u64,
    }
}

fn place(r: Option<usize>) -> Answer {
    match r {
        Some(n) => Answer {
            kind: 0,
            value: n as u64,
        },
        None => Answer { kind: 1, value: 0 },
    }
}

// kind 0: the place reached; 1: unreadable
#[unsafe(no_mangle)]
pub extern "C" fn probe_skip(s: &[u8], at: usize) -> Answer {
    place(tokens::skip(s, at))
}

#[unsafe(no_mangle)]
pub extern "C" fn probe_quoted(s: &[u8], at: usize) -> Answer {
    place(tokens::quoted(s, at))
}

// class 0: digits; 1: letters; any other: what atoms are made of
#[unsafe(no_mangle)]
pub extern "C" fn probe_run_end(s: &[u8], at: usize, class: u8) -> usize {
    let class = match class {
        0 => runs::Class::Digit,
        1 => runs::Class::Letter,
        _ => runs::Class::Atom,
    };
    runs::run_end(s, at, class)
}

// kind 0: seconds since 1970; 1: unavailable
#[unsafe(no_mangle)]
pub extern "C" fn probe_date(value: &[u8]) -> Answer {
    match date::date(value) {
        Some(n) => Answer { kind: 0, value: n },
        None => Answer { kind: 1, value: 0 },
    }
}

#[unsafe(no_mangle)]
pub extern "C" fn probe_effective_date(available: bool, seconds: u64, receipt: u64) -> u64 {
    if available {
        date::effective_date(Some(seconds), receipt)
    } else {
        date::effective_date(None, receipt)
    }
}

// kind 0: the block is over; 1: it is unreadable; 2: a field: where its name ends, its value begins, and the next line begins
#[unsafe(no_mangle)]
pub extern "C" fn probe_field_at(block: &[u8], at: usize, places: &mut [u64]) -> u64 {
    match header::field_at(block, at) {
        header::Step::Over => 0,
        header::Step::Broken => 1,
        header::Step::Field {
            name_end,
            value,
            end,
        } => {
            let told = [name_end as u64, value as u64, end as u64];
            tell(places, &told, 2)
        }
    }
}

// kind 0: the block is over before; 1: it is unreadable before; 2: the field of that number: where its name begins and ends,
// its value begins, and the next line begins
#[unsafe(no_mangle)]
pub extern "C" fn probe_field_number(block: &[u8], k: usize, places: &mut [u64]) -> u64 {
    match reader::field_number(block, k) {
        reader::Handed::Over => 0,
        reader::Handed::Broken => 1,
        reader::Handed::Field {
            name,
            name_end,
            value,
            end,
        } => {
            let told = [name as u64, name_end as u64, value as u64, end as u64];
            tell(places, &told, 2)
        }
    }
}

// One step of a reader that is at the place `at`, and told where it then is. kind 0: the block is over; 1: it is unreadable
// there; 2: a field, whose places follow: where its name begins and ends, its value begins, and the next line begins
#[unsafe(no_mangle)]
pub extern "C" fn probe_take(block: &[u8], at: usize, places: &mut [u64]) -> u64 {
    let taken = reader::take(block, at);
    let place = taken.at as u64;
    match taken.handed {
        reader::Handed::Over => tell(places, &[place], 0),
        reader::Handed::Broken => tell(places, &[place], 1),
        reader::Handed::Field {
            name,
            name_end,
            value,
            end,
        } => {
            let told = [
                place,
                name as u64,
                name_end as u64,
                value as u64,
                end as u64,
            ];
            tell(places, &told, 2)
        }
    }
}

#[unsafe(no_mangle)]
pub extern "C" fn probe_readable(block: &[u8]) -> bool {
    header::readable(block)
}

// kind 0: so many octets; 2: too little room
#[unsafe(no_mangle)]
pub extern "C" fn probe_unfold(raw: &[u8], out: &mut [u8]) -> Answer {
    if out.len() < raw.len() {
        return Answer { kind: 2, value: 0 };
    }
    let n = header::unfold(raw, out);
    Answer {
        kind: 0,
        value: n as u64,
    }
}

#[unsafe(no_mangle)]
pub extern "C" fn probe_is_report(value: &[u8]) -> bool {
    header::is_report(value)
}

#[unsafe(no_mangle)]
pub extern "C" fn probe_is_plain(s: &[u8]) -> bool {
    address::is_plain(s)
}

#[unsafe(no_mangle)]
pub extern "C" fn probe_is_canonical(s: &[u8]) -> bool {
    address::is_canonical(s)
}

#[unsafe(no_mangle)]
pub extern "C" fn probe_was_canonical(s: &[u8]) -> bool {
    asciiaddress::was_canonical(s)
}

// what is not canonical is nobody's form
#[unsafe(no_mangle)]
pub extern "C" fn probe_has_form(s: &[u8], form: &[u8]) -> bool {
    address::is_canonical(form) && address::has_form(s, form)
}

// kind 0: so many octets; 2: too little room, or no plain address
#[unsafe(no_mangle)]
pub extern "C" fn probe_canonical(s: &[u8], out: &mut [u8]) -> Answer {
    if !address::is_plain(s) {
        return Answer { kind: 2, value: 0 };
    }
    match address::canonical(s, out) {
        Some(n) => Answer {
            kind: 0,
            value: n as u64,
        },
        None => Answer { kind: 2, value: 0 },
    }
}

fn stage_of(n: u64) -> grammar::Stage {
    match n {
        0 => grammar::Stage::Place,
        1 => grammar::Stage::Opened,
        2 => grammar::Stage::Phrase,
        3 => grammar::Stage::Angle,
        4 => grammar::Stage::Closing,
        _ => grammar::Stage::Behind,
    }
}

fn stage_number(stage: grammar::Stage) -> u64 {
    match stage {
        grammar::Stage::Place => 0,
        grammar::Stage::Opened => 1,
        grammar::Stage::Phrase => 2,
        grammar::Stage::Angle => 3,
        grammar::Stage::Closing => 4,
        grammar::Stage::Behind => 5,
    }
}

// kind 0: an address, from where to where, and the cursor behind it: its place, its stage, 1 inside a group; 1: the list is
// unreadable; 2: its end
#[unsafe(no_mangle)]
pub extern "C" fn probe_next_address(
    s: &[u8],
    at: usize,
    stage: u64,
    inside: bool,
    places: &mut [u64],
) -> u64 {
    let cursor = addresslist::ListCursor {
        at,
        stage: stage_of(stage),
        inside,
    };
    match addresslist::next_address(s, cursor) {
        addresslist::NextAddress::Address { from, to, next } => {
            let told = [
                from as u64,
                to as u64,
                next.at as u64,
                stage_number(next.stage),
                next.inside as u64,
            ];
            tell(places, &told, 0)
        }
        addresslist::NextAddress::Unreadable => 1,
        addresslist::NextAddress::End => 2,
    }
}

// kind 0: so many addresses; 1: unreadable
#[unsafe(no_mangle)]
pub extern "C" fn probe_count(s: &[u8]) -> Answer {
    match addresslist::count(s) {
        Some(n) => Answer {
            kind: 0,
            value: n as u64,
        },
        None => Answer { kind: 1, value: 0 },
    }
}

// kind 0: the one address, from where to where; 1: there is another number of them, or the list is unreadable
#[unsafe(no_mangle)]
pub extern "C" fn probe_only(s: &[u8], places: &mut [u64]) -> u64 {
    match addresslist::only_address(s) {
        Some(one) => tell(places, &[one.from as u64, one.to as u64], 0),
        None => 1,
    }
}

fn slot_found(r: Option<usize>) -> Answer {
    match r {
        Some(i) => Answer {
            kind: 0,
            value: i as u64,
        },
        None => Answer { kind: 1, value: 0 },
    }
}

// kind 0: the slot that holds the address; 1: none does; 2: the table is not sound, and nobody looks
#[unsafe(no_mangle)]
pub extern "C" fn probe_find(t: &[u8], address: &[u8]) -> Answer {
    let mut tags = [0u32; Slot::MOST];
    match lookup::check(t, &mut tags, slots::Spelling::Canonical) {
        table::Checked::Sound => slot_found(lookup::find(t, &tags, address)),
        table::Checked::Length | table::Checked::Slot(_) => Answer { kind: 2, value: 0 },
    }
}

#[unsafe(no_mangle)]
pub extern "C" fn probe_lowest_free(t: &[u8]) -> Answer {
    slot_found(table::lowest_free(t))
}

#[unsafe(no_mangle)]
pub extern "C" fn probe_count_free(t: &[u8]) -> usize {
    table::count_free(t)
}

// kind 0: valid: its address from where to where, the key's length, 1 for mutual; 1: spoiled, by a key too that has no room
#[unsafe(no_mangle)]
pub extern "C" fn probe_read_field(value: &[u8], key: &mut [u8], told: &mut [u64]) -> u64 {
    // before the key is written
    if told.len() < 4 {
        return TOO_FEW;
    }
    let limit = key.len().min(Slot::KEY_LIMIT);
    let Some(said) = keyfield::read_field(value, limit, key) else {
        return 1;
    };
    let parts = [
        said.address.from as u64,
        said.address.to as u64,
        said.key as u64,
        said.mutual as u64,
    ];
    tell(told, &parts, 0)
}

// How many octets the listing program prints; they open `out`.
#[unsafe(no_mangle)]
pub extern "C" fn probe_printout(input: &[u8], out: &mut [u8; printout::ROOM]) -> usize {
    printout::print(input, out)
}
