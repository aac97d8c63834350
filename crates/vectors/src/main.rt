// Reads cases from standard input and prints what the crates answer, a case a line: a letter, a blank, and the text.
//     b TEXT   Base64 to octets (F9), printed in hexadecimal; or spoiled
//     e TEXT   the octets of the text, written as Base64 lines (W4)
//     k TEXT   the place behind the spaces, tabs and comments that open the text (L2); or unreadable
//     q TEXT   the place behind the quoted string whose opening quote opens the text (L3); or unreadable
//     d TEXT   a Date value (page D), in seconds since 1970; or unavailable
//     y TEXT   a year (D9): of each month, the days from 1 January 1900 to its first day, and its length (D8); or no year
//     p TEXT   the Punycode of the code points of a text in UTF-8, put into lower case (L21, L23); or ill-formed, or no room
//     u TEXT   the code points that a Punycode text decodes to (L23), as octets of UTF-8 in hexadecimal; or nothing, or no room
// What it must print stands in `stdout`, as the independent program printed it. A read or a write that fails ends it with that
// error.
#![tactic(auto)]

ghost use Rattle.std.specs.Prelude.{◌≤◌, ◌≡◌, true, length};
ghost use Rattle.utf8.specs.Utf8.{scalars};
ghost use Rattle.coder.specs.Steps.{Points};

use codepoints::Read;
use datewords::meaning;
use datewords::meaning::Place;
use std::io;

// How many octets of cases are read.
const MOST_INPUT: usize = 65536;

// How many octets a key or its lines may have.
const MOST_KEY: usize = 4096;

// How many code points a case may have. Their code has room for as many octets.
const MOST_POINTS: usize = 256;

// Four octets for each of them (L20).
const MOST_OCTETS: usize = 1024;

fn print_octets(rt: &impl Print, s: &[u8]) -> io::Result<()> {
    for x in s {
        print!(rt; "{x:02x}")?;
    }
    rt.write_all(b"\n")
}

fn run_decode(rt: &impl Print, text: &[u8]) -> io::Result<()> {
    let mut out = [0u8; MOST_KEY];
    match keydata::decode(text, &mut out) {
        Some(n) => print_octets(rt, &out[..n]),
        None => rt.write_all(b"spoiled\n"),
    }
}

fn run_lines(rt: &impl Print, text: &[u8]) -> io::Result<()> {
    let mut out = [0u8; MOST_KEY];
    if MOST_KEY < keylines::lines_length(text) {
        return rt.write_all(b"no room\n");
    }
    let n = keylines::write_lines(text, &mut out, 0);
    rt.write_all(&out[..n])
}

fn print_number(rt: &impl Print, n: u64) -> io::Result<()> {
    println!(rt; "{n}")
}

fn print_place(rt: &impl Print, r: Option<usize>) -> io::Result<()> {
    match r {
        Some(n) => print_number(rt, n as u64),
        None => rt.write_all(b"unreadable\n"),
    }
}

fn run_date(rt: &impl Print, text: &[u8]) -> io::Result<()> {
    match date::date(text) {
        Some(n) => print_number(rt, n),
        None => rt.write_all(b"unavailable\n"),
    }
}

fn print_month(rt: &impl Print, year: u64, month: u64) -> io::Result<()>
    requires le_year { (1900 ≤ year) × (year ≤ 9999) }
    requires le_month { (1 ≤ month) × (month ≤ 12) }
{
    let days = calendar::day_count(year, month, 1);
    let length = calendar::month_length(year, month);
    println!(rt; "{days} {length}")
}

fn print_year(rt: &impl Print, year: u64) -> io::Result<()>
    requires { (1900 ≤ year) × (year ≤ 9999) }
{
    for month in 1..=12 {
        print_month(rt, year, month)?;
    }
    Ok(())
}

#[tactic(auto, using(crate::proofs::Dating::dating))]
fn run_year(rt: &impl Print, text: &[u8]) -> io::Result<()> {
    match meaning::meant(Place::Year, text) {
        Some(year) => print_year(rt, year),
        None => rt.write_all(b"no year\n"),
    }
}

fn print_line(rt: &impl Print, s: &[u8]) -> io::Result<()> {
    rt.write_all(s)?;
    rt.write_all(b"\n")
}

fn print_code(rt: &impl Print, points: &[u32]) -> io::Result<()>
    requires { Points 256 points.now }
{
    let mut out = [0u8; MOST_POINTS];
    match coder::encode(points, &mut out) {
        Some(n) => print_line(rt, &out[..n]),
        None => rt.write_all(b"no room\n"),
    }
}

#[tactic(auto, using(crate::proofs::Coding::reading_code))]
fn run_code(rt: &impl Print, text: &[u8]) -> io::Result<()> {
    let mut points = [0u32; MOST_POINTS];
    match codepoints::read_small(text, &mut points) {
        Read::Points(n) => print_code(rt, &points[..n]),
        Read::Bad => rt.write_all(b"ill-formed\n"),
        Read::Full => rt.write_all(b"no room\n"),
    }
}

fn print_text(rt: &impl Print, points: &[u32]) -> io::Result<()>
    requires { scalars points.now ≡ true }
{
    let mut out = [0u8; MOST_OCTETS];
    match codepoints::write(points, &mut out, 0) {
        Some(n) => print_octets(rt, &out[..n]),
        None => rt.write_all(b"no room\n"),
    }
}

#[tactic(auto, using(crate::proofs::Coding::reading_text))]
fn run_points(rt: &impl Print, text: &[u8]) -> io::Result<()> {
    if MOST_POINTS < text.len() {
        return rt.write_all(b"no room\n");
    }
    let mut points = [0u32; MOST_POINTS];
    match decoder::decode(text, &mut points) {
        Some(n) => print_text(rt, &points[..n]),
        None => rt.write_all(b"nothing\n"),
    }
}

fn run(rt: &impl Print, line: &[u8]) -> io::Result<()> {
    let [kind, _, text @ ..] = line else {
        return Ok(());
    };
    match kind {
        b'b' => run_decode(rt, text),
        b'e' => run_lines(rt, text),
        b'k' => print_place(rt, tokens::skip(text, 0)),
        b'q' => print_place(rt, tokens::quoted(text, 1)),
        b'd' => run_date(rt, text),
        b'y' => run_year(rt, text),
        b'p' => run_code(rt, text),
        b'u' => run_points(rt, text),
        _ => rt.write_all(b"?\n"),
    }
}

fn main(rt: HostRuntime) -> io::Result<()> {
    let mut space = [0u8; MOST_INPUT];
    let n = input::read_full(&mut rt.reader(), &mut space)?;
    for line in space[..n].split(|&x| x == b'\n') {
        run(&rt, line)?;
    }
    Ok(())
}
