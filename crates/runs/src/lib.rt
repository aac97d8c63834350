// Runs of octets of one class: whether an octet belongs to the class, and where the run ends that begins at a place. What
// the classes are is said by specs/Runs.antt.
#![tactic(auto)]

ghost use Rattle.std.specs.Prelude.{◌+◌, ◌≡◌, drop};
ghost use Rattle.runs.specs.Runs.{digit as digit_of, letter as letter_of, belongs, run_length};

// The classes of octets that make runs: blanks (L1); what a field's name is made of (B7); digits and letters (D4); what
// atoms are made of (L1), what labels (L7), and what whole addresses (L12).
#[derive(Clone, Copy)]
pub enum Class {
    Blank,
    Name,
    Digit,
    Letter,
    Atom,
    Label,
    Address,
}

#[tactic(auto, unfolding(crate::specs::Runs::belongs), using(std::proofs::lemmas::Bool::Decides::nat_tests))]
fn name(x: u8) -> bool
    ensures { result ≡ belongs Class.Name x }
{
    matches!(x, 33..=126) && x != b':'
}

fn digit(x: u8) -> bool
    ensures { result ≡ digit_of x }
{
    x.is_ascii_digit()
}

fn letter(x: u8) -> bool
    ensures { result ≡ letter_of x }
{
    x.is_ascii_alphabetic()
}

// Letters, digits, the signs ! # $ % & ' * + - / = ? ^ _ ` { | } ~ and the octets of 128 and above (L1), as ranges. Small
// letters, the most of what stands in atoms, are known by the first of them.
#[tactic(auto, unfolding(crate::specs::Runs::belongs), using(std::proofs::lemmas::Bool::Decides::nat_tests))]
fn atom(x: u8) -> bool
    ensures { result ≡ belongs Class.Atom x }
{
    if b'^' <= x {
        return x != 127;
    }
    if b'A' <= x {
        return x <= b'Z';
    }
    if b'-' <= x {
        return (x <= b'9' && x != b'.') || x == b'=' || x == b'?';
    }
    (b'*' <= x && x <= b'+') || (b'#' <= x && x <= b'\'') || x == b'!'
}

// Small letters, the most of what stands in labels, are known by the first test.
#[tactic(auto, unfolding(crate::specs::Runs::belongs), using(std::proofs::lemmas::Bool::Decides::nat_tests))]
fn label(x: u8) -> bool
    ensures { result ≡ belongs Class.Label x }
{
    if x.is_ascii_lowercase() {
        return true;
    }
    x.is_ascii_uppercase() || x.is_ascii_digit() || x == b'-'
}

#[tactic(auto, unfolding(crate::specs::Runs::belongs), using(std::proofs::lemmas::Bool::Decides::nat_tests))]
fn address(x: u8) -> bool
    ensures { result ≡ belongs Class.Address x }
{
    atom(x) || x == b'.' || x == b'@'
}

// Does the octet belong to the class?
#[tactic(auto, unfolding(crate::specs::Runs::belongs))]
pub fn within(class: Class, x: u8) -> bool
    ensures { result ≡ belongs class x }
{
    match class {
        Class::Blank => octets::is_blank(x),
        Class::Name => name(x),
        Class::Digit => digit(x),
        Class::Letter => letter(x),
        Class::Atom => atom(x),
        Class::Label => label(x),
        Class::Address => address(x),
    }
}

// The end of the run of octets of the class that begins at the place `at`; `at` itself where there is none.
#[tactic(auto, using(crate::proofs::Running::running))]
pub fn run_end(s: &[u8], at: usize, class: Class) -> usize
    ensures { result ≡ at + run_length class (drop at s.now) }
{
    for i in at..s.len() {
        if !within(class, s[i]) {
            return i;
        }
    }
    at.max(s.len())
}
