// The fields of a block that are asked for (SCOPE, B12): their kinds, one walk over a block that tells where those of each
// kind stand, and the search for the next one. What is right is said by specs/Fields.antt.
#![tactic(auto)]

ghost use Rattle.std.specs.Prelude.{◌≡◌, ◌≤◌, true, [], length};
ghost use Rattle.octets.specs.Options.{is_some, only_one};
ghost use Rattle.octets.specs.Written.{onto};
ghost use Rattle.header.specs.Answers.{fields_from};
ghost use Rattle.fields.specs.Fields.{fields_in, is_kind as kind_of, values_of};
ghost use Rattle.fields.specs.Spans.{span_past, survey_new, survey_past, SpanAs, SurveyedAs};
ghost use Rattle.fields.specs.Answers.{Lies, value_at, values_from, NamedAs, value_in, OnlyWithin};

use header::Step;

// The fields that are asked for (B12). `Recipients` are To, Cc and Reply-To (G4).
#[derive(Clone, Copy)]
pub enum Kind {
    From,
    ContentType,
    Date,
    Autocrypt,
    Recipients,
    AutocryptGossip,
}

// A field: where its value stands in the block, not unfolded yet; the next line begins at its end.
#[derive(Clone, Copy)]
pub struct Field {
    pub value: usize,
    pub end: usize,
}

// Where the fields of a kind stand: none begins before the place `first`, and none from the place `last` on.
#[derive(Clone, Copy)]
pub struct Span {
    pub first: usize,
    pub last: usize,
}

// The spans of the fields that are asked for in an outer block, so that it is walked over once.
#[derive(Clone, Copy)]
pub struct Survey {
    pub from: Span,
    pub content: Span,
    pub date: Span,
    pub autocrypt: Span,
    pub recipients: Span,
}

// Is a field of this name asked for? Names have no case (B11).
#[tactic(auto, unfolding(crate::specs::Fields::is_kind))]
pub fn is_kind(name: &[u8], kind: Kind) -> bool
    ensures { result ≡ kind_of kind name.now }
{
    match kind {
        Kind::From => octets::same_name(name, b"From"),
        Kind::ContentType => octets::same_name(name, b"Content-Type"),
        Kind::Date => octets::same_name(name, b"Date"),
        Kind::Autocrypt => octets::same_name(name, b"Autocrypt"),
        Kind::Recipients => {
            octets::same_name(name, b"To")
                || octets::same_name(name, b"Cc")
                || octets::same_name(name, b"Reply-To")
        }
        Kind::AutocryptGossip => octets::same_name(name, b"Autocrypt-Gossip"),
    }
}

impl Field {
    // Writes the field's value, unfolded (B9), to the front of `text`, and answers how many octets that are.
    pub fn unfold(self, block: &[u8], text: &mut [u8]) -> usize
        requires { Lies block.now self × (length block.now ≤ length text.old) }
        ensures value { result ≡ length (value_at block.now self) }
        ensures text_after { text.new ≡ onto (value_at block.now self) text.old }
    {
        header::unfold(&block[self.value..self.end], text)
    }
}

impl Span {
    // With the field that begins at the place `at` and ends at the place `end`, if it is of the kind.
    #[tactic(auto, unfolding(crate::specs::Spans::span_past))]
    fn past(self, named: bool, at: usize, end: usize) -> Self
        ensures { result ≡ span_past named at end self }
    {
        if !named {
            return self;
        }
        if self.last == 0 {
            return Self {
                first: at,
                last: end,
            };
        }
        Self { last: end, ..self }
    }
}

impl Survey {
    // Of a block of which nothing was seen yet.
    #[tactic(auto, unfolding(crate::specs::Spans::survey_new, crate::specs::Spans::unseen))]
    fn new() -> Self
        ensures { result ≡ survey_new }
    {
        let unseen = Span { first: 0, last: 0 };
        Self {
            from: unseen,
            content: unseen,
            date: unseen,
            autocrypt: unseen,
            recipients: unseen,
        }
    }

    // With the field of this name.
    #[tactic(auto, unfolding(crate::specs::Spans::survey_past))]
    fn past(self, name: &[u8], at: usize, end: usize) -> Self
        ensures { result ≡ survey_past name.now at end self }
    {
        Self {
            from: self.from.past(is_kind(name, Kind::From), at, end),
            content: self.content.past(is_kind(name, Kind::ContentType), at, end),
            date: self.date.past(is_kind(name, Kind::Date), at, end),
            autocrypt: self.autocrypt.past(is_kind(name, Kind::Autocrypt), at, end),
            recipients: self
                .recipients
                .past(is_kind(name, Kind::Recipients), at, end),
        }
    }
}

// Walks over the block: is it readable, and where do the fields stand that are asked for?
#[tactic(auto, using(crate::proofs::Walking::walking))]
pub fn walk(block: &[u8]) -> Option<Survey>
    ensures { SurveyedAs block.now result }
{
    if header::LIMIT < block.len() {
        return None;
    }
    let mut seen = Survey::new();
    let mut place = 0;
    loop {
        match header::field_at(block, place) {
            Step::Over => return Some(seen),
            Step::Broken => return None,
            Step::Field { name_end, end, .. } => {
                seen = seen.past(&block[place..name_end], place, end);
                place = end;
            }
        }
    }
}

// The first field of the kind from the place `at` on, where a line begins; none stands from the place `last` on.
#[tactic(auto, using(crate::proofs::Finding::seeking))]
pub fn find(block: &[u8], at: usize, last: usize, kind: Kind) -> Option<Field>
    requires { (is_some (fields_from block.now at) ≡ true) × (values_from kind block.now last ≡ []) }
    ensures { NamedAs kind block.now at result }
{
    let mut place = at;
    while place != last {
        let Step::Field {
            name_end,
            value,
            end,
        } = header::field_at(block, place)
        else {
            return None;
        };
        if is_kind(&block[place..name_end], kind) {
            return Some(Field { value, end });
        }
        place = end;
    }
    None
}

// The one field of the kind, if there is exactly one.
#[tactic(auto, using(crate::proofs::Single::single))]
pub fn only_field(block: &[u8], span: Span, kind: Kind) -> Option<Field>
    requires { SpanAs kind block.now span }
    ensures result_value { value_in block.now result ≡ only_one (values_of kind (fields_in block.now)) }
    ensures only_within { OnlyWithin block.now result }
{
    let last = span.last;
    let field = find(block, span.first, last, kind)?;
    match find(block, field.end, last, kind) {
        Some(_) => None,
        None => Some(field),
    }
}
