// The grammar of lists: places with a comma between two of them, each of which is an address, an address in angle brackets
// or a group (SCOPE, L9). It is a table of the tokens that may stand at each place. What is right is said by
// specs/Grammar.antt.
#![tactic(auto)]

ghost use Rattle.std.specs.Prelude.{◌≡◌};
ghost use Rattle.grammar.specs.Grammar.{after_address, after as after_of, may_end};

// The sorts of tokens besides addresses.
#[derive(Clone, Copy)]
pub enum Sort {
    Word,
    Less,
    Greater,
    Comma,
    Colon,
    Semicolon,
}

// The places of the grammar.
#[derive(Clone, Copy)]
pub enum Stage {
    Place, // a list place must begin
    Opened, // behind the colon of a group
    Phrase, // behind one or more words
    Angle, // behind `<`
    Closing, // behind `<address`
    Behind, // behind a whole list place
}

// Behind an address at a place of the grammar: where the grammar goes on, and whether that is inside a group. There is nothing
// where no address may stand.
#[tactic(auto, unfolding(crate::specs::Grammar::after_address))]
pub fn after_address(stage: Stage, inside: bool) -> Option<(Stage, bool)>
    ensures { result ≡ after_address stage inside }
{
    match stage {
        Stage::Place | Stage::Opened => Some((Stage::Behind, inside)),
        Stage::Angle => Some((Stage::Closing, inside)),
        Stage::Phrase | Stage::Closing | Stage::Behind => None,
    }
}

// Behind any token but an address, at a place of the grammar, inside a group or not. No group stands in a group (L15), and a
// semicolon means nothing outside of one (L14).
#[tactic(auto, unfolding(crate::specs::Grammar::after))]
pub fn after(stage: Stage, inside: bool, sort: Sort) -> Option<(Stage, bool)>
    ensures { result ≡ after_of stage inside sort }
{
    match (stage, sort) {
        (Stage::Place | Stage::Opened | Stage::Phrase, Sort::Word) => Some((Stage::Phrase, inside)),
        (Stage::Place | Stage::Opened | Stage::Phrase, Sort::Less) => Some((Stage::Angle, inside)),
        (Stage::Closing, Sort::Greater) => Some((Stage::Behind, inside)),
        (Stage::Behind, Sort::Comma) => Some((Stage::Place, inside)),
        (Stage::Phrase, Sort::Colon) if !inside => Some((Stage::Opened, true)),
        (Stage::Opened, Sort::Semicolon) => Some((Stage::Behind, false)),
        (Stage::Behind, Sort::Semicolon) if inside => Some((Stage::Behind, false)),
        _ => None,
    }
}

// May the list end at a place of the grammar?
pub fn may_end(stage: Stage, inside: bool) -> bool
    ensures { result ≡ may_end stage inside }
{
    matches!(stage, Stage::Behind) && !inside
}
