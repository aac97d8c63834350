// Answers in numbers, as C has them. What each field says stands in specs/Numbers.antt.
ghost use Rattle.std.specs.Prelude.{◌≤◌, ◌≡◌};
ghost use Rattle.recommend.specs.Recommending.{most_recipients};
ghost use Rattle.lint.specs.Linting.{FewFaults};
ghost use Rattle.cabi.specs.Numbers.{in_numbers, written_in_numbers, advice_number, advice_in_numbers, quick_in_numbers, part_in_numbers, linted_in_numbers};

// vienghulac_answer: 0 or the number of a refusal, and the index of a slot with 2, else 0 (R33).
#[repr(C)]
#[derive(Clone, Copy)]
pub struct Answer {
    pub number: u32,
    pub index: u32,
}

// vienghulac_written: 0 and the length of the field, or the number of a refusal and 0 (R34).
#[repr(C)]
#[derive(Clone, Copy)]
pub struct Written {
    pub number: u64,
    pub length: u64,
}

// vienghulac_advice: 0 and an advice from 1 to 4, or the number of a refusal, its index, and 0 for the advice (A1).
#[repr(C)]
#[derive(Clone, Copy)]
pub struct Advice {
    pub number: u32,
    pub index: u32,
    pub advice: u32,
}

// vienghulac_quick: the same, and how many recipients were looked up, 0 with a refusal (A12, A13).
#[repr(C)]
#[derive(Clone, Copy)]
pub struct Quick {
    pub number: u32,
    pub index: u32,
    pub advice: u32,
    pub looked_up: u32,
}

// vienghulac_part: start and length of a part, counted from the table's first octet; 0 and 0 where it is empty (A6, A7).
#[repr(C)]
#[derive(Clone, Copy)]
pub struct Part {
    pub start: u64,
    pub length: u64,
}

// vienghulac_linted: 0 and how many faults there are, or the number of a refusal and 0 (O1).
#[repr(C)]
#[derive(Clone, Copy)]
pub struct Linted {
    pub number: u32,
    pub count: u32,
}

// R33: the number of a refusal and the index that it carries, 0 and 0 where there is none.
impl From<Result<(), autocrypt::Refusal>> for Answer {
    ghost from_gives = { λ answer numbers. numbers ≡ in_numbers answer };

    #[tactic(auto, unfolding(crate::specs::Numbers::in_numbers))]
    fn from(answer: Result<(), autocrypt::Refusal>) -> Self {
        match answer {
            Ok(()) => Self {
                number: 0,
                index: 0,
            },
            Err(r) => Self {
                number: autocrypt::number(r),
                index: autocrypt::index(r),
            },
        }
    }
}

// R34: the length of the field; with a refusal it is 0.
impl From<Result<usize, autocrypt::Refusal>> for Written {
    ghost from_gives = { λ answer numbers. numbers ≡ written_in_numbers answer };

    #[tactic(auto, unfolding(crate::specs::Numbers::written_in_numbers))]
    fn from(answer: Result<usize, autocrypt::Refusal>) -> Self {
        match answer {
            Ok(n) => Self {
                number: 0,
                length: n as u64,
            },
            Err(r) => Self {
                number: u64::from(autocrypt::number(r)),
                length: 0,
            },
        }
    }
}

// A1: from low to high.
fn advice_number(advice: autocrypt::Advice) -> u32
    ensures { result ≡ advice_number advice }
{
    match advice {
        autocrypt::Advice::Disable => 1,
        autocrypt::Advice::Discourage => 2,
        autocrypt::Advice::Available => 3,
        autocrypt::Advice::Encrypt => 4,
    }
}

// A1: the advice; with a refusal it is 0.
impl From<Result<autocrypt::Advice, autocrypt::Refusal>> for Advice {
    ghost from_gives = { λ answer numbers. numbers ≡ advice_in_numbers answer };

    #[tactic(auto, unfolding(crate::specs::Numbers::advice_in_numbers))]
    fn from(answer: Result<autocrypt::Advice, autocrypt::Refusal>) -> Self {
        match answer {
            Ok(advice) => Self {
                number: 0,
                index: 0,
                advice: advice_number(advice),
            },
            Err(r) => Self {
                number: autocrypt::number(r),
                index: autocrypt::index(r),
                advice: 0,
            },
        }
    }
}

// A12: the numbers of the advice, and the count, which fits (A13).
#[tactic(auto, unfolding(crate::specs::Numbers::quick_in_numbers))]
pub fn quick_in_numbers(quick: autocrypt::Quick) -> Quick
    requires { quick.looked_up ≤ most_recipients }
    ensures { result ≡ quick_in_numbers quick }
{
    let Advice {
        number,
        index,
        advice,
    } = quick.answer.into();
    Quick {
        number,
        index,
        advice,
        looked_up: quick.looked_up as u32,
    }
}

// A6: the part, its two numbers as wide as C has them.
impl From<autocrypt::Part> for Part {
    ghost from_gives = { λ part numbers. numbers ≡ part_in_numbers part };

    #[tactic(auto, unfolding(crate::specs::Numbers::part_in_numbers))]
    fn from(part: autocrypt::Part) -> Self {
        Self {
            start: part.start as u64,
            length: part.length as u64,
        }
    }
}

// O1: how many faults there are, which is a number of 32 bits by O11; with a refusal it is 0.
#[tactic(auto, unfolding(crate::specs::Numbers::linted_in_numbers, lint::specs::Linting::FewFaults))]
pub fn linted_in_numbers(answer: Result<usize, autocrypt::Refusal>) -> Linted
    requires { FewFaults answer }
    ensures { result ≡ linted_in_numbers answer }
{
    match answer {
        Ok(n) => Linted {
            number: 0,
            count: n as u32,
        },
        Err(r) => Linted {
            number: autocrypt::number(r),
            count: 0,
        },
    }
}
