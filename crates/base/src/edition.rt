// The editions of the rules (rule 16.1).
ghost use Rattle.std.specs.Prelude.{◌≡◌};
ghost use Rattle.base.specs.Edition.{unknown_edition, edition_of, edition_numbered};

use crate::refusal::Refusal;

// The rules of the Rust program, and those of the public page.
#[derive(Clone, Copy, Debug, PartialEq, Eq)]
pub enum Edition {
    Rust,
    Page,
}

// Their numbers.
pub const RUST_EDITION: u32 = 1;

pub const PAGE_EDITION: u32 = 2;

// Whether a number names no edition.
pub fn unknown_edition(number: u32) -> bool
    ensures { result ≡ unknown_edition number }
{
    if number == RUST_EDITION {
        return false;
    }
    number != PAGE_EDITION
}

// The edition that a number names. A number that names none is refused before this is asked.
pub fn edition_of(number: u32) -> Edition
    ensures { result ≡ edition_of number }
{
    if number == PAGE_EDITION {
        return Edition::Page;
    }
    Edition::Rust
}

// The edition that a number names; a number that names none is refused.
impl TryFrom<u32> for Edition {
    type Error = Refusal;

    ghost try_from_gives = { λ number result. result ≡ edition_numbered number };

    fn try_from(number: u32) -> Result<Self, Refusal> {
        if unknown_edition(number) {
            return Err(Refusal::Edition);
        }
        Ok(edition_of(number))
    }
}
