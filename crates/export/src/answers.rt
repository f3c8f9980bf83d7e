// The structs that more than one module hands back, each of more than 16 bytes, so that x86-64 hands
// them back through memory. A refusal of 0 is none.
ghost use Rattle.std.specs.Prelude.{◌≡◌};
ghost use Rattle.export.specs.Answers.{number, no_number, truth, place_of};

use endian::refusals::Refusal;
use strings::Place;

// A number, or a truth as 0 or 1. unused is 0.
#[repr(C)]
#[derive(Clone, Copy)]
pub struct NumberAnswer {
    pub refusal: u64,
    pub value: u64,
    pub unused: u64,
}

// A part of a lent slice.
#[repr(C)]
#[derive(Clone, Copy)]
pub struct PlaceAnswer {
    pub refusal: u64,
    pub start: u64,
    pub length: u64,
}

pub fn number_answer(value: u64) -> NumberAnswer
    ensures { result ≡ number value }
{
    NumberAnswer {
        refusal: 0,
        value: value,
        unused: 0,
    }
}

pub fn no_number(refusal: Refusal) -> NumberAnswer
    ensures { result ≡ no_number refusal }
{
    NumberAnswer {
        refusal: refusal.0 as u64,
        value: 0,
        unused: 0,
    }
}

pub fn truth_answer(value: bool) -> NumberAnswer
    ensures { result ≡ number (truth value) }
{
    number_answer(value as u64)
}

// A place as the struct that C gets.
pub fn place_answer(found: Result<Place, Refusal>) -> PlaceAnswer
    ensures { result ≡ place_of found }
{
    match found {
        Ok(place) => PlaceAnswer {
            refusal: 0,
            start: place.start as u64,
            length: place.len as u64,
        },
        Err(refusal) => PlaceAnswer {
            refusal: refusal.0 as u64,
            start: 0,
            length: 0,
        },
    }
}
