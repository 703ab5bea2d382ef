// An answer in five numbers: the refusal, 0 for none, and the fields behind it.
ghost use Rattle.std.specs.Prelude.{◌≡◌, [], ◌∷◌};
ghost use Rattle.answers.specs.Fields.{fields_of, read_fields, trace_fields};
ghost use Rattle.packing.specs.Numbers.{first_five};
ghost use Rattle.packing.specs.Listed.{listed};

use crate::fields::Fields;
use answers::error::{ImageRefused, Refusal, TraceRefused};

#[derive(Clone, Copy, Debug, PartialEq, Eq)]
pub struct Numbers {
    pub refusal: u64,
    pub fields: [u64; 4],
}

// With zeros in all fields.
fn refused(number: u64) -> Numbers
    ensures { listed result ≡ number ∷ 0 ∷ 0 ∷ 0 ∷ 0 ∷ [] }
{
    Numbers {
        refusal: number,
        fields: [0, 0, 0, 0],
    }
}

pub fn of_call<T: Fields>(answer: Result<T, Refusal>) -> Numbers
    ensures { listed result ≡ first_five (fields_of 4 T.fields answer) }
{
    match answer {
        Ok(found) => Numbers {
            refusal: 0,
            fields: found.numbers(),
        },
        Err(refusal) => refused(refusal.into()),
    }
}

// A reading: the place of the record.
pub fn of_reading(answer: Result<(), ImageRefused>) -> Numbers
    ensures { listed result ≡ first_five (read_fields answer) }
{
    match answer {
        Ok(()) => Numbers {
            refusal: 0,
            fields: [0; 4],
        },
        Err(e) => Numbers {
            refusal: e.refusal.into(),
            fields: [e.place, 0, 0, 0],
        },
    }
}

// A trace: path and place.
pub fn of_trace(answer: Result<(), TraceRefused>) -> Numbers
    ensures { listed result ≡ first_five (trace_fields answer) }
{
    match answer {
        Ok(()) => Numbers {
            refusal: 0,
            fields: [0; 4],
        },
        Err(e) => Numbers {
            refusal: e.refusal.into(),
            fields: [e.path, e.place, 0, 0],
        },
    }
}
