// The results about messages: where a request's parts lie, and the next field of a section; where one part does is an outcome and two numbers.
ghost use Rattle.std.specs.Prelude.{◌≡◌};
ghost use Rattle.results.specs.Messages.{request_result, field_result};

use crate::outcome::Outcome;
use bhttp::requests::Request;
use fields::fault::BadMessage;
use fields::field::Field;
use wire::refusal::Refusal;

// Where the parts lie; all 0 on refusal.
#[repr(C)]
#[derive(Clone, Copy, Default)]
pub struct RequestResult {
    pub outcome: Outcome,
    pub request: Request,
}

// Where a field lies, and the place behind it; all 0 on refusal.
#[repr(C)]
#[derive(Clone, Copy, Default)]
pub struct FieldResult {
    pub outcome: Outcome,
    pub field: Field,
    pub next: usize,
}

impl From<Result<Request, Refusal>> for RequestResult {
    ghost from_gives = { λ answer result. result ≡ request_result answer };

    fn from(answer: Result<Request, Refusal>) -> RequestResult {
        match answer {
            Ok(request) => RequestResult {
                request,
                ..RequestResult::default()
            },
            Err(refusal) => RequestResult {
                outcome: refusal.into(),
                ..RequestResult::default()
            },
        }
    }
}

impl From<Result<Field, BadMessage>> for FieldResult {
    ghost from_gives = { λ answer result. result ≡ field_result answer };

    fn from(answer: Result<Field, BadMessage>) -> FieldResult {
        match answer {
            Ok(field) => FieldResult {
                field,
                next: field.value.end,
                ..FieldResult::default()
            },
            Err(bad) => FieldResult {
                outcome: Refusal::from(bad).into(),
                ..FieldResult::default()
            },
        }
    }
}
