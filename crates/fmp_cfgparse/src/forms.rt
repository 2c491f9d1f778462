//! The forms of the static APIs: which parts each one has.
ghost use Rattle.std.specs.Prelude.{◌≡◌};
ghost use Rattle.fmp_cfgparse.specs.Grammar.{api_parts};

use ApiPart::{Name, Value};
use fmp_lex::{Api, Mark};

/// A part of the form of a static API.
#[derive(Clone, Copy)]
pub enum ApiPart {
    Mark(Mark),
    Name,
    Value,
}

const OPEN: ApiPart = ApiPart::Mark(Mark::LeftParen);

const CLOSE: ApiPart = ApiPart::Mark(Mark::RightParen);

const BEGIN: ApiPart = ApiPart::Mark(Mark::LeftBrace);

const END: ApiPart = ApiPart::Mark(Mark::RightBrace);

const COMMA: ApiPart = ApiPart::Mark(Mark::Comma);

const SEMICOLON: ApiPart = ApiPart::Mark(Mark::Semicolon);

const NULL: ApiPart = ApiPart::Mark(Mark::Null);

const TASK_PARTS: [ApiPart; 18] = [
    OPEN, Name, COMMA, BEGIN, Value, COMMA, Value, COMMA, Name, COMMA, Value, COMMA, Value, COMMA,
    NULL, END, CLOSE, SEMICOLON,
];

const SEMAPHORE_PARTS: [ApiPart; 12] = [
    OPEN, Name, COMMA, BEGIN, Value, COMMA, Value, COMMA, Value, END, CLOSE, SEMICOLON,
];

const FLAG_PARTS: [ApiPart; 10] = [
    OPEN, Name, COMMA, BEGIN, Value, COMMA, Value, END, CLOSE, SEMICOLON,
];

const QUEUE_PARTS: [ApiPart; 12] = [
    OPEN, Name, COMMA, BEGIN, Value, COMMA, Value, COMMA, NULL, END, CLOSE, SEMICOLON,
];

const MESSAGE_PARTS: [ApiPart; 8] = [OPEN, Name, COMMA, BEGIN, Value, END, CLOSE, SEMICOLON];

const CYCLIC_PARTS: [ApiPart; 16] = [
    OPEN, Name, COMMA, BEGIN, Value, COMMA, Value, COMMA, Name, COMMA, Value, COMMA, Value, END,
    CLOSE, SEMICOLON,
];

const INTERRUPT_PARTS: [ApiPart; 10] = [
    OPEN, Value, COMMA, BEGIN, Value, COMMA, Name, END, CLOSE, SEMICOLON,
];

/// The form of a static API, after its word.
pub(crate) fn parts_of(api: Api) -> &'static [ApiPart]
    ensures { result.now ≡ api_parts api }
{
    match api {
        Api::CreTsk => &TASK_PARTS,
        Api::CreSem => &SEMAPHORE_PARTS,
        Api::CreFlg => &FLAG_PARTS,
        Api::CreDtq | Api::CreMbx => &QUEUE_PARTS,
        Api::CreMsg | Api::CreShr | Api::CreSpn => &MESSAGE_PARTS,
        Api::CreCyc => &CYCLIC_PARTS,
        Api::DefInh => &INTERRUPT_PARTS,
    }
}
