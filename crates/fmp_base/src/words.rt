//! The words of both texts: constants, static APIs, service calls and keywords.
ghost use Rattle.std.specs.Prelude.{◌≡◌};
ghost use Rattle.fmp_base.specs.Words.{constant_name, constant_value, api_name, keyword_name, constant_named};
ghost use Rattle.fmp_base.specs.Words.{api_named, service_named, keyword_named};

use crate::codes::Er;
use crate::finding::find_word;
use crate::services::Service;

/// A constant of the uITRON 4.0 specification that may stand in both texts.
#[derive(Clone, Copy, PartialEq, Eq)]
pub enum Constant {
    /// A main error code.
    Code(Er),
    TaNull,
    TaHlng,
    TaTfifo,
    TaTpri,
    TaMfifo,
    TaMpri,
    TaAct,
    TaWsgl,
    TaWmul,
    TaClr,
    TaSta,
    TwfAndw,
    TwfOrw,
    TmoPol,
    TmoFevr,
    TskSelf,
    TpriIni,
    TpriSelf,
}

/// A static API of the configuration.
#[derive(Clone, Copy, PartialEq, Eq)]
pub enum Api {
    CreTsk,
    CreSem,
    CreFlg,
    CreDtq,
    CreMbx,
    CreMsg,
    CreShr,
    CreSpn,
    CreCyc,
    DefInh,
}

/// A word of the grammars that names no constant, no API and no call.
#[derive(Clone, Copy, PartialEq, Eq)]
pub enum Keyword {
    NumPrc,
    Class,
    Null,
    Task,
    Handler,
    Var,
    If,
    Else,
    While,
    Break,
    Continue,
    Return,
}

/// All constants.
pub const CONSTANTS: [Constant; 30] = [
    Constant::Code(Er::Ok),
    Constant::Code(Er::Sys),
    Constant::Code(Er::Nospt),
    Constant::Code(Er::Rsatr),
    Constant::Code(Er::Par),
    Constant::Code(Er::Id),
    Constant::Code(Er::Ctx),
    Constant::Code(Er::Iluse),
    Constant::Code(Er::Obj),
    Constant::Code(Er::Qovr),
    Constant::Code(Er::Rlwai),
    Constant::Code(Er::Tmout),
    Constant::TaNull,
    Constant::TaHlng,
    Constant::TaTfifo,
    Constant::TaTpri,
    Constant::TaMfifo,
    Constant::TaMpri,
    Constant::TaAct,
    Constant::TaWsgl,
    Constant::TaWmul,
    Constant::TaClr,
    Constant::TaSta,
    Constant::TwfAndw,
    Constant::TwfOrw,
    Constant::TmoPol,
    Constant::TmoFevr,
    Constant::TskSelf,
    Constant::TpriIni,
    Constant::TpriSelf,
];

/// All static APIs.
pub const APIS: [Api; 10] = [
    Api::CreTsk,
    Api::CreSem,
    Api::CreFlg,
    Api::CreDtq,
    Api::CreMbx,
    Api::CreMsg,
    Api::CreShr,
    Api::CreSpn,
    Api::CreCyc,
    Api::DefInh,
];

/// All keywords of both texts.
pub const KEYWORDS: [Keyword; 12] = [
    Keyword::NumPrc,
    Keyword::Class,
    Keyword::Null,
    Keyword::Task,
    Keyword::Handler,
    Keyword::Var,
    Keyword::If,
    Keyword::Else,
    Keyword::While,
    Keyword::Break,
    Keyword::Continue,
    Keyword::Return,
];

/// The names of the APIs, in order.
static API_NAMES: [&str; 10] = [
    "CRE_TSK", "CRE_SEM", "CRE_FLG", "CRE_DTQ", "CRE_MBX", "CRE_MSG", "CRE_SHR", "CRE_SPN",
    "CRE_CYC", "DEF_INH",
];

/// The texts of the keywords, in order.
static KEYWORD_NAMES: [&str; 12] = [
    "NUM_PRC", "CLASS", "NULL", "task", "handler", "var", "if", "else", "while", "break",
    "continue", "return",
];

impl Constant {
    /// The number that the constant stands for.
    pub fn value(self) -> i32
        ensures { result ≡ constant_value self }
    {
        match self {
            Constant::Code(code) => code.code(),
            Constant::TaNull
            | Constant::TaHlng
            | Constant::TaTfifo
            | Constant::TaMfifo
            | Constant::TaWsgl
            | Constant::TwfAndw
            | Constant::TmoPol
            | Constant::TskSelf
            | Constant::TpriIni
            | Constant::TpriSelf => 0,
            Constant::TaTpri | Constant::TwfOrw => 1,
            Constant::TaMpri | Constant::TaAct | Constant::TaWmul | Constant::TaSta => 2,
            Constant::TaClr => 4,
            Constant::TmoFevr => -1,
        }
    }

    /// The constant as the texts write it.
    pub fn name(self) -> &'static str
        ensures { result.now ≡ constant_name self }
    {
        match self {
            Constant::Code(code) => code.name(),
            Constant::TaNull => "TA_NULL",
            Constant::TaHlng => "TA_HLNG",
            Constant::TaTfifo => "TA_TFIFO",
            Constant::TaTpri => "TA_TPRI",
            Constant::TaMfifo => "TA_MFIFO",
            Constant::TaMpri => "TA_MPRI",
            Constant::TaAct => "TA_ACT",
            Constant::TaWsgl => "TA_WSGL",
            Constant::TaWmul => "TA_WMUL",
            Constant::TaClr => "TA_CLR",
            Constant::TaSta => "TA_STA",
            Constant::TwfAndw => "TWF_ANDW",
            Constant::TwfOrw => "TWF_ORW",
            Constant::TmoPol => "TMO_POL",
            Constant::TmoFevr => "TMO_FEVR",
            Constant::TskSelf => "TSK_SELF",
            Constant::TpriIni => "TPRI_INI",
            Constant::TpriSelf => "TPRI_SELF",
        }
    }
}

impl Api {
    /// The API as the configuration writes it.
    pub fn name(self) -> &'static str
        ensures { result.now ≡ api_name self }
    {
        API_NAMES[self as usize]
    }
}

impl Keyword {
    /// The keyword as the texts write it.
    pub fn name(self) -> &'static str
        ensures { result.now ≡ keyword_name self }
    {
        KEYWORD_NAMES[self as usize]
    }
}

/// The constant of this name.
#[tactic(auto, unfolding(crate::specs::Words::constant_named))]
pub fn find_constant(word: &[u8]) -> Option<Constant>
    ensures { result ≡ constant_named word.now }
{
    find_word(word)
}

/// The API of this name.
#[tactic(auto, unfolding(crate::specs::Words::api_named))]
pub fn find_api(word: &[u8]) -> Option<Api>
    ensures { result ≡ api_named word.now }
{
    find_word(word)
}

/// The service call of this name.
#[tactic(auto, unfolding(crate::specs::Words::service_named))]
pub fn find_service(word: &[u8]) -> Option<Service>
    ensures { result ≡ service_named word.now }
{
    find_word(word)
}

/// The keyword of this name.
#[tactic(auto, unfolding(crate::specs::Words::keyword_named))]
pub fn find_keyword(word: &[u8]) -> Option<Keyword>
    ensures { result ≡ keyword_named word.now }
{
    find_word(word)
}
