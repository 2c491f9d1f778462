//! A configuration of C is gone over, statement by statement.
use crate::constants::{Constants, Defines};
use crate::defining::{LexedSource, header_named, name_defined, why_skipped};
use crate::directives::{enabled_lexemes, included_name, leaves_out};
use crate::importing::Header;
use crate::lexemes::{Lexeme, LexemeKind, first_line};
use crate::notes::{
    CHANGED, HAS_ARGUMENTS, LEFT_OUT, UNKNOWN, append_changes, append_lacking, append_note,
};
use crate::objects::{Changes, Omission, Parameters, SourceObject};
use crate::placing::PlacedObjects;
use crate::plan::SourceClass;
use crate::reading::SourceReading;
use crate::renewing::Renewals;
use crate::source_words::{OUTSIDE, class_named, why_left_out};
use crate::statement::Statement;
use crate::text::bytes_of;
use fmp_base::Name;
use fmp_base::words::{Api, find_api};
use std::alloc::{AllocError, Global};

/// The greatest number of objects of a kind.
const MOST: usize = 255;

/// What is said of a line that defines a name for which another line or option counts.
const NOT_COUNTED: &str = "another definition of its name counts";

/// What a block in braces is.
#[derive(Clone, Copy)]
enum Scope {
    Class(SourceClass),
    /// A class that this project has not.
    NoClass,
    /// A domain of protection, or anything else.
    Other,
}

/// A block that is open: what it is, and what names it in a note.
#[derive(Clone, Copy)]
struct OpenBlock {
    scope: Scope,
    at: Lexeme,
}

/// A configuration that is gone over.
#[derive(Drop)]
pub struct ConfigurationWalk<'a> {
    alloc: Global,
    text: &'a [u8],
    lexemes: &'a [Lexeme],
    headers: &'a [Header],
    constants: Constants,
    /// The names that were defined again so far.
    renewals: Renewals,
    /// The objects so far.
    pub placed: PlacedObjects,
    /// What was left out or changed so far.
    pub notes: Vec<u8>,
    /// The open blocks.
    open: Vec<OpenBlock>,
    /// Whether a body whose name is a word of this project gets `_` at its end.
    escapes: bool,
    /// The word of the open statement.
    word: Option<Lexeme>,
    /// What was read of it, or of the one before.
    statement: Statement,
    /// Whether an object outside of a class was told.
    told_outside: bool,
}

impl<'a> ConfigurationWalk<'a> {
    /// A text that is not gone over yet. Of the constants this many are known beforehand.
    pub fn new(
        alloc: Global,
        source: LexedSource<'a>,
        constants: Constants,
        given: usize,
    ) -> ConfigurationWalk<'a> {
        ConfigurationWalk {
            alloc,
            text: source.text,
            lexemes: source.lexemes,
            headers: source.headers,
            constants,
            renewals: Renewals::new(alloc, given),
            placed: PlacedObjects::new(alloc),
            notes: Vec::new(alloc),
            open: Vec::new(alloc),
            escapes: true,
            word: None,
            statement: Statement::new(alloc),
            told_outside: false,
        }
    }

    /// Makes the constants those at the place that is reached.
    fn refresh(&mut self) -> Result<(), AllocError> {
        let source = LexedSource {
            text: self.text,
            lexemes: self.lexemes,
            headers: self.headers,
        };
        self.renewals
            .refresh(self.alloc, source, &mut self.constants)
    }

    fn reading(&self) -> SourceReading<'_> {
        SourceReading {
            text: self.text,
            lexemes: self.lexemes,
            constants: &self.constants,
        }
    }

    fn note(&mut self, at: Lexeme, says: &str, why: &str) -> Result<(), AllocError> {
        append_note(
            at.line,
            bytes_of(self.text, at.span),
            says,
            why,
            &mut self.notes,
        )
    }

    /// Says that an object is left out for a name in one of its values.
    fn note_lacking(&mut self, at: Lexeme, name: Lexeme, why: &str) -> Result<(), AllocError> {
        append_lacking(
            at.line,
            bytes_of(self.text, at.span),
            bytes_of(self.text, name.span),
            why,
            &mut self.notes,
        )
    }

    /// The innermost open class; none where there is none, or where this project has none of its name.
    fn class(&self) -> Option<Scope> {
        for block in self.open.iter().rev() {
            match block.scope {
                Scope::Other => {}
                class => return Some(class),
            }
        }
        None
    }

    /// Says what an object has otherwise than its source.
    fn note_changes(&mut self, at: Lexeme, changes: Changes) -> Result<(), AllocError> {
        append_changes(
            at.line,
            bytes_of(self.text, at.span),
            changes,
            &mut self.notes,
        )
    }

    /// Adds an object that stands at a word, in a class.
    fn add(
        &mut self,
        at: Lexeme,
        class: SourceClass,
        object: SourceObject,
    ) -> Result<(), AllocError> {
        let SourceObject { record, changes } = object;
        let (count, is_there) = self.placed.look_up(self.text, record.api, record.subject);
        if is_there {
            return self.note(at, LEFT_OUT, "it is defined before");
        }
        if count >= MOST {
            return self.note(at, LEFT_OUT, "there are 255 of its kind before");
        }
        self.note_changes(at, changes)?;
        self.placed.put(class, record)
    }

    /// What names the open statement in a note: its first field, or else its word.
    fn named(&self, word: Lexeme) -> Lexeme {
        match self.statement.fields.first() {
            Some(field) => match self.reading().lexemes_of(*field) {
                [lexeme, ..] => *lexeme,
                [] => word,
            },
            None => word,
        }
    }

    /// The class into which an object goes, if there is one.
    fn class_for(&mut self, at: Lexeme) -> Result<Option<SourceClass>, AllocError> {
        match self.class() {
            Some(Scope::Class(class)) => Ok(Some(class)),
            Some(_) => {
                self.note(at, LEFT_OUT, "its class is none of this project")?;
                Ok(None)
            }
            None => {
                if !self.told_outside {
                    self.told_outside = true;
                    self.note(
                        at,
                        CHANGED,
                        "what stands outside of a class goes into the class `TCL_1`",
                    )?;
                }
                Ok(Some(OUTSIDE))
            }
        }
    }

    /// Ends a statement that makes an object.
    fn end_object(&mut self, word: Lexeme, api: Api) -> Result<(), AllocError> {
        self.refresh()?;
        let at = self.named(word);
        if self.statement.is_unmatched() {
            self.note(at, CHANGED, "its parentheses or braces do not match")?;
        }
        let parameters = Parameters {
            alloc: self.alloc,
            reading: self.reading(),
            escapes: self.escapes,
        };
        match parameters.object(api, &self.statement.fields) {
            Ok(object) => match self.class_for(at)? {
                Some(class) => self.add(at, class, object),
                None => Ok(()),
            },
            Err(Omission::Memory) => Err(AllocError),
            Err(Omission::Wrong(why)) => self.note(at, LEFT_OUT, why),
            Err(Omission::Unknown(constant)) => self.note_lacking(at, constant, UNKNOWN),
            Err(Omission::HasArguments(name)) => self.note_lacking(at, name, HAS_ARGUMENTS),
        }
    }

    /// Ends the open statement.
    fn end_statement(&mut self, word: Lexeme) -> Result<(), AllocError> {
        self.word = None;
        let bytes = bytes_of(self.text, word.span);
        match find_api(bytes) {
            Some(api) => self.end_object(word, api),
            None => self.note(word, LEFT_OUT, why_left_out(bytes)),
        }
    }

    /// Opens the block of the open statement.
    fn open_block(&mut self, word: Lexeme) -> Result<(), AllocError> {
        self.word = None;
        let mut at = word;
        let scope = if bytes_of(self.text, word.span) == b"CLASS".as_slice() {
            let name = self.named(word);
            at = name;
            match class_named(bytes_of(self.text, name.span)) {
                Some(class) => Scope::Class(class),
                None => {
                    self.note(
                        name,
                        LEFT_OUT,
                        "classes are `TCL_1` to `TCL_8_ONLY`, `CLS_PRC1` to `CLS_ALL_PRC8`",
                    )?;
                    Scope::NoClass
                }
            }
        } else {
            self.note(word, LEFT_OUT, "what stands in its braces is taken")?;
            Scope::Other
        };
        self.open.push(OpenBlock { scope, at })?;
        Ok(())
    }

    fn close_block(&mut self, at: Lexeme) -> Result<(), AllocError> {
        match self.open.pop() {
            Some(_) => Ok(()),
            None => self.note(at, LEFT_OUT, "it closes nothing"),
        }
    }

    /// Takes a line of the preprocessor.
    fn directive(&mut self, at: Lexeme) -> Result<(), AllocError> {
        let line = bytes_of(self.text, at.span);
        if let Some(name) = included_name(line) {
            return self.include(at, name);
        }
        if leaves_out(line) {
            return self.note_line(
                at,
                LEFT_OUT,
                "nothing before its `#else` or `#endif` is read",
            );
        }
        if let Some(name) = name_defined(self.alloc, line)?
            && self.renewals.line_of(name).is_some()
        {
            return self.define_again(at, name);
        }
        match self.constants.define(self.alloc, line)? {
            Defines::Constant => Ok(()),
            Defines::Other => match name_defined(self.alloc, line)? {
                Some(name) => self.define_again(at, name),
                None => self.note_line(at, LEFT_OUT, NOT_COUNTED),
            },
            Defines::NoNumber => {
                self.note_line(at, LEFT_OUT, "it defines no number that is known here")
            }
            Defines::Nothing => self.note_line(
                at,
                LEFT_OUT,
                "only `#define`, and `#include` of a file in quotes, are read",
            ),
        }
    }

    /// Takes a line that defines a name otherwise than one before: it counts from here on, unless it stands after an
    /// `#if`, or the constant is known beforehand.
    fn define_again(&mut self, at: Lexeme, name: Name) -> Result<(), AllocError> {
        let line = bytes_of(self.text, at.span);
        if let Some(span) = self.renewals.line_of(name)
            && bytes_of(self.text, span) == line
        {
            return Ok(());
        }
        if at.kind != LexemeKind::Directive || self.renewals.is_given(&self.constants, name) {
            return self.note_line(at, LEFT_OUT, NOT_COUNTED);
        }
        self.renewals.take(name, at.span)?;
        self.note_line(at, CHANGED, "its name has another value before this line")
    }

    /// Says something of a line of the preprocessor.
    fn note_line(&mut self, at: Lexeme, says: &str, why: &str) -> Result<(), AllocError> {
        let span = first_line(self.text, at.span);
        self.note(Lexeme { span, ..at }, says, why)
    }

    /// Takes the name of an included file, whose constants are known.
    fn include(&mut self, at: Lexeme, name: &[u8]) -> Result<(), AllocError> {
        self.refresh()?;
        match header_named(self.headers, name) {
            Some(header) => self.note_header(at.line, &header.text),
            None => self.note_line(at, LEFT_OUT, "the file is not there"),
        }
    }

    /// Says which lines of an included file are left out though they may give constants.
    fn note_header(&mut self, line: usize, header: &[u8]) -> Result<(), AllocError> {
        for lexeme in &enabled_lexemes(self.alloc, header)? {
            if let Some(why) = why_skipped(self.alloc, header, *lexeme, &mut self.constants)? {
                let shown = bytes_of(header, first_line(header, lexeme.span));
                append_note(line, shown, LEFT_OUT, why, &mut self.notes)?;
            }
        }
        Ok(())
    }

    /// Takes a lexeme outside of statements.
    fn begin(&mut self, lexeme: Lexeme) -> Result<(), AllocError> {
        match lexeme.kind {
            LexemeKind::Word => {
                self.word = Some(lexeme);
                self.statement.restart();
                Ok(())
            }
            LexemeKind::Sign(b'}') => self.close_block(lexeme),
            LexemeKind::Sign(b';') => Ok(()),
            _ => self.note(lexeme, LEFT_OUT, "it begins no static API"),
        }
    }

    /// Leaves out the open statement, which nothing ends.
    fn leave(&mut self, word: Lexeme) -> Result<(), AllocError> {
        self.word = None;
        let at = self.named(word);
        self.note(at, LEFT_OUT, "no `;` ends it")
    }

    /// Takes the lexeme at a place outside of the parentheses of a statement.
    fn go_outside(&mut self, word: Lexeme, place: usize, lexeme: Lexeme) -> Result<(), AllocError> {
        match lexeme.kind {
            LexemeKind::Sign(b';') => self.end_statement(word),
            LexemeKind::Sign(b'{') => self.open_block(word),
            LexemeKind::Sign(b'(') => {
                self.statement.open(place);
                Ok(())
            }
            LexemeKind::Sign(b'}') => {
                self.leave(word)?;
                self.close_block(lexeme)
            }
            LexemeKind::Word if !self.statement.fields.is_empty() => {
                self.leave(word)?;
                self.begin(lexeme)
            }
            _ => Ok(()),
        }
    }

    /// Takes the lexeme at a place.
    fn take(&mut self, place: usize, lexeme: Lexeme) -> Result<(), AllocError> {
        match (lexeme.kind, self.word) {
            (kind, _) if kind.is_directive() => self.directive(lexeme),
            (LexemeKind::DisabledDirective, _) => self.note_line(
                lexeme,
                LEFT_OUT,
                "neither its condition nor anything before its `#else` or `#endif` is read",
            ),
            (LexemeKind::OpenComment, _) => self.note(lexeme, CHANGED, "no `*/` ends this comment"),
            (_, None) => self.begin(lexeme),
            (_, Some(word)) if self.statement.is_outside() => self.go_outside(word, place, lexeme),
            (LexemeKind::Sign(b';'), Some(word)) => self.end_statement(word),
            (kind, Some(_)) => self.statement.take(place, kind),
        }
    }

    /// Whether a body that got `_` at the end of its name has the name of another one.
    pub fn has_taken(&self) -> Result<bool, AllocError> {
        self.placed.has_taken(self.text)
    }

    /// Goes over all lexemes again, and leaves out bodies whose names are words of this project.
    pub fn go_again(&mut self) -> Result<(), AllocError> {
        self.escapes = false;
        self.told_outside = false;
        self.placed.blocks.clear();
        self.notes.clear();
        self.open.clear();
        self.renewals.restart();
        self.refresh()?;
        self.go()
    }

    /// Goes over all lexemes.
    pub fn go(&mut self) -> Result<(), AllocError> {
        let lexemes = self.lexemes;
        for place in 0..lexemes.len() {
            self.take(place, lexemes[place])?;
        }
        if let Some(word) = self.word {
            self.leave(word)?;
        }
        self.note_open()
    }

    /// Says which blocks are open at the end of the text.
    fn note_open(&mut self) -> Result<(), AllocError> {
        for i in 0..self.open.len() {
            if let Some(block) = self.open.get(i) {
                let at = block.at;
                self.note(at, CHANGED, "no `}` ends its block")?;
            }
        }
        Ok(())
    }
}
