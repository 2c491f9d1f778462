//! The texts that are open in an editor, and which of them belong together.

ghost use Rattle.std.specs.Prelude.{◌≡◌, ◌&&◌, [], IfOk, OnOk, MatchOption, None, Some, find, is_some, option_map};
ghost use Rattle.fmp_server.specs.Documents as spec;
ghost use Rattle.fmp_server.specs.Documents.{AreCut, AreTextsOf, IsOpened, without};

use crate::roles::is_same_file;
use fmp_diagnosis::around::list_of;
use fmp_lex::{TextFile, TokenList, Tokens};
use std::alloc::{AllocError, Global};

/// A text that is open in an editor.
#[derive(Drop)]
pub struct Document {
    /// The URI of its file.
    pub uri: String,
    pub text: String,
}

/// All that are open; no two of them have the same URI.
#[derive(Drop)]
pub struct Documents {
    list: Vec<Document>,
}

/// The texts of a system as far as they are open, and which of them is meant.
#[derive(Clone, Copy)]
pub struct OpenTexts<'a> {
    /// The one that is meant.
    pub file: TextFile,
    pub cfg: Option<&'a Document>,
    pub src: Option<&'a Document>,
}

impl<'a> OpenTexts<'a> {
    /// One of the two, if it is open.
    pub fn of(&self, file: TextFile) -> Option<&'a Document>
        ensures { option_map (λ d. d.now) result ≡ spec.text_in self.now file }
    {
        match file {
            TextFile::Configuration => self.cfg,
            TextFile::Source => self.src,
        }
    }

    /// The bytes of one of the two; none if it is not open.
    pub fn bytes_of(&self, file: TextFile) -> &'a [u8]
        ensures { result.now ≡ spec.bytes_of self.now file }
    {
        match self.of(file) {
            Some(document) => document.text.as_bytes(),
            None => &[],
        }
    }

    /// Whether both are open.
    pub fn are_both(&self) -> bool
        ensures { result ≡ (is_some self.now.cfg && is_some self.now.src) }
    {
        self.cfg.is_some() && self.src.is_some()
    }
}

/// The texts of a system as far as they are open, with their tokens.
#[derive(Drop)]
pub struct CutTexts<'a> {
    pub open: OpenTexts<'a>,
    cfg: TokenList<'a>,
    src: TokenList<'a>,
}

impl<'a> CutTexts<'a> {
    /// Cuts the texts that are open into tokens; one that is not open has none. `AllocError` if memory runs out.
    pub fn new(alloc: Global, open: OpenTexts<'a>) -> Result<CutTexts<'a>, AllocError>
        ensures { IfOk result (AreCut «open».entry) }
    {
        let cfg = list_of(alloc, open.bytes_of(TextFile::Configuration))?;
        let src = list_of(alloc, open.bytes_of(TextFile::Source))?;
        Ok(CutTexts { open, cfg, src })
    }

    /// The tokens of one of the two.
    pub fn tokens(&self, file: TextFile) -> &Tokens<'a>
        ensures { result.now ≡ spec.tokens_of self.now file }
    {
        match file {
            TextFile::Configuration => &self.cfg.tokens,
            TextFile::Source => &self.src.tokens,
        }
    }
}

/// Which text of a system the file of a URI has, by the end of its name: `.cfg` or `.src`.
fn file_of(uri: &str) -> Option<TextFile>
    ensures { result ≡ spec.file_of uri.now }
{
    let bytes = uri.as_bytes();
    if bytes.ends_with(b".cfg") {
        Some(TextFile::Configuration)
    } else if bytes.ends_with(b".src") {
        Some(TextFile::Source)
    } else {
        None
    }
}

/// A URI without the end of the name of its file, which has four bytes.
fn stem_of(uri: &str) -> &[u8]
    ensures { result.now ≡ spec.stem_of uri.now }
{
    let bytes = uri.as_bytes();
    &bytes[..bytes.len().saturating_sub(4)]
}

/// Whether a document is that of a URI.
fn is_of(document: &Document, uri: &str) -> bool
    ensures { result ≡ spec.is_of uri.now document.now }
{
    document.uri.as_str() == uri
}

/// Whether a file is this text of a system.
fn is_file(found: Option<TextFile>, file: TextFile) -> bool
    ensures { result ≡ spec.is_file found file }
{
    match found {
        Some(found) => is_same_file(found, file),
        None => false,
    }
}

/// Whether a document is this text of the system of a URI.
fn is_text_of(document: &Document, uri: &str, file: TextFile) -> bool
    ensures { result ≡ spec.is_text_of uri.now file document.now }
{
    let other = document.uri.as_str();
    is_file(file_of(other), file) && stem_of(other) == stem_of(uri)
}

impl Documents {
    /// None is open.
    pub fn new(alloc: Global) -> Documents
        ensures { result.list.items ≡ [] }
    {
        Documents {
            list: Vec::new(alloc),
        }
    }

    /// Closes the document of a URI, if it is open.
    pub fn close(&mut self, uri: &str)
        ensures { self.new.list.items ≡ without uri.now self.old.list.items }
    {
        self.list.retain(|one| !is_of(one, uri));
    }

    /// Opens a document, or changes its text. `AllocError` if memory runs out.
    pub fn open(&mut self, alloc: Global, uri: &str, text: &str) -> Result<(), AllocError>
        ensures { OnOk result (IsOpened uri.now text.now self.old.list.items self.new.list.items) }
    {
        let document = Document {
            uri: String::from_str(alloc, uri)?,
            text: String::from_str(alloc, text)?,
        };
        self.close(uri);
        self.list.push(document)?;
        Ok(())
    }

    /// A text of the system of a URI, if it is open.
    fn text_of(&self, uri: &str, file: TextFile) -> Option<&Document>
        ensures { option_map (λ d. d.now) result ≡ find (spec.is_text_of uri.now file) self.now.list.items }
    {
        self.list.iter().find(|one| is_text_of(one, uri, file))
    }

    /// The texts of the system of a URI; none if that names neither.
    pub fn texts_of(&self, uri: &str) -> Option<OpenTexts<'_>>
        ensures { MatchOption result (spec.file_of uri.now ≡ None) (AreTextsOf uri.now self.now.list.items) }
    {
        Some(OpenTexts {
            file: file_of(uri)?,
            cfg: self.text_of(uri, TextFile::Configuration),
            src: self.text_of(uri, TextFile::Source),
        })
    }
}
