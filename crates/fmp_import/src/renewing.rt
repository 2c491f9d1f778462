//! Names that a configuration defines again: of two lines the last one before a value counts, as in C.
use crate::constants::Constants;
use crate::defining::{LexedSource, RenewedLine, take_constants};
use crate::plan::TextSpan;
use fmp_base::Name;
use std::alloc::{AllocError, Global};

/// The lines that define a name again, up to a position of the text.
#[derive(Drop)]
pub struct Renewals {
    /// How many constants are known beforehand: those count before all lines.
    given: usize,
    /// For each name the last line.
    lines: Vec<RenewedLine>,
    /// Whether the constants are to be made anew.
    is_stale: bool,
}

impl Renewals {
    /// Those before the text, where this many constants are known beforehand.
    pub fn new(alloc: Global, given: usize) -> Renewals {
        Renewals {
            given,
            lines: Vec::new(alloc),
            is_stale: false,
        }
    }

    /// Whether the constant of this name is known beforehand.
    pub fn is_given(&self, constants: &Constants, name: Name) -> bool {
        constants.is_among_first(self.given, name.as_bytes())
    }

    /// The line that defines a name again.
    pub fn line_of(&self, name: Name) -> Option<TextSpan> {
        for line in &self.lines {
            if line.name.as_bytes() == name.as_bytes() {
                return Some(line.span);
            }
        }
        None
    }

    /// Takes a line that defines a name again.
    pub fn take(&mut self, name: Name, span: TextSpan) -> Result<(), AllocError> {
        self.is_stale = true;
        for line in &mut self.lines {
            if line.name.as_bytes() == name.as_bytes() {
                line.span = span;
                return Ok(());
            }
        }
        self.lines.push(RenewedLine { name, span })?;
        Ok(())
    }

    /// Goes back before the text.
    pub fn restart(&mut self) {
        self.lines.clear();
        self.is_stale = true;
    }

    /// Makes the constants anew, if a line was taken since that was done.
    pub fn refresh(
        &mut self,
        alloc: Global,
        source: LexedSource<'_>,
        constants: &mut Constants,
    ) -> Result<(), AllocError> {
        if !self.is_stale {
            return Ok(());
        }
        self.is_stale = false;
        constants.begin_again(self.given);
        for line in &self.lines {
            constants.renew(line.name)?;
        }
        take_constants(alloc, source, &self.lines, constants)
    }
}
