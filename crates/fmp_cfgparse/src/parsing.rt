//! From the bytes of a configuration to its tree.
ghost use Rattle.fmp_cfgparse.specs.Parsing.{IsParse};

use crate::syntax::read_tree;
use crate::tree::Configuration;
use fmp_lex::{BuildFault, ReadError, TextFault, TextFile, TokenList, fault_at, tokens, too_long};
use std::alloc::Global;

/// The tokens of a text and the tree that they spell.
#[derive(Drop)]
pub struct Parsed<'a> {
    pub list: TokenList<'a>,
    pub tree: Configuration,
}

/// The syntax tree of a configuration with its tokens, or the first fault of its syntax: B5 for a text of more than
/// 1,048,576 bytes, a name of more than 31 bytes or a number above 2147483647, else B1. `Memory` if an allocation is
/// refused.
pub fn parse<'a>(alloc: Global, text: &'a [u8]) -> Result<Parsed<'a>, BuildFault>
    ensures { IsParse text.now result }
{
    match tokens(alloc, text) {
        Ok(list) => match read_tree(alloc, &list.tokens) {
            Ok(tree) => Ok(Parsed { list, tree }),
            Err(ReadError::Memory) => Err(BuildFault::Memory),
            Err(ReadError::Fault(fault)) => Err(fault_at(&list, TextFile::Configuration, fault)),
        },
        Err(TextFault::TooLong) => Err(too_long(TextFile::Configuration)),
        Err(TextFault::Memory) => Err(BuildFault::Memory),
    }
}
