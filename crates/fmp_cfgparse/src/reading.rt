//! From the bytes of a configuration to its system.
ghost use Rattle.std.specs.Prelude.{Err, IfOk, IfErr};
ghost use Rattle.fmp_base.specs.Systems.{tables_of};
ghost use Rattle.fmp_cfgparse.specs.Configurations.{IsRead};
ghost use Rattle.fmp_cfgparse.specs.Configured.{Reads};
ghost use Rattle.fmp_cfgparse.specs.Tables.{IsConfiguration};

use crate::configuring::configure;
use crate::objects::MakingStop;
use crate::parsing::{Parsed, parse};
use fmp_base::System;
use fmp_lex::{BuildFault, TextFile, offence_at};
use std::alloc::Global;

/// A configuration that is read: its tokens, its tree, and the system that it makes.
#[derive(Drop)]
pub struct Configured<'a> {
    pub parsed: Parsed<'a>,
    pub system: System,
}

/// A configuration with the system that it describes (uITRON 4.0, static APIs), or its first fault.
///
/// The text has at most 1,048,576 bytes. Faults of syntax come first: B1 or B5 at the first token that no configuration
/// has in its place, or B1 at the end of the text. Then, in order of text, B5 for a number of processors other than 1
/// to 8, B3 for an unknown class, and at each static API, with the place of its word, B5 for the 256th of its kind, B2
/// for a name that is used, B3 for an unknown constant, and B4 with the code that it answers. `Memory` if an allocation
/// is refused. The tables of the system are in range, and no name and no interrupt number stands twice.
pub fn read_configuration<'a>(alloc: Global, text: &'a [u8]) -> Result<Configured<'a>, BuildFault>
    ensures reads { IfOk result (Reads text.now) }
    ensures rules { IfOk result (λ c. IsConfiguration (tables_of c.system)) }
    ensures refuses { IfErr result (λ f. IsRead text.now (Err f)) }
{
    match parse(alloc, text) {
        Ok(parsed) => match configure(alloc, &parsed.tree) {
            Ok(making) => Ok(Configured {
                parsed,
                system: making.system,
            }),
            Err(MakingStop::Memory) => Err(BuildFault::Memory),
            Err(MakingStop::Fault(at, why)) => Err(offence_at(
                &parsed.list.tokens,
                TextFile::Configuration,
                at,
                why,
            )),
        },
        Err(fault) => Err(fault),
    }
}

/// The system that a configuration describes, or its first fault, as `read_configuration` answers them.
pub fn read_cfg(alloc: Global, text: &[u8]) -> Result<System, BuildFault>
    ensures read { IsRead text.now result }
    ensures rules { IfOk result (λ system. IsConfiguration (tables_of system)) }
{
    match read_configuration(alloc, text) {
        Ok(configured) => Ok(configured.system),
        Err(fault) => Err(fault),
    }
}
