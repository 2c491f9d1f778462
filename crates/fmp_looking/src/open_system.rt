//! A system that is opened, whose bodies run elsewhere.
ghost use Rattle.std.specs.Prelude.{◌≡◌, Err, IfErr, IfOk};
ghost use Rattle.fmp_cfgparse.specs.Configurations.{IsRead};
ghost use Rattle.fmp_looking.specs.OpenSystems.{IsOf};

use crate::opened::Opened;
use fmp_base::System;
use fmp_cfgparse::read_cfg;
use fmp_foreign::Foreign;
use fmp_kernel::Kernel;
use fmp_lex::BuildFault;
use std::alloc::{AllocError, Global};
use std::marker::Model;

/// The system of a configuration, whose bodies run elsewhere. It is seen as its tables.
#[derive(Drop)]
pub struct OpenSystem {
    system: System,
}

impl Model for OpenSystem {
    ghost use Rattle.fmp_base.specs.Ranges.{IsInRange};
    ghost use Rattle.fmp_base.specs.Systems.{SystemTables, tables_of};

    ghost Value = { SystemTables };

    ghost view = { λ o. tables_of o.system };

    ghost invariant = { λ o. IsInRange (tables_of o.system) };
}

impl OpenSystem {
    /// The system that a configuration describes, or the first fault of the text, as `read_cfg` gives it.
    pub fn new(alloc: Global, cfg: &[u8]) -> Result<OpenSystem, BuildFault>
        ensures opened { IfOk result (IsOf cfg.now) }
        ensures refused { IfErr result (λ fault. IsRead cfg.now (Err fault)) }
    {
        match read_cfg(alloc, cfg) {
            Ok(system) => Ok(OpenSystem { system }),
            Err(fault) => Err(fault),
        }
    }
}

impl Opened for OpenSystem {
    ghost use Rattle.fmp_recording.specs.Replaying.{new_kernel};

    type Bodies = Foreign;

    ghost start = { λ o. new_kernel o };

    fn system(&self) -> &System {
        &self.system
    }

    fn kernel(&self, alloc: Global) -> Result<Kernel<Foreign>, AllocError> {
        match Kernel::new(alloc, Foreign, &self.system, 1) {
            Ok(kernel) => Ok(kernel),
            Err(_) => Err(AllocError),
        }
    }
}
