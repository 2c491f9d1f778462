//! Storing: the bytes of an image.

ghost use Rattle.std.specs.Prelude.{◌≡◌, ◌++◌, [], IfOk, OnOk};
ghost use Rattle.fmp_base.specs.Systems.{tables_of};
ghost use Rattle.fmp_image_bytes.specs.Rows.{context_of};
ghost use Rattle.fmp_image_bytes.specs.Images.{CanPut, tables, tables_in, spelling};

use crate::bodies::put_bodies;
use crate::header::put_header;
use crate::image::Image;
use crate::rows::put_table;
use fmp_base::System;
use std::alloc::{AllocError, Global};

fn put_tables(out: &mut Vec<u8>, system: &System) -> Result<(), AllocError>
    requires { CanPut (tables_of system.now) }
    ensures { OnOk result
        (out.new.items ≡ out.old.items ++ (tables (context_of 0 0 []) []).spell (tables_in (tables_of system.now))) }
{
    put_table(out, &system.tasks)?;
    put_table(out, &system.semaphores)?;
    put_table(out, &system.flags)?;
    put_table(out, &system.data_queues)?;
    put_table(out, &system.mailboxes)?;
    put_table(out, &system.messages)?;
    put_table(out, &system.shared_words)?;
    put_table(out, &system.spin_locks)?;
    put_table(out, &system.cyclics)?;
    put_table(out, &system.interrupts)?;
    Ok(())
}

/// The bytes of an image, in its version.
pub fn store(alloc: Global, image: &Image) -> Result<Vec<u8>, AllocError>
    ensures { IfOk result (λ bytes. bytes.items ≡ spelling image.now) }
{
    let mut out = Vec::new(alloc);
    put_header(&mut out, image.version, image.system.processors)?;
    put_bodies(&mut out, &image.heads, &image.code.bodies)?;
    put_tables(&mut out, &image.system)?;
    Ok(out)
}
