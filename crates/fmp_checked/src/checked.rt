//! A system of an image whose bodies run elsewhere, with the text that they must follow.
ghost use Rattle.std.specs.Prelude.{◌≡◌, IfOk};
ghost use Rattle.fmp_base.specs.Ranges.{IsInRange};
ghost use Rattle.fmp_base.specs.Systems.{tables_of};
ghost use Rattle.fmp_foreign.specs.Hosting.{refused, restarted};
ghost use Rattle.fmp_kernel.specs.Restarts.{counts_restarted};
ghost use Rattle.fmp_checked.specs.Checking.{InStep, IsBegun, IsChecked, IsHostedBy, IsTextOf, hosted_after};

use crate::bodies::ImageBody;
use crate::following::{Objection, follow, restart_counts};
use fmp_base::{Effect, System};
use fmp_foreign::{Foreign, HostedSystem, Shadow};
use fmp_image_bytes::Image;
use fmp_kernel::Kernel;
use fmp_outside::Given;
use fmp_tasks::copied_system;
use std::alloc::{AllocError, Global};
use std::marker::Model;

/// A hosted system and the text that its bodies must follow. The two are in step: they have one state, and the same
/// lines of the last event that was done.
#[derive(Drop)]
pub struct Checked {
    hosted: HostedSystem,
    text: Shadow<ImageBody>,
}

impl Model for Checked {
    ghost use Rattle.fmp_checked.specs.Checking.{CheckedView, InStep};

    ghost Value = { CheckedView };

    ghost view = { λ c. record { hosted = c.hosted; text = c.text } };

    ghost invariant = { λ c. InStep c.hosted.kernel c.text };
}

/// The system of an image, hosted, after setup.
fn hosted_by(alloc: Global, image: &Image) -> Result<HostedSystem, AllocError>
    ensures hosted { IfOk result (IsHostedBy image.now) }
    ensures range { IfOk result (λ h. IsInRange (tables_of h.system)) }
{
    let system = copied_system(alloc, image.system())?;
    match Kernel::new(alloc, Foreign, &system, 1) {
        Ok(kernel) => Ok(HostedSystem { system, kernel }),
        Err(_) => Err(AllocError),
    }
}

/// The text of an image whose system is given, after setup.
#[tactic(auto, using(crate::proofs::Begun::bodies_are_there, crate::proofs::Begun::text_begun))]
fn text_of(
    alloc: Global,
    image: Image,
    system: &System,
    bound: u64,
) -> Result<Shadow<ImageBody>, AllocError>
    requires system { tables_of system.now ≡ image.system }
    requires range { IsInRange (tables_of system.now) }
    ensures { IfOk result (IsTextOf image bound) }
{
    image.keeps_rules();
    let bodies = ImageBody::new(image);
    match Kernel::new(alloc, bodies, system, bound) {
        Ok(kernel) => {
            let text = Shadow::new(kernel);
            Ok(text)
        }
        Err(_) => Err(AllocError),
    }
}

impl Checked {
    /// The system of an image after setup. A stretch of its text takes at most this many instructions in a turn.
    /// `AllocError` where memory runs out: no call after this one takes any.
    pub fn new(alloc: Global, image: Image, bound: u64) -> Result<Checked, AllocError>
        ensures { IfOk result (λ c. IsBegun image bound c.hosted c.text) }
    {
        let hosted = hosted_by(alloc, &image)?;
        let text = text_of(alloc, image, &hosted.system, bound)?;
        Ok(Checked { hosted, text })
    }

    /// What comes, where the text does it next. Else what is seen of the system stays as it is.
    pub fn take(&mut self, given: Given) -> Result<Effect, Objection>
        ensures checked { IsChecked (refused self.old.hosted.kernel given) self.old.hosted.kernel self.old.text given
            self.new.text result }
        ensures hosted { self.new.hosted ≡ hosted_after self.old.hosted given result }
    {
        follow(&mut self.text, &mut self.hosted, given)
    }

    /// The counts begin again, those of the system and those of its text.
    pub fn restart_count(&mut self)
        ensures hosted { self.new.hosted ≡ restarted self.old.hosted }
        ensures text { self.new.text ≡ counts_restarted self.old.text }
    {
        restart_counts(&mut self.text, &mut self.hosted);
    }

    /// The system, as it is seen.
    pub fn hosted(&self) -> &HostedSystem
        ensures { result.now ≡ self.now.hosted }
    {
        &self.hosted
    }

    /// The system and the text.
    pub fn into_parts(self) -> (HostedSystem, Shadow<ImageBody>)
        ensures parts { result ≡ (self.hosted, self.text) }
        ensures step { InStep self.hosted.kernel self.text }
    {
        (self.hosted, self.text)
    }
}
