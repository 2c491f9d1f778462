//! The bodies of an image that is owned.
use fmp_base::{Body, Reply, Stretch, StretchStop};
use fmp_image_bytes::Image;
use fmp_instructions::MachineContext;
use std::marker::Model;

/// The bodies of tasks and handlers whose code stands in an image.
#[derive(Drop)]
pub struct ImageBody {
    image: Image,
}

impl Model for ImageBody {
    ghost use Rattle.std.specs.Prelude.{List};
    ghost use Rattle.fmp_instructions.specs.Instructions.{BodyTables};

    ghost Value = { List BodyTables };

    ghost view = { λ b. b.image.code };
}

impl ImageBody {
    ghost use Rattle.std.specs.Prelude.{◌≡◌};

    /// The bodies of this image.
    pub fn new(image: Image) -> ImageBody
        ensures { result ≡ image.code }
    {
        ImageBody { image }
    }
}

impl Body for ImageBody {
    ghost use Rattle.std.specs.Prelude.{◌<◌, length};
    ghost use Rattle.fmp_instructions.specs.Machine.{code_meaning};
    ghost use Rattle.fmp_code.specs.Vms.{IsContext, code_meaning-stays};

    type Ctx = MachineContext;

    ghost meaning = { code_meaning };

    ghost has_entry = { λ bodies body. body < length bodies };

    ghost is_context = { IsContext };

    fn start(&self, entry: u8, exinf: i32) -> MachineContext {
        self.image.vm().start(entry, exinf)
    }

    fn stretch(&self, entry: u8, n: u64, c: MachineContext) -> Stretch<MachineContext> {
        self.image.vm().stretch(entry, n, c)
    }

    fn deliver(&self, entry: u8, c: MachineContext, r: Reply) -> MachineContext {
        self.image.vm().deliver(entry, c, r)
    }

    fn stretch_in_place(&self, entry: u8, n: u64, context: &mut MachineContext) -> StretchStop {
        self.image.vm().stretch_in_place(entry, n, context)
    }

    fn deliver_in_place(&self, entry: u8, context: &mut MachineContext, r: Reply) {
        self.image.vm().deliver_in_place(entry, context, r);
    }

    ghost stays = { code_meaning-stays };
}
