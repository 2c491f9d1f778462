//! Faults of images.
ghost use Rattle.std.specs.Prelude.{◌≡◌};
ghost use Rattle.fmp_image_bytes.specs.declared.fault.LoadFault.TheVariants.{Memory};

use std::alloc::{AllocError, AllocFailed};
use std::error::Error;
use std::fmt::{self, Display, Formatter, Write};

/// What is wrong with bytes that spell no image: the first fault from the front.
#[derive(Clone, Copy, Debug, PartialEq, Eq)]
pub enum ImageFault {
    /// A field ends past the end of the bytes.
    Short,
    /// The first four bytes are not `FMPI`.
    Magic,
    /// The version is not 1 to 3.
    Version,
    /// A value of the header, of a body or of a row breaks a rule of its table.
    Table,
    /// The code of a body is not fit to run.
    Code,
    /// Bytes stand after the last table.
    Trailing,
}

impl Display for ImageFault {
    ghost use Rattle.std.specs.Prelude.{Some};
    ghost use Rattle.fmp_image_bytes.specs.Messages.{image_code};

    ghost output = { λ fault. Some (image_code fault) };

    /// The code of the fault.
    fn fmt<W: Write>(&self, f: &mut Formatter<W>) -> fmt::Result {
        f.write_str(match self {
            ImageFault::Short => "L1",
            ImageFault::Magic => "L2",
            ImageFault::Version => "L3",
            ImageFault::Table => "L4",
            ImageFault::Code => "L5",
            ImageFault::Trailing => "L6",
        })
    }
}

impl Error for ImageFault {}

/// Why no image was loaded.
#[derive(Clone, Copy, Debug, PartialEq, Eq)]
pub enum LoadFault {
    /// The bytes spell no image.
    Image(ImageFault),
    /// Memory ran out (L7).
    Memory,
}

impl Display for LoadFault {
    ghost use Rattle.std.specs.Prelude.{Some};
    ghost use Rattle.fmp_image_bytes.specs.Messages.{load_message};

    ghost output = { λ fault. Some (load_message fault) };

    /// The code of the fault after `image`, or `memory`.
    fn fmt<W: Write>(&self, f: &mut Formatter<W>) -> fmt::Result {
        match self {
            LoadFault::Image(fault) => write!(f, "image: {fault}"),
            LoadFault::Memory => f.write_str("memory"),
        }
    }
}

impl Error for LoadFault {}

/// The fault of a value that breaks a rule of its table.
pub const TABLE: LoadFault = LoadFault::Image(ImageFault::Table);

impl From<AllocError> for LoadFault {
    ghost from_gives = { λ _ e. e ≡ Memory };

    fn from(_error: AllocError) -> Self {
        LoadFault::Memory
    }
}

impl<T: Drop> From<AllocFailed<T>> for LoadFault {
    ghost from_gives = { λ _ e. e ≡ Memory };

    fn from(_error: AllocFailed<T>) -> Self {
        LoadFault::Memory
    }
}
