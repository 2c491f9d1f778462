//! Whether a file that is written is one of those that are read.
ghost use Rattle.std.specs.Prelude.{◌≡◌, false};
ghost use Rattle.fmp_view.specs.Apart.{AreApart, IsApartFromTexts};

use fmp_files::Outside;
use fmp_warnings::FileNames;

/// Whether two names lead to one file.
#[tactic(auto, using(crate::proofs::Parted::are_apart))]
pub fn is_one_file<O: Outside>(outside: &O, name: &str, other: &str) -> bool
    ensures { result ≡ false → AreApart (O.files outside.now) name.now other.now }
{
    outside.is_one_file(name, other)
}

/// Whether a file is one of the two texts of a system.
pub fn is_text<O: Outside>(outside: &O, name: &str, texts: FileNames<'_>) -> bool
    ensures { result ≡ false → IsApartFromTexts (O.files outside.now) texts.entry name.now }
{
    is_one_file(outside, name, texts.cfg) || is_one_file(outside, name, texts.src)
}
