//! Laws of images: their spelling, and what those of older versions mean.

ghost use Rattle.std.specs.Prelude.{◌≡◌, ◌≤◌, ◌++◌, [], ℕ, List};
ghost use Rattle.fmp_image_bytes.specs.Images.{ImageTables, Spells};
ghost use Rattle.fmp_image_bytes.specs.Keys.{is_name};
ghost use Rattle.fmp_image_bytes.specs.OlderImages.{MeansTheSame, is_name_among_first};

/// A law: no two byte strings spell one image, none spells two images, and none begins another, whatever their
/// versions.
pub fn one_spelling()
    ensures text { (i : ImageTables) (a b : List ℕ) → Spells i a → Spells i b → a ≡ b }
    ensures image { (i j : ImageTables) (a : List ℕ) → Spells i a → Spells j a → i ≡ j }
    ensures front { (i j : ImageTables) (a b more : List ℕ) → Spells i a → Spells j b → b ≡ a ++ more → more ≡ [] }
{}

/// A law: images of versions 1 and 2 keep the meaning that they had, apart from long stretches, which keep their place
/// in images of every version. Whatever the bound of a stretch and whatever the events, such an image has the trace and
/// the states that a kernel gives which queues one activation and one wakeup of a task and has the first 58 services.
pub fn older_images_mean_the_same()
    ensures { (i : ImageTables) (bytes : List ℕ) → Spells i bytes → i.version ≤ 2 → MeansTheSame i }
{}

/// A law: in images of versions 1 and 2 an object can have each name that it could have when there were 58 services,
/// and no other.
pub fn older_images_keep_their_names()
    ensures { (version : ℕ) (text : List ℕ) → version ≤ 2 → is_name version text ≡ is_name_among_first 58 text }
{}
