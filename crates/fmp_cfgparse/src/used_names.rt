//! The names that are in use, with a look-up by bytes.
ghost use Rattle.std.specs.Prelude.{◌≡◌, ◌++◌, [], ◌∷◌, map, false, OnOk, IfErr};
ghost use Rattle.fmp_cfgparse.specs.Apis as spec;
ghost use Rattle.fmp_cfgparse.specs.UsedNames.{names_of};
ghost use Rattle.fmp_cfgparse.specs.declared.objects.MakingStop.TheVariants.{Memory};

use crate::objects::MakingStop;
use fmp_base::Name;
use fmp_lex::ObjectName;
use indexmap::IndexSet;

/// Whether some object has this name.
#[tactic(auto, using(crate::proofs::UsedNames::used_any))]
pub(crate) fn is_used(names: &IndexSet<ObjectName>, name: Name) -> bool
    ensures { result ≡ spec.is_used (names_of names.now) name }
{
    names.contains(&ObjectName { name })
}

/// Puts a name that is not used last.
pub(crate) fn add_name(names: &mut IndexSet<ObjectName>, name: Name) -> Result<(), MakingStop>
    requires { spec.is_used (names_of names.old) name ≡ false }
    ensures added { OnOk result (names_of names.new ≡ names_of names.old ++ name ∷ []) }
    ensures memory { IfErr result (λ e. e ≡ Memory) }
{
    names.insert(ObjectName { name })?;
    Ok(())
}
