//! The bodies that the static APIs of a configuration name.

ghost use Rattle.std.specs.Prelude.{◌≡◌, ◌++◌, map, IfOk, OnOk};
ghost use Rattle.fmp_cfgparse.specs.Trees.{field_view, api_view, class_view, configuration_view};
ghost use Rattle.fmp_image.specs.Entries as spec;

use fmp_cfgparse::{Class, Configuration, StaticApi, name_at, number_at, word_of};
use fmp_codegen::EntryUse;
use fmp_lex::Api;
use fmp_tasklang::BodyKind;
use std::alloc::{AllocError, Global};

/// The entry of a static API, if it names one.
fn entry_of(api: &StaticApi) -> Option<EntryUse>
    ensures { result ≡ spec.entry_of api.now.kind api.now.at (map field_view api.now.fields.items) }
{
    match api.kind {
        Api::CreTsk => Some(EntryUse {
            at: api.at,
            name: name_at(&api.fields, 3),
            kind: BodyKind::Task,
            stack: Some(word_of(number_at(&api.fields, 5))),
        }),
        Api::CreCyc => Some(EntryUse {
            at: api.at,
            name: name_at(&api.fields, 3),
            kind: BodyKind::Handler,
            stack: None,
        }),
        Api::DefInh => Some(EntryUse {
            at: api.at,
            name: name_at(&api.fields, 2),
            kind: BodyKind::Handler,
            stack: None,
        }),
        _ => None,
    }
}

/// Appends the entry of an API.
fn add_api(uses: &mut Vec<EntryUse>, api: &StaticApi) -> Result<(), AllocError>
    ensures { OnOk result (uses.new.items ≡ uses.old.items ++ spec.api_uses (api_view api.now)) }
{
    if let Some(entry) = entry_of(api) {
        uses.push(entry)?;
    }
    Ok(())
}

fn add_class(uses: &mut Vec<EntryUse>, class: &Class) -> Result<(), AllocError>
    ensures { OnOk result (uses.new.items ≡ uses.old.items ++ spec.class_uses (class_view class.now)) }
{
    for api in &class.apis {
        add_api(uses, api)?;
    }
    Ok(())
}

/// The entries that the static APIs of a configuration name, in order of text.
pub fn entry_uses(alloc: Global, tree: &Configuration) -> Result<Vec<EntryUse>, AllocError>
    ensures { IfOk result (λ uses. uses.items ≡ spec.entry_uses (configuration_view tree.now)) }
{
    let mut uses = Vec::new(alloc);
    for class in &tree.classes {
        add_class(&mut uses, class)?;
    }
    Ok(uses)
}
