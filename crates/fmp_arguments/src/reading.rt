//! What the members of a document of settings say.
ghost use Rattle.std.specs.Prelude.{◌≡◌, IfErr, IfOk, map, option_map};
ghost use Rattle.std.specs.Result.{result_ok};
ghost use Rattle.toml.specs.View.{table_view};
ghost use Rattle.fmp_arguments.specs.SettingsFaults.{IsWrongAmong, IsWrongOf};
ghost use Rattle.fmp_arguments.specs.Settings.{members_settings, setting_view};

use crate::keys::{Key, ValueKind, kind_of};
use crate::values::member_words;
use std::alloc::{AllocError, Global};
use toml::Table;

/// What a member of settings says: the name of an option, and the words of a command line for it.
#[derive(Drop)]
pub struct Setting {
    pub name: String,
    pub words: Vec<String>,
}

/// What is wrong with a member of settings.
#[derive(Drop)]
pub enum Wrong {
    /// This is no key.
    Key(String),
    /// The value of this key is not of its kind.
    Value(String, ValueKind),
}

/// What is wrong with a member of this name.
fn wrong_of(alloc: Global, keys: &[Key], name: &str) -> Result<Wrong, AllocError>
    ensures { IfOk result (IsWrongOf keys.now name.now) }
{
    let key = String::from_str(alloc, name)?;
    match kind_of(keys, name) {
        Some(kind) => Ok(Wrong::Value(key, kind)),
        None => Ok(Wrong::Key(key)),
    }
}

/// What the members of a document say, or what is wrong with the first that is.
#[tactic(auto, using(crate::proofs::More::prepend_nothing, crate::proofs::More::prepend_more))]
pub fn table_settings(
    alloc: Global,
    folder: &str,
    keys: &[Key],
    table: &Table,
) -> Result<Result<Vec<Setting>, Wrong>, AllocError>
    ensures says { IfOk result (λ settings. option_map (λ all. map setting_view all.items) (result_ok settings) ≡
        members_settings folder.now keys.now (table_view table.now)) }
    ensures wrong { IfOk result (λ settings.
        IfErr settings (IsWrongAmong folder.now keys.now (table_view table.now))) }
{
    let mut settings = Vec::new(alloc);
    'members: for (name, value) in table.iter() {
        match member_words(alloc, folder, keys, name.as_str(), value)? {
            Some(words) => settings.push(Setting {
                name: name.clone()?,
                words,
            })?,
            None => return Ok(Err(wrong_of(alloc, keys, name.as_str())?)),
        }
    }
    Ok(Ok(settings))
}
