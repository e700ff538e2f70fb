//! Options records.

ghost use Rattle.std.specs.Prelude.{◌≡◌, ◌++◌, map, option_map, IfOk, OnOk};
ghost use Rattle.pbx_parse_tree.specs.Conditions.{settings_of as some_settings_of};
ghost use Rattle.pbx_parse_tree.specs.View.{constant_of, setting_of, settings_of};
ghost use Rattle.pbx_parse_translation.specs.Settings.{truth as truth_of, constant_records, setting_records, options_of, set_to as set_to_of};

use pbx_desc_records::Options;
use pbx_parse_token::unescape;
use pbx_parse_tree::{
    Constant, KnownOption, OptionKind, OptionPlace, Setting, Settings, known_option, listed,
    optimize_mode,
};
use pbx_wire::{Blob, NoMemory, Rec, Recs};
use std::alloc::Global;

/// `true` is 1, and `false` is 0.
fn truth(word: &str) -> u64
    ensures { result ≡ truth_of word.now }
{
    if word == "true" { 1 } else { 0 }
}

/// Adds the record that gives the value to the option.
fn add_value(
    alloc: Global,
    option: KnownOption,
    value: &Constant<'_>,
    recs: &mut Recs,
) -> Result<(), NoMemory>
    ensures { OnOk result (recs.new ≡ recs.old ++ constant_records option.kind option.number (constant_of value.now)) }
{
    match (option.kind, value) {
        (OptionKind::Bool, Constant::Identifier(word)) => {
            recs.add(Rec::Varint(option.number, truth(word.text)))
        }
        (OptionKind::OptimizeMode, Constant::Identifier(word)) => match optimize_mode(word.text) {
            Some(mode) => recs.add(Rec::Varint(option.number, mode as u64)),
            None => Ok(()),
        },
        (OptionKind::Text, Constant::String(literal)) => {
            let payload = Blob::from_vec(unescape(alloc, literal.text)?);
            recs.add(Rec::from_payload(option.number, payload)?)
        }
        _ => Ok(()),
    }
}

/// Adds what a setting at the place puts into the options record.
#[tactic(auto, unfolding(crate::specs::Settings::setting_records))]
fn add_setting(
    alloc: Global,
    place: OptionPlace,
    setting: &Setting<'_>,
    recs: &mut Recs,
) -> Result<(), NoMemory>
    ensures { OnOk result (recs.new ≡ recs.old ++ setting_records place (setting_of setting.now)) }
{
    match known_option(place, setting.name.text) {
        Some(option) => add_value(alloc, option, &setting.value, recs),
        None => Ok(()),
    }
}

/// The options record of a place, with its records in the order of the settings, if there are any.
pub(crate) fn options(
    alloc: Global,
    place: OptionPlace,
    settings: &[Setting<'_>],
) -> Result<Option<Options>, NoMemory>
    ensures { IfOk result (λ options. options ≡ options_of place (map setting_of settings.now)) }
{
    let mut recs = Recs::new(alloc);
    'each: for setting in settings {
        add_setting(alloc, place, setting, &mut recs)?;
    }
    if recs.is_empty() {
        Ok(None)
    } else {
        Ok(Some(Options { recs }))
    }
}

/// The options record of what has its settings in brackets.
pub(crate) fn listed_options(
    alloc: Global,
    place: OptionPlace,
    settings: &Option<Settings<'_>>,
) -> Result<Option<Options>, NoMemory>
    ensures { IfOk result (λ options. options ≡ options_of place (some_settings_of (option_map settings_of settings.now))) }
{
    let settings = listed(alloc, settings)?;
    options(alloc, place, settings.as_slice())
}

/// The value of the first setting of this name.
#[tactic(auto, unfolding(crate::specs::Settings::set_to))]
pub(crate) fn set_to<'a>(name: &str, settings: &[Setting<'a>]) -> Option<Constant<'a>>
    ensures { option_map constant_of result ≡ set_to_of name.now (map setting_of settings.now) }
{
    'each: for setting in settings {
        if setting.name.text == name {
            return Some(setting.value);
        }
    }
    None
}
