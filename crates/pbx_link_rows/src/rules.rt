//! The rules that a row can ask about.

use pbx_link_definitions::FileParts;
use pbx_link_rules_field::{bad_field_numbers, bad_labels, bad_oneofs, bad_types};
use pbx_link_rules_record::{
    bad_entries, bad_enums, bad_names, bad_ranges, message_sets, uninterpreted_options,
    unknown_syntax,
};
use pbx_wire::{List, NoMemory};
use std::alloc::Global;

/// A rule of linking.
#[derive(Clone, Copy)]
pub(crate) enum Rule {
    FieldNumbers,
    Types,
    Oneofs,
    Labels,
    Syntax,
    Names,
    Enums,
    Options,
    MessageSets,
    Ranges,
    Entries,
}

/// The rule of this name.
pub(crate) fn rule_named(name: &str) -> Option<Rule> {
    match name {
        "field_numbers" => Some(Rule::FieldNumbers),
        "types" => Some(Rule::Types),
        "oneofs" => Some(Rule::Oneofs),
        "labels" => Some(Rule::Labels),
        "syntax" => Some(Rule::Syntax),
        "names" => Some(Rule::Names),
        "enums" => Some(Rule::Enums),
        "options" => Some(Rule::Options),
        "message_sets" => Some(Rule::MessageSets),
        "ranges" => Some(Rule::Ranges),
        "entries" => Some(Rule::Entries),
        _ => None,
    }
}

/// The place at which a file breaks the rule.
pub(crate) fn breach(
    alloc: Global,
    rule: Rule,
    parts: &FileParts<'_>,
) -> Result<Option<List<i32>>, NoMemory> {
    match rule {
        Rule::FieldNumbers => bad_field_numbers(alloc, parts),
        Rule::Types => bad_types(alloc, parts),
        Rule::Oneofs => bad_oneofs(alloc, parts),
        Rule::Labels => bad_labels(alloc, parts),
        Rule::Syntax => unknown_syntax(alloc, parts),
        Rule::Names => bad_names(alloc, parts),
        Rule::Enums => bad_enums(alloc, parts),
        Rule::Options => uninterpreted_options(alloc, parts),
        Rule::MessageSets => message_sets(alloc, parts),
        Rule::Ranges => bad_ranges(alloc, parts),
        Rule::Entries => bad_entries(alloc, parts),
    }
}
