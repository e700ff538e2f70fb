//! The option statements of a block.

ghost use Rattle.std.specs.Prelude.{◌≡◌, List, Option, map, option_map, IfOk};
ghost use Rattle.std.specs.List.{filter_map};
ghost use Rattle.pbx_parse_tree.specs.Tree as tree;
ghost use Rattle.pbx_parse_tree.specs.Conditions.{enum_setting, method_setting, service_setting, top_setting, body_settings};
ghost use Rattle.pbx_parse_tree.specs.View.{setting_of, enum_item_of, method_item_of, service_item_of, item_of, body_item_setting, body_of, top_of};

use crate::tree::{EnumItem, Item, MethodItem, ServiceItem, Setting, Top};
use std::alloc::{AllocError, Global};

/// What may be an option statement.
trait HasSetting {
    ghost set: { Self → Option tree.Setting };

    /// What the statement sets, if it is one.
    fn setting(&self) -> Option<Setting<'_>>
        ensures { option_map setting_of result ≡ set self.now };
}

impl HasSetting for EnumItem<'_> {
    ghost set = { λ i. enum_setting (enum_item_of i) };

    fn setting(&self) -> Option<Setting<'_>> {
        match self {
            EnumItem::Option(statement) => Some(statement.setting),
            _ => None,
        }
    }
}

impl HasSetting for MethodItem<'_> {
    ghost set = { λ i. method_setting (method_item_of i) };

    fn setting(&self) -> Option<Setting<'_>> {
        match self {
            MethodItem::Option(statement) => Some(statement.setting),
            MethodItem::Empty(_) => None,
        }
    }
}

impl HasSetting for ServiceItem<'_> {
    ghost set = { λ i. service_setting (service_item_of i) };

    fn setting(&self) -> Option<Setting<'_>> {
        match self {
            ServiceItem::Option(statement) => Some(statement.setting),
            _ => None,
        }
    }
}

impl HasSetting for Top<'_> {
    ghost set = { λ t. top_setting (top_of t) };

    fn setting(&self) -> Option<Setting<'_>> {
        match self {
            Top::Option(statement) => Some(statement.setting),
            _ => None,
        }
    }
}

impl HasSetting for Item<'_> {
    ghost set = { λ i. body_item_setting (item_of i) };

    fn setting(&self) -> Option<Setting<'_>> {
        match self {
            Item::Option(statement) => Some(statement.setting),
            _ => None,
        }
    }
}

/// What the option statements among the items set.
fn set_among<T: HasSetting>(alloc: Global, items: &[T]) -> Result<Vec<Setting<'_>>, AllocError>
    ensures { IfOk result (λ v. map setting_of v.items ≡ filter_map T.set items.now) }
{
    let mut all = Vec::new(alloc);
    'each: for item in items {
        if let Some(setting) = item.setting() {
            all.push(setting)?;
        }
    }
    Ok(all)
}

/// What the option statements of an enum set.
pub fn enum_settings<'a>(
    alloc: Global,
    items: &'a [EnumItem<'_>],
) -> Result<Vec<Setting<'a>>, AllocError>
    ensures { IfOk result (λ v. map setting_of v.items ≡ filter_map enum_setting (map enum_item_of items.now)) }
{
    set_among(alloc, items)
}

/// What the option statements of a method set.
pub fn method_settings<'a>(
    alloc: Global,
    items: &'a [MethodItem<'_>],
) -> Result<Vec<Setting<'a>>, AllocError>
    ensures { IfOk result (λ v. map setting_of v.items ≡ filter_map method_setting (map method_item_of items.now)) }
{
    set_among(alloc, items)
}

/// What the option statements of a service set.
pub fn service_settings<'a>(
    alloc: Global,
    items: &'a [ServiceItem<'_>],
) -> Result<Vec<Setting<'a>>, AllocError>
    ensures { IfOk result (λ v. map setting_of v.items ≡ filter_map service_setting (map service_item_of items.now)) }
{
    set_among(alloc, items)
}

/// What the option statements of a message set, those of messages in it left out.
pub fn message_settings<'a>(
    alloc: Global,
    items: &'a [Item<'_>],
) -> Result<Vec<Setting<'a>>, AllocError>
    ensures { IfOk result (λ v. map setting_of v.items ≡ body_settings (body_of items.now)) }
{
    set_among(alloc, items)
}

/// What the option statements of a file set.
pub fn file_settings<'a>(alloc: Global, tops: &'a [Top<'_>]) -> Result<Vec<Setting<'a>>, AllocError>
    ensures { IfOk result (λ v. map setting_of v.items ≡ filter_map top_setting (map top_of tops.now)) }
{
    set_among(alloc, tops)
}
