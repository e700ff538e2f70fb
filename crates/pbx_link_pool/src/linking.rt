// The linked record of a file among the files of a pool.
ghost use Rattle.std.specs.Prelude.{◌≡◌, true, None, option_map, IfOk, IfErr, OnOk};
ghost use Rattle.pbx_link_scope.specs.Scope.{visible};
ghost use Rattle.pbx_link_record.specs.Settled.{settled_source};
ghost use Rattle.pbx_link_record.specs.Linked.{linked_record, without_source_code_info};
ghost use Rattle.pbx_link_rules.specs.Breaches.{keeps_rules, IsFirstOf};
ghost use Rattle.pbx_link_pool.specs.Refused.{IsRefused};

use crate::pool::Pool;
use crate::refusal::Refusal;
use pbx_desc_records::{FileDescriptorProto, SourceCodeInfo};
use pbx_link_definitions::FileParts;
use pbx_link_record::{linked_without_source_code_info, settled_source_code_info};
use pbx_link_rules::{breach_is_first, first_breach, first_breach_alone, rules_are_kept};
use pbx_link_visible::VisibleFiles;
use pbx_wire::NoMemory;
use std::alloc::Global;

/// Links the file that sees these files. Its record without source info, or the first of the rules 6 to 16 that it breaks.
fn link_visible(
    alloc: Global,
    pool: &Pool,
    seen: &VisibleFiles<'_, Pool>,
    parts: &FileParts<'_>,
) -> Result<FileDescriptorProto, Refusal>
    requires alone { IsFirstOf pool.now (visible pool.now parts.now) parts.now 1 5 None }
    requires seen { seen.now ≡ visible pool.now parts.now }
    ensures kept { OnOk result (keeps_rules pool.now parts.now ≡ true) }
    ensures linked { IfOk result (λ linked. linked ≡ without_source_code_info (linked_record pool.now parts.now)) }
    ensures refused { IfErr result (IsRefused pool.now parts.now) }
{
    breach_is_first();
    rules_are_kept();
    match first_breach(alloc, pool, seen, parts) {
        Ok(None) => match linked_without_source_code_info(alloc, seen, parts.file()) {
            Ok(linked) => Ok(linked),
            Err(_) => Err(Refusal::NoMemory),
        },
        Ok(Some(breach)) => Err(Refusal::Breach(breach)),
        Err(_) => Err(Refusal::NoMemory),
    }
}

/// Links the file of these parts, which was checked against the rules 1 to 5 and breaks none of them. Its record without source info, or the
/// first of the rules 6 to 16 that it breaks.
fn link_checked(
    alloc: Global,
    pool: &Pool,
    parts: &FileParts<'_>,
) -> Result<FileDescriptorProto, Refusal>
    requires { IsFirstOf pool.now (visible pool.now parts.now) parts.now 1 5 None }
    ensures kept { OnOk result (keeps_rules pool.now parts.now ≡ true) }
    ensures linked { IfOk result (λ linked. linked ≡ without_source_code_info (linked_record pool.now parts.now)) }
    ensures refused { IfErr result (IsRefused pool.now parts.now) }
{
    match VisibleFiles::new(alloc, pool, parts) {
        Ok(seen) => link_visible(alloc, pool, &seen, parts),
        Err(_) => Err(Refusal::NoMemory),
    }
}

/// Links the file of these parts. Its record without source info, or the first rule that it breaks.
fn link_parts(
    alloc: Global,
    pool: &Pool,
    parts: &FileParts<'_>,
) -> Result<FileDescriptorProto, Refusal>
    ensures kept { OnOk result (keeps_rules pool.now parts.now ≡ true) }
    ensures linked { IfOk result (λ linked. linked ≡ without_source_code_info (linked_record pool.now parts.now)) }
    ensures refused { IfErr result (IsRefused pool.now parts.now) }
{
    breach_is_first();
    match first_breach_alone(alloc, pool, parts) {
        Ok(None) => link_checked(alloc, pool, parts),
        Ok(Some(breach)) => Err(Refusal::Breach(breach)),
        Err(_) => Err(Refusal::NoMemory),
    }
}

/// Links the file among those of the pool. Its record without source info, or the first rule that it breaks.
fn link_without_source_code_info(
    alloc: Global,
    pool: &Pool,
    file: &FileDescriptorProto,
) -> Result<FileDescriptorProto, Refusal>
    ensures kept { OnOk result (keeps_rules pool.now file.now ≡ true) }
    ensures linked { IfOk result (λ linked. linked ≡ without_source_code_info (linked_record pool.now file.now)) }
    ensures refused { IfErr result (IsRefused pool.now file.now) }
{
    match FileParts::new(alloc, file) {
        Ok(parts) => link_parts(alloc, pool, &parts),
        Err(_) => Err(Refusal::NoMemory),
    }
}

/// The record with this source info, settled.
fn with_source_code_info(
    alloc: Global,
    mut file: FileDescriptorProto,
    source: Option<SourceCodeInfo>,
) -> Result<FileDescriptorProto, NoMemory>
    ensures { IfOk result (λ made. made ≡ record file { source_code_info = option_map settled_source source }) }
{
    let Some(source) = source else {
        file.source_code_info = None;
        return Ok(file);
    };
    match settled_source_code_info(alloc, source) {
        Ok(settled) => {
            file.source_code_info = Some(settled);
            Ok(file)
        }
        Err(error) => {
            drop(file);
            Err(error)
        }
    }
}

/// The linked record of the file among those of the pool, or the first rule that it breaks.
pub(crate) fn linked(
    alloc: Global,
    pool: &Pool,
    file: FileDescriptorProto,
) -> Result<FileDescriptorProto, Refusal>
    ensures kept { OnOk result (keeps_rules pool.now file ≡ true) }
    ensures linked { IfOk result (λ linked. linked ≡ linked_record pool.now file) }
    ensures refused { IfErr result (IsRefused pool.now file) }
{
    let made = link_without_source_code_info(alloc, pool, &file);
    let FileDescriptorProto {
        source_code_info,
        ..
    } = file;
    match made {
        Ok(linked) => match with_source_code_info(alloc, linked, source_code_info) {
            Ok(whole) => Ok(whole),
            Err(_) => Err(Refusal::NoMemory),
        },
        Err(refusal) => Err(refusal),
    }
}
