//! The record of a file.

ghost use Rattle.std.specs.Prelude.{◌≡◌, ◌++◌, [], Some, map, option_map, unwrap_or, IfOk, OnOk};
ghost use Rattle.std.specs.List.{flat_map, filter_map};
ghost use Rattle.pbx_parse_tree.specs.declared.tree.Modifier.TheVariants as modifiers;
ghost use Rattle.pbx_parse_tree.specs.declared.tree.Version.TheVariants as versions;
ghost use Rattle.pbx_parse_tree.specs.declared.options.OptionPlace.TheVariants as places;
ghost use Rattle.pbx_parse_tree.specs.Conditions.{version_of, packages, top_setting};
ghost use Rattle.pbx_parse_tree.specs.View.{import_of, syntax_of, top_of, file_of};
ghost use Rattle.pbx_parse_translation.specs.Settings.{options_of};
ghost use Rattle.pbx_parse_translation.specs.Translation.{imports_in, messages_in, enums_in, extensions_in, services_in, import_name};
ghost use Rattle.pbx_parse_translation.specs.Translation.{has_modifier as has_modifier_of, indexes_from, syntax_name as syntax_name_of};
ghost use Rattle.pbx_parse_translation.specs.Translation.{package_name as package_name_of, translate_of};

use crate::enums::enum_record;
use crate::fields::{add_extensions, index};
use crate::messages::{add_message, nested_types};
use crate::passes::{Gives, put};
use crate::services::service_record;
use crate::settings::options;
use crate::texts::{full_text, some_text, string_text};
use pbx_desc_records::{
    DescriptorProto, EnumDescriptorProto, FieldDescriptorProto, FileDescriptorProto, Location,
    Options, ServiceDescriptorProto, SourceCodeInfo,
};
use pbx_parse_token::stands_for;
use pbx_parse_tree::{File, Import, Modifier, OptionPlace, Syntax, Top, Version, file_settings};
use pbx_wire::{List, NoMemory, Recs, Text, Texts};
use std::alloc::Global;

impl Gives<DescriptorProto> for Top<'_> {
    ghost given = { λ version top. messages_in version (top_of top) };

    fn give(
        &self,
        alloc: Global,
        version: Version,
        records: &mut List<DescriptorProto>,
    ) -> Result<(), NoMemory> {
        let Top::Message(message) = self else {
            return Ok(());
        };
        let types = nested_types(&message.items, alloc, version)?;
        let items = message.items.as_slice();
        add_message(
            alloc,
            version,
            message.head.name.text,
            items,
            types,
            records,
        )
    }
}

impl Gives<EnumDescriptorProto> for Top<'_> {
    ghost given = { λ version top. enums_in (top_of top) };

    fn give(
        &self,
        alloc: Global,
        version: Version,
        records: &mut List<EnumDescriptorProto>,
    ) -> Result<(), NoMemory> {
        match self {
            Top::Enum(item) => records.add(enum_record(alloc, version, item)?),
            _ => Ok(()),
        }
    }
}

impl Gives<FieldDescriptorProto> for Top<'_> {
    ghost given = { λ version top. extensions_in version (top_of top) };

    fn give(
        &self,
        alloc: Global,
        version: Version,
        records: &mut List<FieldDescriptorProto>,
    ) -> Result<(), NoMemory> {
        match self {
            Top::Extend(extend) => add_extensions(alloc, version, extend, records),
            _ => Ok(()),
        }
    }
}

impl Gives<ServiceDescriptorProto> for Top<'_> {
    ghost given = { λ version top. services_in (top_of top) };

    fn give(
        &self,
        alloc: Global,
        version: Version,
        records: &mut List<ServiceDescriptorProto>,
    ) -> Result<(), NoMemory> {
        match self {
            Top::Service(service) => records.add(service_record(alloc, version, service)?),
            _ => Ok(()),
        }
    }
}

/// The imports, in their order.
fn imports<'a>(alloc: Global, tops: &[Top<'a>]) -> Result<Vec<Import<'a>>, NoMemory>
    ensures { IfOk result (λ v. map import_of v.items ≡ flat_map imports_in (map top_of tops.now)) }
{
    let mut all = Vec::new(alloc);
    'each: for top in tops {
        if let Top::Import(import) = top {
            all.push(*import)?;
        }
    }
    Ok(all)
}

/// The names of the files that are imported.
fn import_names(alloc: Global, imports: &[Import<'_>]) -> Result<Texts, NoMemory>
    ensures { IfOk result (λ names. names ≡ map import_name (map import_of imports.now)) }
{
    let mut names = Texts::new(alloc);
    'each: for import in imports {
        names.add(string_text(alloc, &import.path)?)?;
    }
    Ok(names)
}

fn has_modifier(modifier: Modifier, import: &Import<'_>) -> bool
    ensures { result ≡ has_modifier_of modifier import.now.modifier }
{
    matches!(
        (modifier, import.modifier),
        (Modifier::Public, Some((Modifier::Public, _)))
            | (Modifier::Weak, Some((Modifier::Weak, _)))
    )
}

/// The indexes of the imports that have the modifier.
fn indexes(alloc: Global, modifier: Modifier, imports: &[Import<'_>]) -> Result<List<i32>, NoMemory>
    ensures { IfOk result (λ indexes. indexes ≡ indexes_from 0 modifier (map import_of imports.now)) }
{
    let mut indexes = List::new(alloc);
    for (i, import) in imports.iter().enumerate() {
        if has_modifier(modifier, import) {
            indexes.add(index(i)?)?;
        }
    }
    Ok(indexes)
}

/// The version of a file with this syntax statement.
fn version(syntax: &Option<Syntax<'_>>) -> Version
    ensures { result ≡ unwrap_or (version_of (option_map syntax_of syntax.now)) versions.Proto2 }
{
    match syntax {
        Some(syntax) if stands_for(syntax.value.text, b"proto3") => Version::Proto3,
        _ => Version::Proto2,
    }
}

/// The name that the record has for the version.
fn syntax_name(alloc: Global, version: Version) -> Result<Option<Text>, NoMemory>
    ensures { IfOk result (λ name. name ≡ syntax_name_of version) }
{
    match version {
        Version::Proto2 => Ok(None),
        Version::Proto3 => Ok(Some(Text::from_str(alloc, "proto3")?)),
    }
}

/// The name of the first package.
fn package_name(alloc: Global, tops: &[Top<'_>]) -> Result<Option<Text>, NoMemory>
    ensures { IfOk result (λ name. name ≡ package_name_of (packages (map top_of tops.now))) }
{
    'each: for top in tops {
        if let Top::Package(package) = top {
            return Ok(Some(full_text(alloc, &package.full)?));
        }
    }
    Ok(None)
}

/// The options record of a file with these at its top.
fn file_options(alloc: Global, tops: &[Top<'_>]) -> Result<Option<Options>, NoMemory>
    ensures { IfOk result (λ set. set ≡ options_of places.File (filter_map top_setting (map top_of tops.now))) }
{
    let settings = file_settings(alloc, tops)?;
    options(alloc, OptionPlace::File, settings.as_slice())
}

/// What a file says of itself.
#[derive(Drop)]
struct Head {
    name: Option<Text>,
    package: Option<Text>,
    options: Option<Options>,
    syntax: Option<Text>,
}

impl Head {
    /// Each absent; takes no memory.
    fn new() -> Head {
        Head {
            name: None,
            package: None,
            options: None,
            syntax: None,
        }
    }

    /// Puts in what a file of this name, this version and these tops says of itself.
    fn fill(
        &mut self,
        alloc: Global,
        name: &str,
        version: Version,
        tops: &[Top<'_>],
    ) -> Result<(), NoMemory>
        ensures { OnOk result (self.new ≡ record {
          name = Some name.now;
          «package» = package_name_of (packages (map top_of tops.now));
          options = options_of places.File (filter_map top_setting (map top_of tops.now));
          syntax = syntax_name_of version;
        }) }
    {
        put(&mut self.name, some_text(alloc, name))?;
        put(&mut self.package, package_name(alloc, tops))?;
        put(&mut self.options, file_options(alloc, tops))?;
        put(&mut self.syntax, syntax_name(alloc, version))
    }
}

/// What a file imports.
#[derive(Drop)]
struct Imported {
    dependency: Texts,
    public_dependency: List<i32>,
    weak_dependency: List<i32>,
}

impl Imported {
    /// Nothing; takes no memory.
    fn new(alloc: Global) -> Imported {
        Imported {
            dependency: Texts::new(alloc),
            public_dependency: List::new(alloc),
            weak_dependency: List::new(alloc),
        }
    }

    /// Puts in the names of these imports, and the indexes of those that have a modifier.
    fn fill_with(&mut self, alloc: Global, imports: &[Import<'_>]) -> Result<(), NoMemory>
        ensures { OnOk result (self.new ≡ record {
          dependency = map import_name (map import_of imports.now);
          public_dependency = indexes_from 0 modifiers.Public (map import_of imports.now);
          weak_dependency = indexes_from 0 modifiers.Weak (map import_of imports.now);
        }) }
    {
        put(&mut self.dependency, import_names(alloc, imports))?;
        put(
            &mut self.public_dependency,
            indexes(alloc, Modifier::Public, imports),
        )?;
        put(
            &mut self.weak_dependency,
            indexes(alloc, Modifier::Weak, imports),
        )
    }

    /// Puts in what the tops import.
    fn fill(&mut self, alloc: Global, tops: &[Top<'_>]) -> Result<(), NoMemory>
        ensures { OnOk result (self.new ≡ record {
          dependency = map import_name (flat_map imports_in (map top_of tops.now));
          public_dependency = indexes_from 0 modifiers.Public (flat_map imports_in (map top_of tops.now));
          weak_dependency = indexes_from 0 modifiers.Weak (flat_map imports_in (map top_of tops.now));
        }) }
    {
        let all = imports(alloc, tops)?;
        self.fill_with(alloc, all.as_slice())
    }
}

/// What stands at the top of a file, each sort in the order of the source.
#[derive(Drop)]
struct Declarations {
    messages: List<DescriptorProto>,
    enums: List<EnumDescriptorProto>,
    services: List<ServiceDescriptorProto>,
    extensions: List<FieldDescriptorProto>,
}

impl Declarations {
    /// Nothing; takes no memory.
    fn new(alloc: Global) -> Declarations
        ensures { result ≡ record { messages = []; enums = []; services = []; extensions = [] } }
    {
        Declarations {
            messages: List::new(alloc),
            enums: List::new(alloc),
            services: List::new(alloc),
            extensions: List::new(alloc),
        }
    }

    /// Adds what the top gives, which is of one sort.
    fn add(&mut self, alloc: Global, version: Version, top: &Top<'_>) -> Result<(), NoMemory>
        ensures messages { OnOk result (self.new.messages ≡ self.old.messages ++ messages_in version (top_of top.now)) }
        ensures enums { OnOk result (self.new.enums ≡ self.old.enums ++ enums_in (top_of top.now)) }
        ensures services { OnOk result (self.new.services ≡ self.old.services ++ services_in (top_of top.now)) }
        ensures extensions { OnOk result (self.new.extensions ≡ self.old.extensions ++ extensions_in version (top_of top.now)) }
    {
        top.give(alloc, version, &mut self.messages)?;
        top.give(alloc, version, &mut self.enums)?;
        top.give(alloc, version, &mut self.services)?;
        top.give(alloc, version, &mut self.extensions)
    }

    /// The same, and lets the top go.
    fn take(&mut self, alloc: Global, version: Version, top: Top<'_>) -> Result<(), NoMemory>
        ensures messages { OnOk result (self.new.messages ≡ self.old.messages ++ messages_in version (top_of top.entry)) }
        ensures enums { OnOk result (self.new.enums ≡ self.old.enums ++ enums_in (top_of top.entry)) }
        ensures services { OnOk result (self.new.services ≡ self.old.services ++ services_in (top_of top.entry)) }
        ensures extensions { OnOk result (self.new.extensions ≡ self.old.extensions ++ extensions_in version (top_of top.entry)) }
    {
        let added = self.add(alloc, version, &top);
        drop(top);
        added
    }

    /// Adds what the tops give. Each goes as soon as it has given, so the memory of the tree is there for the records.
    fn take_all(
        &mut self,
        alloc: Global,
        version: Version,
        tops: Vec<Top<'_>>,
    ) -> Result<(), NoMemory>
        ensures messages { OnOk result (self.new.messages ≡ self.old.messages ++ flat_map (messages_in version) (map top_of tops.entry.items)) }
        ensures enums { OnOk result (self.new.enums ≡ self.old.enums ++ flat_map enums_in (map top_of tops.entry.items)) }
        ensures services { OnOk result (self.new.services ≡ self.old.services ++ flat_map services_in (map top_of tops.entry.items)) }
        ensures extensions { OnOk result (self.new.extensions ≡ self.old.extensions ++ flat_map (extensions_in version) (map top_of tops.entry.items)) }
    {
        'each: for top in tops {
            self.take(alloc, version, top)?;
        }
        Ok(())
    }
}

/// Fills all that the declarations at the top are not needed for.
fn fill_front(
    alloc: Global,
    name: &str,
    version: Version,
    tops: &Vec<Top<'_>>,
    head: &mut Head,
    imported: &mut Imported,
) -> Result<(), NoMemory>
    ensures { OnOk result ((head.new ≡ record {
      name = Some name.now;
      «package» = package_name_of (packages (map top_of tops.now.items));
      options = options_of places.File (filter_map top_setting (map top_of tops.now.items));
      syntax = syntax_name_of version;
    }) × (imported.new ≡ record {
      dependency = map import_name (flat_map imports_in (map top_of tops.now.items));
      public_dependency = indexes_from 0 modifiers.Public (flat_map imports_in (map top_of tops.now.items));
      weak_dependency = indexes_from 0 modifiers.Weak (flat_map imports_in (map top_of tops.now.items));
    })) }
{
    let tops = tops.as_slice();
    head.fill(alloc, name, version, tops)?;
    imported.fill(alloc, tops)
}

/// What the tops declare; lets them go.
fn declared(alloc: Global, version: Version, tops: Vec<Top<'_>>) -> Result<Declarations, NoMemory>
    ensures { IfOk result (λ declared. declared ≡ record {
      messages = flat_map (messages_in version) (map top_of tops.entry.items);
      enums = flat_map enums_in (map top_of tops.entry.items);
      services = flat_map services_in (map top_of tops.entry.items);
      extensions = flat_map (extensions_in version) (map top_of tops.entry.items);
    }) }
{
    let mut declared = Declarations::new(alloc);
    match declared.take_all(alloc, version, tops) {
        Ok(()) => Ok(declared),
        Err(error) => {
            drop(declared);
            Err(error)
        }
    }
}

/// Fills the head and the imports, and then takes what the tops declare.
fn fill_and_declared(
    alloc: Global,
    name: &str,
    version: Version,
    tops: Vec<Top<'_>>,
    head: &mut Head,
    imported: &mut Imported,
) -> Result<Declarations, NoMemory>
    ensures { IfOk result (λ declared. (declared ≡ record {
      messages = flat_map (messages_in version) (map top_of tops.entry.items);
      enums = flat_map enums_in (map top_of tops.entry.items);
      services = flat_map services_in (map top_of tops.entry.items);
      extensions = flat_map (extensions_in version) (map top_of tops.entry.items);
    }) × (head.new ≡ record {
      name = Some name.now;
      «package» = package_name_of (packages (map top_of tops.entry.items));
      options = options_of places.File (filter_map top_setting (map top_of tops.entry.items));
      syntax = syntax_name_of version;
    }) × (imported.new ≡ record {
      dependency = map import_name (flat_map imports_in (map top_of tops.entry.items));
      public_dependency = indexes_from 0 modifiers.Public (flat_map imports_in (map top_of tops.entry.items));
      weak_dependency = indexes_from 0 modifiers.Weak (flat_map imports_in (map top_of tops.entry.items));
    })) }
{
    match fill_front(alloc, name, version, &tops, head, imported) {
        Ok(()) => declared(alloc, version, tops),
        Err(error) => Err(error),
    }
}

/// The file of these parts.
fn file_of_parts(
    alloc: Global,
    head: Head,
    imported: Imported,
    declared: Declarations,
    locations: List<Location>,
) -> FileDescriptorProto
    ensures { result ≡ record {
      name = head.name;
      «package» = head.«package»;
      dependency = imported.dependency;
      message_type = declared.messages;
      enum_type = declared.enums;
      service = declared.services;
      extension = declared.extensions;
      options = head.options;
      source_code_info = Some (record { location = locations; unknown = [] });
      public_dependency = imported.public_dependency;
      weak_dependency = imported.weak_dependency;
      syntax = head.syntax;
      unknown = [];
    } }
{
    FileDescriptorProto {
        name: head.name,
        package: head.package,
        dependency: imported.dependency,
        message_type: declared.messages,
        enum_type: declared.enums,
        service: declared.services,
        extension: declared.extensions,
        options: head.options,
        source_code_info: Some(SourceCodeInfo {
            location: locations,
            unknown: Recs::new(alloc),
        }),
        public_dependency: imported.public_dependency,
        weak_dependency: imported.weak_dependency,
        syntax: head.syntax,
        unknown: Recs::new(alloc),
    }
}

/// The descriptor record of a file of this name, with these locations. The only error is want of memory.
pub fn translate(
    alloc: Global,
    name: &str,
    file: File<'_>,
    locations: List<Location>,
) -> Result<FileDescriptorProto, NoMemory>
    ensures { IfOk result (λ it. it ≡ translate_of name.now (file_of file.entry) locations) }
{
    let version = version(&file.syntax);
    let mut head = Head::new();
    let mut imported = Imported::new(alloc);
    match fill_and_declared(alloc, name, version, file.tops, &mut head, &mut imported) {
        Ok(declared) => Ok(file_of_parts(alloc, head, imported, declared, locations)),
        Err(error) => {
            drop(head);
            drop(imported);
            Err(error)
        }
    }
}
