ghost use Rattle.std.specs.Prelude.{◌≡◌, ◌≢◌, ◌++◌, [], None, Some, IfErr, IfOk, OnOk, pos};
ghost use Rattle.trick_lang.specs.SDefineOf.{sdefine_of};
ghost use Rattle.trick_lang.specs.Syntax.{all_members_of, class_parts_of, definition_of, definitions_of, items_of};
ghost use Rattle.trick_check_names.specs.FileMistakes.{all_members_mistakes, class_mistakes, definition_mistakes, definitions_mistakes, item_mistakes, mistakes, unless_class};
ghost use Rattle.trick_check_names.specs.Mistakes.{fault_of, noted, twice};
ghost use Rattle.trick_check_names.specs.Names.{with_name};
ghost use Rattle.trick_check_names.specs.Tables.{behind_definition, members_in, names_behind, nothing_inside, object_base, tables_of, with_all_members, with_items};
ghost use Rattle.trick_check_names.specs.declared.fault.NameFault.TheVariants.{OutOfMemory};
ghost use Rattle.trick_check_names.specs.declared.tables.Global.TheVariants.{Class as OfClass, Enum as OfEnum, Struct as OfStruct};

use crate::class::{look_class, read_class};
use crate::found::{Found, declare};
use crate::members::{add_all_members, add_items};
use crate::scope::FileScope;
use crate::{Base, Global, Member, NameFault, Names, Tables};
use std::alloc::{AllocError, Global as Memory};
use trick_base::{Items, Word};
use trick_lang::Scalar;
use trick_lang::syntax::{ClassPart, Definition, EnumItem, Members, SDefine};

// What an object of a type is.
fn base(class: Option<Global>) -> Base
    ensures { result ≡ object_base class }
{
    match class {
        Some(Global::Class(number)) => Base::Group(number),
        _ => Base::Single(Scalar::Int),
    }
}

// Makes a name known that was not.
fn add_name(name: &Word, meaning: Global, names: &mut Names<Global>) -> Result<(), AllocError>
    ensures { OnOk result (names.new ≡ with_name name.now meaning names.old) }
{
    names.add(name, meaning)?;
    Ok(())
}

// Adds the names of an enum.
fn add_enum(name: &Word, items: &[EnumItem], names: &mut Names<Global>) -> Result<(), AllocError>
    ensures { OnOk result (names.new ≡ with_items (items_of items.now) (pos 0) (with_name name.now OfEnum names.old)) }
{
    let mut unheeded = Found::nothing();
    look_enum(name, items, names, &mut unheeded)
}

// Adds the names of a definition.
fn add_names(
    definition: &Definition,
    number: usize,
    names: &mut Names<Global>,
) -> Result<(), AllocError>
    ensures { OnOk result (names.new ≡ names_behind (definition_of definition.now) number names.old) }
{
    match definition {
        Definition::Include => Ok(()),
        Definition::Enum { name, items } => add_enum(name, items.as_slice(), names),
        Definition::Struct { name, members: _ } => add_name(name, Global::Struct(number), names),
        Definition::Class { name, parts: _ } => add_name(name, Global::Class(number), names),
        Definition::Object {
            line: _,
            class,
            name,
        } => {
            let base = base(names.meaning(class));
            add_name(name, Global::Object(base), names)
        }
    }
}

// The members of a struct.
fn read_struct(
    alloc: Memory,
    members: &[Members],
    names: &Names<Global>,
) -> Result<Names<Member>, AllocError>
    ensures { IfOk result (λ read. read ≡ with_all_members (all_members_of members.now) names.now []) }
{
    let mut unheeded = Found::nothing();
    let mut read = Names::new(alloc);
    add_all_members(members, names, &mut read, &mut unheeded)?;
    Ok(read)
}

// The members of a definition.
fn read_members(
    alloc: Memory,
    definition: &Definition,
    names: &Names<Global>,
) -> Result<Names<Member>, AllocError>
    ensures { IfOk result (λ members. members ≡ members_in (definition_of definition.now) names.now) }
{
    match definition {
        Definition::Struct { name: _, members } => read_struct(alloc, members.as_slice(), names),
        Definition::Class { name: _, parts } => read_class(alloc, parts.as_slice(), names),
        _ => Ok(Names::new(alloc)),
    }
}

// Adds what a definition declares.
fn add_definition(
    alloc: Memory,
    definition: &Definition,
    tables: &mut Tables,
) -> Result<(), AllocError>
    ensures { OnOk result (tables.new ≡ behind_definition (definition_of definition.now) tables.old) }
{
    let number = tables.groups.len();
    let members = read_members(alloc, definition, &tables.names)?;
    tables.groups.push(members)?;
    add_names(definition, number, &mut tables.names)
}

/// What a file declares, in whatever order.
fn read_tables(alloc: Memory, definitions: &[Definition]) -> Result<Tables, AllocError>
    ensures { IfOk result (λ tables. tables ≡ tables_of (definitions_of definitions.now)) }
{
    let mut tables = Tables {
        names: Names::new(alloc),
        groups: Items::new(alloc),
    };
    for definition in definitions {
        add_definition(alloc, definition, &mut tables)?;
    }
    Ok(tables)
}

// Notes a name that is known.
fn note_known(name: &Word, names: &Names<Global>, found: &mut Found) -> Result<(), AllocError>
    ensures { OnOk result (found.new ≡ noted (twice name.now names.now) found.old) }
{
    if names.meaning(name).is_some() {
        found.note_twice(name)?;
    }
    Ok(())
}

// Notes an object whose type is no class.
fn note_object_type(line: u32, class: Option<Global>, found: &mut Found)
    ensures { found.new ≡ noted (unless_class line class) found.old }
{
    match class {
        Some(Global::Class(_)) => {}
        _ => found.note_unknown(line),
    }
}

// Notes the mistakes of an enum, and adds its names.
fn look_enum(
    name: &Word,
    items: &[EnumItem],
    names: &mut Names<Global>,
    found: &mut Found,
) -> Result<(), AllocError>
    ensures names { OnOk result (names.new ≡ with_items (items_of items.now) (pos 0)
        (with_name name.now OfEnum names.old)) }
    ensures found { OnOk result (found.new ≡ noted (twice name.now names.old
        ++ item_mistakes (items_of items.now) (pos 0) (with_name name.now OfEnum names.old)) found.old) }
{
    declare(name, Global::Enum, names, found)?;
    add_items(items, names, found)
}

// Notes the mistakes in the members of a struct.
fn look_members(
    alloc: Memory,
    members: &[Members],
    names: &Names<Global>,
    found: &mut Found,
) -> Result<(), AllocError>
    ensures { OnOk result (found.new ≡ noted
        (all_members_mistakes (all_members_of members.now) names.now []) found.old) }
{
    let mut read = Names::new(alloc);
    add_all_members(members, names, &mut read, found)
}

// Notes the mistakes of a struct, and adds its name.
fn look_struct(
    alloc: Memory,
    name: &Word,
    members: &[Members],
    scope: &mut FileScope,
    found: &mut Found,
) -> Result<(), AllocError>
    ensures scope { OnOk result (scope.new ≡
        record scope.old { names = with_name name.now (OfStruct scope.old.own) scope.old.names }) }
    ensures found { OnOk result (found.new ≡ noted (twice name.now scope.old.names
        ++ all_members_mistakes (all_members_of members.now) scope.old.names []) found.old) }
{
    note_known(name, &scope.names, found)?;
    look_members(alloc, members, &scope.names, found)?;
    add_name(name, Global::Struct(scope.own), &mut scope.names)
}

// Notes the mistakes of a class, and adds its name.
fn look_named_class(
    alloc: Memory,
    name: &Word,
    parts: &[ClassPart],
    scope: &mut FileScope,
    found: &mut Found,
) -> Result<(), AllocError>
    ensures scope { OnOk result (scope.new ≡
        record scope.old { names = with_name name.now (OfClass scope.old.own) scope.old.names }) }
    ensures found { OnOk result (found.new ≡ noted (twice name.now scope.old.names
        ++ class_mistakes (class_parts_of parts.now) 0 name.now nothing_inside scope.old) found.old) }
{
    note_known(name, &scope.names, found)?;
    look_class(alloc, parts, name, scope, found)?;
    add_name(name, Global::Class(scope.own), &mut scope.names)
}

// Notes the mistakes of a definition, and adds its names.
fn look_definition(
    alloc: Memory,
    definition: &Definition,
    scope: &mut FileScope,
    found: &mut Found,
) -> Result<(), AllocError>
    ensures scope { OnOk result (scope.new ≡
        record scope.old { names = names_behind (definition_of definition.now) scope.old.own scope.old.names }) }
    ensures found { OnOk result (found.new ≡ noted
        (definition_mistakes (definition_of definition.now) scope.old) found.old) }
{
    match definition {
        Definition::Include => Ok(()),
        Definition::Enum { name, items } => {
            look_enum(name, items.as_slice(), &mut scope.names, found)
        }
        Definition::Struct { name, members } => {
            look_struct(alloc, name, members.as_slice(), scope, found)
        }
        Definition::Class { name, parts } => {
            look_named_class(alloc, name, parts.as_slice(), scope, found)
        }
        Definition::Object { line, class, name } => {
            let meaning = scope.names.meaning(class);
            note_object_type(*line, meaning, found);
            declare(name, Global::Object(base(meaning)), &mut scope.names, found)
        }
    }
}

// Notes the mistakes of all definitions.
fn look_definitions(
    alloc: Memory,
    definitions: &[Definition],
    scope: &mut FileScope,
    found: &mut Found,
) -> Result<(), AllocError>
    requires start { scope.old.own ≡ 0 }
    ensures tables { OnOk result (scope.new.tables ≡ scope.old.tables) }
    ensures found { OnOk result (found.new ≡ noted
        (definitions_mistakes (definitions_of definitions.now) scope.old) found.old) }
{
    for definition in definitions {
        look_definition(alloc, definition, scope, found)?;
        scope.own += 1;
    }
    Ok(())
}

// Looks for the mistake that decides of all definitions.
fn look(alloc: Memory, definitions: &[Definition], scope: &mut FileScope) -> Result<(), NameFault>
    requires start { scope.old.own ≡ 0 }
    ensures tables { OnOk result (scope.new.tables ≡ scope.old.tables) }
    ensures ok { OnOk result (fault_of (definitions_mistakes (definitions_of definitions.now) scope.old) ≡ None) }
    ensures err { IfErr result (λ fault. fault ≢ OutOfMemory →
        fault_of (definitions_mistakes (definitions_of definitions.now) scope.old) ≡ Some fault) }
{
    let mut found = Found::nothing();
    look_definitions(alloc, definitions, scope, &mut found)?;
    match found.fault() {
        Some(fault) => Err(fault),
        None => Ok(()),
    }
}

/// Looks whether each name of a file is given once and stands for something that may stand there,
/// and gives what the file declares. The first name that is given twice decides, or else the first
/// unknown one, or else the first place that is no scalar (docs/FORMATS.md, 4.4 and 5.3).
pub fn check(alloc: Memory, sdef: &SDefine) -> Result<Tables, NameFault>
    ensures ok { OnOk result (fault_of (mistakes (sdefine_of sdef.now)) ≡ None) }
    ensures tables { IfOk result (λ tables. tables ≡ tables_of (sdefine_of sdef.now)) }
    ensures err { IfErr result (λ fault. fault ≢ OutOfMemory →
        fault_of (mistakes (sdefine_of sdef.now)) ≡ Some fault) }
{
    let definitions = sdef.definitions.as_slice();
    let mut scope = FileScope {
        tables: read_tables(alloc, definitions)?,
        names: Names::new(alloc),
        own: 0,
    };
    look(alloc, definitions, &mut scope)?;
    Ok(scope.tables)
}
