//! The names that a program declares.

use dsl_tree::{
    CompoundDecl, CompoundKind, Declaration, EnumItem, FieldDecl, File, Ident, Member, QName,
};
use mistake_cases::Nearest;
use name_scope::Program;
use std::alloc::{AllocError, Global};

/// Names that are known without a declaration.
const KNOWN: [&str; 6] = ["int", "uint", "float", "bool", "string", "duration"];

/// A space of names: no two names of one space are equal.
#[derive(Clone, Copy)]
enum Space<'a> {
    /// Types, and behaviours without an owner.
    Types,
    Units,
    /// Behaviours of this actor.
    Owned(&'a str),
    /// Fields of the type of this name.
    Fields(&'a QName),
    /// Members of this enum.
    Items(&'a str),
}

impl Space<'_> {
    /// Whether both are the same space.
    fn is(self, other: Space<'_>) -> bool {
        match (self, other) {
            (Space::Types, Space::Types) | (Space::Units, Space::Units) => true,
            (Space::Owned(one), Space::Owned(two)) | (Space::Items(one), Space::Items(two)) => {
                one == two
            }
            (Space::Fields(one), Space::Fields(two)) => is_one_type(one, two),
            _ => false,
        }
    }
}

fn is_one_type(one: &QName, two: &QName) -> bool {
    let same = one.first.text.as_str() == two.first.text.as_str();
    match (&one.second, &two.second) {
        (Some(one), Some(two)) => same && one.text.as_str() == two.text.as_str(),
        (None, None) => same,
        _ => false,
    }
}

/// A name that a program declares, and the space that it is in.
#[derive(Clone, Copy)]
pub struct Declared<'a> {
    space: Space<'a>,
    pub name: &'a Ident,
    /// The type of a field or of a unit, else empty.
    of: &'a str,
}

/// The names that the program declares, in the order of its files: types, units, behaviours, fields and members of enums.
pub fn declared_names<'a>(
    alloc: Global,
    program: &'a Program,
) -> Result<Vec<Declared<'a>>, AllocError> {
    let mut names = Vec::new(alloc);
    for number in 0..program.files() {
        if let Some(file) = program.file(number) {
            put_file(&mut names, file)?;
        }
    }
    Ok(names)
}

fn put_file<'a>(names: &mut Vec<Declared<'a>>, file: &'a File) -> Result<(), AllocError> {
    for declaration in file.decls.as_slice() {
        put_declaration(names, declaration)?;
    }
    Ok(())
}

fn put_declaration<'a>(
    names: &mut Vec<Declared<'a>>,
    declaration: &'a Declaration,
) -> Result<(), AllocError> {
    match declaration {
        Declaration::Physical(d) => put_name(names, Space::Types, &d.name, ""),
        Declaration::Unit(d) => put_name(names, Space::Units, &d.name, d.of.text.as_str()),
        Declaration::Enum(d) => {
            put_name(names, Space::Types, &d.name, "")?;
            put_items(names, &d.name, d.items.as_slice())
        }
        Declaration::Compound(d) => put_compound(names, d),
        Declaration::MemberExtension(d) => put_members(names, &d.name, d.members.as_slice()),
        Declaration::EnumExtension(d) => put_items(names, &d.name.first, d.items.as_slice()),
    }
}

fn put_name<'a>(
    names: &mut Vec<Declared<'a>>,
    space: Space<'a>,
    name: &'a Ident,
    of: &'a str,
) -> Result<(), AllocError> {
    names.push(Declared { space, name, of })?;
    Ok(())
}

fn put_compound<'a>(
    names: &mut Vec<Declared<'a>>,
    compound: &'a CompoundDecl,
) -> Result<(), AllocError> {
    let first = &compound.name.first;
    match &compound.name.second {
        Some(second) => put_name(names, Space::Owned(first.text.as_str()), second, "")?,
        None => put_name(names, Space::Types, first, "")?,
    }
    put_members(names, &compound.name, compound.members.as_slice())
}

fn put_members<'a>(
    names: &mut Vec<Declared<'a>>,
    of: &'a QName,
    members: &'a [Member],
) -> Result<(), AllocError> {
    for member in members {
        if let Member::Field(field) = member {
            put_fields(names, of, field)?;
        }
    }
    Ok(())
}

fn put_fields<'a>(
    names: &mut Vec<Declared<'a>>,
    of: &'a QName,
    field: &'a FieldDecl,
) -> Result<(), AllocError> {
    for name in field.names.as_slice() {
        put_name(names, Space::Fields(of), name, field.of.text.as_str())?;
    }
    Ok(())
}

fn put_items<'a>(
    names: &mut Vec<Declared<'a>>,
    of: &'a Ident,
    items: &'a [EnumItem],
) -> Result<(), AllocError> {
    for item in items {
        put_name(names, Space::Items(of.text.as_str()), &item.name, "")?;
    }
    Ok(())
}

/// The first name that is declared with the text and in the space of another one.
pub fn first_of<'a>(names: &[Declared<'a>], later: Declared<'a>) -> Option<Declared<'a>> {
    for declared in names {
        if declared.name.text.as_str() == later.name.text.as_str()
            && declared.space.is(later.space)
        {
            return Some(*declared);
        }
    }
    None
}

/// The name nearest to a word, of the declared ones and of those that need no declaration.
pub fn nearest_name<'a>(
    alloc: Global,
    names: &[Declared<'a>],
    word: &str,
) -> Result<Option<&'a str>, AllocError> {
    let mut nearest = Nearest::new(word);
    for declared in names {
        nearest.look_at(alloc, declared.name.text.as_str())?;
    }
    for known in &KNOWN {
        nearest.look_at(alloc, known)?;
    }
    Ok(nearest.name())
}

/// The units of a physical type, in the order in which they are declared.
pub fn units_of<'a>(
    alloc: Global,
    names: &[Declared<'a>],
    of: &str,
) -> Result<Vec<&'a str>, AllocError> {
    let mut units = Vec::new(alloc);
    for declared in names {
        if matches!(declared.space, Space::Units) && declared.of == of {
            units.push(declared.name.text.as_str())?;
        }
    }
    Ok(units)
}

/// Whether a physical type of this name has a unit.
pub fn has_units(names: &[Declared<'_>], of: &str) -> bool {
    names.iter().any(|declared| matches!(declared.space, Space::Units) && declared.of == of)
}

/// The type of a unit.
pub fn type_of_unit<'a>(names: &[Declared<'a>], unit: &str) -> Option<&'a str> {
    for declared in names {
        if matches!(declared.space, Space::Units) && declared.name.text.as_str() == unit {
            return Some(declared.of);
        }
    }
    None
}

/// The type of a field that a type itself declares.
pub fn type_of_field<'a>(names: &[Declared<'a>], of: &QName, field: &str) -> Option<&'a str> {
    for declared in names {
        if declared.space.is(Space::Fields(of)) && declared.name.text.as_str() == field {
            return Some(declared.of);
        }
    }
    None
}

/// The type of a field that a type without an owner declares itself.
pub fn type_of_member<'a>(names: &[Declared<'a>], of: &str, field: &str) -> Option<&'a str> {
    for declared in names {
        if let Space::Fields(owner) = declared.space {
            let is_owner = owner.second.is_none() && owner.first.text.as_str() == of;
            if is_owner && declared.name.text.as_str() == field {
                return Some(declared.of);
            }
        }
    }
    None
}

/// The type in whose declaration or extension a line of a file stands. `None` if it stands in none.
pub fn type_around(file: &File, line: u32) -> Option<&QName> {
    let mut around = None;
    for declaration in file.decls.as_slice() {
        let (place, name) = match declaration {
            Declaration::Compound(d) => (d.place, Some(&d.name)),
            Declaration::MemberExtension(d) => (d.place, Some(&d.name)),
            Declaration::Physical(d) => (d.place, None),
            Declaration::Unit(d) => (d.place, None),
            Declaration::Enum(d) => (d.place, None),
            Declaration::EnumExtension(d) => (d.place, None),
        };
        if place.line <= line {
            around = name;
        }
    }
    around
}

/// All units, in the order in which they are declared.
pub fn all_units<'a>(alloc: Global, names: &[Declared<'a>]) -> Result<Vec<&'a str>, AllocError> {
    let mut units = Vec::new(alloc);
    for declared in names {
        if matches!(declared.space, Space::Units) {
            units.push(declared.name.text.as_str())?;
        }
    }
    Ok(units)
}

/// The names of the scenarios that a program declares, as the command `generate` takes them.
pub fn scenarios(alloc: Global, program: &Program) -> Result<Vec<String>, AllocError> {
    let mut names = Vec::new(alloc);
    for number in 0..program.files() {
        if let Some(file) = program.file(number) {
            put_scenarios(alloc, &mut names, file)?;
        }
    }
    Ok(names)
}

fn put_scenarios(alloc: Global, names: &mut Vec<String>, file: &File) -> Result<(), AllocError> {
    for declaration in file.decls.as_slice() {
        if let Declaration::Compound(compound) = declaration {
            if compound.kind == CompoundKind::Scenario {
                names.push(text_of(alloc, &compound.name)?)?;
            }
        }
    }
    Ok(())
}

fn text_of(alloc: Global, name: &QName) -> Result<String, AllocError> {
    let first = name.first.text.as_str();
    match &name.second {
        Some(second) => {
            let second = second.text.as_str();
            format!(in alloc; "{first}.{second}")
        }
        None => String::from_str(alloc, first),
    }
}
