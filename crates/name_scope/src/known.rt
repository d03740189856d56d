//! Whether a name is declared.

ghost use Rattle.std.specs.Prelude.{◌≡◌, ◌||◌, ◌++◌, Some, None, take, option_copied};
ghost use Rattle.std.specs.List.{list_any};
ghost use Rattle.name_scope.specs.Declaring.{declares};
ghost use Rattle.name_scope.specs.Headings.{declarations, takes, is_owned};
ghost use Rattle.name_scope.specs.Headings.{is_declared as has_name, is_taken as has_taken, is_basic as names_basic};
ghost use Rattle.name_scope.specs.Seen.{seen_name};
ghost use Rattle.name_scope.specs.Earlier.{earlier_of};

use crate::NameKind;
use crate::source::Source;
use crate::table::Declared;
use dsl_tree::Ident;

/// What is declared before a declaration: the files before its own, and so many declarations of that.
#[derive(Clone, Copy)]
pub struct Earlier<'a> {
    pub files: &'a [Source],
    pub file: &'a Source,
    pub index: u32,
}

fn is_basic(name: &str) -> bool
    ensures { result ≡ names_basic name.now }
{
    name == "int" || name == "uint" || name == "float" || name == "bool" || name == "string"
}

/// Whether a file declares the name.
fn is_in(source: &Source, kind: NameKind, owner: Option<&str>, name: &str) -> bool
    ensures { result ≡ list_any (declares kind (option_copied owner.entry) name.now) source.now.file.decls }
{
    source.find(kind, owner, name).is_some()
}

/// Whether one of the first declarations of a file declares the name.
fn is_in_front(source: &Source, index: u32, kind: NameKind, owner: Option<&str>, name: &str) -> bool
    ensures { result ≡ list_any (declares kind (option_copied owner.entry) name.now) (take index source.now.file.decls) }
{
    match source.find(kind, owner, name) {
        Some(place) => place < index,
        None => false,
    }
}

fn is_in_some(sources: &[Source], kind: NameKind, owner: Option<&str>, name: &str) -> bool
    ensures { result ≡ list_any (λ f. list_any (declares kind (option_copied owner.entry) name.now) f.file.decls) sources.now }
{
    sources
        .iter()
        .any(|source| is_in(source, kind, owner, name))
}

fn declares_in(sources: &[Source], kind: NameKind, owner: Option<&str>, name: &str) -> bool
    ensures { result ≡ list_any (declares kind (option_copied owner.entry) name.now) (declarations sources.now) }
{
    is_in_some(sources, kind, owner, name)
}

fn takes_in(sources: &[Source], name: &str) -> bool
    ensures { result ≡ list_any (takes name.now) (declarations sources.now) }
{
    declares_in(sources, NameKind::TypeName, None, name)
        || declares_in(sources, NameKind::BehaviourName, None, name)
}

/// Whether a type or a behaviour without an owner has the name.
pub fn is_declared(sources: &[Source], name: &str) -> bool
    ensures { result ≡ has_name (declarations sources.now) name.now }
{
    is_basic(name) || takes_in(sources, name)
}

/// Whether the owner has a behaviour of the name.
pub fn is_owned_in(sources: &[Source], owner: &str, name: &str) -> bool
    ensures { result ≡ is_owned (declarations sources.now) owner.now name.now }
{
    declares_in(sources, NameKind::BehaviourName, Some(owner), name)
}

fn declares_before(earlier: Earlier<'_>, kind: NameKind, owner: Option<&str>, name: &str) -> bool
    ensures { result ≡ list_any (declares kind (option_copied owner.entry) name.now) (earlier_of earlier.entry) }
{
    declares_in(earlier.files, kind, owner, name)
        || is_in_front(earlier.file, earlier.index, kind, owner, name)
}

fn takes_before(earlier: Earlier<'_>, name: &str) -> bool
    ensures { result ≡ list_any (takes name.now) (earlier_of earlier.entry) }
{
    declares_before(earlier, NameKind::TypeName, None, name)
        || declares_before(earlier, NameKind::BehaviourName, None, name)
}

fn is_declared_before(earlier: Earlier<'_>, name: &str) -> bool
    ensures { result ≡ has_name (earlier_of earlier.entry) name.now }
{
    is_basic(name) || takes_before(earlier, name)
}

/// Whether the name is declared before in its space.
pub fn is_taken(earlier: Earlier<'_>, declared: Declared<'_>) -> bool
    ensures { result ≡ has_taken (earlier_of earlier.entry) (seen_name declared.entry).kind (seen_name declared.entry).owner (seen_name declared.entry).name }
{
    match declared {
        Declared::Type(name) | Declared::Behaviour(name) => {
            is_declared_before(earlier, name.text.as_str())
        }
        Declared::Unit(name) => {
            declares_before(earlier, NameKind::UnitName, None, name.text.as_str())
        }
        Declared::Owned { owner, name } => declares_before(
            earlier,
            NameKind::BehaviourName,
            Some(owner.text.as_str()),
            name.text.as_str(),
        ),
    }
}
