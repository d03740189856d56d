ghost use Rattle.std.specs.Prelude.{◌≡◌};
ghost use Rattle.dsl_spell.specs.Writing.{[], map, option_map, refl, OnOk, Import, nil, ident, imports, signed, base, bases_tail, type_declaration, unit_end, unit_bases, unit_declaration, enum_item, items_tail, enum_items, enum_declaration, qualified_name, optional_heir, names_tail, field_type, initial, field, member, members_tail, block, body, compound_heading, declaration, declarations, expr_tree, field_tree, member_tree, compound_tree, more_tree, declaration_tree, DeclarationTree, wrote, Writes};

use crate::rows::{Item, Next, push_commas, push_rest, push_with};
use crate::spell_expr::{enum_name, push_expr};
use crate::spell_phase::{push_dotted, push_phase, push_rule};
use crate::writer::Writer;
use dsl_tree::{
    BasePart, CompoundDecl, CompoundKind, ConditionValue, Declaration, EnumDecl, EnumExtension,
    EnumItem, Expr, FieldDecl, Heir, Ident, Import, MarkKind, Member, MemberExtension,
    PhysicalDecl, QName, Signed, TokenKind, UnitDecl, WordKind,
};
use osc_base::Text;
use std::alloc::AllocError;

// Imports

impl Next for Import {
    ghost tail = { imports };

    ghost ends = { refl };

    fn next(&self, w: &mut Writer) -> Result<(), AllocError> {
        w.bare_word(WordKind::ImportWord)?;
        match self {
            Import::Named { place, name } => {
                w.chars(*place, name)?;
                w.line_end()
            }
            Import::Dotted { names } => match names.as_slice().split_first() {
                None => Ok(()),
                Some((first, others)) => {
                    w.name(first)?;
                    push_dotted(w, others)?;
                    w.line_end()
                }
            },
        }
    }
}

// Types and units

fn push_signed(w: &mut Writer, number: &Signed) -> Result<(), AllocError>
    ensures { OnOk result (Writes w.old (signed number.now) w.new) }
{
    if number.minus {
        w.mark(number.place, MarkKind::Dash)?;
    }
    w.digits(&number.number)
}

impl Next for BasePart {
    ghost tail = { bases_tail };

    ghost ends = { refl };

    fn next(&self, w: &mut Writer) -> Result<(), AllocError> {
        w.bare_mark(MarkKind::Comma)?;
        self.item(w)
    }
}

impl Item for BasePart {
    ghost item = { base };

    fn item(&self, w: &mut Writer) -> Result<(), AllocError> {
        w.name(&self.name)?;
        w.bare_mark(MarkKind::Colon)?;
        push_signed(w, &self.exponent)
    }
}

fn push_type(w: &mut Writer, decl: &PhysicalDecl) -> Result<(), AllocError>
    ensures { OnOk result (Writes w.old (type_declaration decl.now) w.new) }
{
    w.word(decl.place, WordKind::TypeWord)?;
    w.name(&decl.name)?;
    w.bare_word(WordKind::IsWord)?;
    w.bare_name("SI")?;
    w.bare_mark(MarkKind::OpenRound)?;
    push_commas(w, decl.bases.as_slice())?;
    w.bare_mark(MarkKind::CloseRound)?;
    w.line_end()
}

fn push_unit_end(w: &mut Writer, decl: &UnitDecl) -> Result<(), AllocError>
    ensures { OnOk result (Writes w.old (unit_end decl.now.factor decl.now.offset) w.new) }
{
    if let Some(number) = &decl.factor {
        w.bare_mark(MarkKind::Comma)?;
        w.bare_name("factor")?;
        w.bare_mark(MarkKind::Colon)?;
        push_signed(w, number)?;
    }
    if let Some(number) = &decl.offset {
        w.bare_mark(MarkKind::Comma)?;
        w.bare_name("offset")?;
        w.bare_mark(MarkKind::Colon)?;
        push_signed(w, number)?;
    }
    w.bare_mark(MarkKind::CloseRound)?;
    w.line_end()
}

fn push_unit_bases(w: &mut Writer, decl: &UnitDecl) -> Result<(), AllocError>
    ensures { OnOk result (Writes w.old (unit_bases decl.now.bases (unit_end decl.now.factor decl.now.offset)) w.new) }
{
    push_commas(w, decl.bases.as_slice())?;
    push_unit_end(w, decl)
}

fn push_unit(w: &mut Writer, decl: &UnitDecl) -> Result<(), AllocError>
    ensures { OnOk result (Writes w.old (unit_declaration decl.now) w.new) }
{
    w.word(decl.place, WordKind::UnitWord)?;
    w.name(&decl.name)?;
    w.bare_word(WordKind::OfWord)?;
    w.name(&decl.of)?;
    w.bare_word(WordKind::IsWord)?;
    w.bare_name("SI")?;
    w.bare_mark(MarkKind::OpenRound)?;
    push_unit_bases(w, decl)
}

// Enums

impl Next for EnumItem {
    ghost tail = { items_tail };

    ghost ends = { refl };

    fn next(&self, w: &mut Writer) -> Result<(), AllocError> {
        w.bare_mark(MarkKind::Comma)?;
        self.item(w)
    }
}

impl Item for EnumItem {
    ghost item = { enum_item };

    fn item(&self, w: &mut Writer) -> Result<(), AllocError> {
        w.name(&self.name)?;
        if let Some(number) = &self.number {
            w.bare_mark(MarkKind::Assign)?;
            w.digits(number)?;
        }
        Ok(())
    }
}

fn push_items(w: &mut Writer, items: &[EnumItem]) -> Result<(), AllocError>
    ensures { OnOk result (Writes w.old (enum_items items.now) w.new) }
{
    w.bare_mark(MarkKind::OpenSquare)?;
    push_commas(w, items)?;
    w.bare_mark(MarkKind::CloseSquare)
}

fn push_enum(w: &mut Writer, decl: &EnumDecl) -> Result<(), AllocError>
    ensures { OnOk result (Writes w.old (enum_declaration decl.now) w.new) }
{
    w.word(decl.place, WordKind::EnumWord)?;
    w.name(&decl.name)?;
    w.bare_mark(MarkKind::Colon)?;
    push_items(w, decl.items.as_slice())?;
    w.line_end()
}

// Headings

fn push_qualified(w: &mut Writer, text: &QName) -> Result<(), AllocError>
    ensures { OnOk result (w.new ≡ wrote w.old (qualified_name text.now)) }
{
    w.name(&text.first)?;
    if let Some(second) = &text.second {
        w.bare_mark(MarkKind::Dot)?;
        w.name(second)?;
    }
    Ok(())
}

fn push_heir(w: &mut Writer, heir: &Option<Heir>) -> Result<(), AllocError>
    ensures { OnOk result (w.new ≡ wrote w.old (optional_heir heir.now)) }
{
    let Some(heir) = heir else { return Ok(()) };
    w.bare_word(WordKind::InheritsWord)?;
    push_qualified(w, &heir.base)?;
    if let Some(condition) = &heir.condition {
        w.bare_mark(MarkKind::OpenRound)?;
        w.name(&condition.field)?;
        w.bare_mark(MarkKind::Equal)?;
        match &condition.value {
            ConditionValue::Truth { place, value } => w.truth(*place, *value)?,
            ConditionValue::Name(text) => w.name(text)?,
            ConditionValue::EnumName { of, member } => enum_name(w, of, member)?,
        }
        w.bare_mark(MarkKind::CloseRound)?;
    }
    Ok(())
}

// Members

impl Next for Ident {
    ghost tail = { names_tail };

    ghost ends = { refl };

    fn next(&self, w: &mut Writer) -> Result<(), AllocError> {
        w.bare_mark(MarkKind::Comma)?;
        w.name(self)
    }
}

impl Item for Ident {
    ghost item = { λ n. ident n nil };

    fn item(&self, w: &mut Writer) -> Result<(), AllocError> {
        w.name(self)
    }
}

fn push_field(w: &mut Writer, tree: &FieldDecl) -> Result<(), AllocError>
    ensures { OnOk result (Writes w.old (field tree.now.names (field_tree tree.now)) w.new) }
{
    push_commas(w, tree.names.as_slice())?;
    w.bare_mark(MarkKind::Colon)?;
    push_field_type(w, tree)?;
    push_initial(w, &tree.initial)?;
    push_with(w, tree.rules.as_slice())
}

fn push_field_type(w: &mut Writer, tree: &FieldDecl) -> Result<(), AllocError>
    ensures { OnOk result (w.new ≡ wrote w.old (field_type tree.now.list tree.now.of)) }
{
    if let Some(place) = &tree.list {
        w.word(*place, WordKind::ListWord)?;
        w.bare_word(WordKind::OfWord)?;
    }
    w.name(&tree.of)
}

fn push_initial(w: &mut Writer, value: &Option<Expr>) -> Result<(), AllocError>
    ensures { OnOk result (Writes w.old (initial (option_map expr_tree value.now)) w.new) }
{
    if let Some(value) = value {
        w.bare_mark(MarkKind::Assign)?;
        push_expr(w, value)?;
    }
    Ok(())
}

impl Next for Member {
    ghost tail = { λ ms. members_tail (map member_tree ms) };

    ghost ends = { refl };

    fn next(&self, w: &mut Writer) -> Result<(), AllocError> {
        match self {
            Member::Field(field) => push_field(w, field),
            Member::Rule(rule) => push_rule(w, rule),
            Member::Do { place, phase } => {
                w.word(*place, WordKind::DoWord)?;
                push_phase(w, phase)
            }
        }
    }
}

fn push_block(w: &mut Writer, members: &[Member]) -> Result<(), AllocError>
    ensures { OnOk result (Writes w.old (block (map member_tree members.now)) w.new) }
{
    w.begin_block()?;
    push_rest(w, members)?;
    w.end_block()
}

fn push_body(w: &mut Writer, members: &[Member]) -> Result<(), AllocError>
    ensures { OnOk result (Writes w.old (body (map member_tree members.now)) w.new) }
{
    match members {
        [] => w.line_end(),
        [_, ..] => {
            w.bare_mark(MarkKind::Colon)?;
            push_block(w, members)
        }
    }
}

// Declarations

fn push_compound(w: &mut Writer, compound: &CompoundDecl) -> Result<(), AllocError>
    ensures { OnOk result (Writes w.old (compound_heading compound.now.kind (compound_tree compound.now)) w.new) }
{
    let kind = match compound.kind {
        CompoundKind::Struct => WordKind::StructWord,
        CompoundKind::Actor => WordKind::ActorWord,
        CompoundKind::Action => WordKind::ActionWord,
        CompoundKind::Scenario => WordKind::ScenarioWord,
    };
    w.word(compound.place, kind)?;
    push_qualified(w, &compound.name)?;
    push_heir(w, &compound.heir)?;
    push_body(w, compound.members.as_slice())
}

fn push_more(w: &mut Writer, more: &MemberExtension) -> Result<(), AllocError>
    ensures { OnOk result (Writes w.old (declaration (DeclarationTree.MemberExtension (more_tree more.now))) w.new) }
{
    w.word(more.place, WordKind::ExtendWord)?;
    push_qualified(w, &more.name)?;
    w.bare_mark(MarkKind::Colon)?;
    push_block(w, more.members.as_slice())
}

fn push_more_items(w: &mut Writer, more: &EnumExtension) -> Result<(), AllocError>
    ensures { OnOk result (Writes w.old (declaration (DeclarationTree.EnumExtension more.now)) w.new) }
{
    w.word(more.place, WordKind::ExtendWord)?;
    push_qualified(w, &more.name)?;
    w.bare_mark(MarkKind::Colon)?;
    push_items(w, more.items.as_slice())?;
    w.line_end()
}

impl Next for Declaration {
    ghost tail = { λ ds. declarations (map declaration_tree ds) };

    ghost ends = { refl };

    fn next(&self, w: &mut Writer) -> Result<(), AllocError> {
        match self {
            Declaration::Physical(decl) => push_type(w, decl),
            Declaration::Unit(decl) => push_unit(w, decl),
            Declaration::Enum(decl) => push_enum(w, decl),
            Declaration::Compound(decl) => push_compound(w, decl),
            Declaration::MemberExtension(more) => push_more(w, more),
            Declaration::EnumExtension(more) => push_more_items(w, more),
        }
    }
}
