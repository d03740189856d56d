//! The faults of the `do` of a scenario.

ghost use Rattle.std.specs.Prelude.{◌≡◌, ◌||◌, ◌++◌, List, [], ◌∷◌, false, map, not};
ghost use Rattle.std.specs.List.{cons_option};
ghost use Rattle.type_members.specs.osc_base.FaultRows.{first_from, row};
ghost use Rattle.type_members.specs.type_heads.Seen.{seen_form};
ghost use Rattle.type_members.specs.type_heads.Table.{is_scenario};
ghost use Rattle.type_members.specs.type_heads.Types.{Do};
ghost use Rattle.type_members.specs.type_heads.Members.{do_declared};
ghost use Rattle.type_members.specs.type_heads.MemberFaults.{do_rows};
ghost use Rattle.type_members.specs.Listed.{seen_listed, seen_row};
ghost use Rattle.type_members.specs.Shared.{fronts_in, members_at, members_in_parts, under_inside};
ghost use Rattle.member_faults.specs.RowFacts.{dos_among};

use dsl_tree::Member;
use name_scope::with_fault;
use osc_base::{Fault, FaultCode, Place};
use type_heads::Form;
use type_members::{ListedMember, MemberLists, Part, Span};

/// Faults of a `do`, under a conditional subtype or not, that is the first or a later one.
fn with_do(
    first: Option<Fault>,
    form: Form<'_>,
    place: Place,
    is_under: bool,
    is_later: bool,
) -> Option<Fault>
    ensures { result ≡ first_from first (row place FaultCode.WrongKind (not (is_scenario (seen_form form.entry)) || is_under) ∷ row place FaultCode.TwoDo is_later ∷ []) }
{
    let is_wrong = !form.is_scenario() || is_under;
    let first = with_fault(first, place, FaultCode::WrongKind, is_wrong);
    with_fault(first, place, FaultCode::TwoDo, is_later)
}

/// The first fault so far, and whether a `do` was met.
#[derive(Clone, Copy)]
pub struct AfterDos {
    pub first: Option<Fault>,
    pub is_later: bool,
}

/// Faults of a member that is a `do`. `inside` is how many of the outermost conditions are met already.
fn with_listed_do(
    form: Form<'_>,
    so_far: AfterDos,
    listed: &ListedMember<'_>,
    inside: usize,
) -> AfterDos
    ensures { (later : List Do) → first_from so_far.first (do_rows (seen_form form.entry) so_far.is_later (cons_option (do_declared (under_inside inside (seen_listed listed.now)) (seen_listed listed.now).written.member) later)) ≡ first_from result.first (do_rows (seen_form form.entry) result.is_later later) }
{
    match listed.written.member {
        Member::Do { place, phase: _ } => {
            let is_under = !listed.under_inside(inside).is_empty();
            AfterDos {
                first: with_do(so_far.first, form, *place, is_under, so_far.is_later),
                is_later: true,
            }
        }
        Member::Field(_) | Member::Rule(_) => so_far,
    }
}

/// Faults of each `do` among further members of a type of this form.
/// `inside` is how many of the outermost conditions are met already.
pub fn with_dos(
    form: Form<'_>,
    so_far: AfterDos,
    members: &[ListedMember<'_>],
    inside: usize,
) -> AfterDos
    ensures { (later : List Do) → first_from so_far.first (do_rows (seen_form form.entry) so_far.is_later (dos_among (map (under_inside inside) (map seen_listed members.now)) ++ later)) ≡ first_from result.first (do_rows (seen_form form.entry) result.is_later later) }
{
    let mut after = so_far;
    for listed in members {
        after = with_listed_do(form, after, listed, inside);
    }
    after
}

/// Faults of each `do` in some parts more.
fn with_parts(form: Form<'_>, so_far: AfterDos, lists: &MemberLists<'_>, parts: &[Part]) -> AfterDos
    ensures { (later : List Do) → first_from so_far.first (do_rows (seen_form form.entry) so_far.is_later (dos_among (members_in_parts (map seen_row lists.now.rows.items) parts.now) ++ later)) ≡ first_from result.first (do_rows (seen_form form.entry) result.is_later later) }
{
    let mut after = so_far;
    for part in parts {
        after = with_dos(form, after, lists.part(part), part.inside);
    }
    after
}

/// Faults of each `do` among the members at a place, in a type of this form.
pub fn with_all_dos(
    first: Option<Fault>,
    form: Form<'_>,
    lists: &MemberLists<'_>,
    span: &Span,
) -> Option<Fault>
    ensures { result ≡ first_from first (do_rows (seen_form form.entry) false (dos_among (members_at (fronts_in lists.now.rows.items) (map seen_row lists.now.rows.items) span.now))) }
{
    let so_far = AfterDos {
        first,
        is_later: false,
    };
    let after = with_parts(form, so_far, lists, lists.front(span.row));
    with_dos(form, after, lists.own(span), 0).first
}
