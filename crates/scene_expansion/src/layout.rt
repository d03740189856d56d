//! What the expansion reads of a program, work by work.

ghost use Rattle.std.specs.Prelude.{◌≡◌, ◌++◌, map, option_copied, IfOk, OnOk};
ghost use Rattle.program_calls.specs.type_heads.Members.{body};
ghost use Rattle.program_calls.specs.composition.Expanded.{occurrence_of};
ghost use Rattle.program_calls.specs.composition.SceneFaults.{named_scenario};
ghost use Rattle.program_calls.specs.composition.SeenParts.{seen_binding, seen_modifier, seen_occurrence, seen_spot};
ghost use Rattle.program_calls.specs.composition.SeenScenes.{seen_scene};
ghost use Rattle.scene_texts.specs.expansion_laws.WorkNodes.{node_of, root_node};
ghost use Rattle.scene_texts.specs.expansion_laws.Works.{parts_of, root_works};
ghost use Rattle.scene_expansion.specs.AllCounts.{counts_of};
ghost use Rattle.scene_expansion.specs.SeenWorks.{seen_work};
ghost use Rattle.scene_expansion.specs.Walks.{modifier_at};

use crate::counts::Counts;
use crate::work::Work;
use osc_base::{Place, Row};
use program_calls::{Binding, ModifierSpot, Occurrence, Scene, Spot, TextTable, TypeId};
use std::alloc::{AllocError, Global};

/// The works of a program, and how much each comes to.
pub trait WorkLayout<'p> {
    ghost use Rattle.program_calls.specs.type_heads.Types.{Types};

    ghost types: { Self → Types };

    /// The scenario of that name, with its owner if it has one.
    fn scenario(&self, owner: Option<&str>, name: &str) -> Option<TypeId>
        ensures { result ≡ named_scenario (types self.now) (option_copied owner.entry) name.now };

    /// Where the name of a type stands.
    fn place(&self, of: TypeId) -> Place
        ensures { result ≡ (body (types self.now).bodies of).place };

    /// The named scenario as a work, but for its parts.
    fn root(&self, alloc: Global, of: TypeId) -> Result<Work<'p>, AllocError>
        ensures { IfOk result (λ w. node_of (types self.now) (seen_work w) ≡ root_node (types self.now) of) };

    /// The works in the named scenario, with an actor of its own if it is owned.
    fn root_parts(&self, alloc: Global, of: TypeId) -> Result<Vec<Work<'p>>, AllocError>
        ensures { IfOk result (λ ws. map seen_work ws.items ≡ root_works (types self.now) of) };

    /// The works in a work, in order.
    fn parts(&self, alloc: Global, work: &Work<'p>) -> Result<Vec<Work<'p>>, AllocError>
        ensures { IfOk result (λ ws. map seen_work ws.items ≡ parts_of (types self.now) (seen_work work.now)) };

    /// How many objects, slots, rules and tokens a work has by itself, given the last tick.
    fn counts(&self, alloc: Global, work: &Work<'p>, last: u32) -> Result<Counts, AllocError>
        ensures { IfOk result (λ c. c ≡ counts_of last (node_of (types self.now) (seen_work work.now))) };
}

/// What the works of a program hold.
pub trait Layout<'p>: WorkLayout<'p> {
    /// The spot of a work.
    fn spot(&self, alloc: Global, work: &Work<'p>) -> Result<Spot, AllocError>
        ensures { IfOk result (λ s. seen_spot s ≡ (node_of (Self.types self.now) (seen_work work.now)).spot) };

    /// Puts the bindings that a work makes at the end.
    fn push_bindings(
        &self,
        alloc: Global,
        bindings: &mut Row<Binding>,
        work: &Work<'p>,
    ) -> Result<(), AllocError>
        ensures { OnOk result (map seen_binding bindings.new ≡ map seen_binding bindings.old ++ (node_of (Self.types self.now) (seen_work work.now)).bindings) };

    /// Puts the constraints of a work at the end, with their paths at their homes in the scene.
    fn push_occurrences(
        &self,
        alloc: Global,
        scene: &Scene,
        occurrences: &mut Vec<Occurrence>,
        work: &Work<'p>,
    ) -> Result<(), AllocError>
        ensures { OnOk result (map seen_occurrence occurrences.new.items ≡ map seen_occurrence occurrences.old.items ++ map (occurrence_of (seen_scene scene.now).bindings) (node_of (Self.types self.now) (seen_work work.now)).given) };

    /// Puts the modifiers of a work at the end, with their paths at their homes in the scene.
    fn push_modifiers(
        &self,
        alloc: Global,
        scene: &Scene,
        modifiers: &mut Vec<ModifierSpot>,
        work: &Work<'p>,
    ) -> Result<(), AllocError>
        ensures { OnOk result (map seen_modifier modifiers.new.items ≡ map seen_modifier modifiers.old.items ++ map (modifier_at (seen_scene scene.now).bindings) (node_of (Self.types self.now) (seen_work work.now)).modifiers) };

    /// The texts that a field of type `string` may hold.
    fn texts(&self, alloc: Global) -> Result<TextTable, AllocError>
        ensures { IfOk result (λ ts. ts ≡ (Self.types self.now).table.texts) };
}
