ghost use Rattle.std.specs.Prelude.{◌≡◌, map, IfOk, OnOk};
ghost use Rattle.names_rules.specs.Verdict.{Stands, after};
ghost use Rattle.pawn_tree.specs.View.{item_view};
ghost use Rattle.types_rules.specs.Points as points;
ghost use Rattle.types_rules.specs.Declarations as spec;
ghost use Rattle.types_rules.specs.Enums as enums;
ghost use Rattle.check_nodes.specs.ContextView.{around_view};
ghost use Rattle.check_locals.specs.PointView.{point_view};
ghost use Rattle.check_locals.specs.Tells.{Tells};
ghost use Rattle.check_declarations.specs.DoneView.{done_view};

use super::done_declarations::Done;
use check_heads::{declare_enum, enumeration};
use check_locals::{Point, tag_of, told};
use check_nodes::Context;
use pawn_base::{List, Memory};
use pawn_tree::{At, Item, Name};
use pawn_verdict::CheckFault;
use std::alloc::Global;

/// An enumeration with what is known around it.
#[derive(Clone, Copy)]
pub struct EnumAt<'e, 'a> {
    pub alloc: Global,
    pub cx: &'e Context,
    pub at: At,
    pub name: &'a Option<Name>,
    pub items: &'a [Item],
}

impl<'e, 'a> EnumAt<'e, 'a> {
    /// It is declared, whether it stands or not.
    ///
    /// # Errors
    ///
    /// `Memory` for want of memory.
    pub fn declare(&self, point: &mut Point<'a>) -> Result<(), Memory>
        ensures { OnOk result (point_view point.new ≡ record (point_view point.old) {
          scope = enums.behind_enum (around_view self.now.cx.now) (point_view point.old).scope
              self.now.at (points.tag_of (around_view self.now.cx.now) self.now.name.now)
              self.now.name.now (map item_view self.now.items.now);
        }) }
    {
        declare_enum(
            self.alloc,
            self.cx,
            &mut point.scopes,
            self.at,
            tag_of(self.cx, self.name),
            self.name,
            self.items,
        )
    }

    /// What it warns of, told.
    fn tell(&self, point: &mut Point<'a>) -> Result<Option<List<At>>, CheckFault>
        ensures tells { Tells (λ warned. warned) (enums.enum_rule (around_view self.now.cx.now)
            (point_view point.old).scope self.now.at
            (points.tag_of (around_view self.now.cx.now) self.now.name.now)
            (map item_view self.now.items.now)) result }
        ensures behind { IfOk result (λ it. point_view point.new ≡ record (point_view point.old) {
          scope = enums.behind_enum (around_view self.now.cx.now) (point_view point.old).scope
              self.now.at (points.tag_of (around_view self.now.cx.now) self.now.name.now)
              self.now.name.now (map item_view self.now.items.now);
        }) }
    {
        let tag = tag_of(self.cx, self.name);
        let scopes = &mut point.scopes;
        let result = enumeration(
            self.alloc, self.cx, scopes, self.at, tag, self.name, self.items,
        );
        told(result)
    }

    /// What it makes; it stays declared. None where it falls.
    ///
    /// # Errors
    ///
    /// What breaks a rule in it.
    #[tactic(auto, using(check_locals::proofs::ToldLaws::parts))]
    pub fn judge(&self, point: &mut Point<'a>) -> Result<Option<Done>, CheckFault>
        ensures tells { Tells done_view (after (enums.enum_rule (around_view self.now.cx.now)
            (point_view point.old).scope self.now.at
            (points.tag_of (around_view self.now.cx.now) self.now.name.now)
            (map item_view self.now.items.now)) (λ warned. Stands (spec.warning warned))) result }
        ensures behind { IfOk result (λ it. point_view point.new ≡ record (point_view point.old) {
          scope = enums.behind_enum (around_view self.now.cx.now) (point_view point.old).scope
              self.now.at (points.tag_of (around_view self.now.cx.now) self.now.name.now)
              self.now.name.now (map item_view self.now.items.now);
        }) }
    {
        let warned = self.tell(point)?;
        let Some(warned) = warned else {
            return Ok(None);
        };
        Ok(Some(Done::warning(self.alloc, warned)))
    }
}
