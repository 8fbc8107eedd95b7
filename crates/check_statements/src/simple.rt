ghost use Rattle.std.specs.Prelude.{◌≡◌, [], ◌∷◌, pos, false, true, map, option_map, IfOk};
ghost use Rattle.pawn_meaning.specs.Program as code;
ghost use Rattle.names_rules.specs.Verdict.{Stands, after};
ghost use Rattle.pawn_tree.specs.View.{expr_view};
ghost use Rattle.types_rules.specs.Tests.{sent};
ghost use Rattle.types_rules.specs.Literals.{literals};
ghost use Rattle.types_rules.specs.Counts.{literals_of};
ghost use Rattle.types_rules.specs.Points.{beyond};
ghost use Rattle.types_rules.specs.States as states;
ghost use Rattle.types_rules.specs.Statements as spec;
ghost use Rattle.types_rules.specs.Stood.{stood};
ghost use Rattle.check_nodes.specs.CodeView.{code_view};
ghost use Rattle.check_nodes.specs.ContextView.{around_view};
ghost use Rattle.check_source.specs.AutomataView.{automata_view};
ghost use Rattle.check_locals.specs.PointView.{point_view};
ghost use Rattle.check_locals.specs.Tells.{Tells};
ghost use Rattle.check_locals.specs.StoodView.{stood_view, used_view};
ghost use Rattle.check_statements.specs.SimpleJudging.{perhaps_in, returned_in};
ghost use Rattle.check_statements.specs.SimpleJudging.{value_in, value_or_zero_in};

use super::setting::Setting;
use super::states::reached;
use super::values::{perhaps, value, value_or_zero};
use check_locals::{
    Outcome, Point, Stood, Used, assert_rule, do_rule, exit_rule, return_rule, sleep_rule,
    state_rule,
};
use check_nodes::{Made, send};
use pawn_base::Memory;
use pawn_meaning::Expr as Code;
use pawn_tree::{At, Expr, StateName};
use std::alloc::Global;

/// A value that is sent to the function's result.
fn return_sent(setting: &Setting, at: At, x: Used) -> Result<Stood, Memory>
    ensures { IfOk result (λ it. stood_view it ≡ spec.return_sent at (used_view x)
        (sent (around_view setting.now.cx.now) (setting.now.result ∷ []) x.tag x.at
        (code_view x.expr))) }
{
    let it = send(setting.alloc, setting.cx, &[setting.result], x.tag, x.expr)?;
    let made = x.made.tested_first(setting.alloc, it.passed, x.at)?;
    return_rule(setting.alloc, at, true, it.code, made)
}

/// A `return` without a value.
fn bare_return(alloc: Global, at: At) -> Outcome
    ensures { Tells stood_view
        (Stands (spec.return_rule at false (code.Const (pos 0)) [] [])) result }
{
    let made = Made::nothing(alloc);
    let zero = Box::new(alloc, Code::Const(0))?;
    Ok(Some(return_rule(alloc, at, false, zero, made)?))
}

impl<'c> Setting<'c> {
    /// An expression whose value isn't used (Language Guide, "Statements").
    ///
    /// # Errors
    ///
    /// 54 for an array, and what breaks a rule in it.
    #[tactic(auto, using(check_locals::proofs::ToldLaws::parts))]
    pub fn do_stmt(&self, point: &mut Point, at: At, e: &Expr) -> Outcome
        ensures tells { Tells stood_view
            (after (value_in self.now (point_view point.old) at (expr_view e.now))
            (λ x. Stands (spec.do_rule x))) result }
        ensures behind { IfOk result (λ it. point_view point.new ≡
            beyond (point_view point.old) (literals (expr_view e.now)) 0) }
    {
        let it = value(self, point, at, e)?;
        let Some(it) = it else {
            return Ok(None);
        };
        Ok(Some(do_rule(self.alloc, it)?))
    }

    /// A condition that has to hold.
    ///
    /// # Errors
    ///
    /// 54 for an array, and what breaks a rule in it.
    #[tactic(auto, using(check_locals::proofs::ToldLaws::parts))]
    pub fn assert_stmt(&self, point: &mut Point, at: At, e: &Expr) -> Outcome
        ensures tells { Tells stood_view
            (after (value_in self.now (point_view point.old) at (expr_view e.now))
            (λ x. Stands (stood (code.Assert x.expr ∷ []) x.objects x.warned))) result }
        ensures behind { IfOk result (λ it. point_view point.new ≡
            beyond (point_view point.old) (literals (expr_view e.now)) 0) }
    {
        let it = value(self, point, at, e)?;
        let Some(it) = it else {
            return Ok(None);
        };
        Ok(Some(assert_rule(self.alloc, it)?))
    }

    /// The end of the run.
    ///
    /// # Errors
    ///
    /// 54 for an array, and what breaks a rule in it.
    #[tactic(auto, using(check_locals::proofs::ToldLaws::parts))]
    pub fn exit_stmt(&self, point: &mut Point, at: At, e: &Option<Expr>) -> Outcome
        ensures tells { Tells stood_view
            (after (value_or_zero_in self.now (point_view point.old) at
            (option_map expr_view e.now))
            (λ x. Stands (stood (code.Exit x.expr x.tag ∷ []) x.objects x.warned))) result }
        ensures behind { IfOk result (λ it. point_view point.new ≡
            beyond (point_view point.old) (literals_of (option_map expr_view e.now)) 0) }
    {
        let it = value_or_zero(self, point, at, e)?;
        let Some(it) = it else {
            return Ok(None);
        };
        Ok(Some(exit_rule(self.alloc, it)?))
    }

    /// A sleep.
    ///
    /// # Errors
    ///
    /// 54 for an array, and what breaks a rule in it.
    #[tactic(auto, using(check_locals::proofs::ToldLaws::parts))]
    pub fn sleep_stmt(&self, point: &mut Point, at: At, e: &Option<Expr>) -> Outcome
        ensures tells { Tells stood_view
            (after (value_or_zero_in self.now (point_view point.old) at
            (option_map expr_view e.now))
            (λ x. Stands (stood (code.Sleep x.expr x.tag ∷ []) x.objects x.warned))) result }
        ensures behind { IfOk result (λ it. point_view point.new ≡
            beyond (point_view point.old) (literals_of (option_map expr_view e.now)) 0) }
    {
        let it = value_or_zero(self, point, at, e)?;
        let Some(it) = it else {
            return Ok(None);
        };
        Ok(Some(sleep_rule(self.alloc, it)?))
    }

    /// A `return` of a value.
    #[tactic(auto, using(check_locals::proofs::ToldLaws::parts))]
    fn return_value(&self, point: &mut Point, at: At, e: &Expr) -> Outcome
        ensures tells { Tells stood_view
            (after (value_in self.now (point_view point.old) at (expr_view e.now))
            (λ x. Stands (spec.return_sent at x (sent (around_view self.now.cx.now)
            (self.now.result ∷ []) x.tag x.at x.expr)))) result }
        ensures behind { IfOk result (λ it. point_view point.new ≡
            beyond (point_view point.old) (literals (expr_view e.now)) 0) }
    {
        let it = value(self, point, at, e)?;
        let Some(it) = it else {
            return Ok(None);
        };
        Ok(Some(return_sent(self, at, it)?))
    }

    /// A `return`, whose value is sent to the function's result.
    ///
    /// # Errors
    ///
    /// 54 for an array, and what breaks a rule in it.
    pub fn return_stmt(&self, point: &mut Point, at: At, e: &Option<Expr>) -> Outcome
        ensures tells { Tells stood_view
            (returned_in self.now (point_view point.old) at (option_map expr_view e.now)) result }
        ensures behind { IfOk result (λ it. point_view point.new ≡
            beyond (point_view point.old) (literals_of (option_map expr_view e.now)) 0) }
    {
        match e {
            None => bare_return(self.alloc, at),
            Some(e) => self.return_value(point, at, e),
        }
    }

    /// A change of state (Language Guide, "Automata").
    ///
    /// # Errors
    ///
    /// 40 where no such automaton is known, 41 where it has no such state, 54 for an array as the
    /// condition, and what breaks a rule in that.
    #[tactic(auto, using(check_locals::proofs::ToldLaws::parts))]
    pub fn state_stmt(
        &self,
        point: &mut Point,
        at: At,
        c: &Option<Expr>,
        name: &StateName,
    ) -> Outcome
        ensures tells { Tells stood_view
            (after (perhaps_in self.now (point_view point.old) at (option_map expr_view c.now))
            (λ x. after (states.reached (automata_view self.now.automata.now) at name.now)
            (λ it. Stands (spec.state_rule it x)))) result }
        ensures behind { IfOk result (λ it. point_view point.new ≡
            beyond (point_view point.old) (literals_of (option_map expr_view c.now)) 0) }
    {
        let c = perhaps(self, point, at, c)?;
        let Some(c) = c else {
            return Ok(None);
        };
        let it = reached(self.automata, at, name)?;
        Ok(Some(state_rule(self.alloc, it.automaton, it.state, c)?))
    }
}
