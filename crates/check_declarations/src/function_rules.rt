ghost use Rattle.std.specs.Prelude.{◌≡◌, ◌+◌, None, false, unwrap_or, IfErr, IfOk};
ghost use Rattle.names_rules.specs.Verdict.{Stands, after, faults_of};
ghost use Rattle.pawn_tree.specs.View.{function_view, head_view, stmt_view};
ghost use Rattle.types_rules.specs.Rule.{pair};
ghost use Rattle.types_rules.specs.Counts.{objects_in as objects_of};
ghost use Rattle.types_rules.specs.Points.{beyond};
ghost use Rattle.types_rules.specs.Points as points;
ghost use Rattle.types_rules.specs.Statements.{stmt as stmt_rule};
ghost use Rattle.types_rules.specs.Params as heads;
ghost use Rattle.types_rules.specs.Groups.{number_of};
ghost use Rattle.types_rules.specs.Declarations as spec;
ghost use Rattle.pawn_verdict.specs.Answers.{Fails};
ghost use Rattle.check_nodes.specs.ContextView.{around_view};
ghost use Rattle.check_nodes.specs.Scopes.{outer_of, scope_view};
ghost use Rattle.check_source.specs.AutomataView.{automata_view};
ghost use Rattle.check_source.specs.KeyView.{key_view};
ghost use Rattle.check_expressions.specs.JudgedView.{judged_view};
ghost use Rattle.check_heads.specs.HeadedView.{headed_view};
ghost use Rattle.check_locals.specs.StoodView.{stood_view};
ghost use Rattle.check_locals.specs.PointView.{point_view};
ghost use Rattle.check_locals.specs.Tells.{Tells, told as plain_told};
ghost use Rattle.check_declarations.specs.DoneView.{done_view};
ghost use Rattle.check_declarations.specs.KnownView.{body_verdict, source_view};

use super::done_declarations::Done;
use super::function_bodies::function_joined;
use super::keys::{native_name, shaped_key};
use super::known::Known;
use super::slots::param_count;
use check_heads::{Headed, head_rule, judge_head};
use check_locals::{Point, Stood, tag_of, told};
use check_nodes::Context;
use check_source::{Key, key_of, states_of};
use check_statements::{Setting, stmt};
use pawn_tree::{At, Function, Head};
use pawn_verdict::CheckFault;
use std::alloc::Global;

// ---- heads

/// What a head warns of, where it stands.
fn head_done(alloc: Global, head: Option<Headed>) -> Option<Done>
    ensures { plain_told done_view result ≡ after (plain_told headed_view head)
        (λ it. Stands (spec.warning it.warned)) }
{
    match head {
        None => None,
        Some(it) => Some(Done::warning(alloc, it.warned)),
    }
}

/// A head with what is known around it.
#[derive(Clone, Copy)]
struct HeadAt<'h, 'a> {
    alloc: Global,
    cx: &'h Context,
    at: At,
    head: &'a Head,
}

impl<'h, 'a> HeadAt<'h, 'a> {
    /// The expressions in a head, whose block is left open for the body.
    fn open(&self, point: &mut Point<'a>) -> Result<Option<()>, CheckFault>
        ensures tells { Tells judged_view (heads.head_parts (around_view self.now.cx.now)
            self.now.at (point_view point.old).scope (head_view self.now.head.now)) result }
        ensures scope { IfOk result (λ it. scope_view point.new.scopes ≡ heads.in_body
            (around_view self.now.cx.now) self.now.at (point_view point.old).scope
            (head_view self.now.head.now)) }
        ensures outer { IfOk result (λ it. outer_of point.new.scopes ≡ point.old.scopes) }
        ensures objects { point.new.objects ≡ point.old.objects }
        ensures slots { point.new.slots ≡ point.old.slots }
    {
        let result = judge_head(self.alloc, self.cx, &mut point.scopes, self.at, self.head);
        told(result)
    }

    /// The expressions in a head without a body.
    fn judge(&self, point: &mut Point<'a>) -> Result<Option<()>, CheckFault>
        ensures tells { Tells judged_view (heads.head_parts (around_view self.now.cx.now)
            self.now.at (point_view point.old).scope (head_view self.now.head.now)) result }
        ensures behind { IfOk result (λ it. point_view point.new ≡ point_view point.old) }
    {
        let it = self.open(point)?;
        point.leave();
        Ok(it)
    }
}

/// What a head is.
fn head_told<'a>(
    alloc: Global,
    cx: &Context,
    point: &mut Point<'a>,
    at: At,
    head: &'a Head,
) -> Result<Option<Headed>, CheckFault>
    ensures tells { Tells headed_view (heads.head_rule (around_view cx.now) at
        (point_view point.old).scope (head_view head.now)) result }
    ensures behind { IfOk result (λ it. point_view point.new ≡ point_view point.old) }
{
    let result = head_rule(alloc, cx, &mut point.scopes, at, head);
    told(result)
}

/// A head without a body; None where it falls.
///
/// # Errors
///
/// What breaks a rule in an expression of the head, and what breaks one in a parameter.
#[tactic(auto, using(check_locals::proofs::ToldLaws::parts))]
fn bare_head<'a>(
    known: &Known,
    point: &mut Point<'a>,
    at: At,
    head: &'a Head,
) -> Result<Option<Done>, CheckFault>
    ensures tells { Tells done_view (spec.bare_head (source_view known.now)
        (around_view known.now.cx.now) (point_view point.old) at (head_view head.now)) result }
    ensures behind { IfOk result (λ it. point_view point.new ≡ point_view point.old) }
{
    let alloc = known.alloc;
    let cx = known.cx;
    let written = HeadAt {
        alloc,
        cx,
        at,
        head,
    };
    written.judge(point)?;
    let it = head_told(alloc, cx, point, at, head)?;
    Ok(head_done(alloc, it))
}

/// A function that is declared here and defined elsewhere; None where it falls.
///
/// # Errors
///
/// 66 for an operator that no operator may be, and those of the head.
#[tactic(auto, using(check_locals::proofs::ToldLaws::parts))]
pub fn forward_rule<'a>(
    known: &Known<'a>,
    point: &mut Point<'a>,
    at: At,
    head: &'a Head,
) -> Result<Option<Done>, CheckFault>
    ensures tells { Tells done_view (spec.forward_rule (source_view known.now)
        (around_view known.now.cx.now) (point_view point.old) at (head_view head.now)) result }
    ensures behind { IfOk result (λ it. point_view point.new ≡ point_view point.old) }
{
    let it = bare_head(known, point, at, head)?;
    let Some(it) = it else {
        return Ok(None);
    };
    shaped_key(at, key_of(&known.cx.tags, known.fallback, head, None))?;
    Ok(Some(it))
}

/// A native; None where it falls.
///
/// # Errors
///
/// 66 for an operator, and those of the head.
#[tactic(auto, using(check_locals::proofs::ToldLaws::parts))]
pub fn native_rule<'a>(
    known: &Known,
    point: &mut Point<'a>,
    at: At,
    head: &'a Head,
) -> Result<Option<Done>, CheckFault>
    ensures tells { Tells done_view (spec.native_rule (source_view known.now)
        (around_view known.now.cx.now) (point_view point.old) at (head_view head.now)) result }
    ensures behind { IfOk result (λ it. point_view point.new ≡ point_view point.old) }
{
    let it = bare_head(known, point, at, head)?;
    let Some(it) = it else {
        return Ok(None);
    };
    native_name(at, &head.name)?;
    Ok(Some(it))
}

// ---- functions

/// What the expressions in the head of a function, and its body, are.
#[derive(Drop)]
struct Halves {
    head: Option<()>,
    body: Option<Stood>,
}

/// The body of a function, in the block of its head, which is left; so many slots stood before.
fn body_rule<'a>(
    known: &Known,
    point: &mut Point<'a>,
    before: u32,
    it: &'a Function,
) -> Result<Option<Stood>, CheckFault>
    ensures tells { Tells stood_view (stmt_rule (around_view known.now.cx.now)
        (automata_view known.now.automata.now)
        (points.tag_of (around_view known.now.cx.now) it.now.head.tag)
        (point_view point.old) false (stmt_view it.now.body)) result }
    ensures scope { IfOk result (λ x. scope_view point.new.scopes
        ≡ scope_view (outer_of point.old.scopes)) }
    ensures objects { IfOk result (λ x. point.new.objects
        ≡ point.old.objects + objects_of (stmt_view it.now.body)) }
    ensures slots { IfOk result (λ x. point.new.slots ≡ before) }
{
    let setting = Setting {
        alloc: known.alloc,
        cx: known.cx,
        automata: known.automata,
        result: tag_of(known.cx, &it.head.tag),
    };
    let body = stmt(&it.body, &setting, point, false)?;
    point.leave();
    point.slots = before;
    Ok(body)
}

/// The head and the body of a function, each by itself.
#[tactic(auto, using(check_locals::proofs::ToldLaws::parts))]
fn both_halves<'a>(
    known: &Known,
    point: &mut Point<'a>,
    at: At,
    it: &'a Function,
) -> Result<Halves, CheckFault>
    ensures head { IfOk result (λ x. heads.head_parts (around_view known.now.cx.now) at
        (point_view point.old).scope (function_view it.now).head
        ≡ plain_told judged_view x.head) }
    ensures body { IfOk result (λ x. body_verdict known.now (point_view point.old) at
        (function_view it.now) ≡ plain_told stood_view x.body) }
    ensures fault { IfErr result (λ fault. Fails (faults_of (pair
        (heads.head_parts (around_view known.now.cx.now) at
        (point_view point.old).scope (function_view it.now).head)
        (body_verdict known.now (point_view point.old) at (function_view it.now)))) fault) }
    ensures behind { IfOk result (λ x. point_view point.new ≡ beyond (point_view point.old)
        (objects_of (function_view it.now).body) 0) }
{
    let before = point.slots;
    let written = HeadAt {
        alloc: known.alloc,
        cx: known.cx,
        at,
        head: &it.head,
    };
    let head = written.open(point)?;
    point.slots = param_count(it.head.params.as_slice())?;
    let body = body_rule(known, point, before, it)?;
    Ok(Halves { head, body })
}

/// The number of the function with a key, which each body has.
fn number_in(known: &Known, key: Key) -> u32
    ensures { result ≡ unwrap_or (number_of (source_view known.now).groups (key_view key.entry)) 0 }
{
    known.groups.number_of(key).unwrap_or(0)
}

/// A function with its body, by its key.
fn function_with<'a>(
    known: &Known,
    point: &mut Point<'a>,
    at: At,
    it: &'a Function,
    key: Key,
) -> Result<Option<Done>, CheckFault>
    ensures tells { Tells done_view (spec.function_with (source_view known.now)
        (around_view known.now.cx.now) (point_view point.old) at (function_view it.now)
        (key_view key.entry)) result }
    ensures behind { IfOk result (λ x. point_view point.new ≡ beyond (point_view point.old)
        (objects_of (function_view it.now).body) 0) }
{
    let alloc = known.alloc;
    let parts = both_halves(known, point, at, it)?;
    let head = head_told(alloc, known.cx, point, at, &it.head)?;
    let number = number_in(known, key);
    function_joined(alloc, number, at, head, parts.body)
}

/// A function with its body (Language Guide, "Functions"); None where it falls.
///
/// # Errors
///
/// What breaks a rule in the head or the body; 66 for an operator that no operator may be, 68 for
/// locals beyond the limit.
#[tactic(auto, using(check_locals::proofs::ToldLaws::parts))]
pub fn function_rule<'a>(
    known: &Known<'a>,
    point: &mut Point<'a>,
    at: At,
    it: &'a Function,
) -> Result<Option<Done>, CheckFault>
    ensures tells { Tells done_view (spec.function_rule (source_view known.now)
        (around_view known.now.cx.now) (point_view point.old) at (function_view it.now)) result }
    ensures behind { IfOk result (λ x. point_view point.new ≡ beyond (point_view point.old)
        (objects_of (function_view it.now).body) 0) }
{
    let key = key_of(&known.cx.tags, known.fallback, &it.head, states_of(it));
    let done = function_with(known, point, at, it, key)?;
    let Some(done) = done else {
        return Ok(None);
    };
    shaped_key(at, key)?;
    Ok(Some(done))
}
