ghost use Rattle.std.specs.Prelude.{◌≡◌, ◌++◌, ◌∷◌, ℤ, List as ListOf};
ghost use Rattle.std.specs.Prelude.{map, option_map, IfOk, OnOk};
ghost use Rattle.names_rules.specs.Around.{Around as PlainAround};
ghost use Rattle.names_rules.specs.Faults as faults;
ghost use Rattle.names_rules.specs.Found as found;
ghost use Rattle.names_rules.specs.Known as plain_known;
ghost use Rattle.names_rules.specs.Mark as plain;
ghost use Rattle.names_rules.specs.Overloads as overloads;
ghost use Rattle.names_rules.specs.Uses as spec_uses;
ghost use Rattle.names_rules.specs.Values as spec_values;
ghost use Rattle.names_rules.specs.Verdict.{Verdict};
ghost use Rattle.names_sight.specs.MarkView.{declaration_view, mark_view, sort_view, use_view};
ghost use Rattle.pawn_verdict.specs.Answers.{Answers};
ghost use Rattle.names_sight.specs.Means.{around_view, means_view};
ghost use Rattle.names_sight.specs.Scopes as scopes;
ghost use Rattle.names_sight.specs.Views.{kind_view, size_view};
ghost use Rattle.names_sight.specs.Narrower.{AreNarrower};
ghost use Rattle.pawn_names.specs.Behind.{IsBehind, Comes};
ghost use Rattle.pawn_names.specs.DeclaredKind.{AnswersKind};
ghost use Rattle.pawn_names.specs.StepAnswers.{AnswersToken, Passes};

use names_sight::{
    Context, Declaration, Kind, Known, Mark, Size, Sort, TWICE, UNKNOWN, Use, constant_value,
    name_worth, parameter_sizes, tag_number, variable_sizes,
};
use pawn_base::{Bytes, List, Memory};
use pawn_cells::{Cell, Place};
use pawn_verdict::{CheckFault, broken};
use std::alloc::Global;

/// What is found out behind some marks.
#[derive(Drop)]
pub struct Resolver<'a> {
    pub context: Context<'a>,
    pub uses: List<(u32, u32)>,
    pub values: Vec<(u32, i32)>,
}

/// A token's number as it is told.
fn told(token: usize) -> Result<u32, Memory>
    ensures { IfOk result (λ told. told ≡ token) }
{
    match u32::try_from(token) {
        Err(_) => Err(Memory),
        Ok(token) => Ok(token),
    }
}

// ---- occurrences

/// The token of the declaration that an occurrence means, which a predefined constant hasn't.
fn declaration_of(cx: &Context, it: &Use) -> Result<Option<usize>, CheckFault>
    ensures { AnswersToken (use_view it.now) (means_view cx.now it.now.name.now) result }
{
    match cx.means(it.name.as_slice()) {
        None => Err(broken(UNKNOWN, it.place)),
        Some(meant) => Ok(meant.token),
    }
}

/// One more pair, where the occurrence means a declaration.
fn push_use(
    uses: &mut List<(u32, u32)>,
    token: usize,
    declared: Option<usize>,
) -> Result<(), Memory>
    ensures { OnOk result (uses.new ≡ uses.old ++ spec_uses.declared_at token declared) }
{
    match declared {
        None => Ok(()),
        Some(declared) => uses.push((told(token)?, told(declared)?)),
    }
}

// ---- declarations

/// One more than the constant of a name.
#[tactic(auto, using(pawn_verdict::proofs::VerdictLaws::verdicts))]
fn next_after(cx: &Context, place: Place, last: &Bytes) -> Result<i32, CheckFault>
    ensures { Answers (λ value. value) (found.next_after (around_view cx.now) place
        (means_view cx.now last.now)) result }
{
    let x = name_worth(cx, place, place, last.as_slice())?;
    Ok(Cell(x.value).add(Cell(1)).0)
}

/// A constant of a value.
fn worth_kind(value: Result<i32, CheckFault>) -> Result<Kind, CheckFault>
    ensures { (verdict : Verdict ℤ) → Answers (λ value. value) verdict value →
        AnswersKind (plain_known.Worth verdict) result }
{
    match value {
        Ok(value) => Ok(Kind::Worth(value)),
        Err(fault) => Err(fault),
    }
}

/// A variable or parameter of some sizes.
fn cells_kind(sizes: Result<Vec<Size>, Memory>) -> Result<Kind, CheckFault>
    ensures { (verdicts : ListOf (Verdict ℤ)) →
        IfOk sizes (λ sizes. AreNarrower (map size_view sizes.items) verdicts) →
        AnswersKind (plain_known.Cells verdicts) result }
{
    match sizes {
        Ok(sizes) => Ok(Kind::Cells(sizes)),
        Err(Memory) => Err(CheckFault::Memory),
    }
}

/// What a declaration declares, by what names mean where it stands.
fn kind_of(alloc: Global, cx: &Context, it: &Declaration) -> Result<Kind, CheckFault>
    ensures { AnswersKind (found.kind_of (around_view cx.now) (means_view cx.now) it.now.place
        (sort_view it.now.sort)) result }
{
    let place = it.place;
    match &it.sort {
        Sort::Variable(dims, init) => cells_kind(variable_sizes(alloc, cx, place, dims, init)),
        Sort::Parameter(dims) => cells_kind(parameter_sizes(alloc, cx, place, dims)),
        Sort::Constant(value) => worth_kind(constant_value(cx, place, value)),
        Sort::First => Ok(Kind::Worth(0)),
        Sort::Next(last) => worth_kind(next_after(cx, place, last)),
        Sort::Label(last, _) => worth_kind(next_after(cx, place, last)),
    }
}

/// The name doesn't stand in its block already; those outside all functions are looked at before.
fn is_first_here(cx: &Context, it: &Declaration) -> Result<(), CheckFault>
    ensures { Passes (faults.again_faults (declaration_view it.now)
        (scopes.innermost_has cx.now.scopes it.now.name.now.bytes)) result }
{
    if !it.outside && cx.is_here(it.name.bytes.as_slice()) {
        Err(broken(TWICE, it.place))
    } else {
        Ok(())
    }
}

/// What is known of a declaration that declares this.
fn known_of(cx: &Context, it: &Declaration, kind: Kind) -> Known
    ensures { result ≡ record {
      token = it.now.name.now.at.token;
      tag = overloads.tag_number
          cx.now.tags (option_map (λ tag. tag.now) it.now.tag);
      kind = kind;
    } }
{
    Known {
        token: it.name.at.token,
        tag: tag_number(&cx.tags, it.tag),
        kind,
    }
}

/// Before how many of the values so far a declaration's own value stands.
fn behind(sort: &Sort) -> usize
    ensures { result ≡ spec_values.behind (sort_view sort.now) }
{
    match sort {
        Sort::Label(_, count) => *count,
        _ => 0,
    }
}

/// A constant's value more; that of an enumeration stands before those of its constants.
fn push_value(values: &mut Vec<(u32, i32)>, it: &Declaration, kind: &Kind) -> Result<(), Memory>
    ensures { OnOk result (values.new.items ≡ spec_values.with_kind (declaration_view it.now)
        (kind_view kind.now) values.old.items) }
{
    match kind {
        Kind::Cells(_) => Ok(()),
        Kind::Worth(value) => {
            let token = told(it.name.at.token)?;
            let at = values.len().saturating_sub(behind(&it.sort));
            values.insert(at, (token, *value))?;
            Ok(())
        }
    }
}

// ---- all marks

impl<'a> Resolver<'a> {
    /// A name occurs.
    fn uses(&mut self, it: &Use<'a>) -> Result<(), CheckFault>
        ensures { (around : PlainAround) (marks : ListOf plain.Mark) →
            IsBehind around marks self.old →
            Comes around (plain.Uses (use_view it.now) ∷ marks) self.new result }
    {
        let declared = declaration_of(&self.context, it)?;
        push_use(&mut self.uses, it.token, declared)?;
        Ok(())
    }

    /// A declaration ends.
    fn declares(&mut self, alloc: Global, it: &Declaration<'a>) -> Result<(), CheckFault>
        ensures { (around : PlainAround) (marks : ListOf plain.Mark) →
            IsBehind around marks self.old →
            Comes around (plain.Declares (declaration_view it.now) ∷ marks) self.new result }
    {
        is_first_here(&self.context, it)?;
        let kind = kind_of(alloc, &self.context, it)?;
        push_value(&mut self.values, it, &kind)?;
        let known = known_of(&self.context, it, kind);
        self.context.declare(it.name.bytes.as_slice(), known)?;
        Ok(())
    }

    /// One more mark.
    ///
    /// # Errors
    ///
    /// A fault of the mark, or `Memory`.
    pub fn step(&mut self, alloc: Global, mark: &Mark<'a>) -> Result<(), CheckFault>
        ensures { (around : PlainAround) (marks : ListOf plain.Mark) →
            IsBehind around marks self.old →
            Comes around (mark_view mark.now ∷ marks) self.new result }
    {
        match mark {
            Mark::Opens => {
                self.context.enter()?;
                Ok(())
            }
            Mark::Closes => {
                self.context.leave();
                Ok(())
            }
            Mark::Mentions(_) => Ok(()),
            Mark::Uses(it) => self.uses(it),
            Mark::Declares(it) => self.declares(alloc, it),
        }
    }
}
