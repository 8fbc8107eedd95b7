ghost use Rattle.std.specs.Prelude.{◌≡◌};
ghost use Rattle.pawn_tree.specs.View.{tree_view};
ghost use Rattle.names_rules.specs.Around.{Around as PlainAround};
ghost use Rattle.names_rules.specs.TreeMarks as spec;
ghost use Rattle.names_sight.specs.MarkView.{marks_view};
ghost use Rattle.pawn_names.specs.Resolved.{Begins, IsContext, IsResolved, AreResolved};

use super::mentioned_tags::tags_of;
use super::resolver::Resolver;
use names_sight::{Context, Mark, Scopes, file_names, operators_of, tree_marks};
use pawn_base::List;
use pawn_tree::Tree;
use pawn_verdict::CheckFault;
use std::alloc::Global;

/// The names of a tree, as pairs of numbers of tokens.
#[derive(Debug, Drop)]
pub struct Names {
    /// Each occurrence of a variable, constant or function, in rising order, with the name in its
    /// declaration. Of a function's forwards and bodies the first one is its declaration.
    pub uses: List<(u32, u32)>,
    /// The name in each constant's declaration, in rising order, with its value.
    pub values: List<(u32, i32)>,
}

/// What is known everywhere, before any mark.
fn context<'a>(alloc: Global, tree: &'a Tree, marks: &[Mark<'a>]) -> Result<Context<'a>, CheckFault>
    requires { marks_view marks.now ≡ spec.tree_marks (tree_view tree.now) }
    ensures { IsContext (tree_view tree.now) result }
{
    let tags = tags_of(alloc, marks)?;
    let operators = operators_of(alloc, &tags, tree)?;
    let names = file_names(alloc, &tags, tree)?;
    Ok(Context {
        tags,
        operators,
        names,
        scopes: Scopes::new(alloc),
        known: List::new(alloc),
    })
}

/// The names behind all marks.
fn resolve_marks<'a>(
    alloc: Global,
    context: Context<'a>,
    marks: &[Mark<'a>],
) -> Result<Names, CheckFault>
    ensures { (around : PlainAround) → Begins around context.entry →
        AreResolved around (marks_view marks.now) result }
{
    let mut resolver = Resolver {
        context,
        uses: List::new(alloc),
        values: Vec::new(alloc),
    };
    for i in 0..marks.len() {
        resolver.step(alloc, &marks[i])?;
    }
    Ok(Names {
        uses: resolver.uses,
        values: List::from_vec(resolver.values),
    })
}

/// Which declaration each occurrence of a name means, and what each constant is worth.
///
/// # Errors
///
/// `Source` with the number and the place of a node that breaks a rule of names: 50, a name without
/// a declaration; 51, a name twice in one block; 57 and 67, a constant without a value, since it
/// isn't constant or divides by zero. `Memory` for want of memory.
pub fn resolve(alloc: Global, tree: &Tree) -> Result<Names, CheckFault>
    ensures { IsResolved (tree_view tree.now) result }
{
    let marks = tree_marks(alloc, tree)?;
    let context = context(alloc, tree, marks.as_slice())?;
    resolve_marks(alloc, context, marks.as_slice())
}
