ghost use Rattle.std.specs.Prelude.{◌≡◌, ◌≤◌, map, option_map};
ghost use Rattle.pawn_tree.specs.Height as spec;
ghost use Rattle.pawn_tree.specs.View.{item_view, param_view, head_view, decl_view, tree_view};

use super::declaration::{Decl, Head, Item, Param, Tree};
use super::expression_height::{expr_height, maybe_expr_height};
use super::statement_height::stmt_height;
use super::variable_height::{dims_height, vars_height};
use pawn_base::List;

/// The height of the highest node of a tree of at most 1,024 levels, a leaf being 1, and 0 for a
/// tree without declarations.
pub fn depth(tree: &Tree) -> u32
    requires { spec.depth (tree_view tree.now) ≤ 1024 }
    ensures { result ≡ spec.depth (tree_view tree.now) }
{
    decls_height(&tree.decls) as u32
}

fn item_height(x: &Item) -> usize
    requires { spec.item_height (item_view x.now) ≤ 1024 }
    ensures { result ≡ spec.item_height (item_view x.now) }
{
    maybe_expr_height(&x.value)
}

fn items_height(list: &List<Item>) -> usize
    requires { spec.highest spec.item_height (map item_view list.now) ≤ 1024 }
    ensures { result ≡ spec.highest spec.item_height (map item_view list.now) }
{
    let items = list.as_slice();
    let mut height = 0;
    for i in 0..items.len() {
        height = height.max(item_height(&items[i]));
    }
    height
}

fn param_height(x: &Param) -> usize
    requires { spec.param_height (param_view x.now) ≤ 1024 }
    ensures { result ≡ spec.param_height (param_view x.now) }
{
    match x {
        Param::Plain { dims, value, .. } => dims_height(dims).max(maybe_expr_height(value)),
        Param::Rest(..) => 0,
    }
}

fn params_height(list: &List<Param>) -> usize
    requires { spec.highest spec.param_height (map param_view list.now) ≤ 1024 }
    ensures { result ≡ spec.highest spec.param_height (map param_view list.now) }
{
    let items = list.as_slice();
    let mut height = 0;
    for i in 0..items.len() {
        height = height.max(param_height(&items[i]));
    }
    height
}

fn head_height(x: &Head) -> usize
    requires { spec.head_height (head_view x.now) ≤ 1024 }
    ensures { result ≡ spec.head_height (head_view x.now) }
{
    params_height(&x.params)
}

fn decl_height(x: &Decl) -> usize
    requires { spec.decl_height (decl_view x.now) ≤ 1024 }
    ensures { result ≡ spec.decl_height (decl_view x.now) }
{
    match x {
        Decl::Variables(_, x) => 1 + vars_height(&x.vars),
        Decl::Constant(_, x) => 1 + expr_height(&x.value),
        Decl::Enum(_, _, items) => 1 + items_height(items),
        Decl::Native(_, head) | Decl::Forward(_, _, head) => 1 + head_height(head),
        Decl::Function(_, x) => 1 + head_height(&x.head).max(stmt_height(&x.body)),
    }
}

fn decls_height(list: &List<Decl>) -> usize
    requires { spec.highest spec.decl_height (map decl_view list.now) ≤ 1024 }
    ensures { result ≡ spec.highest spec.decl_height (map decl_view list.now) }
{
    let items = list.as_slice();
    let mut height = 0;
    for i in 0..items.len() {
        height = height.max(decl_height(&items[i]));
    }
    height
}
