ghost use Rattle.std.specs.Prelude.{◌≡◌, option_map};
ghost use Rattle.std.specs.Str.{bytes_eq};
ghost use Rattle.types_rules.specs.Around as plain;
ghost use Rattle.types_rules.specs.SameHeads as spec;
ghost use Rattle.check_nodes.specs.ExtentView.{extent_view};
ghost use Rattle.check_nodes.specs.ContextView.{default_view, param_view};

use check_nodes::{Extent, Param, ParamDefault};

/// Whether two truth values are the same.
fn same_truth(x: bool, y: bool) -> bool
    ensures { result ≡ spec.same_truth x y }
{
    if x { y } else { !y }
}

/// Of one kind and one value.
fn same_default(x: ParamDefault, y: ParamDefault) -> bool
    ensures { result ≡ spec.same_default (default_view x) (default_view y) }
{
    match x {
        ParamDefault::Nothing => is_nothing(y),
        ParamDefault::Always(value, tag) => is_always(value, tag, y),
        ParamDefault::SizeOf(param) => is_size_of(param, y),
        ParamDefault::TagOf(param) => is_tag_of(param, y),
    }
}

fn is_nothing(y: ParamDefault) -> bool
    ensures { result ≡ spec.same_default plain.NoDefault (default_view y) }
{
    match y {
        ParamDefault::Nothing => true,
        ParamDefault::Always(..) => false,
        ParamDefault::SizeOf(_) => false,
        ParamDefault::TagOf(_) => false,
    }
}

fn is_always(value: i32, tag: u32, y: ParamDefault) -> bool
    ensures { result ≡ spec.same_default (plain.Always value tag) (default_view y) }
{
    match y {
        ParamDefault::Nothing => false,
        ParamDefault::Always(other, _) => value == other,
        ParamDefault::SizeOf(_) => false,
        ParamDefault::TagOf(_) => false,
    }
}

fn is_size_of(param: u32, y: ParamDefault) -> bool
    ensures { result ≡ spec.same_default (plain.SizeOf param) (default_view y) }
{
    match y {
        ParamDefault::Nothing => false,
        ParamDefault::Always(..) => false,
        ParamDefault::SizeOf(other) => param == other,
        ParamDefault::TagOf(_) => false,
    }
}

fn is_tag_of(param: u32, y: ParamDefault) -> bool
    ensures { result ≡ spec.same_default (plain.TagOf param) (default_view y) }
{
    match y {
        ParamDefault::Nothing => false,
        ParamDefault::Always(..) => false,
        ParamDefault::SizeOf(_) => false,
        ParamDefault::TagOf(other) => param == other,
    }
}

/// Whether two sizes are the same, or both aren't known.
fn same_first(x: Option<u32>, y: Option<u32>) -> bool
    ensures { result ≡ spec.same_first x y }
{
    match x {
        None => y.is_none(),
        Some(m) => match y {
            None => false,
            Some(n) => m == n,
        },
    }
}

/// Whether the sizes behind the first one are the same.
fn same_inner(x: Extent, y: Extent) -> bool
    ensures { result ≡ bytes_eq (extent_view x).inner (extent_view y).inner }
{
    match x.second {
        None => y.second.is_none(),
        Some(m) => match y.second {
            None => false,
            Some(n) => m == n && same_first(x.third, y.third),
        },
    }
}

/// Whether two arrays reach equally far, or neither is one.
fn same_extent(x: Option<Extent>, y: Option<Extent>) -> bool
    ensures { result ≡ spec.same_extent (option_map extent_view x) (option_map extent_view y) }
{
    match x {
        None => y.is_none(),
        Some(x) => match y {
            None => false,
            Some(y) => same_first(x.first, y.first) && same_inner(x, y),
        },
    }
}

/// Whether two parameters are equal: in name, `const`, `&`, tags, sizes and default.
pub fn same_param(x: &Param, y: &Param) -> bool
    ensures { result ≡ spec.same_param (param_view x.now) (param_view y.now) }
{
    x.name.as_slice() == y.name.as_slice()
        && same_truth(x.constant, y.constant)
        && same_truth(x.reference, y.reference)
        && x.tags.as_slice() == y.tags.as_slice()
        && same_extent(x.extent, y.extent)
        && same_default(x.default, y.default)
}
