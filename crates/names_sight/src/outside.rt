ghost use Rattle.std.specs.Prelude.{◌≡◌, [], ◌∷◌, map, List as ListOf, ℕ};
ghost use Rattle.pawn_tree.specs.View.{var_view, item_view, head_view, decl_view, tree_view};
ghost use Rattle.names_rules.specs.Around as around;
ghost use Rattle.names_rules.specs.FileNames as spec;
ghost use Rattle.names_rules.specs.FileNames.{FileName};
ghost use Rattle.names_rules.specs.Taken as taken;
ghost use Rattle.names_sight.specs.FileTable as table;
ghost use Rattle.names_sight.specs.FileTable.{role_view, function_in};
ghost use Rattle.names_sight.specs.Steps.{IsWhole, IsNamed, AnswersSeen, Adds, IsAdded};

use super::fault::TWICE;
use super::tag_numbers::tag_number;
use indexmap::IndexMap;
use pawn_cells::{Place, predefined};
use pawn_tags::TagTable;
use pawn_tree::{Decl, Head, HeadName, Item, Name, Tree, Var};
use pawn_verdict::{CheckFault, broken};
use std::alloc::Global;
use std::marker::Model;

/// What a name that is declared outside all functions stands for.
#[derive(Clone, Copy)]
pub enum Role {
    /// A variable, a constant, or the name of an enumeration.
    Value,
    Native,
    Forward,
    /// A function's body, and whether it has a classifier.
    Body(bool),
}

impl Role {
    /// A native or a body.
    fn is_defined(self) -> bool
        ensures { result ≡ around.is_defined (role_view self) }
    {
        matches!(self, Role::Native | Role::Body(_))
    }

    fn is_function(self) -> bool
        ensures { result ≡ around.is_function (role_view self) }
    {
        !matches!(self, Role::Value)
    }

    /// No other may have its name.
    fn is_alone(self) -> bool
        ensures { result ≡ taken.is_alone (role_view self) }
    {
        matches!(self, Role::Value | Role::Native)
    }

    /// A body without a classifier.
    fn is_single(self) -> bool
        ensures { result ≡ taken.is_single (role_view self) }
    {
        matches!(self, Role::Body(false))
    }
}

/// The first head of a function: the token of its name, and its tag's number.
#[derive(Clone, Copy)]
pub struct FirstHead {
    pub token: usize,
    pub tag: u32,
}

/// What stands outside all functions under one name.
#[derive(Clone, Copy)]
struct Seen {
    /// One that no other may stand with.
    alone: bool,
    /// A body without a classifier.
    plain: bool,
    /// A native or a body.
    defined: bool,
    head: Option<FirstHead>,
}

impl Seen {
    const NOTHING: Seen = Seen {
        alone: false,
        plain: false,
        defined: false,
        head: None,
    };

    /// Whether one more may not stand with these.
    fn clashes(self, role: Role) -> bool
        ensures { result ≡ table.clash_seen (role_view role) self }
    {
        match role {
            Role::Value | Role::Native => true,
            Role::Forward | Role::Body(true) => self.alone,
            Role::Body(false) => self.alone || self.plain,
        }
    }

    /// With one more, which has this head if it is a function.
    fn with(self, role: Role, head: FirstHead) -> Seen
        ensures { result ≡ table.with_role self (role_view role) head }
    {
        Seen {
            alone: role.is_alone() || self.alone,
            plain: role.is_single() || self.plain,
            defined: role.is_defined() || self.defined,
            head: match self.head {
                Some(first) => Some(first),
                None => { if role.is_function() { Some(head) } else { None } }
            },
        }
    }
}

/// The names that are declared outside all functions. Contracts see what stands under each.
#[derive(Drop)]
pub struct FileNames<'a> {
    table: IndexMap<&'a [u8], Seen>,
}

impl<'a> Model for FileNames<'a> {
    ghost use Rattle.names_sight.specs.FileTable.{Table as Held};

    ghost Value = { Held };

    ghost view = { λ names. names.table.entries };
}

impl<'a> FileNames<'a> {
    /// The function of a name: a body or a native has to stand there.
    pub fn function(&self, name: &[u8]) -> Option<FirstHead>
        ensures { result ≡ function_in self.now name.now }
    {
        match self.table.get(name) {
            None => None,
            Some(seen) => { if seen.defined { seen.head } else { None } }
        }
    }

    /// What stands under a name, where one more of a role may stand with it.
    fn seen(&self, place: Place, name: &Name, role: Role) -> Result<Seen, CheckFault>
        ensures { (tags : ListOf (ListOf ℕ)) (before : ListOf FileName) (x : FileName) →
            IsWhole tags before self.now → IsNamed x name.now place (role_view role) →
            AnswersSeen x before self.now result }
    {
        let bytes = name.bytes.as_slice();
        if predefined(bytes).is_some() {
            return Err(broken(TWICE, place));
        }
        match self.table.get(bytes) {
            None => Ok(Seen::NOTHING),
            Some(seen) => {
                if seen.clashes(role) {
                    Err(broken(TWICE, place))
                } else {
                    Ok(*seen)
                }
            }
        }
    }

    /// One more name, of a node at a place.
    fn add(&mut self, place: Place, name: &'a Name, role: Role, tag: u32) -> Result<(), CheckFault>
        ensures { (tags : ListOf (ListOf ℕ)) (before : ListOf FileName) (x : FileName) →
            IsWhole tags before self.old → IsNamed x name.now place (role_view role) →
            tag ≡ table.tag_of tags x →
            Adds tags (x ∷ before) self.new result }
    {
        let seen = self.seen(place, name, role)?;
        let head = FirstHead {
            token: name.at.token,
            tag,
        };
        let Ok(_before) = self
            .table
            .insert(name.bytes.as_slice(), seen.with(role, head))
        else {
            return Err(CheckFault::Memory);
        };
        Ok(())
    }

    fn add_vars(&mut self, place: Place, vars: &'a [Var]) -> Result<(), CheckFault>
        ensures { (tags : ListOf (ListOf ℕ)) (before : ListOf FileName) →
            IsWhole tags before self.old →
            Adds tags (spec.var_names place (map var_view vars.now) before) self.new result }
    {
        for i in 0..vars.len() {
            self.add(place, &vars[i].name, Role::Value, 0)?;
        }
        Ok(())
    }

    fn add_items(&mut self, place: Place, items: &'a [Item]) -> Result<(), CheckFault>
        ensures { (tags : ListOf (ListOf ℕ)) (before : ListOf FileName) →
            IsWhole tags before self.old →
            Adds tags (spec.item_names place (map item_view items.now) before) self.new result }
    {
        for i in 0..items.len() {
            self.add(place, &items[i].name, Role::Value, 0)?;
        }
        Ok(())
    }

    fn add_label(&mut self, place: Place, name: &'a Option<Name>) -> Result<(), CheckFault>
        ensures { (tags : ListOf (ListOf ℕ)) (before : ListOf FileName) →
            IsWhole tags before self.old →
            Adds tags (spec.label_names place name.now before) self.new result }
    {
        match name {
            None => Ok(()),
            Some(name) => self.add(place, name, Role::Value, 0),
        }
    }

    fn add_head(
        &mut self,
        tags: &TagTable,
        place: Place,
        head: &'a Head,
        role: Role,
    ) -> Result<(), CheckFault>
        ensures { (before : ListOf FileName) → IsWhole tags.now before self.old →
            Adds tags.now (spec.head_names place (head_view head.now) (role_view role) before)
            self.new result }
    {
        match &head.name {
            HeadName::Operator(..) => Ok(()),
            HeadName::Name(name) => self.add(
                place,
                name,
                role,
                tag_number(tags, head.tag.as_ref()),
            ),
        }
    }

    fn add_decl(&mut self, tags: &TagTable, x: &'a Decl) -> Result<(), CheckFault>
        ensures { (before : ListOf FileName) → IsWhole tags.now before self.old →
            Adds tags.now (spec.decl_names (decl_view x.now) before) self.new result }
    {
        match x {
            Decl::Variables(at, x) => self.add_vars(at.place, x.vars.as_slice()),
            Decl::Constant(at, x) => self.add(at.place, &x.name, Role::Value, 0),
            Decl::Enum(at, name, items) => {
                self.add_items(at.place, items.as_slice())?;
                self.add_label(at.place, name)
            }
            Decl::Native(at, head) => self.add_head(tags, at.place, head, Role::Native),
            Decl::Forward(at, _, head) => self.add_head(tags, at.place, head, Role::Forward),
            Decl::Function(at, x) => {
                self.add_head(tags, at.place, &x.head, Role::Body(x.states.is_some()))
            }
        }
    }
}

/// The names that a tree declares outside all functions. None of them may stand twice, but
/// forwards and bodies of one function may stand together.
pub fn file_names<'a>(
    alloc: Global,
    tags: &TagTable,
    tree: &'a Tree,
) -> Result<FileNames<'a>, CheckFault>
    ensures { IsAdded tags.now (spec.file_names (tree_view tree.now)) result }
{
    let items = tree.decls.as_slice();
    let mut names = FileNames {
        table: IndexMap::new(alloc),
    };
    for i in 0..items.len() {
        names.add_decl(tags, &items[i])?;
    }
    Ok(names)
}
