//! A table of hash-consed types: each distinct type is stored once and has a type id (`TyNo`).

ghost use Rattle.std.specs.Prelude.{◌≡◌, ◌↔◌, ◌<◌, ◌≤◌, ◌++◌, ℕ, List, [], ◌∷◌, length, min, string_bytes, IsTrue, IfOk, OnOk, OnErr, IfSome, IfNone};
ghost use Rattle.lam_rules.specs.Types.{Typ, arrow, record_of, IsWellFormed, AreWellFormed, nodes, nodes_in};
ghost use Rattle.lam_rules.specs.TypeViews.{typ_of, fields_of};
ghost use Rattle.lam_rules.specs.Texts.{sorted as sorted_form, sorted_fields, text};
ghost use Rattle.lam_rules.specs.Subtyping.{IsBelow};
ghost use Rattle.lam_rules.specs.Typing.{HasField};
ghost use Rattle.lam_rules.specs.Numbers.{type_at, type_of, Stands, IsNumberOf, Keeps, fields_over, shaped, AreEarlier, IsOver, HasDistinctLabels, fields_given, AllStand, AreGivenApart};
ghost use Rattle.lam_rules.specs.Entries.{IsEntryOf, IsSame};
ghost use Rattle.lam_rules.specs.ShapeIndex.{IsIndexOf};
ghost use Rattle.lam_rules.specs.declared.rules.Dialect.{Dialect};

use crate::numbers::{Shape, TyNo, copy_of_shape, number_under, owned_fields};
use crate::sorting::sort_by_label;
use crate::texts::text_of;
use crate::types::{SIZE_CAP, Ty, make_arrow, make_record};
use std::alloc::{AllocError, Global};
use std::collections::HashMap;
use std::marker::Model;

/// What the table stores for a type. The size is the number of nodes, capped at 4,097.
#[derive(Drop)]
struct Entry {
    shape: Shape,
    size: u64,
    /// The id of the sorted form of the type, which is the type's own id if it is already sorted.
    sorted: TyNo,
}

/// Types by id. Each is a shape over smaller ids, and no two ids have equal types.
#[derive(Drop)]
pub struct TyTable {
    alloc: Global,
    entries: Vec<Entry>,
    /// The id of each shape that an entry has.
    index: HashMap<Shape, TyNo>,
}

impl Model for TyTable {
    ghost use Rattle.std.specs.Prelude.{List};
    ghost use Rattle.lam_rules.specs.Types.{Typ};
    ghost use Rattle.lam_rules.specs.inner.TypeCodes.{coded_types};

    ghost Value = { List Typ };

    ghost coded = { coded_types };

    ghost use Rattle.lam_rules.specs.Entries.{types_of, IsTable};
    ghost use Rattle.lam_rules.specs.ShapeIndex.{IsIndexOf};

    ghost view = { λ t. types_of t.entries.items };

    ghost invariant = { λ t. IsTable t.entries.items × IsIndexOf t.index t.entries.items };
}

impl TyTable {
    /// An empty table, which keeps the allocator for types added later.
    pub fn new(alloc: Global) -> TyTable
        ensures { result ≡ [] }
    {
        TyTable {
            alloc,
            entries: Vec::new(alloc),
            index: HashMap::new(alloc),
        }
    }

    /// Returns the number of types. Their ids are the numbers below it.
    pub fn len(&self) -> usize
        ensures { result ≡ length self.now }
    {
        self.entries.len()
    }

    /// Returns the outermost form of a type. Its ids are less than that of the type, so recursion into its parts ends.
    pub fn shape(&self, number: TyNo) -> &Shape
        requires { Stands self.now number }
        ensures earlier { IsOver number.index result.now }
        ensures form { type_of self.now number ≡ shaped self.now result.now }
        ensures wf { IsWellFormed (type_of self.now number) }
    {
        &self.entry(number).shape
    }

    /// Returns the number of nodes of a type, capped at 4,097.
    pub fn size(&self, number: TyNo) -> u64
        requires { Stands self.now number }
        ensures { result ≡ min (nodes (type_of self.now number)) 4097 }
    {
        self.entry(number).size
    }

    /// Returns the id of the type with the fields of each record sorted by the bytes of their labels.
    pub fn sorted(&self, number: TyNo) -> TyNo
        requires { Stands self.now number }
        ensures at_most { result.index ≤ number.index }
        ensures sorted { type_of self.now result ≡ sorted_form (type_of self.now number) }
    {
        self.entry(number).sorted
    }

    /// Whether two types are subtypes of each other. The answer is the same in both dialects.
    pub fn same(&self, left: TyNo, right: TyNo) -> bool
        requires left { Stands self.now left }
        requires right { Stands self.now right }
        ensures { (d : Dialect) → (IsTrue result ↔ (IsBelow (type_of self.now left) (type_of self.now right) d × IsBelow (type_of self.now right) (type_of self.now left) d)) }
    {
        // Reading a field makes the invariant known to the proof: no two entries are equal types.
        let _entries = &self.entries;
        self.sorted(left) == self.sorted(right)
    }

    /// Returns the id of the type of the field with this label, or `None` if this is not a record type with that field.
    pub fn field(&self, number: TyNo, label: &str) -> Option<TyNo>
        requires { Stands self.now number }
        ensures earlier { IfSome result (λ found. found.index < number.index) }
        ensures some { IfSome result (λ found. HasField (type_of self.now number) label.now (type_of self.now found)) }
        ensures none { IfNone result ((t : Typ) → HasField (type_of self.now number) label.now t → ⊥) }
    {
        match self.shape(number) {
            Shape::Record(fields) => number_under(label, fields),
            _ => None,
        }
    }

    /// Returns the id of the type with this shape, adding the type if it is new.
    pub fn intern(&mut self, shape: Shape) -> Result<TyNo, AllocError>
        requires over { IsOver (length self.old) shape }
        requires labels { HasDistinctLabels shape }
        ensures keeps { Keeps self.old self.new }
        ensures number { IfOk result (λ number. IsNumberOf self.new number (shaped self.old shape)) }
    {
        match self.find(&shape) {
            Some(number) => Ok(number),
            None => {
                let sorted_shape = self.sorted_shape(&shape)?;
                let sorted = self.intern_sorted(sorted_shape)?;
                self.intern_beside(shape, sorted)
            }
        }
    }

    /// Returns the id of an arrow type.
    pub fn arrow(&mut self, parameter: TyNo, outcome: TyNo) -> Result<TyNo, AllocError>
        requires parameter { Stands self.old parameter }
        requires outcome { Stands self.old outcome }
        ensures keeps { Keeps self.old self.new }
        ensures number { IfOk result (λ number. IsNumberOf self.new number (arrow (type_of self.old parameter) (type_of self.old outcome))) }
    {
        self.intern(Shape::Arrow(parameter, outcome))
    }

    /// Returns the id of the record type of these fields, in this order.
    pub fn record(&mut self, fields: &[(&str, TyNo)]) -> Result<TyNo, AllocError>
        requires numbers { AllStand self.old fields.now }
        requires labels { AreGivenApart fields.now }
        ensures keeps { Keeps self.old self.new }
        ensures number { IfOk result (λ number. IsNumberOf self.new number (record_of (fields_given self.old fields.now))) }
    {
        let items = owned_fields(self.alloc, fields)?;
        self.intern(Shape::Record(items))
    }

    /// Returns the id of a type, adding the type and its parts if they are new.
    #[cycle(add)]
    pub fn add(&mut self, ty: &Ty) -> Result<TyNo, AllocError>
        requires { IsWellFormed (typ_of ty.now) }
        ensures keeps { Keeps self.old self.new }
        ensures number { IfOk result (λ number. IsNumberOf self.new number (typ_of ty.now)) }
    {
        match ty {
            Ty::Bool => self.intern(Shape::Bool),
            Ty::Nat => self.intern(Shape::Nat),
            Ty::Unit => self.intern(Shape::Unit),
            Ty::Top => self.intern(Shape::Top),
            Ty::Arrow(parameter, outcome) => {
                let parameter_number = self.add(parameter)?;
                let outcome_number = self.add(outcome)?;
                self.arrow(parameter_number, outcome_number)
            }
            Ty::Record(fields) => {
                let items = self.add_fields(&fields.items)?;
                self.intern(Shape::Record(items))
            }
        }
    }

    #[cycle(add)]
    fn add_fields(&mut self, fields: &[(String, Ty)]) -> Result<Vec<(String, TyNo)>, AllocError>
        requires { AreWellFormed (fields_of fields.now) }
        ensures keeps { Keeps self.old self.new }
        ensures over { IfOk result (λ items. AreEarlier (length self.new) items.items) }
        ensures fields { IfOk result (λ items. fields_over self.new items.items ≡ fields_of fields.now) }
    {
        let mut items = Vec::with_capacity(self.alloc, fields.len())?;
        for i in 0..fields.len() {
            let field = &fields[i];
            let number = self.add(&field.1)?;
            items.push((field.0.clone()?, number))?;
        }
        Ok(items)
    }

    /// Returns the type with this id as a tree.
    #[cycle(tree)]
    pub fn tree(&self, number: TyNo) -> Result<Ty, AllocError>
        requires { Stands self.now number }
        ensures { IfOk result (λ ty. typ_of ty ≡ type_of self.now number) }
    {
        match self.shape(number) {
            Shape::Bool => Ok(Ty::Bool),
            Shape::Nat => Ok(Ty::Nat),
            Shape::Unit => Ok(Ty::Unit),
            Shape::Top => Ok(Ty::Top),
            Shape::Arrow(parameter, outcome) => {
                let parameter_tree = self.tree(*parameter)?;
                let outcome_tree = self.tree(*outcome)?;
                make_arrow(self.alloc, parameter_tree, outcome_tree)
            }
            Shape::Record(fields) => {
                let items = self.tree_fields(fields)?;
                make_record(self.alloc, items)
            }
        }
    }

    #[cycle(tree)]
    fn tree_fields(&self, fields: &[(String, TyNo)]) -> Result<Vec<(String, Ty)>, AllocError>
        requires { AreEarlier (length self.now) fields.now }
        ensures { IfOk result (λ items. fields_of items.items ≡ fields_over self.now fields.now) }
    {
        let mut items = Vec::with_capacity(self.alloc, fields.len())?;
        for i in 0..fields.len() {
            let field = &fields[i];
            let label = field.0.clone()?;
            let ty = self.tree(field.1)?;
            items.push((label, ty))?;
        }
        Ok(items)
    }

    /// Returns the text of a type with the fields of each record sorted by the bytes of their labels.
    pub fn text(&self, number: TyNo) -> Result<String, AllocError>
        requires { Stands self.now number }
        ensures { IfOk result (λ written. string_bytes written ≡ text (type_of self.now number)) }
    {
        let ty = self.tree(number)?;
        text_of(self.alloc, &ty)
    }

    /// A law: the types of a table have distinct labels, and no two ids have equal types.
    pub fn types_differ(&self)
        ensures wf { (i : ℕ) → i < length self.now → IsWellFormed (type_at self.now i) }
        ensures differ { (i j : ℕ) → i < length self.now → j < length self.now → type_at self.now i ≡ type_at self.now j → i ≡ j }
    {
        // Reading a field makes the invariant known to the proof: no two entries are equal types.
        let _entries = &self.entries;
    }

    fn entry(&self, number: TyNo) -> &Entry
        requires { Stands self.now number }
        ensures { IsEntryOf self.now number.index result.now }
    {
        &self.entries[number.index]
    }

    /// The id of the type with this shape, if the table has it.
    fn find(&self, shape: &Shape) -> Option<TyNo>
        requires { IsOver (length self.now) shape.now }
        ensures wf { HasDistinctLabels shape.now → IsWellFormed (shaped self.now shape.now) }
        ensures some { IfSome result (λ number. IsNumberOf self.now number (shaped self.now shape.now)) }
        ensures none { IfNone result ((i : ℕ) → i < length self.now → type_at self.now i ≡ shaped self.now shape.now → ⊥) }
    {
        match self.index.get(shape) {
            Some(number) => Some(*number),
            None => None,
        }
    }

    /// Appends a type that the table does not have, and returns its id.
    fn push(&mut self, shape: Shape, sorted: TyNo) -> Result<TyNo, AllocError>
        requires over { IsOver (length self.old) shape }
        requires wf { IsWellFormed (shaped self.old shape) }
        requires sorted_stands { sorted.index ≤ length self.old }
        requires sorted_type { type_of (self.old ++ shaped self.old shape ∷ []) sorted ≡ sorted_form (shaped self.old shape) }
        requires fresh { (i : ℕ) → i < length self.old → type_at self.old i ≡ shaped self.old shape → ⊥ }
        ensures keeps { Keeps self.old self.new }
        ensures number { IfOk result (λ number. IsNumberOf self.new number (shaped self.old shape)) }
    {
        let size = self.size_of(&shape);
        let number = self.next();
        let key = copy_of_shape(self.alloc, &shape)?;
        let entry = Entry {
            shape,
            size,
            sorted,
        };
        add_entry(&mut self.entries, &mut self.index, key, entry)?;
        Ok(number)
    }

    /// The number of nodes of the type with this shape, capped at 4,097.
    fn size_of(&self, shape: &Shape) -> u64
        requires { IsOver (length self.now) shape.now }
        ensures { result ≡ min (nodes (shaped self.now shape.now)) 4097 }
    {
        match shape {
            Shape::Bool => 1,
            Shape::Nat => 1,
            Shape::Unit => 1,
            Shape::Top => 1,
            Shape::Arrow(parameter, outcome) => {
                (1 + self.size(*parameter) + self.size(*outcome)).min(SIZE_CAP)
            }
            Shape::Record(fields) => (1 + self.size_of_fields(fields)).min(SIZE_CAP),
        }
    }

    fn size_of_fields(&self, fields: &[(String, TyNo)]) -> u64
        requires { AreEarlier (length self.now) fields.now }
        ensures { result ≡ min (nodes_in (fields_over self.now fields.now)) 4097 }
    {
        let mut total = 0;
        for i in 0..fields.len() {
            let field = &fields[i];
            total = (total + self.size(field.1)).min(SIZE_CAP);
        }
        total
    }

    /// The id of a type that is its own sorted form, which is added if it is new.
    fn intern_sorted(&mut self, shape: Shape) -> Result<TyNo, AllocError>
        requires over { IsOver (length self.old) shape }
        requires wf { IsWellFormed (shaped self.old shape) }
        requires sorted { sorted_form (shaped self.old shape) ≡ shaped self.old shape }
        ensures keeps { Keeps self.old self.new }
        ensures number { IfOk result (λ number. IsNumberOf self.new number (shaped self.old shape)) }
    {
        match self.find(&shape) {
            Some(number) => Ok(number),
            None => {
                let own = self.next();
                self.push(shape, own)
            }
        }
    }

    /// The id of a type whose sorted form has the id `sorted`. The type is added if it is new.
    fn intern_beside(&mut self, shape: Shape, sorted: TyNo) -> Result<TyNo, AllocError>
        requires over { IsOver (length self.old) shape }
        requires wf { IsWellFormed (shaped self.old shape) }
        requires sorted { IsNumberOf self.old sorted (sorted_form (shaped self.old shape)) }
        ensures keeps { Keeps self.old self.new }
        ensures number { IfOk result (λ number. IsNumberOf self.new number (shaped self.old shape)) }
    {
        match self.find(&shape) {
            Some(number) => Ok(number),
            None => self.push(shape, sorted),
        }
    }

    /// The id of the next type to be added.
    fn next(&self) -> TyNo
        ensures { result.index ≡ length self.now }
    {
        TyNo {
            index: self.entries.len(),
        }
    }

    /// The shape of the sorted form of the type with this shape.
    fn sorted_shape(&self, shape: &Shape) -> Result<Shape, AllocError>
        requires { IsOver (length self.now) shape.now }
        ensures over { IfOk result (λ made. IsOver (length self.now) made) }
        ensures sorted { IfOk result (λ made. shaped self.now made ≡ sorted_form (shaped self.now shape.now)) }
    {
        match shape {
            Shape::Bool => Ok(Shape::Bool),
            Shape::Nat => Ok(Shape::Nat),
            Shape::Unit => Ok(Shape::Unit),
            Shape::Top => Ok(Shape::Top),
            Shape::Arrow(parameter, outcome) => Ok(Shape::Arrow(
                self.sorted(*parameter),
                self.sorted(*outcome),
            )),
            Shape::Record(fields) => {
                let items = self.sorted_fields(fields)?;
                Ok(Shape::Record(items))
            }
        }
    }

    fn sorted_fields(&self, fields: &[(String, TyNo)]) -> Result<Vec<(String, TyNo)>, AllocError>
        requires { AreEarlier (length self.now) fields.now }
        ensures over { IfOk result (λ made. AreEarlier (length self.now) made.items) }
        ensures sorted { IfOk result (λ made. fields_over self.now made.items ≡ sorted_fields (fields_over self.now fields.now)) }
    {
        let mut made = Vec::with_capacity(self.alloc, fields.len())?;
        for i in 0..fields.len() {
            let field = &fields[i];
            let label = field.0.clone()?;
            made.push((label, self.sorted(field.1)))?;
        }
        sort_by_label(&mut made)?;
        Ok(made)
    }
}

/// Appends an entry and indexes it by its shape.
fn add_entry(
    entries: &mut Vec<Entry>,
    index: &mut HashMap<Shape, TyNo>,
    key: Shape,
    entry: Entry,
) -> Result<(), AllocError>
    requires index { IsIndexOf index.old entries.old.items }
    requires key { IsSame key entry.shape }
    ensures pushed { OnOk result (entries.new.items ≡ entries.old.items ++ entry ∷ []) }
    ensures unchanged { OnErr result (entries.new.items ≡ entries.old.items) }
    ensures index { IsIndexOf index.new entries.new.items }
{
    let number = TyNo {
        index: entries.len(),
    };
    // Reserving first ensures that the push cannot fail and leave an id in the index without an entry.
    entries.reserve(1)?;
    index.insert(key, number)?;
    entries.push(entry)?;
    Ok(())
}
