//! Statements that are bound at once, as nearly all are: each part is bound where one look shows that it has none of the
//! faults 2 to 6. Where it shows no such thing, a fault may be there, and is searched.
ghost use Rattle.std.specs.Prelude.{◌≡◌, true, map, is_some, None, IfSome, IfOk, OnOk};
ghost use Rattle.std.specs.List.{list_all};
ghost use Rattle.lv_bind.specs.Binding.{IsNarrow, bound_among, bound_col, bound_cond, bound_list, bound_op, bound_order, bound_rows, bound_set, bound_side, bound_value, rel_of, table_number};
ghost use Rattle.lv_bind.specs.Faultless.{is_known, IsKnown, IsSoundSide, sides_are_sound, AreSoundSides, IsSoundCond, value_is_sound, assign_is_sound, AreSoundSets, AreSoundTuples, AreSoundRefs, IsSoundList, IsSoundOrder};
ghost use Rattle.lv_bind.specs.Faults.{lowest, reading_faults};
ghost use Rattle.lv_bind.specs.Kinds.{assign_fits, insert_columns};
ghost use Rattle.lv_bind.specs.Pieces.{joined, sides_of};
ghost use Rattle.lv_bind.specs.Rels.{rels_of};
ghost use Rattle.lv_bind.specs.Seen.{aliases, column_seen, tables_of, views_of};
ghost use Rattle.lv_bind.specs.Sources.{AreNarrow, place_of, sources_of, target_of};
ghost use Rattle.lv_bind.specs.Unknown.{is_table};
ghost use Rattle.lv_schema.specs.Bound.{is_text};
ghost use Rattle.lv_schema.specs.declared.change.Change.TheVariants.{Insert, Update, Delete};
ghost use Rattle.lv_schema.specs.declared.bound.Bound.TheVariants as bound;
ghost use Rattle.lv_schema.specs.declared.cond.Cond.TheVariants.{Cmp};
ghost use Rattle.lv_schema.specs.declared.table.Kind.{Kind as AKind};

use crate::binding::{bound_literal, bound_op, bound_rels, bound_rows, every_col, table_number};
use crate::in_use::repeated;
use crate::kinds::{insert_columns, inserted_kinds, is_text, value_is_text};
use crate::limits::{has_long_tuple, has_longer, is_long_list, is_long_value};
use crate::pieces::Mention;
use crate::sources::{Fit, Place, Scope, Source, kind_at, resolve};
use lv_parser::{
    Assign, AssignValue, Assigns, ColName, ColNames, CondTree, OperandTree, OrderTrees, RefTree,
    RefTrees, Sign, Stmt, Tuple,
};
use lv_schema::{
    Bound, Change, Col, Cols, Column, Cond, Conds, Operand, OrderCol, OrderCols, Query, Rel, Set,
    SetValue, Sets,
};
use lv_values::{Boxed, Copying, Items, NoMemory};
use std::alloc::Global;

/// Why a statement is not bound at once.
#[derive(Debug, Drop)]
pub(crate) enum Stop {
    /// There may be a fault in it.
    Doubt,
    /// Memory was refused.
    NoMemory,
}

impl From<NoMemory> for Stop {
    ghost use Rattle.std.specs.Prelude.{◌≡◌};
    ghost use Rattle.lv_bind.specs.declared.at_once.Stop.TheVariants.{NoMemory};

    ghost from_gives = { λ _ e. e ≡ NoMemory };

    fn from(_: NoMemory) -> Stop {
        Stop::NoMemory
    }
}

/// The one place that a column fits.
#[tactic(auto, using(crate::proofs::FaultlessLemmas::one_place))]
fn one_place(scope: &Scope<'_>, column: Mention<'_>) -> Result<Place, Stop>
    ensures known { OnOk result (is_known (aliases scope.now) (column_seen column.entry) ≡ true) }
    ensures place { IfOk result (λ p. p ≡ place_of (aliases scope.now) (column_seen column.entry)) }
{
    match resolve(scope, column) {
        Fit::One(place) => Ok(place),
        Fit::Nothing | Fit::Several(_) => Err(Stop::Doubt),
    }
}

/// The column that fits one place, and whether it holds texts.
#[tactic(auto, using(crate::proofs::NarrowLemmas::narrow_alias, crate::proofs::NarrowLemmas::narrow_column))]
fn known_col(scope: &Scope<'_>, column: Mention<'_>) -> Result<(Col, bool), Stop>
    requires { IsNarrow (aliases scope.now) }
    ensures bound { IfOk result (λ c. c.0 ≡ bound_col (aliases scope.now) (column_seen column.entry)) }
    ensures known { IfOk result (λ c. IsKnown (aliases scope.now) (column_seen column.entry) c.1) }
{
    let place = one_place(scope, column)?;
    let col = Col {
        alias: place.alias as u8,
        column: place.column as u8,
    };
    Ok((col, is_text(kind_at(scope, place))))
}

/// A side without a fault, and whether it is a text.
fn sound_side(alloc: Global, scope: &Scope<'_>, side: &OperandTree) -> Result<(Operand, bool), Stop>
    requires { IsNarrow (aliases scope.now) }
    ensures bound { IfOk result (λ s. s.0 ≡ bound_side (aliases scope.now) side.now) }
    ensures sound { IfOk result (λ s. IsSoundSide (aliases scope.now) side.now s.1) }
{
    match side {
        OperandTree::Column(column) => {
            let (col, text) = known_col(scope, Mention::of(column))?;
            Ok((Operand::Column(col), text))
        }
        OperandTree::Literal(literal) => {
            if is_long_value(&literal.value) {
                return Err(Stop::Doubt);
            }
            let operand = bound_literal(alloc, &literal.value)?;
            Ok((operand, value_is_text(&literal.value)))
        }
    }
}

/// A comparison without a fault.
fn sound_comparison(
    alloc: Global,
    scope: &Scope<'_>,
    op: Sign,
    left: &OperandTree,
    right: &OperandTree,
) -> Result<Cond, Stop>
    requires { IsNarrow (aliases scope.now) }
    ensures bound { IfOk result (λ c. c ≡ Cmp (bound_op op) (bound_side (aliases scope.now) left.now) (bound_side (aliases scope.now) right.now)) }
    ensures sound { OnOk result (sides_are_sound (aliases scope.now) (left.now, right.now) ≡ true) }
{
    let (bound_left, left_text) = sound_side(alloc, scope, left)?;
    let (bound_right, right_text) = sound_side(alloc, scope, right)?;
    if left_text == right_text {
        Ok(Cond::Cmp {
            op: bound_op(op),
            left: bound_left,
            right: bound_right,
        })
    } else {
        Err(Stop::Doubt)
    }
}

/// A condition without a fault, and how many comparisons may still follow it, of so many in all.
#[cycle(sound_cond_of)]
fn sound_cond_of(
    alloc: Global,
    scope: &Scope<'_>,
    cond: &CondTree,
    most: u8,
) -> Result<(Cond, u8), Stop>
    requires { IsNarrow (aliases scope.now) }
    ensures bound { IfOk result (λ c. c.0 ≡ bound_cond (aliases scope.now) cond.now) }
    ensures sound { IfOk result (λ c. AreSoundSides (aliases scope.now) (sides_of cond.now) most c.1) }
{
    match cond {
        CondTree::True => Ok((Cond::True, most)),
        CondTree::Cmp { op, left, right } => {
            if most > 0 {
                let bound = sound_comparison(alloc, scope, *op, left, right)?;
                Ok((bound, most - 1))
            } else {
                Err(Stop::Doubt)
            }
        }
        CondTree::And(parts) => {
            let (bound, after) = sound_conds(alloc, scope, parts.as_slice(), most)?;
            Ok((Cond::And(bound), after))
        }
        CondTree::Or(parts) => {
            let (bound, after) = sound_conds(alloc, scope, parts.as_slice(), most)?;
            Ok((Cond::Or(bound), after))
        }
        CondTree::Not(part) => {
            let (bound, after) = sound_cond_of(alloc, scope, part.get(), most)?;
            Ok((Cond::Not(Boxed::new(alloc, bound)?), after))
        }
    }
}

/// Conditions without a fault, and how many comparisons may still follow them, of so many in all.
#[cycle(sound_cond_of)]
fn sound_conds(
    alloc: Global,
    scope: &Scope<'_>,
    conds: &[CondTree],
    most: u8,
) -> Result<(Conds, u8), Stop>
    requires { IsNarrow (aliases scope.now) }
    ensures bound { IfOk result (λ cs. cs.0 ≡ map (bound_cond (aliases scope.now)) conds.now) }
    ensures sound { IfOk result (λ cs. AreSoundSides (aliases scope.now) (joined (map sides_of conds.now)) most cs.1) }
{
    let mut out = Items::new(alloc);
    let mut left = most;
    for cond in conds {
        let (bound, after) = sound_cond_of(alloc, scope, cond, left)?;
        out.push(bound)?;
        left = after;
    }
    Ok((out, left))
}

/// A condition without a fault.
fn sound_cond(alloc: Global, scope: &Scope<'_>, cond: &CondTree) -> Result<Cond, Stop>
    requires { IsNarrow (aliases scope.now) }
    ensures bound { IfOk result (λ c. c ≡ bound_cond (aliases scope.now) cond.now) }
    ensures sound { OnOk result (IsSoundCond (aliases scope.now) cond.now) }
{
    let (bound, _) = sound_cond_of(alloc, scope, cond, 16)?;
    Ok(bound)
}

/// The column that fits one place, and holds texts or not as is said.
fn known_as(scope: &Scope<'_>, column: Mention<'_>, text: bool) -> Result<Col, Stop>
    requires { IsNarrow (aliases scope.now) }
    ensures bound { IfOk result (λ c. c ≡ bound_col (aliases scope.now) (column_seen column.entry)) }
    ensures known { OnOk result (IsKnown (aliases scope.now) (column_seen column.entry) text) }
{
    let (col, found) = known_col(scope, column)?;
    if found == text {
        Ok(col)
    } else {
        Err(Stop::Doubt)
    }
}

/// What a column that holds texts or not, as is said, may be set to.
fn sound_value(
    alloc: Global,
    scope: &Scope<'_>,
    text: bool,
    value: &AssignValue,
) -> Result<SetValue, Stop>
    requires { IsNarrow (aliases scope.now) }
    ensures bound { IfOk result (λ v. v ≡ bound_value (aliases scope.now) value.now) }
    ensures sound { OnOk result ((kind : AKind) → is_text kind ≡ text → (value_is_sound (aliases scope.now) value.now ≡ true) × (assign_fits (aliases scope.now) kind value.now ≡ true)) }
{
    match value {
        AssignValue::Literal(literal) => {
            if !is_long_value(&literal.value) && text == value_is_text(&literal.value) {
                Ok(SetValue::Literal(literal.value.copy(alloc)?))
            } else {
                Err(Stop::Doubt)
            }
        }
        AssignValue::Column(column) => {
            let col = known_as(scope, Mention::unqualified(column), text)?;
            Ok(SetValue::Column(col.column))
        }
        AssignValue::Plus { column, amount } => {
            if text {
                return Err(Stop::Doubt);
            }
            let col = known_as(scope, Mention::unqualified(column), false)?;
            Ok(SetValue::Plus {
                column: col.column,
                amount: *amount,
            })
        }
    }
}

/// An assignment without a fault.
fn sound_set(alloc: Global, scope: &Scope<'_>, assign: &Assign) -> Result<Set, Stop>
    requires { IsNarrow (aliases scope.now) }
    ensures bound { IfOk result (λ s. s ≡ bound_set (aliases scope.now) assign.now) }
    ensures sound { OnOk result (assign_is_sound (aliases scope.now) assign.now ≡ true) }
{
    let (col, text) = known_col(scope, Mention::unqualified(&assign.column))?;
    let value = sound_value(alloc, scope, text, &assign.value)?;
    Ok(Set {
        column: col.column,
        value,
    })
}

/// Assignments that have no fault by themselves.
fn sound_assigns(alloc: Global, scope: &Scope<'_>, sets: &[Assign]) -> Result<Sets, Stop>
    requires { IsNarrow (aliases scope.now) }
    ensures bound { IfOk result (λ found. found ≡ map (bound_set (aliases scope.now)) sets.now) }
    ensures sound { OnOk result (list_all (assign_is_sound (aliases scope.now)) sets.now ≡ true) }
{
    let mut out = Sets::new(alloc);
    for assign in sets {
        out.push(sound_set(alloc, scope, assign)?)?;
    }
    Ok(out)
}

/// What UPDATE sets, without a fault.
fn sound_sets(alloc: Global, scope: &Scope<'_>, sets: &[Assign]) -> Result<Sets, Stop>
    requires { IsNarrow (aliases scope.now) }
    ensures bound { IfOk result (λ found. found ≡ map (bound_set (aliases scope.now)) sets.now) }
    ensures sound { OnOk result (AreSoundSets (aliases scope.now) sets.now) }
{
    if repeated(sets).is_none() {
        sound_assigns(alloc, scope, sets)
    } else {
        Err(Stop::Doubt)
    }
}

/// Whether the tuples of an INSERT into these columns have no fault.
fn are_sound_tuples(columns: &[Column], tuples: &[Tuple]) -> bool
    ensures { result ≡ true → AreSoundTuples columns.now tuples.now }
{
    tuples.len() <= 1000 && inserted_kinds(columns, tuples).is_none() && !has_long_tuple(tuples)
}

/// Whether each alias stands for a table or view.
fn are_found(sources: &[Source<'_>]) -> bool
    ensures { result ≡ list_all is_some (map (λ s. s.rel) sources.now) }
{
    for source in sources {
        if source.rel.is_none() {
            return false;
        }
    }
    true
}

/// Whether a FROM with these aliases has no fault.
fn are_sound_refs(sources: &[Source<'_>], refs: &[RefTree]) -> bool
    ensures { result ≡ true → AreSoundRefs (map (λ s. s.rel) sources.now) refs.now }
{
    refs.len() <= 4 && are_found(sources) && repeated(refs).is_none() && !has_longer(refs, 32)
}

/// Columns that fit one place each.
fn known_cols(alloc: Global, scope: &Scope<'_>, columns: &[ColName]) -> Result<Cols, Stop>
    requires { IsNarrow (aliases scope.now) }
    ensures bound { IfOk result (λ cols. cols ≡ map (bound_col (aliases scope.now)) columns.now) }
    ensures known { OnOk result (list_all (is_known (aliases scope.now)) columns.now ≡ true) }
{
    let mut out = Cols::new(alloc);
    for column in columns {
        let (col, _) = known_col(scope, Mention::of(column))?;
        out.push(col)?;
    }
    Ok(out)
}

/// The list of a query without a fault.
fn sound_list(alloc: Global, scope: &Scope<'_>, list: &Option<ColNames>) -> Result<Cols, Stop>
    requires { IsNarrow (aliases scope.now) }
    ensures bound { IfOk result (λ cols. cols ≡ bound_list (aliases scope.now) list.now) }
    ensures sound { OnOk result (IsSoundList (aliases scope.now) list.now) }
{
    if is_long_list(scope, list) {
        return Err(Stop::Doubt);
    }
    match list {
        None => {
            let every = every_col(alloc, scope)?;
            Ok(every)
        }
        Some(columns) => known_cols(alloc, scope, columns.as_slice()),
    }
}

/// Columns of ORDER BY that fit one place each.
fn known_order(
    alloc: Global,
    scope: &Scope<'_>,
    order: &[(ColName, bool)],
) -> Result<OrderCols, Stop>
    requires { IsNarrow (aliases scope.now) }
    ensures bound { IfOk result (λ cols. cols ≡ bound_order (aliases scope.now) order.now) }
    ensures known { OnOk result (list_all (λ by. is_known (aliases scope.now) by.0) order.now ≡ true) }
{
    let mut out = OrderCols::new(alloc);
    for (column, descending) in order {
        let (col, _) = known_col(scope, Mention::of(column))?;
        out.push(OrderCol {
            col,
            descending: *descending,
        })?;
    }
    Ok(out)
}

/// An ORDER BY without a fault.
fn sound_order(
    alloc: Global,
    scope: &Scope<'_>,
    order: &[(ColName, bool)],
) -> Result<OrderCols, Stop>
    requires { IsNarrow (aliases scope.now) }
    ensures bound { IfOk result (λ cols. cols ≡ bound_order (aliases scope.now) order.now) }
    ensures sound { OnOk result (IsSoundOrder (aliases scope.now) order.now) }
{
    if order.len() > 16 {
        return Err(Stop::Doubt);
    }
    known_order(alloc, scope, order)
}

/// Whether this is a table.
fn is_table(target: Option<Rel>) -> bool
    ensures { result ≡ is_table target }
{
    match target {
        Some(Rel::Table(_)) => true,
        Some(Rel::View(_)) | None => false,
    }
}

/// An INSERT of these tuples without a fault.
#[inline(never)]
fn sound_insert(alloc: Global, scope: &Scope<'_>, tuples: &[Tuple]) -> Result<Bound, Stop>
    ensures bound { IfOk result (λ b. b ≡ bound.Change (Insert (table_number scope.now.target) (bound_rows tuples.now))) }
    ensures sound { OnOk result ((is_table scope.now.target ≡ true) × AreSoundTuples (insert_columns (tables_of scope.now) scope.now.target) tuples.now) }
{
    let columns = insert_columns(scope.schema, scope.target);
    if !is_table(scope.target) || !are_sound_tuples(columns, tuples) {
        return Err(Stop::Doubt);
    }
    let rows = bound_rows(alloc, tuples)?;
    Ok(Bound::Change(Change::Insert {
        table: table_number(scope.target),
        rows,
    }))
}

/// An UPDATE without a fault.
#[inline(never)]
fn sound_update(
    alloc: Global,
    scope: &Scope<'_>,
    sets: &Assigns,
    cond: &CondTree,
) -> Result<Bound, Stop>
    requires { IsNarrow (aliases scope.now) }
    ensures bound { IfOk result (λ b. b ≡ bound.Change (Update (table_number scope.now.target) (map (bound_set (aliases scope.now)) sets.now) (bound_cond (aliases scope.now) cond.now))) }
    ensures sound { OnOk result ((is_table scope.now.target ≡ true) × (AreSoundSets (aliases scope.now) sets.now × IsSoundCond (aliases scope.now) cond.now)) }
{
    if !is_table(scope.target) {
        return Err(Stop::Doubt);
    }
    let bound_sets = sound_sets(alloc, scope, sets.as_slice())?;
    let bound_cond = sound_cond(alloc, scope, cond)?;
    Ok(Bound::Change(Change::Update {
        table: table_number(scope.target),
        sets: bound_sets,
        cond: bound_cond,
    }))
}

/// A DELETE without a fault.
#[inline(never)]
fn sound_delete(alloc: Global, scope: &Scope<'_>, cond: &CondTree) -> Result<Bound, Stop>
    requires { IsNarrow (aliases scope.now) }
    ensures bound { IfOk result (λ b. b ≡ bound.Change (Delete (table_number scope.now.target) (bound_cond (aliases scope.now) cond.now))) }
    ensures sound { OnOk result ((is_table scope.now.target ≡ true) × IsSoundCond (aliases scope.now) cond.now) }
{
    if !is_table(scope.target) {
        return Err(Stop::Doubt);
    }
    let bound_cond = sound_cond(alloc, scope, cond)?;
    Ok(Bound::Change(Change::Delete {
        table: table_number(scope.target),
        cond: bound_cond,
    }))
}

/// A query without a fault.
#[inline(never)]
fn sound_query(
    alloc: Global,
    scope: &Scope<'_>,
    list: &Option<ColNames>,
    refs: &RefTrees,
    cond: &CondTree,
    order: &OrderTrees,
) -> Result<Bound, Stop>
    requires { IsNarrow (aliases scope.now) }
    ensures bound { IfOk result (λ b. b ≡ bound.Query (record { rels = map (λ s. rel_of s.rel) scope.now.sources.now; cond = bound_cond (aliases scope.now) cond.now; list = bound_list (aliases scope.now) list.now; order = bound_order (aliases scope.now) order.now })) }
    ensures sound { OnOk result (AreSoundRefs (map (λ s. s.rel) scope.now.sources.now) refs.now × (IsSoundList (aliases scope.now) list.now × (IsSoundCond (aliases scope.now) cond.now × IsSoundOrder (aliases scope.now) order.now))) }
{
    if !are_sound_refs(scope.sources, refs.as_slice()) {
        return Err(Stop::Doubt);
    }
    let rels = bound_rels(alloc, scope.sources)?;
    let bound_list = sound_list(alloc, scope, list)?;
    let bound_cond = sound_cond(alloc, scope, cond)?;
    let bound_order = sound_order(alloc, scope, order.as_slice())?;
    Ok(Bound::Query(Query {
        rels,
        cond: bound_cond,
        list: bound_list,
        order: bound_order,
    }))
}

/// What a statement with these few aliases is bound to, where one look shows that none of the faults 2 to 6 is in it.
/// CREATE is left to the search. Cost: each name is looked up once.
fn bound_in_few(alloc: Global, scope: &Scope<'_>, stmt: &Stmt) -> Result<Bound, Stop>
    requires sources { aliases scope.now ≡ sources_of (tables_of scope.now) (views_of scope.now) stmt.now }
    requires narrow { IsNarrow (aliases scope.now) }
    requires target { scope.now.target ≡ target_of (tables_of scope.now) (views_of scope.now) stmt.now }
    requires rels { map (λ s. s.rel) scope.now.sources.now ≡ rels_of (tables_of scope.now) (views_of scope.now) stmt.now }
    ensures bound { IfOk result (λ b. b ≡ bound_among (tables_of scope.now) (views_of scope.now) (aliases scope.now) stmt.now) }
    ensures readable { OnOk result (lowest (reading_faults (tables_of scope.now) (views_of scope.now) stmt.now) ≡ None) }
{
    match stmt {
        Stmt::Insert { tuples, .. } => sound_insert(alloc, scope, tuples.as_slice()),
        Stmt::Update { sets, cond, .. } => sound_update(alloc, scope, sets, cond),
        Stmt::Delete { cond, .. } => sound_delete(alloc, scope, cond),
        Stmt::Select {
            list,
            refs,
            cond,
            order,
        } => sound_query(alloc, scope, list, refs, cond, order),
        Stmt::CreateTable { .. } | Stmt::CreateView { .. } => Err(Stop::Doubt),
        Stmt::Begin => Ok(Bound::Begin),
        Stmt::Commit => Ok(Bound::Commit),
        Stmt::Rollback => Ok(Bound::Rollback),
        Stmt::ShowTasks => Ok(Bound::Tasks),
    }
}

/// What a statement with these aliases is bound to, where one look shows that none of the faults 2 to 6 is in it.
#[tactic(auto, using(crate::proofs::NarrowLemmas::narrow_few))]
pub(crate) fn bound_at_once(alloc: Global, scope: &Scope<'_>, stmt: &Stmt) -> Result<Bound, Stop>
    requires sources { aliases scope.now ≡ sources_of (tables_of scope.now) (views_of scope.now) stmt.now }
    requires narrow { AreNarrow (aliases scope.now) }
    requires target { scope.now.target ≡ target_of (tables_of scope.now) (views_of scope.now) stmt.now }
    requires rels { map (λ s. s.rel) scope.now.sources.now ≡ rels_of (tables_of scope.now) (views_of scope.now) stmt.now }
    ensures bound { IfOk result (λ b. b ≡ bound_among (tables_of scope.now) (views_of scope.now) (aliases scope.now) stmt.now) }
    ensures readable { OnOk result (lowest (reading_faults (tables_of scope.now) (views_of scope.now) stmt.now) ≡ None) }
{
    if scope.sources.len() > 4 {
        return Err(Stop::Doubt);
    }
    bound_in_few(alloc, scope, stmt)
}
