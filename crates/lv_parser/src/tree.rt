//! The syntax tree of a statement, with the place of each name, value and tuple in the line.

use lv_values::{Boxed, Items, Text, Value};

/// Names, in the order in which they stand.
pub type Names = Items<Named>;

/// Columns, in the order in which they stand.
pub type ColNames = Items<ColName>;

/// The columns of a table.
pub type ColumnTrees = Items<ColumnTree>;

/// What a view lists.
pub type ItemTrees = Items<ItemTree>;

/// The tables and views after FROM.
pub type RefTrees = Items<RefTree>;

/// The values of a tuple.
pub type Literals = Items<Literal>;

/// The tuples of an INSERT.
pub type Tuples = Items<Tuple>;

/// What an UPDATE sets.
pub type Assigns = Items<Assign>;

/// Conditions.
pub type CondTrees = Items<CondTree>;

/// The columns after ORDER BY, each with whether it falls.
pub type OrderTrees = Items<(ColName, bool)>;

/// A statement. Where it has no condition, its condition is `True`.
#[derive(Drop)]
pub enum Stmt {
    /// A table: its columns, and the columns of its key.
    CreateTable {
        name: Named,
        columns: ColumnTrees,
        key: Names,
    },
    /// A view: what it lists, what it reads, which tuples it keeps, and by which columns it groups them, if any.
    /// The condition is the And of the ON conditions in order and then of WHERE; one part stands alone.
    CreateView {
        name: Named,
        items: ItemTrees,
        refs: RefTrees,
        cond: CondTree,
        groups: ColNames,
    },
    /// New rows of a table.
    Insert {
        table: Named,
        tuples: Tuples,
    },
    /// Changed rows of a table.
    Update {
        table: Named,
        sets: Assigns,
        cond: CondTree,
    },
    /// Deleted rows of a table.
    Delete {
        table: Named,
        cond: CondTree,
    },
    /// A query. The list is `None` for `*`. The condition is that of a view. The flag of an order column is true
    /// for DESC.
    Select {
        list: Option<ColNames>,
        refs: RefTrees,
        cond: CondTree,
        order: OrderTrees,
    },
    /// BEGIN.
    Begin,
    /// COMMIT.
    Commit,
    /// ROLLBACK.
    Rollback,
    /// SHOW TASKS.
    ShowTasks,
}

/// A name in lower case, and the place of its first byte in the line, from 1.
#[derive(Drop)]
pub struct Named {
    pub name: Text,
    pub byte: u32,
}

/// A column, alone or behind the name of what it is a column of.
#[derive(Drop)]
pub struct ColName {
    pub qualifier: Option<Named>,
    pub name: Named,
}

/// A value, and the place of its first byte in the line, from 1: of its sign, its first digit or its quote.
#[derive(Drop)]
pub struct Literal {
    pub value: Value,
    pub byte: u32,
}

/// The values of one row, and the place of the parenthesis before them, from 1.
#[derive(Drop)]
pub struct Tuple {
    pub byte: u32,
    pub values: Literals,
}

/// A column of a table that is made.
#[derive(Drop)]
pub struct ColumnTree {
    pub name: Named,
    pub kind: ColumnKind,
}

/// What a column holds.
#[derive(Clone, Copy, Debug, PartialEq, Eq)]
pub enum ColumnKind {
    /// Whole numbers.
    Int,
    /// Texts.
    Text,
}

/// A table or view after FROM, with the name that it goes by, where one is given.
#[derive(Drop)]
pub struct RefTree {
    pub name: Named,
    pub alias: Option<Named>,
}

/// One item that a view lists.
#[derive(Drop)]
pub enum ItemTree {
    /// A column, with the name that it gets, where one is given.
    Plain { col: ColName, output: Option<Named> },
    /// The sum of a column in each group.
    Sum { col: ColName, output: Named },
    /// The number of tuples in each group.
    Count { output: Named },
}

/// A column of a row, and what it is set to.
#[derive(Drop)]
pub struct Assign {
    pub column: Named,
    pub value: AssignValue,
}

/// What a column is set to.
#[derive(Drop)]
pub enum AssignValue {
    /// A value.
    Literal(Literal),
    /// What another column holds.
    Column(Named),
    /// What a column holds, and this much more; after a `-` the amount is the number negated.
    Plus { column: Named, amount: i128 },
}

/// A condition. Parentheses make no node.
#[derive(Drop)]
pub enum CondTree {
    /// No condition.
    True,
    /// A comparison.
    Cmp {
        op: Sign,
        left: OperandTree,
        right: OperandTree,
    },
    /// All of these, two or more.
    And(CondTrees),
    /// One of these at least, two or more.
    Or(CondTrees),
    /// Not this one.
    Not(Boxed<CondTree>),
}

/// One side of a comparison.
#[derive(Drop)]
pub enum OperandTree {
    /// A column.
    Column(ColName),
    /// A value.
    Literal(Literal),
}

/// The sign of a comparison.
#[derive(Clone, Copy, Debug, PartialEq, Eq)]
pub enum Sign {
    /// `=`
    Eq,
    /// `<>`
    Ne,
    /// `<`
    Lt,
    /// `<=`
    Le,
    /// `>`
    Gt,
    /// `>=`
    Ge,
}
