//! Forms of faults.
ghost use Rattle.lv_lines.specs.FaultForms as form;

use crate::names::Names;
use crate::value_forms::{AnyValue, Name, Own};
use lv_forms::{After, Count, Ended, Form, Joined, Pair, Small, Wide, print_after, which};
use lv_reading::{Cursor, Stop};
use lv_schema::{Fault, LimitKind, ProfileRule};
use lv_values::{Bytes, NoMemory, Row};
use std::alloc::Global;

/// A limit, by its word.
#[derive(Clone, Copy)]
pub(crate) struct AnyLimit;

const LIMITS: [&[u8]; 10] = [
    b"name",
    b"tables",
    b"views",
    b"columns",
    b"aliases",
    b"comparisons",
    b"text",
    b"tuples",
    b"list",
    b"order",
];

impl Form for AnyLimit {
    type Value = LimitKind;

    ghost form = { λ _. form.any_limit };

    fn print(&self, value: &LimitKind, out: &mut Bytes) -> Result<(), NoMemory> {
        match value {
            LimitKind::Name => out.extend_from_slice(b"name"),
            LimitKind::Tables => out.extend_from_slice(b"tables"),
            LimitKind::Views => out.extend_from_slice(b"views"),
            LimitKind::Columns => out.extend_from_slice(b"columns"),
            LimitKind::Aliases => out.extend_from_slice(b"aliases"),
            LimitKind::Comparisons => out.extend_from_slice(b"comparisons"),
            LimitKind::Text => out.extend_from_slice(b"text"),
            LimitKind::Tuples => out.extend_from_slice(b"tuples"),
            LimitKind::List => out.extend_from_slice(b"list"),
            LimitKind::Order => out.extend_from_slice(b"order"),
        }
    }

    fn read(&self, _alloc: Global, cursor: &mut Cursor<'_>) -> Result<LimitKind, Stop> {
        match which(&LIMITS, cursor)? {
            0 => Ok(LimitKind::Name),
            1 => Ok(LimitKind::Tables),
            2 => Ok(LimitKind::Views),
            3 => Ok(LimitKind::Columns),
            4 => Ok(LimitKind::Aliases),
            5 => Ok(LimitKind::Comparisons),
            6 => Ok(LimitKind::Text),
            7 => Ok(LimitKind::Tuples),
            8 => Ok(LimitKind::List),
            9 => Ok(LimitKind::Order),
            _ => unreachable!(),
        }
    }
}

/// A rule of views, by its word.
#[derive(Clone, Copy)]
pub(crate) struct AnyRule;

const RULES: [&[u8]; 4] = [b"base", b"group", b"count", b"key"];

impl Form for AnyRule {
    type Value = ProfileRule;

    ghost form = { λ _. form.any_rule };

    fn print(&self, value: &ProfileRule, out: &mut Bytes) -> Result<(), NoMemory> {
        match value {
            ProfileRule::Base => out.extend_from_slice(b"base"),
            ProfileRule::Group => out.extend_from_slice(b"group"),
            ProfileRule::Count => out.extend_from_slice(b"count"),
            ProfileRule::Key => out.extend_from_slice(b"key"),
        }
    }

    fn read(&self, _alloc: Global, cursor: &mut Cursor<'_>) -> Result<ProfileRule, Stop> {
        match which(&RULES, cursor)? {
            0 => Ok(ProfileRule::Base),
            1 => Ok(ProfileRule::Group),
            2 => Ok(ProfileRule::Count),
            3 => Ok(ProfileRule::Key),
            _ => unreachable!(),
        }
    }
}

/// Values in parentheses.
type Key = After<'static, Ended<'static, Joined<'static, AnyValue>>>;

const KEY: Key = After(b"(", Ended(Joined(b", ", AnyValue), b")"));

/// A fault: its number, and what it says.
#[derive(Clone, Copy)]
pub(crate) struct AnyFault<'a> {
    pub(crate) names: &'a Names,
}

const FAULTS: [&[u8]; 18] = [
    b"1 syntax at byte ",
    b"2 unknown name ",
    b"3 ambiguous name ",
    b"4 name in use ",
    b"5 kinds differ at byte ",
    b"6 limit ",
    b"7 view profile ",
    b"8 create outside setup",
    b"9 already in a transaction",
    b"10 no transaction",
    b"11 key column assigned ",
    b"12 number out of range ",
    b"13 duplicate key ",
    b"14 table full ",
    b"15 write conflict ",
    b"16 table full at commit ",
    b"17 store fault",
    b"18 journal full need ",
];

impl<'a> Form for AnyFault<'a> {
    type Value = Fault;

    ghost form = { λ s. form.any_fault s.names.now };

    fn print(&self, fault: &Fault, out: &mut Bytes) -> Result<(), NoMemory> {
        let table_name = Name(&self.names.tables);
        let table_key = Pair(table_name, b" ", KEY);
        let key_commit = Pair(KEY, b" commit ", Count);
        let conflict = Pair(table_name, b" ", key_commit);
        match fault {
            Fault::Syntax { byte } => print_after(b"1 syntax at byte ", &Small, byte, out),
            Fault::Unknown { name } => print_after(b"2 unknown name ", &Own, name, out),
            Fault::Ambiguous { name } => print_after(b"3 ambiguous name ", &Own, name, out),
            Fault::InUse { name } => print_after(b"4 name in use ", &Own, name, out),
            Fault::Kinds { byte } => print_after(b"5 kinds differ at byte ", &Small, byte, out),
            Fault::Limit { which, most } => {
                let form = Pair(AnyLimit, b" ", Small);
                print_after(b"6 limit ", &form, &(*which, *most), out)
            }
            Fault::Profile { rule } => print_after(b"7 view profile ", &AnyRule, rule, out),
            Fault::NotSetup => out.extend_from_slice(b"8 create outside setup"),
            Fault::InTransaction => out.extend_from_slice(b"9 already in a transaction"),
            Fault::NoTransaction => out.extend_from_slice(b"10 no transaction"),
            Fault::KeyAssigned { name } => print_after(b"11 key column assigned ", &Own, name, out),
            Fault::Range { number } => print_after(b"12 number out of range ", &Wide, number, out),
            Fault::Duplicate { table, key } => {
                out.extend_from_slice(b"13 duplicate key ")?;
                table_key.print_both(table, key, out)
            }
            Fault::TableFull { table } => print_after(b"14 table full ", &table_name, table, out),
            Fault::Conflict { table, key, commit } => conflict.print_three(
                b"15 write conflict ",
                table,
                key,
                commit,
                out,
            ),
            Fault::MergedFull { table } => print_after(
                b"16 table full at commit ",
                &table_name,
                table,
                out,
            ),
            Fault::Store => out.extend_from_slice(b"17 store fault"),
            Fault::JournalFull { need, limit } => {
                let form = Pair(Count, b" limit ", Count);
                print_after(b"18 journal full need ", &form, &(*need, *limit), out)
            }
        }
    }

    #[tactic(auto, unfolding(lv_forms::specs::Tables::which))]
    fn read(&self, alloc: Global, cursor: &mut Cursor<'_>) -> Result<Fault, Stop> {
        let table_name = Name(&self.names.tables);
        let table_key = Pair(table_name, b" ", KEY);
        let key_commit = Pair(KEY, b" commit ", Count);
        let conflict = Pair(table_name, b" ", key_commit);
        match which(&FAULTS, cursor)? {
            0 => Ok(Fault::Syntax {
                byte: Small.read(alloc, cursor)?,
            }),
            1 => Ok(Fault::Unknown {
                name: Own.read(alloc, cursor)?,
            }),
            2 => Ok(Fault::Ambiguous {
                name: Own.read(alloc, cursor)?,
            }),
            3 => Ok(Fault::InUse {
                name: Own.read(alloc, cursor)?,
            }),
            4 => Ok(Fault::Kinds {
                byte: Small.read(alloc, cursor)?,
            }),
            5 => {
                let form = Pair(AnyLimit, b" ", Small);
                let (which, most) = form.read(alloc, cursor)?;
                Ok(Fault::Limit { which, most })
            }
            6 => Ok(Fault::Profile {
                rule: AnyRule.read(alloc, cursor)?,
            }),
            7 => Ok(Fault::NotSetup),
            8 => Ok(Fault::InTransaction),
            9 => Ok(Fault::NoTransaction),
            10 => Ok(Fault::KeyAssigned {
                name: Own.read(alloc, cursor)?,
            }),
            11 => Ok(Fault::Range {
                number: Wide.read(alloc, cursor)?,
            }),
            12 => {
                let (table, key) = table_key.read(alloc, cursor)?;
                Ok(Fault::Duplicate { table, key })
            }
            13 => Ok(Fault::TableFull {
                table: table_name.read(alloc, cursor)?,
            }),
            14 => {
                let (table, (key, commit)) = conflict.read(alloc, cursor)?;
                Ok(Fault::Conflict { table, key, commit })
            }
            15 => Ok(Fault::MergedFull {
                table: table_name.read(alloc, cursor)?,
            }),
            16 => Ok(Fault::Store),
            17 => {
                let form = Pair(Count, b" limit ", Count);
                let (need, limit) = form.read(alloc, cursor)?;
                Ok(Fault::JournalFull { need, limit })
            }
            _ => unreachable!(),
        }
    }
}
