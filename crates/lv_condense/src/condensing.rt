//! Condensing.
ghost use Rattle.std.specs.Prelude.{◌≡◌, true, ◌<◌, ◌≤◌, ◌++◌, List, [], ◌∷◌, length, map, IfOk, OnOk};
ghost use Rattle.std.specs.List.{cons_option, prefix_len};
ghost use Rattle.std.specs.Ordering.{is_eq};
ghost use Rattle.lv_schema.specs.declared.action.DeltaEntry.{DeltaEntry};
ghost use Rattle.lv_schema.specs.declared.table.TableDef.{TableDef};
ghost use Rattle.lv_schema.specs.Condensed.{condensed, found_by, unless};
ghost use Rattle.lv_schema.specs.Keys.{left_by};
ghost use Rattle.lv_schema.specs.Databases.{Db, rows_of, IsDatabase};
ghost use Rattle.lv_schema.specs.Effects.{acted_all};
ghost use Rattle.lv_schema.specs.Nets.{net_of};
ghost use Rattle.lv_schema.specs.Once.{Ascends};
ghost use Rattle.lv_schema.specs.SoundWorld.{CanAct};
ghost use Rattle.lv_schema.specs.World.{table_at};
ghost use Rattle.lv_condense.specs.Touches.{Alike, by_key, collected, gained_in, lost_in, Rises, run_of, touch_cmp, touched};

use crate::collecting::{Touches, touches_in, touches_of};
use crate::net_rows::{Gathers, NetRows};
use crate::touch::Touch;
use lv_schema::{Action, ActionKind, DeltaEntry, Net, TableDef};
use lv_values::NoMemory;
use std::alloc::Global;

/// How many touches from the front on are of the first one's key.
fn run_len(first: &Touch<'_>, touches: &[Touch<'_>]) -> usize
    ensures run { result ≡ prefix_len (λ touch. is_eq (touch_cmp first.now touch)) touches.now }
    ensures within { result ≤ length touches.now }
{
    for (i, touch) in touches.iter().enumerate() {
        if first != touch {
            return i;
        }
    }
    touches.len()
}

/// How many touches at the front are of one key. Cost: a comparison of keys for each of them, none where the keys ascend.
fn first_run(touches: &[Touch<'_>], ascend: bool) -> usize
    requires some { 0 < length touches.now }
    requires ascend { ascend ≡ true → Ascends touch_cmp touches.now }
    ensures { result ≡ run_of touches.now }
{
    if ascend {
        return 1;
    }
    1 + run_len(&touches[0], touches.split_at(1).1)
}

/// Adds the row that a key has lost and the one that it has gained, by the first action on it and the last one.
fn push_ends<'a, G: Gathers<'a>>(
    alloc: Global,
    first: &'a Action,
    last: &'a Action,
    net: &mut G,
) -> Result<(), NoMemory>
    ensures lost { OnOk result ((G.net net.new).minus ≡ (G.net net.old).minus ++ cons_option (unless (found_by first.now.kind first.now.row) (left_by last.now.kind last.now.row)) []) }
    ensures gained { OnOk result ((G.net net.new).plus ≡ (G.net net.old).plus ++ cons_option (unless (left_by last.now.kind last.now.row) (found_by first.now.kind first.now.row)) []) }
{
    match (first.kind, last.kind) {
        (ActionKind::Insert, ActionKind::Delete) => Ok(()),
        (ActionKind::Insert, ActionKind::Insert) => net.gain(alloc, last),
        (ActionKind::Delete, ActionKind::Delete) => net.lose(alloc, first),
        (ActionKind::Delete, ActionKind::Insert) => {
            if first.row.cmp(&last.row).is_eq() {
                return Ok(());
            }
            net.lose(alloc, first)?;
            net.gain(alloc, last)
        }
    }
}

/// Adds what the touches of one key come to.
fn push_run<'a, G: Gathers<'a>>(
    alloc: Global,
    run: &[Touch<'a>],
    net: &mut G,
) -> Result<(), NoMemory>
    requires { 0 < length run.now }
    ensures lost { OnOk result ((G.net net.new).minus ≡ (G.net net.old).minus ++ cons_option (lost_in run.now) []) }
    ensures gained { OnOk result ((G.net net.new).plus ≡ (G.net net.old).plus ++ cons_option (gained_in run.now) []) }
{
    let first = &run[0];
    let last = &run[run.len() - 1];
    push_ends(alloc, first.first, last.last, net)
}

/// How many rows the touches may lose: as many as begin with a row that goes.
fn count_lost(touches: &[Touch<'_>]) -> usize {
    touches
        .iter()
        .filter(|touch| touch.first.kind == ActionKind::Delete)
        .count()
}

/// How many rows the touches may gain: as many as end with a row that comes.
fn count_gained(touches: &[Touch<'_>]) -> usize {
    touches
        .iter()
        .filter(|touch| touch.last.kind == ActionKind::Insert)
        .count()
}

/// What touches in the order of their keys come to, key by key, where it is known whether each is of a lower key than the
/// next one.
fn gather<'a, G: Gathers<'a>>(
    alloc: Global,
    touches: &[Touch<'a>],
    ascend: bool,
) -> Result<G, NoMemory>
    requires rises { Rises touches.now }
    requires ascend { ascend ≡ true → Ascends touch_cmp touches.now }
    ensures lost { IfOk result (λ net. (G.net net).minus ≡ by_key lost_in touches.now) }
    ensures gained { IfOk result (λ net. (G.net net).plus ≡ by_key gained_in touches.now) }
{
    let mut net = G::with_room(alloc, count_lost(touches), count_gained(touches))?;
    let mut at = 0;
    while at < touches.len() {
        let rest = touches.split_at(at).1;
        let len = first_run(rest, ascend);
        push_run(alloc, rest.split_at(len).0, &mut net)?;
        at += len;
    }
    Ok(net)
}

/// The net change of the actions on a table from which a list of touches comes.
fn condense_list<'a, G: Gathers<'a>>(
    alloc: Global,
    table: &TableDef,
    mut list: Vec<Touch<'a>>,
    ascend: bool,
) -> Result<G, NoMemory>
    requires { ascend ≡ true → Ascends touch_cmp list.items }
    ensures condensed { IfOk result (λ net. (tables : List TableDef) (actions : List Action) → Alike list.entry.items (touched table.now.key table.now.no actions) → table_at tables table.now.no ≡ table.now
        → G.net net ≡ condensed tables actions table.now.no) }
    ensures net { IfOk result (λ net. (tables : List TableDef) (db : Db) (actions : List Action) → Alike list.entry.items (touched table.now.key table.now.no actions) → IsDatabase tables db → CanAct tables db actions → table.now.no < length tables → table_at tables table.now.no ≡ table.now
        → G.net net ≡ net_of (rows_of db table.now.no) (rows_of (acted_all tables db actions) table.now.no)) }
{
    if ascend {
        return gather(alloc, &list, true);
    }
    list.sort()?;
    gather(alloc, &list, false)
}

/// The net change of the actions on a table from which one touch comes.
fn condense_one<'a, G: Gathers<'a>>(
    alloc: Global,
    table: &TableDef,
    touch: &Touch<'a>,
) -> Result<G, NoMemory>
    ensures condensed { IfOk result (λ net. (tables : List TableDef) (actions : List Action) → Alike (touch.now ∷ []) (touched table.now.key table.now.no actions) → table_at tables table.now.no ≡ table.now
        → G.net net ≡ condensed tables actions table.now.no) }
    ensures net { IfOk result (λ net. (tables : List TableDef) (db : Db) (actions : List Action) → Alike (touch.now ∷ []) (touched table.now.key table.now.no actions) → IsDatabase tables db → CanAct tables db actions → table.now.no < length tables → table_at tables table.now.no ≡ table.now
        → G.net net ≡ net_of (rows_of db table.now.no) (rows_of (acted_all tables db actions) table.now.no)) }
{
    gather(alloc, std::slice::from_ref(touch), true)
}

/// The net change of the actions on a table from which these touches come. One touch alone needs no list.
fn condense_touches<'a, G: Gathers<'a>>(
    alloc: Global,
    table: &TableDef,
    mut touches: Touches<'a>,
) -> Result<G, NoMemory>
    requires { touches.ascend ≡ true → Ascends touch_cmp touches.list.items }
    ensures condensed { IfOk result (λ net. (tables : List TableDef) (actions : List Action) → Alike (collected touches.entry.list.items touches.entry.latest) (touched table.now.key table.now.no actions) → table_at tables table.now.no ≡ table.now
        → G.net net ≡ condensed tables actions table.now.no) }
    ensures net { IfOk result (λ net. (tables : List TableDef) (db : Db) (actions : List Action) → Alike (collected touches.entry.list.items touches.entry.latest) (touched table.now.key table.now.no actions) → IsDatabase tables db → CanAct tables db actions → table.now.no < length tables → table_at tables table.now.no ≡ table.now
        → G.net net ≡ net_of (rows_of db table.now.no) (rows_of (acted_all tables db actions) table.now.no)) }
{
    if let Some(latest) = touches.latest.take() {
        if touches.list.is_empty() {
            return condense_one(alloc, table, &latest);
        }
        touches.put(latest)?;
    }
    condense_list(alloc, table, touches.list, touches.ascend)
}

/// The net change that actions make of a table: for each key that they write, in the order of the keys, the row that the
/// first of them finds and the one that the last of them leaves, where these differ. So it is the net change from each
/// state on which they can be taken to the one to which they lead.
///
/// Cost: for each action on the table a test whether its key is the last action's, and copies of the rows of the net
/// change. Keys of one number that 64 bits hold are tested and compared as numbers, each read from its row once. Where all
/// actions are on one key, no list is made of them. Else, for actions in a row on one key: a key above all before it costs
/// one comparison more. Up to sixteen keys are found again, or put in their place, in any order, by a comparison for each
/// of a greater key: so however many actions are on a few keys, what is gathered is one entry a key, and nothing is sorted.
/// Where there are more keys and they do not ascend, also n log n comparisons, where n counts actions in a row on one key
/// once.
pub fn condense_actions(
    alloc: Global,
    table: &TableDef,
    actions: &[Action],
) -> Result<Net, NoMemory>
    ensures condensed { IfOk result (λ net. (tables : List TableDef) → table_at tables table.now.no ≡ table.now → net ≡ condensed tables actions.now table.now.no) }
    ensures net { IfOk result (λ net. (tables : List TableDef) (db : Db) → IsDatabase tables db → CanAct tables db actions.now → table.now.no < length tables → table_at tables table.now.no ≡ table.now
        → net ≡ net_of (rows_of db table.now.no) (rows_of (acted_all tables db actions.now) table.now.no)) }
{
    let touches = touches_in(alloc, table, actions)?;
    condense_touches(alloc, table, touches)
}

/// References to the rows of the net change that `condense` copies, where they lie. Cost: as of `condense_actions`, with a
/// reference to each row of the net change in place of a copy.
pub fn condense_in_place<'a>(
    alloc: Global,
    table: &'a TableDef,
    entries: &'a [DeltaEntry],
) -> Result<NetRows<'a>, NoMemory>
    ensures condensed { IfOk result (λ net. (tables : List TableDef) → table_at tables table.now.no ≡ table.now
        → net ≡ condensed tables (map (λ (e : DeltaEntry). e.action) entries.now) table.now.no) }
    ensures net { IfOk result (λ net. (tables : List TableDef) (db : Db) → IsDatabase tables db → CanAct tables db (map (λ (e : DeltaEntry). e.action) entries.now) → table.now.no < length tables → table_at tables table.now.no ≡ table.now
        → net ≡ net_of (rows_of db table.now.no) (rows_of (acted_all tables db (map (λ (e : DeltaEntry). e.action) entries.now)) table.now.no)) }
{
    let touches = touches_of(alloc, table, entries)?;
    condense_touches(alloc, table, touches)
}

/// The net change that the actions of entries make of a table, as `condense_actions` says it of the actions, at the same
/// cost.
pub fn condense(alloc: Global, table: &TableDef, entries: &[DeltaEntry]) -> Result<Net, NoMemory>
    ensures condensed { IfOk result (λ net. (tables : List TableDef) → table_at tables table.now.no ≡ table.now
        → net ≡ condensed tables (map (λ (e : DeltaEntry). e.action) entries.now) table.now.no) }
    ensures net { IfOk result (λ net. (tables : List TableDef) (db : Db) → IsDatabase tables db → CanAct tables db (map (λ (e : DeltaEntry). e.action) entries.now) → table.now.no < length tables → table_at tables table.now.no ≡ table.now
        → net ≡ net_of (rows_of db table.now.no) (rows_of (acted_all tables db (map (λ (e : DeltaEntry). e.action) entries.now)) table.now.no)) }
{
    let touches = touches_of(alloc, table, entries)?;
    condense_touches(alloc, table, touches)
}
