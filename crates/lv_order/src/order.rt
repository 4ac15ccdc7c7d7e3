//! A program's events, in the order in which they come.
ghost use Rattle.std.specs.Prelude.{◌≡◌, ℕ, ◌+◌, ◌-◌, ◌<◌, ◌≤◌, [], ◌∷◌, ◌++◌, ◌==◌, cond, map, length, replicate, slice_index, IfOk, OnOk};
ghost use Rattle.std.specs.List.{range_with_len, flat_map};
ghost use Rattle.lv_plain.specs.declared.event.Event.TheVariants.{Turn as turn_of, Fetch as fetch_of, Install as install_of};
ghost use Rattle.lv_plain.specs.Events.{item_events, is_turn_of, greatest, left_over, round, rounds, schedule};
ghost use Rattle.lv_plain.specs.Limits.{IsWithinLimits, statements_of};
ghost use Rattle.lv_order.specs.Left.{left_in};

use lv_plain::{Event, Events, OrderItem, Program, Script};
use lv_values::{Copying, Items, NoMemory};
use std::alloc::Global;

/// For each session, from session 1 on, a number of statements.
type Counts = Items<usize>;

/// How many statements each session has.
fn statement_counts(alloc: Global, sessions: &[Script]) -> Result<Counts, NoMemory>
    ensures { IfOk result (λ counts. counts ≡ statements_of sessions.now) }
{
    let mut counts = Counts::new(alloc);
    for session in sessions {
        counts.push(session.lines.len())?;
    }
    Ok(counts)
}

/// One statement less of the session, if it has one.
fn count_off(left: &mut Counts, session: u32)
    ensures as_many { length left.new ≡ length left.old }
    ensures each { (i : ℕ) → i < length left.old → slice_index left.new i ≡ slice_index left.old i - cond (session == i + 1) 1 0 }
{
    let number = session as usize;
    if 0 < number && number <= left.len() {
        let count = *left.get(number - 1);
        left.set(number - 1, count.saturating_sub(1));
    }
}

/// One statement less of the session whose turn an item is.
fn count_item_off(left: &mut Counts, item: &OrderItem)
    ensures as_many { length left.new ≡ length left.old }
    ensures each { (i : ℕ) → i < length left.old → slice_index left.new i ≡ slice_index left.old i - cond (is_turn_of (i + 1) item.now) 1 0 }
{
    if let OrderItem::Turn { session } = item {
        count_off(left, *session);
    }
}

/// How many statements the order leaves of each session.
fn left_of_each(alloc: Global, program: &Program) -> Result<Counts, NoMemory>
    ensures { IfOk result (λ left. left ≡ map (left_over program.now) (range_with_len 1 (length program.now.sessions))) }
{
    let mut left = statement_counts(alloc, program.sessions.as_slice())?;
    for item in program.order.as_slice() {
        count_item_off(&mut left, item);
    }
    Ok(left)
}

/// A session's turn.
fn push_turn(events: &mut Events, session: u32) -> Result<(), NoMemory>
    ensures { OnOk result (events.new ≡ events.old ++ turn_of session ∷ []) }
{
    events.push(Event::Turn { session })
}

/// The setup's turns.
fn push_setup(events: &mut Events, count: usize) -> Result<(), NoMemory>
    ensures { OnOk result (events.new ≡ events.old ++ replicate count (turn_of 0)) }
{
    for _ in 0..count {
        push_turn(events, 0)?;
    }
    Ok(())
}

/// A worker's fetch, and then its install.
fn push_work(events: &mut Events, worker: u32) -> Result<(), NoMemory>
    ensures { OnOk result (events.new ≡ events.old ++ fetch_of worker ∷ install_of worker ∷ []) }
{
    events.push(Event::Fetch { worker })?;
    events.push(Event::Install { worker })
}

/// The events that an item stands for.
fn push_item(alloc: Global, events: &mut Events, item: &OrderItem) -> Result<(), NoMemory>
    ensures { OnOk result (events.new ≡ events.old ++ item_events item.now) }
{
    match item {
        OrderItem::Turn { session } => push_turn(events, *session),
        OrderItem::Fetch { worker } => events.push(Event::Fetch { worker: *worker }),
        OrderItem::Install { worker } => events.push(Event::Install { worker: *worker }),
        OrderItem::Work { worker } => push_work(events, *worker),
        OrderItem::Mark { view } => {
            let view = view.copy(alloc)?;
            events.push(Event::Mark { view })
        }
        OrderItem::Clean => events.push(Event::Clean),
    }
}

/// The order's events.
fn push_order(alloc: Global, events: &mut Events, order: &[OrderItem]) -> Result<(), NoMemory>
    ensures { OnOk result (events.new ≡ events.old ++ flat_map item_events order.now) }
{
    for item in order {
        push_item(alloc, events, item)?;
    }
    Ok(())
}

/// The turns of a round, of the sessions that have more than `done` statements left.
fn push_round(events: &mut Events, left: &[usize], done: usize) -> Result<(), NoMemory>
    requires { length left.now ≤ 16 }
    ensures { OnOk result (events.new ≡ events.old ++ round (range_with_len 1 (length left.now)) (left_in left.now) done) }
{
    for (i, count) in left.iter().enumerate() {
        if done < *count {
            push_turn(events, i as u32 + 1)?;
        }
    }
    Ok(())
}

/// The greatest of these numbers, or 0.
fn greatest_of(counts: &[usize]) -> usize
    ensures { result ≡ greatest counts.now }
{
    let mut most = 0;
    for count in counts {
        most = most.max(*count);
    }
    most
}

/// The rounds, in which the sessions take turns until none has a statement left.
fn push_rounds(events: &mut Events, left: &[usize]) -> Result<(), NoMemory>
    requires { length left.now ≤ 16 }
    ensures { OnOk result (events.new ≡ events.old ++ rounds (range_with_len 1 (length left.now)) (left_in left.now)) }
{
    for done in 0..greatest_of(left) {
        push_round(events, left, done)?;
    }
    Ok(())
}

/// The events of a program in the order in which they come: the setup's turns, which is session 0; what the order's
/// items stand for, of which `work` is a fetch and an install; and what the order leaves, in rounds over the sessions
/// as they are declared, in each one turn for each session that has a statement left.
///
/// Cost: one step for each event and, in each round, for each session; a mark's name is copied. Their list takes its room
/// once.
pub fn events_in_order(alloc: Global, program: &Program) -> Result<Events, NoMemory>
    requires within { IsWithinLimits program.now }
    ensures { IfOk result (λ events. events ≡ schedule program.now) }
{
    let left = left_of_each(alloc, program)?;
    let room = program.statements() as usize + 2 * program.order.len();
    let mut events = Events::from_vec(Vec::with_capacity(alloc, room)?);
    push_setup(&mut events, program.setup.len())?;
    push_order(alloc, &mut events, program.order.as_slice())?;
    push_rounds(&mut events, left.as_slice())?;
    Ok(events)
}
