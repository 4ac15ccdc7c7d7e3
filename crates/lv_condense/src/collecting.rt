//! Collecting the touches of a table.
ghost use Rattle.std.specs.Prelude.{◌≡◌, ◌-◌, ◌<◌, ◌≤◌, true, false, ◌++◌, [], ◌∷◌, List, None, drop, length, map, slice_index_or, IfOk, OnOk};
ghost use Rattle.std.specs.List.{AllByRecursion};
ghost use Rattle.std.specs.Ordering.{is_lt};
ghost use Rattle.std.specs.declared.cmp.Ordering.TheVariants.{Less};
ghost use Rattle.lv_schema.specs.declared.action.DeltaEntry.{DeltaEntry};
ghost use Rattle.lv_schema.specs.Once.{Ascends};
ghost use Rattle.lv_condense.specs.Touches.{Alike, ATouch, collected, touch_by, touch_cmp, touched};

use crate::touch::Touch;
use lv_schema::{Action, DeltaEntry, TableDef};
use lv_values::NoMemory;
use std::alloc::Global;

/// The longest list of touches that is searched for an action's key, and the length up to which touches are put in place.
const SHORT: usize = 16;

/// The touches of a table by its actions: the latest one, which the next action may end, and the others, with what is known
/// of their order. Actions on one key in a row, as those of an update, are one touch, which is not looked up.
#[derive(Drop)]
pub(crate) struct Touches<'a> {
    /// The touches but for the latest one.
    pub list: Vec<Touch<'a>>,
    /// Whether each of these is of a lower key than the next one.
    pub ascend: bool,
    pub latest: Option<Touch<'a>>,
}

impl<'a> Touches<'a> {
    /// No touches.
    fn new(alloc: Global) -> Touches<'a>
        ensures list { result.list.items ≡ [] }
        ensures latest { result.latest ≡ None }
        ensures ascend { result.ascend ≡ true }
    {
        Touches {
            list: Vec::new(alloc),
            ascend: true,
            latest: None,
        }
    }

    /// Whether an action is on the latest touch's key, which then ends with it. Cost: a test of that key.
    #[inline(always)]
    fn follow(&mut self, key: &[u8], action: &'a Action) -> bool
        ensures alike { result ≡ true → (rest : List ATouch) → Alike (collected self.new.list.items self.new.latest ++ rest) (collected self.old.list.items self.old.latest ++ touch_by key.now action.now ∷ rest) }
        ensures same { result ≡ false → self.new.latest ≡ self.old.latest }
        ensures list { self.new.list ≡ self.old.list }
        ensures ascend { self.new.ascend ≡ self.old.ascend }
    {
        let Some(latest) = &mut self.latest else {
            return false;
        };
        if latest.is_touched_by(key, action) {
            latest.end_at(action);
            return true;
        }
        false
    }

    /// Begins the touch by an action, which is the latest one now. Cost: that of `put` for the one before it.
    fn begin(&mut self, key: &'a [u8], action: &'a Action) -> Result<(), NoMemory>
        requires { self.old.ascend ≡ true → Ascends touch_cmp self.old.list.items }
        ensures alike { OnOk result ((rest : List ATouch) → Alike (collected self.new.list.items self.new.latest ++ rest) (collected self.old.list.items self.old.latest ++ touch_by key.now action.now ∷ rest)) }
        ensures ascend { OnOk result (self.new.ascend ≡ true → Ascends touch_cmp self.new.list.items) }
    {
        match self.latest.replace(Touch::by(key, action)) {
            Some(done) => self.put(done),
            None => Ok(()),
        }
    }

    /// Whether the last touch, if there is one, is of a lower key than a touch.
    fn ends_below(&self, touch: &Touch<'a>) -> bool
        ensures { result ≡ true → (Ascends touch_cmp self.now.list.items) → Ascends touch_cmp (self.now.list.items ++ touch.now ∷ []) }
    {
        let list: &[Touch<'a>] = &self.list;
        if list.is_empty() {
            return true;
        }
        list[list.len() - 1].is_below(touch)
    }

    /// Puts a touch behind the others. The first takes room for as many as are put in place.
    fn push(&mut self, touch: Touch<'a>) -> Result<(), NoMemory>
        ensures list { OnOk result (self.new.list.items ≡ self.old.list.items ++ touch.entry ∷ []) }
        ensures ascend { self.new.ascend ≡ self.old.ascend }
        ensures latest { self.new.latest ≡ self.old.latest }
    {
        if self.list.is_empty() {
            self.list.reserve(SHORT)?;
        }
        self.list.push(touch)?;
        Ok(())
    }

    /// Puts a touch to the others: while these ascend and are few, the one of its key ends with it, or it goes to its place;
    /// else it goes behind them. Cost: a comparison where it is of a key above all; else, of up to sixteen, one for each of a
    /// greater key, and a move of as many.
    pub(crate) fn put(&mut self, touch: Touch<'a>) -> Result<(), NoMemory>
        requires { self.old.ascend ≡ true → Ascends touch_cmp self.old.list.items }
        ensures alike { OnOk result ((rest : List ATouch) → Alike (self.new.list.items ++ rest) (self.old.list.items ++ touch.entry ∷ rest)) }
        ensures ascend { OnOk result (self.new.ascend ≡ true → Ascends touch_cmp self.new.list.items) }
        ensures latest { self.new.latest ≡ self.old.latest }
    {
        if !self.ascend || self.ends_below(&touch) {
            return self.push(touch);
        }
        if self.list.len() <= SHORT {
            let at = place_behind(&self.list, &touch);
            if at > 0 && self.list[at - 1].is_of_key(&touch) {
                self.list[at - 1].end_with(&touch);
                return Ok(());
            }
            if self.list.len() < SHORT {
                self.list.insert(at, touch)?;
                return Ok(());
            }
        }
        self.push(touch)?;
        self.ascend = false;
        Ok(())
    }
}

/// How many of the touches there are up to the last one that is of no greater key than a touch. Cost: a comparison for each behind it.
fn place_behind<'a>(touches: &[Touch<'a>], touch: &Touch<'a>) -> usize
    ensures within { result ≤ length touches.now }
    ensures above { AllByRecursion (λ x. touch_cmp touch.now x ≡ Less) (drop result touches.now) }
    ensures last { (x : ATouch) → 0 < result → x ≡ slice_index_or touches.now (result - 1) x → is_lt (touch_cmp touch.now x) ≡ false }
{
    let mut at = touches.len();
    while at > 0 && touch.is_below(&touches[at - 1]) {
        at -= 1;
    }
    at
}

/// The touches of a table by the actions of entries.
pub(crate) fn touches_of<'a>(
    alloc: Global,
    table: &'a TableDef,
    entries: &'a [DeltaEntry],
) -> Result<Touches<'a>, NoMemory>
    ensures alike { IfOk result (λ touches. Alike (collected touches.list.items touches.latest) (touched table.now.key table.now.no (map (λ (e : DeltaEntry). e.action) entries.now))) }
    ensures ascend { IfOk result (λ touches. touches.ascend ≡ true → Ascends touch_cmp touches.list.items) }
{
    let key = table.key.as_slice();
    let mut touches = Touches::new(alloc);
    for entry in entries {
        if table.no == entry.action.table && !touches.follow(key, &entry.action) {
            touches.begin(key, &entry.action)?;
        }
    }
    Ok(touches)
}

/// The touches of a table by actions.
pub(crate) fn touches_in<'a>(
    alloc: Global,
    table: &'a TableDef,
    actions: &'a [Action],
) -> Result<Touches<'a>, NoMemory>
    ensures alike { IfOk result (λ touches. Alike (collected touches.list.items touches.latest) (touched table.now.key table.now.no actions.now)) }
    ensures ascend { IfOk result (λ touches. touches.ascend ≡ true → Ascends touch_cmp touches.list.items) }
{
    let key = table.key.as_slice();
    let mut touches = Touches::new(alloc);
    for action in actions {
        if table.no == action.table && !touches.follow(key, action) {
            touches.begin(key, action)?;
        }
    }
    Ok(touches)
}
