//! A stored policy.
ghost use Rattle.std.specs.Prelude.{◌≡◌, ◌<◌, ℕ, List, length};
ghost use Rattle.lv_schema.specs.declared.pending.Pending.{Pending};
ghost use Rattle.lv_schema.specs.Policies.{chosen};
ghost use Rattle.lv_picker.specs.Choices.{IsChoice};

use lv_schema::Pending;

/// A function that is given the views with pending tasks, and answers the place of one.
pub type Choice = Box<dyn Fn(&[Pending]) -> usize + Send>;

/// A policy: which of the views with pending tasks a worker takes. It keeps a function, beside the fact that this
/// answers the choice of its kind.
#[derive(Drop)]
pub struct Picker {
    kind: u8,
    choice: Choice,
    ghost callable: { (list : _) → IsChoice list.now → Choice.pre choice list },
    ghost answers: { (list : _) (at : ℕ) → IsChoice list.now → Choice.post choice list at → at ≡ chosen kind list.now },
}

impl Picker {
    /// Keeps a function that answers the choice of this kind: 0 the view with the oldest task, 1 the one with the most
    /// actions, 2 the one with the least number.
    pub fn new(kind: u8, choice: Choice) -> Picker
        requires known { kind < 3 }
        requires callable { (list : _) → IsChoice list.now → Choice.pre choice list }
        requires answers { (list : _) (at : ℕ) → IsChoice list.now → Choice.post choice list at → at ≡ chosen kind list.now }
        ensures { result.kind ≡ kind }
    {
        Picker { kind, choice }
    }

    /// The policy's number.
    pub fn kind(&self) -> u8
        ensures { result ≡ self.now.kind }
    {
        self.kind
    }

    /// What the function answers.
    fn answer(&self, list: &[Pending]) -> usize
        requires { IsChoice list.now }
        ensures { result ≡ chosen self.now.kind list.now }
    {
        (self.choice)(list)
    }

    /// The place of the view that a worker takes, among one view to 32 by their numbers. It takes no memory.
    /// Cost: that of the function.
    pub fn choose(&self, list: &[Pending]) -> usize
        requires { IsChoice list.now }
        ensures chosen { result ≡ chosen self.now.kind list.now }
        ensures place { result < length list.now }
    {
        self.answer(list)
    }
}
