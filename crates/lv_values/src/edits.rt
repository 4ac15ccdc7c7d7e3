//! Changes of each element in place, and tests of elements.
ghost use Rattle.std.specs.Prelude.{◌≡◌, Bool, map, filter, vec_len, vec_capacity, ◌≤◌};

/// A change of one element, made in place. What it makes of an element depends on the element alone.
pub trait Edit<T> {
    /// What becomes of an element.
    ghost edited: { Self → T → T };

    /// Changes the element.
    fn edit(&self, item: &mut T)
        ensures { item.new ≡ edited self.now item.old };
}

/// A test of one element.
pub trait Test<T> {
    /// Whether an element passes.
    ghost passed: { Self → T → Bool };

    /// Whether the element passes.
    fn passes(&self, item: &T) -> bool
        ensures { result ≡ passed self.now item.now };
}

/// Passed by each element.
#[derive(Drop)]
pub struct Any;

impl<T> Test<T> for Any {
    ghost use Rattle.std.specs.Prelude.{true};

    ghost passed = { λ _ _. true };

    fn passes(&self, _: &T) -> bool {
        true
    }
}

/// Changes each element in place.
pub(crate) fn edit_all<T, E: Edit<T>>(edit: &E, items: &mut Vec<T>)
    ensures edited { items.new.items ≡ map (E.edited edit.now) items.old.items }
    ensures len { vec_len items.new ≡ vec_len items.old }
    ensures capacity { vec_capacity items.new ≡ vec_capacity items.old }
{
    for item in items.iter_mut() {
        edit.edit(item);
    }
}

/// Keeps the elements that pass, in their order.
pub(crate) fn keep_passing<T: Drop, P: Test<T>>(test: &P, items: &mut Vec<T>)
    ensures kept { items.new.items ≡ filter (P.passed test.now) items.old.items }
    ensures len { vec_len items.new ≤ vec_len items.old }
    ensures capacity { vec_capacity items.new ≡ vec_capacity items.old }
{
    items.retain(|item| test.passes(item));
}
