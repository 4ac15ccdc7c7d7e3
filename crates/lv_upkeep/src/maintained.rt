//! How far a view is maintained.
ghost use Rattle.std.specs.Prelude.{◌≡◌, map};
ghost use Rattle.lv_schema.specs.World.{least};

/// The commit to which a view is maintained, and the one to which it is marked as maintained.
#[derive(Clone, Copy, Debug, PartialEq, Eq)]
pub(crate) struct Maintained {
    pub point: u64,
    pub mark: u64,
}

/// The least of a number and the views' points.
pub(crate) fn least_point(most: u64, views: &[Maintained]) -> u64
    ensures { result ≡ least most (map (λ m. m.point) views.now) }
{
    let mut least = most;
    for view in views {
        least = least.min(view.point);
    }
    least
}
