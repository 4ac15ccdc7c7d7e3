//! What is told from the tasks of views.
ghost use Rattle.std.specs.Prelude.{◌≡◌, ◌<◌, ◌-◌, ◌++◌, OnOk};
ghost use Rattle.lv_tasks.specs.Kept.{tasks_kept};
ghost use Rattle.lv_upkeep.specs.Kept.{candidate_in, forced_among, is_claimed_in};

use lv_schema::{Forced, ForcedSteps, Live, Pendings};
use lv_tasks::Tasks;
use lv_values::NoMemory;

/// Puts the planned steps of a view behind others, one after another, from the one commit up to the other.
pub(crate) fn force_into<V: Live>(
    tasks: &Tasks,
    view: u32,
    from: u64,
    limit: u64,
    live: &V,
    combine: u32,
    out: &mut ForcedSteps,
) -> Result<(), NoMemory>
    requires { 0 < combine }
    ensures { OnOk result (out.new ≡ out.old ++ forced_among (V.inside live.now) combine view (tasks_kept tasks.now.tasks view) limit (limit - from) from) }
{
    let mut lo = from;
    while let Some(hi) = tasks.next_range(view, lo, limit, live, combine) {
        out.push(Forced { view, lo, hi })?;
        lo = hi;
    }
    Ok(())
}

/// Whether a worker has claimed a step of the view.
fn is_claimed(claims: &[Option<Forced>], view: u32) -> bool
    ensures { result ≡ is_claimed_in claims.now view }
{
    claims
        .iter()
        .any(|claim| claim.is_some_and(|step| step.view == view))
}

/// Puts the view behind others, if nobody has claimed it and it has pending tasks.
pub(crate) fn candidate_into(
    claims: &[Option<Forced>],
    tasks: &Tasks,
    view: u32,
    out: &mut Pendings,
) -> Result<(), NoMemory>
    ensures { OnOk result (out.new ≡ out.old ++ candidate_in claims.now tasks.now.tasks view) }
{
    if is_claimed(claims, view) {
        return Ok(());
    }
    match tasks.pending(view) {
        Some(pending) => out.push(pending),
        None => Ok(()),
    }
}
