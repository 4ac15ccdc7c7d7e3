//! The names that a transcript uses.
ghost use Rattle.std.specs.Prelude.{◌≡◌, IfOk, OnOk, ◌∷◌, codes, length, map};
ghost use Rattle.lv_plain.specs.SessionNames.{session_names};
ghost use Rattle.lv_runner.specs.Following.{WereNames, names_now};

use lv_core::Core;
use lv_lines::Names;
use lv_outside::Disk;
use lv_plain::{Program, Texts};
use lv_schema::Schema;
use lv_values::{Copying, NoMemory, Text};
use std::alloc::Global;

/// The names of the setup and the sessions.
fn session_names(alloc: Global, program: &Program) -> Result<Texts, NoMemory>
    ensures { IfOk result (λ names. names ≡ codes "setup" ∷ session_names program.now) }
{
    let mut names = Texts::new(alloc);
    names.push(Text::from_str(alloc, "setup")?)?;
    for session in program.sessions.as_slice() {
        names.push(session.name.copy(alloc)?)?;
    }
    Ok(names)
}

/// The names of the tables, by their numbers. Cost: a copy of them.
fn table_names(alloc: Global, schema: &Schema) -> Result<Texts, NoMemory>
    ensures { IfOk result (λ names. names ≡ map (λ t. t.name) schema.now.tables) }
{
    let mut names = Texts::new(alloc);
    for no in 0..schema.tables() {
        names.push(schema.table(no).name.copy(alloc)?)?;
    }
    Ok(names)
}

/// The names of the views, by their numbers. Cost: a copy of them.
fn view_names(alloc: Global, schema: &Schema) -> Result<Texts, NoMemory>
    ensures { IfOk result (λ names. names ≡ map (λ v. v.name) schema.now.views) }
{
    let mut names = Texts::new(alloc);
    for no in 0..schema.views() {
        names.push(schema.view(no).name.copy(alloc)?)?;
    }
    Ok(names)
}

/// The names that there are now. Cost: a copy of them.
pub(crate) fn names_of<D: Disk>(alloc: Global, core: &Core<D>) -> Result<Names, NoMemory>
    ensures { IfOk result (λ names. names ≡ names_now core.now.run) }
{
    core.known();
    let schema = core.engine().schema();
    Ok(Names {
        sessions: session_names(alloc, core.program())?,
        tables: table_names(alloc, schema)?,
        views: view_names(alloc, schema)?,
    })
}

/// Copies the names of the tables anew, unless there are as many as before. Cost: constant where there are.
fn renew_tables(alloc: Global, schema: &Schema, names: &mut Texts) -> Result<(), NoMemory>
    ensures { OnOk result ((length names.old ≡ length schema.now.tables → names.old ≡ map (λ t. t.name) schema.now.tables) → names.new ≡ map (λ t. t.name) schema.now.tables) }
{
    if names.len() == schema.tables() as usize {
        return Ok(());
    }
    *names = table_names(alloc, schema)?;
    Ok(())
}

/// Copies the names of the views anew, unless there are as many as before. Cost: constant where there are.
fn renew_views(alloc: Global, schema: &Schema, names: &mut Texts) -> Result<(), NoMemory>
    ensures { OnOk result ((length names.old ≡ length schema.now.views → names.old ≡ map (λ v. v.name) schema.now.views) → names.new ≡ map (λ v. v.name) schema.now.views) }
{
    if names.len() == schema.views() as usize {
        return Ok(());
    }
    *names = view_names(alloc, schema)?;
    Ok(())
}

/// Copies the names of the tables, or of the views, anew where there are more of them. Cost: constant where there are not.
pub(crate) fn renew_names<D: Disk>(
    alloc: Global,
    core: &Core<D>,
    names: &mut Names,
) -> Result<(), NoMemory>
    requires { WereNames names.old core.now.run }
    ensures { OnOk result (names.new ≡ names_now core.now.run) }
{
    core.known();
    let schema = core.engine().schema();
    renew_tables(alloc, schema, &mut names.tables)?;
    renew_views(alloc, schema, &mut names.views)?;
    Ok(())
}
