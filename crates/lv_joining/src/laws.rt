//! Laws about steps that are taken as one: each is the contract of a function that does nothing.
ghost use Rattle.std.specs.Prelude.{◌≡◌, ◌≤◌, ◌+◌, ℕ, Bool, List};
ghost use Rattle.lv_schema.specs.declared.part.Part.{Part};
ghost use Rattle.lv_schema.specs.declared.table.TableDef.{TableDef};
ghost use Rattle.lv_schema.specs.Databases.{Db, IsDatabase};
ghost use Rattle.lv_reach.specs.declared.link.Link.{Link};
ghost use Rattle.lv_reach.specs.declared.rows.AliasRow.{AliasRow};
ghost use Rattle.lv_reach.specs.Cost.{IsReach, cost};
ghost use Rattle.lv_joining.specs.Joining.{KeepsLinks, parts_of};

/// Where the first of two steps keeps links, the one step that leads where both lead costs at most what the two cost
/// together. Without that it may cost more: a row that comes in the second step may agree with rows that went in the first.
/// Steps of a view of one table cost nothing.
pub fn joined_steps_cost_no_more()
    ensures { (links : List Link) (defs : List TableDef) (tables : List ℕ) (first middle last : Db)
        → IsDatabase defs first → IsDatabase defs middle → KeepsLinks links defs tables first middle
        → (near near_one near_two : List AliasRow) (far far_one far_two : ℕ → Bool)
        → IsReach links (parts_of tables first last) near far → IsReach links (parts_of tables first middle) near_one far_one → IsReach links (parts_of tables middle last) near_two far_two
        → cost links (parts_of tables first last) near far ≤ cost links (parts_of tables first middle) near_one far_one + cost links (parts_of tables middle last) near_two far_two }
{}

/// Steps that keep links, one behind the other, keep them together.
pub fn steps_that_keep_links_add_up()
    ensures none { (links : List Link) (defs : List TableDef) (tables : List ℕ) (db : Db) → KeepsLinks links defs tables db db }
    ensures both { (links : List Link) (defs : List TableDef) (tables : List ℕ) (first middle last : Db)
        → KeepsLinks links defs tables first middle → KeepsLinks links defs tables middle last → KeepsLinks links defs tables first last }
{}

/// Each step has a cost: a bound that follows from its near rows and far aliases, whichever they are, stands.
pub fn each_step_has_a_cost()
    ensures { (links : List Link) (parts : List Part) (n m : ℕ) → ((near : List AliasRow) (far : ℕ → Bool) → IsReach links parts near far → n ≤ m) → n ≤ m }
{}
