//! The text of a made script.
ghost use Rattle.std.specs.Prelude.{◌≡◌, ◌++◌, ◌+◌, ◌^◌, ◌<◌, ◌≤◌, ◌==◌, pos, if◌then◌else◌, [], ◌∷◌, map, codes, IfOk, OnOk};
ghost use Rattle.std.specs.List.{range_with_len};
ghost use Rattle.lv_values.specs.declared.value.Value.TheVariants.{Num};
ghost use Rattle.lv_make.specs.ScriptText as spec;

use lv_values::{Bytes, NoMemory, Value, print_values};
use std::alloc::Global;

/// How many items the shop has.
const ITEMS: u32 = 100;

/// How many sales one INSERT has at most.
const SALES: u32 = 500;

/// Two tables, a view that groups, and one that joins.
const SHOP: [&[u8]; 5] = [
    b"@setup",
    b"create table item (id int, price int, primary key (id))",
    b"create table sale (no int, item int, qty int, primary key (no))",
    b"create view per_item as select s.item, sum(s.qty) as total, count(*) as n from sale s, item i where s.item = i.id group by s.item",
    b"create view lines as select s.no, i.id, i.price, s.qty from sale s, item i where s.item = i.id",
];

/// The sessions that change and that read.
const SESSIONS: [&[u8]; 7] = [
    b"@session edit",
    b"update sale set qty = qty + 1 where item = 7",
    b"delete from sale where item = 8",
    b"update item set price = price + 1 where id < 50",
    b"@session read",
    b"select * from per_item",
    b"select * from lines where price > 600",
];

/// Appends lines, a line feed behind each.
fn add_lines(lines: &[&[u8]], out: &mut Bytes) -> Result<(), NoMemory>
    ensures { OnOk result (out.new ≡ out.old ++ spec.text_of (map (λ l. l.now) lines.now)) }
{
    for line in lines {
        out.extend_from_slice(*line)?;
        out.extend_from_slice(b"\n")?;
    }
    Ok(())
}

/// Appends a row as a statement has it.
fn add_tuple(row: &[Value], out: &mut Bytes) -> Result<(), NoMemory>
    ensures { OnOk result (out.new ≡ out.old ++ spec.tuple_text row.now) }
{
    out.extend_from_slice(b"(")?;
    print_values(b", ", row, out)?;
    out.extend_from_slice(b")")
}

/// A number as a value.
fn number(n: u32) -> Value
    ensures { result ≡ Num (pos n) }
{
    Value::Num(i128::from(n))
}

/// Appends item `k`.
fn add_item(k: u32, out: &mut Bytes) -> Result<(), NoMemory>
    requires { k ≤ 65536 }
    ensures { OnOk result (out.new ≡ out.old ++ spec.tuple_text (spec.item_row k)) }
{
    add_tuple(&[number(k), number(7 * k)], out)
}

/// Appends sale `i`.
fn add_sale(i: u32, out: &mut Bytes) -> Result<(), NoMemory>
    ensures { OnOk result (out.new ≡ out.old ++ spec.tuple_text (spec.sale_row i)) }
{
    add_tuple(&[number(i), number(i % 100), number(i % 10)], out)
}

/// Appends a comma and a space, but not before the first tuple.
fn add_comma(at: u32, out: &mut Bytes) -> Result<(), NoMemory>
    ensures { OnOk result (out.new ≡ out.old ++ (if at == 0 then [] else codes ", ")) }
{
    if at == 0 {
        Ok(())
    } else {
        out.extend_from_slice(b", ")
    }
}

/// Appends `count` items as tuples.
#[tactic(auto, unfolding(crate::specs::ScriptText::items))]
fn add_items(count: u32, out: &mut Bytes) -> Result<(), NoMemory>
    requires { count ≤ 65536 }
    ensures { OnOk result (out.new ≡ out.old ++ spec.joined (codes ", ") (map spec.tuple_text (spec.items count))) }
{
    for k in 0..count {
        add_comma(k, out)?;
        add_item(k, out)?;
    }
    Ok(())
}

/// Appends `count` sales from sale `first` on as tuples.
fn add_sales(first: u32, count: u32, out: &mut Bytes) -> Result<(), NoMemory>
    requires { first + count ≤ 2 ^ 31 }
    ensures { OnOk result (out.new ≡ out.old ++ spec.joined (codes ", ") (map spec.tuple_text (map spec.sale_row (range_with_len first count)))) }
{
    for at in 0..count {
        add_comma(at, out)?;
        add_sale(first + at, out)?;
    }
    Ok(())
}

/// Appends the head of the setup, with the tables and views.
#[tactic(auto, unfolding(crate::specs::ScriptText::shop))]
fn add_shop(out: &mut Bytes) -> Result<(), NoMemory>
    ensures { OnOk result (out.new ≡ out.old ++ spec.text_of (codes "@setup" ∷ spec.shop)) }
{
    add_lines(&SHOP, out)
}

/// Appends the words of an INSERT into this table.
#[tactic(auto, unfolding(crate::specs::ScriptText::insert_words))]
fn add_insert_words(table: &[u8], out: &mut Bytes) -> Result<(), NoMemory>
    ensures { OnOk result (out.new ≡ out.old ++ spec.insert_words table.now) }
{
    out.extend_from_slice(b"insert into ")?;
    out.extend_from_slice(table)?;
    out.extend_from_slice(b" values ")
}

/// Appends the INSERT of all items.
fn add_item_line(out: &mut Bytes) -> Result<(), NoMemory>
    ensures { OnOk result (out.new ≡ out.old ++ spec.insert_line (codes "item") (spec.items 100)) }
{
    add_insert_words(b"item", out)?;
    add_items(ITEMS, out)
}

/// Appends the setup.
#[tactic(auto, unfolding(crate::specs::ScriptText::setup_lines))]
fn add_setup(out: &mut Bytes) -> Result<(), NoMemory>
    ensures { OnOk result (out.new ≡ out.old ++ spec.text_of spec.setup_lines) }
{
    add_shop(out)?;
    add_item_line(out)?;
    out.extend_from_slice(b"\n")
}

/// Appends an INSERT of `count` sales from sale `first` on.
fn add_sale_line(first: u32, count: u32, out: &mut Bytes) -> Result<(), NoMemory>
    requires { first + count ≤ 2 ^ 31 }
    ensures { OnOk result (out.new ≡ out.old ++ spec.insert_line (codes "sale") (map spec.sale_row (range_with_len first count))) }
{
    add_insert_words(b"sale", out)?;
    add_sales(first, count, out)
}

/// Appends INSERT `k` of `n` sales, which is there.
fn add_insert(n: u32, k: u32, out: &mut Bytes) -> Result<(), NoMemory>
    requires most { n ≤ 65536 }
    requires there { k < spec.insert_count n }
    ensures { OnOk result (out.new ≡ out.old ++ spec.sale_line n k ++ codes "\n") }
{
    let before = SALES * k;
    add_sale_line(before + 1, SALES.min(n - before), out)?;
    out.extend_from_slice(b"\n")
}

/// How many INSERTs there are for `n` sales.
fn insert_count(n: u32) -> u32
    requires { n ≤ 65536 }
    ensures { result ≡ spec.insert_count n }
{
    n.div_ceil(SALES)
}

/// Appends the INSERTs of `n` sales.
fn add_inserts(n: u32, out: &mut Bytes) -> Result<(), NoMemory>
    requires { n ≤ 65536 }
    ensures { OnOk result (out.new ≡ out.old ++ spec.text_of (spec.insert_lines n)) }
{
    for k in 0..insert_count(n) {
        add_insert(n, k, out)?;
    }
    Ok(())
}

/// Appends the session that loads.
#[tactic(auto, unfolding(crate::specs::ScriptText::load_lines))]
fn add_load(n: u32, out: &mut Bytes) -> Result<(), NoMemory>
    requires { n ≤ 65536 }
    ensures { OnOk result (out.new ≡ out.old ++ spec.text_of (spec.load_lines n)) }
{
    out.extend_from_slice(b"@session load\n")?;
    add_inserts(n, out)
}

/// Appends the sessions that change and that read.
#[tactic(auto, unfolding(crate::specs::ScriptText::edit_lines, crate::specs::ScriptText::edits, crate::specs::ScriptText::read_lines, crate::specs::ScriptText::reads))]
fn add_sessions(out: &mut Bytes) -> Result<(), NoMemory>
    ensures { OnOk result (out.new ≡ out.old ++ spec.text_of (spec.edit_lines ++ spec.read_lines)) }
{
    add_lines(&SESSIONS, out)
}

/// Appends the order's items at INSERT `k`.
fn add_order_items(k: u32, out: &mut Bytes) -> Result<(), NoMemory>
    ensures { OnOk result (out.new ≡ out.old ++ spec.order_items k) }
{
    out.extend_from_slice(b" load")?;
    if k % 4 == 0 {
        out.extend_from_slice(b" work 1")?;
    }
    if k % 8 == 0 {
        out.extend_from_slice(b" clean")?;
    }
    Ok(())
}

/// Appends the order.
fn add_order(n: u32, out: &mut Bytes) -> Result<(), NoMemory>
    requires { n ≤ 65536 }
    ensures { OnOk result (out.new ≡ out.old ++ spec.order_line n ++ codes "\n") }
{
    out.extend_from_slice(b"@order")?;
    for k in 0..insert_count(n) {
        add_order_items(k + 1, out)?;
    }
    out.extend_from_slice(b"\n")
}

/// The script that is made for `n` sales: the setup of a small shop with 100 items, a session that loads the sales by
/// INSERTs of 500 each, one that changes sales and items, one that reads both views, and an order in which a worker and
/// clean-ups come in between. Cost: linear in its text, about 17 bytes for each sale.
pub fn make_script(alloc: Global, n: u32) -> Result<Bytes, NoMemory>
    requires least { 1 ≤ n }
    requires most { n ≤ 65536 }
    ensures { IfOk result (λ text. text ≡ spec.made_script n) }
{
    let mut out = Bytes::new(alloc);
    add_setup(&mut out)?;
    add_load(n, &mut out)?;
    add_sessions(&mut out)?;
    add_order(n, &mut out)?;
    Ok(out)
}
