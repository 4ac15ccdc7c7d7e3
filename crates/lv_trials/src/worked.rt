//! The scripts and the journal that trials are about.

use lv_journal::JournalReader;
use lv_outside::MemDisk;
use lv_values::{Bytes, Items};
use std::alloc::Global;

/// The journal of a table, `item (id int, price int, primary key (id))`, and of a commit, which inserts the row (1, 10).
pub(crate) const JOURNAL: &[u8] =
    b"LVJRNL01\x01\x14\x00\x00\x00\x01\x04item\x02\x02id\x01\x05price\x01\x01\x00\x01&\x00\x00\x00\x03\x01\x00\x00\x00\x00\x00\x00\x00\x01\x00\x00\x00\x00\x01\x00\x00\x00\x01\x02\x01\x01\x00\x00\x00\x00\x00\x00\x00\x01\x0a\x00\x00\x00\x00\x00\x00\x00\x00";

/// What the table has.
pub(crate) const ITEMS: &[u8] = b"@session a
select * from item
";

/// What is answered to it where there is no table, where the table is empty, and where it has the row.
pub(crate) const NO_TABLE: &[u8] = b"a 1 fault 2 unknown name item
";

pub(crate) const NO_ROW: &[u8] = b"a 1 rows 0
";

pub(crate) const ONE_ROW: &[u8] = b"a 1 rows 1
| 1 | 10
";

/// A table, and a transaction that is committed twice.
pub(crate) const TWICE: &[u8] = b"@setup
create table item (id int, price int, primary key (id))
@session a
begin
insert into item values (1, 10)
commit
commit
select * from item
";

/// All rows of two tables.
pub(crate) const LOOK: &[u8] = b"@session a
select * from item
select * from sale
";

/// Two tables, two views, two commits, and a query that forces a step.
pub(crate) const SHOP: &[u8] = b"@setup
create table item (id int, price int, primary key (id))
create table sale (no int, item int, qty int, primary key (no))
create view per_item as select s.item, sum(s.qty) as total, count(*) as n from sale s, item i where s.item = i.id group by s.item
create view lines as select s.no, i.id, i.price, s.qty from sale s, item i where s.item = i.id
@session a
insert into item values (1, 10)
insert into sale values (100, 1, 5)
select * from per_item
";

/// What is answered to it.
pub(crate) const SHOP_TEXT: &[u8] = b"setup 1 ok
setup 2 ok
setup 3 ok
setup 4 ok
a 1 ok 1 commit 1
a 2 ok 1 commit 2
force per_item 0 2
a 3 rows 1
| 1 | 5 | 1
";

/// How often a text has a word.
pub(crate) fn count_of(text: &[u8], word: &[u8]) -> u64 {
    let mut count: u64 = 0;
    for at in 0..text.len() {
        if text[at..].starts_with(word) {
            count = count.saturating_add(1);
        }
    }
    count
}

/// How many records a text says were accepted: each table, each view, and each commit.
pub(crate) fn accepted(text: &[u8]) -> u64 {
    count_of(text, b" ok\n").saturating_add(count_of(text, b" commit "))
}

/// Reads at most 99 records, and counts them.
fn count_records(reader: &mut JournalReader<MemDisk>) -> Option<u64> {
    for count in 0..100 {
        match reader.next() {
            Ok(Some(_)) => {}
            Ok(None) => return Some(count),
            Err(_) => return None,
        }
    }
    None
}

/// How many records a journal has; none where it is bad.
pub(crate) fn records_of(alloc: Global, bytes: &[u8]) -> Option<u64> {
    let bytes = Bytes::from_slice(alloc, bytes).ok()?;
    let mut reader = JournalReader::attach(alloc, MemDisk::new(bytes, Items::new(alloc))).ok()?;
    let count = count_records(&mut reader);
    drop(reader);
    count
}
