//! Lists of what one rule reads.

ghost use Rattle.std.specs.Prelude.{◌≡◌, length};
ghost use Rattle.lv_parser.specs.Reading.{Reader, Gives, sees, behind, many_more, separated};

use crate::cursor::Cursor;
use crate::stop::Stop;
use lv_lexer::Class;
use lv_values::Items;
use std::alloc::Global;

/// What one rule reads, as an element of a list.
pub(crate) trait Part: Drop {
    /// How it is read.
    ghost reader: { Reader Self };

    /// Reads one.
    fn read(alloc: Global, cursor: &mut Cursor) -> Result<Self, Stop>
        ensures { Gives (reader cursor.old) result cursor.new };
}

/// A part behind a token of this class.
fn behind<T: Part>(alloc: Global, cursor: &mut Cursor, class: Class) -> Result<T, Stop>
    ensures { Gives (behind class T.reader cursor.old) result cursor.new }
{
    cursor.expect(class)?;
    T::read(alloc, cursor)
}

/// The list so far, and what follows it, each part behind a token of this class.
fn more<T: Part>(
    alloc: Global,
    cursor: &mut Cursor,
    class: Class,
    found: Items<T>,
) -> Result<Items<T>, Stop>
    ensures { Gives (many_more (sees class) (behind class T.reader) found cursor.old) result cursor.new }
{
    let mut found = found;
    'each: for _ in 0..cursor.len() {
        if !cursor.sees(class) {
            break;
        }
        let item = behind(alloc, cursor, class)?;
        found.push(item)?;
    }
    Ok(found)
}

/// One part or more, with a token of this class between.
#[tactic(auto, unfolding(crate::specs::Reading::separated))]
pub(crate) fn separated<T: Part>(
    alloc: Global,
    cursor: &mut Cursor,
    class: Class,
) -> Result<Items<T>, Stop>
    ensures { Gives (separated class T.reader cursor.old) result cursor.new }
{
    let mut found = Items::new(alloc);
    found.push(T::read(alloc, cursor)?)?;
    more(alloc, cursor, class, found)
}
