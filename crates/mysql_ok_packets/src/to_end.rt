//! Elements that stand one after another to the end.

ghost use Rattle.std.specs.Prelude.{map, []};
ghost use Rattle.std.specs.List.{flat_map};
ghost use Rattle.mysql_fields.specs.Wire.{Appends, GivesPart};
ghost use Rattle.mysql_ok_packets.specs.Reading.{EatsBytes, to_end_at};

use mysql_buf::ParseBuf;
use mysql_fields::{MyDeserialize, MySerialize, ParseExt, Readable, WireError};
use std::alloc::{AllocError, Global};

// Reads elements to the end, of which each takes a byte at least; the list grows as they come.
pub(crate) fn parse_to_end<'de, T: MyDeserialize<'de> + Readable<Ctx = ()> + Drop>(
    alloc: Global,
    mut rest: ParseBuf<'de>,
) -> Result<Vec<T>, WireError>
    requires { EatsBytes (T.read_at tt) }
    ensures { GivesPart (λ v. map T.shown v.items) [] result (to_end_at (T.read_at tt) rest.entry.0.now) }
{
    let mut items = Vec::new(alloc);
    while !rest.is_empty() {
        let item: T = rest.parse(alloc, ())?;
        items.push(item)?;
    }
    Ok(items)
}

// Appends all elements or none.
pub(crate) fn put_all<T: MySerialize>(all: &[T], buf: &mut Vec<u8>) -> Result<(), AllocError>
    ensures { Appends result buf.old.items buf.new.items (flat_map T.written all.now) }
{
    let len = buf.len();
    for one in all {
        if let Err(e) = one.serialize(buf) {
            buf.truncate(len);
            return Err(e);
        }
    }
    Ok(())
}
