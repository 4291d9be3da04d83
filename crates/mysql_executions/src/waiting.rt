//! Long data that waits for parameters.

ghost use Rattle.std.specs.Prelude.{◌≡◌, ◌==◌, ◌++◌, OnErr, OnOk, length};
ghost use Rattle.mysql_executions.specs.After.{more_data};

use mysql_bytes::ByteString;
use std::alloc::{AllocError, Global};
use std::collections::BTreeMap;
use std::mem;

/// Whether no data waits.
pub fn none_waits(waiting: &BTreeMap<usize, ByteString>) -> bool
    ensures { result ≡ (length waiting.now.entries == 0) }
{
    waiting.is_empty()
}

/// Appends to bytes.
fn append(alloc: Global, held: &mut ByteString, bytes: &[u8]) -> Result<(), AllocError>
    ensures ok { OnOk result (held.new ≡ held.old ++ bytes.now) }
    ensures err { OnErr result (held.new ≡ held.old) }
{
    let mut grown = mem::replace(held, ByteString::from_vec(Vec::new(alloc))).into_vec();
    let done = grown.extend_from_slice(bytes);
    *held = ByteString::from_vec(grown);
    done
}

/// Keeps data for a parameter, behind what waits for it.
pub fn add_data(
    alloc: Global,
    waiting: &mut BTreeMap<usize, ByteString>,
    place: usize,
    bytes: &[u8],
) -> Result<(), AllocError>
    ensures ok { OnOk result (waiting.new.entries ≡ more_data waiting.old.entries place bytes.now) }
    ensures err { OnErr result (waiting.new.entries ≡ waiting.old.entries) }
{
    match waiting.get_mut(&place) {
        Some(held) => append(alloc, held, bytes),
        None => {
            let copied = ByteString::copy(alloc, bytes)?;
            waiting.insert(place, copied)?;
            Ok(())
        }
    }
}
