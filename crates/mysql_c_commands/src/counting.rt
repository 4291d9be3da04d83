//! How many placeholders a query has.

ghost use Rattle.std.specs.Prelude.{◌≡◌};
ghost use Rattle.mysql_c_handles.specs.Codes.{code_number};
ghost use Rattle.mysql_c_commands.specs.Counting.{CountsPlaces};

use crate::modes::mode_of;
use mysql_c_handles::Code;
use mysql_session::{Query, Refusal};
use std::alloc::Global;

/// Tells how many placeholders a query has.
fn count_places(alloc: Global, query: &[u8], flags: u32, count: &mut usize) -> Code
    ensures { CountsPlaces flags query.now count.old (code_number result) count.new }
{
    let Some((mode, spelling)) = mode_of(flags) else {
        return Code::NoSuchMode;
    };
    match Query::new_in(alloc, query, 0, mode, spelling) {
        Ok(query) => {
            *count = query.place_count();
            Code::Done
        }
        Err(Refusal::Mixed) => Code::Mixed,
        Err(_) => Code::Memory,
    }
}

/// Tells how many placeholders a query has, for a server in the mode that the flags tell.
///
/// Promise: exactly as many as its tokens have in that mode; or the code says why it isn't told, and
/// the number stays (`CountsPlaces`).
pub fn place_count(alloc: Global, query: &[u8], flags: u32, count: &mut usize) -> u32
    ensures { CountsPlaces flags query.now count.old result count.new }
{
    count_places(alloc, query, flags, count).number()
}
