//! The sets that a command carries.

ghost use Rattle.std.specs.Prelude.{◌≡◌, ◌++◌, OnOk, OnErr};
ghost use Rattle.mysql_receive.specs.Views.{sets_carried, sets_of};

use mysql_values::Content;
use std::alloc::AllocError;

/// The sets that a command carries. The one set of an execution takes no list of its own.
#[derive(Drop)]
pub enum Carried {
    Nothing,
    One(Vec<Content>),
    Many(Vec<Vec<Content>>),
}

impl Carried {
    /// Appends the sets to others: all of them, or none.
    pub fn append_to(self, sets: &mut Vec<Vec<Content>>) -> Result<(), AllocError>
        ensures ok { OnOk result (sets_of sets.new.items ≡ sets_of sets.old.items ++ sets_carried self) }
        ensures err { OnErr result (sets_of sets.new.items ≡ sets_of sets.old.items) }
    {
        match self {
            Carried::Nothing => Ok(()),
            Carried::One(set) => {
                sets.push(set)?;
                Ok(())
            }
            Carried::Many(mut more) => sets.append(&mut more),
        }
    }
}
