//! A box of an object whose type names no other type, so that it can pass through C.

ghost use Rattle.std.specs.Prelude.{◌≡◌, IfOk, MatchOption, OnErr, OnOk};
ghost use Rattle.mysql_c_handles.specs.declared.object.Object.{Object};
ghost use Rattle.mysql_c_handles.specs.declared.object.Object.TheVariants.{Empty};
ghost use Rattle.mysql_c_handles.specs.Owned.{handle_owns, object_coded};

use crate::object::Object;
use crate::parts::Parts;
use std::alloc::{AllocError, Global};
use std::marker::Model;
use std::mem::replace;
use std::ptr::null_mut;

/// A handle, as C holds it: one pointer.
#[repr(C)]
pub struct Handle {
    at: *mut u8,
    alloc: Global,
    pub ghost object: { Object } by { object_coded },
}

impl Model for Handle {
    ghost also_owns = { λ h. handle_owns h.alloc h.at h.object };
}

impl Drop for Handle {
    fn drop(self) {
        drop(self.into_box());
    }
}

impl Handle {
    /// A handle that refers to nothing.
    pub fn empty(alloc: Global) -> Handle
        ensures { result.object ≡ Empty }
    {
        Handle {
            at: null_mut(),
            alloc,
        }
    }

    /// A handle of a new object.
    pub fn new(alloc: Global, object: Object) -> Result<Handle, AllocError>
        ensures { IfOk result (λ handle. handle.object ≡ object) }
    {
        Ok(Handle::of(Box::new(alloc, object)?))
    }

    /// The object in this box.
    pub fn of(object: Box<Object>) -> Handle
        ensures { result.object ≡ object.value }
    {
        Handle::of_parts(Parts::of(object))
    }

    /// The box again, or none of an empty handle.
    pub fn into_box(self) -> Option<Box<Object>>
        ensures { MatchOption result (self.object ≡ Empty) (λ b. b.value ≡ self.object) }
    {
        match self.into_parts() {
            Some(parts) => Some(parts.into_box()),
            None => None,
        }
    }

    /// The object, which leaves the handle empty.
    pub fn take(&mut self, alloc: Global) -> Option<Box<Object>>
        ensures taken { MatchOption result (self.old.object ≡ Empty) (λ b. b.value ≡ self.old.object) }
        ensures left { self.new.object ≡ Empty }
    {
        replace(self, Handle::empty(alloc)).into_box()
    }

    /// Makes the handle refer to another object. Where memory is refused the handle stays.
    pub fn set(&mut self, alloc: Global, object: Object) -> Result<(), AllocError>
        ensures done { OnOk result (self.new.object ≡ object) }
        ensures kept { OnErr result (self.new.object ≡ self.old.object) }
    {
        let made = Handle::new(alloc, object)?;
        drop(replace(self, made));
        Ok(())
    }

    /// Puts the object in place of what the handle refers to.
    pub fn put(&mut self, object: Box<Object>)
        ensures { self.new.object ≡ object.value }
    {
        drop(replace(self, Handle::of(object)));
    }

    /// Puts the object in place of what the handle refers to, or frees it where it is empty.
    ///
    /// The handle holds no pointer then.
    pub fn put_unless_empty(&mut self, alloc: Global, object: Box<Object>)
        ensures { self.new.object ≡ object.value }
    {
        match &*object {
            Object::Empty => drop(replace(self, Handle::empty(alloc))),
            _ => self.put(object),
        }
    }

    fn of_parts(parts: Parts<Object, Global>) -> Handle
        ensures { result.object ≡ parts.value }
    {
        let Parts { ptr, alloc } = parts;
        Handle {
            at: ptr as *mut u8,
            alloc,
        }
    }

    fn into_parts(self) -> Option<Parts<Object, Global>>
        ensures { MatchOption result (self.object ≡ Empty) (λ parts. parts.value ≡ self.object) }
    {
        let Handle { at, alloc } = self;
        if at.is_null() {
            return None;
        }
        Some(Parts {
            ptr: at as *mut Object,
            alloc,
        })
    }
}
