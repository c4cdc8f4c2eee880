//! Containers, as encoded in a document.

ghost use Rattle.std.specs.Prelude.{◌≡◌, ◌≤◌, length, IfOk};
ghost use Rattle.std.specs.Cow.{cow_slice_items, IsOwnedSlice};
ghost use Rattle.rows_jsonb.specs.JsonbLayout.{format as format_of, header_size};

use crate::storage_format::{ComplexType, StorageFormat};
use std::alloc::{AllocError, Global};
use std::borrow::CowSlice;
use std::marker::PhantomData;

/// An array or an object, whose element count and header have been checked. It borrows from the document or owns its bytes.
#[derive(Drop)]
#[derive_where(PartialEq)]
pub struct ComplexValue<'a, T: StorageFormat, U: ComplexType> {
    pub(crate) element_count: u32,
    pub(crate) bytes: CowSlice<'a, u8>,
    pub(crate) format: PhantomData<(T, U)>,
    ghost header: { header_size (format_of T.IS_LARGE U.IS_ARRAY) element_count ≤ length (cow_slice_items bytes) },
}

impl<T: StorageFormat, U: ComplexType> ComplexValue<'_, T, U> {
    /// Returns the number of elements.
    pub fn element_count(&self) -> u32
        ensures { result ≡ self.now.element_count }
    {
        self.element_count
    }

    /// Returns the same container with bytes of its own.
    pub fn into_owned(self, alloc: Global) -> Result<ComplexValue<'static, T, U>, AllocError>
        ensures count { IfOk result (λ c. c.element_count ≡ self.entry.element_count) }
        ensures bytes { IfOk result
            (λ c. cow_slice_items c.bytes ≡ cow_slice_items self.entry.bytes) }
        ensures owned { IfOk result (λ c. IsOwnedSlice c.bytes) }
    {
        let ComplexValue {
            element_count,
            bytes,
            format,
        } = self;
        Ok(ComplexValue {
            element_count,
            bytes: CowSlice::Owned(bytes.into_owned(alloc)?),
            format,
        })
    }
}
