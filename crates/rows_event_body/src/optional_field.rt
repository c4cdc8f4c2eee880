//! Optional fields.

ghost use Rattle.std.specs.Prelude.{◌≡◌, None, Option, List, ℕ, [], length, option_map, unwrap_or, IfOk};
ghost use Rattle.wire_buf.specs.ReadErrors.{ParseFails};
ghost use Rattle.wire_buf.specs.declared.fault.WireFault.TheVariants.{Eof};
ghost use Rattle.rows_table_map.specs.ColumnViews.{slice_bytes};
ghost use Rattle.rows_event_body.specs.RowsEventFields.{IsMaybe, IsOptionalPart, OptionalFails, optional_encoded};

use std::alloc::{AllocError, Allocator, Global};
use std::marker::PhantomData;
use wire_buf::{Inner, MyDeserialize, MySerialize, ParseBuf, WireFault, WireSize};
use wire_fields::{BytesRepr, RawBytes};

/// A field that is present exactly if the context has a context for it.
#[derive(Debug, PartialEq, Eq, Drop)]
pub struct OptionalField<T>(pub Option<T>);

/// The size of such a field, which is unknown before it is read.
pub struct MaybeSize<S>(PhantomData<S>);

impl<S> WireSize for MaybeSize<S> {
    const SIZE: Option<usize> = None;

    ghost SIZE = { None };
}

impl<'de, T: MyDeserialize<'de>> MyDeserialize<'de> for OptionalField<T> {
    const SIZE: Option<usize> = None;

    type Size = MaybeSize<T::Size>;

    type Ctx = Option<T::Ctx>;

    type Fault = T::Fault;

    ghost View = { Option T.View };

    ghost view = { λ v. option_map T.view v.0 };

    ghost encodes = { IsMaybe T.encodes };

    ghost fails_with = { OptionalFails (λ ctx. ParseFails T.Size.SIZE (T.fails_with ctx) (T.Fault.from_gives Eof)) };

    fn deserialize(
        alloc: Global,
        ctx: Option<T::Ctx>,
        buf: &mut ParseBuf<'de>,
    ) -> Result<OptionalField<T>, T::Fault> {
        match ctx {
            Some(ctx) => {
                let value = buf.parse::<T>(alloc, ctx)?;
                Ok(OptionalField(Some(value)))
            }
            None => Ok(OptionalField(None)),
        }
    }

    ghost sized = { λ ctx v bytes rest h. tt };
}

impl<T: Inner> MySerialize for OptionalField<T> {
    ghost View = { Option T.View };

    ghost view = { λ v. option_map T.view v.0 };

    ghost encoding = { IsOptionalPart T.encoding };

    ghost encoded = { optional_encoded T.encoded };

    fn serialize<A: Allocator>(&self, buf: &mut Vec<u8, A>) -> Result<(), WireFault> {
        match &self.0 {
            Some(value) => value.serialize(buf),
            None => Ok(()),
        }
    }
}

impl<T: Inner> Inner for OptionalField<T> {
    ghost before_any = { λ rest. tt };
}

impl<'a, T: BytesRepr> OptionalField<RawBytes<'a, T>> {
    ghost use Rattle.rows_event_body.specs.RowsFieldViews.{maybe_text};

    /// Returns the bytes, if they are present.
    pub(crate) fn as_bytes(&self) -> Option<&[u8]>
        ensures { slice_bytes result ≡ maybe_text self.now }
    {
        match &self.0 {
            Some(bytes) => Some(bytes.as_bytes()),
            None => None,
        }
    }

    /// Returns the number of bytes; 0 if the field is absent.
    pub(crate) fn len(&self) -> usize
        ensures { result ≡ length (unwrap_or (maybe_text self.now) []) }
    {
        match &self.0 {
            Some(bytes) => bytes.len(),
            None => 0,
        }
    }

    /// Returns the same field with bytes of its own.
    pub(crate) fn into_owned(
        self,
        alloc: Global,
    ) -> Result<OptionalField<RawBytes<'static, T>>, AllocError>
        ensures { IfOk result (λ m. maybe_text m ≡ maybe_text self.entry) }
    {
        match self.0 {
            Some(bytes) => {
                let owned = bytes.into_owned(alloc)?;
                Ok(OptionalField(Some(owned)))
            }
            None => Ok(OptionalField(None)),
        }
    }
}
