//! A field of one of two forms: the context says which is read, and what is held is written.
//!
//!     let id: Either<RawInt<u8>, RawInt<LeU16>> = buf.parse(alloc, Either::Right(()))?;
//!     let number = id.unwrap_right().get();

ghost use Rattle.std.specs.Prelude.{◌≡◌, ◌⊎◌, ◌||◌};
ghost use Rattle.mysql_field_constants.specs.Either.{EitherIsReadBack, IsLeft, IsRight, either_at, either_shown};
ghost use Rattle.mysql_field_constants.specs.Either.{either_written};
ghost use Rattle.mysql_field_constants.specs.EitherLaws.{either_at-back};
ghost use Rattle.mysql_field_constants.specs.declared.either.Either.TheVariants.{Left, Right};
ghost use Rattle.mysql_fields.specs.Laws.{unsized};

use mysql_buf::ParseBuf;
use mysql_fields::{MyDeserialize, MySerialize, ParseExt, Readable, ReadsBack, WireError};
use std::alloc::{AllocError, Global};

/// One of two values, which writes what it holds. The context says which of the two is read.
#[derive(Clone, Debug, PartialEq, Eq, Drop)]
pub enum Either<T, U> {
    /// The first.
    Left(T),
    /// The second.
    Right(U),
}

impl<T: Drop, U: Drop> Either<T, U> {
    /// The first. It has to be held.
    pub fn unwrap_left(self) -> T
        requires { IsLeft self }
        ensures { self ≡ Left result }
    {
        match self {
            Either::Left(x) => x,
            Either::Right(_) => unreachable!(),
        }
    }

    /// The second. It has to be held.
    pub fn unwrap_right(self) -> U
        requires { IsRight self }
        ensures { self ≡ Right result }
    {
        match self {
            Either::Left(_) => unreachable!(),
            Either::Right(y) => y,
        }
    }
}

impl<T: MySerialize, U: MySerialize> MySerialize for Either<T, U> {
    ghost written = { λ x. either_written T.written U.written x };

    fn serialize(&self, buf: &mut Vec<u8>) -> Result<(), AllocError> {
        match self {
            Either::Left(x) => x.serialize(buf),
            Either::Right(y) => y.serialize(buf),
        }
    }
}

impl<T: Readable, U: Readable> Readable for Either<T, U> {
    type Ctx = Either<T::Ctx, U::Ctx>;

    ghost AsksForMemory = { T.AsksForMemory || U.AsksForMemory };

    ghost Shown = { T.Shown ⊎ U.Shown };

    ghost shown = { either_shown T.shown U.shown };

    ghost read_at = { either_at T.read_at U.read_at };

    ghost kept = { either_shown T.kept U.kept };

    ghost IsReadBack = { EitherIsReadBack T.IsReadBack U.IsReadBack };

    ghost sized = { λ ctx. unsized (either_at T.read_at U.read_at ctx) };

    fn size() -> Option<usize> {
        None
    }
}

impl<T: ReadsBack, U: ReadsBack> ReadsBack for Either<T, U> {
    ghost reads_back = { either_at-back T.IsReadBack U.IsReadBack T.written U.written T.kept U.kept
        T.read_at U.read_at T.reads_back U.reads_back };
}

impl<'de, T: MyDeserialize<'de>, U: MyDeserialize<'de>> MyDeserialize<'de> for Either<T, U> {
    fn deserialize(
        alloc: Global,
        ctx: Either<T::Ctx, U::Ctx>,
        buf: &mut ParseBuf<'de>,
    ) -> Result<Either<T, U>, WireError> {
        match ctx {
            Either::Left(ctx) => Ok(Either::Left(buf.parse(alloc, ctx)?)),
            Either::Right(ctx) => Ok(Either::Right(buf.parse(alloc, ctx)?)),
        }
    }
}
