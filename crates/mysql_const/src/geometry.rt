//! Types of geometries, by their numbers in the Well-Known Binary format.
//!
//!     let geometry = GeometryType::try_from(number)?;
//!     let is_point = geometry == GeometryType::GEOM_POINT;

ghost use Rattle.std.specs.Prelude.{◌≡◌};
ghost use Rattle.mysql_const.specs.Tables.{ReadsAs};
ghost use Rattle.mysql_const.specs.Geometries.{geometry_number, geometry_named};

use crate::unknown::write_unknown_number;
use std::error::Error;
use std::fmt;
use std::fmt::{Display, Formatter, Write};

/// The type of a geometry.
///
/// MySQL Reference Manual, "Supported Spatial Data Formats", 'Well-Known Binary (WKB) Format'; 0 is a geometry of
/// any type.
#[allow(non_camel_case_types)]
#[derive(Clone, Copy, PartialEq, Eq, Hash, Debug)]
pub enum GeometryType {
    GEOM_GEOMETRY = 0,
    GEOM_POINT = 1,
    GEOM_LINESTRING = 2,
    GEOM_POLYGON = 3,
    GEOM_MULTIPOINT = 4,
    GEOM_MULTILINESTRING = 5,
    GEOM_MULTIPOLYGON = 6,
    GEOM_GEOMETRYCOLLECTION = 7,
}

/// A number that no [`GeometryType`] has.
#[derive(Clone, Copy, PartialEq, Eq, Debug)]
pub struct UnknownGeometryType(pub u8);

impl Error for UnknownGeometryType {}

impl Display for UnknownGeometryType {
    fn fmt<W: Write>(&self, f: &mut Formatter<W>) -> fmt::Result {
        write_unknown_number(f, "geometry type", i32::from(self.0))
    }
}

/// The number of a [`GeometryType`].
impl From<GeometryType> for u8 {
    ghost from_gives = { λ geometry number. number ≡ geometry_number geometry };

    fn from(geometry: GeometryType) -> u8 {
        geometry as u8
    }
}

/// The [`GeometryType`] of a number. A number without a name is refused, and the refusal carries it.
impl TryFrom<u8> for GeometryType {
    type Error = UnknownGeometryType;

    ghost try_from_gives = { λ number answer. ReadsAs (geometry_named number) (λ unknown. unknown.0) number answer };

    fn try_from(number: u8) -> Result<GeometryType, UnknownGeometryType> {
        match number {
            0 => Ok(GeometryType::GEOM_GEOMETRY),
            1 => Ok(GeometryType::GEOM_POINT),
            2 => Ok(GeometryType::GEOM_LINESTRING),
            3 => Ok(GeometryType::GEOM_POLYGON),
            4 => Ok(GeometryType::GEOM_MULTIPOINT),
            5 => Ok(GeometryType::GEOM_MULTILINESTRING),
            6 => Ok(GeometryType::GEOM_MULTIPOLYGON),
            7 => Ok(GeometryType::GEOM_GEOMETRYCOLLECTION),
            _ => Err(UnknownGeometryType(number)),
        }
    }
}

/// The number that was refused.
impl From<UnknownGeometryType> for u8 {
    ghost from_gives = { λ unknown number. number ≡ unknown.0 };

    fn from(unknown: UnknownGeometryType) -> u8 {
        unknown.0
    }
}
